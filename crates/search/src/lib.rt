// A search by distance from one mark over chains of halves. A key is a distance and the half that leads there in one number,
// distance * HALVES + half, so that one test compares distance and then line number.

#![tactic(auto)]

ghost use Rattle.std.specs.Prelude.{◌+◌, ◌*◌, ◌<◌, ◌≤◌, IfSome};
ghost use Rattle.chains.specs.Chains.{Bounded, Chained, Heads};
ghost use Rattle.search.specs.Direct.{LeastSum, Direct};
ghost use Rattle.search.specs.Front.{limit, keys, Stage, Offered, Relaxed, RoomSearch, Two, Begun, Turned, Searched};
ghost use Rattle.search.specs.Front.{RoomPath, Leads, Walked, Held, Pathed};

// More than any key.
const LIMIT: u64 = 1152921504606846976;

// Mark o is offered the key k.
fn offer(best: &mut [u64], seg: &mut [u64], n: usize, o: usize, k: u64)
    requires stage { Stage n best.old seg.old }
    requires leaf { o < n }
    ensures { Offered n (keys best.old seg.old) (keys best.new seg.new) o k }
{
    if k < best[o] {
        best[o] = k;
        nearest::lower(seg, n, o, k);
    }
}

// Every half of the chain from first on offers the mark it leads to base and its own sum.
// The walk stands twice, here and in least_sum: one that takes a closure would have to say how it leaves both tables.
pub fn relax(
    next: &[u64],
    ends: &[u64],
    best: &mut [u64],
    seg: &mut [u64],
    n: usize,
    first: usize,
    base: u64,
)
    requires bounded { Bounded n ends.now }
    requires chained { Chained next.now first }
    requires stage { Stage n best.old seg.old }
    requires base { base ≤ limit }
    ensures { Relaxed n next.now ends.now (keys best.old seg.old)
        (keys best.new seg.new) first base }
{
    let mut h = first;
    while 0 < h {
        let e = ends[h];
        let m = e % chains::HALVES;
        let sum = e - m + h as u64;
        offer(best, seg, n, m as usize, base + sum);
        h = next[h] as usize;
    }
}

// A search from the mark r begins: its arrays are cleared, and the halves that leave r are offered.
fn begin(
    head: &[u64],
    next: &[u64],
    ends: &[u64],
    best: &mut [u64],
    seg: &mut [u64],
    n: usize,
    r: usize,
)
    requires bounded { Bounded n ends.now }
    requires heads { Heads n head.now next.now }
    requires room { RoomSearch n best.old seg.old }
    requires a_mark { r < n }
    ensures { Begun n head.now next.now ends.now best.new seg.new r }
{
    nearest::clear(best, n);
    nearest::clear(seg, n * 2);
    best[r] = 0;
    relax(next, ends, best, seg, n, head[r] as usize, 0);
}

// The nearest open mark enters. Unless it is the mark to, it is open no more and its halves are offered.
// The answer is that mark, or 0 where none is open.
// 0 and no Option: `Turned` says so, and theorems of search and tree read its `nothing`.
pub fn turn(
    head: &[u64],
    next: &[u64],
    ends: &[u64],
    best: &mut [u64],
    seg: &mut [u64],
    n: usize,
    to: usize,
) -> usize
    requires bounded { Bounded n ends.now }
    requires heads { Heads n head.now next.now }
    requires stage { Stage n best.old seg.old }
    ensures { Turned n head.now next.now ends.now
        (keys best.old seg.old) (keys best.new seg.new) to result }
{
    let key = seg[1];
    if LIMIT <= key {
        return 0;
    }
    let h = key % chains::HALVES;
    let m = (ends[h as usize] % chains::HALVES) as usize;
    if m == to {
        return m;
    }
    nearest::close(seg, n, m);
    relax(next, ends, best, seg, n, head[m] as usize, key - h);
    m
}

// Distances from the mark r over the chains, until the mark to is in or nothing is left, by at most a turn for each other mark.
fn search(
    head: &[u64],
    next: &[u64],
    ends: &[u64],
    best: &mut [u64],
    seg: &mut [u64],
    n: usize,
    r: usize,
    to: usize,
) -> bool
    requires bounded { Bounded n ends.now }
    requires heads { Heads n head.now next.now }
    requires room { RoomSearch n best.old seg.old }
    requires two { Two n r to }
    ensures { Searched n head.now next.now ends.now best.new r to result }
{
    begin(head, next, ends, best, seg, n, r);
    for _ in 1..n - 1 {
        let m = turn(head, next, ends, best, seg, n, to);
        if m == 0 {
            return false;
        }
        if m == to {
            return true;
        }
    }
    false
}

// The way from the mark m to its root, line by line, into out from place c on: the half of each line as it is run.
// The answer is where they end.
fn way(ends: &[u64], best: &[u64], out: &mut [u16], c: usize, m: usize) -> usize
    requires { Leads best.now ends.now out.old c m }
    ensures { Walked best.now ends.now out.old out.new c m result }
{
    let key = best[m];
    if key == 0 {
        return c;
    }
    let h = key % chains::HALVES;
    let g = h / 2 * 4 + 1 - h;
    out[c] = g as u16;
    way(
        ends,
        best,
        out,
        c + 1,
        (ends[g as usize] % chains::HALVES) as usize,
    )
}

// The least sum of the halves on the chain from first on, or FAR.
// FAR and no Option: `LeastSum` has far of an empty chain, and an Option would be told apart at each half.
fn least_sum(next: &[u64], ends: &[u64], n: usize, first: usize) -> u64
    requires bounded { Bounded n ends.now }
    requires chained { Chained next.now first }
    ensures { LeastSum next.now ends.now first result }
{
    let mut s = nearest::FAR;
    let mut h = first;
    while 0 < h {
        let e = ends[h];
        s = nearest::lesser(s, e - e % chains::HALVES + h as u64);
        h = next[h] as usize;
    }
    s
}

// The half of the least line at the mark r, if it leads to the mark to. It needs no search: nothing is nearer.
fn direct_half(
    head: &[u64],
    next: &[u64],
    ends: &[u64],
    n: usize,
    r: usize,
    to: usize,
) -> Option<u64>
    requires bounded { Bounded n ends.now }
    requires heads { Heads n head.now next.now }
    requires two { Two n r to }
    ensures is_half { IfSome result (λ h. 0 < h) }
    ensures direct { IfSome result (λ h. Direct n head.now next.now ends.now r to h) }
{
    let s = least_sum(next, ends, n, head[r] as usize);
    if LIMIT <= s {
        return None;
    }
    let h = s % chains::HALVES;
    if (ends[h as usize] % chains::HALVES) as usize == to {
        return Some(h);
    }
    None
}

// The shortest path from the mark to back to the mark r.
// 0 and no Option: `Pathed` says so, the count of a path that is empty.
pub fn path(
    head: &[u64],
    next: &[u64],
    ends: &[u64],
    best: &mut [u64],
    seg: &mut [u64],
    out: &mut [u16],
    n: usize,
    r: usize,
    to: usize,
) -> usize
    requires held { Held n head.now next.now ends.now }
    requires room { RoomPath n best.old seg.old out.old }
    requires two { Two n r to }
    ensures { Pathed n head.now next.now ends.now out.old out.new r to result }
{
    if let Some(h) = direct_half(head, next, ends, n, r, to) {
        out[0] = (h / 2 * 4 + 1 - h) as u16;
        return 1;
    }
    if search(head, next, ends, best, seg, n, r, to) {
        return way(ends, best, out, 0, to);
    }
    0
}
