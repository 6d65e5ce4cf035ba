// The subgraph of the loops: the tree with the closing lines added so far.

#![tactic(auto)]

ghost use Rattle.chains.specs.Chains.{Bounded};
ghost use Rattle.chains.specs.Link.{RoomChains};
ghost use Rattle.subgraph.specs.Drawn.{Laid, RoomLay, TreeLaid};
ghost use Rattle.subgraph.specs.LoopTurn.{turning, Takes, Taken};

// The line by which a mark of this key came in joins, unless the mark is a root. The answer is the count of lines that joined.
fn lay_mark(ends: &[u64], head: &mut [u64], next: &mut [u64], n: usize, key: u64) -> usize
    requires bounded { Bounded n ends.now }
    requires room { RoomChains n head.old next.old }
    ensures { Laid ends.now head.old next.old head.new next.new key result }
{
    if key == 0 {
        return 0;
    }
    chains::join(ends, head, next, n, (key % chains::HALVES / 2) as usize);
    1
}

// The chains become those of the tree's lines. The answer is the count of these.
pub fn lay_tree(
    ends: &[u64],
    best: &[u64],
    order: &[u64],
    head: &mut [u64],
    next: &mut [u64],
    n: usize,
) -> usize
    requires bounded { Bounded n ends.now }
    requires room { RoomLay n best.now order.now head.old next.old }
    ensures { TreeLaid n ends.now best.now order.now head.new next.new result }
{
    chains::zero(head, n);
    let mut count = 0;
    for mark in order[..n - 1].iter() {
        count += lay_mark(ends, head, next, n, best[*mark as usize]);
    }
    count
}

// The turn of the closing line of this number: its path into out from place 0 on, run from its to end back to its from end; then it joins
// the subgraph, unless the path has one line. The answer is the count of the path's lines.
pub fn take_loop(
    ends: &[u64],
    head: &mut [u64],
    next: &mut [u64],
    best: &mut [u64],
    seg: &mut [u64],
    out: &mut [u16],
    n: usize,
    number: usize,
) -> usize
    requires { Takes n number ends.now head.old next.old best.old seg.old out.old }
    ensures { Taken n number ends.now (turning head.old next.old out.old)
        (turning head.new next.new out.new) result }
{
    let h = number * 2;
    let from = (ends[h + 1] % chains::HALVES) as usize;
    let to = (ends[h] % chains::HALVES) as usize;
    let count = search::path(head, next, ends, best, seg, out, n, from, to);
    if count == 1 {
        return count;
    }
    chains::join(ends, head, next, n, number);
    count
}
