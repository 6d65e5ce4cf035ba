// The tree of a book: all its pieces, by the same search as a path.

#![tactic(auto)]

ghost use Rattle.std.specs.Prelude.{◌+◌, ◌*◌, ◌<◌, ◌≤◌, length, unwrap_or, IfSome};
ghost use Rattle.chains.specs.Chains.{Bounded, Heads};
ghost use Rattle.search.specs.Front.{Stage};
ghost use Rattle.tree.specs.Plant.{FirstFar, growing, Sprouted, Planted, Below, RoomTree};

// The first place from i on that holds FAR, of those below n.
fn first_far(best: &[u64], n: usize, i: usize) -> Option<usize>
    requires places { n ≤ length best.now }
    requires from { i ≤ n }
    ensures first { FirstFar best.now n i (unwrap_or result n) }
    ensures below { IfSome result (λ r. r < n) }
{
    (i..n).find(|m| best[*m] == nearest::FAR)
}

// One mark more, the k-th: by the least key, or, where there is none, the next root. The answer is where the next one is looked for.
fn sprout(
    head: &[u64],
    next: &[u64],
    ends: &[u64],
    best: &mut [u64],
    seg: &mut [u64],
    order: &mut [u64],
    n: usize,
    k: usize,
    root: usize,
) -> usize
    requires bounded { Bounded n ends.now }
    requires heads { Heads n head.now next.now }
    requires stage { Stage n best.old seg.old }
    requires root_ok { root ≤ n }
    requires room { k < length order.old }
    ensures { Sprouted n head.now next.now ends.now
        (growing best.old seg.old order.old)
        (growing best.new seg.new order.new) k root result }
{
    let m = search::turn(head, next, ends, best, seg, n, 0);
    if m != 0 {
        order[k] = m as u64;
        return root;
    }
    let Some(r) = first_far(best, n, root) else {
        return n;
    };
    best[r] = 0;
    search::relax(next, ends, best, seg, n, head[r] as usize, 0);
    order[k] = r as u64;
    r
}

// The whole tree: what each mark is known by, and the marks in the order in which they enter.
pub fn plant(
    head: &[u64],
    next: &[u64],
    ends: &[u64],
    best: &mut [u64],
    seg: &mut [u64],
    order: &mut [u64],
    n: usize,
)
    requires bounded { Bounded n ends.now }
    requires heads { Heads n head.now next.now }
    requires room { RoomTree n best.old seg.old order.old }
    ensures planted { Planted n head.now next.now ends.now best.new order.new }
    ensures below { Below n order.new }
{
    chains::zero(order, n);
    nearest::clear(best, n);
    nearest::clear(seg, n * 2);
    let mut root = 1;
    for k in 0..n - 1 {
        root = sprout(head, next, ends, best, seg, order, n, k, root);
    }
}
