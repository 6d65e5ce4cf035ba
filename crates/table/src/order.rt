// The closing lines in their order, and the subgraph as it begins: the tree.
ghost use Rattle.table.specs.Ordered.{Orders, Ordered};

use crate::Found;

// The numbers of the closing lines go into close from place 0 on, and the chains become those of the tree. Line numbers are below q.
pub(crate) fn order_loops(
    ends: &[u64],
    head: &mut [u64],
    next: &mut [u64],
    best: &[u64],
    order: &[u64],
    close: &mut [u64],
    n: usize,
    q: usize,
) -> Found
    requires { Orders n q ends.now head.old next.old best.now order.now close.old }
    ensures { Ordered n q ends.now best.now order.now head.new next.new
        close.new result }
{
    let count = closing::closing_lines(ends, best, order, close, n, q);
    let tree_lines = subgraph::lay_tree(ends, best, order, head, next, n);
    Found {
        count,
        pieces: n - 1 - tree_lines,
    }
}
