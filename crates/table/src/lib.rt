// The table of a book's loops: they are found once, here, and read by whatever is asked of them.

#![tactic(auto)]

ghost use Rattle.std.specs.Prelude.{◌≡◌};
ghost use Rattle.book.specs.Good.{GoodLines};
ghost use Rattle.loops.specs.Report.{loops_of};
ghost use Rattle.loops.specs.Table.{Table};
ghost use Rattle.table.specs.Filled.{RoomTable, RoomWork, found_in, Fills, Filled};

mod order;

use book::Book;

// How many loops the table holds, and how many pieces the book has.
#[derive(Drop)]
pub struct Found {
    pub count: usize,
    pub pieces: usize,
}

// The places for where each run begins and the last one ends, and for the runs: of any book's loops, and one path more.
pub const STARTS: usize = Book::MAX_LINES + 1;

pub const RUNS: usize = (Book::MAX_MARKS as usize + 1) * (Book::MAX_MARKS as usize + 1);

// The loops take their turns, and the run of each goes into the table: its closing line, then its path.
fn fill(
    ends: &[u64],
    close: &[u64],
    head: &mut [u64],
    next: &mut [u64],
    best: &mut [u64],
    seg: &mut [u64],
    starts: &mut [u64],
    runs: &mut [u16],
    n: usize,
    count: usize,
)
    requires { Fills n count ends.now close.now head.old next.old best.old seg.old starts.old runs.old }
    ensures { Filled n count ends.now close.now head.old next.old starts.new
        runs.new }
{
    let mut at = 0;
    for (i, closing) in close[..count].iter().enumerate() {
        let number = *closing as usize;
        starts[i] = at as u64;
        runs[at] = (number * 2) as u16;
        at = at
            + 1
            + subgraph::take_loop(ends, head, next, best, seg, &mut runs[at + 1..], n, number);
    }
    starts[count] = at as u64;
}

// The loops are found, in work tables that are lent.
fn find_in(
    book: Book,
    lines: &[i64],
    ends: &mut [u64],
    head: &mut [u64],
    next: &mut [u64],
    best: &mut [u64],
    seg: &mut [u64],
    order: &mut [u64],
    close: &mut [u64],
    starts: &mut [u64],
    runs: &mut [u16],
) -> Found
    requires good { GoodLines book lines.now }
    requires room { RoomTable starts.old runs.old }
    requires work { RoomWork ends.old head.old next.old best.old seg.old order.old close.old }
    ensures found { result ≡ found_in book.marks lines.now }
    ensures table { Table (loops_of book.marks lines.now) starts.new runs.new result.count }
{
    let n = book.marks + 1;
    let q = book.lines + 1;
    prepare::plant_book(book, lines, ends, head, next, best, seg, order);
    let found = order::order_loops(ends, head, next, best, order, close, n, q);
    let count = found.count;
    fill(ends, close, head, next, best, seg, starts, runs, n, count);
    found
}

// The loops of a tested book are found, in work tables on the stack.
pub fn find_loops(book: Book, lines: &[i64], starts: &mut [u64], runs: &mut [u16]) -> Found
    requires good { GoodLines book lines.now }
    requires room { RoomTable starts.old runs.old }
    ensures found { result ≡ found_in book.marks lines.now }
    ensures table { Table (loops_of book.marks lines.now) starts.new runs.new result.count }
{
    let mut ends = [0u64; prepare::HALVES];
    let mut head = [0u64; prepare::MARKS];
    let mut next = [0u64; prepare::HALVES];
    let mut best = [0u64; prepare::MARKS];
    let mut seg = [0u64; prepare::MARKS * 2];
    let mut order = [0u64; prepare::MARKS];
    let mut close = [0u64; Book::MAX_LINES];
    find_in(
        book,
        lines,
        &mut ends[..],
        &mut head[..],
        &mut next[..],
        &mut best[..],
        &mut seg[..],
        &mut order[..],
        &mut close[..],
        starts,
        runs,
    )
}
