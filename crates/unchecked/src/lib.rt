// The lines that no loop checks, from the tree and its closing lines alone: no loop is worked out, and the closing lines are put
// in no order.

#![tactic(auto)]

ghost use Rattle.std.specs.Prelude.{◌≡◌, ◌+◌, ◌*◌, ◌-◌, ◌<◌, length};
ghost use Rattle.chains.specs.Chains.{mark_of};
ghost use Rattle.closing.specs.Order.{Put};
ghost use Rattle.unchecked.specs.Ways.{mark_limit, Climbed, Follows, Followed, Checks, LoopChecked};
ghost use Rattle.unchecked.specs.Ways.{closes_at, Closes, Passed, LinesChecked};
ghost use Rattle.unchecked.specs.List.{is_open, open_from, RoomOpen, Ready, NotChecked};
ghost use Rattle.book.specs.Good.{GoodLines};
ghost use Rattle.prepare.specs.Prepared.{RoomBook};
ghost use Rattle.unchecked.specs.Book.{RoomList, BookListed};

use book::Book;
use prepare::{HALVES, MARKS};

// The places of marked, one for each line number. ends, marked and best are lent as arrays, each by one pointer, so that the call at the
// end of `follow` is compiled to a jump. Slices would be handed on by copies on the stack, and it would stay a call.
pub const NUMBERS: usize = chains::NUMBERS as usize;

// What stands at the number of a line that is checked.
const CHECKED: u64 = 1;

// The line by which the mark m came in is checked. The answer is the mark at its other end.
fn climb(ends: &[u64; HALVES], best: &[u64; MARKS], marked: &mut [u64; NUMBERS], m: usize) -> usize
    requires { m < mark_limit }
    ensures { Climbed ends.now best.now marked.old marked.new m result }
{
    let h = best[m] % chains::HALVES;
    marked[(h / 2) as usize] = CHECKED;
    (ends[(h / 2 * 4 + 1 - h) as usize] % chains::HALVES) as usize
}

// The lines on the way of the mark u or of the mark v, but not of both, are checked: the two ways are followed until they meet, always
// from the farther mark. Document 01: "A mark's way to its root is followed line by line, and the distance falls at each step."
fn follow(
    ends: &[u64; HALVES],
    best: &[u64; MARKS],
    marked: &mut [u64; NUMBERS],
    u: usize,
    v: usize,
)
    requires { Follows ends.now best.now marked.old u v }
    ensures followed { Followed ends.now best.now marked.old marked.new u v }
    ensures marked_len_unchanged { length marked.new ≡ length marked.old }
{
    let key_u = best[u];
    let key_v = best[v];
    if key_u == key_v {
        return;
    }
    if key_u < key_v {
        let nearer = climb(ends, best, marked, v);
        follow(ends, best, marked, nearer, u);
    } else {
        let nearer = climb(ends, best, marked, u);
        follow(ends, best, marked, nearer, v);
    }
}

// The closing line of this number is checked, and so is every line that it crosses.
fn check_loop(ends: &[u64; HALVES], best: &[u64; MARKS], marked: &mut [u64; NUMBERS], number: usize)
    requires { Checks ends.now best.now marked.old number }
    ensures loop_checked { LoopChecked ends.now best.now marked.old marked.new number }
    ensures marked_len_unchanged { length marked.new ≡ length marked.old }
{
    marked[number] = CHECKED;
    let from = (ends[number * 2 + 1] % chains::HALVES) as usize;
    let to = (ends[number * 2] % chains::HALVES) as usize;
    follow(ends, best, marked, from, to);
}

// The line of this number stands, and neither of its ends came in by it: it closes a loop.
fn closes(ends: &[u64], best: &[u64], number: usize) -> bool
    requires halves { number * 2 + 1 < length ends.now }
    requires to_known { mark_of ends.now (number * 2) < length best.now }
    requires from_known { mark_of ends.now (number * 2 + 1) < length best.now }
    ensures { result ≡ closes_at ends.now best.now number }
{
    let e = ends[number * 2];
    if e == 0 {
        return false;
    }
    let to = (e % chains::HALVES) as usize;
    if (best[to] % chains::HALVES / 2) as usize == number {
        return false;
    }
    let from = (ends[number * 2 + 1] % chains::HALVES) as usize;
    (best[from] % chains::HALVES / 2) as usize != number
}

// If the line of this number closes a loop, it is checked with every line that it crosses.
fn check_line(
    ends: &[u64; HALVES],
    best: &[u64; MARKS],
    marked: &mut [u64; NUMBERS],
    number: usize,
    q: usize,
)
    requires closes { Closes ends.now best.now marked.old q }
    requires a_number { number < q }
    ensures passed { Passed ends.now best.now marked.old marked.new number }
    ensures marked_len_unchanged { length marked.new ≡ length marked.old }
{
    if closes(ends, best, number) {
        check_loop(ends, best, marked, number);
    }
}

// Every line that is checked is marked, and no other: the closing lines, in whatever order, and the lines that they cross.
// Line numbers are below q.
fn check_lines(ends: &[u64; HALVES], best: &[u64; MARKS], marked: &mut [u64; NUMBERS], q: usize)
    requires { Closes ends.now best.now marked.old q }
    ensures { LinesChecked ends.now best.now marked.new q }
{
    chains::zero(marked, NUMBERS);
    for number in 1..q {
        check_line(ends, best, marked, number, q);
    }
}

// The line of this number stands and is not marked.
fn is_open(ends: &[u64], marked: &[u64], number: usize) -> bool
    requires halves { number * 2 < length ends.now }
    requires marks { number < length marked.now }
    ensures { result ≡ is_open ends.now marked.now number }
{
    if ends[number * 2] == 0 {
        return false;
    }
    marked[number] != CHECKED
}

// The numbers below q of the lines that stand and are not marked, by rising number, into out from place 0 on, and how many there are.
fn list_open(ends: &[u64], marked: &[u64], out: &mut [u64], q: usize) -> usize
    requires { RoomOpen ends.now marked.now out.old q }
    ensures { Put (open_from ends.now marked.now 1 (q - 1)) out.old out.new result }
{
    let mut c = 0;
    for number in 1..q {
        if is_open(ends, marked, number) {
            out[c] = number as u64;
            c += 1;
        }
    }
    c
}

// The numbers of the standing lines that no loop checks, by rising number, into out from place 0 on, and how many there are.
// Line numbers are below q.
fn not_checked(
    ends: &[u64; HALVES],
    best: &[u64; MARKS],
    marked: &mut [u64; NUMBERS],
    out: &mut [u64],
    q: usize,
) -> usize
    requires { Ready ends.now best.now marked.old out.old q }
    ensures { NotChecked ends.now best.now out.old out.new q result }
{
    check_lines(ends, best, marked, q);
    list_open(ends, marked, out, q)
}

// The numbers of the lent book's standing lines that no loop checks, by rising number, into out from place 0 on, and how many there are.
// The other tables are for the work. Marks are below n.
pub fn list_book(
    book: Book,
    lines: &[i64],
    ends: &mut [u64; HALVES],
    head: &mut [u64],
    next: &mut [u64],
    best: &mut [u64; MARKS],
    seg: &mut [u64],
    order: &mut [u64],
    marked: &mut [u64; NUMBERS],
    out: &mut [u64],
) -> usize
    requires good { GoodLines book lines.now }
    requires tables { RoomBook ends.old head.old next.old best.old seg.old order.old }
    requires room { RoomList marked.old out.old }
    ensures { BookListed book.marks lines.now out.old out.new result }
{
    prepare::plant_book(book, lines, ends, head, next, best, seg, order);
    not_checked(ends, best, marked, out, book.lines + 1)
}
