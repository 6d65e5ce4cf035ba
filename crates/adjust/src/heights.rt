// The adjustment of a tested book, in tables of its own on the stack.
ghost use Rattle.std.specs.Prelude.{◌≡◌, ◌≤◌, length};
ghost use Rattle.prepare.specs.Prepared.{RoomBook};
ghost use Rattle.adjust.specs.Adjusted.{adjustment};
ghost use Rattle.adjust.specs.Answers.{answer_by, Answers};
ghost use Rattle.adjust.specs.Call.{GoodEntries, adjusted, adjust_good};

use crate::along::adjust_along;
use book::Book;
use book::refusal::Refusal;

// A place for each mark of any book.
const MARKS: usize = Book::MAX_MARKS as usize;

// The book is planted in tables that are lent, and adjusted along its tree.
fn adjust_in(
    book: Book,
    held: &[i64],
    lines: &[i64],
    ends: &mut [u64],
    head: &mut [u64],
    next: &mut [u64],
    best: &mut [u64],
    seg: &mut [u64],
    order: &mut [u64],
    z: &mut [i64],
) -> Result<usize, Refusal>
    requires good { GoodEntries book held.now lines.now }
    requires room { RoomBook ends.old head.old next.old best.old seg.old order.old }
    requires heights { length z.old ≡ book.marks }
    ensures { Answers (answer_by result) z.new (adjustment book.marks held.now lines.now) }
{
    let b = book.marks;
    let mut flags = [false; MARKS];
    let mut own = [0i64; MARKS];
    prepare::plant_book(book, lines, ends, head, next, best, seg, order);
    adjust_along(
        book,
        held,
        lines,
        head,
        next,
        best,
        order,
        &mut flags[..b],
        &mut own[..b],
        z,
    )
}

// The adjustment, its heights left in z.
fn adjust_into(book: Book, held: &[i64], lines: &[i64], z: &mut [i64]) -> Result<usize, Refusal>
    requires good { GoodEntries book held.now lines.now }
    requires heights { length z.old ≡ book.marks }
    ensures { Answers (answer_by result) z.new (adjustment book.marks held.now lines.now) }
{
    let mut ends = [0u64; prepare::HALVES];
    let mut head = [0u64; prepare::MARKS];
    let mut next = [0u64; prepare::HALVES];
    let mut best = [0u64; prepare::MARKS];
    let mut seg = [0u64; prepare::MARKS * 2];
    let mut order = [0u64; prepare::MARKS];
    adjust_in(
        book, held, lines, &mut ends, &mut head, &mut next, &mut best, &mut seg, &mut order, z,
    )
}

// A refusal leaves the lent heights as they were.
fn adjust_by(
    book: Book,
    held: &[i64],
    lines: &[i64],
    z: &mut [i64],
    heights: &mut [i64],
) -> Result<usize, Refusal>
    requires good { GoodEntries book held.now lines.now }
    requires work { length z.old ≡ book.marks }
    requires room { book.marks ≤ length heights.old }
    ensures { adjusted (answer_by result) heights.new ≡ adjust_good book held.now lines.now heights.old }
{
    let sweeps = adjust_into(book, held, lines, z)?;
    kept::put(z, heights);
    Ok(sweeps)
}

// The adjustment, or 10.
pub(crate) fn adjust_good(
    book: Book,
    held: &[i64],
    lines: &[i64],
    heights: &mut [i64],
) -> Result<usize, Refusal>
    requires { GoodEntries book held.now lines.now }
    ensures { adjusted (answer_by result) heights.new ≡ adjust_good book held.now lines.now heights.old }
{
    let b = book.marks;
    if heights.len() < b {
        return Err(Refusal::NoRoom);
    }
    let mut z = [0i64; MARKS];
    adjust_by(book, held, lines, &mut z[..b], heights)
}
