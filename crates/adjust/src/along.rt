// The whole adjustment of a tested book along its tree: start, pieces without a held mark, and sweeps.
ghost use Rattle.std.specs.Prelude.{◌≡◌, length};
ghost use Rattle.start.specs.Along.{Blank};
ghost use Rattle.adjust.specs.Adjusted.{adjustment};
ghost use Rattle.adjust.specs.Answers.{answer_by, Answers};
ghost use Rattle.adjust.specs.Call.{GoodEntries};
ghost use Rattle.adjust.specs.Planted.{Planted};

use book::Book;
use book::refusal::Refusal;

// Of a planted book, on arrays of zeros for the held marks; the heights are left in z, and it gives the sweeps.
pub(crate) fn adjust_along(
    book: Book,
    held: &[i64],
    lines: &[i64],
    head: &[u64],
    next: &[u64],
    best: &[u64],
    order: &[u64],
    flags: &mut [bool],
    own: &mut [i64],
    z: &mut [i64],
) -> Result<usize, Refusal>
    requires good { GoodEntries book held.now lines.now }
    requires planted { Planted lines.now book.marks book.lines head.now next.now best.now order.now }
    requires blank { Blank flags.old own.old book.marks }
    requires heights { length z.old ≡ book.marks }
    ensures { Answers (answer_by result) z.new (adjustment book.marks held.now lines.now) }
{
    let b = book.marks;
    let n = book.lines;
    start::hold_all(held, flags, own, b, book.held);
    if let Some(mark) = start::start_heights(lines, order, best, flags, own, z, b, n) {
        return Err(Refusal::NoneHeld(mark));
    }
    Ok(sweeps::settle_lines(lines, head, next, flags, z, b, n)?)
}
