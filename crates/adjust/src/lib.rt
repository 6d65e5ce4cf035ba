// The public calls on a lent book: the adjustment by sweeps, and correction rates. Document 01, "Adjustment".

#![tactic(auto)]

ghost use Rattle.std.specs.Prelude.{◌≡◌};
ghost use Rattle.book.specs.Lent.{lent};
ghost use Rattle.rates.specs.Rates.{answer_of, rate_answer};
ghost use Rattle.adjust.specs.Answers.{answer_by};
ghost use Rattle.adjust.specs.Call.{adjusted, adjust_of};

mod along;
mod heights;

use book::refusal::Refusal;
use rates::LineRate;

// The adjusted heights of the marks, and how many sweeps they took. Refusals 3, 4, 6, 7, 10, 11, then 12 or 13 by whichever comes first;
// a refusal leaves the heights as they were.
pub fn adjust(
    version: i64,
    b: i64,
    t: i64,
    held: &[i64],
    lines: &[i64],
    heights: &mut [i64],
) -> Result<usize, Refusal>
    ensures { adjusted (answer_by result) heights.new
        ≡ adjust_of (lent version b t held.now lines.now) heights.old }
{
    let book = book::test(version, b, t, held, lines)?;
    heights::adjust_good(book, held, lines, heights)
}

// A line's correction rate by the lent heights. Refusals 3, 4, 6, 7, 8 and 13.
pub fn rate(
    version: i64,
    b: i64,
    t: i64,
    held: &[i64],
    lines: &[i64],
    heights: &[i64],
    line: i64,
) -> Result<LineRate, Refusal>
    ensures { answer_of result ≡ rate_answer (lent version b t held.now lines.now) heights.now line }
{
    let outside = !signed::same(signed::signed_count(heights.len()), b);
    let book = book::test_beside(outside, version, b, t, held, lines)?;
    rates::good_rate(lines, heights, book, line)
}
