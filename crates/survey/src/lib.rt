// The public calls on a lent book and its report: survey, re-run and withdrawal.

#![tactic(auto)]

ghost use Rattle.std.specs.Prelude.{◌≡◌};
ghost use Rattle.book.specs.Lent.{lent};
ghost use Rattle.survey.specs.Report.{answer_of};
ghost use Rattle.survey.specs.Survey.{surveyed, survey_of};
ghost use Rattle.survey.specs.Correction.{corrected, rerun_of, withdraw_of};

mod correct;
mod report;

use book::line::Line;
use book::refusal::Refusal;
use table::Found;

// The loops of the book as rows, and how many loops and pieces it has. A refusal leaves the rows as they were.
pub fn survey(
    version: i64,
    b: i64,
    t: i64,
    held: &[i64],
    lines: &[i64],
    rows: &mut [i64],
) -> Result<Found, Refusal>
    ensures { surveyed (answer_of result) rows.new
        ≡ survey_of (lent version b t held.now lines.now) rows.old }
{
    let book = book::test(version, b, t, held, lines)?;
    report::survey_good(book, lines, rows)
}

// The line's difference becomes the new one, and the kept report that of the book as it then stands. A refusal leaves lines and report as
// they were.
pub fn rerun(
    version: i64,
    b: i64,
    t: i64,
    held: &[i64],
    lines: &mut [i64],
    report: &mut [i64],
    line: i64,
    difference: i64,
) -> Result<Found, Refusal>
    ensures { corrected (answer_of result) lines.new report.new
        ≡ rerun_of (lent version b t held.now lines.old) report.old line difference }
{
    let outside = Line::outside_difference(difference);
    let book = book::test_beside(outside, version, b, t, held, lines)?;
    correct::rerun_good(book, lines, report, line, difference)
}

// The line's standing becomes 0, and the kept report that of the book as it then stands. A refusal leaves lines and report as they were.
pub fn withdraw(
    version: i64,
    b: i64,
    t: i64,
    held: &[i64],
    lines: &mut [i64],
    report: &mut [i64],
    line: i64,
) -> Result<Found, Refusal>
    ensures { corrected (answer_of result) lines.new report.new
        ≡ withdraw_of (lent version b t held.now lines.old) report.old line }
{
    let book = book::test(version, b, t, held, lines)?;
    correct::withdraw_good(book, lines, report, line)
}
