// Re-run and withdrawal of a line of a tested book.
ghost use Rattle.std.specs.Prelude.{◌≡◌, ◌≤◌, ◌<◌, nat_abs};
ghost use Rattle.laws.specs.Range.{Between};
ghost use Rattle.book.specs.Limits.{most_difference, most_lines};
ghost use Rattle.book.specs.Line.{line_words};
ghost use Rattle.book.specs.Good.{GoodLines};
ghost use Rattle.loops.specs.Report.{loops_of};
ghost use Rattle.table.specs.Filled.{RoomTable};
ghost use Rattle.survey.specs.Report.{answer_of};
ghost use Rattle.survey.specs.Kept.{kept, kept_of, OwnTable, Refresh, Refreshed};
ghost use Rattle.survey.specs.Correction.{no_line, place_of, rerun_lines, withdraw_lines, corrected, correct_good};

use crate::report;
use book::Book;
use book::line::Line;
use book::refusal::Refusal;
use table::Found;

// Whether no line of this number stands.
fn no_line(lines: &[i64], number: i64) -> bool
    ensures { result ≡ no_line lines.now number }
{
    let n = lines.len() / Line::WORDS;
    if signed::outside(number, 1, signed::signed_count(n)) {
        return true;
    }
    let at = (signed::magnitude(number) - 1) * Line::WORDS;
    signed::same(lines[at + Line::STANDING], 0)
}

// The loops are found, and the lent report is compared with their rows: refusal 9. Refusal 8 before it.
fn kept_report(
    book: Book,
    lines: &[i64],
    report: &[i64],
    number: i64,
    starts: &mut [u64],
    runs: &mut [u16],
) -> Result<Found, Refusal>
    requires good { GoodLines book lines.now }
    requires room { RoomTable starts.old runs.old }
    ensures kept { kept result ≡ kept_of book lines.now report.now number }
    ensures table { OwnTable (kept result) (loops_of book.marks lines.now) starts.new runs.new }
{
    if no_line(lines, number) {
        return Err(Refusal::NotThere);
    }
    let found = table::find_loops(book, lines, starts, runs);
    let count = found.count;
    let mut rows = [0i64; rows::ROWS_WORDS];
    rows::write_rows(book, lines, starts, runs, count, &mut rows[..]);
    let words = count * rows::ROW_WORDS;
    if kept::differs(report, &rows[..words]) {
        return Err(Refusal::OtherReport);
    }
    Ok(found)
}

// Where number k of the line of this number stands in the book.
fn place_of(number: i64, k: usize) -> usize
    requires number { Between 1 most_lines number }
    requires field { k < line_words }
    ensures { result ≡ place_of number k }
{
    (signed::magnitude(number) - 1) * Line::WORDS + k
}

// Refusals 8 and 9, or the line's difference is set and the report brought up to date. A re-run keeps every loop's lines, so that the
// loops are found once.
pub(crate) fn rerun_good(
    book: Book,
    lines: &mut [i64],
    report: &mut [i64],
    number: i64,
    difference: i64,
) -> Result<Found, Refusal>
    requires good { GoodLines book lines.old }
    requires difference { nat_abs difference ≤ most_difference }
    ensures { corrected (answer_of result) lines.new report.new
        ≡ correct_good book lines.old report.old number (rerun_lines lines.old number difference) }
{
    let mut starts = [0u64; table::STARTS];
    let mut runs = [0u16; table::RUNS];
    let found = kept_report(book, lines, report, number, &mut starts[..], &mut runs[..])?;
    let at = place_of(number, Line::DIFFERENCE);
    lines[at] = difference;
    let count = found.count;
    rows::write_rows(book, lines, &starts[..], &runs[..], count, report);
    Ok(found)
}

// The report becomes that of the book as it now stands; it kept so many rows before.
// Never inlined: a withdrawal would have this survey's tables on the stack while it compares the lent report.
#[inline(never)]
fn refresh(book: Book, lines: &[i64], report: &mut [i64], before: usize) -> Result<Found, Refusal>
    requires good { GoodLines book lines.now }
    requires refresh { Refresh book lines.now report.old before }
    ensures { Refreshed book lines.now report.old report.new before (answer_of result) }
{
    let found = report::survey_good(book, lines, report)?;
    kept::vacate(
        report,
        found.count * rows::ROW_WORDS,
        before * rows::ROW_WORDS,
    );
    Ok(found)
}

// Refusals 8 and 9, or the line's standing becomes 0 and the report is brought up to date.
pub(crate) fn withdraw_good(
    book: Book,
    lines: &mut [i64],
    report: &mut [i64],
    number: i64,
) -> Result<Found, Refusal>
    requires { GoodLines book lines.old }
    ensures { corrected (answer_of result) lines.new report.new
        ≡ correct_good book lines.old report.old number (withdraw_lines lines.old number) }
{
    let mut starts = [0u64; table::STARTS];
    let mut runs = [0u16; table::RUNS];
    let found = kept_report(book, lines, report, number, &mut starts[..], &mut runs[..])?;
    let at = place_of(number, Line::STANDING);
    lines[at] = 0;
    refresh(book, lines, report, found.count)
}
