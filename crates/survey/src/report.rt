// The report of a tested book: its loops are found, and their rows written.
ghost use Rattle.std.specs.Prelude.{◌≡◌};
ghost use Rattle.book.specs.Good.{GoodLines};
ghost use Rattle.survey.specs.Report.{answer_of};
ghost use Rattle.survey.specs.Survey.{surveyed, survey_good};

use book::Book;
use book::refusal::Refusal;
use table::Found;

// The rows, or refusal 10.
pub(crate) fn survey_good(book: Book, lines: &[i64], rows: &mut [i64]) -> Result<Found, Refusal>
    requires { GoodLines book lines.now }
    ensures { surveyed (answer_of result) rows.new ≡ survey_good book lines.now rows.old }
{
    let mut starts = [0u64; table::STARTS];
    let mut runs = [0u16; table::RUNS];
    let found = table::find_loops(book, lines, &mut starts[..], &mut runs[..]);
    let count = found.count;
    if rows.len() < count * rows::ROW_WORDS {
        return Err(Refusal::NoRoom);
    }
    rows::write_rows(book, lines, &starts[..], &runs[..], count, rows);
    Ok(found)
}
