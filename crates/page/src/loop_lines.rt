// The lines of the loops, read off the table of loops.
ghost use Rattle.std.specs.Prelude.{◌≤◌};
ghost use Rattle.book.specs.Limits.{most_tolerance};
ghost use Rattle.book.specs.Good.{GoodLines};
ghost use Rattle.loops.specs.Report.{loops_of};
ghost use Rattle.loops.specs.Table.{Table};
ghost use Rattle.rows.specs.Sums.{Measured, RunIn};
ghost use Rattle.text.specs.Put.{Put};
ghost use Rattle.page.specs.Page.{loop_lines};
ghost use Rattle.page.specs.Run.{run_line};

use book::Book;

// A loop has no more lines than the book has marks.
const RUN: usize = Book::MAX_MARKS as usize;

// The line of the loop with this run, under this number of the report.
fn put_loop(lines: &[i64], run: &[u16], t: usize, number: usize, out: &mut [u8], at: usize) -> usize
    requires measured { Measured lines.now }
    requires in_book { RunIn lines.now run.now }
    requires tolerable { t ≤ most_tolerance }
    ensures { Put out.old out.new at result (run_line t number lines.now run.now) }
{
    let mut row = [0i64; rows::ROW_WORDS];
    rows::row_of(lines, run, &mut row[..], t);
    let mut list = [0i64; RUN];
    lists::run::list_run(run, &mut list[..]);
    let count = run.len();
    text::loop_text(
        out,
        at,
        number,
        row[rows::ROW_LENGTH],
        row[rows::ROW_MISCLOSURE],
        row[rows::ROW_VERDICT],
        &list[..count],
    )
}

// The lines of all loops, from place at on. The answer is the place after them.
// The lines are put in a for: of what a closure writes through out a proof knows nothing afterwards.
pub(crate) fn put_loops(
    book: Book,
    lines: &[i64],
    starts: &[u64],
    runs: &[u16],
    count: usize,
    out: &mut [u8],
    at: usize,
) -> usize
    requires good { GoodLines book lines.now }
    requires table { Table (loops_of book.marks lines.now) starts.now runs.now count }
    ensures { Put out.old out.new at result
        (loop_lines book.tolerance 1 (loops_of book.marks lines.now)) }
{
    let t = book.tolerance;
    let mut after = at;
    for i in 0..count {
        let begin = starts[i] as usize;
        let end = starts[i + 1] as usize;
        after = put_loop(lines, &runs[begin..end], t, i + 1, out, after);
    }
    after
}
