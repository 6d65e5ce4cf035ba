// The row of a loop, from its run in the table of loops; and the rows of a book.

#![tactic(auto)]

ghost use Rattle.std.specs.Prelude.{◌≡◌, [], ◌∷◌, ◌++◌, ◌*◌, ◌<◌, ◌≤◌, ◌^◌, pos, nat_abs, length, drop};
ghost use Rattle.book.specs.Limits.{most_lines, most_difference, most_length, most_tolerance};
ghost use Rattle.book.specs.Good.{GoodLines};
ghost use Rattle.loops.specs.Row.{judged_as, row_words};
ghost use Rattle.loops.specs.Report.{loops_of, report_of};
ghost use Rattle.loops.specs.Table.{Table};
ghost use Rattle.rows.specs.Sums.{length_by, tolerance_by, allows_by, rise_by, length_of, allows_of, rise_of, verdict_of, row_of};
ghost use Rattle.rows.specs.Sums.{most_allowed, Measured, Runs, LinesIn, RunIn};

use book::line::Line;
use book::{Book, class};

// "A report row is five numbers": how many, which is which, and how many the report of any book has.
pub const ROW_WORDS: usize = 5;

pub const ROW_CLOSING: usize = 0;

pub const ROW_COUNT: usize = 1;

pub const ROW_LENGTH: usize = 2;

pub const ROW_MISCLOSURE: usize = 3;

pub const ROW_VERDICT: usize = 4;

pub const ROWS_WORDS: usize = Book::MAX_LINES * ROW_WORDS;

// A size from which a misclosure is over without squaring.
const SQUARE_LIMIT: usize = 2147483648;

// The length of the line that a code runs.
fn length_by(lines: &[i64], code: usize) -> usize
    requires measured { Measured lines.now }
    requires runs { Runs lines.now code }
    ensures { result ≡ length_by lines.now code }
{
    signed::index(lines[(code / 2 - 1) * Line::WORDS + Line::LENGTH])
}

// The length that the verdict takes it as.
fn judged_as(metres: usize) -> usize
    ensures { result ≡ judged_as metres }
{
    metres.max(Line::MIN_JUDGED)
}

// Its tolerance, in a book of tolerance t.
fn tolerance_by(lines: &[i64], code: usize, t: usize) -> usize
    requires measured { Measured lines.now }
    requires runs { Runs lines.now code }
    requires tolerable { t ≤ most_tolerance }
    ensures { (result ≡ tolerance_by t lines.now code) × (result ≤ most_tolerance) }
{
    class::tolerance(lines[(code / 2 - 1) * Line::WORDS + Line::CLASS], t)
}

// What it allows there.
fn allows_by(lines: &[i64], code: usize, t: usize) -> usize
    requires measured { Measured lines.now }
    requires runs { Runs lines.now code }
    requires tolerable { t ≤ most_tolerance }
    ensures { (result ≡ allows_by t lines.now code) × (result ≤ most_allowed) }
{
    let tolerance = tolerance_by(lines, code, t);
    tolerance * tolerance * judged_as(length_by(lines, code))
}

// Its difference, in the sense of the code.
fn rise_by(lines: &[i64], code: usize) -> i64
    requires measured { Measured lines.now }
    requires runs { Runs lines.now code }
    ensures { result ≡ rise_by lines.now code }
{
    let d = lines[(code / 2 - 1) * Line::WORDS + Line::DIFFERENCE];
    if code % 2 == 0 { d } else { -d }
}

// The length of a run.
pub fn run_length(lines: &[i64], run: &[u16]) -> usize
    requires measured { Measured lines.now }
    requires run { LinesIn lines.now run.now }
    ensures { (result ≡ length_of lines.now run.now) × (result ≤ most_lines * most_length) }
{
    run.iter()
        .map(|&code| length_by(lines, usize::from(code)))
        .sum()
}

// What the lines of a run allow, in a book of tolerance t.
fn run_allows(lines: &[i64], run: &[u16], t: usize) -> usize
    requires measured { Measured lines.now }
    requires in_book { LinesIn lines.now run.now }
    requires tolerable { t ≤ most_tolerance }
    ensures { (result ≡ allows_of t lines.now run.now) × (result ≤ most_lines * most_allowed) }
{
    run.iter()
        .map(|&code| allows_by(lines, usize::from(code), t))
        .sum()
}

// The rise of a run.
pub fn run_rise(lines: &[i64], run: &[u16]) -> i64
    requires measured { Measured lines.now }
    requires run { LinesIn lines.now run.now }
    ensures { (result ≡ rise_of lines.now run.now) × (nat_abs result ≤ most_lines * most_difference) }
{
    let mut sum = 0;
    for &code in run {
        sum = signed::add(sum, rise_by(lines, usize::from(code)));
    }
    sum
}

// 0 where the misclosure is within what a loop's lines allow, 1 where it is over. A size of 2 to the 31st or more is over in any case;
// below it the square fits.
// A number, the fifth of a row: `verdict_of` says which.
fn verdict(misclosure: i64, allowed: usize) -> i64
    requires { allowed ≤ most_lines * most_allowed }
    ensures { result ≡ verdict_of allowed misclosure }
{
    let size = signed::magnitude(misclosure);
    if SQUARE_LIMIT <= size {
        return 1;
    }
    if size * size <= 10 * allowed {
        return 0;
    }
    1
}

// The numbers of a row.
// Five stores, since each names its place.
fn write_row(
    out: &mut [i64],
    number: usize,
    count: usize,
    metres: usize,
    misclosure: i64,
    verdict: i64,
)
    requires room { length out.old ≡ row_words }
    requires in_range { (number < 2 ^ 63) × (count < 2 ^ 63) × (metres < 2 ^ 63) }
    ensures { out.new ≡ pos number ∷ pos count ∷ pos metres ∷ misclosure ∷ verdict ∷ [] }
{
    out[ROW_CLOSING] = signed::signed_count(number);
    out[ROW_COUNT] = signed::signed_count(count);
    out[ROW_LENGTH] = signed::signed_count(metres);
    out[ROW_MISCLOSURE] = misclosure;
    out[ROW_VERDICT] = verdict;
}

// The row of the loop with this run, in a book of tolerance t.
pub fn row_of(lines: &[i64], run: &[u16], out: &mut [i64], t: usize)
    requires measured { Measured lines.now }
    requires run { RunIn lines.now run.now }
    requires tolerance { t ≤ most_tolerance }
    requires row { length out.old ≡ row_words }
    ensures { out.new ≡ row_of t lines.now run.now }
{
    let metres = run_length(lines, run);
    let misclosure = run_rise(lines, run);
    let over = verdict(misclosure, run_allows(lines, run, t));
    write_row(
        out,
        usize::from(run[0] / 2),
        run.len(),
        metres,
        misclosure,
        over,
    );
}

// The rows of all loops, from place 0 of out on. The table holds the book's loops, so many.
// A range and slices: of what chunks_exact_mut lends a proof knows nothing afterwards.
pub fn write_rows(
    book: Book,
    lines: &[i64],
    starts: &[u64],
    runs: &[u16],
    count: usize,
    out: &mut [i64],
)
    requires good { GoodLines book lines.now }
    requires table { Table (loops_of book.marks lines.now) starts.now runs.now count }
    requires room { count * row_words ≤ length out.old }
    ensures { out.new
        ≡ report_of book.marks book.tolerance lines.now ++ drop (count * row_words) out.old }
{
    let t = book.tolerance;
    for i in 0..count {
        let at = i * ROW_WORDS;
        let begin = starts[i] as usize;
        let end = starts[i + 1] as usize;
        row_of(lines, &runs[begin..end], &mut out[at..at + ROW_WORDS], t);
    }
}
