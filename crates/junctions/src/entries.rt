// The five numbers of a link, and those of a list of links.
ghost use Rattle.std.specs.Prelude.{◌≡◌, List, ◌*◌, ◌<◌, ◌≤◌, ltb, length};
ghost use Rattle.book.specs.Limits.{most_lines};
ghost use Rattle.links.specs.Link.{Link};
ghost use Rattle.links.specs.Sketch.{entry_words};
ghost use Rattle.rows.specs.Sums.{Measured, LinesIn};
ghost use Rattle.joins.specs.Row.{row_limit, first_of, last_of};
ghost use Rattle.junctions.specs.Entries.{entry_by, ListIn, SomeIn, Wrote};

use crate::{ENTRY_COUNT, ENTRY_DIFFERENCE, ENTRY_FIRST, ENTRY_LAST, ENTRY_LENGTH, ENTRY_WORDS};
use joins::row;

// Whether an output has no room for so many entries.
pub(crate) fn is_short(out: &[i64], count: usize) -> bool
    requires { count ≤ most_lines }
    ensures { result ≡ ltb (length out.now) (count * entry_words) }
{
    out.len() < count * ENTRY_WORDS
}

// The numbers of one link.
fn write_entry(lines: &[i64], r: u64, run: &[u16], out: &mut [i64])
    requires measured { Measured lines.now }
    requires lines_in { LinesIn lines.now run.now }
    requires room { length out.old ≡ entry_words }
    requires first_fits { first_of r < row_limit }
    requires last_fits { last_of r < row_limit }
    ensures { out.new ≡ entry_by lines.now r run.now }
{
    out[ENTRY_FIRST] = signed::signed_count(row::first(r));
    out[ENTRY_LAST] = signed::signed_count(row::last(r));
    out[ENTRY_COUNT] = signed::signed_count(run.len());
    out[ENTRY_LENGTH] = signed::signed_count(rows::run_length(lines, run));
    out[ENTRY_DIFFERENCE] = rows::run_rise(lines, run);
}

// The numbers of the links, from place 0 of out on; their runs stand from place 0 of runs on. The answer is how many lines they have.
pub(crate) fn write(lines: &[i64], rows: &[u64], runs: &[u16], out: &mut [i64]) -> usize
    requires measured { Measured lines.now }
    requires some_links { SomeIn lines.now rows.now runs.now }
    requires room { length rows.now * entry_words ≤ length out.old }
    ensures { (xs : List Link) → ListIn lines.now xs rows.now runs.now
        → Wrote xs out.old out.new result }
{
    let mut at = 0;
    for (i, &r) in rows.iter().enumerate() {
        let to = at + row::count(r);
        let place = i * ENTRY_WORDS;
        write_entry(
            lines,
            r,
            &runs[at..to],
            &mut out[place..place + ENTRY_WORDS],
        );
        at = to;
    }
    at
}
