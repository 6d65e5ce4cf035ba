// The junction sketch of a book, worked out in two tables: a row and a run of each link, the links that are left first, then the spurs and
// then the self-closing loops that came off. A run has the codes of the link's lines, one after the other; no run moves but to stand behind
// others, so that the runs always have each standing line once.

#![tactic(auto)]

ghost use Rattle.std.specs.Prelude.{◌≡◌, ◌-◌, ◌<◌, ◌≤◌, length};
ghost use Rattle.book.specs.Limits.{most_marks, most_lines};
ghost use Rattle.book.specs.Good.{GoodLines};
ghost use Rattle.network.specs.Standing.{standing};
ghost use Rattle.links.specs.Sketch.{sketch_of};
ghost use Rattle.joins.specs.Step.{Tabled, Room, StageIn, StepsTaken, SketchIn, Finished};

mod ends;
mod link;
mod merge;
mod off;
pub mod row;
mod run;
mod start;
mod step;

use book::Book;

// How many links are left, and how many spurs and self-closing loops came off.
#[derive(Clone, Copy)]
pub struct Counts {
    pub links: usize,
    pub spurs: usize,
    pub loops: usize,
}

// Steps until none is left.
fn take_steps(rows: &mut [u64], runs: &mut [u16], ends: &mut [u64], begun: Counts) -> Counts
    requires room { Room rows.old begun }
    requires few { length runs.old ≤ most_lines }
    requires some_mark { 0 < length ends.old }
    requires stage { StageIn (length ends.old - 1) rows.old runs.old begun }
    ensures { StepsTaken (length ends.old - 1) begun rows.old runs.old
        rows.new runs.new result }
{
    let mut counts = begun;
    while let Some(next) = step::step(rows, runs, ends, counts) {
        counts = next;
    }
    counts
}

// "each from its lower junction to its higher"
fn finish(rows: &mut [u64], runs: &mut [u16], counts: Counts)
    requires room { Room rows.old counts }
    requires sketch { SketchIn rows.old runs.old counts }
    ensures { Finished counts rows.old runs.old rows.new runs.new }
{
    for i in 0..counts.links {
        link::lower_first(rows, runs, i);
    }
}

// The junction sketch, with a place for the ends of each mark lent.
fn sketch_in(
    book: Book,
    lines: &[i64],
    rows: &mut [u64],
    runs: &mut [u16],
    ends: &mut [u64],
) -> Counts
    requires good { GoodLines book lines.now }
    requires rows_fit { length rows.old ≡ most_lines }
    requires runs_fit { length runs.old ≡ most_lines }
    requires ends_fit { most_marks < length ends.old }
    ensures { Tabled (sketch_of book.marks (standing lines.now)) rows.new runs.new result }
{
    let n = book.marks + 1;
    let begun = start::own_links(book, lines, rows, runs);
    let left = take_steps(rows, runs, &mut ends[..n], begun);
    finish(rows, runs, left);
    left
}

// The junction sketch of a tested book: its links, spurs and self-closing loops in the lent tables, and how many there are of each.
pub fn sketch_lines(book: Book, lines: &[i64], rows: &mut [u64], runs: &mut [u16]) -> Counts
    requires { (GoodLines book lines.now) × ((length rows.old ≡ most_lines) × (length runs.old ≡ most_lines)) }
    ensures { Tabled (sketch_of book.marks (standing lines.now)) rows.new runs.new result }
{
    let mut ends = [0u64; Book::MAX_MARKS as usize + 1];
    sketch_in(book, lines, rows, runs, &mut ends[..])
}
