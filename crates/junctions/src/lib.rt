// The junction sketch of a lent book: its links, its spurs and its self-closing loops.

#![tactic(auto)]

ghost use Rattle.std.specs.Prelude.{◌≡◌, ◌≤◌};
ghost use Rattle.book.specs.Lent.{lent};
ghost use Rattle.book.specs.Good.{GoodLines};
ghost use Rattle.book.specs.Limits.{most_lines};
ghost use Rattle.links.specs.Sketch.{Sketch};
ghost use Rattle.rows.specs.Sums.{Measured};
ghost use Rattle.junctions.specs.Call.{answer_of, lists, lists_of, all_in_first_places, drawing, drawn_into, sketch_good, sketch_call};
ghost use Rattle.junctions.specs.Entries.{lines_by, short_by, Roomy, SketchOver, SomeSketch};

mod entries;

use book::Book;
use book::refusal::Refusal;
use joins::{Counts, row};

// "five numbers to an entry: first mark, last mark, count of lines, length, difference in that sense"
pub const ENTRY_WORDS: usize = 5;

pub const ENTRY_FIRST: usize = 0;

pub const ENTRY_LAST: usize = 1;

pub const ENTRY_COUNT: usize = 2;

pub const ENTRY_LENGTH: usize = 3;

pub const ENTRY_DIFFERENCE: usize = 4;

// Places for the entries of any book's links.
pub const ENTRIES_WORDS: usize = Book::MAX_LINES * ENTRY_WORDS;

// How many links, spurs and loops a sketch has, and how many lines their runs have in all.
#[derive(Clone, Copy)]
pub struct Sizes {
    pub links: usize,
    pub spurs: usize,
    pub loops: usize,
    pub run: usize,
}

// The sketch of the book. A refusal leaves each output as it was.
pub fn sketch(
    version: i64,
    b: i64,
    t: i64,
    held: &[i64],
    lines: &[i64],
    links: &mut [i64],
    spurs: &mut [i64],
    loops: &mut [i64],
    run: &mut [i64],
) -> Result<Sizes, Refusal>
    ensures { drawing (answer_of result) (lists links.new spurs.new loops.new run.new)
        ≡ sketch_call (lent version b t held.now lines.now)
        (lists links.old spurs.old loops.old run.old) }
{
    let book = book::test(version, b, t, held, lines)?;
    sketch_good(book, lines, links, spurs, loops, run)
}

// The sketch of a tested book, in tables on the stack.
pub fn sketch_good(
    book: Book,
    lines: &[i64],
    links: &mut [i64],
    spurs: &mut [i64],
    loops: &mut [i64],
    run: &mut [i64],
) -> Result<Sizes, Refusal>
    requires { GoodLines book lines.now }
    ensures { drawing (answer_of result) (lists links.new spurs.new loops.new run.new)
        ≡ sketch_good book lines.now (lists links.old spurs.old loops.old run.old) }
{
    let mut rows = [0u64; Book::MAX_LINES];
    let mut runs = [0u16; Book::MAX_LINES];
    let found = joins::sketch_lines(book, lines, &mut rows[..], &mut runs[..]);
    write(lines, &rows[..], &runs[..], found, links, spurs, loops, run)
}

// Whether one of the outputs is too short.
#[tactic(auto, unfolding(crate::specs::Entries::short_by))]
fn any_short(
    found: Counts,
    n: usize,
    links: &[i64],
    spurs: &[i64],
    loops: &[i64],
    run: &[i64],
) -> bool
    requires few_links { found.links ≤ most_lines }
    requires few_spurs { found.spurs ≤ most_lines }
    requires few_loops { found.loops ≤ most_lines }
    ensures { result ≡ short_by found n (lists links.now spurs.now loops.now run.now) }
{
    entries::is_short(links, found.links)
        || entries::is_short(spurs, found.spurs)
        || entries::is_short(loops, found.loops)
        || run.len() < n
}

// The three lists and the run of n lines.
// Three calls: of what a closure writes through the outputs a proof knows nothing afterwards.
fn write_all(
    lines: &[i64],
    rows: &[u64],
    runs: &[u16],
    found: Counts,
    n: usize,
    links: &mut [i64],
    spurs: &mut [i64],
    loops: &mut [i64],
    run: &mut [i64],
)
    requires measured { Measured lines.now }
    requires some_sketch { SomeSketch lines.now rows.now runs.now found }
    requires so_many { n ≡ lines_by rows.now found }
    requires room { Roomy found n (lists links.old spurs.old loops.old run.old) }
    ensures { (s : Sketch) → SketchOver lines.now s rows.now runs.now found
        → lists links.new spurs.new loops.new run.new
        ≡ all_in_first_places (lists_of s) (lists links.old spurs.old loops.old run.old) }
{
    let kept = found.links;
    let off = kept + found.spurs;
    let all = off + found.loops;
    let a = entries::write(lines, &rows[..kept], runs, links);
    let b = entries::write(lines, &rows[kept..off], &runs[a..], spurs);
    entries::write(lines, &rows[off..all], &runs[a + b..], loops);
    lists::run::list_run(&runs[..n], run);
}

// The three lists and the run, or 10.
fn write(
    lines: &[i64],
    rows: &[u64],
    runs: &[u16],
    found: Counts,
    links: &mut [i64],
    spurs: &mut [i64],
    loops: &mut [i64],
    run: &mut [i64],
) -> Result<Sizes, Refusal>
    requires measured { Measured lines.now }
    requires some_sketch { SomeSketch lines.now rows.now runs.now found }
    ensures { (s : Sketch) → SketchOver lines.now s rows.now runs.now found
        → drawing (answer_of result) (lists links.new spurs.new loops.new run.new)
        ≡ drawn_into s (lists links.old spurs.old loops.old run.old) }
{
    let n = row::lines(&rows[..found.links + found.spurs + found.loops]);
    if any_short(found, n, links, spurs, loops, run) {
        return Err(Refusal::NoRoom);
    }
    write_all(lines, rows, runs, found, n, links, spurs, loops, run);
    Ok(Sizes {
        links: found.links,
        spurs: found.spurs,
        loops: found.loops,
        run: n,
    })
}
