// What is done to one link, by its place: its row and its run stay together.
ghost use Rattle.std.specs.Prelude.{◌<◌, get_or};
ghost use Rattle.links.specs.Link.{turned, read_from, read_to, lower_first, begun};
ghost use Rattle.joins.specs.Row.{count_of};
ghost use Rattle.joins.specs.Tables.{LinkAt, Becomes, Behind, GoesBehind};

use crate::{row, run};

// The link is read the other way.
pub(crate) fn turn(rows: &mut [u64], runs: &mut [u16], i: usize)
    requires { LinkAt i rows.old runs.old }
    ensures { Becomes (λ x. turned x) i rows.old runs.old rows.new runs.new }
{
    let r = rows[i];
    let at = row::lines(&rows[..i]);
    let count = row::count(r);
    rows[i] = row::new(row::last(r), row::first(r), count);
    run::turn(&mut runs[at..at + count]);
}

// The link, which has an end at mark m, is read from m.
// It and the two below share `turn`; one that takes the test as a closure is as long as the if, and wants clauses on it.
pub(crate) fn read_from(rows: &mut [u64], runs: &mut [u16], i: usize, m: usize)
    requires { LinkAt i rows.old runs.old }
    ensures { Becomes (λ x. read_from m x) i rows.old runs.old rows.new runs.new }
{
    if row::first(rows[i]) != m {
        turn(rows, runs, i);
    }
}

// The link, which has an end at mark m, is read to m.
pub(crate) fn read_to(rows: &mut [u64], runs: &mut [u16], i: usize, m: usize)
    requires { LinkAt i rows.old runs.old }
    ensures { Becomes (λ x. read_to m x) i rows.old runs.old rows.new runs.new }
{
    if row::last(rows[i]) != m {
        turn(rows, runs, i);
    }
}

// The link is read from its lower mark.
pub(crate) fn lower_first(rows: &mut [u64], runs: &mut [u16], i: usize)
    requires { LinkAt i rows.old runs.old }
    ensures { Becomes (λ x. lower_first x) i rows.old runs.old rows.new runs.new }
{
    if row::last(rows[i]) < row::first(rows[i]) {
        turn(rows, runs, i);
    }
}

// The link begins with its lowest line, positive.
pub(crate) fn begin(rows: &[u64], runs: &mut [u16], i: usize)
    requires there { LinkAt i rows.now runs.old }
    requires some_line { 0 < count_of (get_or rows.now i 0) }
    ensures { Becomes (λ x. begun x) i rows.now runs.old rows.now runs.new }
{
    let at = row::lines(&rows[..i]);
    let count = row::count(rows[i]);
    run::begin_lowest(&mut runs[at..at + count]);
}

// The link goes behind all others up to the place `end`.
pub(crate) fn move_behind(rows: &mut [u64], runs: &mut [u16], i: usize, end: usize)
    requires { Behind i end rows.old runs.old }
    ensures { GoesBehind i end rows.old runs.old rows.new runs.new }
{
    let at = row::lines(&rows[..i]);
    let count = row::count(rows[i]);
    let after = at + row::lines(&rows[i..end]);
    rows[i..end].rotate_left(1);
    runs[at..after].rotate_left(count);
}
