// Two links become one.
ghost use Rattle.std.specs.Prelude.{◌<◌, ◌≤◌, length};
ghost use Rattle.book.specs.Limits.{most_lines};
ghost use Rattle.joins.specs.Tables.{Two, BecomeOne};
ghost use Rattle.joins.specs.Step.{Room, TwoIn, Merged};

use crate::{Counts, ends, link, row};

// The link at place j, which is read on from the one at place i, becomes a part of it. The other links up to the place `end` close up.
fn join(rows: &mut [u64], runs: &mut [u16], i: usize, j: usize, end: usize)
    requires { Two i j end rows.old runs.old }
    ensures { BecomeOne i j end rows.old runs.old rows.new runs.new }
{
    let one = rows[i];
    let other = rows[j];
    let at = row::lines(&rows[..i + 1]);
    let between = row::lines(&rows[i + 1..j]);
    let count = row::count(other);
    rows[i] = row::new(row::first(one), row::last(other), row::count(one) + count);
    rows[j..end].rotate_left(1);
    runs[at..at + between + count].rotate_left(between);
}

// The two links with an end at mark m become one.
pub(crate) fn at(rows: &mut [u64], runs: &mut [u16], m: usize, counts: Counts) -> Counts
    requires room { Room rows.old counts }
    requires few { length runs.old ≤ most_lines }
    requires two { TwoIn m rows.old runs.old counts }
    ensures merged { Merged m counts rows.old runs.old rows.new runs.new result }
    ensures fewer { result.links < counts.links }
{
    let links = counts.links;
    let i = ends::link_at(&rows[..links], m).unwrap();
    let j = i + 1 + ends::link_at(&rows[i + 1..links], m).unwrap();
    link::read_to(rows, runs, i, m);
    link::read_from(rows, runs, j, m);
    join(rows, runs, i, j, links + counts.spurs + counts.loops);
    Counts {
        links: links - 1,
        ..counts
    }
}
