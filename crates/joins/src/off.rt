// Links come off: spurs and self-closing loops.
ghost use Rattle.std.specs.Prelude.{◌<◌};
ghost use Rattle.joins.specs.Step.{Room, EndIn, SpurTaken, LoopIn, LoopTaken};

use crate::{Counts, ends, link};

// The spur at mark m comes off, read from that mark.
pub(crate) fn spur(rows: &mut [u64], runs: &mut [u16], m: usize, counts: Counts) -> Counts
    requires room { Room rows.old counts }
    requires some_end { EndIn m rows.old runs.old counts }
    ensures taken { SpurTaken m counts rows.old runs.old rows.new runs.new result }
    ensures fewer { result.links < counts.links }
{
    let links = counts.links;
    let i = ends::link_at(&rows[..links], m).unwrap();
    link::read_from(rows, runs, i, m);
    link::move_behind(rows, runs, i, links + counts.spurs);
    Counts {
        links: links - 1,
        spurs: counts.spurs + 1,
        ..counts
    }
}

// The self-closing loop at place i comes off, begun with its lowest line.
pub(crate) fn closed(rows: &mut [u64], runs: &mut [u16], i: usize, counts: Counts) -> Counts
    requires room { Room rows.old counts }
    requires closes { LoopIn i rows.old runs.old counts }
    ensures taken { LoopTaken i counts rows.old runs.old rows.new runs.new result }
    ensures fewer { result.links < counts.links }
{
    let links = counts.links;
    link::begin(rows, runs, i);
    link::move_behind(rows, runs, i, links + counts.spurs + counts.loops);
    Counts {
        links: links - 1,
        loops: counts.loops + 1,
        ..counts
    }
}
