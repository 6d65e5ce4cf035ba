// "each step takes the first there is"
ghost use Rattle.std.specs.Prelude.{◌-◌, ◌≤◌, ◌<◌, length, unwrap_or, IfSome};
ghost use Rattle.book.specs.Limits.{most_lines};
ghost use Rattle.joins.specs.Step.{Room, StageIn, Stepped};

use crate::{Counts, ends, merge, off};

// The spur of lowest mark, else the self-closing loop of lowest line, else the merge at the lowest mark; or there is none.
pub(crate) fn step(
    rows: &mut [u64],
    runs: &mut [u16],
    ends: &mut [u64],
    counts: Counts,
) -> Option<Counts>
    requires room { Room rows.old counts }
    requires few { length runs.old ≤ most_lines }
    requires some_mark { 0 < length ends.old }
    requires stage { StageIn (length ends.old - 1) rows.old runs.old counts }
    ensures stepped { Stepped (length ends.old - 1) counts rows.old runs.old
        rows.new runs.new (unwrap_or result counts) }
    ensures fewer { IfSome result (λ next. next.links < counts.links) }
{
    let links = counts.links;
    ends::count(&rows[..links], ends);
    if let Some(mark) = ends::lowest_with(ends, 1) {
        return Some(off::spur(rows, runs, mark, counts));
    }
    if let Some(i) = ends::closed_link(&rows[..links]) {
        return Some(off::closed(rows, runs, i, counts));
    }
    let mark = ends::lowest_with(ends, 2)?;
    Some(merge::at(rows, runs, mark, counts))
}
