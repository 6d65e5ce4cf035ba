// "Every standing line begins as a link of its own."
ghost use Rattle.std.specs.Prelude.{◌≤◌, ◌<◌, length};
ghost use Rattle.book.specs.Limits.{most_lines};
ghost use Rattle.book.specs.Good.{GoodLines};
ghost use Rattle.network.specs.Standing.{standing};
ghost use Rattle.links.specs.Sketch.{start_of};
ghost use Rattle.joins.specs.Step.{Tabled};

use crate::{Counts, row};
use book::Book;
use book::line::Line;

// The own links of the standing lines, by rising number.
pub(crate) fn own_links(book: Book, lines: &[i64], rows: &mut [u64], runs: &mut [u16]) -> Counts
    requires good { GoodLines book lines.now }
    requires rows_fit { most_lines ≤ length rows.old }
    requires runs_fit { most_lines ≤ length runs.old }
    ensures { Tabled (start_of (standing lines.now)) rows.new runs.new result }
{
    let b = book.marks;
    let n = book.lines;
    let mut links = 0;
    for i in 0..n {
        if lines[i * Line::WORDS + Line::STANDING] != 0 {
            let from = fields::from_mark(lines, b, n, i);
            let to = fields::to_mark(lines, b, n, i);
            rows[links] = row::new(from, to, 1);
            runs[links] = ((i + 1) * 2) as u16;
            links += 1;
        }
    }
    Counts {
        links,
        spurs: 0,
        loops: 0,
    }
}
