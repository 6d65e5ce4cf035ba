// Which marks have how many link ends, and which links have an end at a mark.
ghost use Rattle.std.specs.Prelude.{◌≡◌, ℕ, ◌*◌, ◌<◌, ◌≤◌, eqb, length, get_or, position};
ghost use Rattle.book.specs.Limits.{most_lines};
ghost use Rattle.joins.specs.Row.{row_ends, row_has_end, row_closes, one_more, Between};

use crate::row;

// One link end more at mark m.
fn one_more(ends: &mut [u64], m: usize)
    requires there { m < length ends.old }
    requires few { get_or ends.old m 0 ≤ 2 * most_lines }
    ensures { ends.new ≡ one_more ends.old m }
{
    ends[m] += 1;
}

// How many link ends each mark has, by its number.
pub(crate) fn count(rows: &[u64], ends: &mut [u64])
    requires few { length rows.now ≤ most_lines }
    requires among { Between rows.now (length ends.old) }
    ensures { (m : ℕ) → m < length ends.old → get_or ends.new m 0 ≡ row_ends m rows.now }
{
    ends.fill(0);
    for &row in rows {
        one_more(ends, row::first(row));
        one_more(ends, row::last(row));
    }
}

// The lowest mark that has so many, one or more; the place 0 stands for no mark, and counts none.
pub(crate) fn lowest_with(ends: &[u64], k: u64) -> Option<usize>
    ensures { result ≡ position (λ n. eqb n k) ends.now }
{
    ends.iter().position(|&n| n == k)
}

// The place of the first link with an end at mark m.
pub(crate) fn link_at(rows: &[u64], m: usize) -> Option<usize>
    ensures { result ≡ position (row_has_end m) rows.now }
{
    rows.iter().position(|&row| row::has_end(row, m))
}

// The place of the first link from a mark to itself.
pub(crate) fn closed_link(rows: &[u64]) -> Option<usize>
    ensures { result ≡ position row_closes rows.now }
{
    rows.iter().position(|&row| row::closes(row))
}
