// A link in one number: its first mark, its last mark and its count of lines.
ghost use Rattle.std.specs.Prelude.{◌≡◌, ◌<◌, ◌≤◌, length};
ghost use Rattle.book.specs.Limits.{most_lines};
ghost use Rattle.joins.specs.Row.{row_limit, row_of, first_of, last_of, count_of, row_has_end, row_closes, row_lines};

// More than any mark, and more than any count of lines.
const LIMIT: u64 = 1024;

pub(crate) fn new(first: usize, last: usize, count: usize) -> u64
    requires first_fits { first < row_limit }
    requires last_fits { last < row_limit }
    requires count_fits { count < row_limit }
    ensures { result ≡ row_of first last count }
{
    ((first as u64) * LIMIT + last as u64) * LIMIT + count as u64
}

pub fn first(row: u64) -> usize
    ensures { result ≡ first_of row }
{
    (row / LIMIT / LIMIT) as usize
}

pub fn last(row: u64) -> usize
    ensures { result ≡ last_of row }
{
    (row / LIMIT % LIMIT) as usize
}

pub fn count(row: u64) -> usize
    ensures { result ≡ count_of row }
{
    (row % LIMIT) as usize
}

// Whether the link has an end at mark m.
#[tactic(auto, unfolding(crate::specs::Row::row_has_end))]
pub(crate) fn has_end(row: u64, m: usize) -> bool
    ensures { result ≡ row_has_end m row }
{
    first(row) == m || last(row) == m
}

// Whether the link is from a mark to itself.
#[tactic(auto, unfolding(crate::specs::Row::row_closes))]
pub(crate) fn closes(row: u64) -> bool
    ensures { result ≡ row_closes row }
{
    first(row) == last(row)
}

// The lines of these links in all.
pub fn lines(rows: &[u64]) -> usize
    requires { length rows.now ≤ most_lines }
    ensures { result ≡ row_lines rows.now }
{
    rows.iter().map(|&row| count(row)).sum()
}
