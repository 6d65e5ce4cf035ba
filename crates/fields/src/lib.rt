// What is read of a tested book: the marks and the difference of the line at a place.

#![tactic(auto)]

ghost use Rattle.std.specs.Prelude.{◌≡◌, ◌≤◌, ◌<◌, nat_abs};
ghost use Rattle.book.specs.Limits.{most_difference};
ghost use Rattle.book.specs.Line.{from_at, to_at, difference_at};
ghost use Rattle.fields.specs.Places.{Place};

use book::line::Line;

// The marks of the line at place i, and its difference.
// Beside to_mark: each is public, with a definition of its own (`from_at`, `to_at`).
pub fn from_mark(lines: &[i64], b: usize, n: usize, i: usize) -> usize
    requires { Place lines.now b n i }
    ensures { (result ≡ nat_abs (from_at lines.now i)) × (0 < result) × (result ≤ b) }
{
    signed::index(lines[i * Line::WORDS + Line::FROM])
}

pub fn to_mark(lines: &[i64], b: usize, n: usize, i: usize) -> usize
    requires { Place lines.now b n i }
    ensures { (result ≡ nat_abs (to_at lines.now i)) × (0 < result) × (result ≤ b) }
{
    signed::index(lines[i * Line::WORDS + Line::TO])
}

pub fn difference_of(lines: &[i64], b: usize, n: usize, i: usize) -> i64
    requires { Place lines.now b n i }
    ensures { (result ≡ difference_at lines.now i) × (nat_abs result ≤ most_difference) }
{
    lines[i * Line::WORDS + Line::DIFFERENCE]
}
