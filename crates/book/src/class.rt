// A line's class: whether it is one of its book's version, and the tolerance that it gives. Request 04.
ghost use Rattle.std.specs.Prelude.{◌≡◌, ◌≤◌};
ghost use Rattle.book.specs.Limits.{most_tolerance};
ghost use Rattle.book.specs.Version.{class_out, tolerance_of, Classed};

use crate::Book;
use crate::line::Line;

// "a table of five: 40, 50, 60, 80, 120 tenths of mm per root km", by class.
const TOLERANCES: [usize; 5] = [40, 50, 60, 80, 120];

// Whether this is no class of a line in a book of this version.
pub(crate) fn outside(version: i64, class: i64) -> bool
    ensures { result ≡ class_out version class }
{
    if Book::has_classes(version) {
        return signed::outside(class, Line::MIN_CLASS, Line::MAX_CLASS);
    }
    !signed::same(class, Line::NO_CLASS)
}

// The tolerance of a line of this class: the table's, or the book's single t where the line has none.
pub fn tolerance(class: i64, t: usize) -> usize
    requires classed { Classed class }
    requires small { t ≤ most_tolerance }
    ensures { (result ≡ tolerance_of t class) × (result ≤ most_tolerance) }
{
    if signed::same(class, Line::NO_CLASS) {
        return t;
    }
    TOLERANCES[signed::index(class)]
}
