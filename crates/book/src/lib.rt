// The book as every call is lent it: its kinds and their limits, and the one test that every call begins with.
// Document 01, "The book" and "Refusal numbers" 3, 4, 6 and 7.

#![tactic(auto)]

ghost use Rattle.std.specs.Prelude.{◌≡◌, ◌/◌};
ghost use Rattle.book.specs.Lent.{lent};
ghost use Rattle.book.specs.Test.{book_of, tested, test_of, test_beside};
ghost use Rattle.book.specs.Version.{version_out, has_classes, tolerance_out};

pub mod class;
pub mod height;
pub mod held;
pub mod line;
pub mod refusal;

use held::Held;
use line::Line;
use refusal::Refusal;

// The version and the counts of a book inside the limits.
#[derive(Clone, Copy)]
pub struct Book {
    pub version: usize,
    pub marks: usize,
    pub tolerance: usize,
    pub held: usize,
    pub lines: usize,
}

impl Book {
    pub const MIN_VERSION: i64 = 1;

    pub const MAX_VERSION: i64 = 2;

    // The version whose lines have classes.
    pub const WITH_CLASSES: i64 = 2;

    pub const MIN_MARKS: i64 = 1;

    pub const MAX_MARKS: i64 = 256;

    pub const MIN_TOLERANCE: i64 = 1;

    pub const MAX_TOLERANCE: i64 = 1_000;

    pub const MIN_HELD: usize = 0;

    pub const MAX_HELD: usize = 256;

    pub const MIN_LINES: usize = 0;

    pub const MAX_LINES: usize = 512;

    // The numbers of a slice that holds the held entries, and of one that holds the lines, of any book.
    pub const HELD_WORDS: usize = Book::MAX_HELD * Held::WORDS;

    pub const LINE_WORDS: usize = Book::MAX_LINES * Line::WORDS;

    // Whether there are no such books.
    fn outside_version(version: i64) -> bool
        ensures { result ≡ version_out version }
    {
        signed::outside(version, Book::MIN_VERSION, Book::MAX_VERSION)
    }

    // Whether the lines of a book of this version have classes.
    pub fn has_classes(version: i64) -> bool
        ensures { result ≡ has_classes version }
    {
        signed::same(version, Book::WITH_CLASSES)
    }

    // Whether t is no tolerance of a book of this version: where lines have classes it is 0.
    fn outside_tolerance(version: i64, t: i64) -> bool
        ensures { result ≡ tolerance_out version t }
    {
        if Book::has_classes(version) {
            return !signed::same(t, 0);
        }
        signed::outside(t, Book::MIN_TOLERANCE, Book::MAX_TOLERANCE)
    }

    // The book of this version and of the counts b, t, h and n, or refusal 3 or 4.
    pub fn new(version: i64, b: i64, t: i64, h: usize, n: usize) -> Result<Book, Refusal>
        ensures { tested result ≡ book_of version b t h n }
    {
        if Book::outside_version(version) {
            return Err(Refusal::Version);
        }
        if signed::outside(b, Book::MIN_MARKS, Book::MAX_MARKS)
            | Book::outside_tolerance(version, t)
            | signed::outside_count(h, Book::MIN_HELD, Book::MAX_HELD)
            | signed::outside_count(n, Book::MIN_LINES, Book::MAX_LINES)
        {
            return Err(Refusal::Limit);
        }
        Ok(Book {
            version: signed::magnitude(version),
            marks: signed::magnitude(b),
            tolerance: signed::magnitude(t),
            held: h,
            lines: n,
        })
    }
}

// The test of a lent book: 3, then 4, then 6, then 7.
pub fn test(version: i64, b: i64, t: i64, held: &[i64], lines: &[i64]) -> Result<Book, Refusal>
    ensures { tested result ≡ test_of (lent version b t held.now lines.now) }
{
    let book = Book::new(
        version,
        b,
        t,
        held.len() / Held::WORDS,
        lines.len() / Line::WORDS,
    )?;
    if held.len() % Held::WORDS != 0 {
        return Err(Refusal::Limit);
    }
    if lines.len() % Line::WORDS != 0 {
        return Err(Refusal::Limit);
    }
    if let Some(entry) = held::first_bad_held(held, b) {
        return Err(Refusal::HeldEntry(entry));
    }
    if let Some(line) = line::first_bad_line(lines, version, b) {
        return Err(Refusal::Line(line));
    }
    Ok(book)
}

// The test where something that a call is lent beside the book may be outside, which is 4 as well: 3 comes before it.
pub fn test_beside(
    outside: bool,
    version: i64,
    b: i64,
    t: i64,
    held: &[i64],
    lines: &[i64],
) -> Result<Book, Refusal>
    ensures { tested result ≡ test_beside outside (lent version b t held.now lines.now) }
{
    if Book::outside_version(version) {
        return Err(Refusal::Version);
    }
    if outside {
        return Err(Refusal::Limit);
    }
    test(version, b, t, held, lines)
}
