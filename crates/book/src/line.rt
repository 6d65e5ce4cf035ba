// Lines: six numbers each in a lent slice, their limits, and the first that is none.
ghost use Rattle.std.specs.Prelude.{◌≡◌, ◌<◌, IfSome, length};
ghost use Rattle.book.specs.Line.{line_words, difference_out, line_fault, line_of, entry_of, fault_at, first_bad_line};
ghost use Rattle.book.specs.Held.{number_or_0};
ghost use Rattle.book.specs.Line.{fault_or_0, made_line};

use crate::class;

// A line, withdrawn (standing 0) or not (1). Its class stands beside it in the slice: what uses it needs that alone.
#[derive(Clone, Copy)]
pub struct Line {
    pub from: i64,
    pub to: i64,
    pub difference: i64,
    pub length: i64,
    pub standing: i64,
}

// The first thing that is wrong with a line, in the order of the tests.
#[derive(Clone, Copy, PartialEq, Eq)]
pub enum Fault {
    End,
    EqualEnds,
    Difference,
    Length,
    Standing,
    Class,
}

impl Line {
    pub const WORDS: usize = 6;

    pub const FROM: usize = 0;

    pub const TO: usize = 1;

    pub const DIFFERENCE: usize = 2;

    pub const LENGTH: usize = 3;

    pub const STANDING: usize = 4;

    pub const CLASS: usize = 5;

    pub const MIN_DIFFERENCE: i64 = -100_000_000;

    pub const MAX_DIFFERENCE: i64 = 100_000_000;

    pub const MIN_LENGTH: i64 = 10;

    pub const MAX_LENGTH: i64 = 100_000;

    pub const MIN_CLASS: i64 = 0;

    pub const MAX_CLASS: i64 = 4;

    // What stands for a class where the book has a single tolerance.
    pub const NO_CLASS: i64 = -1;

    // The verdict takes a shorter line as one of this length.
    pub const MIN_JUDGED: usize = 250;

    // Whether d is no difference: of a line, or of a re-run.
    pub fn outside_difference(d: i64) -> bool
        ensures { result ≡ difference_out d }
    {
        signed::outside(d, Line::MIN_DIFFERENCE, Line::MAX_DIFFERENCE)
    }

    // The first fault of five numbers as a line of a book of b marks.
    fn fault(
        b: i64,
        from: i64,
        to: i64,
        difference: i64,
        length: i64,
        standing: i64,
    ) -> Option<Fault>
        ensures { fault_or_0 result ≡ line_fault b from to difference length standing }
    {
        if signed::outside(from, 1, b) | signed::outside(to, 1, b) {
            Some(Fault::End)
        } else if signed::same(from, to) {
            Some(Fault::EqualEnds)
        } else if Line::outside_difference(difference) {
            Some(Fault::Difference)
        } else if signed::outside(length, Line::MIN_LENGTH, Line::MAX_LENGTH) {
            Some(Fault::Length)
        } else if signed::outside(standing, 0, 1) {
            Some(Fault::Standing)
        } else {
            None
        }
    }

    // The line of a book of b marks that five numbers make, or the first thing that is wrong, which is refusal 7.
    pub fn new(
        b: i64,
        from: i64,
        to: i64,
        difference: i64,
        length: i64,
        standing: i64,
    ) -> Result<Line, Fault>
        ensures { made_line result ≡ line_of b from to difference length standing }
    {
        if let Some(fault) = Line::fault(b, from, to, difference, length, standing) {
            return Err(fault);
        }
        Ok(Line {
            from,
            to,
            difference,
            length,
            standing,
        })
    }
}

// The line that an entry of a lent slice makes.
pub fn line_of(e: &[i64], b: i64) -> Result<Line, Fault>
    requires { length e.now ≡ line_words }
    ensures { made_line result ≡ entry_of b e.now }
{
    Line::new(
        b,
        e[Line::FROM],
        e[Line::TO],
        e[Line::DIFFERENCE],
        e[Line::LENGTH],
        e[Line::STANDING],
    )
}

// The first thing that is wrong with the line of an entry in a book of this version and of b marks.
fn fault_of(e: &[i64], version: i64, b: i64) -> Option<Fault>
    requires { length e.now ≡ line_words }
    ensures { fault_or_0 result ≡ fault_at version b e.now 0 }
{
    match line_of(e, b) {
        Err(fault) => Some(fault),
        Ok(_) if class::outside(version, e[Line::CLASS]) => Some(Fault::Class),
        Ok(_) => None,
    }
}

// The number of the first line that is none.
pub(crate) fn first_bad_line(lines: &[i64], version: i64, b: i64) -> Option<usize>
    ensures found { number_or_0 result ≡ first_bad_line version b lines.now }
    ensures from_1 { IfSome result (λ number. 0 < number) }
{
    for i in 0..lines.len() / Line::WORDS {
        let at = i * Line::WORDS;
        if let Some(_) = fault_of(&lines[at..at + Line::WORDS], version, b) {
            return Some(i + 1);
        }
    }
    None
}
