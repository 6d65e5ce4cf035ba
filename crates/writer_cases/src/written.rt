// What is printed of a call: its answer, what the lent file then holds, and what is read of it again.
use book::Book;
use book::held::Held;
use book::line::Line;
use book::refusal::Refusal;
use cases::told;
use std::io;
use std::io::Write;

// The bytes of the longest file, which is of version 2; and room for it, with some places past it.
const LONGEST: usize = 9_741;

pub(crate) const SPACE: usize = LONGEST + 5;

// The first bytes, and the digest of all.
pub(crate) fn put_bytes(to: &mut impl Write, bytes: &[u8]) -> io::Result<()> {
    let mut numbers = [0i64; SPACE];
    for (number, byte) in numbers.iter_mut().zip(bytes) {
        *number = i64::from(*byte);
    }
    to.write_all(b" |")?;
    let n = bytes.len().min(SPACE);
    cases::show_numbers(to, &numbers[..n])?;
    Ok(())
}

pub(crate) fn put_written(
    to: &mut impl Write,
    lent: usize,
    answer: Result<usize, Refusal>,
) -> io::Result<()> {
    write!(to, " lent {lent}:")?;
    cases::put_answer(to, answer.map(|bytes| [bytes]))
}

// The first place, counted from 0, at which they are not the same, or only one of them has a byte.
fn first_other(was: &[u8], is: &[u8]) -> Option<usize> {
    let other = was.iter().zip(is).position(|(x, y)| x != y);
    other.or_else(|| (was.len() != is.len()).then(|| was.len().min(is.len())))
}

// Bytes are counted from 1.
pub(crate) fn put_compared(to: &mut impl Write, file: &[u8], written: &[u8]) -> io::Result<()> {
    match first_other(file, written) {
        None => to.write_all(b" | the file that was read"),
        Some(place) => write!(to, " | another file from byte {}", place.saturating_add(1)),
    }
}

pub(crate) fn put_read(to: &mut impl Write, answer: Result<Book, Refusal>) -> io::Result<()> {
    cases::put_answer(
        to,
        answer.map(|book| [
            book.version,
            book.marks,
            book.tolerance,
            book.held,
            book.lines,
        ]),
    )
}

// Reads what was written, and prints the digests of the entries beside those of the lent ones.
pub(crate) fn read_again(
    to: &mut impl Write,
    written: &[u8],
    held: &[i64],
    lines: &[i64],
) -> io::Result<()> {
    let mut held_read = [0i64; Book::HELD_WORDS];
    let mut lines_read = [0i64; Book::LINE_WORDS];
    let answer = file::read(written, &mut held_read[..], &mut lines_read[..]);
    to.write_all(b"\n    read again")?;
    put_read(to, answer)?;
    let book = answer.unwrap_or(told::NOTHING);
    let h = told::words_of(book.held, Held::WORDS, Book::HELD_WORDS);
    let n = told::words_of(book.lines, Line::WORDS, Book::LINE_WORDS);
    write!(
        to,
        " | held #{}, lent #{}",
        cases::digest(&held_read[..h]),
        cases::digest(held)
    )?;
    write!(
        to,
        " | lines #{}, lent #{}",
        cases::digest(&lines_read[..n]),
        cases::digest(lines)
    )
}
