// Writes many books as files: lent less room than the file needs, just enough and more; told and changed so that each refusal applies,
// alone and before all that come after it. Prints every answer and what the lent file then holds and, of what was written, whether it is
// the file that was read and what is read of it again.
// A case on standard input (cases::case) has one number, its file's length.
// tests/writer_cases.py makes the cases and, on its own, what is printed of them.
#![tactic(auto)]

mod calls;
mod written;

use book::Book;
use book::held::Held;
use book::line::Line;
use cases::told::Told;
use cases::{case, told};
use std::io;
use std::io::Write;

const NUMBERS: usize = 1;

// A file that is refused has no book.
fn one_case(to: &mut impl Write, case: &[u8]) -> io::Result<()> {
    let file = case::file(case, NUMBERS);
    let mut held = [0i64; Book::HELD_WORDS];
    let mut lines = [0i64; Book::LINE_WORDS];
    let answer = file::read(file, &mut held, &mut lines);
    to.write_all(b"\n  read")?;
    written::put_read(to, answer)?;
    to.write_all(b"\n")?;
    let Ok(book) = answer else {
        return Ok(());
    };
    let h = told::words_of(book.held, Held::WORDS, Book::HELD_WORDS);
    let n = told::words_of(book.lines, Line::WORDS, Book::LINE_WORDS);
    calls::run(
        to,
        Told::read(book.version, book.marks, book.tolerance),
        &mut held[..h],
        &mut lines[..n],
        file,
    )
}

fn main(rt: HostRuntime) -> io::Result<()> {
    cases::run(
        rt.alloc(),
        rt.stdin(),
        rt.stdout(),
        NUMBERS,
        |to, case| one_case(to, case),
    )
}
