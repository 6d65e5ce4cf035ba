// Prints the junction sketches of many files; of some it sketches the book in memory too, with lines withdrawn and told as of versions
// that are not the book's, and prints every answer and what the four outputs then hold. A case on standard input (cases::case) has two
// numbers: of how many lines each last one is withdrawn, 0 where the text is all that is wanted, and its file's length.
// tests/sketch_cases.py makes the cases and, on its own, what is printed of them.
#![tactic(auto)]

ghost use Rattle.std.specs.Prelude.{◌<◌, ◌≤◌};
ghost use Rattle.page.specs.Sketch.{sketch_page_of};

mod calls;
mod room;

use book::Book;
use book::held::Held;
use book::line::Line;
use cases::told::Told;
use cases::{Text, case, told};
use std::io;
use std::io::Write;

const NUMBERS: usize = 2;

// Room for each of the texts.
const ROOM: usize = 65_536;

struct Sketch;

impl Text for Sketch {
    ghost text = { sketch_page_of };

    fn put(file: &[u8], out: &mut [u8]) -> usize {
        page::write_sketch(file, out)
    }
}

// The last of each so many lines is withdrawn.
fn withdraw(lines: &mut [i64], every: usize)
    requires some { 0 < every }
    requires few { every ≤ 65535 }
{
    for group in lines.chunks_exact_mut(every * Line::WORDS) {
        group[(every - 1) * Line::WORDS + Line::STANDING] = 0;
    }
}

// The book of the file, in memory, with lines withdrawn.
fn read_and_show(to: &mut impl Write, file: &[u8], every: usize) -> io::Result<()>
    requires some { 0 < every }
    requires few { every ≤ 65535 }
{
    let mut held = [0i64; Book::HELD_WORDS];
    let mut lines = [0i64; Book::LINE_WORDS];
    let book = file::read(file, &mut held, &mut lines).unwrap_or(told::NOTHING);
    let h = told::words_of(book.held, Held::WORDS, Book::HELD_WORDS);
    let n = told::words_of(book.lines, Line::WORDS, Book::LINE_WORDS);
    withdraw(&mut lines[..n], every);
    calls::run(
        to,
        Told::read(book.version, book.marks, book.tolerance),
        &held[..h],
        &mut lines[..n],
    )
}

fn one_case(to: &mut impl Write, case: &[u8]) -> io::Result<()> {
    to.write_all(b"\n")?;
    let file = case::file(case, NUMBERS);
    cases::print_text::<Sketch, _, ROOM>(to, file)?;
    let every = case::number(case, 0);
    if every != 0 {
        read_and_show(to, file, every)?;
    }
    Ok(())
}

fn main(rt: HostRuntime) -> io::Result<()> {
    cases::run(
        rt.alloc(),
        rt.stdin(),
        rt.stdout(),
        NUMBERS,
        |to, case| one_case(to, case),
    )
}
