// The whole report of a book file, and its junction sketch, as bytes in a lent buffer. What has no room there is left out, so that
// nothing is asked of the caller.

#![tactic(auto)]

ghost use Rattle.std.specs.Prelude.{◌*◌, ◌≤◌, length};
ghost use Rattle.book.specs.Limits.{most_lines};
ghost use Rattle.book.specs.Line.{line_words};
ghost use Rattle.text.specs.Put.{Put};
ghost use Rattle.book.specs.Good.{GoodLines};
ghost use Rattle.book.specs.Test.{tested};
ghost use Rattle.page.specs.Filed.{file_text, Filed};
ghost use Rattle.page.specs.Page.{page_of};
ghost use Rattle.page.specs.Sketch.{sketch_page_of};
ghost use Rattle.page.specs.Printed.{text_of};

mod loop_lines;
mod sheet;
mod sketch;

use book::Book;
use book::line::Line;
use book::refusal::Refusal;

// What is printed of a file's book.
// An enum: `text_of` of specs/ says by its cases what is printed.
#[derive(Drop)]
pub enum Printed {
    Report,
    Sketch,
}

// The report of a file, from place 0 on. The answer is the place after it.
pub fn write_page(file: &[u8], out: &mut [u8]) -> usize
    ensures { Put out.old out.new 0 result (page_of file.now) }
{
    write(Printed::Report, file, out)
}

// The junction sketch of a file, from place 0 on. The answer is the place after it.
pub fn write_sketch(file: &[u8], out: &mut [u8]) -> usize
    ensures { Put out.old out.new 0 result (sketch_page_of file.now) }
{
    write(Printed::Sketch, file, out)
}

// What is printed of the file's book, or the line of its refusal.
fn write(printed: Printed, file: &[u8], out: &mut [u8]) -> usize
    ensures { Put out.old out.new 0 result (file_text (text_of printed) file.now) }
{
    let mut lines = [0i64; Book::LINE_WORDS];
    match read_book(file, &mut lines[..]) {
        Err(r) => text::refused_text(out, 0, r.number(), r.place()),
        Ok(book) => {
            let words = book.lines * Line::WORDS;
            put(printed, book, &lines[..words], out)
        }
    }
}

fn put(printed: Printed, book: Book, lines: &[i64], out: &mut [u8]) -> usize
    requires { GoodLines book lines.now }
    ensures { Put out.old out.new 0 result (text_of printed book lines.now) }
{
    match printed {
        Printed::Report => sheet::put_book(book, lines, out),
        Printed::Sketch => sketch::put_sketch(book, lines, out),
    }
}

// The book of a file, whose lines go into the first places of `lines`; or its refusal. Heights have no place in what is printed.
fn read_book(file: &[u8], lines: &mut [i64]) -> Result<Book, Refusal>
    requires { most_lines * line_words ≤ length lines.old }
    ensures { Filed file.now lines.new (tested result) }
{
    let mut held = [0i64; Book::HELD_WORDS];
    file::read(file, &mut held[..], lines)
}
