// What is printed, in a surveyor's words.
ghost use Rattle.std.specs.Prelude.{◌≤◌, length};
ghost use Rattle.loops.specs.Row.{row_words};

use crate::step::Sheet;
use crate::taken::{LINES_WORDS, REPORT_WORDS};
use book::Book;
use book::held::Held;
use book::line::Line;
use book::refusal::Refusal;
use std::io;
use std::io::Write;
use table::Found;

// The rows that are printed.
pub(crate) const REPORT_ROWS: usize = 4;

// `READ: 0 AT 0, VERSION 1, MARKS 5, LINES 7`
pub(crate) fn put_read(to: &mut impl Write, answer: Result<Book, Refusal>) -> io::Result<()> {
    match answer {
        Ok(book) => writeln!(
            to,
            "  READ: 0 AT 0, VERSION {}, MARKS {}, LINES {}",
            book.version, book.marks, book.lines
        ),
        Err(refusal) => writeln!(
            to,
            "  READ: {} AT {}, VERSION 0, MARKS 0, LINES 0",
            refusal.number(),
            refusal.place()
        ),
    }
}

// `DONE, 0 AT 0, ROWS 3, PIECES 1`
pub(crate) fn put_answer(to: &mut impl Write, answer: Result<Found, Refusal>) -> io::Result<()> {
    match answer {
        Ok(found) => writeln!(
            to,
            " DONE, 0 AT 0, ROWS {}, PIECES {}",
            found.count, found.pieces
        ),
        Err(refusal) => writeln!(
            to,
            " REFUSED, {} AT {}, ROWS 0, PIECES 0",
            refusal.number(),
            refusal.place()
        ),
    }
}

fn held_number(k: usize) -> &'static str {
    match k {
        Held::MARK => "MARK",
        _ => "HEIGHT",
    }
}

fn line_number(k: usize) -> &'static str {
    match k {
        Line::FROM => "FROM",
        Line::TO => "TO",
        Line::DIFFERENCE => "DIFFERENCE",
        Line::LENGTH => "LENGTH",
        Line::STANDING => "STANDING",
        _ => "CLASS",
    }
}

fn row_number(k: usize) -> &'static str {
    match k {
        rows::ROW_CLOSING => "CLOSING LINE",
        rows::ROW_COUNT => "LINES",
        rows::ROW_LENGTH => "LENGTH",
        rows::ROW_MISCLOSURE => "MISCLOSURE",
        _ => "VERDICT",
    }
}

// `LINE 6: DIFFERENCE 2410000 BECOMES 2428000`
pub(crate) fn put_change(
    to: &mut impl Write,
    sheet: Sheet,
    place: usize,
    was: i64,
    is: i64,
) -> io::Result<()> {
    let (words, entry) = match sheet {
        Sheet::Held => (Held::WORDS, "HELD"),
        Sheet::Lines => (Line::WORDS, "LINE"),
        Sheet::Report => (rows::ROW_WORDS, "ROW"),
    };
    let number = match sheet {
        Sheet::Held => held_number(place % Held::WORDS),
        Sheet::Lines => line_number(place % Line::WORDS),
        Sheet::Report => row_number(place % rows::ROW_WORDS),
    };
    writeln!(
        to,
        "    {entry} {}: {number} {was} BECOMES {is}",
        place / words + 1
    )
}

// Each number of the book's lines that changed.
pub(crate) fn put_book(
    to: &mut impl Write,
    were: &[i64; LINES_WORDS],
    are: &[i64; LINES_WORDS],
) -> io::Result<()> {
    if were == are {
        to.write_all(b"    BOOK AS IT WAS\n")?;
    }
    for (place, was) in were.iter().enumerate() {
        let is = are[place];
        if *was != is {
            put_change(to, Sheet::Lines, place, *was, is)?;
        }
    }
    Ok(())
}

// A refusal leaves the report; else its rows are printed, and which of them stand as they did.
pub(crate) fn put_report(
    to: &mut impl Write,
    refused: bool,
    was: &[i64; REPORT_WORDS],
    is: &[i64; REPORT_WORDS],
) -> io::Result<()> {
    if refused && was == is {
        return to.write_all(b"    REPORT AS IT WAS\n");
    }
    for row in 0..REPORT_ROWS {
        let at = row * rows::ROW_WORDS;
        let end = at + rows::ROW_WORDS;
        put_row(to, row + 1, &was[at..end], &is[at..end])?;
    }
    Ok(())
}

fn put_row(to: &mut impl Write, number: usize, was: &[i64], is: &[i64]) -> io::Result<()>
    requires { row_words ≤ length is.now }
{
    write!(to, "    ROW {number}: ")?;
    put_numbers(to, is)?;
    if was == is {
        to.write_all(b", AS IT WAS")?;
    }
    to.write_all(b"\n")
}

// A row in words; what names no closing line, number by number.
fn put_numbers(to: &mut impl Write, row: &[i64]) -> io::Result<()>
    requires { row_words ≤ length row.now }
{
    let closing = row[rows::ROW_CLOSING];
    if closing < 1 {
        to.write_all(b"EMPTY")?;
        for x in row {
            write!(to, " {x}")?;
        }
        return Ok(());
    }
    write!(to, "CLOSING LINE {closing}, LINES {}", row[rows::ROW_COUNT])?;
    write!(
        to,
        ", LENGTH {}, MISCLOSURE {}",
        row[rows::ROW_LENGTH],
        row[rows::ROW_MISCLOSURE]
    )?;
    match row[rows::ROW_VERDICT] {
        0 => to.write_all(b", WITHIN"),
        1 => to.write_all(b", OVER"),
        verdict => write!(to, " {verdict}"),
    }
}
