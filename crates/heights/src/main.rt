// Adjusts the book file on standard input and prints a sheet to pin to the wall: the height of every mark in metres, and of every line its
// correction in mm and its rate in mm per km. A refused book is one line, as in the report.
#![tactic(auto)]

use book::Book;
use book::held::Held;
use book::line::Line;
use book::refusal::Refusal;
use cases::told;
use cases::told::Told;
use rates::{LineRate, Rate, RateRow};
use std::io;
use std::io::Write;

// As many spaces as x has digits fewer than top.
// A while: it divides by ten. A width would put the sign of -0.5 elsewhere.
fn pad(to: &mut impl Write, x: u64, top: u64) -> io::Result<()> {
    let mut t = top;
    while 1 < t {
        if x < t {
            to.write_all(b" ")?;
        }
        t /= 10;
    }
    Ok(())
}

// The sign stands right before the digits.
fn put_whole(to: &mut impl Write, x: u64, below: bool, top: u64) -> io::Result<()> {
    pad(to, x, top)?;
    let sign = if below { '-' } else { ' ' };
    write!(to, "{sign}{x}")
}

// Micrometres as metres.
fn put_metres(to: &mut impl Write, z: i64) -> io::Result<()> {
    let size = signed::magnitude(z) as u64;
    put_whole(to, size / 1_000_000, z < 0, 100_000)?;
    let decimals = size % 1_000_000;
    write!(to, ".{decimals:06}")
}

// Thousandths: micrometres are those of a mm.
fn put_thousandths(to: &mut impl Write, size: u64, below: bool, top: u64) -> io::Result<()> {
    put_whole(to, size / 1_000, below, top)?;
    let decimals = size % 1_000;
    write!(to, ".{decimals:03}")
}

// A rate's size in thousandths, to the nearest.
fn thousandths(x: f64) -> u64 {
    let y = x * 1000.0 + 0.5;
    if y > -1.0 && y < 18446744073709551616.0 {
        std::num::truncating_f64_to_u64(y)
    } else {
        0
    }
}

fn put_rate(to: &mut impl Write, x: f64) -> io::Result<()> {
    let below = x < 0.0;
    let size = if below { -x } else { x };
    put_thousandths(to, thousandths(size), below, 10_000_000)
}

fn put_row(to: &mut impl Write, row: RateRow) -> io::Result<()> {
    let size = signed::magnitude(row.correction) as u64;
    write!(to, "{:>4}", row.line)?;
    put_thousandths(to, size, row.correction < 0, 100_000_000)?;
    put_rate(to, row.rate)?;
    to.write_all(b"\n")
}

// A file of version 2 can say that a line is withdrawn: it has no rate.
fn put_withdrawn(to: &mut impl Write, line: usize) -> io::Result<()> {
    writeln!(to, "{line:>4}  withdrawn")
}

fn put_refusal(to: &mut impl Write, refusal: Refusal) -> io::Result<()> {
    writeln!(to, "REFUSED {} AT {}", refusal.number(), refusal.place())
}

fn is_held(held: &[i64], mark: i64) -> bool {
    held.chunks_exact(Held::WORDS)
        .any(|entry| signed::same(entry[Held::MARK], mark))
}

fn put_mark(to: &mut impl Write, mark: usize, z: i64, held: &[i64]) -> io::Result<()> {
    write!(to, "{mark:>4}")?;
    put_metres(to, z)?;
    if is_held(held, signed::signed_count(mark % 65536)) {
        to.write_all(b"  HELD")?;
    }
    to.write_all(b"\n")
}

fn put_heights(to: &mut impl Write, held: &[i64], heights: &[i64]) -> io::Result<()> {
    to.write_all(b"MARK      HEIGHT m\n")?;
    for (v, z) in heights.iter().enumerate() {
        put_mark(to, v + 1, *z, held)?;
    }
    Ok(())
}

fn put_rate_of(to: &mut impl Write, rated: LineRate) -> io::Result<()> {
    let LineRate {
        line,
        correction,
        rate,
    } = rated;
    match rate {
        Rate::PerKm(_) => put_row(to, rates::row_of(line, correction, rate)),
        Rate::Withdrawn => put_withdrawn(to, line),
    }
}

fn put_line(
    to: &mut impl Write,
    told: Told,
    held: &[i64],
    lines: &[i64],
    heights: &[i64],
    line: usize,
) -> io::Result<()> {
    let number = signed::signed_count(line % 65536);
    match adjust::rate(told.version, told.b, told.t, held, lines, heights, number) {
        Ok(rated) => put_rate_of(to, rated),
        Err(refusal) => put_refusal(to, refusal),
    }
}

fn put_rates(
    to: &mut impl Write,
    told: Told,
    held: &[i64],
    lines: &[i64],
    heights: &[i64],
    n: usize,
) -> io::Result<()> {
    to.write_all(b"LINE CORRECTION mm   RATE mm/km\n")?;
    for line in 1..=n {
        put_line(to, told, held, lines, heights, line)?;
    }
    Ok(())
}

fn sheet(
    to: &mut impl Write,
    told: Told,
    held: &[i64],
    lines: &[i64],
    heights: &mut [i64],
    n: usize,
) -> io::Result<()> {
    let sweeps = match adjust::adjust(told.version, told.b, told.t, held, lines, heights) {
        Ok(sweeps) => sweeps,
        Err(refusal) => return put_refusal(to, refusal),
    };
    let b = heights.len();
    let h = held.len() / Held::WORDS;
    to.write_all(b"ADJUSTED HEIGHTS\n")?;
    writeln!(to, "MARKS {b} LINES {n} HELD {h} SWEEPS {sweeps}")?;
    put_heights(to, held, heights)?;
    put_rates(to, told, held, lines, heights, n)
}

fn run(to: &mut impl Write, file: &[u8]) -> io::Result<()> {
    let mut held = [0i64; Book::HELD_WORDS];
    let mut lines = [0i64; Book::LINE_WORDS];
    let mut heights = [0i64; Book::MAX_MARKS as usize];
    let book = match file::read(file, &mut held, &mut lines) {
        Ok(book) => book,
        Err(refusal) => return put_refusal(to, refusal),
    };
    let marks = book.marks.min(heights.len());
    let h = told::words_of(book.held, Held::WORDS, Book::HELD_WORDS);
    let n = told::words_of(book.lines, Line::WORDS, Book::LINE_WORDS);
    sheet(
        to,
        Told::read(book.version, marks, book.tolerance),
        &held[..h],
        &lines[..n],
        &mut heights[..marks],
        book.lines % 600,
    )
}

fn main(rt: HostRuntime) -> io::Result<()> {
    cases::answer(
        rt.alloc(),
        rt.stdin(),
        cases::FILE_BYTES,
        rt.stdout(),
        |to, file| run(to, file),
    )
}
