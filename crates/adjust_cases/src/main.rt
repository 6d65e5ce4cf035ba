// Adjusts many books and rates their lines, spoils a height, withdraws a line, tells the calls of classes and versions that are not the
// book's, and prints every answer and what the heights then are. A case on standard input (cases::case) has three numbers: how many
// heights are lent, the place of the height that is spoilt, and its file's length. tests/adjust_cases.py makes the cases and, on its own,
// what is printed of them.
#![tactic(auto)]

use book::Book;
use book::held::Held;
use book::line::Line;
use book::refusal::Refusal;
use cases::told::Told;
use cases::{case, told};
use rates::{LineRate, Rate};
use std::fmt::Display;
use std::io;
use std::io::Write;

const NUMBERS: usize = 3;

// One micrometre outside the limit of a height in work.
const TOO_HIGH: i64 = 50_000_000_001;

// The lines of a book that are rated: none, and the first.
const RATED: usize = 9;

// A class that is none in either version.
const NO_CLASS: i64 = 5;

// The heights that can be lent.
const HEIGHT_SPACE: usize = 300;

fn adjust(
    to: &mut impl Write,
    name: impl Display + Drop,
    told: Told,
    held: &[i64],
    lines: &[i64],
    heights: &mut [i64],
) -> io::Result<()> {
    let answer = adjust::adjust(told.version, told.b, told.t, held, lines, heights);
    write!(to, "{name}")?;
    cases::put_answer(to, answer.map(|sweeps| [sweeps]))?;
    to.write_all(b" |")?;
    cases::show_numbers(to, heights)?;
    to.write_all(b"\n")
}

// A rate by its bits: two rates are one exactly if these are.
fn put_rate(to: &mut impl Write, rate: Rate) -> io::Result<()> {
    match rate {
        Rate::PerKm(x) if x == x => writeln!(to, " {}", f64::to_bits(x)),
        Rate::PerKm(_) => to.write_all(b"\n"),
        Rate::Withdrawn => to.write_all(b" withdrawn\n"),
    }
}

// Of a refused call the line, the correction and the rate are 0.
fn put_rated(to: &mut impl Write, answer: Result<LineRate, Refusal>) -> io::Result<()> {
    match answer {
        Ok(rated) => {
            write!(to, " 0 0 {} {}", rated.line, rated.correction)?;
            put_rate(to, rated.rate)
        }
        Err(refusal) => {
            cases::put_answer::<_, 3>(to, Err(refusal))?;
            to.write_all(b"\n")
        }
    }
}

fn rate_named(
    to: &mut impl Write,
    name: impl Display + Drop,
    told: Told,
    line: usize,
    held: &[i64],
    lines: &[i64],
    heights: &[i64],
) -> io::Result<()> {
    let number = signed::signed_count(line % 65536);
    let answer = adjust::rate(told.version, told.b, told.t, held, lines, heights, number);
    write!(to, "{name}")?;
    put_rated(to, answer)
}

fn rate(
    to: &mut impl Write,
    told: Told,
    line: usize,
    held: &[i64],
    lines: &[i64],
    heights: &[i64],
) -> io::Result<()> {
    rate_named(to, "  rate", told, line, held, lines, heights)
}

fn adjust_and_rate(
    to: &mut impl Write,
    told: Told,
    n: usize,
    held: &[i64],
    lines: &[i64],
    heights: &mut [i64],
) -> io::Result<()> {
    adjust(to, "adjusted", told, held, lines, heights)?;
    for line in 0..n.min(RATED) {
        rate(to, told, line, held, lines, heights)?;
    }
    Ok(())
}

// A height is spoilt, and line 1 rated.
fn spoil(
    to: &mut impl Write,
    told: Told,
    spoilt: usize,
    held: &[i64],
    lines: &[i64],
    heights: &mut [i64],
) -> io::Result<()> {
    if spoilt < heights.len() {
        heights[spoilt] = TOO_HIGH;
    }
    rate(to, told, 1, held, lines, heights)
}

// Line 1 is withdrawn, and all is adjusted and line 1 rated once more.
fn without_it(
    to: &mut impl Write,
    told: Told,
    held: &[i64],
    lines: &mut [i64],
    heights: &mut [i64],
) -> io::Result<()> {
    if Line::WORDS <= lines.len() {
        lines[Line::STANDING] = 0;
    }
    adjust(to, "line 1 withdrawn, adjusted", told, held, lines, heights)?;
    rate(to, told, 1, held, lines, heights)
}

// Told as of either version: t and the classes of one version are not the other's.
fn tell_either(
    to: &mut impl Write,
    told: Told,
    held: &[i64],
    lines: &[i64],
    heights: &[i64],
) -> io::Result<()> {
    for (version, t) in [(1, 0), (1, 1), (2, 0), (2, 1)] {
        rate_named(
            to,
            format_args!("version {version}, t {t}, rate"),
            told.of_version(version).with_t(t),
            1,
            held,
            lines,
            heights,
        )?;
    }
    Ok(())
}

// The last line gets a class that is none.
fn without_class(
    to: &mut impl Write,
    told: Told,
    held: &[i64],
    lines: &mut [i64],
    heights: &mut [i64],
) -> io::Result<()> {
    cases::spoil_last(lines, Line::WORDS, Line::CLASS, NO_CLASS);
    adjust(to, "class 5, adjusted", told, held, lines, heights)?;
    rate_named(to, "class 5, rate", told, 1, held, lines, heights)
}

// Told as of no version: 3 comes before all else, as heights that are not b in number.
fn tell_none(
    to: &mut impl Write,
    told: Told,
    held: &[i64],
    lines: &[i64],
    heights: &mut [i64],
) -> io::Result<()> {
    for version in [0, 3, 255] {
        adjust(
            to,
            format_args!("version {version}, adjusted"),
            told.of_version(version),
            held,
            lines,
            heights,
        )?;
    }
    for version in [0, 3, 255] {
        rate_named(
            to,
            format_args!("version {version}, rate"),
            told.of_version(version),
            1,
            held,
            lines,
            heights,
        )?;
    }
    Ok(())
}

fn run(
    to: &mut impl Write,
    told: Told,
    n: usize,
    spoilt: usize,
    held: &[i64],
    lines: &mut [i64],
    heights: &mut [i64],
) -> io::Result<()> {
    cases::clear(heights);
    adjust_and_rate(to, told, n, held, lines, heights)?;
    spoil(to, told, spoilt, held, lines, heights)?;
    without_it(to, told, held, lines, heights)?;
    tell_either(to, told, held, lines, heights)?;
    without_class(to, told, held, lines, heights)?;
    tell_none(to, told, held, lines, heights)
}

fn one_case(to: &mut impl Write, case: &[u8]) -> io::Result<()> {
    to.write_all(b"\n")?;
    let mut held = [0i64; Book::HELD_WORDS];
    let mut lines = [0i64; Book::LINE_WORDS];
    let mut heights = [0i64; HEIGHT_SPACE];
    let answer = file::read(case::file(case, NUMBERS), &mut held, &mut lines);
    let book = answer.unwrap_or(told::NOTHING);
    let h = told::words_of(book.held, Held::WORDS, Book::HELD_WORDS);
    let n = told::words_of(book.lines, Line::WORDS, Book::LINE_WORDS);
    let lent = case::number(case, 0).min(HEIGHT_SPACE);
    run(
        to,
        Told::read(book.version, book.marks, book.tolerance),
        book.lines % 600 + 2,
        case::number(case, 1),
        &held[..h],
        &mut lines[..n],
        &mut heights[..lent],
    )
}

fn main(rt: HostRuntime) -> io::Result<()> {
    cases::run(
        rt.alloc(),
        rt.stdin(),
        rt.stdout(),
        NUMBERS,
        |to, case| one_case(to, case),
    )
}
