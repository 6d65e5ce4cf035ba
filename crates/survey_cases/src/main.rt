// Surveys many books, corrects each of them, line after line, until none stands, and tells the calls of versions, tolerances and classes
// that are not the book's; prints every answer and what the buffers then hold. A case on standard input (cases::case) has one number, its
// file's length.
// tests/survey_cases.py makes the cases and, on its own, what is printed of them.
#![tactic(auto)]

use book::Book;
use book::held::Held;
use book::line::Line;
use book::refusal::Refusal;
use cases::told::Told;
use cases::{case, told};
use std::fmt::Display;
use std::io;
use std::io::Write;
use table::Found;

const NUMBERS: usize = 1;

// The numbers of report that are lent.
const REPORT_SPACE: usize = 2_600;

// A class that is none in either version.
const NO_CLASS: i64 = 5;

// Versions that are none: one with version 1 in its low 32 bits, and the greatest number.
const LOW_ONE: i64 = 4_294_967_297;

const GREATEST: i64 = 9_223_372_036_854_775_807;

// One micrometre outside the limit of a difference.
const OUTSIDE: i64 = 100_000_001;

fn put(
    to: &mut impl Write,
    name: impl Display + Drop,
    answer: Result<Found, Refusal>,
    lines: &[i64],
    report: &[i64],
) -> io::Result<()> {
    write!(to, "{name}")?;
    cases::put_answer(to, answer.map(|found| [found.count, found.pieces]))?;
    to.write_all(b" |")?;
    cases::show_numbers(to, report)?;
    writeln!(to, " lines #{}", cases::digest(lines))
}

fn survey(
    to: &mut impl Write,
    name: impl Display + Drop,
    told: Told,
    held: &[i64],
    lines: &[i64],
    report: &mut [i64],
) -> io::Result<()> {
    let answer = survey::survey(told.version, told.b, told.t, held, lines, report);
    put(to, name, answer, lines, report)
}

fn rerun(
    to: &mut impl Write,
    name: impl Display + Drop,
    told: Told,
    line: i64,
    difference: i64,
    held: &[i64],
    lines: &mut [i64],
    report: &mut [i64],
) -> io::Result<()> {
    let answer = survey::rerun(
        told.version,
        told.b,
        told.t,
        held,
        lines,
        report,
        line,
        difference,
    );
    put(to, name, answer, lines, report)
}

fn withdraw(
    to: &mut impl Write,
    name: impl Display + Drop,
    told: Told,
    line: i64,
    held: &[i64],
    lines: &mut [i64],
    report: &mut [i64],
) -> io::Result<()> {
    let answer = survey::withdraw(told.version, told.b, told.t, held, lines, report, line);
    put(to, name, answer, lines, report)
}

// The line is re-run to a difference of its number in centimetres, and withdrawn.
fn correct(
    to: &mut impl Write,
    told: Told,
    line: usize,
    held: &[i64],
    lines: &mut [i64],
    report: &mut [i64],
) -> io::Result<()> {
    let l = signed::signed_count(line % 65536);
    let difference = signed::signed_count(line % 1000 * 10_000);
    rerun(to, "  re-run", told, l, difference, held, lines, report)?;
    withdraw(to, "  withdrawn", told, l, held, lines, report)
}

// Told as of either version: t and the classes of one version are not the other's.
fn tell_either(
    to: &mut impl Write,
    told: Told,
    held: &[i64],
    lines: &[i64],
    report: &mut [i64],
) -> io::Result<()> {
    for (version, t) in [(1, 0), (1, 1), (2, 0), (2, 1)] {
        survey(
            to,
            format_args!("  version {version}, t {t}"),
            told.of_version(version).with_t(t),
            held,
            lines,
            report,
        )?;
    }
    Ok(())
}

// Told as of no version: 3 comes before a line of no class.
fn tell_none(
    to: &mut impl Write,
    told: Told,
    held: &[i64],
    lines: &[i64],
    report: &mut [i64],
) -> io::Result<()> {
    for (name, version) in [
        ("  version 0", 0),
        ("  version 3", 3),
        ("  version 255", 255),
        ("  version -1", -1),
        ("  version 2^32 + 1", LOW_ONE),
        ("  version 2^63 - 1", GREATEST),
    ] {
        survey(to, name, told.of_version(version), held, lines, report)?;
    }
    Ok(())
}

// Nor are these versions; and 3 comes before a new difference outside its limit.
fn correct_none(
    to: &mut impl Write,
    told: Told,
    held: &[i64],
    lines: &mut [i64],
    report: &mut [i64],
) -> io::Result<()> {
    rerun(
        to,
        "  version 3, re-run",
        told.of_version(3),
        1,
        OUTSIDE,
        held,
        lines,
        report,
    )?;
    withdraw(
        to,
        "  version 0, withdrawn",
        told.of_version(0),
        1,
        held,
        lines,
        report,
    )
}

// The book, none of whose lines stands any more, told otherwise than it is: every line is tested, withdrawn or not.
fn tell_otherwise(
    to: &mut impl Write,
    told: Told,
    held: &[i64],
    lines: &mut [i64],
    report: &mut [i64],
) -> io::Result<()> {
    tell_either(to, told, held, lines, report)?;
    cases::spoil_last(lines, Line::WORDS, Line::CLASS, NO_CLASS);
    survey(to, "  class 5", told, held, lines, report)?;
    tell_none(to, told, held, lines, report)?;
    correct_none(to, told, held, lines, report)
}

// Line 0, which is none, is corrected too.
fn run(
    to: &mut impl Write,
    told: Told,
    n: usize,
    held: &[i64],
    lines: &mut [i64],
    report: &mut [i64],
) -> io::Result<()> {
    survey(to, "survey", told, held, lines, report)?;
    for line in 0..=n {
        correct(to, told, line, held, lines, report)?;
    }
    tell_otherwise(to, told, held, lines, report)
}

fn one_case(to: &mut impl Write, case: &[u8]) -> io::Result<()> {
    to.write_all(b"\n")?;
    let mut held = [0i64; Book::HELD_WORDS];
    let mut lines = [0i64; Book::LINE_WORDS];
    let mut report = [0i64; REPORT_SPACE];
    cases::clear(&mut report);
    let answer = file::read(case::file(case, NUMBERS), &mut held, &mut lines);
    let book = answer.unwrap_or(told::NOTHING);
    let told = Told::read(book.version, book.marks, book.tolerance);
    let h = told::words_of(book.held, Held::WORDS, Book::HELD_WORDS);
    let n = told::words_of(book.lines, Line::WORDS, Book::LINE_WORDS);
    run(
        to,
        told,
        book.lines % 600,
        &held[..h],
        &mut lines[..n],
        &mut report,
    )
}

fn main(rt: HostRuntime) -> io::Result<()> {
    cases::run(
        rt.alloc(),
        rt.stdin(),
        rt.stdout(),
        NUMBERS,
        |to, case| one_case(to, case),
    )
}
