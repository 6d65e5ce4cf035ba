// Lists the loops of many books, one by one and all at once, and the lines that are not checked, withdraws a line and lists again, spoils
// the book number by number, tells the calls of versions that are not the book's, and prints every answer and what the output then holds.
// A case on standard input (cases::case) has two numbers: how many places of output are lent, and its file's length.
// tests/list_cases.py makes the cases and, on its own, what is printed of them.
#![tactic(auto)]

use book::Book;
use book::held::Held;
use book::line::Line;
use book::refusal::Refusal;
use cases::told::Told;
use cases::{case, told};
use std::fmt::Display;
use std::io;
use std::io::Write;

const NUMBERS: usize = 2;

// Where the standing of line 3 is, which document 01 withdraws from the worked network: line 2 is then not checked.
const STANDING: usize = 2 * Line::WORDS + Line::STANDING;

// No book has more loops than lines, so that this number is past the last of any.
const PAST_ALL: usize = Book::MAX_LINES + 1;

// A class that is none in either version.
const NO_CLASS: i64 = 5;

// The places of output that can be lent.
const OUT_SPACE: usize = 300;

fn put_listed(
    to: &mut impl Write,
    name: impl Display + Drop,
    answer: Result<usize, Refusal>,
    out: &[i64],
) -> io::Result<()> {
    write!(to, "  {name}:")?;
    cases::put_answer(to, answer.map(|entries| [entries]))?;
    to.write_all(b" |")?;
    cases::show_numbers(to, out)?;
    to.write_all(b"\n")
}

// Lists the loop of this number, and says whether there is such a loop.
fn list_loop(
    to: &mut impl Write,
    told: Told,
    number: i64,
    held: &[i64],
    lines: &[i64],
    out: &mut [i64],
) -> io::Result<bool> {
    let answer = lists::listing(told.version, told.b, told.t, held, lines, number, out);
    put_listed(to, format_args!("loop {number}"), answer, out)?;
    Ok(answer != Err(Refusal::NotThere))
}

// Every loop from the first, and the number past the last.
fn list_from_first(
    to: &mut impl Write,
    told: Told,
    held: &[i64],
    lines: &[i64],
    out: &mut [i64],
) -> io::Result<()> {
    for number in 1..=PAST_ALL {
        if !list_loop(to, told, signed::signed_count(number), held, lines, out)? {
            break;
        }
    }
    Ok(())
}

fn all_loops(
    to: &mut impl Write,
    told: Told,
    held: &[i64],
    lines: &[i64],
    out: &mut [i64],
) -> io::Result<()> {
    let answer = lists::listings(told.version, told.b, told.t, held, lines, out);
    put_listed(to, "all loops", answer, out)
}

fn list_loops(
    to: &mut impl Write,
    told: Told,
    held: &[i64],
    lines: &[i64],
    out: &mut [i64],
) -> io::Result<()> {
    list_loop(to, told, -1, held, lines, out)?;
    list_loop(to, told, 0, held, lines, out)?;
    list_from_first(to, told, held, lines, out)?;
    all_loops(to, told, held, lines, out)
}

fn not_checked(
    to: &mut impl Write,
    told: Told,
    held: &[i64],
    lines: &[i64],
    out: &mut [i64],
) -> io::Result<()> {
    let answer = lists::not_checked(told.version, told.b, told.t, held, lines, out);
    put_listed(to, "not checked", answer, out)
}

fn without_it(
    to: &mut impl Write,
    told: Told,
    held: &[i64],
    lines: &mut [i64],
    out: &mut [i64],
) -> io::Result<()> {
    to.write_all(b"line 3 withdrawn\n")?;
    if STANDING < lines.len() {
        lines[STANDING] = 0;
    }
    not_checked(to, told, held, lines, out)?;
    list_loops(to, told, held, lines, out)
}

// The three lists of a book that is spoilt.
fn list_spoilt(
    to: &mut impl Write,
    name: impl Display + Drop,
    told: Told,
    held: &[i64],
    lines: &[i64],
    out: &mut [i64],
) -> io::Result<()> {
    writeln!(to, "{name}")?;
    list_loop(to, told, 1, held, lines, out)?;
    all_loops(to, told, held, lines, out)?;
    not_checked(to, told, held, lines, out)
}

// Told as of a version, with a tolerance.
fn tell(
    to: &mut impl Write,
    told: Told,
    version: i64,
    t: i64,
    held: &[i64],
    lines: &[i64],
    out: &mut [i64],
) -> io::Result<()> {
    list_spoilt(
        to,
        format_args!("version {version}, t {t}"),
        told.of_version(version).with_t(t),
        held,
        lines,
        out,
    )
}

// Told as of either version: the classes of one version are not the other's.
fn tell_either(
    to: &mut impl Write,
    told: Told,
    held: &[i64],
    lines: &[i64],
    out: &mut [i64],
) -> io::Result<()> {
    tell(to, told, 1, 1, held, lines, out)?;
    tell(to, told, 2, 0, held, lines, out)
}

// What is spoilt stays so, and of several refusals the lowest number is given: 7, then 6.
fn spoil_entries(
    to: &mut impl Write,
    told: Told,
    held: &mut [i64],
    lines: &mut [i64],
    out: &mut [i64],
) -> io::Result<()> {
    cases::spoil_last(lines, Line::WORDS, Line::CLASS, NO_CLASS);
    list_spoilt(to, "the last line of class 5", told, held, lines, out)?;
    cases::spoil_last(lines, Line::WORDS, Line::FROM, 0);
    list_spoilt(to, "the last line from mark 0", told, held, lines, out)?;
    cases::spoil_last(held, Held::WORDS, Held::MARK, 0);
    list_spoilt(to, "the last held entry of mark 0", told, held, lines, out)
}

// Then 4, for a tolerance that is not the version's, and 3.
fn tell_neither(
    to: &mut impl Write,
    told: Told,
    held: &[i64],
    lines: &[i64],
    out: &mut [i64],
) -> io::Result<()> {
    tell(to, told, 1, 0, held, lines, out)?;
    tell(to, told, 2, 1, held, lines, out)?;
    list_spoilt(to, "version 0", told.of_version(0), held, lines, out)?;
    tell(to, told, 3, 1_001, held, lines, out)?;
    list_spoilt(to, "version 255", told.of_version(255), held, lines, out)
}

fn run(
    to: &mut impl Write,
    told: Told,
    held: &mut [i64],
    lines: &mut [i64],
    out: &mut [i64],
) -> io::Result<()> {
    cases::clear(out);
    list_loops(to, told, held, lines, out)?;
    not_checked(to, told, held, lines, out)?;
    without_it(to, told, held, lines, out)?;
    tell_either(to, told, held, lines, out)?;
    spoil_entries(to, told, held, lines, out)?;
    tell_neither(to, told, held, lines, out)
}

fn one_case(to: &mut impl Write, case: &[u8]) -> io::Result<()> {
    to.write_all(b"\n")?;
    let mut held = [0i64; Book::HELD_WORDS];
    let mut lines = [0i64; Book::LINE_WORDS];
    let mut out = [0i64; OUT_SPACE];
    let answer = file::read(case::file(case, NUMBERS), &mut held, &mut lines);
    let book = answer.unwrap_or(told::NOTHING);
    let h = told::words_of(book.held, Held::WORDS, Book::HELD_WORDS);
    let n = told::words_of(book.lines, Line::WORDS, Book::LINE_WORDS);
    let lent = case::number(case, 0).min(OUT_SPACE);
    run(
        to,
        Told::read(book.version, book.marks, book.tolerance),
        &mut held[..h],
        &mut lines[..n],
        &mut out[..lent],
    )
}

fn main(rt: HostRuntime) -> io::Result<()> {
    cases::run(
        rt.alloc(),
        rt.stdin(),
        rt.stdout(),
        NUMBERS,
        |to, case| one_case(to, case),
    )
}
