// The calls: a book is written as it was read, told otherwise, cut and spoilt.
use crate::written;
use crate::written::SPACE;
use book::held::Held;
use book::line::Line;
use cases::told::Told;
use std::fmt::Display;
use std::io;
use std::io::Write;

// What stands in every place of a lent file before the call.
const UNTOUCHED: u8 = 165;

// A class that is none in either version.
const NO_CLASS: i64 = 5;

// One micrometre outside the limit of a held height.
const TOO_HIGH: i64 = 10_000_000_001;

// A version that is none, with version 1 in its low 32 bits.
const LOW_ONE: i64 = 4_294_967_297;

fn write_into(
    to: &mut impl Write,
    name: impl Display + Drop,
    told: Told,
    out: &mut [u8],
    held: &[i64],
    lines: &[i64],
    file: &[u8],
) -> io::Result<()> {
    let answer = writer::write(told.version, told.b, told.t, held, lines, out);
    write!(to, "  {name},")?;
    written::put_written(to, out.len(), answer)?;
    written::put_bytes(to, out)?;
    if let Ok(bytes) = answer {
        let bytes = bytes.min(out.len());
        written::put_compared(to, file, &out[..bytes])?;
        written::read_again(to, &out[..bytes], held, lines)?;
    }
    to.write_all(b"\n")
}

// Writes the book into so many places.
fn write(
    to: &mut impl Write,
    name: impl Display + Drop,
    told: Told,
    places: usize,
    held: &[i64],
    lines: &[i64],
    file: &[u8],
) -> io::Result<()> {
    let mut space = [UNTOUCHED; SPACE];
    let lent = places.min(SPACE);
    write_into(to, name, told, &mut space[..lent], held, lines, file)
}

// Into one place fewer than the file that was read has bytes, and into as many: a refusal before 10 is given whatever is lent.
fn write_both(
    to: &mut impl Write,
    name: &str,
    told: Told,
    held: &[i64],
    lines: &[i64],
    file: &[u8],
) -> io::Result<()> {
    let bytes = file.len();
    write(to, name, told, bytes.saturating_sub(1), held, lines, file)?;
    write(to, name, told, bytes, held, lines, file)
}

// The book as it was read.
fn lend_room(
    to: &mut impl Write,
    told: Told,
    held: &[i64],
    lines: &[i64],
    file: &[u8],
) -> io::Result<()> {
    write(to, "the book", told, 0, held, lines, file)?;
    write_both(to, "the book", told, held, lines, file)?;
    write(to, "the book", told, SPACE, held, lines, file)
}

// Told as of either version: t and the classes of one version are not the other's.
fn tell_either(
    to: &mut impl Write,
    told: Told,
    held: &[i64],
    lines: &[i64],
    file: &[u8],
) -> io::Result<()> {
    for (name, version, t) in [
        ("version 1, t 0", 1, 0),
        ("version 1, t 1", 1, 1),
        ("version 2, t 0", 2, 0),
        ("version 2, t 1", 2, 1),
    ] {
        let other = told.of_version(version).with_t(t);
        write_both(to, name, other, held, lines, file)?;
    }
    Ok(())
}

// Refusal 3.
fn tell_none(
    to: &mut impl Write,
    told: Told,
    held: &[i64],
    lines: &[i64],
    file: &[u8],
) -> io::Result<()> {
    for (name, version) in [
        ("version 0", 0),
        ("version 3", 3),
        ("version 255", 255),
        ("version -1", -1),
        ("version 2^32 + 1", LOW_ONE),
    ] {
        write_both(to, name, told.of_version(version), held, lines, file)?;
    }
    Ok(())
}

// Refusal 4: b or t is outside its limit.
fn tell_outside(
    to: &mut impl Write,
    told: Told,
    held: &[i64],
    lines: &[i64],
    file: &[u8],
) -> io::Result<()> {
    write_both(to, "b 0", told.with_b(0), held, lines, file)?;
    write_both(to, "b 257", told.with_b(257), held, lines, file)?;
    write_both(to, "t -1", told.with_t(-1), held, lines, file)?;
    write_both(to, "t 1001", told.with_t(1_001), held, lines, file)
}

// Refusal 4: held entries, then lines, that are not whole.
fn cut_entries(
    to: &mut impl Write,
    told: Told,
    held: &[i64],
    lines: &[i64],
    file: &[u8],
) -> io::Result<()> {
    let h = held.len().saturating_sub(1);
    let n = lines.len().saturating_sub(1);
    write_both(to, "held cut", told, &held[..h], lines, file)?;
    write_both(to, "lines cut", told, held, &lines[..n], file)
}

// The file is read once more. It was read before, so that it isn't refused.
fn mend(held: &mut [i64], lines: &mut [i64], file: &[u8]) {
    let _ = file::read(file, held, lines);
}

// Refusals 6 and 7, and 16 of a version 1 book; a version 2 book with a line withdrawn is written. Each is mended.
fn spoil_each(
    to: &mut impl Write,
    told: Told,
    held: &mut [i64],
    lines: &mut [i64],
    file: &[u8],
) -> io::Result<()> {
    cases::spoil_last(held, Held::WORDS, Held::MARK, 0);
    write_both(to, "the last held mark 0", told, held, lines, file)?;
    mend(held, lines, file);
    cases::spoil_last(lines, Line::WORDS, Line::FROM, 0);
    write_both(to, "the last line from 0", told, held, lines, file)?;
    mend(held, lines, file);
    cases::spoil_last(lines, Line::WORDS, Line::STANDING, 0);
    write_both(to, "the last line withdrawn", told, held, lines, file)?;
    mend(held, lines, file);
    Ok(())
}

// Refusal 16 of a version 1 book, and 7 before it.
fn withdraw_and_spoil(
    to: &mut impl Write,
    told: Told,
    held: &[i64],
    lines: &mut [i64],
    file: &[u8],
) -> io::Result<()> {
    if Line::STANDING < lines.len() {
        lines[Line::STANDING] = 0;
    }
    write_both(to, "the first line withdrawn", told, held, lines, file)?;
    cases::spoil_last(lines, Line::WORDS, Line::CLASS, NO_CLASS);
    write_both(to, "and the last of class 5", told, held, lines, file)
}

// What is spoilt stays so, and each refusal is given before all that were there: 16, then 7, 6, 4 and 3.
fn spoil_all(
    to: &mut impl Write,
    told: Told,
    held: &mut [i64],
    lines: &mut [i64],
    file: &[u8],
) -> io::Result<()> {
    withdraw_and_spoil(to, told, held, lines, file)?;
    cases::spoil_last(held, Held::WORDS, Held::HEIGHT, TOO_HIGH);
    write_both(to, "and the last held too high", told, held, lines, file)?;
    let outside = told.with_t(1_001);
    write_both(to, "and t 1001", outside, held, lines, file)?;
    write_both(
        to,
        "and version 0",
        outside.of_version(0),
        held,
        lines,
        file,
    )
}

pub(crate) fn run(
    to: &mut impl Write,
    told: Told,
    held: &mut [i64],
    lines: &mut [i64],
    file: &[u8],
) -> io::Result<()> {
    lend_room(to, told, held, lines, file)?;
    tell_either(to, told, held, lines, file)?;
    tell_none(to, told, held, lines, file)?;
    tell_outside(to, told, held, lines, file)?;
    cut_entries(to, told, held, lines, file)?;
    spoil_each(to, told, held, lines, file)?;
    spoil_all(to, told, held, lines, file)
}
