// Reads many book files, one case after the other, and prints what the reader answers and leaves in its buffers.
// A case on standard input (cases::case) has three numbers: how many places of each buffer are lent, held first, and its file's length.
// tests/reader_cases.py makes the cases and, on its own, what is printed of them.
#![tactic(auto)]

use book::line::Line;
use cases::case;
use std::io;
use std::io::Write;

const NUMBERS: usize = 3;

const HELD_SPACE: usize = 520;

const LINE_SPACE: usize = 520 * Line::WORDS;

fn run(to: &mut impl Write, file: &[u8], held: &mut [i64], lines: &mut [i64]) -> io::Result<()> {
    cases::clear(held);
    cases::clear(lines);
    let answer = file::read(file, held, lines);
    to.write_all(b" |")?;
    cases::put_answer(
        to,
        answer.map(|book| [
            book.version,
            book.marks,
            book.tolerance,
            book.held,
            book.lines,
        ]),
    )?;
    to.write_all(b" | held")?;
    cases::show_numbers(to, held)?;
    to.write_all(b" | lines")?;
    cases::show_numbers(to, lines)?;
    to.write_all(b"\n")
}

fn one_case(to: &mut impl Write, case: &[u8]) -> io::Result<()> {
    let mut held = [0i64; HELD_SPACE];
    let mut lines = [0i64; LINE_SPACE];
    let h = case::number(case, 0).min(HELD_SPACE);
    let n = case::number(case, 1).min(LINE_SPACE);
    run(
        to,
        case::file(case, NUMBERS),
        &mut held[..h],
        &mut lines[..n],
    )
}

fn main(rt: HostRuntime) -> io::Result<()> {
    cases::run(
        rt.alloc(),
        rt.stdin(),
        rt.stdout(),
        NUMBERS,
        |to, case| one_case(to, case),
    )
}
