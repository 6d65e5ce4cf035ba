// The steps taken on the book and its kept report.
use crate::step::{Call, Sheet, Step};
use crate::words;
use book::held::Held;
use book::line::Line;
use book::refusal::Refusal;
use cases::told::Told;
use std::io;
use std::io::Write;
use table::Found;

// The worked network's numbers: one held entry, seven lines; its report of three rows is kept in space for four.
pub(crate) const HELD_WORDS: usize = Held::WORDS;

pub(crate) const LINES_WORDS: usize = 7 * Line::WORDS;

pub(crate) const REPORT_WORDS: usize = words::REPORT_ROWS * rows::ROW_WORDS;

fn answer(
    call: Call,
    told: Told,
    held: &[i64],
    lines: &mut [i64],
    report: &mut [i64],
) -> Result<Found, Refusal> {
    match call {
        Call::Survey => survey::survey(told.version, told.b, told.t, held, lines, report),
        Call::Rerun { line, difference } => {
            survey::rerun(
                told.version,
                told.b,
                told.t,
                held,
                lines,
                report,
                line,
                difference,
            )
        }
        Call::Withdraw { line } => survey::withdraw(
            told.version,
            told.b,
            told.t,
            held,
            lines,
            report,
            line,
        ),
    }
}

// The call is lent so many numbers of the report.
fn take_call(
    to: &mut impl Write,
    call: Call,
    lent: usize,
    told: Told,
    held: &[i64; HELD_WORDS],
    lines: &mut [i64; LINES_WORDS],
    report: &mut [i64; REPORT_WORDS],
) -> io::Result<()> {
    let lines_were = *lines;
    let report_was = *report;
    let lent = lent.min(REPORT_WORDS);
    let answer = answer(call, told, held, lines, &mut report[..lent]);
    let refused = answer.is_err();
    write!(to, "  {call}:")?;
    words::put_answer(to, answer)?;
    words::put_book(to, &lines_were, lines)?;
    words::put_report(to, refused, &report_was, report)
}

// Somebody writes a number into the book or the report by hand.
fn pen(
    to: &mut impl Write,
    sheet: Sheet,
    s: &mut [i64],
    place: usize,
    value: i64,
) -> io::Result<()> {
    if place < s.len() {
        words::put_change(to, sheet, place, s[place], value)?;
        s[place] = value;
    }
    Ok(())
}

fn read(to: &mut impl Write, file: &[u8], held: &mut [i64], lines: &mut [i64]) -> io::Result<()> {
    words::put_read(to, file::read(file, held, lines))
}

pub(crate) fn take(
    to: &mut impl Write,
    step: Step,
    told: Told,
    file: &[u8],
    held: &mut [i64; HELD_WORDS],
    lines: &mut [i64; LINES_WORDS],
    report: &mut [i64; REPORT_WORDS],
) -> io::Result<()> {
    match step {
        Step::Call { call, lent } => take_call(to, call, lent, told, held, lines, report),
        Step::Pen {
            sheet,
            place,
            value,
        } => match sheet {
            Sheet::Held => pen(to, sheet, held, place, value),
            Sheet::Lines => pen(to, sheet, lines, place, value),
            Sheet::Report => pen(to, sheet, report, place, value),
        },
        Step::Read => read(to, file, held, lines),
    }
}
