// The steps of a story. A step: the length of its note, its kind and how many numbers of the report are lent (2 bytes each), a line or
// place and a new number (6 bytes each: 1 if negative, in 2, and the size), the note.
ghost use Rattle.std.specs.Prelude.{◌≤◌, ◌+◌, length};
ghost use Rattle.std.specs.Iterator.{at_most};

use cases::case;
use std::fmt;

// The three sheets in which a number can change.
#[derive(Clone, Copy)]
pub(crate) enum Sheet {
    Held,
    Lines,
    Report,
}

// The three calls.
#[derive(Clone, Copy)]
pub(crate) enum Call {
    Survey,
    Rerun { line: i64, difference: i64 },
    Withdraw { line: i64 },
}

// A call, which is lent so many numbers of the report; somebody's pen in a sheet; or the file read anew.
#[derive(Clone, Copy)]
pub(crate) enum Step {
    Call {
        call: Call,
        lent: usize,
    },
    Pen {
        sheet: Sheet,
        place: usize,
        value: i64,
    },
    Read,
}

// `RE-RUN 6 TO 2428000`
impl fmt::Display for Call {
    fn fmt<W: fmt::Write>(&self, f: &mut fmt::Formatter<W>) -> fmt::Result {
        match *self {
            Call::Survey => write!(f, "SURVEY"),
            Call::Rerun { line, difference } => write!(f, "RE-RUN {line} TO {difference}"),
            Call::Withdraw { line } => write!(f, "WITHDRAW {line}"),
        }
    }
}

// The bytes before a step's note.
const STEP_BYTES: usize = 18;

// The size in 4 bytes behind its sign in 2.
fn number(s: &[u8], at: usize) -> i64
    requires { at + 6 ≤ length s.now }
{
    let size = signed::signed_count(case::two(s, at + 2) * 65536 + case::two(s, at + 4));
    if case::two(s, at) == 0 {
        size
    } else {
        signed::sub(0, size)
    }
}

fn step_of(head: &[u8]) -> Step
    requires { 18 ≤ length head.now }
{
    let lent = case::two(head, 4);
    let which = number(head, 6);
    let value = number(head, 12);
    let pen_in = |sheet| Step::Pen {
        sheet,
        place: signed::magnitude(which),
        value,
    };
    match case::two(head, 2) {
        0 => Step::Call {
            call: Call::Survey,
            lent,
        },
        1 => Step::Call {
            call: Call::Rerun {
                line: which,
                difference: value,
            },
            lent,
        },
        2 => Step::Call {
            call: Call::Withdraw { line: which },
            lent,
        },
        3 => pen_in(Sheet::Held),
        4 => pen_in(Sheet::Lines),
        5 => pen_in(Sheet::Report),
        _ => Step::Read,
    }
}

// The steps and their notes, one after the other. What is left behind the last whole one is no step.
#[derive(Drop)]
pub(crate) struct Steps<'a> {
    rest: &'a [u8],
}

impl<'a> Steps<'a> {
    pub(crate) fn of(steps: &'a [u8]) -> Steps<'a> {
        Steps { rest: steps }
    }
}

impl<'a> Iterator for Steps<'a> {
    type Item = (&'a [u8], Step);

    ghost remaining = { λ s. at_most (length s.rest.now) };

    fn next(&mut self) -> Option<(&'a [u8], Step)> {
        let (head, rest) = self.rest.split_at_checked(STEP_BYTES)?;
        let (note, rest) = rest.split_at_checked(case::two(head, 0))?;
        self.rest = rest;
        Some((note, step_of(head)))
    }
}
