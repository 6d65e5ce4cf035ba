// Plays two stories on the worked network, of version 1 and of version 2: re-runs, withdrawals and tries that are refused, one step after
// the other. Of each it says in words what was answered, what changed in the book, and what the kept report then holds.
// On standard input each story: the lengths of the book's file and of its steps (2 bytes each), the file, the steps (step.rt).
// tests/afternoon.py makes the steps and, on its own, what is printed of them.
#![tactic(auto)]

ghost use Rattle.std.specs.Prelude.{◌≤◌, ◌+◌, length};

mod step;
mod taken;
mod words;

use cases::told::Told;
use cases::{case, told};
use std::io;
use std::io::Write;
use step::Steps;
use taken::{HELD_WORDS, LINES_WORDS, REPORT_WORDS};

const STORIES: usize = 2;

// The bytes before a story's file.
const STORY_BYTES: usize = 4;

// The file and the steps of the first story, and what comes after it; none where no whole one is left.
fn story(input: &[u8]) -> Option<(&[u8], &[u8], &[u8])> {
    let (lengths, rest) = input.split_at_checked(STORY_BYTES)?;
    let (file, rest) = rest.split_at_checked(case::two(lengths, 0))?;
    let (steps, rest) = rest.split_at_checked(case::two(lengths, 2))?;
    Some((file, steps, rest))
}

fn play(to: &mut impl Write, file: &[u8], steps: &[u8]) -> io::Result<()> {
    let mut held = [0i64; HELD_WORDS];
    let mut lines = [0i64; LINES_WORDS];
    let mut report = [0i64; REPORT_WORDS];
    cases::clear(&mut report);
    let book = file::read(file, &mut held, &mut lines).unwrap_or(told::NOTHING);
    let told = Told::read(book.version, book.marks, book.tolerance);
    for (note, step) in Steps::of(steps) {
        to.write_all(note)?;
        to.write_all(b"\n")?;
        taken::take(to, step, told, file, &mut held, &mut lines, &mut report)?;
    }
    Ok(())
}

fn run(to: &mut impl Write, input: &[u8]) -> io::Result<()> {
    let mut left = input;
    for _ in 0..STORIES {
        let Some((file, steps, rest)) = story(left) else {
            break;
        };
        play(to, file, steps)?;
        left = rest;
    }
    Ok(())
}

fn main(rt: HostRuntime) -> io::Result<()> {
    cases::answer(
        rt.alloc(),
        rt.stdin(),
        16_384,
        rt.stdout(),
        |to, input| run(to, input),
    )
}
