// The sketches of a book in memory, into room that fits and does not.
use crate::room::{ENTRIES, Output, Room};
use book::Book;
use book::line::Line;
use book::refusal::Refusal;
use cases::told::Told;
use junctions::Sizes;
use std::fmt::Display;
use std::io;
use std::io::Write;

// A class that is none in either version.
const NO_CLASS: i64 = 5;

// What a call that is refused has sketched.
const NO_SKETCH: Sizes = Sizes {
    links: 0,
    spurs: 0,
    loops: 0,
    run: 0,
};

fn put_answer(
    to: &mut impl Write,
    name: impl Display + Drop,
    answer: Result<Sizes, Refusal>,
) -> io::Result<()> {
    write!(to, "{name}:")?;
    cases::put_answer(
        to,
        answer.map(|sizes| [sizes.links, sizes.spurs, sizes.loops, sizes.run]),
    )
}

fn put_numbers(to: &mut impl Write, numbers: &[i64]) -> io::Result<()> {
    to.write_all(b" |")?;
    cases::show_numbers(to, numbers)?;
    Ok(())
}

// Sketches the book into these outputs, and prints the answer and what each of the four then holds. The answer is how much that is.
fn show_in(
    to: &mut impl Write,
    name: impl Display + Drop,
    told: Told,
    held: &[i64],
    lines: &[i64],
    links: &mut [i64],
    spurs: &mut [i64],
    loops: &mut [i64],
    run: &mut [i64],
) -> io::Result<Sizes> {
    cases::clear(links);
    cases::clear(spurs);
    cases::clear(loops);
    cases::clear(run);
    let answer = junctions::sketch(
        told.version,
        told.b,
        told.t,
        held,
        lines,
        links,
        spurs,
        loops,
        run,
    );
    put_answer(to, name, answer)?;
    put_numbers(to, links)?;
    put_numbers(to, spurs)?;
    put_numbers(to, loops)?;
    put_numbers(to, run)?;
    to.write_all(b"\n")?;
    Ok(answer.unwrap_or(NO_SKETCH))
}

fn show(
    to: &mut impl Write,
    name: impl Display + Drop,
    told: Told,
    room: Room,
    held: &[i64],
    lines: &[i64],
) -> io::Result<Sizes> {
    let mut links = [0i64; ENTRIES];
    let mut spurs = [0i64; ENTRIES];
    let mut loops = [0i64; ENTRIES];
    let mut run = [0i64; Book::MAX_LINES];
    let to_links = room.links.min(ENTRIES);
    let to_spurs = room.spurs.min(ENTRIES);
    let to_loops = room.loops.min(ENTRIES);
    let to_run = room.run.min(Book::MAX_LINES);
    show_in(
        to,
        name,
        told,
        held,
        lines,
        &mut links[..to_links],
        &mut spurs[..to_spurs],
        &mut loops[..to_loops],
        &mut run[..to_run],
    )
}

// The sketch into much room, into room that just fits, and "10 where any of the four is too short".
fn show_all(to: &mut impl Write, told: Told, held: &[i64], lines: &[i64]) -> io::Result<()> {
    let sizes = show(to, "much room", told, Room::MUCH, held, lines)?;
    for (name, short) in [
        ("just enough", None),
        ("fewer links", Some(Output::Links)),
        ("fewer spurs", Some(Output::Spurs)),
        ("fewer loops", Some(Output::Loops)),
        ("a shorter run", Some(Output::Run)),
    ] {
        show(to, name, told, Room::fitting(sizes, short), held, lines)?;
    }
    Ok(())
}

// Told as of either version, with one place in each output: t and the classes of one version are not the other's, which comes before
// 10.
fn tell_either(to: &mut impl Write, told: Told, held: &[i64], lines: &[i64]) -> io::Result<()> {
    for (version, t) in [(1, 0), (1, 1), (2, 0), (2, 1)] {
        show(
            to,
            format_args!("version {version}, t {t}"),
            told.of_version(version).with_t(t),
            Room::ONE_PLACE_EACH,
            held,
            lines,
        )?;
    }
    Ok(())
}

// That, and told as of no version, which comes before it.
fn show_spoilt(to: &mut impl Write, told: Told, held: &[i64], lines: &mut [i64]) -> io::Result<()> {
    cases::spoil_last(lines, Line::WORDS, Line::CLASS, NO_CLASS);
    show(to, "class 5", told, Room::ONE_PLACE_EACH, held, lines)?;
    show(
        to,
        "version 0",
        told.of_version(0),
        Room::ONE_PLACE_EACH,
        held,
        lines,
    )?;
    show(
        to,
        "version 3",
        told.of_version(3),
        Room::ONE_PLACE_EACH,
        held,
        lines,
    )?;
    show(
        to,
        "version 255",
        told.of_version(255),
        Room::MUCH,
        held,
        lines,
    )?;
    Ok(())
}

pub(crate) fn run(
    to: &mut impl Write,
    told: Told,
    held: &[i64],
    lines: &mut [i64],
) -> io::Result<()> {
    show_all(to, told, held, lines)?;
    tell_either(to, told, held, lines)?;
    show_spoilt(to, told, held, lines)
}
