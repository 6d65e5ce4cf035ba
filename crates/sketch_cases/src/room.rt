// How much of the four outputs is lent to a call.
use book::Book;
use junctions::Sizes;

pub(crate) const ENTRIES: usize = junctions::ENTRIES_WORDS;

#[derive(Clone, Copy, PartialEq, Eq)]
pub(crate) enum Output {
    Links,
    Spurs,
    Loops,
    Run,
}

// How many places each of the four outputs has.
#[derive(Clone, Copy)]
pub(crate) struct Room {
    pub(crate) links: usize,
    pub(crate) spurs: usize,
    pub(crate) loops: usize,
    pub(crate) run: usize,
}

impl Room {
    // As much as any sketch needs.
    pub(crate) const MUCH: Room = Room {
        links: ENTRIES,
        spurs: ENTRIES,
        loops: ENTRIES,
        run: Book::MAX_LINES,
    };

    pub(crate) const ONE_PLACE_EACH: Room = Room {
        links: 1,
        spurs: 1,
        loops: 1,
        run: 1,
    };

    // The room that just fits a sketch, but for one place of the output that is to be short.
    pub(crate) fn fitting(sizes: Sizes, short: Option<Output>) -> Room {
        Room {
            links: places(words(sizes.links), short == Some(Output::Links)),
            spurs: places(words(sizes.spurs), short == Some(Output::Spurs)),
            loops: places(words(sizes.loops), short == Some(Output::Loops)),
            run: places(sizes.run, short == Some(Output::Run)),
        }
    }
}

fn words(entries: usize) -> usize {
    entries.min(Book::MAX_LINES) * junctions::ENTRY_WORDS
}

// So many places, or one less where the output is to be short.
fn places(count: usize, is_short: bool) -> usize {
    if is_short {
        count.saturating_sub(1)
    } else {
        count
    }
}
