// The junction sketch of a tested book: its head, then the lines of its links, its spurs and its self-closing loops.
ghost use Rattle.std.specs.Prelude.{◌≡◌, length};
ghost use Rattle.book.specs.Good.{GoodLines};
ghost use Rattle.links.specs.Sketch.{entry_words};
ghost use Rattle.text.specs.Put.{Put};
ghost use Rattle.page.specs.Sketch.{sketch_text};
ghost use Rattle.page.specs.Entries.{entry_line, SomeEntered, EntriesPut};

use book::Book;

// What an entry is of. A loop is a self-closing one.
// An enum: `entry_line` of specs/ says by its cases what an entry's line is.
#[derive(Clone, Copy)]
pub enum Kind {
    Link,
    Spur,
    Loop,
}

// Where the next line goes in the text, and where its signed lines begin in the run.
#[derive(Drop)]
pub struct Place {
    pub text: usize,
    pub run: usize,
}

// The whole sketch.
pub(crate) fn put_sketch(book: Book, lines: &[i64], out: &mut [u8]) -> usize
    requires { GoodLines book lines.now }
    ensures { Put out.old out.new 0 result (sketch_text book lines.now) }
{
    let mut links = [0i64; junctions::ENTRIES_WORDS];
    let mut spurs = [0i64; junctions::ENTRIES_WORDS];
    let mut loops = [0i64; junctions::ENTRIES_WORDS];
    let mut run = [0i64; Book::MAX_LINES];
    let drawn = junctions::sketch_good(
        book,
        lines,
        &mut links[..],
        &mut spurs[..],
        &mut loops[..],
        &mut run[..],
    );
    let Ok(s) = drawn else {
        // The lists have room for every line.
        unreachable!()
    };
    let text = text::sketch::head_text(out, 0, book.marks, book.lines, s.links, s.spurs, s.loops);
    let head = Place { text, run: 0 };
    let after_links = put_entries(Kind::Link, &links[..], &run[..], s.links, head, out);
    let after_spurs = put_entries(Kind::Spur, &spurs[..], &run[..], s.spurs, after_links, out);
    let after_loops = put_entries(Kind::Loop, &loops[..], &run[..], s.loops, after_spurs, out);
    after_loops.text
}

// The lines of so many entries, whose signed lines stand in the run one after the other. The answer is the place after them.
fn put_entries(
    kind: Kind,
    numbers: &[i64],
    run: &[i64],
    count: usize,
    from: Place,
    out: &mut [u8],
) -> Place
    requires { SomeEntered numbers.now run.now count from.run }
    ensures { EntriesPut kind numbers.now run.now count from result out.old out.new }
{
    let mut after = from.text;
    let mut begin = from.run;
    for entry in numbers.chunks_exact(junctions::ENTRY_WORDS).take(count) {
        let end = begin + signed::index(entry[junctions::ENTRY_COUNT]);
        after = put_entry(kind, entry, &run[begin..end], out, after);
        begin = end;
    }
    Place {
        text: after,
        run: begin,
    }
}

// The line of one entry.
fn put_entry(kind: Kind, entry: &[i64], list: &[i64], out: &mut [u8], at: usize) -> usize
    requires { length entry.now ≡ entry_words }
    ensures { Put out.old out.new at result (entry_line kind entry.now list.now) }
{
    let first = entry[junctions::ENTRY_FIRST];
    let last = entry[junctions::ENTRY_LAST];
    let length = entry[junctions::ENTRY_LENGTH];
    let difference = entry[junctions::ENTRY_DIFFERENCE];
    match kind {
        Kind::Link => text::sketch::link_text(out, at, first, last, length, difference, list),
        Kind::Spur => text::sketch::spur_text(out, at, first, length, difference, list),
        Kind::Loop => text::sketch::loop_text(out, at, first, length, difference, list),
    }
}
