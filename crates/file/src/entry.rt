// The entries of a book file. Document 01: "Each entry is read as a part of the file that begins in its middle."
ghost use Rattle.std.specs.Prelude.{◌≡◌, ◌++◌, ◌+◌, ◌*◌, ◌≤◌, ◌<◌, ◌^◌, length, drop};
ghost use Rattle.book.specs.Held.{held_words};
ghost use Rattle.book.specs.Line.{line_words};
ghost use Rattle.file.specs.declared.entry.Kind.TheVariants.{ClassedLine};
ghost use Rattle.file.specs.Entry.{entry_bytes, entry_words, held_numbers, line_numbers, line_kind, numbers, entries};

use crate::wire;
use book::Book;
use book::held::Held;
use book::line::Line;

// What an entry is of: a held mark, or a line without or with a class.
// An enum: `entry_bytes`, `numbers` and `entries` of specs/ are by its cases.
#[derive(Clone, Copy)]
pub enum Kind {
    Held,
    Line,
    ClassedLine,
}

impl Kind {
    pub const HELD_BYTES: usize = 10;

    const LINE_BYTES: usize = 12;

    const CLASSED_LINE_BYTES: usize = 14;

    // What the lines of a file of this version are.
    pub fn of_lines(version: usize) -> Kind
        requires { version < 2 ^ 63 }
        ensures { result ≡ line_kind version }
    {
        if Book::has_classes(signed::signed_count(version)) {
            return Kind::ClassedLine;
        }
        Kind::Line
    }

    // Bytes of an entry in the file.
    pub fn bytes(self) -> usize
        ensures { result ≡ entry_bytes self }
    {
        match self {
            Kind::Held => Kind::HELD_BYTES,
            Kind::Line => Kind::LINE_BYTES,
            Kind::ClassedLine => Kind::CLASSED_LINE_BYTES,
        }
    }

    // Numbers of an entry in memory.
    pub fn words(self) -> usize
        ensures { result ≡ entry_words self }
    {
        match self {
            Kind::Held => Held::WORDS,
            Kind::Line => Line::WORDS,
            Kind::ClassedLine => Line::WORDS,
        }
    }
}

// A held entry: mark 2 bytes, height 8 signed.
fn read_held(e: &[u8], out: &mut [i64])
    requires entry { length e.now ≡ 10 }
    requires places { length out.old ≡ held_words }
    ensures { out.new ≡ held_numbers e.now }
{
    out[Held::MARK] = wire::plain::<2>(e, 0);
    out[Held::HEIGHT] = wire::signed8(e, 2);
}

// A line: from 2 bytes, to 2, difference 4 signed, length 4.
fn read_line(e: &[u8], standing: i64, class: i64, out: &mut [i64])
    requires entry { 12 ≤ length e.now }
    requires places { length out.old ≡ line_words }
    ensures { out.new ≡ line_numbers standing class e.now }
{
    out[Line::FROM] = wire::plain::<2>(e, 0);
    out[Line::TO] = wire::plain::<2>(e, 2);
    out[Line::DIFFERENCE] = wire::signed4(e, 4);
    out[Line::LENGTH] = wire::plain::<4>(e, 8);
    out[Line::STANDING] = standing;
    out[Line::CLASS] = class;
}

// After them class 1 byte, standing 1.
fn read_classed_line(e: &[u8], out: &mut [i64])
    requires entry { length e.now ≡ 14 }
    requires places { length out.old ≡ line_words }
    ensures { out.new ≡ numbers ClassedLine e.now }
{
    let class = wire::plain::<1>(e, 12);
    let standing = wire::plain::<1>(e, 13);
    read_line(e, standing, class, out);
}

// One entry: its part of the file, and the places that it fills.
fn read_entry(kind: Kind, e: &[u8], out: &mut [i64])
    requires entry { length e.now ≡ entry_bytes kind }
    requires places { length out.old ≡ entry_words kind }
    ensures { out.new ≡ numbers kind e.now }
{
    match kind {
        Kind::Held => read_held(e, out),
        Kind::Line => read_line(e, 1, Line::NO_CLASS, out),
        Kind::ClassedLine => read_classed_line(e, out),
    }
}

// The n entries from place a of the file on.
// A range and slices: of what chunks_exact_mut lends a proof knows nothing afterwards.
pub(crate) fn read_entries(kind: Kind, file: &[u8], a: usize, n: usize, out: &mut [i64])
    requires whole { a + n * entry_bytes kind ≤ length file.now }
    requires room { n * entry_words kind ≤ length out.old }
    ensures { out.new ≡ entries kind file.now a n ++ drop (n * entry_words kind) out.old }
{
    let bytes = kind.bytes();
    let words = kind.words();
    for i in 0..n {
        let at = a + i * bytes;
        let to = i * words;
        read_entry(kind, &file[at..at + bytes], &mut out[to..to + words]);
    }
}
