// The entries of a book file, each into the part of the file that it fills.
ghost use Rattle.std.specs.Prelude.{◌≡◌, ◌*◌, ◌≤◌, length};
ghost use Rattle.book.specs.Held.{held_words};
ghost use Rattle.book.specs.Line.{line_words};
ghost use Rattle.file.specs.Entry.{entry_bytes, entry_words};
ghost use Rattle.writer.specs.Entry.{held_bytes, line_bytes, classed_line_bytes, bytes, written};

use crate::wire;
use book::held::Held;
use book::line::Line;
use file::entry::Kind;

// A held entry: mark 2 bytes, height 8 signed.
fn write_held(e: &[i64], out: &mut [u8])
    requires numbers { length e.now ≡ held_words }
    requires entry { length out.old ≡ 10 }
    ensures { out.new ≡ held_bytes e.now }
{
    wire::put_signed(e[Held::MARK], &mut out[0..2]);
    wire::put_signed(e[Held::HEIGHT], &mut out[2..10]);
}

// A line: from 2 bytes, to 2, difference 4 signed, length 4.
fn write_line(e: &[i64], out: &mut [u8])
    requires numbers { length e.now ≡ line_words }
    requires entry { length out.old ≡ 12 }
    ensures { out.new ≡ line_bytes e.now }
{
    wire::put_signed(e[Line::FROM], &mut out[0..2]);
    wire::put_signed(e[Line::TO], &mut out[2..4]);
    wire::put_signed(e[Line::DIFFERENCE], &mut out[4..8]);
    wire::put_signed(e[Line::LENGTH], &mut out[8..12]);
}

// After them class 1 byte, standing 1.
fn write_classed_line(e: &[i64], out: &mut [u8])
    requires numbers { length e.now ≡ line_words }
    requires entry { length out.old ≡ 14 }
    ensures { out.new ≡ classed_line_bytes e.now }
{
    write_line(e, &mut out[0..12]);
    wire::put_signed(e[Line::CLASS], &mut out[12..13]);
    wire::put_signed(e[Line::STANDING], &mut out[13..14]);
}

// One entry: its numbers, and its part of the file.
fn write_entry(kind: Kind, e: &[i64], out: &mut [u8])
    requires numbers { length e.now ≡ entry_words kind }
    requires entry { length out.old ≡ entry_bytes kind }
    ensures { out.new ≡ bytes kind e.now }
{
    match kind {
        Kind::Held => write_held(e, out),
        Kind::Line => write_line(e, out),
        Kind::ClassedLine => write_classed_line(e, out),
    }
}

// The first n entries of a slice, into as many places as they have bytes.
pub(crate) fn write_entries(kind: Kind, slice: &[i64], n: usize, out: &mut [u8])
    requires whole { n * entry_words kind ≤ length slice.now }
    requires room { length out.old ≡ n * entry_bytes kind }
    ensures { out.new ≡ written kind slice.now n }
{
    let bytes = kind.bytes();
    let words = kind.words();
    for i in 0..n {
        let from = i * words;
        let to = i * bytes;
        write_entry(kind, &slice[from..from + words], &mut out[to..to + bytes]);
    }
}
