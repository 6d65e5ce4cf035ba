// What the sketch program prints.
ghost use Rattle.text.specs.Put.{Put};
ghost use Rattle.text.specs.Sketch.{sketch_head_text, measured_text, link_text, spur_text, self_closing_text};

use crate::{put_after, put_byte, put_listed};

// `JUNCTION SKETCH` and `MARKS 16 LINES 20 LINKS 6 SPURS 4 LOOPS 2`
pub fn head_text(
    out: &mut [u8],
    at: usize,
    marks: usize,
    lines: usize,
    links: usize,
    spurs: usize,
    loops: usize,
) -> usize
    ensures { Put out.old out.new at result (sketch_head_text marks lines links spurs loops) }
{
    let at = put_after(out, at, b"JUNCTION SKETCH\nMARKS ", marks);
    let at = put_after(out, at, b" LINES ", lines);
    let at = put_after(out, at, b" LINKS ", links);
    let at = put_after(out, at, b" SPURS ", spurs);
    let at = put_after(out, at, b" LOOPS ", loops);
    put_byte(out, at, b'\n')
}

// `LINK 1 2 LENGTH 200 DIFFERENCE 0: 1 2`
pub fn link_text(
    out: &mut [u8],
    at: usize,
    first: i64,
    last: i64,
    length: i64,
    difference: i64,
    listing: &[i64],
) -> usize
    ensures { Put out.old out.new at result (link_text first last length difference listing.now) }
{
    let at = put_after(out, at, b"LINK ", first);
    let at = put_after(out, at, b" ", last);
    put_measured(out, at, b" DIFFERENCE ", length, difference, listing)
}

// `SPUR 16 LENGTH 100 DIFFERENCE 0: -20`
// Beside loop_text: each is public, with its own clause; what they share is put_measured.
pub fn spur_text(
    out: &mut [u8],
    at: usize,
    mark: i64,
    length: i64,
    difference: i64,
    listing: &[i64],
) -> usize
    ensures { Put out.old out.new at result (spur_text mark length difference listing.now) }
{
    let at = put_after(out, at, b"SPUR ", mark);
    put_measured(out, at, b" DIFFERENCE ", length, difference, listing)
}

// `LOOP 12 LENGTH 300 MISCLOSURE 0: 16 17 18`
pub fn loop_text(
    out: &mut [u8],
    at: usize,
    mark: i64,
    length: i64,
    misclosure: i64,
    listing: &[i64],
) -> usize
    ensures { Put out.old out.new at result (self_closing_text mark length misclosure listing.now) }
{
    let at = put_after(out, at, b"LOOP ", mark);
    put_measured(out, at, b" MISCLOSURE ", length, misclosure, listing)
}

// The rest of a line, from its length on. The word before the difference is the caller's.
fn put_measured(
    out: &mut [u8],
    at: usize,
    word: &[u8],
    length: i64,
    difference: i64,
    listing: &[i64],
) -> usize
    ensures { Put out.old out.new at result
        (measured_text word.now length difference listing.now) }
{
    let at = put_after(out, at, b" LENGTH ", length);
    let at = put_after(out, at, word, difference);
    let at = put_byte(out, at, b':');
    let at = put_listed(out, at, listing);
    put_byte(out, at, b'\n')
}
