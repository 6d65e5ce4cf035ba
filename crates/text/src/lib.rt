// What the report program prints, as bytes that are put into a lent buffer, from the place `at` on. The answer is the
// place after them. What has no room is left out, so that nothing is asked of the caller.

#![tactic(auto)]

ghost use Rattle.std.specs.Prelude.{List, [], ◌∷◌, ◌++◌, ℕ};
ghost use Rattle.text.specs.Number.{last_digit, decimal, signed_text};
ghost use Rattle.text.specs.Put.{Put};
ghost use Rattle.text.specs.Report.{head_text, listed_text, verdict_text, loop_text, not_checked_text, refused_text};

pub mod sketch;

// `LEVEL BOOK 1` and `MARKS 5 LINES 7 PIECES 1 LOOPS 3`
// Beside sketch::head_text: each is public, with its own clause.
pub fn head_text(
    out: &mut [u8],
    at: usize,
    version: usize,
    marks: usize,
    lines: usize,
    pieces: usize,
    loops: usize,
) -> usize
    ensures { Put out.old out.new at result (head_text version marks lines pieces loops) }
{
    let at = put_after(out, at, b"LEVEL BOOK ", version);
    let at = put_after(out, at, b"\nMARKS ", marks);
    let at = put_after(out, at, b" LINES ", lines);
    let at = put_after(out, at, b" PIECES ", pieces);
    let at = put_after(out, at, b" LOOPS ", loops);
    put_byte(out, at, b'\n')
}

// `LOOP 1 LENGTH 4450 MISCLOSURE -40000 OVER: 6 -1 5`
pub fn loop_text(
    out: &mut [u8],
    at: usize,
    number: usize,
    length: i64,
    misclosure: i64,
    verdict: i64,
    listing: &[i64],
) -> usize
    ensures { Put out.old out.new at result (loop_text number length misclosure verdict listing.now) }
{
    let at = put_after(out, at, b"LOOP ", number);
    let at = put_after(out, at, b" LENGTH ", length);
    let at = put_after(out, at, b" MISCLOSURE ", misclosure);
    let at = put_verdict(out, at, verdict);
    let at = put_listed(out, at, listing);
    put_byte(out, at, b'\n')
}

// `NOT CHECKED 1: 2`
pub fn not_checked_text(out: &mut [u8], at: usize, list: &[i64]) -> usize
    ensures { Put out.old out.new at result (not_checked_text list.now) }
{
    let at = put_after(out, at, b"NOT CHECKED ", list.len());
    let at = put_byte(out, at, b':');
    let at = put_listed(out, at, list);
    put_byte(out, at, b'\n')
}

// `REFUSED 7 AT 3`
pub fn refused_text(out: &mut [u8], at: usize, number: usize, place: usize) -> usize
    ensures { Put out.old out.new at result (refused_text number place) }
{
    let at = put_after(out, at, b"REFUSED ", number);
    let at = put_after(out, at, b" AT ", place);
    put_byte(out, at, b'\n')
}

// ` WITHIN:` or ` OVER:`
fn put_verdict(out: &mut [u8], at: usize, verdict: i64) -> usize
    ensures { Put out.old out.new at result (verdict_text verdict) }
{
    if verdict == 0 {
        put(out, at, b" WITHIN:")
    } else {
        put(out, at, b" OVER:")
    }
}

// Each line of a list, after a space.
pub fn put_listed(out: &mut [u8], at: usize, list: &[i64]) -> usize
    ensures { Put out.old out.new at result (listed_text list.now) }
{
    let mut next = at;
    for &line in list {
        next = put_line(out, next, line);
    }
    next
}

// One line of a list, after its space.
pub fn put_line(out: &mut [u8], at: usize, line: i64) -> usize
    ensures { Put out.old out.new at result (listed_text (line ∷ [])) }
{
    put_after(out, at, b" ", line)
}

// A word and the number after it.
pub(crate) fn put_after<N: Number>(out: &mut [u8], at: usize, word: &[u8], n: N) -> usize
    ensures { Put out.old out.new at result (word.now ++ N.printed n) }
{
    let at = put(out, at, word);
    n.put(out, at)
}

// A number that is printed: a count, or one that may be below 0.
pub(crate) trait Number {
    ghost printed: { Self → List ℕ };

    fn put(self, out: &mut [u8], at: usize) -> usize
        ensures { Put out.old out.new at result (printed self) };
}

impl Number for usize {
    ghost printed = { decimal };

    fn put(self, out: &mut [u8], at: usize) -> usize {
        put_number(out, at, self)
    }
}

impl Number for i64 {
    ghost printed = { signed_text };

    // Its sign, if it is below 0, then its size.
    fn put(self, out: &mut [u8], at: usize) -> usize {
        let size = signed::magnitude(self);
        let below = self < 0;
        if below {
            let at = put_byte(out, at, b'-');
            return put_number(out, at, size);
        }
        put_number(out, at, size)
    }
}

// The digits of n: those before the last, then the last.
pub fn put_number(out: &mut [u8], at: usize, n: usize) -> usize
    ensures { Put out.old out.new at result (decimal n) }
{
    if n < 10 {
        return put_digit(out, at, n);
    }
    let at = put_number(out, at, n / 10);
    put_digit(out, at, n)
}

// The last digit of n.
fn put_digit(out: &mut [u8], at: usize, n: usize) -> usize
    ensures { Put out.old out.new at result (last_digit n) }
{
    put_byte(out, at, b'0' + (n % 10) as u8)
}

// The bytes of a text.
pub fn put(out: &mut [u8], at: usize, s: &[u8]) -> usize
    ensures { Put out.old out.new at result s.now }
{
    let mut next = at;
    for &byte in s {
        next = put_byte(out, next, byte);
    }
    next
}

// One byte. It is left out where the buffer has no such place.
pub(crate) fn put_byte(out: &mut [u8], at: usize, byte: u8) -> usize
    ensures { Put out.old out.new at result (byte ∷ []) }
{
    if at < out.len() {
        out[at] = byte;
        at + 1
    } else {
        at
    }
}
