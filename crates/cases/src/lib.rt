// What the programs that run cases share: where a case lies in the input (case.rt), what a call is told of a book (told.rt), buffers
// filled before a call, numbers printed after it, and the run over all the cases of an input. The text is put into bytes by a function
// that states it; what prints it says that a writer of known bytes then holds these too, and how many they are. A failed read or write is
// given back: what the writer holds then is not said.
#![tactic(auto)]

ghost use Rattle.std.specs.Prelude.{◌≡◌, ℕ, List, ◌≤◌, ◌<◌, ◌+◌, ◌^◌, min, length, take, replicate, [], ◌∷◌, OnOk, IfOk, IfSome};
ghost use Rattle.std.specs.Io.KnownBytes.{Appends};
ghost use Rattle.text.specs.Put.{Put};
ghost use Rattle.text.specs.Report.{listed_text};
ghost use Rattle.cases.specs.Answer.{all_spaced, answer_numbers};
ghost use Rattle.cases.specs.Shown.{AllShown, CasesShown, IsAnswered, IsShown};
ghost use Rattle.cases.specs.Cases.{untouched, spoilt_last, side_of, mixed_with, digest_of, spaced, numbers_text, shown_bytes};

pub mod case;
#[cfg(test)]
mod tests;
pub mod told;

use book::refusal::Refusal;
use case::Cases;
use std::alloc::Global;
use std::io;
use std::io::{BufWriter, Read, Write};

// The bytes of a number after its space: of a u64, and of an i64 with its sign.
const NUMBER_BYTES: usize = 21;

// The numbers of a buffer that are printed, and their bytes with those of the digest.
const SHOWN: usize = 7;

const SHOWN_BYTES: usize = 160;

// "At most 16,384 bytes are read; of longer input these count as the file."
pub const FILE_BYTES: u64 = 16_384;

// The bytes of cases that are read.
const CASES_BYTES: u64 = 131_072;

// What stands in every place of a buffer before the call.
const UNTOUCHED: i64 = -7_777;

pub fn clear(s: &mut [i64])
    ensures { s.new ≡ replicate (length s.old) untouched }
{
    s.fill(UNTOUCHED);
}

// Number k of the last entry, of so many numbers, becomes x; without an entry nothing does.
#[tactic(auto, unfolding(crate::specs::Cases::spoilt_last))]
pub fn spoil_last(entries: &mut [i64], words: usize, k: usize, x: i64)
    requires { k < words }
    ensures { entries.new ≡ spoilt_last entries.old words k x }
{
    if words <= entries.len() {
        let at = entries.len() - words;
        entries[at + k] = x;
    }
}

// One number for a whole buffer.
#[tactic(auto, using(crate::proofs::Folded::digest_folds))]
pub fn digest(s: &[i64]) -> usize
    ensures { result ≡ digest_of s.now }
{
    s.iter().fold(0, |sum, x| mixed(sum, *x))
}

fn side(x: i64) -> usize
    ensures { (result ≡ side_of x) × (result ≤ 500000) }
{
    if x < 0 { 500_000 } else { 0 }
}

#[tactic(auto, unfolding(crate::specs::Cases::mixed_with))]
fn mixed(sum: usize, x: i64) -> usize
    ensures { result ≡ mixed_with sum x }
{
    (sum % 1_000_003 * 257 + signed::magnitude(x) % 1_000_003 + side(x)) % 1_000_003
}

// A number after a space.
fn put_spaced(out: &mut [u8], n: usize) -> usize
    ensures { Put out.old out.new 0 result (spaced n) }
{
    let at = text::put(out, 0, b" ");
    text::put_number(out, at, n)
}

// The first numbers of a buffer, and its digest.
fn put_numbers(out: &mut [u8], s: &[i64]) -> usize
    ensures { Put out.old out.new 0 result (numbers_text s.now) }
{
    let most = SHOWN.min(s.len());
    let at = text::put_listed(out, 0, &s[..most]);
    let at = text::put(out, at, b" #");
    text::put_number(out, at, digest(s))
}

// Prints a number after a space. The answer is how many bytes that are.
pub fn put<W: Write>(to: &mut W, n: usize) -> io::Result<usize>
    ensures count { IfOk result (λ count. count ≡ length (spaced n)) }
    ensures bytes { OnOk result (Appends (W.contents to.old) (W.contents to.new) (spaced n)) }
{
    let mut out = [0u8; NUMBER_BYTES];
    let end = put_spaced(&mut out[..], n);
    to.write_all(&out[..end])?;
    Ok(end)
}

// Prints a number with its sign after a space. The answer is how many bytes that are.
pub fn put_signed<W: Write>(to: &mut W, x: i64) -> io::Result<usize>
    ensures count { IfOk result (λ count. count ≡ length (listed_text (x ∷ []))) }
    ensures bytes { OnOk result (Appends (W.contents to.old) (W.contents to.new) (listed_text (x ∷ []))) }
{
    let mut out = [0u8; NUMBER_BYTES];
    let end = text::put_line(&mut out[..], 0, x);
    to.write_all(&out[..end])?;
    Ok(end)
}

// Prints numbers, each after a space.
fn put_all<W: Write>(to: &mut W, numbers: &[usize]) -> io::Result<()>
    ensures { OnOk result (Appends (W.contents to.old) (W.contents to.new) (all_spaced numbers.now)) }
{
    for n in numbers {
        put(to, *n)?;
    }
    Ok(())
}

// Prints an answer, each number after a space: the number and the place of its refusal, both 0 where nothing is refused, and its counts,
// each 0 after a refusal.
pub fn put_answer<W: Write, const N: usize>(
    to: &mut W,
    answer: Result<[usize; N], Refusal>,
) -> io::Result<()>
    ensures { OnOk result (Appends (W.contents to.old) (W.contents to.new) (all_spaced (answer_numbers N answer.entry))) }
{
    let (number, place, counts) = match answer {
        Ok(counts) => (0, 0, counts),
        Err(refusal) => (refusal.number(), refusal.place(), [0; N]),
    };
    put(to, number)?;
    put(to, place)?;
    put_all(to, &counts)
}

// Prints the first numbers of a buffer, and its digest, as much of it as there is room for. The answer is how many bytes that are.
pub fn show_numbers<W: Write>(to: &mut W, s: &[i64]) -> io::Result<usize>
    ensures count { IfOk result (λ count. count ≡ min (length (numbers_text s.now)) shown_bytes) }
    ensures bytes { OnOk result (Appends (W.contents to.old) (W.contents to.new) (take shown_bytes (numbers_text s.now))) }
{
    let mut out = [0u8; SHOWN_BYTES];
    let end = put_numbers(&mut out[..], s);
    to.write_all(&out[..end])?;
    Ok(end)
}

// What a program is given: at most so many bytes are read; of longer input these count.
pub fn read_input<R: Read + Drop>(alloc: Global, input: R, most: u64) -> io::Result<Vec<u8>>
    ensures { IfOk result (λ bytes. IfSome (R.remaining input) (λ given. bytes.items ≡ take most given)) }
{
    let mut bytes = Vec::new(alloc);
    input.take(most).read_to_end(&mut bytes)?;
    Ok(bytes)
}

// "At most 16,384 bytes are read; of longer input these count as the file."
pub fn read_file<R: Read + Drop>(alloc: Global, input: R) -> io::Result<Vec<u8>>
    ensures { IfOk result (λ file. IfSome (R.remaining input) (λ given. file.items ≡ take 16384 given)) }
{
    read_input(alloc, input, FILE_BYTES)
}

// A text that is made of a book file, as the report and the junction sketch: it is put into a buffer, as much of it as has room.
pub trait Text {
    ghost text: { List ℕ → List ℕ };

    fn put(file: &[u8], out: &mut [u8]) -> usize
        ensures { Put out.old out.new 0 result (text file.now) };
}

// Prints the text of a file, of which so many bytes have room. A write that fails is given back.
pub fn print_text<T: Text, W: Write, const ROOM: usize>(to: &mut W, file: &[u8]) -> io::Result<()>
    requires { ROOM < 2 ^ 63 }
    ensures { OnOk result (Appends (W.contents to.old) (W.contents to.new) (take ROOM (T.text file.now))) }
{
    let mut page = [0; ROOM];
    let len = T::put(file, &mut page);
    to.write_all(&page[..len])
}

// Has `show` print what it says of the input, of which so many bytes count, on a writer that is flushed at the end.
pub fn answer<
    R: Read + Drop,
    W: Write + Drop,
    F: FnOnce(&mut BufWriter<W>, &[u8]) -> io::Result<()>,
>(alloc: Global, input: R, most: u64, output: W, show: F) -> io::Result<()>
    requires { F.IsAlwaysCallable show }
    ensures { OnOk result (IsAnswered F.FnOnce show (R.remaining input) most) }
{
    let bytes = read_input(alloc, input, most)?;
    let mut to = BufWriter::new(alloc, output)?;
    show(&mut to, bytes.as_slice())?;
    to.flush()
}

// Prints the name of each case, and has `show` say the rest of it.
pub fn show_cases<W: Write, F: Fn(&mut W, &[u8]) -> io::Result<()>>(
    to: &mut W,
    input: &[u8],
    numbers: usize,
    show: F,
) -> io::Result<()>
    requires few { numbers ≤ 3 }
    requires shows { F.IsAlwaysCallable show }
    ensures { OnOk result (AllShown (IsShown W.contents F.Fn show) numbers input.now to.old to.new) }
{
    for case in Cases::of(input, numbers) {
        to.write_all(case::name(case))?;
        show(to, case)?;
    }
    Ok(())
}

// What a program of cases does: each case of its input, of so many numbers, is shown on its output.
pub fn run<R: Read + Drop, W: Write + Drop, F: Fn(&mut BufWriter<W>, &[u8]) -> io::Result<()>>(
    alloc: Global,
    input: R,
    output: W,
    numbers: usize,
    show: F,
) -> io::Result<()>
    requires few { numbers ≤ 3 }
    requires shows { F.IsAlwaysCallable show }
    ensures { OnOk result (CasesShown (IsShown ⟦<BufWriter<W> as Write>⟧.contents F.Fn show) numbers (R.remaining input) 131072) }
{
    let bytes = read_input(alloc, input, CASES_BYTES)?;
    let mut to = BufWriter::new(alloc, output)?;
    show_cases(&mut to, bytes.as_slice(), numbers, show)?;
    to.flush()
}
