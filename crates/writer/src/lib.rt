// The writer of book files: a lent book into the bytes that room `file` reads, or the first refusal: 3, 4, 6, 7, then 16, then 10.

#![tactic(auto)]

ghost use Rattle.std.specs.Prelude.{◌≡◌, ◌++◌, ◌*◌, ◌≤◌, length, drop};
ghost use Rattle.book.specs.Lent.{lent};
ghost use Rattle.book.specs.Line.{line_words};
ghost use Rattle.book.specs.Good.{GoodLines, HeldEntries};
ghost use Rattle.file.specs.Read.{length_of};
ghost use Rattle.writer.specs.Write.{head_bytes, file_of, any_withdrawn, cannot_say};
ghost use Rattle.writer.specs.Write.{answer_of, writing, write_good, write_of};

mod entry;
mod wire;

use book::Book;
use book::line::Line;
use book::refusal::Refusal;
use file::entry::Kind;

// Whether one of the first n lines is withdrawn.
fn any_withdrawn(lines: &[i64], n: usize) -> bool
    requires { n * line_words ≤ length lines.now }
    ensures { result ≡ any_withdrawn lines.now n }
{
    lines[..n * Line::WORDS]
        .chunks_exact(Line::WORDS)
        .any(|line| line[Line::STANDING] == 0)
}

// Refusal 16: a file of version 1 cannot say that a line is withdrawn.
fn cannot_say(book: Book, lines: &[i64]) -> bool
    requires { GoodLines book lines.now }
    ensures { result ≡ cannot_say book lines.now }
{
    if Book::has_classes(signed::signed_count(book.version)) {
        return false;
    }
    any_withdrawn(lines, book.lines)
}

// The head of a book's file, which has so many bytes.
fn write_head(book: Book, bytes: usize, out: &mut [u8])
    requires size { bytes ≡ length_of book }
    requires part { length out.old ≡ 13 }
    ensures { out.new ≡ head_bytes book }
{
    wire::put(bytes as u64, &mut out[file::LENGTH_AT..file::VERSION_AT]);
    wire::put(book.version as u64, &mut out[file::VERSION_AT..file::T_AT]);
    wire::put(book.tolerance as u64, &mut out[file::T_AT..file::B_AT]);
    wire::put(book.marks as u64, &mut out[file::B_AT..file::H_AT]);
    wire::put(book.held as u64, &mut out[file::H_AT..file::N_AT]);
    wire::put(book.lines as u64, &mut out[file::N_AT..file::HEAD_BYTES]);
}

// The whole file, which has so many bytes: its head, its held entries, its lines.
fn fill(book: Book, bytes: usize, held: &[i64], lines: &[i64], file: &mut [u8])
    requires good_lines { GoodLines book lines.now }
    requires good_held { HeldEntries held.now book.marks book.held }
    requires size { bytes ≡ length_of book }
    requires room { bytes ≤ length file.old }
    ensures { file.new ≡ file_of book held.now lines.now ++ drop bytes file.old }
{
    let lines_at = file::HEAD_BYTES + book.held * Kind::HELD_BYTES;
    write_head(book, bytes, &mut file[0..file::HEAD_BYTES]);
    entry::write_entries(
        Kind::Held,
        held,
        book.held,
        &mut file[file::HEAD_BYTES..lines_at],
    );
    entry::write_entries(
        Kind::of_lines(book.version),
        lines,
        book.lines,
        &mut file[lines_at..bytes],
    );
}

// The file of a tested book, and how many bytes it has; or refusals 16 and 10: room is tested before the first byte is written.
fn write_good(book: Book, held: &[i64], lines: &[i64], file: &mut [u8]) -> Result<usize, Refusal>
    requires lines { GoodLines book lines.now }
    requires held { HeldEntries held.now book.marks book.held }
    ensures { writing (answer_of result) file.new ≡ write_good book held.now lines.now file.old }
{
    if cannot_say(book, lines) {
        return Err(Refusal::Withdrawn);
    }
    let bytes = file::length_of(book);
    if file.len() < bytes {
        return Err(Refusal::NoRoom);
    }
    fill(book, bytes, held, lines, file);
    Ok(bytes)
}

// Writes a lent book as a file, into the file that is lent, and gives how many bytes it has. A refusal leaves it as it was.
pub fn write(
    version: i64,
    b: i64,
    t: i64,
    held: &[i64],
    lines: &[i64],
    file: &mut [u8],
) -> Result<usize, Refusal>
    ensures { writing (answer_of result) file.new
        ≡ write_of (lent version b t held.now lines.now) file.old }
{
    let book = book::test(version, b, t, held, lines)?;
    write_good(book, held, lines, file)
}
