// The reader of book files: bytes into held entries and lines, or the first refusal of document 01's table.
// It takes any part of a longer input as its file.

#![tactic(auto)]

ghost use Rattle.std.specs.Prelude.{◌≡◌, ◌++◌, ◌*◌, ◌≤◌, length, drop, IfErr};
ghost use Rattle.book.specs.Held.{held_words};
ghost use Rattle.book.specs.Line.{line_words};
ghost use Rattle.book.specs.Limits.{most_version, most_held, most_lines};
ghost use Rattle.book.specs.Refusals.{place_of};
ghost use Rattle.book.specs.Test.{tested, test_of};
ghost use Rattle.file.specs.Read.{Stated, length_of, head, head_of, held_of, lines_of, answered, answer_of, book_in, room_of, read_of};

pub mod entry;
mod wire;

use book::Book;
use book::held::Held;
use book::line::Line;
use book::refusal::Refusal;
use entry::Kind;

// Bytes before the entries, and the place of each number there.
pub const HEAD_BYTES: usize = 13;

pub const LENGTH_AT: usize = 0;

pub const VERSION_AT: usize = 4;

pub const T_AT: usize = 5;

pub const B_AT: usize = 7;

pub const H_AT: usize = 9;

pub const N_AT: usize = 11;

// How many bytes the file of such a book has.
pub fn length_of(book: Book) -> usize
    requires { (book.version ≤ most_version) × (book.held ≤ most_held) × (book.lines ≤ most_lines) }
    ensures { result ≡ length_of book }
{
    let line_bytes = Kind::of_lines(book.version).bytes();
    HEAD_BYTES + book.held * Kind::HELD_BYTES + book.lines * line_bytes
}

// The version and the counts that the file states, or refusals 1 to 5.
fn head_of(file: &[u8]) -> Result<Book, Refusal>
    ensures head { head result ≡ head_of file.now }
    ensures at { IfErr result (λ r. place_of r ≡ 0) }
{
    let len = file.len();
    if len < HEAD_BYTES {
        return Err(Refusal::ShortFile);
    }
    if wire::be::<4>(file, LENGTH_AT) as usize != len {
        return Err(Refusal::StatedLength);
    }
    let version = wire::plain::<1>(file, VERSION_AT);
    let t = wire::plain::<2>(file, T_AT);
    let b = wire::plain::<2>(file, B_AT);
    let h = wire::be::<2>(file, H_AT) as usize;
    let n = wire::be::<2>(file, N_AT) as usize;
    let book = Book::new(version, b, t, h, n)?;
    if len != length_of(book) {
        return Err(Refusal::CountedLength);
    }
    Ok(book)
}

// The held entries and the lines that such a file has, into the first places of what is lent.
fn read_parts(file: &[u8], book: Book, held: &mut [i64], lines: &mut [i64])
    requires stated { Stated (length file.now) book }
    requires held_room { book.held * held_words ≤ length held.old }
    requires line_room { book.lines * line_words ≤ length lines.old }
    ensures held_read { held.new ≡ held_of file.now book ++ drop (book.held * held_words) held.old }
    ensures lines_read { lines.new ≡ lines_of file.now book ++ drop (book.lines * line_words) lines.old }
{
    let lines_at = HEAD_BYTES + book.held * Kind::HELD_BYTES;
    entry::read_entries(Kind::Held, file, HEAD_BYTES, book.held, held);
    entry::read_entries(
        Kind::of_lines(book.version),
        file,
        lines_at,
        book.lines,
        lines,
    );
}

// Refusals 6 and 7: the entries are read where nobody sees them, and tested as every call tests a lent book.
fn test_entries(file: &[u8], book: Book) -> Result<Book, Refusal>
    requires { Stated (length file.now) book }
    ensures { tested result ≡ test_of (book_in file.now book) }
{
    let mut held = [0i64; Book::HELD_WORDS];
    let mut lines = [0i64; Book::LINE_WORDS];
    read_parts(file, book, &mut held[..], &mut lines[..]);
    let version = signed::signed_count(book.version);
    let b = signed::signed_count(book.marks);
    let t = signed::signed_count(book.tolerance);
    let held_words = book.held * Held::WORDS;
    let line_words = book.lines * Line::WORDS;
    book::test(version, b, t, &held[..held_words], &lines[..line_words])
}

// Refusal 10, or the entries go into what is lent.
fn fill(file: &[u8], book: Book, held: &mut [i64], lines: &mut [i64]) -> Result<Book, Refusal>
    requires { Stated (length file.now) book }
    ensures { answered held.new lines.new (answer_of result)
        ≡ room_of file.now book held.old lines.old }
{
    if held.len() < book.held * Held::WORDS {
        return Err(Refusal::NoRoom);
    }
    if lines.len() < book.lines * Line::WORDS {
        return Err(Refusal::NoRoom);
    }
    read_parts(file, book, held, lines);
    Ok(book)
}

// Reads a book file into the held entries and the lines that are lent. A refusal leaves both as they were.
pub fn read(file: &[u8], held: &mut [i64], lines: &mut [i64]) -> Result<Book, Refusal>
    ensures { answered held.new lines.new (answer_of result)
        ≡ read_of file.now held.old lines.old }
{
    let book = head_of(file)?;
    test_entries(file, book)?;
    fill(file, book, held, lines)
}
