// What a call is told of a book before its entries, and how many numbers of the lent buffers its entries are.
ghost use Rattle.std.specs.Prelude.{◌≡◌, ◌≤◌, ◌*◌, ◌%◌, min, pos};

use book::Book;

// What a call is told where the file was refused: 0 of everything.
pub const NOTHING: Book = Book {
    version: 0,
    marks: 0,
    tolerance: 0,
    held: 0,
    lines: 0,
};

#[derive(Clone, Copy)]
pub struct Told {
    pub version: i64,
    pub b: i64,
    pub t: i64,
}

impl Told {
    // The book of a file that was read, by its version and its counts.
    pub fn read(version: usize, b: usize, t: usize) -> Told
        ensures version { result.version ≡ pos (version % 65536) }
        ensures b { result.b ≡ pos (b % 65536) }
        ensures t { result.t ≡ pos (t % 65536) }
    {
        Told {
            version: signed::signed_count(version % 65536),
            b: signed::signed_count(b % 65536),
            t: signed::signed_count(t % 65536),
        }
    }

    pub fn of_version(self, version: i64) -> Told
        ensures { result ≡ record self { version = version } }
    {
        Told { version, ..self }
    }

    pub fn with_b(self, b: i64) -> Told
        ensures { result ≡ record self { b = b } }
    {
        Told { b, ..self }
    }

    pub fn with_t(self, t: i64) -> Told
        ensures { result ≡ record self { t = t } }
    {
        Told { t, ..self }
    }
}

// The numbers of so many entries, as many as are lent.
pub fn words_of(entries: usize, words: usize, lent: usize) -> usize
    requires { words ≤ 65536 }
    ensures { result ≡ min (entries % 600 * words) lent }
{
    (entries % 600 * words).min(lent)
}
