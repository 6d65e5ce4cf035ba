// The lines of one loop of a tested book, and of all its loops, read off the table of loops.
ghost use Rattle.std.specs.Prelude.{◌≡◌};
ghost use Rattle.book.specs.Good.{GoodLines};
ghost use Rattle.lists.specs.Listing.{answer_of, listing, listing_good, listings_good};

use crate::run;
use book::Book;
use book::refusal::Refusal;

// The lines of the loop of this number, or refusal 8.
pub(crate) fn listing_good(
    book: Book,
    lines: &[i64],
    number: i64,
    out: &mut [i64],
) -> Result<usize, Refusal>
    requires { GoodLines book lines.now }
    ensures { listing (answer_of result) out.new ≡ listing_good book lines.now number out.old }
{
    let mut starts = [0u64; table::STARTS];
    let mut runs = [0u16; table::RUNS];
    let found = table::find_loops(book, lines, &mut starts[..], &mut runs[..]);
    if signed::outside(number, 1, signed::signed_count(found.count)) {
        return Err(Refusal::NotThere);
    }
    let i = signed::magnitude(number) - 1;
    let begin = starts[i] as usize;
    let end = starts[i + 1] as usize;
    run::write_run(&runs[begin..end], out)
}

// The lines of all loops, one loop after the other.
pub(crate) fn listings_good(book: Book, lines: &[i64], out: &mut [i64]) -> Result<usize, Refusal>
    requires { GoodLines book lines.now }
    ensures { listing (answer_of result) out.new ≡ listings_good book lines.now out.old }
{
    let mut starts = [0u64; table::STARTS];
    let mut runs = [0u16; table::RUNS];
    let found = table::find_loops(book, lines, &mut starts[..], &mut runs[..]);
    let count = found.count;
    let end = starts[count] as usize;
    run::write_run(&runs[..end], out)
}
