// The lists of a lent book: the lines of a loop, the lines of all loops, and the lines that are not checked.

#![tactic(auto)]

ghost use Rattle.std.specs.Prelude.{◌≡◌};
ghost use Rattle.book.specs.Lent.{lent};
ghost use Rattle.lists.specs.Listing.{listing, answer_of, listing_of, listings_of};
ghost use Rattle.lists.specs.NotChecked.{not_checked_of};

mod loop_lists;
pub mod run;
pub mod watch;

use book::refusal::Refusal;

// The lines of one loop of the book, by the loop's number from 1, its closing line first, and how many there are. A refusal
// leaves the output as it was.
pub fn listing(
    version: i64,
    b: i64,
    t: i64,
    held: &[i64],
    lines: &[i64],
    number: i64,
    out: &mut [i64],
) -> Result<usize, Refusal>
    ensures { listing (answer_of result) out.new
        ≡ listing_of (lent version b t held.now lines.now) number out.old }
{
    let book = book::test(version, b, t, held, lines)?;
    loop_lists::listing_good(book, lines, number, out)
}

// The lines of all loops of the book, one loop after the other, each as its listing has them; the count of a loop's lines is the second
// number of its row. A refusal leaves the output as it was.
pub fn listings(
    version: i64,
    b: i64,
    t: i64,
    held: &[i64],
    lines: &[i64],
    out: &mut [i64],
) -> Result<usize, Refusal>
    ensures { listing (answer_of result) out.new
        ≡ listings_of (lent version b t held.now lines.now) out.old }
{
    let book = book::test(version, b, t, held, lines)?;
    loop_lists::listings_good(book, lines, out)
}

// The standing lines that no closed circuit passes, by rising number. A refusal leaves the output as it was.
pub fn not_checked(
    version: i64,
    b: i64,
    t: i64,
    held: &[i64],
    lines: &[i64],
    out: &mut [i64],
) -> Result<usize, Refusal>
    ensures { listing (answer_of result) out.new
        ≡ not_checked_of (lent version b t held.now lines.now) out.old }
{
    let book = book::test(version, b, t, held, lines)?;
    watch::not_checked_good(book, lines, out)
}
