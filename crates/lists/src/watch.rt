// "Say what you are not watching": the not-checked list of a tested book, in tables of its own on the stack.
ghost use Rattle.std.specs.Prelude.{◌≡◌, ◌++◌, map, pos, ◌≤◌, length, drop};
ghost use Rattle.book.specs.Good.{GoodLines};
ghost use Rattle.lists.specs.Listing.{answer_of, listing, list_of};
ghost use Rattle.lists.specs.NotChecked.{unchecked_of};
ghost use Rattle.lists.specs.Numbers.{Numbers};

use book::Book;
use book::refusal::Refusal;

// The line numbers of a list, from place 0 of out on.
fn list_numbers(list: &[u64], out: &mut [i64])
    requires numbers { Numbers list.now }
    requires room { length list.now ≤ length out.old }
    ensures { out.new ≡ map pos list.now ++ drop (length list.now) out.old }
{
    for (i, &number) in list.iter().enumerate() {
        out[i] = signed::signed_count(number as usize);
    }
}

// The list, or refusal 10.
fn write_list(list: &[u64], out: &mut [i64]) -> Result<usize, Refusal>
    requires { Numbers list.now }
    ensures { listing (answer_of result) out.new ≡ list_of (map pos list.now) out.old }
{
    let count = list.len();
    if out.len() < count {
        return Err(Refusal::NoRoom);
    }
    list_numbers(list, out);
    Ok(count)
}

// The not-checked list of a tested book.
pub fn not_checked_good(book: Book, lines: &[i64], out: &mut [i64]) -> Result<usize, Refusal>
    requires { GoodLines book lines.now }
    ensures { listing (answer_of result) out.new ≡ list_of (unchecked_of book.marks lines.now) out.old }
{
    let mut ends = [0u64; prepare::HALVES];
    let mut head = [0u64; prepare::MARKS];
    let mut next = [0u64; prepare::HALVES];
    let mut best = [0u64; prepare::MARKS];
    let mut seg = [0u64; prepare::MARKS * 2];
    let mut order = [0u64; prepare::MARKS];
    let mut marked = [0u64; unchecked::NUMBERS];
    let mut list = [0u64; Book::MAX_LINES];
    let count = unchecked::list_book(
        book,
        lines,
        &mut ends,
        &mut head[..],
        &mut next[..],
        &mut best,
        &mut seg[..],
        &mut order[..],
        &mut marked,
        &mut list[..],
    );
    write_list(&list[..count], out)
}
