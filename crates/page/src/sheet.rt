// The report of a tested book: its loops are found and printed, then the lines that are not checked.
ghost use Rattle.book.specs.Good.{GoodLines};
ghost use Rattle.lists.specs.NotChecked.{unchecked_of};
ghost use Rattle.text.specs.Put.{Put};
ghost use Rattle.text.specs.Report.{not_checked_text};
ghost use Rattle.page.specs.Page.{loops_page, book_page};

use crate::loop_lines;
use book::Book;

// The head and the loops.
fn put_loops_of(book: Book, lines: &[i64], out: &mut [u8]) -> usize
    requires { GoodLines book lines.now }
    ensures { Put out.old out.new 0 result
        (loops_page book lines.now) }
{
    let mut starts = [0u64; table::STARTS];
    let mut runs = [0u16; table::RUNS];
    let found = table::find_loops(book, lines, &mut starts[..], &mut runs[..]);
    let count = found.count;
    let at = text::head_text(
        out,
        0,
        book.version,
        book.marks,
        book.lines,
        found.pieces,
        count,
    );
    loop_lines::put_loops(book, lines, &starts[..], &runs[..], count, out, at)
}

// The lines that are not checked, from place at on.
fn put_unchecked(book: Book, lines: &[i64], out: &mut [u8], at: usize) -> usize
    requires { GoodLines book lines.now }
    ensures { Put out.old out.new at result (not_checked_text (unchecked_of book.marks lines.now)) }
{
    let mut list = [0i64; Book::MAX_LINES];
    let Ok(count) = lists::watch::not_checked_good(book, lines, &mut list[..]) else {
        // The list has room for every line.
        unreachable!()
    };
    text::not_checked_text(out, at, &list[..count])
}

// The whole report.
pub(crate) fn put_book(book: Book, lines: &[i64], out: &mut [u8]) -> usize
    requires { GoodLines book lines.now }
    ensures { Put out.old out.new 0 result
        (book_page book lines.now) }
{
    let at = put_loops_of(book, lines, out);
    put_unchecked(book, lines, out, at)
}
