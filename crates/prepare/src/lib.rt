// The lent book as the network works on it: drawn, and its tree planted.

#![tactic(auto)]

ghost use Rattle.std.specs.Prelude.{◌+◌};
ghost use Rattle.book.specs.Good.{GoodLines};
ghost use Rattle.prepare.specs.Drawn.{Entry, drawing, Drew, RoomDraw, BookDrawn};
ghost use Rattle.prepare.specs.Prepared.{RoomBook, BookPlanted};

use book::Book;
use book::line::Line;

// The line of this number is drawn, if it stands: what ends has of its halves, and its place in the chains.
// signed::same and no ==, of whose bits the goals of the return stay open.
fn draw_line(
    e: &[i64],
    ends: &mut [u64],
    head: &mut [u64],
    next: &mut [u64],
    n: usize,
    number: usize,
)
    requires { Entry n number e.now ends.old head.old next.old }
    ensures { Drew number e.now (drawing ends.old head.old next.old)
        (drawing ends.new head.new next.new) }
{
    if signed::same(e[Line::STANDING], 0) {
        return;
    }
    let from = signed::index(e[Line::FROM]) as u64;
    let to = signed::index(e[Line::TO]) as u64;
    let length = signed::index(e[Line::LENGTH]) as u64;
    ends[number * 2] = length * chains::HALVES + to;
    ends[number * 2 + 1] = length * chains::HALVES + from;
    chains::join(ends, head, next, n, number);
}

// The book is drawn, from its last line to its first.
fn draw_book(lines: &[i64], ends: &mut [u64], head: &mut [u64], next: &mut [u64], n: usize)
    requires { RoomDraw n lines.now ends.old head.old next.old }
    ensures { BookDrawn n lines.now ends.new head.new next.new }
{
    chains::zero(ends, chains::HALVES as usize);
    chains::zero(head, n);
    for i in (0..lines.len() / Line::WORDS).rev() {
        let at = i * Line::WORDS;
        draw_line(&lines[at..at + Line::WORDS], ends, head, next, n, i + 1);
    }
}

// The places of the work tables, for any book: by half, and by mark with 0. The tournament of the search has two to a mark.
pub const HALVES: usize = chains::HALVES as usize;

pub const MARKS: usize = Book::MAX_MARKS as usize + 1;

// The tested book is drawn and its tree planted.
pub fn plant_book(
    book: Book,
    lines: &[i64],
    ends: &mut [u64],
    head: &mut [u64],
    next: &mut [u64],
    best: &mut [u64],
    seg: &mut [u64],
    order: &mut [u64],
)
    requires good { GoodLines book lines.now }
    requires room { RoomBook ends.old head.old next.old best.old seg.old order.old }
    ensures { BookPlanted (book.marks + 1) lines.now ends.new head.new next.new
        best.new
        order.new }
{
    let n = book.marks + 1;
    draw_book(lines, ends, head, next, n);
    tree::plant(head, next, ends, best, seg, order, n);
}
