// The lines at each mark, as they are seen from it, in a table of arrays: the chains of the drawn book are written out mark by mark.

#![tactic(auto)]

ghost use Rattle.std.specs.Prelude.{◌≡◌, ◌+◌, ◌-◌, ◌≤◌, ◌<◌, ◌^◌, length, nat_abs, sum};
ghost use Rattle.book.specs.Limits.{most_difference};
ghost use Rattle.book.specs.Line.{length_at};
ghost use Rattle.book.specs.Good.{Lines};
ghost use Rattle.network.specs.Standing.{standing};
ghost use Rattle.chains.specs.Chains.{InOrder};
ghost use Rattle.divisions.specs.Weight.{weight_of};
ghost use Rattle.fields.specs.Places.{Place};
ghost use Rattle.sights.specs.Sights.{sights_of};
ghost use Rattle.sights.specs.Table.{columns, RoomUpto, InRange, Written, Filled, Weighable, weighed};
ghost use Rattle.sights.specs.Table.{RoomRows, Table, rows, Sighted};
ghost use Rattle.sights.specs.Halves.{sight_at, HalfHere, WeightsOf};

use book::Book;
use book::line::Line;
use fields::{difference_of, from_mark, to_mark};

// Half h as it is seen from the mark that it leaves: the place of the mark that it leads to, and the rise from there.
fn other_of(lines: &[i64], b: usize, n: usize, h: usize) -> usize
    requires { HalfHere lines.now b n h }
    ensures { (result ≡ (sight_at lines.now h).other - 1) × (result < b) }
{
    let i = h / 2 - 1;
    let mark = if h % 2 == 0 {
        to_mark(lines, b, n, i)
    } else {
        from_mark(lines, b, n, i)
    };
    mark - 1
}

fn rise_of(lines: &[i64], b: usize, n: usize, h: usize) -> i64
    requires { HalfHere lines.now b n h }
    ensures { (result ≡ (sight_at lines.now h).rise) × (nat_abs result ≤ most_difference) }
{
    let d = difference_of(lines, b, n, h / 2 - 1);
    if h % 2 == 0 { signed::sub(0, d) } else { d }
}

// The weight of the line at place i.
fn weight_of(lines: &[i64], b: usize, n: usize, i: usize) -> usize
    requires { Place lines.now b n i }
    ensures { result ≡ weight_of (nat_abs (length_at lines.now i)) }
{
    divisions::weight(signed::index(lines[i * Line::WORDS + Line::LENGTH]))
}

// The weight of each line: a line is seen from both its marks, and its weight costs a division, so it is worked out here, once.
fn weigh_lines(lines: &[i64], weights: &mut [usize], b: usize, n: usize)
    requires good { Lines lines.now b n }
    requires room { n ≤ length weights.old }
    ensures { WeightsOf lines.now n weights.new }
{
    for i in 0..n {
        weights[i] = weight_of(lines, b, n, i);
    }
}

// Half h is written at place c, with the weight of its line.
fn write_half(
    lines: &[i64],
    weights: &[usize],
    other: &mut [usize],
    rise: &mut [i64],
    weight: &mut [usize],
    b: usize,
    n: usize,
    c: usize,
    h: usize,
)
    requires half { HalfHere lines.now b n h }
    requires weighed { WeightsOf lines.now n weights.now }
    requires room { RoomUpto (columns other.old rise.old weight.old) (c + 1) }
    requires in_range { InRange (columns other.old rise.old weight.old) b }
    ensures written { Written (columns other.old rise.old weight.old)
        (columns other.new rise.new weight.new) c (sight_at lines.now h) }
    ensures in_range { InRange (columns other.new rise.new weight.new) b }
{
    other[c] = other_of(lines, b, n, h);
    rise[c] = rise_of(lines, b, n, h);
    weight[c] = weights[h / 2 - 1];
}

// The chain of the mark m is written from place a on. Gives the place after it.
fn write_chain(
    lines: &[i64],
    head: &[u64],
    next: &[u64],
    weights: &[usize],
    other: &mut [usize],
    rise: &mut [i64],
    weight: &mut [usize],
    b: usize,
    n: usize,
    m: usize,
    a: usize,
) -> usize
    requires good { Lines lines.now b n }
    requires in_order { InOrder (standing lines.now) (b + 1) head.now next.now }
    requires mark { m ≤ b }
    requires weighed { WeightsOf lines.now n weights.now }
    requires in_range { InRange (columns other.old rise.old weight.old) b }
    requires room { RoomUpto (columns other.old rise.old weight.old) (a + length (sights_of (standing lines.now) m)) }
    ensures after { result ≡ a + length (sights_of (standing lines.now) m) }
    ensures filled { Filled (columns other.old rise.old weight.old)
        (columns other.new rise.new weight.new) b a (sights_of (standing lines.now) m) }
{
    let mut c = a;
    let mut h = head[m] as usize;
    while 0 < h {
        write_half(lines, weights, other, rise, weight, b, n, c, h);
        c += 1;
        h = next[h] as usize;
    }
    c
}

// The sum of the weights at a mark.
fn total_of(weights: &[usize]) -> usize
    requires { sum weights.now < 2 ^ 64 }
    ensures { result ≡ sum weights.now }
{
    weights.iter().sum()
}

// The table of the n lines of a book of b marks, row by row.
pub fn write_rows(
    lines: &[i64],
    head: &[u64],
    next: &[u64],
    first: &mut [usize],
    other: &mut [usize],
    rise: &mut [i64],
    weight: &mut [usize],
    total: &mut [usize],
    b: usize,
    n: usize,
)
    requires lines { Lines lines.now b n }
    requires in_order { InOrder (standing lines.now) (b + 1) head.now next.now }
    requires in_range { InRange (columns other.old rise.old weight.old) b }
    requires room { RoomRows (sights_of (standing lines.now)) first.old (columns other.old rise.old weight.old) total.old b }
    ensures table { Table first.new (columns other.new rise.new weight.new)
        total.new b }
    ensures sighted { Sighted (rows first.new (columns other.new rise.new weight.new))
        (sights_of (standing lines.now)) b }
{
    let mut weights = [0; Book::MAX_LINES];
    weigh_lines(lines, &mut weights, b, n);
    let mut c = 0;
    for v in 0..b {
        first[v] = c;
        let e = write_chain(
            lines,
            head,
            next,
            &weights,
            other,
            rise,
            weight,
            b,
            n,
            v + 1,
            c,
        );
        total[v] = total_of(&weight[c..e]);
        c = e;
    }
    first[b] = c;
}
