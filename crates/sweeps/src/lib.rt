// A visit, a sweep, and the sweeps until nothing moves: document 01, "Adjustment". The lines at each mark stand in a table of arrays.

#![tactic(auto)]

ghost use Rattle.std.specs.Prelude.{◌≡◌, suc, ◌+◌, ◌-◌, ◌<◌, ◌≤◌, ◌^◌, length, nat_abs};
ghost use Rattle.book.specs.Good.{Lines};
ghost use Rattle.network.specs.Standing.{standing};
ghost use Rattle.book.specs.Limits.{most_height, most_marks};
ghost use Rattle.chains.specs.Chains.{InOrder};
ghost use Rattle.fields.specs.Heights.{Working};
ghost use Rattle.sights.specs.Sights.{sights_of, pull};
ghost use Rattle.sights.specs.Table.{columns, seen, rows, Ends, Span, Table};
ghost use Rattle.sweeps.specs.MarkTurns.{term_at, flags, swept, ended_at};
ghost use Rattle.sweeps.specs.Sweeps.{move_of, visited, visit, sweep, settle};

use book::Book;
use book::height::Height;
use book::refusal::Refusal;

// A place for each mark, and for each end of a line, of any book.
const MARKS: usize = Book::MAX_MARKS as usize;

const ENDS: usize = Book::MAX_LINES * 2;

// "the 10,000th sweep still moved a mark"
const MAX_SWEEPS: usize = 10_000;

// The height of this mark went outside its limit.
#[derive(Clone, Copy)]
struct Outside {
    mark: usize,
}

// Why the sweeps end before one of them moves nothing: the height of this mark is outside its limit, or the last sweep still moved a mark.
#[derive(Clone, Copy)]
pub enum Unsettled {
    Outside(usize),
    StillMoving,
}

impl From<Outside> for Unsettled {
    ghost use Rattle.std.specs.Prelude.{◌≡◌};
    ghost use Rattle.sweeps.specs.declared.Unsettled.{Unsettled};

    ghost from_gives = { λ o e. e ≡ Unsettled.Outside o.mark };

    fn from(o: Outside) -> Unsettled {
        Unsettled::Outside(o.mark)
    }
}

impl From<Unsettled> for Refusal {
    ghost use Rattle.std.specs.Prelude.{◌≡◌};
    ghost use Rattle.sweeps.specs.MarkTurns.{refusal_of};

    ghost from_gives = { λ why r. r ≡ refusal_of why };

    fn from(why: Unsettled) -> Refusal {
        match why {
            Unsettled::Outside(mark) => Refusal::Height(mark),
            Unsettled::StillMoving => Refusal::Unsettled,
        }
    }
}

// What the line at place j adds to the g of a mark that stands at z.
fn term(
    other: &[usize],
    rise: &[i64],
    weight: &[usize],
    h: &[i64],
    b: usize,
    z: i64,
    j: usize,
) -> i64
    requires ends { Ends (columns other.now rise.now weight.now) b (j + 1) }
    requires working { Working h.now b }
    requires height { nat_abs z ≤ most_height }
    ensures { result ≡ term_at (columns other.now rise.now weight.now) h.now z j }
{
    let given = signed::add(h[other[j]], rise[j]);
    signed::mul(signed::signed_count(weight[j]), signed::sub(given, z))
}

// g of a mark that stands at z and whose lines are at the places from a to e.
fn pull_of(
    other: &[usize],
    rise: &[i64],
    weight: &[usize],
    h: &[i64],
    b: usize,
    z: i64,
    a: usize,
    e: usize,
) -> i64
    requires ends { Ends (columns other.now rise.now weight.now) b e }
    requires working { Working h.now b }
    requires height { nat_abs z ≤ most_height }
    requires span { Span a e }
    ensures { result ≡ pull h.now z
        (seen (columns other.now rise.now weight.now) a (e - a)) }
{
    let mut g = 0;
    for j in a..e {
        g = signed::add(g, term(other, rise, weight, h, b, z, j));
    }
    g
}

// How far the mark at place v moves.
fn move_of(
    first: &[usize],
    other: &[usize],
    rise: &[i64],
    weight: &[usize],
    total: &[usize],
    h: &[i64],
    b: usize,
    v: usize,
) -> i64
    requires table { Table first.now (columns other.now rise.now weight.now) total.now b }
    requires working { Working h.now b }
    requires place { v < b }
    ensures { (result ≡ move_of
        (rows first.now (columns other.now rise.now weight.now) (suc v))
        h.now (suc v)) × (nat_abs result < 2 ^ 62 + 2 ^ 61) }
{
    let g = pull_of(other, rise, weight, h, b, h[v], first[v], first[v + 1]);
    divisions::move_by(g, total[v])
}

// The mark at place v is visited: whether it moved.
fn visit(
    first: &[usize],
    other: &[usize],
    rise: &[i64],
    weight: &[usize],
    total: &[usize],
    h: &mut [i64],
    b: usize,
    v: usize,
) -> Result<bool, Outside>
    requires table { Table first.now (columns other.now rise.now weight.now) total.now b }
    requires working { Working h.old b }
    requires place { v < b }
    ensures { (swept result h.new ≡ visited
        (rows first.now (columns other.now rise.now weight.now) (suc v))
        h.old (suc v)) × Working h.new b }
{
    let d = move_of(first, other, rise, weight, total, h, b, v);
    let made = Height::in_work(signed::add(h[v], d), v + 1);
    let Ok(height) = made else {
        return Err(Outside { mark: v + 1 });
    };
    let z = height.micrometres;
    h[v] = z;
    Ok(!signed::same(d, 0))
}

// The turn of the mark at place v in a sweep that has moved a mark or not: whether it has now. A held mark is passed over.
fn take_turn(
    first: &[usize],
    other: &[usize],
    rise: &[i64],
    weight: &[usize],
    total: &[usize],
    held: &[bool],
    h: &mut [i64],
    b: usize,
    v: usize,
    moved: bool,
) -> Result<bool, Outside>
    requires table { Table first.now (columns other.now rise.now weight.now) total.now b }
    requires working { Working h.old b }
    requires place { v < b }
    requires flagged { b ≤ length held.now }
    ensures { (swept result h.new ≡ visit (flags held.now (suc v))
        (rows first.now (columns other.now rise.now weight.now) (suc v)) (suc v)
        (swept (Ok moved) h.old)) × Working h.new b }
{
    if held[v] {
        return Ok(moved);
    }
    let here = visit(first, other, rise, weight, total, h, b, v)?;
    Ok(moved || here)
}

// A sweep visits the free marks of b marks by number: whether it moves one.
fn sweep(
    first: &[usize],
    other: &[usize],
    rise: &[i64],
    weight: &[usize],
    total: &[usize],
    held: &[bool],
    h: &mut [i64],
    b: usize,
) -> Result<bool, Outside>
    requires table { Table first.now (columns other.now rise.now weight.now) total.now b }
    requires working { Working h.old b }
    requires flagged { b ≤ length held.now }
    ensures { (swept result h.new ≡ sweep
        (rows first.now (columns other.now rise.now weight.now))
        (flags held.now) h.old b) × Working h.new b }
{
    let mut moved = false;
    for v in 0..b {
        moved = take_turn(first, other, rise, weight, total, held, h, b, v, moved)?;
    }
    Ok(moved)
}

// Sweeps until one moves nothing, or a height is outside, or the last sweep that is allowed still moved a mark.
fn settle(
    first: &[usize],
    other: &[usize],
    rise: &[i64],
    weight: &[usize],
    total: &[usize],
    held: &[bool],
    h: &mut [i64],
    b: usize,
) -> Result<usize, Unsettled>
    requires table { Table first.now (columns other.now rise.now weight.now) total.now b }
    requires working { Working h.old b }
    requires flagged { b ≤ length held.now }
    ensures { ended_at result h.new ≡ settle
        (rows first.now (columns other.now rise.now weight.now))
        (flags held.now) b h.old }
{
    for n in 0..MAX_SWEEPS {
        let moved = sweep(first, other, rise, weight, total, held, h, b)?;
        if !moved {
            return Ok(n + 1);
        }
    }
    Err(Unsettled::StillMoving)
}

// The sweeps over the n lines of a drawn book of b marks, from the heights h on.
pub fn settle_lines(
    lines: &[i64],
    head: &[u64],
    next: &[u64],
    held: &[bool],
    h: &mut [i64],
    b: usize,
    n: usize,
) -> Result<usize, Unsettled>
    requires lines { Lines lines.now b n }
    requires in_order { InOrder (standing lines.now) (b + 1) head.now next.now }
    requires marks { (0 < b) × (b ≤ most_marks) }
    requires working { Working h.old b }
    requires flagged { b ≤ length held.now }
    ensures { ended_at result h.new ≡ settle (sights_of (standing lines.now)) (flags held.now) b
        h.old }
{
    let mut first = [0usize; MARKS + 1];
    let mut other = [0usize; ENDS];
    let mut rise = [0i64; ENDS];
    let mut weight = [0usize; ENDS];
    let mut total = [0usize; MARKS];
    sights::write_rows(
        lines,
        head,
        next,
        &mut first,
        &mut other,
        &mut rise,
        &mut weight,
        &mut total,
        b,
        n,
    );
    settle(&first, &other, &rise, &weight, &total, held, h, b)
}
