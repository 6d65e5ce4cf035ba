// The heights before the first sweep: document 01, "Adjustment", "Start". The tree comes as it was planted: `order` has the marks as they
// enter, `best` of each mark a key that ends with the half by which it came in.

#![tactic(auto)]

ghost use Rattle.std.specs.Prelude.{◌≡◌, ℕ, cond, ◌+◌, ◌≤◌, ◌<◌, length};
ghost use Rattle.book.specs.Limits.{most_marks, most_held_height};
ghost use Rattle.book.specs.Good.{Lines, HeldEntries};
ghost use Rattle.laws.specs.Scan.{first_bad};
ghost use Rattle.fields.specs.Named.{some_mark};
ghost use Rattle.chains.specs.Chains.{line_in};
ghost use Rattle.start.specs.By.{number_of};
ghost use Rattle.start.specs.Along.{Growth, came_in, rooting, spots, Spotted, Spot, Placing, Given, held_from, HeldPlace};
ghost use Rattle.start.specs.Along.{roots_from, most_root, gives, HeldIn, Known, Seeded};
ghost use Rattle.start.specs.Along.{Rooting, Based, unheld, start_at, Begun, Blank, Bare, Started, Raised};
ghost use Rattle.start.specs.Start.{held_height};

use book::Book;
use book::held::Held;
use fields::{difference_of, from_mark, to_mark};

// A place for each mark of any book.
const MARKS: usize = Book::MAX_MARKS as usize;

// A mark's place in the tree: the root of its piece, and how high the tree's lines put it over that root.
#[derive(Drop)]
struct Rooted {
    root: usize,
    over: i64,
}

// The place of the line by which mark m comes in, or none for a root: its key in `best` ends with the half.
fn line_into(best: &[u64], m: usize) -> Option<usize>
    requires { m < length best.now }
    ensures { number_of result ≡ line_in best.now m }
{
    let number = (best[m] % chains::HALVES / 2) as usize;
    number.checked_sub(1)
}

// The place in the tree of mark m that comes in by a line, or as a root.
fn come_in(
    lines: &[i64],
    root: &[usize],
    over: &[i64],
    b: usize,
    n: usize,
    k: usize,
    m: usize,
    line: Option<usize>,
) -> Rooted
    requires good { Lines lines.now b n }
    requires spotted { Spotted root.now over.now b k }
    requires some { 0 < m }
    requires mark { m ≤ b }
    requires line { number_of line ≤ n }
    requires few { k ≤ most_marks }
    ensures { Spot (came_in (spots root.now over.now) lines.now m (number_of line)) b (k + 1) result.root
        result.over }
{
    let Some(i) = line else {
        return Rooted { root: m, over: 0 };
    };
    let d = difference_of(lines, b, n, i);
    let to = to_mark(lines, b, n, i);
    if to == m {
        let from = from_mark(lines, b, n, i);
        return Rooted {
            root: root[from - 1],
            over: signed::add(over[from - 1], d),
        };
    }
    Rooted {
        root: root[to - 1],
        over: signed::sub(over[to - 1], d),
    }
}

// The mark that enters k-th takes its place.
fn enter(
    lines: &[i64],
    order: &[u64],
    best: &[u64],
    root: &mut [usize],
    over: &mut [i64],
    b: usize,
    n: usize,
    k: usize,
)
    requires good { Lines lines.now b n }
    requires growth { Growth order.now best.now b n }
    requires placing { Placing (rooting lines.now order.now best.now k) root.old over.old b k }
    requires place { k < b }
    requires few { b ≤ most_marks }
    ensures { Placing (rooting lines.now order.now best.now (k + 1)) root.new
        over.new b (k + 1) }
{
    let m = order[k] as usize;
    let r = come_in(lines, root, over, b, n, k, m, line_into(best, m));
    let its_root = r.root;
    let its_over = r.over;
    root[m - 1] = its_root;
    over[m - 1] = its_over;
}

// Every mark takes its place in the tree.
fn place_all(
    lines: &[i64],
    order: &[u64],
    best: &[u64],
    root: &mut [usize],
    over: &mut [i64],
    b: usize,
    n: usize,
)
    requires good { Lines lines.now b n }
    requires growth { Growth order.now best.now b n }
    requires placing { Placing (rooting lines.now order.now best.now 0) root.old over.old b 0 }
    requires few { b ≤ most_marks }
    ensures { Placing (rooting lines.now order.now best.now b) root.new
        over.new b b }
{
    for k in 0..b {
        enter(lines, order, best, root, over, b, n, k);
    }
}

// The held entry at place i: its mark has its height.
fn hold(held: &[i64], flags: &mut [bool], own: &mut [i64], b: usize, i: usize)
    requires entry { HeldPlace held.now b i }
    requires given { Given (held_from held.now (i + 1)) flags.old own.old b most_held_height }
    ensures { Given (held_from held.now i) flags.new own.new b most_held_height }
{
    let at = i * Held::WORDS;
    let v = signed::index(held[at + Held::MARK]) - 1;
    let z = held[at + Held::HEIGHT];
    flags[v] = true;
    own[v] = z;
}

// Every held mark has its own height, by the entry that names it first.
// Beside lift_all: a function that takes the leaf would have to lend it its tables, and is longer than the three lines.
pub fn hold_all(held: &[i64], flags: &mut [bool], own: &mut [i64], b: usize, h: usize)
    requires held { HeldEntries held.now b h }
    requires blank { Blank flags.old own.old b }
    ensures { Given (held_height held.now) flags.new own.new b most_held_height }
{
    for i in (0..h).rev() {
        hold(held, flags, own, b, i);
    }
}

// A held mark at place v gives its root a height.
fn lift(
    flags: &[bool],
    own: &[i64],
    root: &[usize],
    over: &[i64],
    has: &mut [bool],
    base: &mut [i64],
    b: usize,
    v: usize,
)
    requires place { v < b }
    requires known { Known flags.now own.now root.now over.now b }
    requires given { Given (roots_from (spots root.now over.now) (gives flags.now own.now) b (v + 1)) has.old base.old b most_root }
    ensures { Given (roots_from (spots root.now over.now) (gives flags.now own.now) b
        v) has.new base.new b most_root }
{
    if flags[v] {
        let r = root[v] - 1;
        let z = signed::sub(own[v], over[v]);
        has[r] = true;
        base[r] = z;
    }
}

// Every root has the height that the lowest held mark of its piece gives it, if there is one.
fn lift_all(
    flags: &[bool],
    own: &[i64],
    root: &[usize],
    over: &[i64],
    has: &mut [bool],
    base: &mut [i64],
    b: usize,
)
    requires known { Known flags.now own.now root.now over.now b }
    requires given { Given (roots_from (spots root.now over.now) (gives flags.now own.now) b b) has.old base.old b most_root }
    ensures { Given (roots_from (spots root.now over.now) (gives flags.now own.now) b
        0) has.new base.new b most_root }
{
    for v in (0..b).rev() {
        lift(flags, own, root, over, has, base, b, v);
    }
}

// Every mark is its own root, before the first enters.
fn seed(root: &mut [usize])
    ensures { Seeded root.new (length root.old) }
{
    for (v, its_root) in root.iter_mut().enumerate() {
        *its_root = v + 1;
    }
}

// The lowest mark whose piece has no held mark.
fn first_unheld(root: &[usize], has: &[bool], b: usize) -> Option<usize>
    requires roots { Rooting root.now b }
    requires all { length has.now ≡ b }
    ensures { result ≡ some_mark (first_bad (unheld root.now has.now) b) }
{
    for (v, its_root) in root.iter().enumerate() {
        if !has[*its_root - 1] {
            return Some(v + 1);
        }
    }
    None
}

// "then every held mark is set to its own"
fn reset(held: bool, own: i64, followed: i64) -> i64
    ensures { result ≡ cond held own followed }
{
    if held { own } else { followed }
}

// The height at the start of the mark at place v.
fn start_at(
    flags: &[bool],
    own: &[i64],
    root: &[usize],
    over: &[i64],
    base: &[i64],
    b: usize,
    v: usize,
) -> i64
    requires place { v < b }
    requires known { Known flags.now own.now root.now over.now b }
    requires based { Based base.now b }
    ensures { result ≡ start_at flags.now own.now root.now over.now base.now v }
{
    let followed = signed::add(base[root[v] - 1], over[v]);
    reset(flags[v], own[v], followed)
}

// The heights of b marks at the start.
fn begin(
    flags: &[bool],
    own: &[i64],
    root: &[usize],
    over: &[i64],
    base: &[i64],
    h: &mut [i64],
    b: usize,
)
    requires all { length h.old ≡ b }
    requires known { Known flags.now own.now root.now over.now b }
    requires based { Based base.now b }
    ensures { Begun (start_at flags.now own.now root.now over.now base.now)
        h.new b }
{
    for (v, z) in h.iter_mut().enumerate() {
        *z = start_at(flags, own, root, over, base, b, v);
    }
}

// Roots have their heights; the lowest mark of a piece without a held mark, and the heights at the start where there is none.
fn raise_in(
    flags: &[bool],
    own: &[i64],
    root: &[usize],
    over: &[i64],
    has: &mut [bool],
    base: &mut [i64],
    z: &mut [i64],
    b: usize,
) -> Option<usize>
    requires known { Known flags.now own.now root.now over.now b }
    requires blank { Blank has.old base.old b }
    requires all { length z.old ≡ b }
    ensures { (m : ℕ) × (result ≡ some_mark m) × Raised flags.now own.now root.now over.now z.new b m }
{
    lift_all(flags, own, root, over, has, base, b);
    let unheld = first_unheld(root, has, b);
    if unheld.is_none() {
        begin(flags, own, root, over, base, z, b);
    }
    unheld
}

fn raise(
    flags: &[bool],
    own: &[i64],
    root: &[usize],
    over: &[i64],
    z: &mut [i64],
    b: usize,
) -> Option<usize>
    requires known { Known flags.now own.now root.now over.now b }
    requires all { length z.old ≡ b }
    ensures { (m : ℕ) × (result ≡ some_mark m) × Raised flags.now own.now root.now over.now z.new b m }
{
    let mut has = [false; MARKS];
    let mut base = [0i64; MARKS];
    raise_in(flags, own, root, over, &mut has[..b], &mut base[..b], z, b)
}

// Every mark takes its place in the tree, and then the roots have their heights.
fn place_and_raise(
    lines: &[i64],
    order: &[u64],
    best: &[u64],
    flags: &[bool],
    own: &[i64],
    root: &mut [usize],
    over: &mut [i64],
    z: &mut [i64],
    b: usize,
    n: usize,
) -> Option<usize>
    requires good { Lines lines.now b n }
    requires growth { Growth order.now best.now b n }
    requires held_in { HeldIn flags.now own.now b }
    requires bare { Bare root.old over.old b }
    requires all { length z.old ≡ b }
    ensures { (m : ℕ) × (result ≡ some_mark m)
        × Started (rooting lines.now order.now best.now b) flags.now own.now z.new b m }
{
    seed(root);
    place_all(lines, order, best, root, over, b, n);
    raise(flags, own, root, over, z, b)
}

// The lowest mark of a piece without a held mark, and the heights at the start in z where there is none.
pub fn start_heights(
    lines: &[i64],
    order: &[u64],
    best: &[u64],
    flags: &[bool],
    own: &[i64],
    z: &mut [i64],
    b: usize,
    n: usize,
) -> Option<usize>
    requires lines { Lines lines.now b n }
    requires growth { Growth order.now best.now b n }
    requires held { HeldIn flags.now own.now b }
    requires heights { length z.old ≡ b }
    ensures { (m : ℕ) × (result ≡ some_mark m)
        × Started (rooting lines.now order.now best.now b) flags.now own.now z.new b m }
{
    let mut root = [0usize; MARKS];
    let mut over = [0i64; MARKS];
    place_and_raise(
        lines,
        order,
        best,
        flags,
        own,
        &mut root[..b],
        &mut over[..b],
        z,
        b,
        n,
    )
}
