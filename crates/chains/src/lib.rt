// Chains of halves: every line of a subgraph stands twice, in the chain of each of its ends. A half is a line in one sense, by its number:
// twice the line's number, one more against its sense. head has the first half of each mark's chain, next the half that follows each half;
// 0 is no half. ends has of each half the length of its line and the mark that it leads to, length * HALVES + mark.

#![tactic(auto)]

ghost use Rattle.std.specs.Prelude.{◌≡◌, ℕ, ◌+◌, ◌*◌, ◌<◌, ◌≤◌, length, get_or};
ghost use Rattle.chains.specs.Link.{RoomChains, Linked, Fits, Joined};

// More than any line number.
pub const NUMBERS: u64 = 1024;

// Two halves to a line: more than the number of any half, and more than any mark.
pub const HALVES: u64 = 2048;

// The first n places become 0.
// Beside nearest::clear: each is public, with a clause of its own over the library's fill.
pub fn zero(a: &mut [u64], n: usize)
    requires { n ≤ length a.old }
    ensures { (i : ℕ) → i < n → get_or a.new i 0 ≡ 0 }
{
    a[..n].fill(0);
}

// The half h goes in front of the chain of the mark m.
fn link(head: &mut [u64], next: &mut [u64], m: usize, h: usize)
    requires has_mark { m < length head.old }
    requires has_half { h < length next.old }
    ensures { Linked head.old next.old head.new next.new m h }
{
    next[h] = head[m];
    head[m] = h as u64;
}

// The line of this number joins what the chains hold: each of its halves at the mark that it leaves, to which the other leads.
pub fn join(ends: &[u64], head: &mut [u64], next: &mut [u64], n: usize, number: usize)
    requires { (Fits n ends.now number) × (RoomChains n head.old next.old) }
    ensures { Joined ends.now head.old next.old head.new next.new number }
{
    let h = number * 2;
    let from = (ends[h + 1] % HALVES) as usize;
    let to = (ends[h] % HALVES) as usize;
    link(head, next, from, h);
    link(head, next, to, h + 1);
}
