// The kept report: compared with the rows of its book, and brought up to date.

#![tactic(auto)]

ghost use Rattle.std.specs.Prelude.{◌≡◌, ◌++◌, ◌≤◌, ◌-◌, length, take, drop, replicate, pos};
ghost use Rattle.kept.specs.Other.{other_report};

// Whether the lent report is shorter than the rows, or differs from them in their places.
#[tactic(auto, using(crate::proofs::SameNumbers::numbers_same), unfolding(crate::specs::Other::other_report))]
pub fn differs(report: &[i64], rows: &[i64]) -> bool
    ensures { result ≡ other_report report.now rows.now }
{
    !report.starts_with(rows)
}

// The rows, or the heights, go to the front of what is lent.
pub fn put(rows: &[i64], out: &mut [i64])
    requires { length rows.now ≤ length out.old }
    ensures { out.new ≡ rows.now ++ drop (length rows.now) out.old }
{
    out[..rows.len()].copy_from_slice(rows);
}

// The places from a up to e become zeros.
pub fn vacate(out: &mut [i64], a: usize, e: usize)
    requires { (a ≤ e) × (e ≤ length out.old) }
    ensures { out.new ≡ take a out.old ++ replicate (e - a) (pos 0) ++ drop e out.old }
{
    out[a..e].fill(0);
}
