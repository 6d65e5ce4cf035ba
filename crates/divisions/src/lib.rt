// The two divisions of the adjustment: a line's weight, and how far a mark moves. Document 01, "Adjustment".

#![tactic(auto)]

ghost use Rattle.std.specs.Prelude.{◌≡◌, ◌<◌, ◌^◌, nat_abs};
ghost use Rattle.divisions.specs.Weight.{weight_of};
ghost use Rattle.divisions.specs.Nearest.{nearest_size, nearest};

mod quotient;

// A line's weight: the one division of the weights.
pub fn weight(length: usize) -> usize
    requires { 0 < length }
    ensures { result ≡ weight_of length }
{
    // Twice a longer one may not fit.
    if 1000000 < length {
        return 0;
    }
    quotient::divide(1000000, length).quotient
}

// g / d to the nearest whole number, halves toward zero.
pub fn move_by(g: i64, d: usize) -> i64
    requires still { (d ≡ 0 → nat_abs g ≡ 0) }
    requires divisor { d < 2 ^ 62 }
    requires size { nat_abs g < 2 ^ 63 }
    ensures { result ≡ nearest g d }
{
    if d == 0 {
        return 0;
    }
    let a = signed::magnitude(g);
    let q = signed::signed_count(nearest_size(a, d));
    if g < 0 { signed::sub(0, q) } else { q }
}

// The same of sizes: the one division of the moves. Its remainder decides whether it is rounded up.
fn nearest_size(a: usize, d: usize) -> usize
    requires some { 0 < d }
    requires d_in { d < 2 ^ 62 }
    requires a_in { a < 2 ^ 63 }
    ensures { result ≡ nearest_size a d }
{
    let divided = quotient::divide(a, d);
    if d < 2 * divided.remainder {
        divided.quotient + 1
    } else {
        divided.quotient
    }
}
