// Signed numbers met once: every other part of the book works on a range test, an equality test and a cast
// whose contracts speak of whole numbers and not of bits.

#![tactic(auto)]

ghost use Rattle.std.specs.Prelude.{◌≡◌, false, ℤ, pos, nat_abs, ◌+ℤ◌, ◌-ℤ◌, ◌*ℤ◌, ◌+◌, ◌*◌, ◌<◌, ◌^◌};
ghost use Rattle.std.specs.Int.Signed.{lt_z};
ghost use Rattle.laws.specs.Tests.{out_z, eq_z, out_n};

// Whether x < lo or hi < x.
pub fn outside(x: i64, lo: i64, hi: i64) -> bool
    ensures { result ≡ out_z lo hi x }
{
    if x < lo { true } else { hi < x }
}

pub fn same(x: i64, y: i64) -> bool
    ensures { result ≡ eq_z x y }
{
    x == y
}

// The index or count that a signed number names, once it is known not to be negative.
pub fn index(x: i64) -> usize
    requires { lt_z x (pos 0) ≡ false }
    ensures { result ≡ nat_abs x }
{
    x as usize
}

// Whether n < lo or hi < n, of counts.
pub fn outside_count(n: usize, lo: usize, hi: usize) -> bool
    ensures { result ≡ out_n lo hi n }
{
    if n < lo { true } else { hi < n }
}

// A count as a signed number.
pub fn signed_count(n: usize) -> i64
    requires { n < 2 ^ 63 }
    ensures { result ≡ pos n }
{
    n as i64
}

// The size of x.
pub fn magnitude(x: i64) -> usize
    ensures { result ≡ nat_abs x }
{
    if x < 0 { index(-1 - x) + 1 } else { index(x) }
}

// Signed sums, differences and products, whose contracts ask for sizes and not for a range of bits.
pub fn add(x: i64, y: i64) -> i64
    requires { nat_abs x + nat_abs y < 2 ^ 63 }
    ensures { result ≡ x +ℤ y }
{
    x + y
}

pub fn sub(x: i64, y: i64) -> i64
    requires { nat_abs x + nat_abs y < 2 ^ 63 }
    ensures { result ≡ x -ℤ y }
{
    x - y
}

pub fn mul(x: i64, y: i64) -> i64
    requires { nat_abs x * nat_abs y < 2 ^ 63 }
    ensures { result ≡ x *ℤ y }
{
    x * y
}
