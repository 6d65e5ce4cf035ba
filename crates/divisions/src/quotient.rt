// Division without a divide instruction, by doubling and subtracting. Document 02, request 02: "by shift and subtract".
ghost use Rattle.std.specs.Prelude.{◌<◌, ◌^◌, ◌*◌};
ghost use Rattle.divisions.specs.Quotient.{Quotient, Coarse, whole_of};

// How often the divisor goes into a number, and what is left of it.
#[derive(Drop)]
pub(crate) struct Divided {
    pub quotient: usize,
    pub remainder: usize,
}

// a divided by d: first by four times d, then two bits follow. A quotient of two bits, as most moves of late sweeps have, is had at once.
pub(crate) fn divide(a: usize, d: usize) -> Divided
    requires some { 0 < d }
    requires a_in { a < 2 ^ 63 }
    requires d_in { d < 2 ^ 63 }
    ensures { Quotient a d result.quotient result.remainder }
{
    let above = if a >> 2 < d {
        Divided {
            quotient: 0,
            remainder: a,
        }
    } else {
        by_fours(a, 4 * d)
    };
    next_bits::<2>(above, d)
}

// The same, four bits at a time: up to eight at once, and more by dividing by 256 times d first. So the time is in the bits of the
// quotient.
fn by_fours(a: usize, d: usize) -> Divided
    requires some { 0 < d }
    requires a_in { a < 2 ^ 63 }
    requires d_in { d < 2 ^ 63 }
    ensures { Quotient a d result.quotient result.remainder }
{
    if a >> 4 < d {
        return at_most_four(a, d);
    }
    let above = if a >> 8 < d {
        at_most_four(a, 16 * d)
    } else {
        next_bits::<4>(by_fours(a, 256 * d), 16 * d)
    };
    next_bits::<4>(above, d)
}

// The same of a quotient of at most four bits.
fn at_most_four(a: usize, d: usize) -> Divided
    requires some { 0 < d }
    requires a_in { a < 2 ^ 63 }
    requires d_in { d < 2 ^ 63 }
    requires few { a < 16 * d }
    ensures { Quotient a d result.quotient result.remainder }
{
    let none = Divided {
        quotient: 0,
        remainder: a,
    };
    if a >> 2 < d {
        next_bits::<2>(none, d)
    } else {
        next_bits::<4>(none, d)
    }
}

// From the division by d doubled so many times to that by d: a bit of the quotient comes with each doubling that is taken back.
fn next_bits<const BITS: usize>(above: Divided, d: usize) -> Divided
    requires coarse { Coarse (2 ^ BITS) d above.quotient above.remainder }
    requires doubled { 2 ^ BITS * d < 2 ^ 65 }
    ensures { Quotient (whole_of (2 ^ BITS) d above.quotient above.remainder) d result.quotient result.remainder }
{
    let mut divided = above;
    for doublings in (0..BITS).rev() {
        divided = next_bit(divided, d << doublings);
    }
    divided
}

// From the division by twice d to that by d: the quotient is doubled, and d subtracted once where the remainder has room for it.
fn next_bit(above: Divided, d: usize) -> Divided
    requires { Coarse 2 d above.quotient above.remainder }
    ensures { Quotient (whole_of 2 d above.quotient above.remainder) d result.quotient result.remainder }
{
    let quotient = 2 * above.quotient;
    if above.remainder < d {
        Divided {
            quotient,
            remainder: above.remainder,
        }
    } else {
        Divided {
            quotient: quotient + 1,
            remainder: above.remainder - d,
        }
    }
}
