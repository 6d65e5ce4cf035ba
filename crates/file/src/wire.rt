// Big-endian numbers.
ghost use Rattle.std.specs.Prelude.{◌≡◌, ◌+◌, ◌≤◌, ◌<◌, ◌^◌, pos, length};
ghost use Rattle.std.specs.Int.{w32, w64};
ghost use Rattle.std.proofs.Common.{to_z};
ghost use Rattle.file.specs.Wire.{be};

// The number in the W bytes from place a on, the first byte the highest.
pub(crate) fn be<const W: usize>(s: &[u8], a: usize) -> u64
    requires few { W ≤ 8 }
    requires whole { a + W ≤ length s.now }
    ensures value { result ≡ be W s.now a }
    ensures small { result < 256 ^ W }
{
    let mut number = 0;
    for byte in &s[a..a + W] {
        number = number * 256 + u64::from(*byte);
    }
    number
}

// The same as a signed number, of so few bytes that none is needed for the sign.
// `as`: i64 is no From of u64, and try_from would give a Result that cannot fail.
pub(crate) fn plain<const W: usize>(s: &[u8], a: usize) -> i64
    requires few { W ≤ 4 }
    requires whole { a + W ≤ length s.now }
    ensures { result ≡ pos (be W s.now a) }
{
    be::<W>(s, a) as i64
}

// The signed number in four bytes.
// Beside signed8: the widths of the contracts differ, and four bytes alone are widened.
pub(crate) fn signed4(s: &[u8], a: usize) -> i64
    requires { a + 4 ≤ length s.now }
    ensures { result ≡ to_z w32 (be 4 s.now a) }
{
    i64::from((be::<4>(s, a) as u32).cast_signed())
}

// In eight.
pub(crate) fn signed8(s: &[u8], a: usize) -> i64
    requires { a + 8 ≤ length s.now }
    ensures { result ≡ to_z w64 (be 8 s.now a) }
{
    be::<8>(s, a).cast_signed()
}
