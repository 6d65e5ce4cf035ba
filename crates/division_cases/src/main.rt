// The two divisions at their edges. A case on standard input is 16 bytes, a size and a divisor of eight each, the high byte first. Of each
// is printed how far a mark moves that is pulled up and down by the size, where those are in a move's limits, and then the weight of a
// line as long as the divisor.
#![tactic(auto)]

ghost use Rattle.std.specs.Prelude.{◌+◌, ◌≤◌, length};

use cases::case;
use std::io;
use std::io::Write;

const CASE_BYTES: usize = 16;

// Above every size and every divisor of a move.
const SIZES: usize = 1 << 63;

const DIVISORS: usize = 1 << 62;

fn eight(s: &[u8], at: usize) -> usize
    requires { at + 8 ≤ length s.now }
{
    let high = case::two(s, at) * 65536 + case::two(s, at + 2);
    (high * 65536 + case::two(s, at + 4)) * 65536 + case::two(s, at + 6)
}

fn put_moves(to: &mut impl Write, size: usize, d: usize) -> io::Result<()> {
    if d == 0 || DIVISORS <= d || SIZES <= size {
        return Ok(());
    }
    let up = signed::signed_count(size);
    let down = signed::sub(0, up);
    cases::put_signed(to, divisions::move_by(up, d))?;
    cases::put_signed(to, divisions::move_by(down, d))?;
    Ok(())
}

fn one_case(to: &mut impl Write, size: usize, d: usize) -> io::Result<()> {
    put_moves(to, size, d)?;
    if 0 < d {
        cases::put(to, divisions::weight(d))?;
    }
    to.write_all(b"\n")
}

fn all_cases(to: &mut impl Write, input: &[u8]) -> io::Result<()> {
    for case in input.chunks_exact(CASE_BYTES) {
        one_case(to, eight(case, 0), eight(case, 8))?;
    }
    Ok(())
}

fn main(rt: HostRuntime) -> io::Result<()> {
    cases::answer(
        rt.alloc(),
        rt.stdin(),
        65_536,
        rt.stdout(),
        |to, input| all_cases(to, input),
    )
}
