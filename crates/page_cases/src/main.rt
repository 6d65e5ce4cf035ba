// Prints the reports of many files. A case on standard input (cases::case) has one number, its file's length.
// tests/page_cases.py makes the cases and, on its own, their reports.
#![tactic(auto)]

ghost use Rattle.page.specs.Page.{page_of};

use cases::{Text, case};
use std::io;
use std::io::Write;

const NUMBERS: usize = 1;

// Room for each of the reports.
const ROOM: usize = 65_536;

struct Report;

impl Text for Report {
    ghost text = { page_of };

    fn put(file: &[u8], out: &mut [u8]) -> usize {
        page::write_page(file, out)
    }
}

fn one_case<W: Write>(to: &mut W, case: &[u8]) -> io::Result<()> {
    to.write_all(b"\n")?;
    cases::print_text::<Report, _, ROOM>(to, case::file(case, NUMBERS))
}

fn main(rt: HostRuntime) -> io::Result<()> {
    cases::run(
        rt.alloc(),
        rt.stdin(),
        rt.stdout(),
        NUMBERS,
        |to, case| one_case(to, case),
    )
}
