// The report program: a book file on standard input, its report on standard output. Nothing but the reading and the writing is done here.
#![tactic(auto)]

ghost use Rattle.std.specs.Prelude.{take, OnOk};
ghost use Rattle.std.specs.Io.KnownBytes.{Appends};
ghost use Rattle.page.specs.Page.{page_of};

use cases::Text;
use std::io;
use std::io::Write;

// Room for the longest report.
const ROOM: usize = 690_000;

struct Report;

impl Text for Report {
    ghost text = { page_of };

    fn put(file: &[u8], out: &mut [u8]) -> usize {
        page::write_page(file, out)
    }
}

// A write that fails ends the program with its error.
fn print_report<W: Write>(to: &mut W, file: &[u8]) -> io::Result<()>
    ensures { OnOk result (Appends (W.contents to.old) (W.contents to.new) (take 690000 (page_of file.now))) }
{
    cases::print_text::<Report, W, ROOM>(to, file)
}

fn main(rt: HostRuntime) -> io::Result<()> {
    let file = cases::read_file(rt.alloc(), rt.stdin())?;
    print_report(&mut rt.stdout(), file.as_slice())
}
