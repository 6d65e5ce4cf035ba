// The sketch program: a book file on standard input, its junction sketch on standard output. Nothing but the reading and the writing is
// done here.
#![tactic(auto)]

ghost use Rattle.std.specs.Prelude.{take, OnOk};
ghost use Rattle.std.specs.Io.KnownBytes.{Appends};
ghost use Rattle.page.specs.Sketch.{sketch_page_of};

use cases::Text;
use std::io;
use std::io::Write;

// Room for the longest sketch.
const ROOM: usize = 32_768;

struct Sketch;

impl Text for Sketch {
    ghost text = { sketch_page_of };

    fn put(file: &[u8], out: &mut [u8]) -> usize {
        page::write_sketch(file, out)
    }
}

// A write that fails ends the program with its error.
fn print_sketch<W: Write>(to: &mut W, file: &[u8]) -> io::Result<()>
    ensures { OnOk result (Appends (W.contents to.old) (W.contents to.new) (take 32768 (sketch_page_of file.now))) }
{
    cases::print_text::<Sketch, W, ROOM>(to, file)
}

fn main(rt: HostRuntime) -> io::Result<()> {
    let file = cases::read_file(rt.alloc(), rt.stdin())?;
    print_sketch(&mut rt.stdout(), file.as_slice())
}
