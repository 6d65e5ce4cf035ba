// A run of the table as it is listed: its lines, each with its sense.
ghost use Rattle.std.specs.Prelude.{◌≡◌, ◌++◌, map, ◌≤◌, ◌<◌, length, drop};
ghost use Rattle.lists.specs.Listing.{answer_of, listing, list_of};
ghost use Rattle.lists.specs.Run.{code_limit, listed_by, Coded};

use book::refusal::Refusal;

// The number of the line that a code runs, positive in its own sense, else negative.
fn listed_by(code: u16) -> i64
    requires { code < code_limit }
    ensures { result ≡ listed_by code }
{
    let number = i64::from(code / 2);
    if code % 2 == 0 { number } else { -number }
}

// The lines of a run, from place 0 of out on.
// Beside watch::list_numbers: it is public, and one over both by a closure would be a third.
pub fn list_run(run: &[u16], out: &mut [i64])
    requires coded { Coded run.now }
    requires room { length run.now ≤ length out.old }
    ensures { out.new ≡ map listed_by run.now ++ drop (length run.now) out.old }
{
    for (i, &code) in run.iter().enumerate() {
        out[i] = listed_by(code);
    }
}

// The lines of a run, or refusal 10.
pub(crate) fn write_run(run: &[u16], out: &mut [i64]) -> Result<usize, Refusal>
    requires { Coded run.now }
    ensures { listing (answer_of result) out.new ≡ list_of (map listed_by run.now) out.old }
{
    if out.len() < run.len() {
        return Err(Refusal::NoRoom);
    }
    list_run(run, out);
    Ok(run.len())
}
