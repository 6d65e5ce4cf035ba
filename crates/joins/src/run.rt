// A run the other way, and begun elsewhere.
ghost use Rattle.std.specs.Prelude.{◌≡◌, List, [], ◌<◌, ◌≤◌, length};
ghost use Rattle.network.specs.Codes.{codes};
ghost use Rattle.network.specs.Walk.{Pass};
ghost use Rattle.links.specs.Link.{lowest_line, begun_with};
ghost use Rattle.joins.specs.Code.{flip_code, turned_codes, LowestAt};

// The same line in the other sense.
fn flip(code: u16) -> u16
    ensures { result ≡ flip_code code }
{
    code / 2 * 2 + (1 - code % 2)
}

// The run the other way.
pub(crate) fn turn(run: &mut [u16])
    ensures { run.new ≡ turned_codes run.old }
{
    run.reverse();
    for code in run {
        *code = flip(*code);
    }
}

// The place of the lowest line.
fn lowest(run: &[u16]) -> usize
    requires { 0 < length run.now }
    ensures { LowestAt run.now result }
{
    let mut k = 0;
    for (i, &code) in run.iter().enumerate() {
        if code / 2 < run[k] / 2 {
            k = i;
        }
    }
    k
}

// "begun with its lowest line, positive"
pub(crate) fn begin_lowest(run: &mut [u16])
    requires { 0 < length run.old }
    ensures { (w : List Pass) → run.old ≡ codes w → run.new ≡ codes (begun_with (lowest_line w) [] w) }
{
    let k = lowest(run);
    if run[k] % 2 == 0 {
        run.rotate_left(k);
    } else {
        let n = run.len();
        turn(run);
        run.rotate_left(n - 1 - k);
    }
}
