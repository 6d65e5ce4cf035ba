// A height in micrometres, and its two limits: of a held mark, and of any mark in work.
ghost use Rattle.std.specs.Prelude.{◌≡◌, IfErr};
ghost use Rattle.book.specs.Height.{held_height_of, made_height, work_height_of};
ghost use Rattle.book.specs.Refusals.{place_of};

use crate::refusal::Refusal;

#[derive(Clone, Copy)]
pub struct Height {
    pub micrometres: i64,
}

impl Height {
    pub const MIN_HELD: i64 = -10_000_000_000;

    pub const MAX_HELD: i64 = 10_000_000_000;

    pub const MIN_IN_WORK: i64 = -50_000_000_000;

    pub const MAX_IN_WORK: i64 = 50_000_000_000;

    // The height x of the held mark of this entry, or refusal 6 there.
    // Beside in_work: each is public, with a definition of its own.
    pub fn held(x: i64, entry: usize) -> Result<Height, Refusal>
        ensures made { made_height result ≡ held_height_of x }
        ensures at { IfErr result (λ r. place_of r ≡ entry) }
    {
        if signed::outside(x, Height::MIN_HELD, Height::MAX_HELD) {
            return Err(Refusal::HeldEntry(entry));
        }
        Ok(Height { micrometres: x })
    }

    // The height x of this mark in work, or refusal 13 there.
    pub fn in_work(x: i64, mark: usize) -> Result<Height, Refusal>
        ensures made { made_height result ≡ work_height_of x }
        ensures at { IfErr result (λ r. place_of r ≡ mark) }
    {
        if signed::outside(x, Height::MIN_IN_WORK, Height::MAX_IN_WORK) {
            return Err(Refusal::Height(mark));
        }
        Ok(Height { micrometres: x })
    }
}
