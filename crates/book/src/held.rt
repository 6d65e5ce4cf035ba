// Held entries: two numbers each in a lent slice, and the first that is none.
ghost use Rattle.std.specs.Prelude.{◌≡◌, ◌<◌, IfErr, IfSome};
ghost use Rattle.book.specs.Held.{held_entry_of, made_held, first_bad_held, number_or_0};
ghost use Rattle.book.specs.Refusals.{place_of};

use crate::height::Height;
use crate::refusal::Refusal;

// A mark that is held, and its height.
#[derive(Clone, Copy)]
pub struct Held {
    pub mark: i64,
    pub height: Height,
}

impl Held {
    pub const WORDS: usize = 2;

    pub const MARK: usize = 0;

    pub const HEIGHT: usize = 1;

    // The held entry of this number that two numbers make in a book of b marks, or refusal 6 there.
    pub fn new(b: i64, mark: i64, height: i64, entry: usize) -> Result<Held, Refusal>
        ensures made { made_held result ≡ held_entry_of b mark height }
        ensures at { IfErr result (λ r. place_of r ≡ entry) }
    {
        if signed::outside(mark, 1, b) {
            return Err(Refusal::HeldEntry(entry));
        }
        let height = Height::held(height, entry)?;
        Ok(Held { mark, height })
    }
}

// The number of the first bad held entry. Document 01: "The scan for 6 compares each entry with those before it and stops at the first
// repeat."
pub(crate) fn first_bad_held(held: &[i64], b: i64) -> Option<usize>
    ensures found { number_or_0 result ≡ first_bad_held b held.now }
    ensures from_1 { IfSome result (λ number. 0 < number) }
{
    'scan: {
        for i in 0..held.len() / Held::WORDS {
            let at = i * Held::WORDS;
            let made = Held::new(b, held[at + Held::MARK], held[at + Held::HEIGHT], i + 1);
            let Ok(entry) = made else {
                break 'scan Some(i + 1);
            };
            let mark = entry.mark;
            for j in 0..i {
                if signed::same(held[j * Held::WORDS + Held::MARK], mark) {
                    break 'scan Some(i + 1);
                }
            }
        }
        None
    }
}
