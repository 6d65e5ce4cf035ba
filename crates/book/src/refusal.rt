// Why a call refuses: document 01, "Refusal numbers", with the place where its table has one.
ghost use Rattle.std.specs.Prelude.{◌≡◌};
ghost use Rattle.book.specs.Refusals.{number_of, place_of};

#[derive(Clone, Copy, PartialEq, Eq)]
pub enum Refusal {
    // "file under 13 bytes"
    ShortFile,
    // "stated length is not the file's"
    StatedLength,
    // "version not 1", or 2
    Version,
    // "b, t, h, n or a new difference outside its limit; a lent book slice not whole entries; heights lent to be read not b in number"
    Limit,
    // "length is not 13 + 10h + 12n", or of version 2 13 + 10h + 14n
    CountedLength,
    // "held entry: mark not 1 to b, height outside, or mark already held by an earlier entry"
    HeldEntry(usize),
    // "line: end not 1 to b, ends equal, difference or length outside, standing not 0 or 1", or its class
    Line(usize),
    // "no such line or loop; in re-run and withdrawal also a withdrawn line"
    NotThere,
    // "lent report is shorter than this book's rows, or differs from them in their places"
    OtherReport,
    // "lent output too short for the whole answer"
    NoRoom,
    // "in adjustment only: a piece has no held mark"
    NoneHeld(usize),
    // "the 10,000th sweep still moved a mark"
    Unsettled,
    // "a height in work, or lent, outside its limit"
    Height(usize),
    // "a withdrawn line" in a book that is to be written as a file of version 1
    Withdrawn,
}

impl Refusal {
    pub fn number(self) -> usize
        ensures { result ≡ number_of self }
    {
        match self {
            Refusal::ShortFile => 1,
            Refusal::StatedLength => 2,
            Refusal::Version => 3,
            Refusal::Limit => 4,
            Refusal::CountedLength => 5,
            Refusal::HeldEntry(_) => 6,
            Refusal::Line(_) => 7,
            Refusal::NotThere => 8,
            Refusal::OtherReport => 9,
            Refusal::NoRoom => 10,
            Refusal::NoneHeld(_) => 11,
            Refusal::Unsettled => 12,
            Refusal::Height(_) => 13,
            Refusal::Withdrawn => 16,
        }
    }

    // The place that the table gives it, or 0.
    pub fn place(self) -> usize
        ensures { result ≡ place_of self }
    {
        match self {
            Refusal::HeldEntry(place)
            | Refusal::Line(place)
            | Refusal::NoneHeld(place)
            | Refusal::Height(place) => place,
            _ => 0,
        }
    }
}
