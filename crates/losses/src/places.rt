// The eight places of document 01.
ghost use Rattle.std.specs.Prelude.{◌≡◌, ◌<◌};
ghost use Rattle.reading.specs.Places.{spot_number};
ghost use Rattle.losses.specs.Visits.{spot_of};

// The places (a) to (h).
#[derive(Clone, Copy, Debug, PartialEq, Eq)]
pub enum Place {
    OpeningBrace,
    LabelColon,
    ValueHead,
    ImportPath,
    PathItem,
    RegisterLetter,
    ExpressionHead,
    ClosingCharacter,
}

// How many places there are.
pub const PLACES: usize = 8;

impl Place {
    // 0 for (a) to 7 for (h).
    pub fn number(self) -> usize
        ensures number { result ≡ spot_number (spot_of self) }
        ensures within { result < PLACES }
    {
        self as usize
    }
}
