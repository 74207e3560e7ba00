// The answers of the formatter's calls: acceptance, or a refusal by name with its place.
#![tactic(auto)]

ghost use Rattle.std.specs.Prelude.{◌≡◌, ℕ};
ghost use Rattle.answers.specs.Numbers.{number, numbers_of, numbers, answer_of, numbers_checked};

// What document 01's nine numbers stand for, in checking order.
#[derive(Clone, Copy, Debug, PartialEq, Eq)]
pub enum Reason {
    OptionsLength = 1,
    OptionsValue = 2,
    TreeLength = 3,
    TreeDepth = 4,
    TreeLayout = 5,
    ChunkLayout = 6,
    NotAscii = 7,
    WorkRoom = 8,
    TextRoom = 9,
}

// A refusal: its reason, and the place that goes with it (for WorkRoom and TextRoom the length that was needed).
#[derive(Clone, Copy, Debug, PartialEq, Eq)]
pub struct Refusal {
    pub reason: Reason,
    pub place: usize,
}

// The answer of a call that writes a text: the text's length, or a refusal.
pub type Answer = Result<usize, Refusal>;

// The answer of a call that only judges its input.
pub type Checked = Result<(), Refusal>;

impl Reason {
    // The number of document 01.
    pub fn number(self) -> usize
        ensures { result ≡ number self }
    {
        self as usize
    }
}

// What document 01's table gives a number and a value.
pub trait Numbered {
    ghost both: { Self → ℕ × ℕ };

    // 0 for acceptance, or the refusal's number.
    fn number(self) -> usize
        ensures { result ≡ (both self).0 };

    // The text's length, or the refusal's place.
    fn value(self) -> usize
        ensures { result ≡ (both self).1 };
}

impl Numbered for Refusal {
    ghost both = { numbers_of };

    fn number(self) -> usize {
        self.reason.number()
    }

    fn value(self) -> usize {
        self.place
    }
}

impl Numbered for Answer {
    ghost both = { numbers };

    fn number(self) -> usize {
        self.err().map_or(0, |refusal| refusal.number())
    }

    fn value(self) -> usize {
        self.unwrap_or_else(|refusal| refusal.place)
    }
}

// The same judgement as an answer with no text.
pub fn answer_of(checked: Checked) -> Answer
    ensures answer { result ≡ answer_of checked }
    ensures numbers { numbers result ≡ numbers_checked checked }
{
    checked.map(|()| 0)
}
