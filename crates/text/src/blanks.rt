// Which bytes are blank.
ghost use Rattle.std.specs.Prelude.{◌≡◌};
ghost use Rattle.text.specs.Ink.{blank};

// Whether a byte is blank: 9 to 13 or 32. Most bytes of a text are above 32, so that is asked first.
#[tactic(auto, unfolding(crate::specs::Ink::blank))]
pub fn is_blank(b: u8) -> bool
    ensures { result ≡ blank b }
{
    b <= b' ' && matches!(b, b'\t'..=b'\r' | b' ')
}
