// The codes of trivia items, and the addressing modes.
ghost use Rattle.std.specs.Prelude.{◌≡◌, leb};
ghost use Rattle.tree.specs.Codes as Codes;

// What a trivia item is, in the order of the codes 0 to 3.
#[derive(Clone, Copy, Debug, PartialEq, Eq)]
pub enum Code {
    Whitespace,
    Newline,
    CStyle,
    CppStyle,
}

impl Code {
    // The code that an item's first byte stands for.
    pub(crate) fn of_byte(byte: u8) -> Option<Code>
        ensures { result ≡ Codes.code_of byte }
    {
        match byte {
            0 => Some(Code::Whitespace),
            1 => Some(Code::Newline),
            2 => Some(Code::CStyle),
            3 => Some(Code::CppStyle),
            _ => None,
        }
    }

    // Whether it is that of a comment.
    pub fn is_comment(self) -> bool
        ensures { result ≡ leb Codes.c_style (Codes.code_number self) }
    {
        match self {
            Code::Whitespace | Code::Newline => false,
            Code::CStyle | Code::CppStyle => true,
        }
    }
}

// The addressing modes in the order of their indices.
#[derive(Clone, Copy, Debug, PartialEq, Eq)]
pub enum AddressingMode {
    AbsoluteOrZp,
    Immediate,
    Implied,
    Indirect,
    OuterIndirect,
}

impl AddressingMode {
    // The mode by the text of its leaf, whose one byte is its index. A text of none, which no leaf has, counts as the
    // first.
    pub fn of_text(text: &[u8]) -> AddressingMode
        ensures { result ≡ Codes.mode_of text.now }
    {
        match text.first() {
            Some(1) => AddressingMode::Immediate,
            Some(2) => AddressingMode::Implied,
            Some(3) => AddressingMode::Indirect,
            Some(4) => AddressingMode::OuterIndirect,
            _ => AddressingMode::AbsoluteOrZp,
        }
    }
}
