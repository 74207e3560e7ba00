// What the text of a chunk list is, set in columns: the types that its definitions name, and what is read of the
// options. The code that sets it is crate `join`.
#![tactic(auto)]

ghost use Rattle.std.specs.Prelude.{◌≡◌};
ghost use Rattle.columns.specs.Setting.{margins_of};

use options::{Alignment, FormattingOptions};

// The label margin L, the code margin C, and how a label is aligned in its margin.
#[derive(Clone, Copy, Debug, PartialEq, Eq)]
pub struct Margins {
    pub label: usize,
    pub code: usize,
    pub alignment: Alignment,
}

// What follows a chunk: none, a chunk that is exactly a newline, or another chunk.
#[derive(Clone, Copy, Debug, PartialEq, Eq)]
pub enum Follows {
    Nothing,
    Newline,
    Other,
}

// The margins and the alignment that the options ask for.
impl From<FormattingOptions> for Margins {
    ghost from_gives = { λ options margins. margins ≡ margins_of options };

    fn from(options: FormattingOptions) -> Margins {
        let whitespace = options.whitespace;
        Margins {
            label: whitespace.label_margin,
            code: whitespace.code_margin,
            alignment: whitespace.label_alignment,
        }
    }
}
