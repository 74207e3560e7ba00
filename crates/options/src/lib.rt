// The formatting options: the types of the source, their defaults, and their stored form.
#![tactic(auto)]

ghost use Rattle.std.specs.Prelude.{◌≡◌, ℕ, ◌+◌, ◌<◌, length, get_or, MatchResult};
ghost use Rattle.answers.specs.Numbers.{no_refusal};
ghost use Rattle.options.specs.Types.{casing_of, position_of, alignment_of, options_of, options_from};
ghost use Rattle.options.specs.Stored.{standing, map_of, value_of, values_checked};
ghost use Rattle.options.specs.Stored.{read_options, NarrowRead, numbers_read, options_numbers};
ghost use Rattle.options.specs.Casings.{cased_byte, cased};

use answers::{Reason, Refusal};

#[derive(Clone, Copy, Debug, PartialEq, Eq)]
pub enum Casing {
    Uppercase,
    Lowercase,
}

#[derive(Clone, Copy, Debug, PartialEq, Eq)]
pub struct MnemonicOptions {
    pub casing: Casing,
    pub register_casing: Casing,
}

#[derive(Clone, Copy, Debug, PartialEq, Eq)]
pub enum BracePosition {
    SameLine,
    NewLine,
}

#[derive(Clone, Copy, Debug, PartialEq, Eq)]
pub struct BraceOptions {
    pub position: BracePosition,
}

#[derive(Clone, Copy, Debug, PartialEq, Eq)]
pub enum Alignment {
    Left,
    Right,
}

#[derive(Clone, Copy, Debug, PartialEq, Eq)]
pub struct WhitespaceOptions {
    pub indent: usize,
    pub label_margin: usize,
    pub label_alignment: Alignment,
    pub code_margin: usize,
}

#[derive(Clone, Copy, Debug, PartialEq, Eq)]
pub struct ListingOptions {
    pub num_bytes_per_line: usize,
}

#[derive(Clone, Copy, Debug, PartialEq, Eq)]
pub struct FormattingOptions {
    pub mnemonics: MnemonicOptions,
    pub braces: BraceOptions,
    pub whitespace: WhitespaceOptions,
    pub listing: ListingOptions,
}

impl Casing {
    // A byte in this casing: only the letters of ASCII change.
    pub fn format_byte(self, b: u8) -> u8
        ensures { result ≡ cased_byte self b }
    {
        match self {
            Casing::Uppercase => b.to_ascii_uppercase(),
            Casing::Lowercase => b.to_ascii_lowercase(),
        }
    }

    // A text in this casing, in place.
    pub fn format(self, text: &mut [u8])
        ensures { text.new ≡ cased self text.old }
    {
        for byte in text.iter_mut() {
            *byte = self.format_byte(*byte);
        }
    }
}

// An option from its stored value, of which 0 and 1 are read.
impl From<u8> for Casing {
    ghost from_gives = { λ value casing. casing ≡ casing_of value };

    fn from(value: u8) -> Self {
        if value == 0 {
            Casing::Uppercase
        } else {
            Casing::Lowercase
        }
    }
}

impl From<u8> for BracePosition {
    ghost from_gives = { λ value position. position ≡ position_of value };

    fn from(value: u8) -> Self {
        if value == 0 {
            BracePosition::SameLine
        } else {
            BracePosition::NewLine
        }
    }
}

impl From<u8> for Alignment {
    ghost from_gives = { λ value alignment. alignment ≡ alignment_of value };

    fn from(value: u8) -> Self {
        if value == 0 {
            Alignment::Left
        } else {
            Alignment::Right
        }
    }
}

// A field of the stored form: the largest value that it may have, and the one that it has where it is not stored.
#[derive(Clone, Copy)]
struct Field(u8, u8);

impl FormattingOptions {
    // The defaults, as the stored form has them.
    pub const CASING: usize = 1;

    pub const REGISTER_CASING: usize = 1;

    pub const BRACE_POSITION: usize = 0;

    pub const INDENT: usize = 4;

    pub const LABEL_MARGIN: usize = 20;

    pub const LABEL_ALIGNMENT: usize = 1;

    pub const CODE_MARGIN: usize = 30;

    pub const NUM_BYTES_PER_LINE: usize = 8;

    // The fields in the order of the map's bits, the lowest first.
    const FIELDS: [Field; 8] = [
        Field(1, Self::CASING as u8),
        Field(1, Self::REGISTER_CASING as u8),
        Field(1, Self::BRACE_POSITION as u8),
        Field(64, Self::INDENT as u8),
        Field(255, Self::LABEL_MARGIN as u8),
        Field(1, Self::LABEL_ALIGNMENT as u8),
        Field(255, Self::CODE_MARGIN as u8),
        Field(255, Self::NUM_BYTES_PER_LINE as u8),
    ];
}

// The options where no field is stored.
impl Default for FormattingOptions {
    ghost is_default = { λ options. options ≡ options_of 1 1 0 4 20 1 30 8 };

    fn default() -> Self {
        Self::from(Self::FIELDS.map(|Field(_, default)| default))
    }
}

// The values of the eight fields, stored or not, as options.
impl From<[u8; 8]> for FormattingOptions {
    ghost from_gives = { λ values options. options ≡ options_from values };

    fn from(values: [u8; 8]) -> Self {
        let [
            casing,
            register_casing,
            position,
            indent,
            label_margin,
            label_alignment,
            code_margin,
            num_bytes_per_line,
        ] = values;
        FormattingOptions {
            mnemonics: MnemonicOptions {
                casing: Casing::from(casing),
                register_casing: Casing::from(register_casing),
            },
            braces: BraceOptions {
                position: BracePosition::from(position),
            },
            whitespace: WhitespaceOptions {
                indent: usize::from(indent),
                label_margin: usize::from(label_margin),
                label_alignment: Alignment::from(label_alignment),
                code_margin: usize::from(code_margin),
            },
            listing: ListingOptions {
                num_bytes_per_line: usize::from(num_bytes_per_line),
            },
        }
    }
}

// The values of the eight fields in stored bytes that are as long as the map says, or refusal 2.
fn read_values(stored: &[u8]) -> Result<[u8; 8], Refusal>
    requires { length stored.now ≡ 1 + standing (map_of stored.now) 8 }
    ensures { MatchResult result
        (λ values. (values_checked stored.now 0 8 ≡ no_refusal)
        × ((k : ℕ) → k < 8 → get_or values k 0 ≡ value_of stored.now k))
        (λ refusal. values_checked stored.now 0 8 ≡ Err refusal) }
{
    let map = stored[0];
    let mut values = [0; 8];
    let mut place = 1;
    for (k, &Field(largest, default)) in FormattingOptions::FIELDS.iter().enumerate() {
        values[k] = if (map >> k) & 1 == 1 {
            let value = stored[place];
            if value > largest {
                return Err(Refusal {
                    reason: Reason::OptionsValue,
                    place,
                });
            }
            place += 1;
            value
        } else {
            default
        };
    }
    Ok(values)
}

// The options in stored bytes, or refusal 1 or 2.
pub fn read_options(stored: &[u8]) -> Result<FormattingOptions, Refusal>
    ensures answer { result ≡ read_options stored.now }
    ensures narrow { NarrowRead result }
    ensures numbers { numbers_read result ≡ options_numbers stored.now }
{
    let wrong_length = Refusal {
        reason: Reason::OptionsLength,
        place: 0,
    };
    let map = stored.first().ok_or(wrong_length)?;
    if stored.len() != 1 + map.count_ones() as usize {
        return Err(wrong_length);
    }
    read_values(stored).map(FormattingOptions::from)
}
