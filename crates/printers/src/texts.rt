// What a leaf prints: its text as it stands, or the text of an enum's case by its index.
ghost use Rattle.std.specs.Prelude.{◌≡◌, [], get_or, map};
ghost use Rattle.options.specs.Casings.{cased};
ghost use Rattle.events.specs.Printed as Printed;
ghost use Rattle.events.specs.Printed.{printed};
ghost use Rattle.events.specs.Trees.{word};
ghost use Rattle.printers.specs.Going.{GoesExact};
ghost use Rattle.printers.specs.Texts.{style_of};

use crate::Printer;
use options::Casing;

// How a leaf prints.
#[derive(Clone, Copy)]
pub enum Style {
    Plain,
    Mnemonic,
    Register,
    Operator,
    DataSize,
    Encoding,
    VariableType,
    NumberType,
    Modifier,
}

static MNEMONICS: [[u8; 3]; 56] = [
    *b"ADC", *b"AND", *b"ASL", *b"BCC", *b"BCS", *b"BEQ", *b"BIT", *b"BMI", *b"BNE", *b"BPL",
    *b"BRK", *b"BVC", *b"BVS", *b"CLC", *b"CLD", *b"CLI", *b"CLV", *b"CMP", *b"CPX", *b"CPY",
    *b"DEC", *b"DEX", *b"DEY", *b"EOR", *b"INC", *b"INX", *b"INY", *b"JMP", *b"JSR", *b"LDA",
    *b"LDX", *b"LDY", *b"LSR", *b"NOP", *b"ORA", *b"PHA", *b"PHP", *b"PLA", *b"PLP", *b"ROL",
    *b"ROR", *b"RTI", *b"RTS", *b"SBC", *b"SEC", *b"SED", *b"SEI", *b"STA", *b"STX", *b"STY",
    *b"TAX", *b"TAY", *b"TSX", *b"TXA", *b"TXS", *b"TYA",
];

static REGISTERS: [[u8; 1]; 2] = [*b"X", *b"Y"];

static OPERATORS: [&str; 16] = [
    "+", "-", "*", "/", "%", "<<", ">>", "^", "==", "!=", ">", ">=", "<", "<=", "&&", "||",
];

static DATA_SIZES: [&str; 3] = [".byte", ".word", ".dword"];

// A text without an encoding prints none.
static ENCODINGS: [&str; 4] = ["ascii", "petscii", "petscreen", ""];

static VARIABLE_TYPES: [&str; 2] = [".const", ".var"];

// Nor has a decimal number a sign.
static NUMBER_TYPES: [&str; 3] = ["$", "", "%"];

static MODIFIERS: [&str; 2] = [">", "<"];

// Pushes the text of an index in a casing; past the last there is none.
fn push_cased<const N: usize>(
    printer: &mut Printer,
    texts: &[[u8; N]],
    index: usize,
    casing: Casing,
)
    ensures { GoesExact printer.old printer.new
        (λ page at. word page.context (cased casing (get_or texts.now index [])))
        (λ page at. at) }
{
    if let Some(text) = texts.get(index) {
        let mut text = *text;
        casing.format(&mut text);
        printer.push(&text);
    }
}

// Pushes the text of an index; past the last there is none.
fn push_entry(printer: &mut Printer, texts: &[&str], index: usize)
    ensures { GoesExact printer.old printer.new
        (λ page at. word page.context (get_or (map (λ text. text.now) texts.now) index []))
        (λ page at. at) }
{
    if let Some(text) = texts.get(index) {
        printer.push(text.as_bytes());
    }
}

// Pushes a text by its style: as it stands, or by the index that is its first byte. Where a caller names the style, no
// choice is left of it.
#[inline(always)]
pub fn push_text(printer: &mut Printer, style: Style, text: &[u8])
    ensures { GoesExact printer.old printer.new
        (λ page at. word page.context (printed page.context (style_of style) text.now))
        (λ page at. at) }
{
    let Some(first) = text.first() else {
        return;
    };
    let index = *first as usize;
    let chosen = printer.context.options.mnemonics;
    match style {
        Style::Plain => printer.push(text),
        Style::Mnemonic => push_cased(printer, &MNEMONICS, index, chosen.casing),
        Style::Register => push_cased(printer, &REGISTERS, index, chosen.register_casing),
        Style::Operator => push_entry(printer, &OPERATORS, index),
        Style::DataSize => push_entry(printer, &DATA_SIZES, index),
        Style::Encoding => push_entry(printer, &ENCODINGS, index),
        Style::VariableType => push_entry(printer, &VARIABLE_TYPES, index),
        Style::NumberType => push_entry(printer, &NUMBER_TYPES, index),
        Style::Modifier => push_entry(printer, &MODIFIERS, index),
    }
}
