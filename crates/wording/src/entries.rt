// What a leaf shows of a case of an enum: what is printed of it under the default options, and its index.
ghost use Rattle.std.specs.Prelude.{◌≡◌, map};
ghost use Rattle.wording.specs.Lines.{Gets};
ghost use Rattle.wording.specs.Entries.{entries, indexed, table_of};

use crate::lines::Line;
use tree::grammar::Class;

// The enums whose cases stand in leaves, by index in declared order.
#[derive(Clone, Copy)]
pub enum Table {
    Mnemonics,
    Registers,
    Modifiers,
    VariableTypes,
    NumberTypes,
    DataSizes,
    Operators,
    Encodings,
    Modes,
}

const MNEMONICS: [&str; 56] = [
    "adc", "and", "asl", "bcc", "bcs", "beq", "bit", "bmi", "bne", "bpl", "brk", "bvc", "bvs",
    "clc", "cld", "cli", "clv", "cmp", "cpx", "cpy", "dec", "dex", "dey", "eor", "inc", "inx",
    "iny", "jmp", "jsr", "lda", "ldx", "ldy", "lsr", "nop", "ora", "pha", "php", "pla", "plp",
    "rol", "ror", "rti", "rts", "sbc", "sec", "sed", "sei", "sta", "stx", "sty", "tax", "tay",
    "tsx", "txa", "txs", "tya",
];

const OPERATORS: [&str; 16] = [
    "+", "-", "*", "/", "%", "<<", ">>", "^", "==", "!=", ">", ">=", "<", "<=", "&&", "||",
];

const MODES: [&str; 5] = [
    "AbsoluteOrZp",
    "Immediate",
    "Implied",
    "Indirect",
    "OuterIndirect",
];

impl Table {
    // What is told of its cases.
    fn names(self) -> &'static [&'static str]
        ensures { map (λ name. name.now) result.now ≡ entries self }
    {
        match self {
            Table::Mnemonics => &MNEMONICS,
            Table::Registers => &["x", "y"],
            Table::Modifiers => &[">", "<"],
            Table::VariableTypes => &[".const", ".var"],
            Table::NumberTypes => &["$", "nothing", "%"],
            Table::DataSizes => &[".byte", ".word", ".dword"],
            Table::Operators => &OPERATORS,
            Table::Encodings => &["ascii", "petscii", "petscreen", "nothing"],
            Table::Modes => &MODES,
        }
    }
}

// The enum that a leaf shows a case of, by the class of its field; all other leaves show their text.
pub(crate) fn table_of(class: Class) -> Option<Table>
    ensures { result ≡ table_of class }
{
    match class {
        Class::Mnemonic => Some(Table::Mnemonics),
        Class::IndexRegister => Some(Table::Registers),
        Class::AddressModifier => Some(Table::Modifiers),
        Class::VariableType => Some(Table::VariableTypes),
        Class::NumberType => Some(Table::NumberTypes),
        Class::DataSize => Some(Table::DataSizes),
        Class::BinaryOp => Some(Table::Operators),
        Class::TextEncoding => Some(Table::Encodings),
        Class::AddressingMode => Some(Table::Modes),
        _ => None,
    }
}

// A case, and its index in parentheses.
pub(crate) fn put_indexed(line: &mut Line, table: Table, index: usize)
    ensures { Gets line.old line.new (indexed table index) }
{
    line.put_name(table.names(), index);
    line.put(b" (");
    line.put_number(index);
    line.put(b")");
}
