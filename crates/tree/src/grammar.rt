// The grammar of a stored tree: the kinds of records, and what may stand in a field.
ghost use Rattle.std.specs.Prelude.{◌≡◌, ◌<◌, Some};
ghost use Rattle.tree.specs.Grammar;
ghost use Rattle.tree.specs.Rows.{class_number, class_of, row_of};
ghost use Rattle.tree.specs.Walk.{SetOf, allows};

use text::characters;

// The braces of a block and the colon of a label, as wide as the bounds of a text.
const OPENING_BRACE: usize = characters::OPENING_BRACE as usize;

const CLOSING_BRACE: usize = characters::CLOSING_BRACE as usize;

const COLON: usize = characters::COLON as usize;

// The kinds of records, in the order of their numbers 0 to 42.
#[derive(Clone, Copy, Debug, PartialEq, Eq)]
pub enum Kind {
    Align,
    Assert,
    Braces,
    Config,
    ConfigPair,
    Data,
    Definition,
    Eof,
    Error,
    Expression,
    If,
    Import,
    File,
    Instruction,
    Label,
    Loop,
    MacroDefinition,
    MacroInvocation,
    ProgramCounterDefinition,
    Segment,
    Test,
    Text,
    Trace,
    VariableDefinition,
    Vec,
    Leaf,
    PathItem,
    Block,
    BinaryExpression,
    Factor,
    CurrentProgramCounter,
    ExprParens,
    FunctionCall,
    IdentifierValue,
    Number,
    StringFactor,
    InterpolatedString,
    Operand,
    RegisterSuffix,
    ImportAs,
    ImportAll,
    SpecificImportArg,
    ArgItem,
}

// The kinds in the order of their numbers.
static KINDS: [Kind; 43] = [
    Kind::Align,
    Kind::Assert,
    Kind::Braces,
    Kind::Config,
    Kind::ConfigPair,
    Kind::Data,
    Kind::Definition,
    Kind::Eof,
    Kind::Error,
    Kind::Expression,
    Kind::If,
    Kind::Import,
    Kind::File,
    Kind::Instruction,
    Kind::Label,
    Kind::Loop,
    Kind::MacroDefinition,
    Kind::MacroInvocation,
    Kind::ProgramCounterDefinition,
    Kind::Segment,
    Kind::Test,
    Kind::Text,
    Kind::Trace,
    Kind::VariableDefinition,
    Kind::Vec,
    Kind::Leaf,
    Kind::PathItem,
    Kind::Block,
    Kind::BinaryExpression,
    Kind::Factor,
    Kind::CurrentProgramCounter,
    Kind::ExprParens,
    Kind::FunctionCall,
    Kind::IdentifierValue,
    Kind::Number,
    Kind::StringFactor,
    Kind::InterpolatedString,
    Kind::Operand,
    Kind::RegisterSuffix,
    Kind::ImportAs,
    Kind::ImportAll,
    Kind::SpecificImportArg,
    Kind::ArgItem,
];

impl Kind {
    // The kind that a record's first byte stands for.
    pub fn of_byte(byte: u8) -> Option<Kind>
        ensures { result ≡ Grammar.kind_of byte }
    {
        KINDS.get(usize::from(byte)).copied()
    }

    // The number of a kind, which is the first byte of its records.
    pub(crate) fn number(self) -> usize
        ensures { result ≡ Grammar.kind_number self }
    {
        self as usize
    }
}

// What may stand in a field, by the field's Rust type.
#[derive(Clone, Copy, Debug, PartialEq, Eq)]
pub enum Class {
    // Located String, Identifier, IdentifierPath, Number.
    Word,
    // Located char.
    Char,
    // Block.lparen.
    OpenBrace,
    // Block.rparen.
    CloseBrace,
    // Label.colon.
    Colon,
    // Located ().
    Unit,
    // Located Mnemonic.
    Mnemonic,
    // Located IndexRegister.
    IndexRegister,
    // Located AddressModifier.
    AddressModifier,
    // Located VariableType.
    VariableType,
    // Located NumberType.
    NumberType,
    // Located DataSize.
    DataSize,
    // Located BinaryOp.
    BinaryOp,
    // Located TextEncoding.
    TextEncoding,
    // AddressingMode.
    AddressingMode,
    // InterpolatedStringItem.
    StringItem,
    // Located Expression.
    LocatedExpression,
    // Expression.
    BareExpression,
    // Located ExpressionFactor.
    LocatedFactor,
    // Token.
    BareToken,
    // Located Token.
    LocatedToken,
    // Block.
    BlockRecord,
    // InterpolatedString.
    StringRecord,
    // Operand.
    OperandRecord,
    // RegisterSuffix.
    SuffixRecord,
    // ImportAs.
    AsRecord,
    // ImportArgs.
    ImportArguments,
    // Located SpecificImportArg.
    ImportPath,
    // ArgItem of a Located Expression.
    ExpressionArgument,
    // ArgItem of a Located Identifier.
    IdentifierArgument,
    // ArgItem of a Located SpecificImportArg.
    ImportArgument,
    // Vec of Token.
    Tokens,
    // Vec of ArgItem of Expression.
    ExpressionArguments,
    // Vec of ArgItem of Identifier.
    IdentifierArguments,
    // Vec of InterpolatedStringItem.
    StringItems,
}

// The classes at their numbers; no class has the number 0, which counts as the first.
static CLASSES: [Class; 36] = [
    Class::Word,
    Class::Word,
    Class::Char,
    Class::OpenBrace,
    Class::CloseBrace,
    Class::Colon,
    Class::Unit,
    Class::Mnemonic,
    Class::IndexRegister,
    Class::AddressModifier,
    Class::VariableType,
    Class::NumberType,
    Class::DataSize,
    Class::BinaryOp,
    Class::TextEncoding,
    Class::AddressingMode,
    Class::StringItem,
    Class::LocatedExpression,
    Class::BareExpression,
    Class::LocatedFactor,
    Class::BareToken,
    Class::LocatedToken,
    Class::BlockRecord,
    Class::StringRecord,
    Class::OperandRecord,
    Class::SuffixRecord,
    Class::AsRecord,
    Class::ImportArguments,
    Class::ImportPath,
    Class::ExpressionArgument,
    Class::IdentifierArgument,
    Class::ImportArgument,
    Class::Tokens,
    Class::ExpressionArguments,
    Class::IdentifierArguments,
    Class::StringItems,
];

impl Class {
    // The number of a class in a row, where 0 says that there is no field.
    fn number(self) -> u64
        ensures { (result ≡ class_number self) × (result < 64) }
    {
        self as u64 + 1
    }
}

// The text of a leaf.
#[derive(Clone, Copy, Debug, PartialEq, Eq)]
pub enum TextRule {
    // There is none.
    NoText,
    // It may stand, and has at least one byte.
    Free,
    // It must stand, and is one byte of a range.
    Byte(usize, usize),
}

impl TextRule {
    // Whether a text that stands is one of the rule's.
    pub(crate) fn allows(self, text: &[u8]) -> bool
        ensures { result ≡ allows self text.now }
    {
        match self {
            TextRule::NoText => false,
            TextRule::Free => !text.is_empty(),
            TextRule::Byte(low, high) => match text {
                [byte] => low <= usize::from(*byte) && usize::from(*byte) <= high,
                _ => false,
            },
        }
    }
}

// What may stand in a class: the kinds from first to last, whether with trivia, the text of a leaf, a list, and what an
// argument's value is.
#[derive(Clone, Copy, Debug, PartialEq, Eq)]
pub struct Rule {
    pub first: Kind,
    pub last: Kind,
    pub located: bool,
    pub text: TextRule,
    pub items: Option<Class>,
    pub value: Class,
}

// The kinds from first to last, without a text and items.
fn nodes(first: Kind, last: Kind, located: bool) -> Rule
    ensures { result ≡ Grammar.nodes first last located }
{
    Rule {
        first,
        last,
        located,
        text: TextRule::NoText,
        items: None,
        value: Class::LocatedExpression,
    }
}

fn leaf(located: bool, text: TextRule) -> Rule
    ensures { result ≡ Grammar.leaf located text }
{
    Rule {
        text,
        ..nodes(Kind::Leaf, Kind::Leaf, located)
    }
}

// An argument with a value of a class.
fn argument(value: Class) -> Rule
    ensures { result ≡ Grammar.argument value }
{
    Rule {
        value,
        ..nodes(Kind::ArgItem, Kind::ArgItem, false)
    }
}

// No kind but a list's.
fn list_of(class: Class) -> Rule
    ensures { result ≡ Grammar.list_of class }
{
    Rule {
        items: Some(class),
        ..nodes(Kind::Vec, Kind::Vec, false)
    }
}

// What may stand in a class.
pub(crate) fn rule_of(class: Class) -> Rule
    ensures { result ≡ Grammar.rule class }
{
    match class {
        Class::Word => leaf(true, TextRule::Free),
        Class::Char => leaf(true, TextRule::Byte(0, 255)),
        Class::OpenBrace => leaf(true, TextRule::Byte(OPENING_BRACE, OPENING_BRACE)),
        Class::CloseBrace => leaf(true, TextRule::Byte(CLOSING_BRACE, CLOSING_BRACE)),
        Class::Colon => leaf(true, TextRule::Byte(COLON, COLON)),
        Class::Unit => leaf(true, TextRule::NoText),
        Class::Mnemonic => leaf(true, TextRule::Byte(0, 55)),
        Class::IndexRegister => leaf(true, TextRule::Byte(0, 1)),
        Class::AddressModifier => leaf(true, TextRule::Byte(0, 1)),
        Class::VariableType => leaf(true, TextRule::Byte(0, 1)),
        Class::NumberType => leaf(true, TextRule::Byte(0, 2)),
        Class::DataSize => leaf(true, TextRule::Byte(0, 2)),
        Class::BinaryOp => leaf(true, TextRule::Byte(0, 15)),
        Class::TextEncoding => leaf(true, TextRule::Byte(0, 3)),
        Class::AddressingMode => leaf(false, TextRule::Byte(0, 4)),
        Class::StringItem => Rule {
            last: Kind::PathItem,
            ..leaf(false, TextRule::Free)
        },
        Class::LocatedExpression => nodes(Kind::BinaryExpression, Kind::Factor, true),
        Class::BareExpression => nodes(Kind::BinaryExpression, Kind::Factor, false),
        Class::LocatedFactor => nodes(Kind::CurrentProgramCounter, Kind::StringFactor, true),
        Class::BareToken => nodes(Kind::Align, Kind::VariableDefinition, false),
        Class::LocatedToken => nodes(Kind::Align, Kind::VariableDefinition, true),
        Class::BlockRecord => nodes(Kind::Block, Kind::Block, false),
        Class::StringRecord => nodes(Kind::InterpolatedString, Kind::InterpolatedString, false),
        Class::OperandRecord => nodes(Kind::Operand, Kind::Operand, false),
        Class::SuffixRecord => nodes(Kind::RegisterSuffix, Kind::RegisterSuffix, false),
        Class::AsRecord => nodes(Kind::ImportAs, Kind::ImportAs, false),
        Class::ImportArguments => Rule {
            items: Some(Class::ImportArgument),
            ..nodes(Kind::ImportAll, Kind::ImportAll, false)
        },
        Class::ImportPath => nodes(Kind::SpecificImportArg, Kind::SpecificImportArg, true),
        Class::ExpressionArgument => argument(Class::LocatedExpression),
        Class::IdentifierArgument => argument(Class::Word),
        Class::ImportArgument => argument(Class::ImportPath),
        Class::Tokens => list_of(Class::BareToken),
        Class::ExpressionArguments => list_of(Class::ExpressionArgument),
        Class::IdentifierArguments => list_of(Class::IdentifierArgument),
        Class::StringItems => list_of(Class::StringItem),
    }
}

// The code of a field in a row: seven bits with its class's number, 64 more where it need not stand.
macro_rules! slot {
    (must $class:ident) => {
        Class::$class as u64 + 1
    };
    (may $class:ident) => {
        Class::$class as u64 + 65
    };
}

// The codes of fields in one number, from the lowest bits on.
macro_rules! row {
    () => { 0 };
    ($need:ident $class:ident $(, $needs:ident $classes:ident)*) => {
        slot!($need $class) + 128 * row!($($needs $classes),*)
    };
}

// The fields of a kind in one number.
pub(crate) fn row_of(kind: Kind, value: Class) -> u64
    ensures { result ≡ row_of (Grammar.fields kind value) }
{
    match kind {
        Kind::Align => row!(must Word, must LocatedExpression),
        Kind::Assert => row!(must Word, must LocatedExpression, may StringRecord),
        Kind::Braces => row!(must BlockRecord),
        Kind::Config => row!(must BlockRecord),
        Kind::ConfigPair => row!(must Word, must Char, must LocatedToken),
        Kind::Data => row!(must ExpressionArguments, must DataSize),
        Kind::Definition => row!(must Word, must Word, may BareToken),
        Kind::Eof => row!(must Unit),
        Kind::Error => row!(must Word),
        Kind::Expression => row!(must BareExpression),
        Kind::If =>
            row!(must Word, must LocatedExpression, must BlockRecord, may Word, may BlockRecord),
        Kind::Import =>
            row!(must Word, must ImportArguments, must Word, must StringRecord, may BlockRecord),
        Kind::File => row!(must Word, must StringRecord),
        Kind::Instruction => row!(must Mnemonic, may OperandRecord),
        Kind::Label => row!(must Word, must Colon, may BlockRecord),
        Kind::Loop => row!(must Word, must LocatedExpression, must BlockRecord),
        Kind::MacroDefinition =>
            row!(must Word, must Word, must Char, must IdentifierArguments, must Char, must BlockRecord),
        Kind::MacroInvocation => row!(must Word, must Char, must ExpressionArguments, must Char),
        Kind::ProgramCounterDefinition => row!(must Char, must Char, must LocatedExpression),
        Kind::Segment => row!(must Word, must LocatedExpression, may BlockRecord),
        Kind::Test => row!(must Word, must LocatedExpression, must BlockRecord),
        Kind::Text => row!(must Word, may TextEncoding, must LocatedExpression),
        Kind::Trace => row!(must Word, may Char, must ExpressionArguments, may Char),
        Kind::VariableDefinition =>
            row!(must VariableType, must Word, must Char, must LocatedExpression),
        Kind::Vec => row!(),
        Kind::Leaf => row!(),
        Kind::PathItem => row!(),
        Kind::Block => row!(must OpenBrace, must Tokens, must CloseBrace),
        Kind::BinaryExpression =>
            row!(must BinaryOp, must LocatedExpression, must LocatedExpression),
        Kind::Factor => row!(must LocatedFactor, may Char, may Char),
        Kind::CurrentProgramCounter => row!(must Char),
        Kind::ExprParens => row!(must Char, must LocatedExpression, must Char),
        Kind::FunctionCall => row!(must Word, must Char, must ExpressionArguments, must Char),
        Kind::IdentifierValue => row!(must Word, may AddressModifier),
        Kind::Number => row!(must NumberType, must Word),
        Kind::StringFactor => row!(must StringRecord),
        Kind::InterpolatedString => row!(must Char, must StringItems),
        Kind::Operand =>
            row!(must LocatedExpression, may Char, may Char, must AddressingMode, may SuffixRecord),
        Kind::RegisterSuffix => row!(must Char, must IndexRegister),
        Kind::ImportAs => row!(must Word, must Word),
        Kind::ImportAll => row!(must Char, may AsRecord),
        Kind::SpecificImportArg => row!(must Word, may AsRecord),
        Kind::ArgItem => value.number() + 128 * row!(may Char),
    }
}

// The maps that fields may have, in one number whose bit n stands where the map n is one of them. A field that must
// stand moves the maps of those before it by the value of its bit; one that need not stand keeps them beside the moved
// ones.
macro_rules! maps {
    (@ [$($power:literal)*]) => { 1 };
    (@ [$first:literal $($power:literal)*] must $($need:ident)*) => {
        $first * maps!(@ [$($power)*] $($need)*)
    };
    (@ [$first:literal $($power:literal)*] may $($need:ident)*) => {
        ($first + 1) * maps!(@ [$($power)*] $($need)*)
    };
    ($($need:ident)*) => { maps!(@ [2 4 16 256 65536 4294967296] $($need)*) };
}

// The maps of a kind's fields: where the fields whose bits they have may stand together.
pub(crate) fn maps_of(kind: Kind) -> u64
    ensures { (value : Class) → SetOf result (Grammar.fields kind value) }
{
    match kind {
        Kind::Align => maps!(must must),
        Kind::Assert => maps!(must must may),
        Kind::Braces => maps!(must),
        Kind::Config => maps!(must),
        Kind::ConfigPair => maps!(must must must),
        Kind::Data => maps!(must must),
        Kind::Definition => maps!(must must may),
        Kind::Eof => maps!(must),
        Kind::Error => maps!(must),
        Kind::Expression => maps!(must),
        Kind::If => maps!(must must must may may),
        Kind::Import => maps!(must must must must may),
        Kind::File => maps!(must must),
        Kind::Instruction => maps!(must may),
        Kind::Label => maps!(must must may),
        Kind::Loop => maps!(must must must),
        Kind::MacroDefinition => maps!(must must must must must must),
        Kind::MacroInvocation => maps!(must must must must),
        Kind::ProgramCounterDefinition => maps!(must must must),
        Kind::Segment => maps!(must must may),
        Kind::Test => maps!(must must must),
        Kind::Text => maps!(must may must),
        Kind::Trace => maps!(must may must may),
        Kind::VariableDefinition => maps!(must must must must),
        Kind::Vec => maps!(),
        Kind::Leaf => maps!(),
        Kind::PathItem => maps!(),
        Kind::Block => maps!(must must must),
        Kind::BinaryExpression => maps!(must must must),
        Kind::Factor => maps!(must may may),
        Kind::CurrentProgramCounter => maps!(must),
        Kind::ExprParens => maps!(must must must),
        Kind::FunctionCall => maps!(must must must must),
        Kind::IdentifierValue => maps!(must may),
        Kind::Number => maps!(must must),
        Kind::StringFactor => maps!(must),
        Kind::InterpolatedString => maps!(must must),
        Kind::Operand => maps!(must may may must may),
        Kind::RegisterSuffix => maps!(must must),
        Kind::ImportAs => maps!(must must),
        Kind::ImportAll => maps!(must may),
        Kind::SpecificImportArg => maps!(must may),
        Kind::ArgItem => maps!(must may),
    }
}

// The class of a number in a row; numbers of no class count as the last.
pub(crate) fn class_of(number: u64) -> Class
    ensures { result ≡ class_of number }
{
    let place = number as usize;
    if CLASSES.len() <= place {
        return Class::StringItems;
    }
    CLASSES[place]
}
