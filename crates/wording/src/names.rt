// The names of refusals, kinds, chunk types and trivia.
ghost use Rattle.std.specs.Prelude.{◌≡◌, get_or};
ghost use Rattle.answers.specs.Numbers.{number};
ghost use Rattle.tree.specs.Codes.{code_number};
ghost use Rattle.wording.specs.Lines.{Gets, say, ascii};
ghost use Rattle.wording.specs.Names.{reasons, kind_name, trivia_names, type_name};

use crate::lines::Line;
use answers::Reason;
use chunks::stored::ChunkType;
use tree::codes::Code;

// The kinds by their numbers: the tokens, and from a list on their parts.
const KINDS: [&str; 43] = [
    "Align",
    "Assert",
    "Braces",
    "Config",
    "ConfigPair",
    "Data",
    "Definition",
    "Eof",
    "Error",
    "Expression",
    "If",
    "Import",
    "File",
    "Instruction",
    "Label",
    "Loop",
    "MacroDefinition",
    "MacroInvocation",
    "ProgramCounterDefinition",
    "Segment",
    "Test",
    "Text",
    "Trace",
    "VariableDefinition",
    "list",
    "leaf",
    "path item",
    "Block",
    "BinaryExpression",
    "Factor",
    "CurrentProgramCounter",
    "ExprParens",
    "FunctionCall",
    "IdentifierValue",
    "Number",
    "InterpolatedString factor",
    "InterpolatedString",
    "Operand",
    "RegisterSuffix",
    "ImportAs",
    "ImportArgs::All",
    "SpecificImportArg",
    "ArgItem",
];

pub(crate) fn reason_name(reason: Reason) -> &'static str
    ensures { result.now ≡ ascii (get_or reasons (number reason) "") }
{
    match reason {
        Reason::OptionsLength => "options length",
        Reason::OptionsValue => "options value",
        Reason::TreeLength => "tree length",
        Reason::TreeDepth => "tree depth",
        Reason::TreeLayout => "tree layout",
        Reason::ChunkLayout => "chunk layout",
        Reason::NotAscii => "not ASCII",
        Reason::WorkRoom => "work room",
        Reason::TextRoom => "text room",
    }
}

pub(crate) fn type_name(ty: ChunkType) -> &'static str
    ensures { result.now ≡ ascii (type_name ty) }
{
    match ty {
        ChunkType::Code => "code",
        ChunkType::Label => "label",
        ChunkType::Comment => "comment",
    }
}

// A kind, by its number: a byte of a tree, which may be no kind's and then has no name.
pub(crate) fn put_kind(line: &mut Line, number: usize)
    ensures { Gets line.old line.new (say (kind_name number)) }
{
    line.put_name(&KINDS, number);
}

pub(crate) fn code_name(code: Code) -> &'static str
    ensures { result.now ≡ ascii (get_or trivia_names (code_number code) "") }
{
    match code {
        Code::Whitespace => "whitespace",
        Code::Newline => "newline",
        Code::CStyle => "comment",
        Code::CppStyle => "line comment",
    }
}
