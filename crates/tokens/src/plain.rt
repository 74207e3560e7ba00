// Tokens without a block or a token inside: the arms of `format_token`.
ghost use Rattle.std.specs.Prelude.{◌≡◌, true, false, ℕ, ◌≤◌, length, Ok};
ghost use Rattle.tree.specs.Own.{read_own};
ghost use Rattle.tree.specs.Reading.{read};
ghost use Rattle.tree.specs.declared.grammar.Class.TheVariants as class;
ghost use Rattle.tree.specs.declared.grammar.Kind.TheVariants as kind;
ghost use Rattle.printers.specs.Going.{Goes};
ghost use Rattle.printers.specs.Records.{GoesNode};
ghost use Rattle.tokens.specs.Fronts.{is_plain};
ghost use Rattle.tokens.specs.Inner.{sized_events, instruction_events, instruction_end};

use expressions::expression::Arguments;
use expressions::{expression, operand, strings};
use printers::texts::Style;
use printers::{Printer, leaf, record, texts};
use tree::grammar::{Class, Kind};
use tree::own::Own;

// A tag and an expression: all of an `Align`, and what an `Assert`, an `If`, a `Loop` and a `Segment` begin with.
pub(crate) fn format_tagged(printer: &mut Printer, levels: usize)
    ensures { GoesNode printer.old printer.new kind.Align 0 levels }
{
    leaf::format_leaf(printer, levels, leaf::BARE_WORD);
    printer.push(b" ");
    expression::format_expression(printer, levels, true);
}

// A tag, an expression and a message. The space stays pending where there is no message.
fn format_assert(printer: &mut Printer, levels: usize, bits: usize)
    ensures { GoesNode printer.old printer.new kind.Assert bits levels }
{
    format_tagged(printer, levels);
    printer.spc_if_next();
    strings::format_string(printer, levels, record::stands(bits, 2));
}

// A `Data` of a list, whose lead-in has read the own bytes of its size: the size, and the values, which are stored
// before it.
pub(crate) fn format_listed_data(printer: &mut Printer, levels: usize, size: Own)
    requires { (size.text ≤ size.end) × (size.end ≤ length printer.old.tree.now) }
    ensures { (place : ℕ) → read_own printer.old.tree.now place class.DataSize levels ≡ Ok size
        → Goes printer.old printer.new
        (λ page values. sized_events page.context (read levels page.tree) values place)
        (λ page values. (read levels page.tree class.DataSize place).end) }
{
    let tree = printer.tree;
    texts::push_text(printer, Style::DataSize, &tree[size.text..size.end]);
    printer.push(b" ");
    expression::format_arguments(printer, levels, Arguments::Expressions);
    printer.move_to(size.end);
}

// The same inside a token, where no lead-in has read the size: the values are skipped on the way to it.
fn format_data(printer: &mut Printer, levels: usize)
    ensures { GoesNode printer.old printer.new kind.Data 0 levels }
{
    let values = printer.at;
    record::skip(printer, levels, Class::ExpressionArguments, true);
    leaf::format_leaf(printer, levels, leaf::DATA_SIZE);
    let end = printer.at;
    printer.push(b" ");
    printer.move_to(values);
    expression::format_arguments(printer, levels, Arguments::Expressions);
    printer.move_to(end);
}

// A tag and a file's name.
fn format_file(printer: &mut Printer, levels: usize)
    ensures { GoesNode printer.old printer.new kind.File 0 levels }
{
    leaf::format_leaf(printer, levels, leaf::BARE_WORD);
    printer.push(b" ");
    strings::format_string(printer, levels, true);
}

// An `Instruction` of a list, whose lead-in has read the own bytes of its mnemonic. Where no operand stands no space is
// asked for, since it would be taken back at once.
pub(crate) fn format_listed_instruction(
    printer: &mut Printer,
    levels: usize,
    bits: usize,
    mnemonic: Own,
)
    requires { (mnemonic.text ≤ mnemonic.end) × (mnemonic.end ≤ length printer.old.tree.now) }
    ensures { (place : ℕ) → read_own printer.old.tree.now place class.Mnemonic levels ≡ Ok mnemonic
        → Goes printer.old printer.new
        (λ page at. instruction_events page.context bits (read levels page.tree) place)
        (λ page at. instruction_end bits (read levels page.tree) place) }
{
    let tree = printer.tree;
    texts::push_text(printer, Style::Mnemonic, &tree[mnemonic.text..mnemonic.end]);
    printer.move_to(mnemonic.end);
    if record::stands(bits, 1) {
        printer.spc_if_next();
        operand::format_operand(printer, levels, true);
    }
    printer.clear_spc_if_next();
}

// The same inside a token, where no lead-in has read the mnemonic.
fn format_instruction(printer: &mut Printer, levels: usize, bits: usize)
    ensures { GoesNode printer.old printer.new kind.Instruction bits levels }
{
    let Some(mnemonic) = record::open(printer, levels, Class::Mnemonic, true, false) else {
        return;
    };
    format_listed_instruction(printer, levels, bits, mnemonic);
}

// A macro's name with its arguments.
fn format_macro_invocation(printer: &mut Printer, levels: usize)
    ensures { GoesNode printer.old printer.new kind.MacroInvocation 0 levels }
{
    leaf::format_leaf(printer, levels, leaf::BARE_WORD);
    leaf::format_leaf(printer, levels, leaf::CHARACTER);
    expression::format_arguments(printer, levels, Arguments::Expressions);
    leaf::format_leaf(printer, levels, leaf::CHARACTER);
}

// `* = ..`
fn format_program_counter_definition(printer: &mut Printer, levels: usize)
    ensures { GoesNode printer.old printer.new kind.ProgramCounterDefinition 0 levels }
{
    leaf::format_leaf(printer, levels, leaf::BARE_CHARACTER);
    printer.push(b" ");
    leaf::format_leaf(printer, levels, leaf::CHARACTER);
    printer.push(b" ");
    expression::format_expression(printer, levels, true);
}

// A tag, an encoding and a text. The space stays pending where nothing is printed behind it.
fn format_text(printer: &mut Printer, levels: usize, bits: usize)
    ensures { GoesNode printer.old printer.new kind.Text bits levels }
{
    leaf::format_leaf(printer, levels, leaf::BARE_WORD);
    printer.spc_if_next();
    leaf::format_optional_leaf(printer, levels, leaf::ENCODING, record::stands(bits, 1));
    printer.spc_if_next();
    expression::format_expression(printer, levels, true);
}

// A tag with what is traced.
fn format_trace(printer: &mut Printer, levels: usize, bits: usize)
    ensures { GoesNode printer.old printer.new kind.Trace bits levels }
{
    leaf::format_leaf(printer, levels, leaf::BARE_WORD);
    printer.spc_if_next();
    leaf::format_optional_leaf(printer, levels, leaf::CHARACTER, record::stands(bits, 1));
    expression::format_arguments(printer, levels, Arguments::Expressions);
    leaf::format_optional_leaf(printer, levels, leaf::CHARACTER, record::stands(bits, 3));
}

// `.const` or `.var`, a name and a value.
fn format_variable_definition(printer: &mut Printer, levels: usize)
    ensures { GoesNode printer.old printer.new kind.VariableDefinition 0 levels }
{
    leaf::format_leaf(printer, levels, leaf::VARIABLE_TYPE);
    printer.push(b" ");
    leaf::format_leaf(printer, levels, leaf::WORD);
    printer.push(b" ");
    leaf::format_leaf(printer, levels, leaf::CHARACTER);
    printer.push(b" ");
    expression::format_expression(printer, levels, true);
}

// A token of those without a block or a token inside; of an end only its unit is skipped.
pub(crate) fn format_plain_token(printer: &mut Printer, levels: usize, kind: Kind, bits: usize)
    ensures { is_plain kind ≡ true → GoesNode printer.old printer.new kind bits levels }
{
    match kind {
        Kind::Align => format_tagged(printer, levels),
        Kind::Assert => format_assert(printer, levels, bits),
        Kind::Data => format_data(printer, levels),
        Kind::Error => leaf::format_leaf(printer, levels, leaf::BARE_WORD),
        Kind::Expression => expression::format_expression(printer, levels, false),
        Kind::File => format_file(printer, levels),
        Kind::Instruction => format_instruction(printer, levels, bits),
        Kind::MacroInvocation => format_macro_invocation(printer, levels),
        Kind::ProgramCounterDefinition => format_program_counter_definition(printer, levels),
        Kind::Text => format_text(printer, levels, bits),
        Kind::Trace => format_trace(printer, levels, bits),
        Kind::VariableDefinition => format_variable_definition(printer, levels),
        _ => record::skip(printer, levels, Class::Unit, true),
    }
}
