// Operands: `Formattable for &Operand`.
ghost use Rattle.std.specs.Prelude.{true, cond};
ghost use Rattle.tree.specs.Reading.{read};
ghost use Rattle.tree.specs.Tree.{absent};
ghost use Rattle.tree.specs.declared.grammar.Class.TheVariants as class;
ghost use Rattle.events.specs.Printed.{plain};
ghost use Rattle.events.specs.Trees as Trees;
ghost use Rattle.printers.specs.Going.{Goes};
ghost use Rattle.printers.specs.Records.{GoesField};
ghost use Rattle.expressions.specs.Operands.{front_events, front_end, end_events, tail_events, tail_end};

use crate::expression;
use printers::{Printer, leaf, record};
use tree::codes::AddressingMode;
use tree::grammar::Class;

// A register behind a comma, which may stand or not.
fn format_register_suffix(printer: &mut Printer, levels: usize, stands: bool)
    ensures { let place = Trees.leaf plain in
        GoesField printer.old printer.new place true levels class.SuffixRecord stands }
{
    let Some(_) = record::open(printer, levels, Class::SuffixRecord, stands, true) else {
        return;
    };
    leaf::format_leaf(printer, levels - 1, leaf::CHARACTER);
    printer.spc_if_next();
    leaf::format_leaf(printer, levels - 1, leaf::REGISTER);
    printer.clear_spc_if_next();
}

// The closing character, which may stand or not, where it is stored.
fn format_closing(printer: &mut Printer, levels: usize, stands: bool, place: usize)
    ensures { let leaf = Trees.leaf plain in
        Goes printer.old printer.new
        (λ page at. Trees.events_in page.context leaf true
        (cond stands (read levels page.tree class.Char place).tree absent))
        (λ page at. at) }
{
    let behind = printer.at;
    printer.move_to(place);
    leaf::format_optional_leaf(printer, levels, leaf::CHARACTER, stands);
    printer.move_to(behind);
}

// The opening character and the expression. The character is stored behind the expression, which is skipped only where
// it stands; the place is the one behind both.
fn format_front(printer: &mut Printer, levels: usize, lchar: bool)
    ensures { Goes printer.old printer.new
        (λ page at. front_events page.context lchar (read levels page.tree) at)
        (λ page at. front_end lchar (read levels page.tree) at) }
{
    if !lchar {
        expression::format_expression(printer, levels, true);
        return;
    }
    let expr = printer.at;
    record::skip(printer, levels, Class::LocatedExpression, true);
    leaf::format_leaf(printer, levels, leaf::CHARACTER);
    let behind = printer.at;
    printer.move_to(expr);
    expression::format_expression(printer, levels, true);
    printer.move_to(behind);
}

// The closing character, stored at `place`, and the register behind it, in the order of the addressing mode; only an
// indirect one prints the character.
fn format_end(
    printer: &mut Printer,
    levels: usize,
    mode: AddressingMode,
    rchar: bool,
    place: usize,
    suffix: bool,
)
    ensures { Goes printer.old printer.new
        (λ page at. end_events page.context mode rchar place suffix (read levels page.tree) at)
        (λ page at. cond suffix (read levels page.tree class.SuffixRecord at).end at) }
{
    match mode {
        AddressingMode::Indirect => {
            format_register_suffix(printer, levels, suffix);
            format_closing(printer, levels, rchar, place);
        }
        AddressingMode::OuterIndirect => {
            format_closing(printer, levels, rchar, place);
            format_register_suffix(printer, levels, suffix);
        }
        _ => format_register_suffix(printer, levels, suffix),
    }
}

// The closing character and the register; the addressing mode, which is stored between them, says in which order. It is
// a leaf, so its own bytes are all of it: read once, they give the mode and the place behind it.
fn format_tail(printer: &mut Printer, levels: usize, rchar: bool, suffix: bool)
    ensures { Goes printer.old printer.new
        (λ page at. tail_events page.context rchar suffix (read levels page.tree) at)
        (λ page at. tail_end rchar suffix (read levels page.tree) at) }
{
    let place = printer.at;
    record::skip(printer, levels, Class::Char, rchar);
    let tree = printer.tree;
    let Some(own) = record::open(printer, levels, Class::AddressingMode, true, false) else {
        return;
    };
    let mode = AddressingMode::of_text(&tree[own.text..own.end]);
    format_end(printer, levels, mode, rchar, place, suffix);
}

// An operand that may stand or not.
pub fn format_operand(printer: &mut Printer, levels: usize, stands: bool)
    ensures { let place = Trees.leaf plain in
        GoesField printer.old printer.new place true levels class.OperandRecord stands }
{
    let Some(own) = record::open(printer, levels, Class::OperandRecord, stands, true) else {
        return;
    };
    let bits = own.map / 2;
    format_front(printer, levels - 1, record::stands(bits, 1));
    format_tail(
        printer,
        levels - 1,
        record::stands(bits, 2),
        record::stands(bits, 4),
    );
}
