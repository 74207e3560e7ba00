// Expressions: `format_expression`, `format_expression_factor` and argument lists.
ghost use Rattle.std.specs.Prelude.{◌≡◌, true};
ghost use Rattle.tree.specs.Reading.{read};
ghost use Rattle.tree.specs.Tree.{chain};
ghost use Rattle.tree.specs.declared.grammar.Class.TheVariants as class;
ghost use Rattle.tree.specs.declared.grammar.Kind.TheVariants as kind;
ghost use Rattle.events.specs.Printed.{plain};
ghost use Rattle.events.specs.Trees as Trees;
ghost use Rattle.events.specs.Trees.{events_in};
ghost use Rattle.leaves.specs.Lists.{item_trees, items_end};
ghost use Rattle.printers.specs.Going.{Goes};
ghost use Rattle.printers.specs.Records.{GoesRecord, GoesNode};
ghost use Rattle.expressions.specs.Expressions.{expression_class, list_class, item_class, value_class, list_place, tag_events, tags_end};

use crate::{imports, strings};
use printers::{Printer, leaf, record};
use tree::grammar::{Class, Kind};

// Whose list of arguments it is.
#[derive(Clone, Copy)]
pub enum Arguments {
    Expressions,
    Identifiers,
    Imports,
}

impl Arguments {
    // The class of the whole list.
    fn list_class(self) -> Class
        ensures { result ≡ list_class self }
    {
        match self {
            Arguments::Expressions => Class::ExpressionArguments,
            Arguments::Identifiers => Class::IdentifierArguments,
            Arguments::Imports => Class::ImportArguments,
        }
    }

    // The class of an argument.
    fn item_class(self) -> Class
        ensures { result ≡ item_class self }
    {
        match self {
            Arguments::Expressions => Class::ExpressionArgument,
            Arguments::Identifiers => Class::IdentifierArgument,
            Arguments::Imports => Class::ImportArgument,
        }
    }
}

// The class of an expression.
fn expression_class(located: bool) -> Class
    ensures { result ≡ expression_class located }
{
    if located {
        return Class::LocatedExpression;
    }
    Class::BareExpression
}

// An expression that has trivia of its own, or that of an `Expression` token, which has none.
#[cycle(expression)]
pub fn format_expression(printer: &mut Printer, levels: usize, located: bool)
    ensures { let place = Trees.leaf plain in
        GoesRecord printer.old printer.new place true levels (expression_class located) }
{
    let Some(own) = record::open(printer, levels, expression_class(located), true, true) else {
        return;
    };
    match own.kind {
        Kind::BinaryExpression => format_binary_expression(printer, levels - 1),
        _ => format_factor(printer, levels - 1, own.map / 2),
    }
}

// The operator is stored before its left side and printed behind it.
#[cycle(expression)]
fn format_binary_expression(printer: &mut Printer, levels: usize)
    ensures { GoesNode printer.old printer.new kind.BinaryExpression 0 levels }
{
    let op = printer.at;
    record::skip(printer, levels, Class::BinaryOp, true);
    format_expression(printer, levels, true);
    let rhs = printer.at;
    printer.push(b" ");
    printer.move_to(op);
    leaf::format_leaf(printer, levels, leaf::OPERATOR);
    printer.push(b" ");
    printer.move_to(rhs);
    format_expression(printer, levels, true);
}

// The signs of a factor, which are stored behind it and printed before it.
fn format_tags(printer: &mut Printer, levels: usize, tag_not: bool, tag_neg: bool)
    ensures { Goes printer.old printer.new
        (λ page at. tag_events page.context tag_not tag_neg (read levels page.tree) at)
        (λ page at. tags_end tag_not tag_neg (read levels page.tree) at) }
{
    record::skip(printer, levels, Class::LocatedFactor, true);
    leaf::format_optional_leaf(printer, levels, leaf::CHARACTER, tag_not);
    leaf::format_optional_leaf(printer, levels, leaf::CHARACTER, tag_neg);
}

// A factor with its signs; it is skipped only where one stands.
#[cycle(expression)]
fn format_factor(printer: &mut Printer, levels: usize, bits: usize)
    ensures { GoesNode printer.old printer.new kind.Factor bits levels }
{
    let tag_not = record::stands(bits, 1);
    let tag_neg = record::stands(bits, 2);
    if !(tag_not || tag_neg) {
        format_expression_factor(printer, levels);
        return;
    }
    let factor = printer.at;
    format_tags(printer, levels, tag_not, tag_neg);
    let end = printer.at;
    printer.move_to(factor);
    format_expression_factor(printer, levels);
    printer.move_to(end);
}

// A factor by its case.
#[cycle(expression)]
fn format_expression_factor(printer: &mut Printer, levels: usize)
    ensures { let place = Trees.leaf plain in
        GoesRecord printer.old printer.new place true levels class.LocatedFactor }
{
    let Some(own) = record::open(printer, levels, Class::LocatedFactor, true, true) else {
        return;
    };
    let inner = levels - 1;
    match own.kind {
        Kind::ExprParens => format_parens(printer, inner),
        Kind::FunctionCall => format_call(printer, inner),
        Kind::IdentifierValue => format_identifier_value(printer, inner, own.map / 2),
        Kind::Number => format_number(printer, inner),
        Kind::StringFactor => strings::format_string(printer, inner, true),
        _ => leaf::format_leaf(printer, inner, leaf::CHARACTER),
    }
}

// An expression in parentheses.
#[cycle(expression)]
fn format_parens(printer: &mut Printer, levels: usize)
    ensures { GoesNode printer.old printer.new kind.ExprParens 0 levels }
{
    leaf::format_leaf(printer, levels, leaf::CHARACTER);
    format_expression(printer, levels, true);
    leaf::format_leaf(printer, levels, leaf::CHARACTER);
}

// A function's name with its arguments.
#[cycle(expression)]
fn format_call(printer: &mut Printer, levels: usize)
    ensures { GoesNode printer.old printer.new kind.FunctionCall 0 levels }
{
    leaf::format_leaf(printer, levels, leaf::WORD);
    leaf::format_leaf(printer, levels, leaf::CHARACTER);
    format_arguments(printer, levels, Arguments::Expressions);
    leaf::format_leaf(printer, levels, leaf::CHARACTER);
}

// A path; its modifier is stored behind it and printed before it.
fn format_identifier_value(printer: &mut Printer, levels: usize, bits: usize)
    ensures { GoesNode printer.old printer.new kind.IdentifierValue bits levels }
{
    if !record::stands(bits, 1) {
        leaf::format_leaf(printer, levels, leaf::WORD);
        return;
    }
    let path = printer.at;
    record::skip(printer, levels, Class::Word, true);
    leaf::format_leaf(printer, levels, leaf::MODIFIER);
    let end = printer.at;
    printer.move_to(path);
    leaf::format_leaf(printer, levels, leaf::WORD);
    printer.move_to(end);
}

// A number with the sign of its base.
fn format_number(printer: &mut Printer, levels: usize)
    ensures { GoesNode printer.old printer.new kind.Number 0 levels }
{
    leaf::format_leaf(printer, levels, leaf::NUMBER_TYPE);
    leaf::format_leaf(printer, levels, leaf::WORD);
}

// A list of arguments; those of an import may be a star instead.
#[cycle(expression)]
pub fn format_arguments(printer: &mut Printer, levels: usize, of: Arguments)
    ensures { GoesRecord printer.old printer.new (list_place of) true levels (list_class of) }
{
    let Some(own) = record::open(printer, levels, of.list_class(), true, true) else {
        return;
    };
    match own.kind {
        Kind::ImportAll => imports::format_import_all(printer, levels - 1, own.map / 2),
        _ => format_each_argument(printer, levels - 1, of, own.count),
    }
}

// So many arguments; no space is left pending behind the last.
#[cycle(expression)]
fn format_each_argument(printer: &mut Printer, levels: usize, of: Arguments, count: usize)
    ensures { Goes printer.old printer.new
        (λ page at.
        let reader = read levels page.tree in
        events_in page.context (list_place of) true (chain (item_trees reader (item_class of) count at)))
        (λ page at. items_end (read levels page.tree) (item_class of) count at) }
{
    for _ in 0..count {
        if printer.ended.is_some() {
            return;
        }
        format_argument(printer, levels, of);
    }
    printer.clear_spc_if_next();
}

// An argument with its comma, if it has one, and a space to come.
#[cycle(expression)]
fn format_argument(printer: &mut Printer, levels: usize, of: Arguments)
    ensures { GoesRecord printer.old printer.new (list_place of) true levels (item_class of) }
{
    let Some(own) = record::open(printer, levels, of.item_class(), true, true) else {
        return;
    };
    let comma = record::stands(own.map / 2, 1);
    format_value(printer, levels - 1, of);
    leaf::format_optional_leaf(printer, levels - 1, leaf::CHARACTER, comma);
    printer.spc_if_next();
}

// What an argument holds.
#[cycle(expression)]
fn format_value(printer: &mut Printer, levels: usize, of: Arguments)
    ensures { let shown = Trees.value_shown (list_place of) in
        GoesRecord printer.old printer.new (Trees.leaf plain) shown levels (value_class of) }
{
    match of {
        Arguments::Expressions => format_expression(printer, levels, true),
        Arguments::Identifiers => leaf::format_leaf(printer, levels, leaf::WORD),
        Arguments::Imports => imports::format_import_path(printer, levels),
    }
}
