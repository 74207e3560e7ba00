// Strings: `Formattable for &InterpolatedString`.
ghost use Rattle.std.specs.Prelude.{true, false};
ghost use Rattle.tree.specs.Reading.{read};
ghost use Rattle.tree.specs.Tree.{chain};
ghost use Rattle.tree.specs.declared.grammar.Class.TheVariants as class;
ghost use Rattle.events.specs.Printed.{plain};
ghost use Rattle.events.specs.Trees as Trees;
ghost use Rattle.events.specs.Trees.{events_in};
ghost use Rattle.leaves.specs.Lists.{item_trees, items_end};
ghost use Rattle.printers.specs.Going.{Goes};
ghost use Rattle.printers.specs.Records.{GoesRecord, GoesField};

use printers::{Printer, leaf, record};
use tree::grammar::{Class, Kind};

// A string that may stand or not.
pub fn format_string(printer: &mut Printer, levels: usize, stands: bool)
    ensures { let place = Trees.leaf plain in
        GoesField printer.old printer.new place true levels class.StringRecord stands }
{
    let Some(_) = record::open(printer, levels, Class::StringRecord, stands, true) else {
        return;
    };
    leaf::format_leaf(printer, levels - 1, leaf::CHARACTER);
    format_string_items(printer, levels - 1);
    // The closing quote is this one whatever the opening quote was.
    printer.push(b"\"");
}

// The items of a string.
fn format_string_items(printer: &mut Printer, levels: usize)
    ensures { GoesRecord printer.old printer.new Trees.in_string true levels class.StringItems }
{
    let Some(own) = record::open(printer, levels, Class::StringItems, true, true) else {
        return;
    };
    format_each_item(printer, levels - 1, own.count);
}

// So many items of a string.
fn format_each_item(printer: &mut Printer, levels: usize, count: usize)
    ensures { Goes printer.old printer.new
        (λ page at.
        let reader = read levels page.tree in
        events_in page.context Trees.in_string true (chain (item_trees reader class.StringItem count at)))
        (λ page at. items_end (read levels page.tree) class.StringItem count at) }
{
    for _ in 0..count {
        if printer.ended.is_some() {
            return;
        }
        format_string_item(printer, levels);
    }
}

// An item of a string: a text, or a path in braces. Its trivia are not printed.
fn format_string_item(printer: &mut Printer, levels: usize)
    ensures { let place = Trees.leaf plain in
        GoesRecord printer.old printer.new place false levels class.StringItem }
{
    let tree = printer.tree;
    let Some(own) = record::open(printer, levels, Class::StringItem, true, false) else {
        return;
    };
    let text = &tree[own.text..own.end];
    if own.kind != Kind::PathItem {
        printer.push(text);
        return;
    }
    printer.push(b"{");
    printer.push(text);
    printer.push(b"}");
}
