// What tokens print before the block or the token inside them.
ghost use Rattle.std.specs.Prelude.{◌≡◌, ℕ, ◌≤◌, length, Ok};
ghost use Rattle.tree.specs.Own.{read_own};
ghost use Rattle.tree.specs.Reading.{read};
ghost use Rattle.tree.specs.declared.grammar.Class.TheVariants as class;
ghost use Rattle.tree.specs.declared.grammar.Kind.TheVariants as kind;
ghost use Rattle.printers.specs.Going.{Goes};
ghost use Rattle.tokens.specs.Fronts.{behind_name, named_events, label_events, label_end, GoesFront};

use crate::plain;
use chunks::stored::ChunkType;
use expressions::expression::Arguments;
use expressions::{expression, strings};
use printers::{Printer, leaf, record};
use tree::grammar::{Class, Kind};
use tree::own::Own;

// A key and its sign.
fn config_pair_front(printer: &mut Printer, levels: usize)
    ensures { GoesFront printer.old printer.new kind.ConfigPair levels }
{
    leaf::format_leaf(printer, levels, leaf::BARE_WORD);
    printer.push(b" ");
    leaf::format_leaf(printer, levels, leaf::CHARACTER);
    printer.push(b" ");
}

// A tag and a name.
fn definition_front(printer: &mut Printer, levels: usize)
    ensures { GoesFront printer.old printer.new kind.Definition levels }
{
    tag_and_name(printer, levels);
    printer.push(b" ");
}

// What is imported, and from where; the space stays pending where there is no block.
fn import_front(printer: &mut Printer, levels: usize)
    ensures { GoesFront printer.old printer.new kind.Import levels }
{
    leaf::format_leaf(printer, levels, leaf::BARE_WORD);
    printer.push(b" ");
    expression::format_arguments(printer, levels, Arguments::Imports);
    printer.push(b" ");
    leaf::format_leaf(printer, levels, leaf::WORD);
    printer.push(b" ");
    strings::format_string(printer, levels, true);
    printer.spc_if_next();
}

// A `Label` of a list, whose lead-in has read the own bytes of its id, without its block. The id and the colon are one
// chunk, so the stored colon is skipped.
pub(crate) fn format_listed_label(printer: &mut Printer, levels: usize, id: Own)
    requires { (id.text ≤ id.end) × (id.end ≤ length printer.old.tree.now) }
    ensures { (place : ℕ) → read_own printer.old.tree.now place class.Word levels ≡ Ok id
        → Goes printer.old printer.new
        (λ page at. label_events page.context (read levels page.tree) place)
        (λ page at. label_end (read levels page.tree) place) }
{
    let tree = printer.tree;
    printer.push_type(ChunkType::Label, &tree[id.text..id.end], true);
    printer.move_to(id.end);
    record::skip(printer, levels, Class::Colon, true);
}

// The same inside a token, where no lead-in has read the id.
fn label_front(printer: &mut Printer, levels: usize)
    ensures { GoesFront printer.old printer.new kind.Label levels }
{
    let Some(id) = record::open(printer, levels, Class::Word, true, false) else {
        return;
    };
    format_listed_label(printer, levels, id);
}

// A tag and a name.
fn tag_and_name(printer: &mut Printer, levels: usize)
    ensures { Goes printer.old printer.new
        (λ page at. named_events page.context (read levels page.tree) at)
        (λ page at. behind_name (read levels page.tree) at) }
{
    leaf::format_leaf(printer, levels, leaf::BARE_WORD);
    printer.push(b" ");
    leaf::format_leaf(printer, levels, leaf::WORD);
}

// A macro with its arguments.
fn macro_definition_front(printer: &mut Printer, levels: usize)
    ensures { GoesFront printer.old printer.new kind.MacroDefinition levels }
{
    tag_and_name(printer, levels);
    leaf::format_leaf(printer, levels, leaf::CHARACTER);
    expression::format_arguments(printer, levels, Arguments::Identifiers);
    leaf::format_leaf(printer, levels, leaf::CHARACTER);
    printer.spc_if_next();
}

// A tag and an expression, of an `If`, a `Loop` or a `Segment`.
fn tagged_front(printer: &mut Printer, levels: usize)
    ensures { GoesFront printer.old printer.new kind.Loop levels }
{
    plain::format_tagged(printer, levels);
    printer.push(b" ");
}

// A tag and a test's name.
fn test_front(printer: &mut Printer, levels: usize)
    ensures { GoesFront printer.old printer.new kind.Test levels }
{
    leaf::format_leaf(printer, levels, leaf::BARE_WORD);
    printer.spc_if_next();
    expression::format_expression(printer, levels, true);
    printer.spc_if_next();
}

// What a token prints before the block or the token inside it; nothing before that of a brace or a configuration.
pub(crate) fn format_token_front(printer: &mut Printer, levels: usize, kind: Kind)
    ensures { GoesFront printer.old printer.new kind levels }
{
    match kind {
        Kind::ConfigPair => config_pair_front(printer, levels),
        Kind::Definition => definition_front(printer, levels),
        Kind::If | Kind::Loop | Kind::Segment => tagged_front(printer, levels),
        Kind::Import => import_front(printer, levels),
        Kind::Label => label_front(printer, levels),
        Kind::MacroDefinition => macro_definition_front(printer, levels),
        Kind::Test => test_front(printer, levels),
        _ => {}
    }
}
