// Trivia: a newline and a comment are a chunk each, whitespace is none.
ghost use Rattle.std.specs.Prelude.{◌≡◌, ◌≤◌, length, cond};
ghost use Rattle.printing.specs.Events.{nothing};
ghost use Rattle.events.specs.Trees.{trivium_events, only_newline, trivia_events, lead_events};
ghost use Rattle.leaves.specs.Items.{item_of, items_at};
ghost use Rattle.printers.specs.Going.{GoesExact};

use crate::Printer;
use chunks::stored::ChunkType;
use text::characters;
use tree::codes::Code;
use tree::own::Own;
use tree::parts::{Trivia, TriviumSpan};

// The chunk of an item.
fn format_trivium(printer: &mut Printer, item: TriviumSpan)
    requires { (item.start ≤ item.end) × (item.end ≤ length printer.old.tree.now) }
    ensures { GoesExact printer.old printer.new
        (λ page at. trivium_events page.context (item_of page.tree item))
        (λ page at. at) }
{
    match item.code {
        Code::Whitespace => {}
        Code::Newline => printer.push(b"\n"),
        Code::CStyle | Code::CppStyle => {
            let tree = printer.tree;
            printer.push_type(ChunkType::Comment, &tree[item.start..item.end], false);
        }
    }
}

// The chunks of `count` items at a place; they end before an item that breaks the layout.
pub fn format_trivia(printer: &mut Printer, at: usize, count: usize)
    ensures { GoesExact printer.old printer.new
        (λ page here. trivia_events page.context (items_at page.tree at count))
        (λ page here. here) }
{
    for item in Trivia::new(printer.tree, at, count) {
        format_trivium(printer, item);
    }
}

// Whether an item's chunk, if it has one, is exactly a newline.
fn only_newline(tree: &[u8], item: TriviumSpan) -> bool
    requires { (item.start ≤ item.end) × (item.end ≤ length tree.now) }
    ensures { result ≡ only_newline (item_of tree.now item) }
{
    match item.code {
        Code::Whitespace | Code::Newline => true,
        Code::CStyle | Code::CppStyle => {
            let text = &tree[item.start..item.end];
            text.is_empty() || crate::is_newline(text)
        }
    }
}

// The chunks of `count` items at a place without the newlines before any other.
pub fn format_lead(printer: &mut Printer, at: usize, count: usize)
    ensures { GoesExact printer.old printer.new
        (λ page here. lead_events page.context (items_at page.tree at count))
        (λ page here. here) }
{
    let mut first = true;
    for item in Trivia::new(printer.tree, at, count) {
        if first && only_newline(printer.tree, item) {
            continue;
        }
        first = false;
        format_trivium(printer, item);
    }
}

// The chunks of a record's trivia, which may be shown or not. Most records have none: they are not worth a call.
pub(crate) fn shown_trivia(printer: &mut Printer, own: Own, shown: bool)
    ensures { GoesExact printer.old printer.new
        (λ page here.
        let items = items_at page.tree own.trivia own.trivia_count in
        cond shown (trivia_events page.context items) nothing)
        (λ page here. here) }
{
    if shown && 0 < own.trivia_count {
        format_trivia(printer, own.trivia, own.trivia_count);
    }
}
