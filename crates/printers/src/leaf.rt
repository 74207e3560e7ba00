// Leaves: their trivia where they are shown, and their text by its style.
ghost use Rattle.std.specs.Prelude.{◌≤◌, length, cond, true};
ghost use Rattle.std.proofs.Math.Seq.{slice};
ghost use Rattle.printing.specs.Events.{nothing, ◌▹◌};
ghost use Rattle.events.specs.Printed.{printed};
ghost use Rattle.events.specs.Trees as Trees;
ghost use Rattle.events.specs.Trees.{word, trivia_events};
ghost use Rattle.leaves.specs.Items.{items_at};
ghost use Rattle.leaves.specs.Leaves.{LeafClass};
ghost use Rattle.printers.specs.Going.{Goes};
ghost use Rattle.printers.specs.Records.{GoesOwn, GoesRecord, GoesField};
ghost use Rattle.printers.specs.Texts.{style_of};

use crate::texts::Style;
use crate::{Printer, texts, trivia};
use tree::grammar::Class;
use tree::own;
use tree::own::Own;

// How the records of a class of leaves print: in a style, with their trivia or without. The leaves by name stand below.
#[derive(Clone, Copy)]
pub struct Leaf {
    pub class: Class,
    pub style: Style,
    pub shown: bool,
}

pub const WORD: Leaf = Leaf {
    class: Class::Word,
    style: Style::Plain,
    shown: true,
};

pub const CHARACTER: Leaf = Leaf {
    class: Class::Char,
    style: Style::Plain,
    shown: true,
};

pub const REGISTER: Leaf = Leaf {
    class: Class::IndexRegister,
    style: Style::Register,
    shown: true,
};

pub const OPERATOR: Leaf = Leaf {
    class: Class::BinaryOp,
    style: Style::Operator,
    shown: true,
};

pub const MODIFIER: Leaf = Leaf {
    class: Class::AddressModifier,
    style: Style::Modifier,
    shown: true,
};

pub const NUMBER_TYPE: Leaf = Leaf {
    class: Class::NumberType,
    style: Style::NumberType,
    shown: true,
};

pub const ENCODING: Leaf = Leaf {
    class: Class::TextEncoding,
    style: Style::Encoding,
    shown: true,
};

// The head of a token is printed without its trivia, since what stands before a token in its list prints them (crate
// `leads`).
pub const BARE_WORD: Leaf = Leaf {
    class: Class::Word,
    style: Style::Plain,
    shown: false,
};

pub const BARE_CHARACTER: Leaf = Leaf {
    class: Class::Char,
    style: Style::Plain,
    shown: false,
};

pub const MNEMONIC: Leaf = Leaf {
    class: Class::Mnemonic,
    style: Style::Mnemonic,
    shown: false,
};

pub const DATA_SIZE: Leaf = Leaf {
    class: Class::DataSize,
    style: Style::DataSize,
    shown: false,
};

pub const VARIABLE_TYPE: Leaf = Leaf {
    class: Class::VariableType,
    style: Style::VariableType,
    shown: false,
};

// So are the braces of a block: the end of its list has printed those of the closing one.
pub const OPEN_BRACE: Leaf = Leaf {
    class: Class::OpenBrace,
    style: Style::Plain,
    shown: false,
};

pub const CLOSE_BRACE: Leaf = Leaf {
    class: Class::CloseBrace,
    style: Style::Plain,
    shown: false,
};

// The chunks of a record's own bytes.
fn format_own(printer: &mut Printer, own: Own, style: Style, shown: bool)
    requires { (own.text ≤ own.end) × (own.end ≤ length printer.old.tree.now) }
    ensures { Goes printer.old printer.new
        (λ page at.
        let items = items_at page.tree own.trivia own.trivia_count in
        let text = slice own.text own.end page.tree in
        cond shown (trivia_events page.context items) nothing
        ▹ word page.context (printed page.context (style_of style) text))
        (λ page at. own.end) }
{
    let tree = printer.tree;
    trivia::shown_trivia(printer, own, shown);
    texts::push_text(printer, style, &tree[own.text..own.end]);
    printer.move_to(own.end);
}

// A leaf where the walk is. Of a record of any other class its trivia and its text, if it has one, are printed too, and
// the walk goes on behind its own bytes.
pub fn format_leaf(printer: &mut Printer, levels: usize, leaf: Leaf)
    ensures own { let style = style_of leaf.style in
        GoesOwn printer.old printer.new style leaf.shown levels leaf.class true }
    ensures leaf { let place = Trees.leaf (style_of leaf.style) in
        (LeafClass leaf.class
        → GoesRecord printer.old printer.new place leaf.shown levels leaf.class) }
{
    if printer.ended.is_some() {
        return;
    }
    match own::read_own(printer.tree, printer.at, leaf.class, levels) {
        Ok(own) => format_own(printer, own, leaf.style, leaf.shown),
        Err(refusal) => printer.ended = Some(refusal),
    }
}

// A leaf that may stand or not: where it does not, nothing is printed.
pub fn format_optional_leaf(printer: &mut Printer, levels: usize, leaf: Leaf, stands: bool)
    ensures own { let style = style_of leaf.style in
        GoesOwn printer.old printer.new style leaf.shown levels leaf.class stands }
    ensures leaf { let place = Trees.leaf (style_of leaf.style) in
        (LeafClass leaf.class
        → GoesField printer.old printer.new place leaf.shown levels leaf.class stands) }
{
    if stands {
        format_leaf(printer, levels, leaf);
    }
}
