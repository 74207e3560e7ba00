// The walk: a token opens a block, a block opens a token list, and a list returns to tokens.
ghost use Rattle.std.specs.Prelude.{◌≡◌, true, false, ◌-◌, ◌<◌, ◌≤◌};
ghost use Rattle.tree.specs.Kinds as kinds;
ghost use Rattle.tree.specs.Reading.{read};
ghost use Rattle.tree.specs.declared.grammar.Class.TheVariants as class;
ghost use Rattle.tree.specs.Grammar.{kind_number};
ghost use Rattle.events.specs.Printed.{plain};
ghost use Rattle.events.specs.Trees as Trees;
ghost use Rattle.events.specs.Trees.{events_in};
ghost use Rattle.leaves.specs.Lists.{items_end};
ghost use Rattle.printers.specs.Going.{Goes};
ghost use Rattle.printers.specs.Records.{GoesField, GoesNode};
ghost use Rattle.leads.specs.Leads.{before_of};
ghost use Rattle.tokens.specs.Inner.{inner_of, TokenClass, Ends, Narrow, else_front, branch_events, branches_end};
ghost use Rattle.tokens.specs.Inner.{dropping, GoesListed, KindIs};
ghost use Rattle.tokens.specs.Tokens.{GoesTokens, each_events};

use crate::{fronts, plain};
use options::BracePosition;
use printers::{Printer, leaf, record};
use printing::Context;
use tree::grammar::{Class, Kind};

// What stands inside a token.
#[derive(Clone, Copy)]
pub enum Inner {
    Block { stands: bool },
    Token { stands: bool, class: Class },
    Branches { other: bool },
}

// What stands inside a token, by its kind: a block, a token, two branches, or nothing of these.
fn inner_of(kind: Kind, bits: usize) -> Option<Inner>
    ensures { result ≡ inner_of kind bits }
{
    let inner = match kind {
        Kind::ConfigPair => Inner::Token {
            stands: true,
            class: Class::LocatedToken,
        },
        Kind::Definition => Inner::Token {
            stands: record::stands(bits, 2),
            class: Class::BareToken,
        },
        Kind::If => Inner::Branches {
            other: record::stands(bits, 3),
        },
        Kind::Import => Inner::Block {
            stands: record::stands(bits, 4),
        },
        Kind::Label | Kind::Segment => Inner::Block {
            stands: record::stands(bits, 2),
        },
        Kind::Braces | Kind::Config | Kind::Loop | Kind::MacroDefinition | Kind::Test => {
            Inner::Block { stands: true }
        }
        _ => return None,
    };
    Some(inner)
}

// The context inside a block.
fn deeper(context: Context) -> Context
    requires { (context.options.whitespace.indent ≤ 64) × (context.indent ≤ 4096) }
    ensures { result ≡ Trees.deeper context }
{
    Context {
        options: context.options,
        indent: context.indent + context.options.whitespace.indent,
    }
}

// The opening brace, on the same line or on a new one.
fn open_block(printer: &mut Printer, levels: usize)
    ensures { Goes printer.old printer.new
        (λ page at.
        let brace = events_in page.context (Trees.leaf plain) false (read levels page.tree class.OpenBrace at).tree in
        Trees.opening page.context page.context.options.braces.position brace)
        (λ page at. (read levels page.tree class.OpenBrace at).end) }
{
    if let BracePosition::NewLine = printer.context.options.braces.position {
        printer.push(b"\n");
    }
    leaf::format_leaf(printer, levels, leaf::OPEN_BRACE);
    printer.push(b"\n");
}

// What stands between the branches of an `If`.
fn format_else(printer: &mut Printer, levels: usize)
    ensures { Goes printer.old printer.new
        (λ page at.
        let tag = events_in page.context (Trees.leaf plain) true (read levels page.tree class.Word at).tree in
        else_front page.context page.context.options.braces.position tag)
        (λ page at. (read levels page.tree class.Word at).end) }
{
    match printer.context.options.braces.position {
        BracePosition::SameLine => {
            printer.push(b" ");
            leaf::format_leaf(printer, levels, leaf::WORD);
            printer.push(b" ");
        }
        BracePosition::NewLine => {
            printer.push(b"\n");
            leaf::format_leaf(printer, levels, leaf::WORD);
        }
    }
}

// A token, by its kind: what it prints before the block or the token inside it, and that.
#[cycle(token)]
fn format_token(printer: &mut Printer, levels: usize, stands: bool, class: Class)
    requires narrow { Narrow printer.old.context levels }
    requires token { TokenClass class }
    ensures { let place = Trees.leaf plain in
        GoesField printer.old printer.new place true levels class stands }
{
    let Some(own) = record::open(printer, levels, class, stands, true) else {
        return;
    };
    format_inner(printer, levels - 1, own.kind, own.map / 2);
}

// A token of a list, and what stands before it; its kind, or none where the walk ended before it. What the lead-in has
// read is not read again: the token's own bytes, and those of its head where that is the mnemonic of an `Instruction`,
// the size of a `Data` or the id of a `Label`.
#[cycle(token)]
fn format_listed_token(
    printer: &mut Printer,
    levels: usize,
    drops: bool,
    before: Option<Kind>,
) -> Option<Kind>
    requires { Narrow printer.old.context levels }
    ensures goes { GoesListed printer.old printer.new drops (before_of before) levels }
    ensures kind { KindIs printer.old printer.new levels result }
{
    let lead = leads::format_lead_in(printer, levels, drops, before)?;
    let kind = lead.token.kind;
    let bits = lead.token.map / 2;
    let below = levels - 1;
    match kind {
        Kind::Instruction => {
            plain::format_listed_instruction(printer, below, bits, lead.head);
        }
        Kind::Data => plain::format_listed_data(printer, below, lead.head),
        Kind::Label => {
            fronts::format_listed_label(printer, below, lead.head);
            format_block(printer, below, record::stands(bits, 2));
        }
        _ => format_inner(printer, below, kind, bits),
    }
    Some(kind)
}

// A token whose own bytes were read: what it prints before the block or the token inside it, and that.
#[cycle(token)]
fn format_inner(printer: &mut Printer, levels: usize, kind: Kind, bits: usize)
    requires narrow { Narrow printer.old.context levels }
    requires ends { Ends kind bits }
    ensures { kind_number kind ≤ kinds.variable_definition
        → GoesNode printer.old printer.new kind bits levels }
{
    let Some(inner) = inner_of(kind, bits) else {
        plain::format_plain_token(printer, levels, kind, bits);
        return;
    };
    fronts::format_token_front(printer, levels, kind);
    match inner {
        Inner::Block { stands } => format_block(printer, levels, stands),
        Inner::Token { stands, class } => format_token(printer, levels, stands, class),
        Inner::Branches { other } => format_branches(printer, levels, other),
    }
}

// The branches of an `If`.
#[cycle(token)]
fn format_branches(printer: &mut Printer, levels: usize, other: bool)
    requires { Narrow printer.old.context levels }
    ensures { Goes printer.old printer.new
        (λ page at. branch_events page.context other (read levels page.tree) at)
        (λ page at. branches_end other (read levels page.tree) at) }
{
    format_block(printer, levels, true);
    if other {
        format_else(printer, levels);
        format_block(printer, levels, true);
    }
}

// A block that may stand or not: its list has exactly one newline behind it, and stands further in.
#[cycle(token)]
fn format_block(printer: &mut Printer, levels: usize, stands: bool)
    requires { Narrow printer.old.context levels }
    ensures { let place = Trees.leaf plain in
        GoesField printer.old printer.new place true levels class.BlockRecord stands }
{
    let Some(_) = record::open(printer, levels, Class::BlockRecord, stands, true) else {
        return;
    };
    open_block(printer, levels - 1);
    let context = printer.context;
    printer.context = deeper(context);
    format_tokens(printer, levels - 1, true);
    printer.context = context;
    printer.trim_newlines();
    printer.push(b"\n");
    leaf::format_leaf(printer, levels - 1, leaf::CLOSE_BRACE);
}

// Whether the newlines first in a list are dropped: those of a block, before its first token.
fn drops_newlines(block: bool, before: Option<Kind>) -> bool
    ensures { result ≡ dropping block before }
{
    block && before.is_none()
}

// A token list: the file's, or that of a block, whose first newlines are dropped and whose `}` stands for an end.
#[cycle(token)]
pub(crate) fn format_tokens(printer: &mut Printer, levels: usize, block: bool)
    requires { Narrow printer.old.context levels }
    ensures { GoesTokens printer.old printer.new block levels }
{
    let Some(own) = record::open(printer, levels, Class::Tokens, true, true) else {
        return;
    };
    format_each_token(printer, levels, block, own.count);
}

// So many tokens, and the end of their list; `levels` are those of the list.
#[cycle(token)]
fn format_each_token(printer: &mut Printer, levels: usize, block: bool, count: usize)
    requires narrow { Narrow printer.old.context levels }
    requires levels_nonzero { 0 < levels }
    ensures { Goes printer.old printer.new
        (λ page at. each_events page.context block levels page.tree count at)
        (λ page at. items_end (read (levels - 1) page.tree) class.BareToken count at) }
{
    let mut before = None;
    for _ in 0..count {
        before = format_listed_token(printer, levels - 1, drops_newlines(block, before), before);
        if before.is_none() {
            return;
        }
    }
    if block {
        leads::format_lead_out(printer, levels, drops_newlines(block, before), before);
    }
}
