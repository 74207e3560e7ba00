// What stands before a token of a list, and behind the last: trivia of its head, and the newline rule of
// `format_tokens`.
#![tactic(auto)]

ghost use Rattle.std.specs.Prelude.{◌≡◌};
ghost use Rattle.tree.specs.Reading.{read};
ghost use Rattle.tree.specs.declared.grammar.Class.TheVariants as class;
ghost use Rattle.tree.specs.Grammar.{kind_number};
ghost use Rattle.events.specs.Views.{block_bit};
ghost use Rattle.events.specs.Trees as Trees;
ghost use Rattle.leaves.specs.Items.{items_at};
ghost use Rattle.printers.specs.Going.{Goes, GoesExact};
ghost use Rattle.leads.specs.Leads.{before_of, before_said, BreaksAlike, token_read, LeadsIn};

use answers::Refusal;
use printers::{Printer, record, trivia};
use tree::grammar::{Class, Kind};
use tree::own::Own;
use tree::{own, parts};

// What stood before a token in its list: whether it is the first, and the number of the kind of the one before.
#[derive(Clone, Copy)]
pub struct Before {
    pub first: bool,
    pub previous: usize,
}

impl Before {
    // The same as the printers below ask for it: the kind of the one before, none before the first.
    pub fn stood(self) -> Option<Kind>
        ensures { BreaksAlike (before_said self) (before_of result) }
    {
        if self.first {
            return None;
        }
        Some(kind_before(self.previous))
    }
}

// A token whose lead-in was printed: its own bytes, and those of its head.
#[derive(Clone, Copy)]
pub struct Lead {
    pub token: Own,
    pub head: Own,
}

// The kind of a number. One of no kind is like an `Error`, which is of no group, before every token.
fn kind_before(number: usize) -> Kind
    ensures { BreaksAlike (Trees.behind number) (Trees.behind (kind_number result)) }
{
    if 255 < number {
        return Kind::Error;
    }
    match Kind::of_byte(number as u8) {
        Some(kind) => kind,
        None => Kind::Error,
    }
}

// Whether a newline stands between two tokens of the same kind.
fn after_same(kind: Kind, block: bool) -> bool
    ensures { result ≡ Trees.after_same (kind_number kind) block }
{
    match kind {
        Kind::Braces | Kind::Definition | Kind::If | Kind::Loop | Kind::Segment => true,
        Kind::Import | Kind::Label => block,
        _ => false,
    }
}

// Whether two kinds belong together, so that no newline stands between them.
fn grouped(previous: Kind, kind: Kind) -> bool
    ensures { result ≡ Trees.grouped (kind_number previous) (kind_number kind) }
{
    match kind {
        Kind::Assert | Kind::Trace => matches!(previous, Kind::Assert | Kind::Trace),
        Kind::Data | Kind::Text => matches!(previous, Kind::Data | Kind::Text),
        Kind::Instruction | Kind::MacroInvocation => {
            matches!(previous, Kind::Instruction | Kind::MacroInvocation)
        }
        _ => false,
    }
}

// Whether a newline stands between tokens of two kinds.
fn after_other(previous: Kind, kind: Kind, block: bool) -> bool
    ensures { result ≡ Trees.after_other (kind_number previous) (kind_number kind) block }
{
    if kind == Kind::Label {
        return block || matches!(previous, Kind::Braces | Kind::If);
    }
    !grouped(previous, kind)
}

// Whether a newline stands before a token; none before an `Error`.
fn breaks(previous: Kind, kind: Kind, block: bool) -> bool
    ensures { result ≡ Trees.breaks (kind_number previous) (kind_number kind) block }
{
    if kind == Kind::Error {
        return false;
    }
    if previous == kind {
        return after_same(kind, block);
    }
    after_other(previous, kind, block)
}

// The newline before a token, if one stands there; `stood` is the kind of the one before it in its list.
fn break_before(printer: &mut Printer, stood: Option<Kind>, kind: Kind, block: bool)
    ensures { GoesExact printer.old printer.new
        (λ page at. Trees.break_before page.context (before_of stood) (kind_number kind) block)
        (λ page at. at) }
{
    let Some(previous) = stood else {
        return;
    };
    if breaks(previous, kind, block) {
        printer.push(b"\n");
    }
}

// Whether a token is an `Import` or a `Label` with a block.
fn has_block(kind: Kind, bits: usize) -> bool
    ensures { result ≡ block_bit (kind_number kind) bits }
{
    match kind {
        Kind::Import => record::stands(bits, 4),
        Kind::Label => record::stands(bits, 2),
        _ => false,
    }
}

// The trivia of a record in a list, without the newlines first in it where these are dropped.
fn list_trivia(printer: &mut Printer, own: Own, drops: bool)
    ensures { GoesExact printer.old printer.new
        (λ page at.
        let items = items_at page.tree own.trivia own.trivia_count in
        Trees.list_trivia page.context drops items)
        (λ page at. at) }
{
    if drops {
        trivia::format_lead(printer, own.trivia, own.trivia_count);
    } else {
        trivia::format_trivia(printer, own.trivia, own.trivia_count);
    }
}

// The own bytes of a token at a place, and those of its head.
fn read_token(tree: &[u8], at: usize, levels: usize) -> Result<Lead, Refusal>
    ensures { result ≡ token_read levels tree.now at }
{
    let token = own::read_own(tree, at, Class::BareToken, levels)?;
    let head = parts::head_behind(tree, at, Class::BareToken, levels, token)?;
    let head = own::read_own(tree, head.place, head.class, head.levels)?;
    Ok(Lead { token, head })
}

// What stands before a token: the trivia of its head, then a newline by the rule. What is read of the token on the way
// is handed on, and the walk goes on behind the token's own bytes; none where it has ended.
pub fn format_lead_in(
    printer: &mut Printer,
    levels: usize,
    drops: bool,
    stood: Option<Kind>,
) -> Option<Lead>
    ensures { LeadsIn printer.old printer.new drops (before_of stood) levels result }
{
    if printer.ended.is_some() {
        return None;
    }
    match read_token(printer.tree, printer.at, levels) {
        Ok(lead) => {
            let token = lead.token;
            list_trivia(printer, lead.head, drops);
            break_before(
                printer,
                stood,
                token.kind,
                has_block(token.kind, token.map / 2),
            );
            printer.move_to(token.end);
            Some(lead)
        }
        Err(refusal) => {
            printer.ended = Some(refusal);
            None
        }
    }
}

// What stands behind the last token of a block: the trivia of its `}`, and a newline as before an end.
pub fn format_lead_out(printer: &mut Printer, levels: usize, drops: bool, stood: Option<Kind>)
    ensures { Goes printer.old printer.new
        (λ page at.
        let closing = Trees.block_end (read levels page.tree class.CloseBrace at).tree in
        Trees.closing_events page.context drops (before_of stood) closing)
        (λ page at. at) }
{
    if printer.ended.is_some() {
        return;
    }
    match own::read_own(printer.tree, printer.at, Class::CloseBrace, levels) {
        Ok(own) => {
            list_trivia(printer, own, drops);
            break_before(printer, stood, Kind::Eof, false);
        }
        Err(refusal) => printer.ended = Some(refusal),
    }
}
