// What the walk over a tree reads beside the records' own bytes: the place behind a record, a trivia item, and a
// token's head.
ghost use Rattle.std.specs.Prelude.{◌≡◌, ℕ, ◌<◌, get_or, Some, Ok};
ghost use Rattle.std.specs.Iterator.{YieldsFirst, item_count};
ghost use Rattle.tree.specs.Grammar.{kind_of, kind_number, rule, fields};
ghost use Rattle.tree.specs.Parts.{trivium_at, spans_at, trivia_left};
ghost use Rattle.tree.specs.Parts.{skipped, first_class, second_field, field_head, inner_head};
ghost use Rattle.tree.specs.Parts.{head_on, head_behind, head_at};
ghost use Rattle.tree.specs.Walk.{first_field};
ghost use Rattle.tree.specs.Parts.{numbers_skipped, read_numbers};
ghost use Rattle.tree.specs.Parts.{numbers_head, behind_numbers, head_numbers};

use crate::codes::Code;
use crate::grammar::{Class, Kind};
use crate::own::Own;
use crate::{check, grammar, own};
use answers::Refusal;

// A trivia item, by its code and the places of its text, which for a newline are both the place behind it.
#[derive(Clone, Copy, Debug, PartialEq, Eq)]
pub struct TriviumSpan {
    pub code: Code,
    pub start: usize,
    pub end: usize,
}

// A token's head: the record of a class at a place, where so many levels are left.
#[derive(Clone, Copy, Debug, PartialEq, Eq)]
pub struct Head {
    pub place: usize,
    pub class: Class,
    pub levels: usize,
}

// The place behind the record of a class, or the first refusal in it.
pub fn skip(tree: &[u8], at: usize, class: Class, levels: usize) -> Result<usize, Refusal>
    ensures answer { result ≡ skipped levels tree.now class at }
    ensures numbers { numbers_skipped result ≡ read_numbers levels tree.now class at }
{
    let (end, _) = check::read_record(tree, at, class, levels, 0)?;
    Ok(end)
}

// A trivia item.
pub fn trivium_at(tree: &[u8], at: usize) -> Option<TriviumSpan>
    ensures { result ≡ trivium_at tree.now at }
{
    let end = own::trivium_end(tree, at)?;
    let code = Code::of_byte(tree[at])?;
    let start = if let Code::Newline = code {
        end
    } else {
        at + 3
    };
    Some(TriviumSpan { code, start, end })
}

// Trivia items as the walk reads them: so many from a place on, up to one that breaks the layout.
#[derive(Clone, Copy, Debug, PartialEq, Eq)]
pub struct Trivia<'a> {
    tree: &'a [u8],
    at: usize,
    left: usize,
}

impl<'a> Trivia<'a> {
    pub fn new(tree: &'a [u8], at: usize, count: usize) -> Self
        ensures { trivia_left result ≡ spans_at tree.entry.now at count }
    {
        Trivia {
            tree,
            at,
            left: count,
        }
    }
}

impl<'a> Iterator for Trivia<'a> {
    type Item = TriviumSpan;

    ghost next_gives = { YieldsFirst trivia_left };

    ghost remaining = { item_count trivia_left };

    fn next(&mut self) -> Option<TriviumSpan> {
        if self.left == 0 {
            return None;
        }
        let Some(item) = trivium_at(self.tree, self.at) else {
            self.left = 0;
            return None;
        };
        self.at = item.end;
        self.left -= 1;
        Some(item)
    }
}

// The class of a record's first field.
fn first_class(class: Class, kind: Kind) -> Class
    ensures { result ≡ first_class class (fields kind (rule class).value) }
{
    let row = grammar::row_of(kind, grammar::rule_of(class).value);
    if row == 0 {
        return class;
    }
    check::slot_class(row % 128)
}

// The first field of a record whose own bytes were read, as a head.
fn first_field(class: Class, own: Own, levels: usize) -> Head
    requires { 0 < levels }
    ensures { result ≡ first_field levels class own }
{
    Head {
        place: own.end,
        class: first_class(class, own.kind),
        levels: levels - 1,
    }
}

// The field of a class behind the one of another class at a place.
fn behind_field(
    tree: &[u8],
    at: usize,
    first: Class,
    class: Class,
    levels: usize,
) -> Result<Head, Refusal>
    ensures { result ≡ second_field levels class (skipped levels tree.now first at) }
{
    let place = skip(tree, at, first, levels)?;
    Ok(Head {
        place,
        class,
        levels,
    })
}

// The head of a record among its own fields: the second for a `Data` and a binary expression, the first otherwise.
fn field_head(
    tree: &[u8],
    kind: Kind,
    class: Class,
    own: Own,
    levels: usize,
) -> Result<Head, Refusal>
    requires { 0 < levels }
    ensures { result ≡ field_head levels tree.now class (kind_number kind) own }
{
    let values = Class::ExpressionArguments;
    match kind {
        Kind::Data => behind_field(tree, own.end, values, Class::DataSize, levels - 1),
        Kind::BinaryExpression => {
            let left = Class::LocatedExpression;
            behind_field(tree, own.end, Class::BinaryOp, left, levels - 1)
        }
        _ => Ok(first_field(class, own, levels)),
    }
}

// The head of a record within a token.
fn inner_head(tree: &[u8], at: usize, class: Class, levels: usize) -> Result<Head, Refusal>
    ensures { result ≡ inner_head levels tree.now class at }
{
    let own = own::read_own(tree, at, class, levels)?;
    field_head(tree, own.kind, class, own, levels)
}

// The head of a token of a kind: of a block and of an expression that of what is in it.
fn token_head(
    tree: &[u8],
    kind: Kind,
    class: Class,
    own: Own,
    levels: usize,
) -> Result<Head, Refusal>
    requires { 0 < levels }
    ensures { (at : ℕ) → kind_of (get_or tree.now at 0) ≡ Some kind
        → result ≡ head_on levels tree.now class at (Ok own) }
{
    match kind {
        Kind::Braces | Kind::Config => inner_head(tree, own.end, Class::BlockRecord, levels - 1),
        Kind::Expression => inner_head(tree, own.end, Class::BareExpression, levels - 1),
        _ => field_head(tree, kind, class, own, levels),
    }
}

// The head of a token's record whose own bytes were read. A byte of no kind counts as one of those whose head is the
// first field.
pub fn head_behind(
    tree: &[u8],
    at: usize,
    class: Class,
    levels: usize,
    own: Own,
) -> Result<Head, Refusal>
    ensures answer { result ≡ head_behind levels tree.now class at own }
    ensures numbers { numbers_head result ≡ behind_numbers levels tree.now at own }
{
    if levels == 0 || tree.len() <= at {
        return Err(own::layout(at));
    }
    match Kind::of_byte(tree[at]) {
        Some(kind) => token_head(tree, kind, class, own, levels),
        None => Ok(first_field(class, own, levels)),
    }
}

// The head of a token's record.
pub fn head_place(tree: &[u8], at: usize, class: Class, levels: usize) -> Result<Head, Refusal>
    ensures answer { result ≡ head_at levels tree.now class at }
    ensures numbers { numbers_head result ≡ head_numbers levels tree.now class at }
{
    let own = own::read_own(tree, at, class, levels)?;
    head_behind(tree, at, class, levels, own)
}
