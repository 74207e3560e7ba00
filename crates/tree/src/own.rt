// A record's own bytes: kind, map, trivia, and a list's count or a leaf's text.
ghost use Rattle.std.specs.Prelude.{◌≡◌, ℕ, ◌<◌, get_or, length, IfSome, Some, Ok};
ghost use Rattle.tree.specs.Grammar.{fields, kind_of, kind_number};
ghost use Rattle.tree.specs.Own.{sized_end, trivium_end, trivia_end, fields_fit, text_fits, else_fits, trivia_fits};
ghost use Rattle.tree.specs.Own.{map_fits, may_stand, trivia_read, text_end, layout, rest_of, own_at, read_own};
ghost use Rattle.tree.specs.Own.{Fits, numbers_own, own_numbers};
ghost use Rattle.tree.specs.Walk.{rest_on, judged_on, first_bytes, found_on};

use crate::codes::Code;
use crate::grammar;
use crate::grammar::{Class, Kind, Rule, TextRule};
use answers::{Reason, Refusal};
use text::numbers;

// The kind byte of a leaf.
const LEAF: u8 = Kind::Leaf as u8;

// A record's own bytes, by their places: `trivia` is the place of its first trivia item, of which there are
// `trivia_count`; its text is the bytes from `text` to `end`, behind which its fields or items begin; `count` says how
// many items a list has.
#[derive(Clone, Copy, Debug, PartialEq, Eq)]
pub struct Own {
    pub kind: Kind,
    pub map: usize,
    pub trivia: usize,
    pub trivia_count: usize,
    pub text: usize,
    pub end: usize,
    pub count: usize,
}

// A length of two bytes and as many bytes: the place behind them.
#[tactic(auto, unfolding(crate::specs::Own::sized_end))]
pub(crate) fn sized_end(tree: &[u8], at: usize) -> Option<usize>
    ensures { result ≡ sized_end tree.now at }
{
    let count = numbers::read_number(tree, at)?;
    let start = at + 2;
    if tree.len() - start < count {
        return None;
    }
    Some(start + count)
}

// A trivia item: a code, and bytes unless it is a newline.
pub(crate) fn trivium_end(tree: &[u8], at: usize) -> Option<usize>
    ensures { result ≡ trivium_end tree.now at }
{
    if tree.len() <= at {
        return None;
    }
    match Code::of_byte(tree[at])? {
        Code::Newline => Some(at + 1),
        _ => sized_end(tree, at + 1),
    }
}

// `count` trivia items.
pub(crate) fn trivia_end(tree: &[u8], at: usize, count: usize) -> Option<usize>
    ensures { result ≡ trivia_end tree.now at count }
{
    let mut place = at;
    for _ in 0..count {
        place = trivium_end(tree, place)?;
    }
    Some(place)
}

// Whether the fields' bits stand where a kind's fields must and may, and nowhere else.
fn fields_fit(kind: Kind, bits: usize) -> bool
    requires { bits < 128 }
    ensures { (value : Class) → result ≡ fields_fit (fields kind value) bits }
{
    let maps = grammar::maps_of(kind);
    bits < 64 && (maps >> bits) % 2 == 1
}

// Whether the text's bits are right for a leaf.
fn text_fits(rule: TextRule, bits: usize) -> bool
    ensures { result ≡ text_fits rule bits }
{
    match rule {
        TextRule::NoText => bits == 0,
        TextRule::Free => bits < 2,
        TextRule::Byte(_, _) => bits == 1,
    }
}

// Whether the two fields of an else stand together or not at all.
fn else_fits(kind: Kind, bits: usize) -> bool
    ensures { result ≡ else_fits (kind_number kind) bits }
{
    match kind {
        Kind::If => bits / 8 % 2 == bits / 16 % 2,
        _ => true,
    }
}

// Whether trivia stand only where they may.
fn trivia_fits(rule: Rule, kind: Kind, map: usize) -> bool
    ensures { result ≡ trivia_fits rule (kind_number kind) map }
{
    map % 2 == 0 || rule.located || matches!(kind, Kind::PathItem)
}

// Whether a map is right for a record.
fn map_fits(rule: Rule, kind: Kind, map: usize) -> bool
    requires { map < 256 }
    ensures { result ≡ map_fits rule (kind_number kind) kind map }
{
    let bits = map / 2;
    if let Kind::Vec = kind {
        return map == 0;
    }
    if !trivia_fits(rule, kind, map) {
        return false;
    }
    match kind {
        Kind::Leaf | Kind::PathItem => text_fits(rule.text, bits),
        _ => else_fits(kind, bits) && fields_fit(kind, bits),
    }
}

// Whether a kind may stand.
fn may_stand(rule: Rule, kind: Kind) -> bool
    ensures { result ≡ may_stand rule (kind_number kind) }
{
    match kind {
        Kind::Vec => rule.items.is_some(),
        _ => rule.first.number() <= kind.number() && kind.number() <= rule.last.number(),
    }
}

// Trivia: the place of the first item, how many there are, and the place behind them.
#[derive(Clone, Copy, Debug, PartialEq, Eq)]
pub struct TriviaSpan {
    pub first: usize,
    pub count: usize,
    pub end: usize,
}

// The trivia behind a map, where its bit stands.
#[tactic(auto, unfolding(crate::specs::Own::trivia_read))]
fn read_trivia(tree: &[u8], at: usize, bit: usize) -> Option<TriviaSpan>
    ensures { result ≡ trivia_read tree.now at bit }
{
    if bit == 0 {
        return Some(TriviaSpan {
            first: at,
            count: 0,
            end: at,
        });
    }
    let count = numbers::read_number(tree, at)?;
    if count == 0 {
        return None;
    }
    let first = at + 2;
    let end = trivia_end(tree, first, count)?;
    Some(TriviaSpan { first, count, end })
}

// A leaf's text that stands: its length and its bytes; the place behind them.
fn text_end(tree: &[u8], at: usize, rule: TextRule) -> Option<usize>
    ensures { result ≡ text_end tree.now at rule }
{
    let end = sized_end(tree, at)?;
    rule.allows(&tree[at + 2..end]).then_some(end)
}

// What stands behind the trivia: the place of the text, the place behind it, and a list's count.
#[derive(Clone, Copy, Debug, PartialEq, Eq)]
pub(crate) struct Rest {
    pub text: usize,
    pub end: usize,
    pub count: usize,
}

// What stands behind the trivia: a list's count, a leaf's text, or nothing more.
fn read_rest(
    tree: &[u8],
    text: TextRule,
    kind: Kind,
    map: usize,
    trivia: TriviaSpan,
) -> Option<Rest>
    ensures { (at : ℕ) → rest_on at kind map trivia result
        ≡ rest_of tree.now at text (kind_number kind) kind map trivia }
{
    let behind = trivia.end;
    let nothing = Rest {
        text: behind,
        end: behind,
        count: 0,
    };
    match kind {
        Kind::Vec => {
            let count = numbers::read_number(tree, behind)?;
            Some(Rest {
                text: behind + 2,
                end: behind + 2,
                count,
            })
        }
        Kind::Leaf | Kind::PathItem => {
            if map < 2 {
                return Some(nothing);
            }
            let end = text_end(tree, behind, text)?;
            Some(Rest {
                text: behind + 2,
                end,
                count: 0,
            })
        }
        _ => Some(nothing),
    }
}

// A record's first two bytes. They are judged in a function of their own, so that the reading behind them is compiled
// as one.
fn judge(tree: &[u8], at: usize, rule: Rule) -> Option<(Kind, usize)>
    requires { at < length tree.now }
    ensures judged { let number = get_or tree.now at 0 in
        judged_on tree.now at rule number result ≡ first_bytes tree.now at rule number }
    ensures kind { IfSome result (λ found. kind_of (get_or tree.now at 0) ≡ Some found.0) }
{
    let kind = Kind::of_byte(tree[at])?;
    if !may_stand(rule, kind) {
        return None;
    }
    if tree.len() - at < 2 {
        return None;
    }
    let map = usize::from(tree[at + 1]);
    map_fits(rule, kind, map).then_some((kind, map))
}

// A leaf that has a text and no trivia; none where anything else stands, or what may not stand there.
fn bare_leaf(tree: &[u8], at: usize, class: Class) -> Option<Own>
    requires { at < length tree.now }
    ensures { (own : Own) → result ≡ Some own → own_at tree.now at class ≡ Ok own }
{
    if tree.len() - at < 2 || tree[at] != LEAF || tree[at + 1] != 2 {
        return None;
    }
    let rule = grammar::rule_of(class);
    if !may_stand(rule, Kind::Leaf) {
        return None;
    }
    let end = text_end(tree, at + 2, rule.text)?;
    Some(Own {
        kind: Kind::Leaf,
        map: 2,
        trivia: at + 2,
        trivia_count: 0,
        text: at + 4,
        end,
        count: 0,
    })
}

// A record that has a first byte. Most are leaves with a text and no trivia: these are told by their first two bytes.
fn own_at(tree: &[u8], at: usize, class: Class) -> Option<Own>
    requires { at < length tree.now }
    ensures { found_on at result ≡ own_at tree.now at class }
{
    if let Some(leaf) = bare_leaf(tree, at, class) {
        return Some(leaf);
    }
    let rule = grammar::rule_of(class);
    let (kind, map) = judge(tree, at, rule)?;
    let trivia = read_trivia(tree, at + 2, map % 2)?;
    let rest = read_rest(tree, rule.text, kind, map, trivia)?;
    Some(Own {
        kind,
        map,
        trivia: trivia.first,
        trivia_count: trivia.count,
        text: rest.text,
        end: rest.end,
        count: rest.count,
    })
}

// The refusal of a record that breaks the layout.
pub(crate) fn layout(place: usize) -> Refusal
    ensures { result ≡ layout place }
{
    Refusal {
        reason: Reason::TreeLayout,
        place,
    }
}

// A record's own bytes at a place, where so many levels are left: refusal 5 or 4 where they break the layout or stand
// too deep.
pub fn read_own(tree: &[u8], at: usize, class: Class, levels: usize) -> Result<Own, Refusal>
    ensures answer { result ≡ read_own tree.now at class levels }
    ensures fits { Fits tree.now at result }
    ensures numbers { numbers_own result ≡ own_numbers tree.now at class levels }
{
    if tree.len() <= at {
        return Err(layout(tree.len()));
    }
    if levels == 0 {
        return Err(Refusal {
            reason: Reason::TreeDepth,
            place: at,
        });
    }
    // Not by `ok_or`, which stores either answer in one place and so takes 5 percent more of a check.
    let found = own_at(tree, at, class);
    let Some(own) = found else {
        return Err(layout(at));
    };
    Ok(own)
}
