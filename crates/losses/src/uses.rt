// The uses of places that a record shows by itself: comments on it, on its head, and an operand's closing character.
ghost use Rattle.std.specs.Prelude.{◌≡◌, ◌<◌};
ghost use Rattle.answers.specs.Numbers.{no_refusal};
ghost use Rattle.tree.specs.Grammar.{kind_number};
ghost use Rattle.leaves.specs.Items.{items_at};
ghost use Rattle.reading.specs.Places.{has_comment};
ghost use Rattle.losses.specs.Visits.{no_spot, number_of, kind_spot, own_spot, token_spot, head_spot};
ghost use Rattle.losses.specs.Visits.{behind_field};
ghost use Rattle.losses.specs.Visits.{TakesIf, TakesHead, TakesClosing, TakesRecord};

use crate::firsts::Search;
use crate::places::Place;
use answers::{Checked, Refusal};
use printers::record;
use tree::codes::AddressingMode;
use tree::grammar::{Class, Kind};
use tree::own::Own;
use tree::parts::Trivia;
use tree::{own, parts};

// Whether one of `count` trivia items is a comment. No item of a record that was read is broken.
fn has_comment(tree: &[u8], at: usize, count: usize) -> bool
    ensures { result ≡ has_comment (items_at tree.now at count) }
{
    Trivia::new(tree, at, count).any(|item| item.code.is_comment())
}

// The place that a comment on a record of a kind uses.
fn kind_spot(kind: Kind) -> Option<Place>
    ensures { number_of result ≡ kind_spot (kind_number kind) }
{
    match kind {
        Kind::SpecificImportArg => Some(Place::ImportPath),
        Kind::PathItem => Some(Place::PathItem),
        _ => None,
    }
}

// The place that a comment on a record uses: by the field that it stands in, or by its kind.
fn own_spot(class: Class, kind: Kind, listed: bool) -> Option<Place>
    ensures { number_of result ≡ own_spot class (kind_number kind) listed }
{
    match class {
        Class::OpenBrace if listed => None,
        Class::OpenBrace => Some(Place::OpeningBrace),
        Class::Colon => Some(Place::LabelColon),
        Class::IndexRegister => Some(Place::RegisterLetter),
        _ => kind_spot(kind),
    }
}

// The place that a comment on a token's head uses: an `Expression` in a list has (g); any other token that is in no
// list is a value, and has (c).
fn token_spot(kind: Kind, listed: bool) -> Option<Place>
    ensures { number_of result ≡ token_spot (kind_number kind) listed }
{
    match kind {
        Kind::Expression if listed => Some(Place::ExpressionHead),
        Kind::Expression => None,
        _ if listed => None,
        _ => Some(Place::ValueHead),
    }
}

// The place that a comment on a record's head uses.
fn head_spot(class: Class, kind: Kind, listed: bool) -> Option<Place>
    ensures { number_of result ≡ head_spot class (kind_number kind) listed }
{
    match class {
        Class::BareToken | Class::LocatedToken => token_spot(kind, listed),
        _ => None,
    }
}

// The place behind a field that may stand or not.
fn behind(
    tree: &[u8],
    at: usize,
    class: Class,
    levels: usize,
    stands: bool,
) -> Result<usize, Refusal>
    ensures { result ≡ behind_field levels tree.now class at stands }
{
    if !stands {
        return Ok(at);
    }
    parts::skip(tree, at, class, levels)
}

impl Search {
    // A record at an offset, where a comment on it uses a place.
    fn own_use(&mut self, tree: &[u8], own: Own, at: usize, place: Option<Place>)
        ensures { TakesIf self.new self.old at (number_of place)
            (has_comment (items_at tree.now own.trivia own.trivia_count)) }
    {
        if let Some(place) = place {
            if has_comment(tree, own.trivia, own.trivia_count) {
                self.take(at, place);
            }
        }
    }

    // A token's head.
    fn head_use(
        &mut self,
        tree: &[u8],
        at: usize,
        class: Class,
        levels: usize,
        place: Option<Place>,
    ) -> Checked
        ensures unused { number_of place ≡ no_spot → (result ≡ no_refusal) × (self.new ≡ self.old) }
        ensures takes { TakesHead result self.new self.old levels tree.now class at (number_of place) }
    {
        if place.is_none() {
            return Ok(());
        }
        let head = parts::head_place(tree, at, class, levels)?;
        let own = own::read_own(tree, head.place, head.class, head.levels)?;
        self.own_use(tree, own, head.place, place);
        Ok(())
    }

    // An operand's closing character, where it stands and its mode prints none: `Indirect` and `OuterIndirect` do.
    fn closing_use(&mut self, tree: &[u8], own: Own, levels: usize) -> Checked
        requires { 0 < levels }
        ensures { TakesClosing result self.new self.old levels tree.now own }
    {
        let bits = own.map / 2;
        if !record::stands(bits, 2) {
            return Ok(());
        }
        let below = levels - 1;
        let lchar = parts::skip(tree, own.end, Class::LocatedExpression, below)?;
        let rchar = behind(tree, lchar, Class::Char, below, record::stands(bits, 1))?;
        let mode = parts::skip(tree, rchar, Class::Char, below)?;
        let leaf = own::read_own(tree, mode, Class::AddressingMode, below)?;
        match AddressingMode::of_text(&tree[leaf.text..leaf.end]) {
            AddressingMode::Indirect | AddressingMode::OuterIndirect => {}
            _ => self.take(rchar, Place::ClosingCharacter),
        }
        Ok(())
    }

    // All that a record shows by itself.
    pub(crate) fn record_uses(
        &mut self,
        tree: &[u8],
        at: usize,
        class: Class,
        levels: usize,
        own: Own,
        listed: bool,
    ) -> Checked
        requires { 0 < levels }
        ensures { TakesRecord result self.new self.old levels tree.now class at own listed }
    {
        self.own_use(tree, own, at, own_spot(class, own.kind, listed));
        self.head_use(tree, at, class, levels, head_spot(class, own.kind, listed))?;
        match own.kind {
            Kind::Operand => self.closing_use(tree, own, levels),
            _ => Ok(()),
        }
    }
}
