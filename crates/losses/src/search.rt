// The search of a tree for the first record that uses a place.
ghost use Rattle.std.specs.Prelude.{◌≡◌, length};
ghost use Rattle.tree.specs.Grammar.{kind_number};
ghost use Rattle.losses.specs.Lost.{least_of, answer_with, lost_from, numbers_lost, lost_numbers, Narrow};
ghost use Rattle.losses.specs.Visits.{listed_below, Searches};

use crate::firsts::Search;
use crate::places::PLACES;
use answers::{Answer, Refusal};
use tree::grammar::{Class, Kind};
use tree::{check, own};

// A record that uses places: its offset, and its places as bits, 1 for (a) to 128 for (h).
#[derive(Clone, Copy, Debug, PartialEq, Eq)]
pub struct Loss {
    pub place: usize,
    pub letters: usize,
}

// The first record that uses a place, or none; or the refusal of the tree.
pub type Lost = Result<Option<Loss>, Refusal>;

// How deep a tree may stand.
const LEVELS: usize = 64;

// Whether the parts of a record stand in a list: the items of a list do; the block of `Braces` or `Config` and its
// brace count as their token.
fn listed_below(kind: Kind, listed: bool) -> bool
    ensures { result ≡ listed_below (kind_number kind) listed }
{
    match kind {
        Kind::Vec => true,
        Kind::Braces | Kind::Config | Kind::Block => listed,
        _ => false,
    }
}

impl Search {
    // The record of a class at a place, with all its parts: the place behind it. Tree, place, class and levels stay
    // four parameters, here and in `uses`: crate `tree` takes them so, and a struct of them would be taken apart at
    // each call.
    fn visit(&mut self, tree: &[u8], at: usize, class: Class, levels: usize, listed: bool) -> Answer
        ensures { Searches result self.new self.old levels tree.now class at listed }
    {
        let own = own::read_own(tree, at, class, levels)?;
        self.record_uses(tree, at, class, levels, own, listed)?;
        let below = listed_below(own.kind, listed);
        let mut place = own.end;
        for field in check::plan_of(class, own) {
            place = self.visit(tree, place, field, levels - 1, below)?;
        }
        Ok(place)
    }

    // The first record that was found, with its letters.
    fn loss(&self) -> Option<Loss>
        ensures loss { result ≡ answer_with self.now.firsts (least_of self.now.firsts) }
        ensures places { length self.now.firsts ≡ PLACES }
    {
        self.least().map(|place| Loss {
            place,
            letters: self.letters_at(place),
        })
    }
}

// The first record at or after an offset that uses one of the eight places, or the refusal of the tree. Called again
// behind it, this lists all.
pub fn lost(tree: &[u8], from: usize) -> Lost
    ensures answer { result ≡ lost_from from tree.now }
    ensures narrow { Narrow result }
    ensures numbers { numbers_lost result ≡ lost_numbers from tree.now }
{
    check::check_tree(tree)?;
    let mut search = Search::new(from);
    search.visit(tree, 0, Class::Tokens, LEVELS, false)?;
    Ok(search.loss())
}
