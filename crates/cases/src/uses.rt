// The records of a tree that use one of the eight places, in the order in which they are stored.
ghost use Rattle.std.specs.Prelude.{◌-◌};
ghost use Rattle.std.specs.Iterator.{at_most};
ghost use Rattle.cases.specs.Uses.{AreAllOf, AreSince, TellsUse};

use losses::Loss;

// What is left of them: those at or after an offset.
#[derive(Drop)]
pub struct Uses<'a> {
    tree: &'a [u8],
    from: usize,
}

impl<'a> Uses<'a> {
    // All of a tree; none of one that is refused.
    pub fn of(tree: &'a [u8]) -> Uses<'a>
        ensures { AreAllOf tree.now result }
    {
        Uses { tree, from: 0 }
    }

    // Those of a tree at or after an offset; none of one that is refused.
    pub fn since(tree: &'a [u8], from: usize) -> Uses<'a>
        ensures { AreSince from tree.now result }
    {
        Uses { tree, from }
    }
}

impl<'a> Iterator for Uses<'a> {
    type Item = Loss;

    ghost next_gives = { TellsUse };

    ghost remaining = { λ uses. at_most (65536 - uses.from) };

    fn next(&mut self) -> Option<Loss> {
        match losses::lost(self.tree, self.from) {
            // No record before the offset is told; the test shows that the search ends.
            Ok(Some(loss)) if self.from <= loss.place => {
                self.from = loss.place + 1;
                Some(loss)
            }
            _ => None,
        }
    }
}
