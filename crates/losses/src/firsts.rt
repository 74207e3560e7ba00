// For each of the eight places the first record that uses it.
ghost use Rattle.std.specs.Prelude.{◌≡◌};
ghost use Rattle.reading.specs.Places.{spot_number};
ghost use Rattle.losses.specs.Lost.{least_of, letters_at};
ghost use Rattle.losses.specs.Visits.{spot_of, no_firsts, Takes};

use crate::places::{PLACES, Place};

// A search: the offset that it starts at, and for each place, by its number, the first record so far.
#[derive(Clone, Copy)]
pub struct Search {
    pub from: usize,
    pub firsts: [Option<usize>; PLACES],
}

impl Search {
    // No record so far.
    pub(crate) fn new(from: usize) -> Search
        ensures from { result.from ≡ from }
        ensures firsts { result.firsts ≡ no_firsts }
    {
        Search {
            from,
            firsts: [None; PLACES],
        }
    }

    // A record at an offset that uses a place; one before `from` does not count.
    pub(crate) fn take(&mut self, at: usize, place: Place)
        ensures { Takes self.new self.old at (spot_number (spot_of place)) }
    {
        if at < self.from {
            return;
        }
        let number = place.number();
        let first = self.firsts[number].map_or(at, |other| other.min(at));
        self.firsts[number] = Some(first);
    }

    // The least of the eight.
    pub(crate) fn least(&self) -> Option<usize>
        ensures { result ≡ least_of self.now.firsts }
    {
        self.firsts.iter().filter_map(|first| *first).min()
    }

    // The places that the record at an offset uses, as bits: 1 for (a) to 128 for (h).
    pub(crate) fn letters_at(&self, at: usize) -> usize
        ensures { result ≡ letters_at self.now.firsts at }
    {
        let mut letters = 0;
        let mut bit = 1;
        for first in self.firsts.iter() {
            if *first == Some(at) {
                letters += bit;
            }
            bit *= 2;
        }
        letters
    }
}
