// The lowest printers of the walk, over one struct that they go on in: pushes, trivia, the texts of enums, leaves, and
// what every record begins with.
#![tactic(auto)]

pub mod leaf;
pub mod record;
pub mod texts;
pub mod trivia;

ghost use Rattle.std.specs.Prelude.{◌≡◌, Ok, Err, false};
ghost use Rattle.text.specs.Lines.{is_empty, is_newline};
ghost use Rattle.chunks.specs.Appending.{with_space, with_colon};
ghost use Rattle.printing.specs.Events as Events;
ghost use Rattle.printing.specs.Running.{at_start, behind, no_room};
ghost use Rattle.printers.specs.Going.{GoesExact, page_of, answer_of, run_of};
ghost use Rattle.printers.specs.Going.{walked_of, numbers_walked, walked_numbers};

use answers::{Reason, Refusal};
use chunks::append;
use chunks::append::Unappended;
use chunks::stored::ChunkType;
use printing::Context;
use text::characters;

// The place of refusal 8 for a chunk without a stored form: one more byte than any room counts. No tree has such a
// chunk.
const UNSTORABLE: usize = 1048577;

// A walk over a tree: what it reads and where it writes, how deep it stands, the used length of the room, the end of
// the last chunk that is not exactly a newline, whether a space goes before the next text, the place that is read next,
// and why the walk ended. Where it has ended nothing is printed or read any more; a pending space, dropped newlines and
// the place are still noted, as in a full state.
#[derive(Drop)]
pub struct Printer<'a> {
    pub tree: &'a [u8],
    pub room: &'a mut [u8],
    pub context: Context,
    pub used: usize,
    pub solid: usize,
    pub spaced: bool,
    pub at: usize,
    pub ended: Option<Refusal>,
}

// How far a walk has come: how many bytes of the room are used, and the place behind what was read.
#[derive(Clone, Copy)]
pub struct Walked {
    pub used: usize,
    pub at: usize,
}

impl<'a> Printer<'a> {
    // Nothing is printed yet.
    pub fn new(tree: &'a [u8], room: &'a mut [u8], context: Context) -> Self
        ensures room { result.room.ghost_name ≡ room.entry.ghost_name }
        ensures bytes { result.room.now ≡ room.old }
        ensures page { page_of result ≡ record { tree = tree.now; context = context } }
        ensures answer { answer_of result ≡ Ok (at_start, 0) }
    {
        Printer {
            tree,
            room,
            context,
            used: 0,
            solid: 0,
            spaced: false,
            at: 0,
            ended: None,
        }
    }
}

impl Printer<'_> {
    // How far the walk is, or why it ended.
    pub fn answer(&self) -> Result<Walked, Refusal>
        ensures answer { result ≡ walked_of (run_of self.now) self.now.at }
        ensures numbers { numbers_walked result ≡ walked_numbers self.now.ended self.now.used }
    {
        match self.ended {
            Some(refusal) => Err(refusal),
            None => Ok(Walked {
                used: self.used,
                at: self.at,
            }),
        }
    }

    // Pushes a text as a chunk; a pending space goes in front, and where it is asked for a colon behind.
    pub fn push_type(&mut self, ty: ChunkType, text: &[u8], colon: bool)
        ensures { GoesExact self.old self.new
            (λ page at. Events.push ty page.context (with_colon colon text.now))
            (λ page at. at) }
    {
        if self.ended.is_some() {
            return;
        }
        if no_text(text, colon) {
            return;
        }
        let newline = lone_newline(self.spaced, text, colon);
        let indent = self.context.indent;
        let text = append::Text {
            spaced: self.spaced,
            text,
            colon,
        };
        match append::append_chunk(self.room, self.used, ty, indent, text) {
            Ok(end) => {
                self.used = end;
                self.solid = if newline { self.solid } else { end };
                self.spaced = false;
            }
            Err(why) => self.ended = Some(refused(why)),
        }
    }

    // Pushes a text of code.
    pub fn push(&mut self, text: &[u8])
        ensures { GoesExact self.old self.new
            (λ page at. Events.push ChunkType.Code page.context text.now)
            (λ page at. at) }
    {
        self.push_type(ChunkType::Code, text, false);
    }

    // A space goes before the next text.
    pub fn spc_if_next(&mut self)
        ensures { GoesExact self.old self.new (λ page at. Events.space) (λ page at. at) }
    {
        self.spaced = true;
    }

    // No space goes before the next text.
    pub fn clear_spc_if_next(&mut self)
        ensures { GoesExact self.old self.new (λ page at. Events.clear) (λ page at. at) }
    {
        self.spaced = false;
    }

    // Drops the newline chunks at the end.
    pub fn trim_newlines(&mut self)
        ensures { GoesExact self.old self.new (λ page at. Events.trim) (λ page at. at) }
    {
        self.used = self.solid;
    }

    // Goes on from another place.
    pub fn move_to(&mut self, place: usize)
        ensures { GoesExact self.old self.new (λ page at. Events.nothing) (λ page at. place) }
    {
        self.at = place;
    }
}

// Whether there is nothing to push; a text with a colon is never empty.
fn no_text(text: &[u8], colon: bool) -> bool
    ensures { result ≡ is_empty (with_colon colon text.now) }
{
    !colon && text.is_empty()
}

// Whether a text is exactly a newline.
fn is_newline(text: &[u8]) -> bool
    ensures { result ≡ is_newline text.now }
{
    text.len() == 1 && text[0] == characters::NEWLINE
}

// Whether a chunk is exactly a newline, which none with a space or a colon is.
fn lone_newline(spaced: bool, text: &[u8], colon: bool) -> bool
    ensures { result ≡ is_newline (with_space spaced (with_colon colon text.now)) }
{
    if spaced || colon {
        return false;
    }
    is_newline(text)
}

// Refusal 8, of a chunk that was not appended.
fn refused(why: Unappended) -> Refusal
    ensures { result ≡ no_room (behind at_start false (Err why)) }
{
    let needed = match why {
        Unappended::NoRoom(needed) => needed,
        Unappended::NoChunk | Unappended::UsedPastRoom => UNSTORABLE,
    };
    Refusal {
        reason: Reason::WorkRoom,
        place: needed,
    }
}
