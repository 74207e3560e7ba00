// A whole chunk list: its chunks one after the other, and its judgement.
ghost use Rattle.std.specs.Prelude.{◌≡◌};
ghost use Rattle.std.specs.Iterator.{YieldsFirst, item_count};
ghost use Rattle.answers.specs.Numbers.{numbers_checked};
ghost use Rattle.chunks.specs.Reading.{stored_chunks};
ghost use Rattle.chunks.specs.Judging.{end_from, texts_checked, chunks_checked, chunks_numbers};
ghost use Rattle.chunks.specs.Steps.{chunks_left};

use crate::judged::JudgedPlace;
use crate::stored;
use crate::stored::StoredChunk;
use answers::{Checked, Reason, Refusal};
use text::scans;

// "A chunk list is .. at most 1,048,576 bytes"
pub const LONGEST: usize = 1048576;

// The chunks of a list from a place on, as long as there are any.
#[derive(Clone, Copy, Debug)]
pub struct Chunks<'a> {
    pub list: &'a [u8],
    pub at: usize,
}

impl<'a> Iterator for Chunks<'a> {
    type Item = StoredChunk;

    ghost next_gives = { YieldsFirst chunks_left };

    ghost remaining = { item_count chunks_left };

    fn next(&mut self) -> Option<StoredChunk> {
        let chunk = stored::chunk_at(self.list, self.at)?;
        self.at = chunk.end;
        Some(chunk)
    }
}

// Where the chunks of a list end.
fn layout_end(list: &[u8]) -> usize
    ensures { result ≡ end_from 0 (stored_chunks list.now 0) }
{
    Chunks { list, at: 0 }.fold(0, |_, chunk| chunk.end)
}

// Refusal 7 of the first byte that no text may hold.
fn check_texts(judged: JudgedPlace) -> Checked
    ensures { let list = judged.entry.list.now in
        result ≡ texts_checked list (stored_chunks list judged.entry.at) }
{
    for chunk in judged {
        let fault = chunk.start + scans::fault_at(&judged.list[chunk.start..chunk.end]);
        if fault < chunk.end {
            return Err(Refusal {
                reason: Reason::NotAscii,
                place: fault,
            });
        }
    }
    Ok(())
}

// Whether a list keeps the layout and its texts hold only accepted bytes: refusal 6 of the first bad chunk, else 7 of
// the first bad byte.
pub fn check_chunks(list: &[u8]) -> Checked
    ensures answer { result ≡ chunks_checked list.now }
    ensures numbers { numbers_checked result ≡ chunks_numbers list.now }
{
    let length = list.len();
    if LONGEST < length {
        return Err(Refusal {
            reason: Reason::ChunkLayout,
            place: 0,
        });
    }
    let end = layout_end(list);
    if end != length {
        return Err(Refusal {
            reason: Reason::ChunkLayout,
            place: end,
        });
    }
    // Most lists hold no other byte, and the whole list is asked at once.
    if scans::is_accepted(list) {
        return Ok(());
    }
    check_texts(JudgedPlace { list, at: 0 })
}
