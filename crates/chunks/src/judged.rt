// The chunks of a list that was judged, which are read without being judged again.
ghost use Rattle.std.specs.Prelude.{◌≡◌, ◌+◌, ◌≤◌, ◌<◌, length};
ghost use Rattle.std.specs.Iterator.{YieldsFirst, item_count};
ghost use Rattle.text.specs.Numbers.{number_at};
ghost use Rattle.chunks.specs.Reading.{chunk_at, stored_chunks, Fits};
ghost use Rattle.chunks.specs.Judging.{end_from};

use crate::stored::{ChunkType, StoredChunk, number};

// A place of a list from which on chunks stand up to the list's end.
#[derive(Clone, Copy, Debug)]
pub struct JudgedPlace<'a> {
    pub list: &'a [u8],
    pub at: usize,
    ghost laid: { end_from at (stored_chunks list.now at) ≡ length list.now },
}

// The number of two bytes at a place of a list.
fn number_at(list: &[u8], at: usize) -> usize
    requires { at + 2 ≤ length list.now }
    ensures value { result ≡ number_at list.now at }
    ensures small { result < 65536 }
{
    number(list[at], list[at + 1])
}

impl<'a> JudgedPlace<'a> {
    // The chunk there, or none at the list's end. No byte is tested but the map, which tells an indent.
    pub fn chunk(self) -> Option<StoredChunk>
        ensures answer { result ≡ chunk_at self.entry.list.now self.entry.at }
        ensures fits { Fits self.entry.list.now self.entry.at result }
    {
        let JudgedPlace { list, at } = self;
        if list.len() <= at {
            return None;
        }
        let map = list[at];
        if map < 4 {
            let start = at + 3;
            return Some(StoredChunk {
                ty: ChunkType::try_from(map).unwrap(),
                indent: 0,
                start,
                end: start + number_at(list, at + 1),
            });
        }
        let start = at + 5;
        Some(StoredChunk {
            ty: ChunkType::try_from(map - 4).unwrap(),
            indent: number_at(list, at + 1),
            start,
            end: start + number_at(list, at + 3),
        })
    }
}

impl<'a> Iterator for JudgedPlace<'a> {
    type Item = StoredChunk;

    ghost next_gives = { YieldsFirst (λ place. stored_chunks place.list.now place.at) };

    ghost remaining = { item_count (λ place. stored_chunks place.list.now place.at) };

    fn next(&mut self) -> Option<StoredChunk> {
        let chunk = self.chunk()?;
        self.at = chunk.end;
        Some(chunk)
    }
}
