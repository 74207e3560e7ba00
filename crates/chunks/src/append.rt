// Appending a chunk to a lent room.
ghost use Rattle.std.specs.Prelude.{◌≡◌, ◌+◌, ◌≤◌, length};
ghost use Rattle.std.proofs.lemmas.List.Edits.{sets};
ghost use Rattle.chunks.specs.Stored.{Chunk, type_bits, indent_bit, stored_indent, stored_head};
ghost use Rattle.chunks.specs.Appending.{text_bytes, appended, room_after};
ghost use Rattle.chunks.specs.Steps.{byte_if};

use crate::list::LONGEST;
use crate::stored::{ChunkType, LARGEST_INDENT, LONGEST_TEXT};
use text::{characters, numbers, stores};

// Why a chunk is not appended.
#[derive(Clone, Copy, Debug, PartialEq, Eq)]
pub enum Unappended {
    // The chunk does not fit: the length that was needed.
    NoRoom(usize),
    // The text is empty or above 65,535 bytes, or the indent above 4,096: no chunk is stored so.
    NoChunk,
    // The used length is past the room.
    UsedPastRoom,
}

// A chunk's text: with a space in front and a colon behind where the flags say so.
#[derive(Clone, Copy, Debug, PartialEq, Eq)]
pub struct Text<'a> {
    pub spaced: bool,
    pub text: &'a [u8],
    pub colon: bool,
}

impl<'a> Text<'a> {
    ghost use Rattle.chunks.specs.Appending.{text_bytes};

    // How long the text is.
    fn len(self) -> usize
        ensures { result ≡ length (text_bytes self.entry) }
    {
        usize::from(self.spaced) + self.text.len() + usize::from(self.colon)
    }

    // Stores the text; the place behind it. The space and the colon are written as single bytes: most texts have
    // neither, and a copy of nothing has to be set up all the same.
    fn store(self, room: &mut [u8], at: usize) -> usize
        requires { at + length (text_bytes self) ≤ length room.old }
        ensures answer { result ≡ at + length (text_bytes self.entry) }
        ensures room { room.new ≡ sets room.old at (text_bytes self.entry) }
    {
        let start = store_if(room, at, self.spaced, characters::SPACE);
        let end = stores::copy(self.text, room, start).unwrap();
        store_if(room, end, self.colon, characters::COLON)
    }
}

// The map byte of a chunk.
fn map_byte(ty: ChunkType, indent: usize) -> u8
    ensures { result ≡ type_bits ty + indent_bit indent }
{
    let bits = u8::from(ty);
    if indent == 0 { bits } else { bits + 4 }
}

// An indent, which is stored only where it is not 0; the place behind it.
fn store_indent(room: &mut [u8], at: usize, indent: usize) -> usize
    requires { (indent ≤ 4096) × (at + length (stored_indent indent) ≤ length room.old) }
    ensures answer { result ≡ at + length (stored_indent indent) }
    ensures room { room.new ≡ sets room.old at (stored_indent indent) }
{
    if indent == 0 {
        return at;
    }
    numbers::store_number(room, at, indent).unwrap()
}

// What stands before a chunk's text; the place behind it.
fn store_head(room: &mut [u8], at: usize, ty: ChunkType, indent: usize, count: usize) -> usize
    requires { (indent ≤ 4096) × (count ≤ 65535)
        × (at + length (stored_head ty indent count) ≤ length room.old) }
    ensures answer { result ≡ at + length (stored_head ty indent count) }
    ensures room { room.new ≡ sets room.old at (stored_head ty indent count) }
{
    room[at] = map_byte(ty, indent);
    let behind = store_indent(room, at + 1, indent);
    numbers::store_number(room, behind, count).unwrap()
}

// How many bytes stand before a chunk's text.
fn head_length(indent: usize) -> usize
    ensures { result ≡ 3 + length (stored_indent indent) }
{
    if indent == 0 { 3 } else { 5 }
}

// A byte, which is stored only where a flag is set; the place behind it.
fn store_if(room: &mut [u8], at: usize, flag: bool, byte: u8) -> usize
    requires { at + length (byte_if flag byte) ≤ length room.old }
    ensures answer { result ≡ at + length (byte_if flag byte) }
    ensures room { room.new ≡ sets room.old at (byte_if flag byte) }
{
    if flag {
        room[at] = byte;
        return at + 1;
    }
    at
}

// Appends a chunk behind the used length of a room.
pub fn append_chunk(
    room: &mut [u8],
    used: usize,
    ty: ChunkType,
    indent: usize,
    text: Text,
) -> Result<usize, Unappended>
    ensures answer { let chunk : Chunk = record { ty = ty; indent = indent; text = text_bytes text.entry } in
        result ≡ appended (length room.old) used chunk }
    ensures room { let chunk : Chunk = record { ty = ty; indent = indent; text = text_bytes text.entry } in
        room.new ≡ room_after room.old used chunk }
{
    let count = text.len();
    if LARGEST_INDENT < indent || count == 0 || LONGEST_TEXT < count {
        return Err(Unappended::NoChunk);
    }
    let limit = room.len().min(LONGEST);
    if limit < used {
        return Err(Unappended::UsedPastRoom);
    }
    let end = used + head_length(indent) + count;
    if limit < end {
        return Err(Unappended::NoRoom(end));
    }
    let behind = store_head(room, used, ty, indent, count);
    text.store(room, behind);
    Ok(end)
}
