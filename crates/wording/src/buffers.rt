// What is put into a line, for a caller who keeps its own buffer: each takes the buffer and the place where the line
// goes on, and answers the place behind it. Past the buffer's end there is no line, so nothing is put and the place
// stays.
ghost use Rattle.std.specs.Prelude.{◌≡◌, [], ◌∷◌};
ghost use Rattle.wording.specs.Lines.{line_in, puts, decimal};
ghost use Rattle.wording.specs.Records.{record_line, chunk_line};
ghost use Rattle.wording.specs.Losses.{loss_line};
ghost use Rattle.wording.specs.Sentences.{sentence};

use crate::lines::Line;
use crate::{places, records, sentences};
use answers::Refusal;
use chunks::stored::StoredChunk;
use tree::grammar::Class;
use tree::own::Own;

// Bytes.
#[tactic(auto, using(crate::proofs::Pieces::past_end))]
pub fn put(line: &mut [u8], at: usize, bytes: &[u8]) -> usize
    ensures { line_in line.new result ≡ puts (bytes.now ∷ []) (line_in line.old at) }
{
    if line.len() < at {
        return at;
    }
    let mut resumed = Line::resumed(line, at);
    resumed.put(bytes);
    resumed.used()
}

// A number in decimal.
#[tactic(auto, using(crate::proofs::Pieces::past_end))]
pub fn put_number(line: &mut [u8], at: usize, n: usize) -> usize
    ensures { line_in line.new result ≡ puts (decimal n) (line_in line.old at) }
{
    if line.len() < at {
        return at;
    }
    let mut resumed = Line::resumed(line, at);
    resumed.put_number(n);
    resumed.used()
}

// A record's line.
#[tactic(auto, using(crate::proofs::Pieces::past_end))]
pub fn put_record(
    line: &mut [u8],
    at: usize,
    tree: &[u8],
    place: usize,
    depth: usize,
    class: Class,
    own: Own,
) -> usize
    ensures { line_in line.new result ≡ puts (record_line tree.now place depth class own)
        (line_in line.old at) }
{
    if line.len() < at {
        return at;
    }
    let mut resumed = Line::resumed(line, at);
    records::put_record(&mut resumed, tree, place, depth, class, own);
    resumed.used()
}

// A chunk's line.
#[tactic(auto, using(crate::proofs::Pieces::past_end))]
pub fn put_chunk(line: &mut [u8], at: usize, list: &[u8], place: usize, chunk: StoredChunk) -> usize
    ensures { line_in line.new result ≡ puts (chunk_line list.now place chunk)
        (line_in line.old at) }
{
    if line.len() < at {
        return at;
    }
    let mut resumed = Line::resumed(line, at);
    records::put_chunk(&mut resumed, list, place, chunk);
    resumed.used()
}

// A loss's line.
#[tactic(auto, using(crate::proofs::Pieces::past_end))]
pub fn put_loss(
    line: &mut [u8],
    at: usize,
    tree: &[u8],
    place: usize,
    bits: usize,
    own: Own,
) -> usize
    ensures { line_in line.new result ≡ puts (loss_line tree.now place bits own)
        (line_in line.old at) }
{
    if line.len() < at {
        return at;
    }
    let mut resumed = Line::resumed(line, at);
    places::put_loss(&mut resumed, tree, place, bits, own);
    resumed.used()
}

// The sentence of a refusal of a tree under options, in a work room and a text buffer of so many bytes.
#[tactic(auto, using(crate::proofs::Pieces::past_end))]
pub fn put_refusal(
    line: &mut [u8],
    at: usize,
    refusal: Refusal,
    tree: &[u8],
    options: &[u8],
    work: usize,
    text: usize,
) -> usize
    ensures { line_in line.new result ≡ puts (sentence refusal tree.now options.now work text)
        (line_in line.old at) }
{
    if line.len() < at {
        return at;
    }
    let mut resumed = Line::resumed(line, at);
    sentences::put_refusal(&mut resumed, refusal, tree, options, work, text);
    resumed.used()
}
