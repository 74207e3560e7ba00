// A refusal as one plain sentence: its number, its name, what its place counts in, the place, and what stands there.
ghost use Rattle.std.specs.Prelude.{◌≡◌, ◌≤◌, length};
ghost use Rattle.wording.specs.Lines.{line_in, puts, Gets};
ghost use Rattle.wording.specs.Sentences.{standing, limited, meaning, sentence};

use crate::lines::Line;
use crate::names;
use answers::{Reason, Refusal};

// What stands at a place of an input.
fn put_standing(line: &mut Line, input: &[u8], place: usize)
    ensures { Gets line.old line.new (standing input.now place) }
{
    if input.len() <= place {
        return line.put(b", where the input ends");
    }
    line.put(b", where byte ");
    line.put_number(usize::from(input[place]));
    line.put(b" stands");
}

// The limit that a need passes.
fn put_limit(line: &mut Line, limit: usize)
    ensures { Gets line.old line.new (limited limit) }
{
    line.put(b", and the limit is ");
    line.put_number(limit);
}

// What a refusal's place counts in, and what stands there; or what it counts, and the limit.
fn put_meaning(
    line: &mut Line,
    refusal: Refusal,
    tree: &[u8],
    options: &[u8],
    work: usize,
    text: usize,
)
    ensures { Gets line.old line.new (meaning refusal.reason refusal.place tree.now options.now work text) }
{
    match refusal.reason {
        Reason::OptionsLength | Reason::OptionsValue => {
            line.put(b" of the options");
            put_standing(line, options, refusal.place);
        }
        Reason::TreeLength | Reason::TreeDepth | Reason::TreeLayout | Reason::NotAscii => {
            line.put(b" of the tree");
            put_standing(line, tree, refusal.place);
        }
        Reason::ChunkLayout => line.put(b" of the chunk list"),
        // The chunks behind that push would need more.
        Reason::WorkRoom => {
            line.put(
                b" is how many bytes of work room were needed at the push that did not fit, not in all",
            );
            put_limit(line, work);
        }
        Reason::TextRoom => {
            line.put(b" is how many bytes the text needs");
            put_limit(line, text);
        }
    }
}

// The sentence of a refusal of a tree under options, in a work room and a text buffer of so many bytes.
pub fn put_refusal(
    line: &mut Line,
    refusal: Refusal,
    tree: &[u8],
    options: &[u8],
    work: usize,
    text: usize,
)
    ensures { Gets line.old line.new (sentence refusal tree.now options.now work text) }
{
    line.put(b"Refusal ");
    line.put_number(refusal.reason.number());
    line.put(b", ");
    line.put(names::reason_name(refusal.reason).as_bytes());
    line.put(b": place ");
    line.put_number(refusal.place);
    put_meaning(line, refusal, tree, options, work, text);
    line.put(b".\n");
}

// The same at the start of a lent buffer: how much of it is used.
pub fn store_refusal(
    buffer: &mut [u8],
    refusal: Refusal,
    tree: &[u8],
    options: &[u8],
    work: usize,
    text: usize,
) -> usize
    ensures line { line_in buffer.new result ≡ puts (sentence refusal tree.now options.now work text)
        (line_in buffer.old 0) }
    ensures within { result ≤ length buffer.new }
{
    let mut line = Line::new(buffer);
    put_refusal(&mut line, refusal, tree, options, work, text);
    line.used()
}
