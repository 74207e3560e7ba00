// A line for a record that uses one of the eight places of document 01: what stands there, and what becomes of it.
ghost use Rattle.std.specs.Prelude.{◌≡◌};
ghost use Rattle.text.specs.Literals.{ascii};
ghost use Rattle.leaves.specs.Items.{items_at};
ghost use Rattle.wording.specs.Lines.{Gets};
ghost use Rattle.wording.specs.Losses.{letters, fate, comments, loss_line};

use crate::lines::Line;
use crate::records;
use losses::places::Place;
use tree::own::Own;
use tree::parts::Trivia;

// Three of the eight places as bits of a record's letters, which `losses::lost` tells: (f), (g) and (h).
pub const REGISTER_LETTER: usize = 1 << Place::RegisterLetter as usize;

const EXPRESSION_HEAD: usize = 1 << Place::ExpressionHead as usize;

const CLOSING: usize = 1 << Place::ClosingCharacter as usize;

// The letters of eight bits in parentheses, the lowest first.
fn put_letters(line: &mut Line, bits: usize)
    ensures { Gets line.old line.new (letters 8 97 bits) }
{
    let mut rest = bits;
    for letter in b'a'..=b'h' {
        if rest % 2 == 1 {
            line.put(&[b'(', letter, b')']);
        }
        rest /= 2;
    }
}

// The comments of a record.
fn put_comments(line: &mut Line, tree: &[u8], own: Own)
    ensures { Gets line.old line.new (comments (items_at tree.now own.trivia own.trivia_count)) }
{
    for item in Trivia::new(tree, own.trivia, own.trivia_count) {
        if item.code.is_comment() {
            line.put(b" ");
            line.put_quoted(&tree[item.start..item.end]);
        }
    }
}

// What becomes of what stands there: a register letter's comment is kept, that of an expression's head printed twice,
// all else dropped.
fn fate(bits: usize) -> &'static str
    ensures { result.now ≡ ascii (fate bits) }
{
    match bits {
        REGISTER_LETTER => " kept",
        EXPRESSION_HEAD => " printed twice",
        _ => " dropped",
    }
}

// A loss's line: its record's offset, the letters of its places, the comments that stand there and for (h) the closing
// character itself, and what becomes of them; nothing where the own bytes do not stand in the tree.
pub fn put_loss(line: &mut Line, tree: &[u8], place: usize, bits: usize, own: Own)
    ensures { Gets line.old line.new (loss_line tree.now place bits own) }
{
    if tree.len() < own.end {
        return;
    }
    records::put_offset(line, place);
    put_letters(line, bits);
    put_comments(line, tree, own);
    if bits / CLOSING % 2 == 1 {
        records::put_leaf(line, tree, None, own);
    }
    line.put(fate(bits).as_bytes());
    line.put(b"\n");
}
