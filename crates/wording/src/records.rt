// A line for a record of a tree, and one for a chunk.
ghost use Rattle.std.specs.Prelude.{◌≡◌, ◌≤◌, length};
ghost use Rattle.tree.specs.Codes.{code_number};
ghost use Rattle.leaves.specs.Items.{items_at};
ghost use Rattle.wording.specs.Lines.{Gets};
ghost use Rattle.wording.specs.Records.{spaces_before, offset, deep, trivium, trivia, leaf_content};
ghost use Rattle.wording.specs.Records.{record_line, chunk_line};

use crate::entries::Table;
use crate::lines::Line;
use crate::{entries, names};
use chunks::stored::StoredChunk;
use tree::codes::Code;
use tree::grammar::{Class, Kind};
use tree::own::Own;
use tree::parts::Trivia;

// How many spaces stand before an offset, so that its last digit is the fifth of the line.
fn spaces_before(n: usize) -> usize
    ensures { result ≡ spaces_before n }
{
    match n {
        0..10 => 4,
        10..100 => 3,
        100..1000 => 2,
        1000..10000 => 1,
        _ => 0,
    }
}

// An offset, which begins a line.
pub(crate) fn put_offset(line: &mut Line, place: usize)
    ensures { Gets line.old line.new (offset place) }
{
    line.put_spaces(spaces_before(place));
    line.put_number(place);
    line.put(b" ");
}

// A depth, and as much indentation.
fn put_depth(line: &mut Line, depth: usize)
    ensures { Gets line.old line.new (deep depth) }
{
    line.put_number(depth);
    line.put_spaces(depth);
    line.put_spaces(depth);
}

// A trivia item in brackets: what it is, and its text, of which a newline has none.
fn put_trivium(line: &mut Line, code: Code, text: &[u8])
    ensures { Gets line.old line.new (trivium (record { code = code_number code; text = text.now })) }
{
    line.put(b" [");
    line.put(names::code_name(code).as_bytes());
    if let Code::Newline = code {
        return line.put(b"]");
    }
    line.put(b" ");
    line.put_quoted(text);
    line.put(b"]");
}

// The trivia items of a record.
fn put_trivia(line: &mut Line, tree: &[u8], own: Own)
    ensures { Gets line.old line.new (trivia (items_at tree.now own.trivia own.trivia_count)) }
{
    for item in Trivia::new(tree, own.trivia, own.trivia_count) {
        put_trivium(line, item.code, &tree[item.start..item.end]);
    }
}

// What a leaf shows, its text in quotes or the case of an enum whose index is its first byte; nothing where it has no
// text.
pub(crate) fn put_leaf(line: &mut Line, tree: &[u8], table: Option<Table>, own: Own)
    requires { own.end ≤ length tree.now }
    ensures { Gets line.old line.new (leaf_content tree.now table own) }
{
    if own.end <= own.text {
        return;
    }
    line.put(b" ");
    match table {
        None => line.put_quoted(&tree[own.text..own.end]),
        Some(table) => entries::put_indexed(line, table, usize::from(tree[own.text])),
    }
}

// A record's line: its offset, its depth, its kind by name, a list's count or what a leaf shows, and its trivia;
// nothing where its own bytes do not stand in the tree.
pub fn put_record(line: &mut Line, tree: &[u8], place: usize, depth: usize, class: Class, own: Own)
    ensures { Gets line.old line.new (record_line tree.now place depth class own) }
{
    if tree.len() <= place || tree.len() < own.end {
        return;
    }
    let number = usize::from(tree[place]);
    put_offset(line, place);
    put_depth(line, depth);
    names::put_kind(line, number);
    if number == Kind::Vec as usize {
        line.put(b" of ");
        line.put_number(own.count);
    } else {
        put_leaf(line, tree, entries::table_of(class), own);
    }
    put_trivia(line, tree, own);
    line.put(b"\n");
}

// A chunk's line: its place among the stored ones, its type, its indent and its text; nothing where it does not stand
// in the list.
pub fn put_chunk(line: &mut Line, list: &[u8], place: usize, chunk: StoredChunk)
    ensures { Gets line.old line.new (chunk_line list.now place chunk) }
{
    let Some(text) = list.get(chunk.start..chunk.end) else {
        return;
    };
    put_offset(line, place);
    line.put(names::type_name(chunk.ty).as_bytes());
    line.put(b" ");
    line.put_number(chunk.indent);
    line.put(b" ");
    line.put_quoted(text);
    line.put(b"\n");
}
