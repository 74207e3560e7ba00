// A reader of a stored tree: the tree's bytes and a place in them. Its methods leave the work to crate `tree`, which
// takes the bytes and the place apart, since most that walks a tree has a class and levels beside them.
#![tactic(auto)]

ghost use Rattle.std.specs.Prelude.{◌≡◌};
ghost use Rattle.tree.specs.Own.{read_own, numbers_own, own_numbers};
ghost use Rattle.tree.specs.Parts.{skipped, numbers_skipped, read_numbers};
ghost use Rattle.reader.specs.Tokens.{behind_row, tokens_behind, tokens_numbers};

use answers::Refusal;
use tree::grammar::Class;
use tree::own::Own;
use tree::{own, parts};

#[derive(Clone, Copy, Debug, PartialEq, Eq)]
pub struct Reader<'a> {
    pub tree: &'a [u8],
    pub at: usize,
}

impl<'a> Reader<'a> {
    // A reader at the tree's first byte.
    pub fn new(tree: &'a [u8]) -> Self
        ensures { (result.tree ≡ tree.entry) × (result.at ≡ 0) }
    {
        Reader { tree, at: 0 }
    }

    // The reader, moved on to a place.
    pub fn moved(self, at: usize) -> Self
        ensures { (result.tree ≡ self.entry.tree) × (result.at ≡ at) }
    {
        Reader { at, ..self }
    }

    // The own bytes of the record of a class at the reader, where so many levels are left.
    pub fn own_bytes(self, class: Class, levels: usize) -> Result<Own, Refusal>
        ensures { (result ≡ read_own self.entry.tree.now self.entry.at class levels)
            × (numbers_own result ≡ own_numbers self.entry.tree.now self.entry.at class levels) }
    {
        own::read_own(self.tree, self.at, class, levels)
    }

    // The place behind the record of a class at the reader, or the first refusal in it.
    pub fn behind(self, class: Class, levels: usize) -> Result<usize, Refusal>
        ensures { (result ≡ skipped levels self.entry.tree.now class self.entry.at)
            × (numbers_skipped result ≡ read_numbers levels self.entry.tree.now class self.entry.at) }
    {
        parts::skip(self.tree, self.at, class, levels)
    }
}

// The own bytes of a file's list of tokens, which is the whole tree: how many tokens there are, and where the first
// begins.
pub fn list_head(tree: &[u8]) -> Result<Own, Refusal>
    ensures { let bytes = tree.now in
        (result ≡ read_own bytes 0 Class.Tokens 64) × (numbers_own result ≡ own_numbers bytes 0 Class.Tokens 64) }
{
    Reader::new(tree).own_bytes(Class::Tokens, 64)
}

// The place behind so many tokens in a row.
fn behind_row(tree: &[u8], at: usize, count: usize) -> Result<usize, Refusal>
    ensures { result ≡ behind_row tree.now at count }
{
    let mut reader = Reader::new(tree).moved(at);
    for _ in 0..count {
        reader = reader.moved(reader.behind(Class::BareToken, 63)?);
    }
    Ok(reader.at)
}

// The place behind so many tokens of a file's list, behind all where it has fewer, or the refusal that is met before
// it.
pub fn behind_tokens(tree: &[u8], count: usize) -> Result<usize, Refusal>
    ensures answer { result ≡ tokens_behind tree.now count }
    ensures numbers { numbers_skipped result ≡ tokens_numbers tree.now count }
{
    let list = list_head(tree)?;
    behind_row(tree, list.end, count.min(list.count))
}
