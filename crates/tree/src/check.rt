// The check of a whole tree, in one pass.
ghost use Rattle.std.specs.Prelude.{◌≡◌, [], true, false, ℕ, ◌<◌, ◌≤◌, ◌+◌, ◌-◌, ◌%◌, length, Some, None, IfNone};
ghost use Rattle.std.specs.Option.{option_map};
ghost use Rattle.std.specs.Iterator.{YieldsFirst, item_count};
ghost use Rattle.std.proofs.Math.Seq.{slice};
ghost use Rattle.answers.specs.Numbers.{numbers_checked};
ghost use Rattle.tree.specs.Own.{OwnFits, trivia_end};
ghost use Rattle.tree.specs.Reading.{parts_due, texts_of, trivia_texts, read};
ghost use Rattle.tree.specs.Checking.{read_file, plain_tree, length_checked, tree_checked, batch_checked};
ghost use Rattle.tree.specs.Checking.{length_numbers, tree_numbers};
ghost use Rattle.tree.specs.Rows.{class_of};
ghost use Rattle.tree.specs.Walk.{standing, fault_with, fault_from, record_read, walked, walker_of};
ghost use Rattle.tree.specs.Plans.{plan_of, next_part, plan_left};

use crate::codes::Code;
use crate::grammar::{Class, Kind};
use crate::own::Own;
use crate::{grammar, own};
use answers::{Checked, Reason, Refusal};
use text::scans;

// The code byte of a newline, the one item without a length.
const NEWLINE: u8 = Code::Newline as u8;

// The parts of a record that are still to be read: the fields of a row whose bits stand, then `count` items of a class.
#[derive(Clone, Copy, Debug, PartialEq, Eq)]
pub struct Plan {
    pub row: u64,
    pub bits: usize,
    pub item: Class,
    pub count: usize,
}

// The parts of a record of a class, of which its own bytes were read.
pub fn plan_of(class: Class, own: Own) -> Plan
    ensures { result ≡ plan_of class own }
{
    let rule = grammar::rule_of(class);
    let row = grammar::row_of(own.kind, rule.value);
    let bits = own.map / 2;
    match rule.items {
        Some(item) => Plan {
            row,
            bits,
            item,
            count: own.count,
        },
        None => Plan {
            row,
            bits,
            item: class,
            count: 0,
        },
    }
}

pub(crate) fn slot_class(slot: u64) -> Class
    ensures { result ≡ class_of (slot % 64) }
{
    grammar::class_of(slot % 64)
}

impl Plan {
    // The next part, of which the plan becomes the rest. Only the row and the bits change in the loop: a copy of the
    // whole plan there takes 4 percent more of a check.
    #[inline(always)]
    fn step(&mut self) -> Option<Class>
        ensures part { option_map (λ class. (class, self.new)) result ≡ next_part self.old }
        ensures end { IfNone result (next_part self.new ≡ None) }
    {
        while 0 < self.row {
            let slot = self.row % 128;
            let bit = self.bits % 2;
            self.row /= 128;
            self.bits /= 2;
            if bit == 1 {
                return Some(slot_class(slot));
            }
        }
        self.bits = 0;
        if self.count == 0 {
            return None;
        }
        self.count -= 1;
        Some(self.item)
    }
}

// The next part of a plan, and the plan of the rest.
pub fn next_part(plan: Plan) -> Option<(Class, Plan)>
    ensures { result ≡ next_part plan }
{
    let mut rest = plan;
    let class = rest.step()?;
    Some((class, rest))
}

impl Iterator for Plan {
    type Item = Class;

    ghost next_gives = { YieldsFirst plan_left };

    ghost remaining = { item_count plan_left };

    #[inline(always)]
    fn next(&mut self) -> Option<Class> {
        self.step()
    }
}

// The first byte of tree[start..end] that no text may hold, unless one was found before.
fn fault_in(tree: &[u8], start: usize, end: usize, fault: usize) -> usize
    requires { (start ≤ end) × (end ≤ length tree.now) }
    ensures { let bytes = tree.now in
        result ≡ fault_with bytes fault (record { place = start; bytes = slice start end bytes }) }
{
    if fault < tree.len() {
        return fault;
    }
    let found = start + scans::fault_at(&tree[start..end]);
    if found < end {
        return found;
    }
    fault
}

// The same for the bytes of one trivia item and then for the items behind it, which keep the layout and are not judged
// again.
fn fault_in_trivia(tree: &[u8], at: usize, count: usize, fault: usize) -> usize
    requires { (end : ℕ) × (trivia_end tree.now at count ≡ Some end) }
    ensures { result ≡ fault_from tree.now fault (trivia_texts tree.now at count) }
{
    let mut place = at;
    let mut found = fault;
    for _ in 0..count {
        if tree[place] == NEWLINE {
            place += 1;
        } else {
            let length = usize::from(tree[place + 1]) + 256 * usize::from(tree[place + 2]);
            let start = place + 3;
            found = fault_in(tree, start, start + length, found);
            place = start + length;
        }
    }
    found
}

fn own_fault(tree: &[u8], own: Own, fault: usize) -> usize
    requires { (at : ℕ) × OwnFits tree.now at own }
    ensures { result ≡ fault_from tree.now fault (texts_of tree.now own) }
{
    if fault < tree.len() {
        return fault;
    }
    let first = fault_in_trivia(tree, own.trivia, own.trivia_count, fault);
    fault_in(tree, own.text, own.end, first)
}

// Whether parts of a record may stand: a leaf has none.
fn has_parts(own: Own) -> bool
    ensures { result ≡ false → ((class : Class) → standing (parts_due class own) ≡ []) }
{
    match own.kind {
        Kind::Leaf => own.count != 0,
        _ => true,
    }
}

// The parts of a record whose own bytes were read, one behind the other. A leaf among them ends here, without a call
// for its parts.
fn read_parts(
    tree: &[u8],
    class: Class,
    own: Own,
    levels: usize,
    fault: usize,
) -> Result<(usize, usize), Refusal>
    requires { 0 < levels }
    ensures { let reader = read (levels - 1) tree.now in
        result ≡ walked (walker_of reader tree.now) (standing (parts_due class own)) own.end fault }
{
    let mut place = own.end;
    let mut seen = fault;
    for field in plan_of(class, own) {
        // Not by `?`, which copies the own bytes and so takes 5 percent more of a check.
        let inner = match own::read_own(tree, place, field, levels - 1) {
            Ok(inner) => inner,
            Err(refusal) => return Err(refusal),
        };
        seen = own_fault(tree, inner, seen);
        place = inner.end;
        if has_parts(inner) {
            (place, seen) = read_parts(tree, field, inner, levels - 1, seen)?;
        }
    }
    Ok((place, seen))
}

// The record of a class at a place, with all its parts. A leaf, which is most of what a walk skips, ends here.
pub(crate) fn read_record(
    tree: &[u8],
    at: usize,
    class: Class,
    levels: usize,
    fault: usize,
) -> Result<(usize, usize), Refusal>
    ensures { result ≡ record_read tree.now fault (read levels tree.now class at) }
{
    let own = match own::read_own(tree, at, class, levels) {
        Ok(own) => own,
        Err(refusal) => return Err(refusal),
    };
    let seen = own_fault(tree, own, fault);
    if !has_parts(own) {
        return Ok((own.end, seen));
    }
    read_parts(tree, class, own, levels, seen)
}

// Whether no byte behind the count of the file's list is above 127. One look at all of them takes less than one at each
// text.
pub fn is_plain(tree: &[u8]) -> bool
    ensures { result ≡ plain_tree tree.now }
{
    let end = tree.len();
    if end < 4 {
        return true;
    }
    scans::is_accepted(&tree[4..end])
}

// The file's record. In a plain tree the search for a byte that no text may hold is over before it begins: place 0
// stands for found.
fn read_file(tree: &[u8], levels: usize) -> Result<(usize, usize), Refusal>
    ensures { let bytes = tree.now in
        result ≡ record_read bytes (length bytes) (read_file levels bytes) }
{
    let end = tree.len();
    if !is_plain(tree) {
        return read_record(tree, 0, Class::Tokens, levels, end);
    }
    let (behind, _) = read_record(tree, 0, Class::Tokens, levels, 0)?;
    Ok((behind, end))
}

fn failed(reason: Reason, place: usize) -> Checked
    ensures { result ≡ Err (record { reason = reason; place = place }) }
{
    Err(Refusal { reason, place })
}

// Whether a tree has bytes, and at most `limit` of them: refusal 3.
pub fn check_length(tree: &[u8], limit: usize) -> Checked
    ensures answer { result ≡ length_checked limit tree.now }
    ensures numbers { numbers_checked result ≡ length_numbers limit tree.now }
{
    let end = tree.len();
    if end == 0 {
        return failed(Reason::TreeLength, 0);
    }
    if limit < end {
        return failed(Reason::TreeLength, 0);
    }
    Ok(())
}

// Whether bytes are a stored tree of at most `limit` bytes and `levels` levels: refusals 3, 4, 5 and 7.
pub fn check_within(tree: &[u8], limit: usize, levels: usize) -> Checked
    ensures answer { result ≡ tree_checked limit levels tree.now }
    ensures numbers { numbers_checked result ≡ tree_numbers limit levels tree.now }
{
    let end = tree.len();
    check_length(tree, limit)?;
    let (behind, fault) = read_file(tree, levels)?;
    if behind < end {
        return failed(Reason::TreeLayout, behind);
    }
    if fault < end {
        return failed(Reason::NotAscii, fault);
    }
    Ok(())
}

// Whether bytes are a stored tree.
pub fn check_tree(tree: &[u8]) -> Checked
    ensures answer { result ≡ batch_checked tree.now }
    ensures numbers { numbers_checked result ≡ tree_numbers 65535 64 tree.now }
{
    check_within(tree, 65535, 64)
}
