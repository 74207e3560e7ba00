// Scans of a slice, or of a part of one: blanks at either end, the first newline, the first byte that is not accepted.
ghost use Rattle.std.specs.Prelude.{◌≡◌, not};
ghost use Rattle.text.specs.Ink.{all_blank, leading_blanks, ink_end};
ghost use Rattle.text.specs.Lines.{newline_at};
ghost use Rattle.text.specs.Accepted.{fault_at, accepted_text};

use crate::blanks::is_blank;
use crate::characters;

// Whether a line has ink. The scan stops at the first inked byte, so that it takes no longer for what stands behind it.
pub fn has_ink(line: &[u8]) -> bool
    ensures { result ≡ not (all_blank line.now) }
{
    let mut i = 0;
    loop {
        if line.len() <= i {
            break false;
        }
        if !is_blank(line[i]) {
            break true;
        }
        i += 1;
    }
}

// How many blanks stand before the first ink.
pub fn leading_blanks(bytes: &[u8]) -> usize
    ensures { result ≡ leading_blanks bytes.now }
{
    bytes
        .iter()
        .position(|b| !is_blank(*b))
        .unwrap_or(bytes.len())
}

// The length up to the last ink, 0 where there is none.
pub fn ink_end(bytes: &[u8]) -> usize
    ensures { result ≡ ink_end bytes.now }
{
    bytes
        .iter()
        .rposition(|b| !is_blank(*b))
        .map_or(0, |last| last + 1)
}

// The place of the first newline, or the length where there is none.
pub fn newline_at(bytes: &[u8]) -> usize
    ensures { result ≡ newline_at bytes.now }
{
    bytes
        .iter()
        .position(|b| *b == characters::NEWLINE)
        .unwrap_or(bytes.len())
}

// The place of the first byte that no text may hold, or the length where there is none.
pub fn fault_at(bytes: &[u8]) -> usize
    ensures { result ≡ fault_at bytes.now }
{
    bytes
        .iter()
        .position(|b| !b.is_ascii())
        .unwrap_or(bytes.len())
}

// Whether a text holds only bytes that it may.
pub fn is_accepted(bytes: &[u8]) -> bool
    ensures { result ≡ accepted_text bytes.now }
{
    bytes.is_ascii()
}
