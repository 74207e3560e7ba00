// The lines of a text: which are kept, and where each stands.
ghost use Rattle.std.specs.Prelude.{◌≡◌, true, cond, ◌+◌, ◌≤◌, ◌<◌, length};
ghost use Rattle.std.proofs.lemmas.List.Edits.{sets};
ghost use Rattle.text.specs.Ink.{ink_end};
ghost use Rattle.text.specs.Stores.{stored_buffer};
ghost use Rattle.chunks.specs.Reading.{chunks_of};
ghost use Rattle.columns.specs.Setting.{text_of};
ghost use Rattle.join.specs.Walk.{Inside, bytes_at, LineWalked, cut_of, line_start, grown_by};
ghost use Rattle.join.specs.Walk.{front, cut_bytes, CutFits, window_to, Tried, astray};
ghost use Rattle.join.specs.Sinks.{Room};

use crate::line::{Measure, Walked};
use crate::piece::{Judged, Spot};
use crate::sink::{Unwritten, Window};
use crate::{line, piece};
use chunks::stored::ChunkType;
use columns::Margins;
use text::{characters, stores};

// The text so far: its length, whether it has a line, whether the last line kept is blank, and whether a standalone
// comment came last.
#[derive(Clone, Copy)]
pub struct Past {
    pub length: usize,
    pub any: bool,
    pub blank: bool,
    pub standalone: bool,
}

// How a kept line is set: `lead` spaces, then its bytes from `low` to `high`.
#[derive(Clone, Copy)]
pub struct Cut {
    pub standalone: bool,
    pub lead: usize,
    pub low: usize,
    pub high: usize,
}

// How an ended line is set, if it is kept.
pub(crate) fn cut_of(judged: Judged, past: Past, measure: Measure, indent: usize) -> Option<Cut>
    requires { indent ≤ 4096 }
    ensures { result ≡ cut_of judged.entry.margins past measure indent }
{
    let Margins { label, code, .. } = judged.margins;
    if measure.ink_end == 0 {
        if past.blank || past.standalone {
            return None;
        }
        return Some(Cut {
            standalone: false,
            lead: 0,
            low: 0,
            high: 0,
        });
    }
    let both = label + code;
    if both <= measure.leading {
        return Some(Cut {
            standalone: true,
            lead: indent + label,
            low: both,
            high: measure.ink_end,
        });
    }
    Some(Cut {
        standalone: false,
        lead: indent,
        low: 0,
        high: measure.ink_end,
    })
}

// Where the next line starts: a newline goes before each line but the first.
pub(crate) fn line_start(past: Past) -> usize
    requires { past.length < 9223372036854775808 }
    ensures { result ≡ line_start past }
{
    if past.any {
        return past.length + 1;
    }
    past.length
}

// The text with a kept line.
pub(crate) fn grown(past: Past, cut: Cut) -> Past
    requires { (past.length < 4503599627370496) × CutFits cut 4294967296 }
    ensures { result ≡ grown_by past cut }
{
    Past {
        length: line_start(past) + cut.lead + (cut.high - cut.low),
        any: true,
        blank: cut.high == 0,
        standalone: cut.standalone,
    }
}

// The newline that goes before each line but the first.
pub(crate) fn put_newline(text: &mut [u8], past: Past)
    ensures { text.new ≡ stored_buffer text.old past.length (front past.any) }
{
    if past.any && past.length < text.len() {
        text[past.length] = characters::NEWLINE;
    }
}

// Writes a kept line behind the text so far.
pub(crate) fn write_cut(text: &mut [u8], judged: Judged, spot: Spot, past: Past, cut: Cut)
    requires inside { Inside judged.list.now spot }
    requires cut_fits { CutFits cut (ink_end (bytes_at judged.margins judged.list.now spot)) }
    requires line_in_bounds { let line = bytes_at judged.margins judged.list.now spot in
        past.length + length (cut_bytes past cut line) ≤ length text.old }
    ensures { let line = bytes_at judged.entry.margins judged.entry.list.now spot in
        text.new ≡ sets text.old past.length (cut_bytes past cut line) }
{
    let start = line_start(past);
    let base = start + cut.lead;
    put_newline(text, past);
    stores::fill(text, start, cut.lead, characters::SPACE);
    let window = Window {
        base,
        low: cut.low,
        high: cut.high,
    };
    line::walk(window, text, judged, spot);
}

// Where a line is taken to stand before it was walked: behind `lead` spaces, from its byte `low` on.
#[derive(Clone, Copy)]
pub struct Guess {
    pub lead: usize,
    pub low: usize,
}

// The indent of a line whose first chunk starts with it.
fn first_indent(spot: Spot) -> usize
    requires { spot.indent ≤ 4096 }
    ensures { result ≤ 4096 }
{
    if spot.at == spot.start {
        return spot.indent;
    }
    0
}

// Where the line at a spot most often stands: one that starts with a comment is standalone. Whatever is guessed, the
// text comes out right.
pub(crate) fn guess_of(judged: Judged, spot: Spot) -> Guess
    requires { spot.indent ≤ 4096 }
    ensures { (result.lead ≤ 4351) × (result.low ≤ 510) }
{
    let Margins { label, code, .. } = judged.margins;
    let indent = first_indent(spot);
    match spot.ty {
        ChunkType::Comment => Guess {
            lead: indent + label,
            low: label + code,
        },
        ChunkType::Code | ChunkType::Label => Guess {
            lead: indent,
            low: 0,
        },
    }
}

// The window from `base` of a text to its end; where there is none it shows nothing.
pub(crate) fn window_of(room: usize, base: usize, low: usize) -> Window
    requires { (room < 4503599627370496) × (low ≤ 510) }
    ensures answer { result ≡ window_to room base low }
    ensures within { Room result room }
{
    if base <= room {
        return Window {
            base,
            low,
            high: low + (room - base),
        };
    }
    Window {
        base: 0,
        low: 0,
        high: 0,
    }
}

// Writes the line at a spot as guessed, as far as there is room, while it is walked. Blanks at its end may be written
// too: what follows the line overwrites them.
pub(crate) fn try_line(
    text: &mut [u8],
    judged: Judged,
    spot: Spot,
    past: Past,
    guess: Guess,
) -> Walked
    requires inside { Inside judged.list.now spot }
    requires length_bound { (past.length < 4503599627370496) × (length text.old < 4503599627370496)
        × (guess.lead ≤ 4351) × (guess.low ≤ 510) }
    ensures walked { LineWalked judged.entry.margins judged.entry.list.now spot result }
    ensures tried { let line = bytes_at judged.entry.margins judged.entry.list.now spot in
        Tried past guess line text.old text.new }
{
    let start = line_start(past);
    let base = start + guess.lead;
    put_newline(text, past);
    stores::fill(text, start, guess.lead, characters::SPACE);
    let window = window_of(text.len(), base, guess.low);
    line::walk(window, text, judged, spot)
}

// Whether a kept line stands elsewhere than was guessed.
pub(crate) fn is_astray(cut: Cut, guess: Guess) -> bool
    ensures { result ≡ astray cut guess }
{
    cut.lead != guess.lead || cut.low != guess.low
}

// Writes a line anew that went astray.
pub(crate) fn mend(text: &mut [u8], judged: Judged, spot: Spot, past: Past, cut: Cut, guess: Guess)
    requires inside { Inside judged.list.now spot }
    requires cut_fits { CutFits cut (ink_end (bytes_at judged.margins judged.list.now spot)) }
    requires fact { let line = bytes_at judged.margins judged.list.now spot in
        (astray cut guess ≡ true → past.length + length (cut_bytes past cut line) ≤ length text.old) }
    ensures { let line = bytes_at judged.entry.margins judged.entry.list.now spot in
        text.new ≡ cond (astray cut guess)
        (sets text.old past.length (cut_bytes past cut line)) text.old }
{
    if is_astray(cut, guess) {
        write_cut(text, judged, spot, past, cut);
    }
}

// The length of the text. (Its loop over the lines is short; one for both functions would have to say by cases what
// each promises.)
pub(crate) fn measure_lines(judged: Judged) -> usize
    ensures length { result ≡ length (text_of judged.entry.margins (chunks_of judged.entry.list.now)) }
    ensures small { result < 4503599627370496 }
{
    let mut past = Past {
        length: 0,
        any: false,
        blank: false,
        standalone: false,
    };
    let mut spot = piece::spot_at(judged.list, 0);
    while spot.at < judged.list.len() {
        let walked = line::walk(Unwritten, &mut [], judged, spot);
        if let Some(cut) = cut_of(judged, past, walked.measure, walked.indent) {
            past = grown(past, cut);
        }
        spot = walked.spot;
    }
    past.length
}

// Writes the text to a buffer of its length.
pub(crate) fn write_lines(text: &mut [u8], judged: Judged)
    requires { (length text.old ≡ length (text_of judged.margins (chunks_of judged.list.now)))
        × (length text.old < 4503599627370496) }
    ensures { text.new ≡ text_of judged.entry.margins (chunks_of judged.entry.list.now) }
{
    let mut past = Past {
        length: 0,
        any: false,
        blank: false,
        standalone: false,
    };
    let mut spot = piece::spot_at(judged.list, 0);
    while spot.at < judged.list.len() {
        let guess = guess_of(judged, spot);
        let walked = try_line(text, judged, spot, past, guess);
        if let Some(cut) = cut_of(judged, past, walked.measure, walked.indent) {
            mend(text, judged, spot, past, cut, guess);
            past = grown(past, cut);
        }
        spot = walked.spot;
    }
}
