// The pieces of a chunk list: each chunk is cut after every newline. How each is laid on a line of a known length.
ghost use Rattle.std.specs.Prelude.{◌≡◌, [], true, false, not, ◌&&◌, ◌+◌, ◌-◌, ◌≤◌, ◌<◌, ◌*◌, length, eqb, ltb, leb};
ghost use Rattle.std.specs.List.{list_any, fold};
ghost use Rattle.std.proofs.Math.Seq.{slice};
ghost use Rattle.text.specs.Lines.{newline_at};
ghost use Rattle.chunks.specs.Reading.{chunks_at};
ghost use Rattle.columns.specs.Pieces.{following};
ghost use Rattle.join.specs.Walk.{Narrow, Laid, Standing, Inside, Reached, Passed, piece_length};
ghost use Rattle.join.specs.Walk.{lay_label, lay_code, lay_comment, lay_of, Stepped, Whole, LoneNewline, step_bytes, step_length};

use chunks::judged::JudgedPlace;
use chunks::stored::ChunkType;
use columns::{Follows, Margins};
use options::Alignment;
use text::{characters, scans};

// Where a walk stands: at `at` in the chunk whose text is list[start..end]; past the last chunk all three are the
// list's length.
#[derive(Clone, Copy)]
pub struct Spot {
    pub ty: ChunkType,
    pub indent: usize,
    pub start: usize,
    pub at: usize,
    pub end: usize,
}

// The start of the chunk at a place, or past the last chunk.
pub(crate) fn spot_at(list: &[u8], place: usize) -> Spot
    requires { Laid list.now place × (place ≤ length list.now) }
    ensures { Reached list.now place result }
{
    let Some(chunk) = (JudgedPlace { list, at: place }).chunk() else {
        return Spot {
            ty: ChunkType::Code,
            indent: 0,
            start: place,
            at: place,
            end: place,
        };
    };
    Spot {
        ty: chunk.ty,
        indent: chunk.indent,
        start: chunk.start,
        at: chunk.start,
        end: chunk.end,
    }
}

// Where a piece ends, and whether it ends in a newline.
#[derive(Clone, Copy)]
pub struct PieceEnd {
    pub end: usize,
    pub newline: bool,
}

// The piece that starts list[at..end].
pub(crate) fn piece_end(list: &[u8], at: usize, end: usize) -> PieceEnd
    requires { (at ≤ end) × (end ≤ length list.now) }
    ensures { (result.end ≡ at + piece_length (slice at end list.now))
        × (result.newline ≡ ltb (newline_at (slice at end list.now)) (end - at)) }
{
    let count = scans::newline_at(&list[at..end]);
    if count < end - at {
        return PieceEnd {
            end: at + count + 1,
            newline: true,
        };
    }
    PieceEnd {
        end,
        newline: false,
    }
}

// The spot behind the piece that ends at `end`.
pub(crate) fn spot_after(list: &[u8], spot: Spot, end: usize) -> Spot
    requires { Standing list.now spot × (spot.at < end) × (end ≤ spot.end) }
    ensures { Passed list.now spot end result }
{
    if end < spot.end {
        return Spot { at: end, ..spot };
    }
    spot_at(list, end)
}

// What follows a chunk that ends at a place.
pub(crate) fn behind_chunk(list: &[u8], place: usize) -> Follows
    requires { Laid list.now place × (place ≤ length list.now) }
    ensures { result ≡ following (chunks_at list.now place) }
{
    let Some(chunk) = (JudgedPlace { list, at: place }).chunk() else {
        return Follows::Nothing;
    };
    if chunk.end - chunk.start == 1 && list[chunk.start] == characters::NEWLINE {
        return Follows::Newline;
    }
    Follows::Other
}

// How a piece is laid: the spaces before it and behind it. Where it is ignored nothing is added. (As an Option it would
// have to be unwrapped by `step_whole`, whose pieces are never ignored.)
#[derive(Clone, Copy)]
pub struct Lay {
    pub before: usize,
    pub behind: usize,
    pub ignored: bool,
}

// A list that was judged, and the margins at which its chunks are set.
#[derive(Clone, Copy)]
pub struct Judged<'a> {
    pub list: &'a [u8],
    pub margins: Margins,
    ghost narrow: { Narrow margins },
    ghost short: { length list.now ≤ 1048576 },
    ghost laid: { Laid list.now 0 },
}

// A piece, laid: `before` spaces, its text, `behind` spaces; whether it ends the line, and the spot behind it.
#[derive(Clone, Copy)]
pub struct Step<'a> {
    pub before: usize,
    pub text: &'a [u8],
    pub behind: usize,
    pub ends: bool,
    pub spot: Spot,
}

impl Step<'_> {
    // How many bytes it adds.
    pub(crate) fn length(self) -> usize
        requires { step_length self < 4294967296 }
        ensures { result ≡ step_length self.entry }
    {
        self.before + self.text.len() + self.behind
    }

    // Whether it adds nothing, as most steps that end a line do.
    pub(crate) fn is_empty(self) -> bool
        ensures { result ≡ true → step_bytes self.entry ≡ [] }
    {
        self.before == 0 && self.behind == 0 && self.text.is_empty()
    }
}

// Whether the chunk at a spot is a lone newline of code with another chunk behind it.
pub(crate) fn is_newline(list: &[u8], spot: Spot) -> bool
    requires { Inside list.now spot }
    ensures { result ≡ true → LoneNewline list.now spot }
{
    spot.end < list.len()
        && spot.end - spot.at == 1
        && list[spot.at] == characters::NEWLINE
        && matches!(spot.ty, ChunkType::Code)
}

// Whether no byte of a text is a newline. No test waits for another: so all are made at once where the length is known.
#[inline(always)]
fn are_clear(text: &[u8]) -> bool
    ensures { result ≡ fold (λ clear b. clear && not (eqb b 10)) true text.now }
{
    text.iter()
        .fold(true, |clear, b| clear & (*b != characters::NEWLINE))
}

// The same of a text of N to twice as many bytes: its first and its last N, which may overlap.
#[inline(always)]
fn ends_clear<const N: usize>(text: &[u8]) -> bool
    requires { (N ≤ length text.now) × (length text.now ≤ 2 * N) }
    ensures { result ≡ true → list_any (λ b. eqb b 10) text.now ≡ false }
{
    let last = text.len() - N;
    are_clear(&text[..N]) && are_clear(&text[last..])
}

// The same of any text. Most are of a few bytes, and most of the others begin with the newline: so the first byte is
// asked before the length. By `contains` for every length the column setter took up to a tenth more instructions.
#[inline(always)]
fn is_clear(text: &[u8]) -> bool
    requires { 0 < length text.now }
    ensures { result ≡ true → list_any (λ b. eqb b 10) text.now ≡ false }
{
    text[0] != characters::NEWLINE
        && match text.len() {
            ..=2 => ends_clear::<1>(text),
            3..=4 => ends_clear::<2>(text),
            5..=8 => ends_clear::<4>(text),
            9..=16 => ends_clear::<8>(text),
            _ => !text.contains(&characters::NEWLINE),
        }
}

// Whether the rest of the chunk at a spot has no newline and is followed by another chunk: then it is a piece that
// cannot end a line.
#[inline(always)]
pub(crate) fn is_whole(list: &[u8], spot: Spot) -> bool
    requires { Standing list.now spot }
    ensures { result ≡ true → Whole list.now spot }
{
    spot.end < list.len() && is_clear(&list[spot.at..spot.end])
}

impl<'a> Judged<'a> {
    // A label of `count` bytes on a line of `column` bytes.
    fn lay_label(self, column: usize, count: usize) -> Lay
        requires { count ≤ 1048576 }
        ensures { result ≡ lay_label self.entry.margins column count }
    {
        let Margins {
            label,
            alignment,
            ..
        } = self.margins;
        if label < column {
            return Lay {
                before: 0,
                behind: 1,
                ignored: false,
            };
        }
        let pad = label.saturating_sub(count + 1);
        match alignment {
            Alignment::Left => Lay {
                before: 0,
                behind: 1 + pad,
                ignored: false,
            },
            Alignment::Right => Lay {
                before: pad,
                behind: 1,
                ignored: false,
            },
        }
    }

    fn lay_code(self, column: usize, lone_newline: bool) -> Lay
        ensures { result ≡ lay_code self.entry.margins column lone_newline }
    {
        if lone_newline && 0 < column && column <= self.margins.label {
            return Lay {
                before: 0,
                behind: 0,
                ignored: true,
            };
        }
        Lay {
            before: self.margins.label.saturating_sub(column),
            behind: 0,
            ignored: false,
        }
    }

    fn lay_comment(self, column: usize, follows: Follows) -> Lay
        ensures { result ≡ lay_comment self.entry.margins column follows }
    {
        let Margins { label, code, .. } = self.margins;
        match follows {
            Follows::Other => Lay {
                before: label.saturating_sub(column),
                behind: 1,
                ignored: false,
            },
            Follows::Newline | Follows::Nothing => Lay {
                before: (label + code).saturating_sub(column),
                behind: 0,
                ignored: false,
            },
        }
    }

    // How the piece at a spot is laid on a line of `column` bytes.
    fn lay_piece(self, spot: Spot, column: usize, piece: PieceEnd) -> Lay
        requires inside { Inside self.list.now spot }
        requires piece { (spot.at < piece.end) × (piece.end ≤ spot.end) }
        ensures { result ≡ lay_of self.entry.margins spot.ty column (piece.end - spot.at) piece.newline
            (following (chunks_at self.entry.list.now spot.end)) }
    {
        let count = piece.end - spot.at;
        match spot.ty {
            ChunkType::Label => self.lay_label(column, count),
            ChunkType::Code => self.lay_code(column, count == 1 && piece.newline),
            ChunkType::Comment => self.lay_comment(column, behind_chunk(self.list, spot.end)),
        }
    }

    // Whether a lone newline is not ignored on a line of `column` bytes.
    fn keeps_newline(self, column: usize) -> bool
        ensures { result ≡ not (ltb 0 column && leb column self.entry.margins.label) }
    {
        column == 0 || self.margins.label < column
    }

    // One piece: `column` is the length of the line so far. Most lines end in a newline of their own, which adds only
    // blanks that are cut; where it is ignored it adds nothing: so nothing is laid for it.
    pub(crate) fn step_over(self, spot: Spot, column: usize) -> Step<'a>
        requires { Inside self.list.now spot }
        ensures { Stepped self.entry.margins self.entry.list.now spot column result }
    {
        let list = self.list;
        if is_newline(list, spot) {
            return Step {
                before: 0,
                text: &list[..0],
                behind: 0,
                ends: self.keeps_newline(column),
                spot: spot_after(list, spot, spot.end),
            };
        }
        let piece = piece_end(list, spot.at, spot.end);
        let lay = self.lay_piece(spot, column, piece);
        let last = list.len() <= spot.end;
        let behind = spot_after(list, spot, piece.end);
        if lay.ignored {
            return Step {
                before: 0,
                text: &list[..0],
                behind: 0,
                ends: last,
                spot: behind,
            };
        }
        Step {
            before: lay.before,
            text: &list[spot.at..piece.end],
            behind: lay.behind,
            ends: last || piece.newline,
            spot: behind,
        }
    }

    // The step over a rest of a chunk that is whole.
    pub(crate) fn step_whole(self, spot: Spot, column: usize) -> Step<'a>
        requires inside { Inside self.list.now spot }
        requires whole { Whole self.list.now spot }
        ensures { Stepped self.entry.margins self.entry.list.now spot column result × (result.ends ≡ false) }
    {
        let list = self.list;
        let piece = PieceEnd {
            end: spot.end,
            newline: false,
        };
        let lay = self.lay_piece(spot, column, piece);
        Step {
            before: lay.before,
            text: &list[spot.at..spot.end],
            behind: lay.behind,
            ends: false,
            spot: spot_after(list, spot, spot.end),
        }
    }
}
