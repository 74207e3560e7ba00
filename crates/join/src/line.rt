// One line: walked piece by piece, measured, and given to a sink.
ghost use Rattle.std.specs.Prelude.{◌≡◌, List, ◌++◌, true, ℕ, ◌+◌, ◌*◌, ◌≤◌, ◌<◌, length, Some};
ghost use Rattle.text.specs.Ink.{spaces};
ghost use Rattle.join.specs.Walk.{Inside, Measured, Fits, step_bytes, step_length, taken, bytes_at, LineWalked};
ghost use Rattle.join.specs.Walk.{Ran, Showing};

use crate::piece;
use crate::piece::{Judged, Spot, Step};
use crate::sink::Sink;
use text::scans;

// A line's length, the blanks before its first ink, and the place behind its last ink (0 for none).
#[derive(Clone, Copy)]
pub struct Measure {
    pub length: usize,
    pub leading: usize,
    pub ink_end: usize,
}

impl Measure {
    // `count` spaces more.
    pub(crate) fn with_blanks(self, count: usize) -> Measure
        requires { Fits self count }
        ensures measured { (bytes : List ℕ) → Measured self bytes → Measured result (bytes ++ spaces count) }
        ensures length { (result.length ≡ self.length + count) × (result.leading ≤ result.length) }
    {
        let length = self.length + count;
        if self.ink_end == 0 {
            return Measure {
                length,
                leading: self.leading + count,
                ink_end: 0,
            };
        }
        Measure { length, ..self }
    }

    // The bytes of a text more. Their first inked byte tells that they have ink; only where they have some is its end
    // looked for.
    pub(crate) fn with_text(self, bytes: &[u8]) -> Measure
        requires { Fits self (length bytes.now) }
        ensures measured { (line : List ℕ) → Measured self line → Measured result (line ++ bytes.now) }
        ensures length { (result.length ≡ self.length + length bytes.now) × (result.leading ≤ result.length) }
    {
        if !scans::has_ink(bytes) {
            return self.with_blanks(bytes.len());
        }
        let length = self.length + bytes.len();
        let ink_end = self.length + scans::ink_end(bytes);
        if self.ink_end == 0 {
            return Measure {
                length,
                leading: self.length + scans::leading_blanks(bytes),
                ink_end,
            };
        }
        Measure {
            length,
            ink_end,
            ..self
        }
    }

    // A step's spaces and text more, behind ink: the blanks before the first ink stay as they are. That the line has
    // ink is known and not asked again. What is looked for is where the ink ends, since trailing blanks are cut: that
    // scan has to start at the end.
    pub(crate) fn with_inked(self, step: Step) -> Measure
        requires inked { self.ink_end ≡ 0 → ⊥ }
        requires fits { Fits self (step_length step) }
        ensures measured { (bytes : List ℕ) → Measured self bytes → Measured result (bytes ++ step_bytes step.entry) }
        ensures length { (result.length ≡ self.length + step_length step.entry) × (result.leading ≤ result.length) }
    {
        let start = self.length + step.before;
        let length = start + step.text.len() + step.behind;
        let ink = scans::ink_end(step.text);
        if ink == 0 {
            return Measure { length, ..self };
        }
        Measure {
            length,
            ink_end: start + ink,
            ..self
        }
    }

    // A step's spaces and text more.
    pub(crate) fn with_step(self, step: Step) -> Measure
        requires { Fits self (step_length step) }
        ensures measured { (bytes : List ℕ) → Measured self bytes → Measured result (bytes ++ step_bytes step.entry) }
        ensures length { (result.length ≡ self.length + step_length step.entry) × (result.leading ≤ result.length) }
    {
        if self.ink_end != 0 {
            return self.with_inked(step);
        }
        self.with_blanks(step.before)
            .with_text(step.text)
            .with_blanks(step.behind)
    }
}

// A chunk that starts while the indent is unset sets it.
pub(crate) fn takes(indent: Option<usize>, spot: Spot) -> Option<usize>
    ensures { result ≡ taken indent spot }
{
    match indent {
        Some(_) => indent,
        None if spot.at == spot.start => Some(spot.indent),
        None => None,
    }
}

// A line that is still open, and the spot that it goes on from.
#[derive(Clone, Copy)]
pub struct Run {
    pub measure: Measure,
    pub spot: Spot,
}

// Passes over the chunks that cannot end a line, each of which is given to the sink. They are most of all chunks, so
// this loop has nothing else in it.
#[inline(always)]
pub(crate) fn pass<S: Sink>(
    sink: S,
    text: &mut [u8],
    judged: Judged,
    measure: Measure,
    spot: Spot,
) -> Run
    requires inside { Inside judged.list.now spot }
    requires leading_le_length { (measure.leading ≤ measure.length) × (measure.length ≤ 512 * spot.at) }
    requires room { S.fits sink (length text.old) }
    ensures { let list = judged.entry.list.now in
        ((n : ℕ) → Ran judged.entry.margins list spot (S.put sink) text.old text.new
        measure (Some n) result.measure result.spot) }
{
    let mut reached = measure;
    let mut here = spot;
    while piece::is_whole(judged.list, here) {
        let step = judged.step_whole(here, reached.length);
        sink.take(text, reached.length, step);
        reached = reached.with_step(step);
        here = step.spot;
    }
    Run {
        measure: reached,
        spot: here,
    }
}

// The same once the line has its indent; before, each piece may set it.
#[inline(always)]
pub(crate) fn pass_on<S: Sink>(
    sink: S,
    text: &mut [u8],
    judged: Judged,
    measure: Measure,
    indent: Option<usize>,
    spot: Spot,
) -> Run
    requires inside { Inside judged.list.now spot }
    requires leading_le_length { (measure.leading ≤ measure.length) × (measure.length ≤ 512 * spot.at) }
    requires room { S.fits sink (length text.old) }
    ensures { Ran judged.entry.margins judged.entry.list.now spot (S.put sink) text.old text.new
        measure indent result.measure result.spot }
{
    match indent {
        Some(_) => pass(sink, text, judged, measure, spot),
        None => Run { measure, spot },
    }
}

// A line that was walked to its end: its measures, its indent, and the spot behind it.
#[derive(Clone, Copy)]
pub struct Walked {
    pub measure: Measure,
    pub indent: usize,
    pub spot: Spot,
}

// The line that starts at a spot, measured to its end while its steps are given to the sink.
#[inline(always)]
pub(crate) fn walk<S: Sink>(sink: S, text: &mut [u8], judged: Judged, spot: Spot) -> Walked
    requires inside { Inside judged.list.now spot }
    requires room { S.fits sink (length text.old) }
    ensures walked { LineWalked judged.entry.margins judged.entry.list.now spot result }
    ensures showing { let line = bytes_at judged.entry.margins judged.entry.list.now spot in
        Showing (S.put sink) text.old text.new line true }
{
    let mut measure = Measure {
        length: 0,
        leading: 0,
        ink_end: 0,
    };
    let mut indent = None;
    let mut here = spot;
    let mut ended = false;
    while !ended {
        indent = takes(indent, here);
        let run = pass_on(sink, text, judged, measure, indent, here);
        measure = run.measure;
        let step = judged.step_over(run.spot, measure.length);
        if !step.is_empty() {
            sink.take(text, measure.length, step);
            measure = measure.with_step(step);
        }
        ended = step.ends;
        here = step.spot;
    }
    Walked {
        measure,
        indent: indent.unwrap_or(0),
        spot: here,
    }
}
