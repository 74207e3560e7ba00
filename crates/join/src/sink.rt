// What is done with the steps of a line while it is walked: nothing, or what a window shows of them is written.
// The walk and all that its steps go through are compiled into the walk's callers (inline): else a step would be handed
// on through memory, and the column setter took up to a fifth more instructions.
ghost use Rattle.std.specs.Prelude.{◌≡◌, List, ℕ, ◌+◌, ◌<◌, ◌≤◌, length};
ghost use Rattle.text.specs.Ink.{spaces};
ghost use Rattle.join.specs.Sinks.{Writes, Room, puts};
ghost use Rattle.join.specs.Walk.{step_bytes, step_length};

use crate::piece::Step;
use crate::store;

pub(crate) trait Sink: Copy {
    // Whether a text of so many bytes can be given to it.
    ghost fits: { Self → ℕ → Type 0 };

    // A text with bytes more, which stand at a place of the line.
    ghost put: { Self → List ℕ → ℕ → List ℕ → List ℕ };

    // The bytes of a step, which stand at `at` of the line.
    fn take(self, text: &mut [u8], at: usize, step: Step)
        requires room { fits self (length text.old) }
        requires end { at + step_length step < 4294967296 }
        ensures { text.new ≡ put self text.old at (step_bytes step.entry) };

    // Bytes may be given at once or one part behind the other.
    ghost writes: { (sink : Self) → Writes (put sink) };
}

// A line that is only measured: its text stays as it is.
#[derive(Clone, Copy)]
pub struct Unwritten;

impl Sink for Unwritten {
    ghost use Rattle.join.specs.Sinks.{nothing_writes};
    ghost use Rattle.std.specs.Prelude.{List, ℕ};

    ghost fits = { λ sink n. Unit {0} };

    ghost put = { λ sink text at bytes. text };

    fn take(self, text: &mut [u8], at: usize, step: Step) {}

    ghost writes = { λ sink. nothing_writes };
}

// The part of a line that is written: its bytes from `low` to `high`, from `base` of the text on.
#[derive(Clone, Copy)]
pub struct Window {
    pub base: usize,
    pub low: usize,
    pub high: usize,
}

impl Sink for Window {
    ghost use Rattle.join.specs.Sinks.{Room, puts, puts_writes};

    ghost fits = { Room };

    ghost put = { puts };

    // With one question for the whole step where the window shows all of it, as it most often does.
    #[inline(always)]
    fn take(self, text: &mut [u8], at: usize, step: Step) {
        let end = at + step.length();
        if self.low <= at && end <= self.high {
            store::store_step(text, self.base + (at - self.low), step);
        } else {
            put_step(text, self, at, step);
        }
    }

    ghost writes = { puts_writes };
}

// Writes what the window shows of `count` spaces that stand at `at` of the line.
fn put_spaces(text: &mut [u8], window: Window, at: usize, count: usize)
    requires { Room window (length text.old) × (at + count < 4294967296) }
    ensures { text.new ≡ puts window text.old at (spaces count) }
{
    if count == 0 {
        return;
    }
    let from = at.max(window.low);
    let to = (at + count).min(window.high);
    if from < to {
        store::store_spaces(text, window.base + (from - window.low), to - from);
    }
}

// Writes what the window shows of bytes that stand at `at` of the line.
fn put_bytes(text: &mut [u8], window: Window, at: usize, bytes: &[u8])
    requires { Room window (length text.old) × (at + length bytes.now < 4294967296) }
    ensures { text.new ≡ puts window text.old at bytes.now }
{
    let from = at.max(window.low);
    let to = (at + bytes.len()).min(window.high);
    if from < to {
        store::store_bytes(
            text,
            window.base + (from - window.low),
            &bytes[from - at..to - at],
        );
    }
}

// Writes what the window shows of a step that stands at `at` of the line.
#[inline(always)]
fn put_step(text: &mut [u8], window: Window, at: usize, step: Step)
    requires room { Room window (length text.old) }
    requires end { at + step_length step < 4294967296 }
    ensures { text.new ≡ puts window text.old at (step_bytes step.entry) }
{
    let start = at + step.before;
    put_spaces(text, window, at, step.before);
    put_bytes(text, window, start, step.text);
    put_spaces(text, window, start + step.text.len(), step.behind);
}
