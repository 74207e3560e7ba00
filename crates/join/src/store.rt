// Runs of bytes, stored where the text has room for them.
ghost use Rattle.std.specs.Prelude.{◌≡◌, ◌+◌, ◌*◌, ◌<◌, ◌≤◌, length};
ghost use Rattle.std.proofs.Math.Seq.{slice};
ghost use Rattle.std.proofs.lemmas.List.Edits.{sets};
ghost use Rattle.text.specs.Ink.{spaces};
ghost use Rattle.join.specs.Walk.{step_bytes, step_length};

use crate::piece::Step;
use text::characters;

// Spaces, of which there is most often none or one.
pub(crate) fn store_spaces(text: &mut [u8], place: usize, count: usize)
    requires { place + count ≤ length text.old }
    ensures { text.new ≡ sets text.old place (spaces count) }
{
    match count {
        0 => {}
        1 => text[place] = characters::SPACE,
        _ => text[place..place + count].fill(characters::SPACE),
    }
}

// One to three bytes: the first, the middle and the last. All are read before one is stored. Most texts are so short:
// by `store_ends` for one and for two, the column setter took up to 3 percent more instructions than by this.
fn store_few(text: &mut [u8], place: usize, bytes: &[u8])
    requires { (0 < length bytes.now) × (length bytes.now < 4) × (place + length bytes.now ≤ length text.old) }
    ensures { text.new ≡ sets text.old place bytes.now }
{
    let middle = bytes.len() / 2;
    let last = bytes.len() - 1;
    let (a, b, c) = (bytes[0], bytes[middle], bytes[last]);
    text[place] = a;
    text[place + middle] = b;
    text[place + last] = c;
}

// The first and the last N bytes of at most twice as many: they may overlap. Each is a copy of a known size, so it is
// compiled without a call.
#[inline(always)]
fn store_ends<const N: usize>(text: &mut [u8], place: usize, bytes: &[u8])
    requires { (N ≤ length bytes.now) × (length bytes.now ≤ 2 * N) × (place + length bytes.now ≤ length text.old) }
    ensures { text.new ≡ sets text.old place bytes.now }
{
    let last = bytes.len() - N;
    text[place..place + N].copy_from_slice(&bytes[..N]);
    text[place + last..place + last + N].copy_from_slice(&bytes[last..last + N]);
}

// N bytes, from a place of others on.
#[inline(always)]
fn store_piece<const N: usize>(text: &mut [u8], place: usize, bytes: &[u8], at: usize)
    requires { (at + N ≤ length bytes.now) × (place + N ≤ length text.old) }
    ensures { text.new ≡ sets text.old place (slice at (at + N) bytes.now) }
{
    text[place..place + N].copy_from_slice(&bytes[at..at + N]);
}

// N bytes or more: by pieces of N, the last of which may overlap the one before. The longer the pieces, the fewer the
// turns. No `copy_from_slice` of any length stands here: by it the archive for C would need `memmove` from outside
// (rust/felgutrosa/README.md).
fn store_many<const N: usize>(text: &mut [u8], place: usize, bytes: &[u8])
    requires { (0 < N) × (N ≤ length bytes.now) × (place + length bytes.now ≤ length text.old) }
    ensures { text.new ≡ sets text.old place bytes.now }
{
    let last = bytes.len() - N;
    let mut i = 0;
    while i < last {
        store_piece::<N>(text, place + i, bytes, i);
        i += N;
    }
    store_piece::<N>(text, place + last, bytes, last);
}

// Any bytes. Most are few: by `copy_from_slice` for every length the column setter took up to a third more
// instructions.
#[inline(always)]
pub(crate) fn store_bytes(text: &mut [u8], place: usize, bytes: &[u8])
    requires { place + length bytes.now ≤ length text.old }
    ensures { text.new ≡ sets text.old place bytes.now }
{
    match bytes.len() {
        0 => {}
        1..=3 => store_few(text, place, bytes),
        4..=8 => store_ends::<4>(text, place, bytes),
        9..=16 => store_ends::<8>(text, place, bytes),
        17..=32 => store_ends::<16>(text, place, bytes),
        33..=64 => store_many::<32>(text, place, bytes),
        _ => store_many::<64>(text, place, bytes),
    }
}

// A step's spaces and text.
#[inline(always)]
pub(crate) fn store_step(text: &mut [u8], place: usize, step: Step)
    requires { place + step_length step ≤ length text.old }
    ensures { text.new ≡ sets text.old place (step_bytes step.entry) }
{
    let start = place + step.before;
    store_spaces(text, place, step.before);
    store_bytes(text, start, step.text);
    store_spaces(text, start + step.text.len(), step.behind);
}
