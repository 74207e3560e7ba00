// The calls for programs in other languages, which link them by crate `exports_c`: the answer is one number, 2^32 times
// the refusal's number plus the text's length or the place (but of `has_ink`, which refuses nothing: a `bool`). They
// ask nothing of their caller, and their promises are those of the calls that they wrap.
#![tactic(auto)]

ghost use Rattle.std.specs.Prelude.{◌≡◌, not, length};
ghost use Rattle.answers.specs.Texts.{answer_in, buffer_after};
ghost use Rattle.answers.specs.Numbers.{answer_of};
ghost use Rattle.text.specs.Stores.{zeros};
ghost use Rattle.text.specs.Ink.{all_blank};
ghost use Rattle.chunks.specs.Reading.{chunks_of};
ghost use Rattle.columns.specs.Setting.{join_outcome};
ghost use Rattle.columns.specs.Promise.{Promised};
ghost use Rattle.tree.specs.Checking.{batch_checked};
ghost use Rattle.tokens.specs.Chunks.{chunks_held, chunks_answer, RoomHolds, chunks_room};
ghost use Rattle.formatting.specs.Formatting.{formatted};
ghost use Rattle.formatting.specs.Demands.{Lesson};
ghost use Rattle.losses.specs.Lost.{lost_from, loss_answer, Narrow};
ghost use Rattle.exports.specs.Packed.{packed_of, Small};

use answers::{Answer, Numbered};
use losses::Lost;
use text::scans;

// A packed answer is its number times this and its value, which is below it.
const VALUE_LIMIT: usize = 1 << 32;

// A loss's answer is its letters times this and its offset, which is below it.
const OFFSET_LIMIT: usize = 1 << 16;

// An answer as one number.
fn packed(answer: Answer) -> u64
    requires { Small answer }
    ensures { result ≡ packed_of answer }
{
    (VALUE_LIMIT * answer.number() + answer.value()) as u64
}

// `join::join_chunks`: the text of a stored chunk list, or refusal 1, 2, 6, 7 or 9.
pub fn felgutrosa_join_chunks(chunks: &[u8], options: &[u8], text: &mut [u8]) -> u64
    ensures answer { let outcome = join_outcome chunks.now options.now in
        result ≡ packed_of (answer_in outcome (length text.old)) }
    ensures small { let outcome = join_outcome chunks.now options.now in
        Small (answer_in outcome (length text.old)) }
    ensures buffer { let outcome = join_outcome chunks.now options.now in
        text.new ≡ buffer_after outcome text.old }
    ensures demands { let outcome = join_outcome chunks.now options.now in
        Promised (chunks_of chunks.now) outcome }
{
    packed(join::join_chunks(chunks, options, text))
}

// `tree::check_tree`: whether bytes are a stored tree; 0, or refusal 3, 4, 5 or 7.
pub fn felgutrosa_check_tree(tree: &[u8]) -> u64
    ensures answer { result ≡ packed_of (answer_of (batch_checked tree.now)) }
    ensures small { Small (answer_of (batch_checked tree.now)) }
{
    let checked = tree::check_tree(tree);
    packed(answers::answer_of(checked))
}

// `tokens::chunks`: the chunks of a stored tree, stored at the start of the work room; or refusal 1, 2, 3, 4, 5, 7 or
// 8.
pub fn felgutrosa_chunks(tree: &[u8], options: &[u8], room: &mut [u8]) -> u64
    ensures answer { let held = chunks_held tree.now options.now (length room.old) in
        result ≡ packed_of (chunks_answer held) }
    ensures small { let held = chunks_held tree.now options.now (length room.old) in
        Small (chunks_answer held) }
    ensures stored { let held = chunks_held tree.now options.now (length room.old) in
        RoomHolds held room.new }
    ensures room { room.new ≡ chunks_room tree.now options.now room.old }
{
    packed(tokens::chunks(tree, options, room))
}

// `formatting::format`: the text of a stored tree, or refusal 1, 2, 3, 4, 5, 7, 8 or 9. The work room is all zeros
// afterwards.
pub fn felgutrosa_format(tree: &[u8], options: &[u8], work: &mut [u8], text: &mut [u8]) -> u64
    ensures answer { let lesson = formatted tree.now options.now (length work.old) in
        result ≡ packed_of (answer_in lesson (length text.old)) }
    ensures small { let lesson = formatted tree.now options.now (length work.old) in
        Small (answer_in lesson (length text.old)) }
    ensures buffer { let lesson = formatted tree.now options.now (length work.old) in
        text.new ≡ buffer_after lesson text.old }
    ensures work { work.new ≡ zeros (length work.old) }
    ensures demands { let lesson = formatted tree.now options.now (length work.old) in
        Lesson tree.now options.now lesson }
{
    packed(formatting::format(tree, options, work, text))
}

// A record that uses a place, as an answer: 65,536 times its letters plus its offset, and 0 where there is none.
fn loss_answer(lost: Lost) -> Answer
    requires { Narrow lost }
    ensures { result ≡ loss_answer lost }
{
    match lost? {
        Some(loss) => Ok(OFFSET_LIMIT * loss.letters + loss.place),
        None => Ok(0),
    }
}

// `losses::lost`: the first record at or after an offset that uses one of the eight places; or refusal 3, 4, 5 or 7.
pub fn felgutrosa_lost(tree: &[u8], from: usize) -> u64
    ensures answer { result ≡ packed_of (loss_answer (lost_from from tree.now)) }
    ensures small { Small (loss_answer (lost_from from tree.now)) }
    ensures narrow { Narrow (lost_from from tree.now) }
{
    packed(loss_answer(losses::lost(tree, from)))
}

// `text::scans::has_ink`: whether a line has a byte that is not blank. It reads no further than the first.
pub fn felgutrosa_has_ink(line: &[u8]) -> bool
    ensures { result ≡ not (all_blank line.now) }
{
    scans::has_ink(line)
}
