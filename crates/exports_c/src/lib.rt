// The functions of crate `exports` as programs in other languages link them: under the same names, with the same
// promises, each slice a pointer and a length. Each stands twice, here as `extern "C"`, because of the C interface: a
// static library is a crate of its own, which no crate can use, so those that call from this language need crate
// `exports`.
#![tactic(auto)]

ghost use Rattle.std.specs.Prelude.{◌≡◌, not, length};
ghost use Rattle.answers.specs.Texts.{answer_in, buffer_after};
ghost use Rattle.answers.specs.Numbers.{answer_of};
ghost use Rattle.text.specs.Stores.{zeros};
ghost use Rattle.text.specs.Ink.{all_blank};
ghost use Rattle.chunks.specs.Reading.{chunks_of};
ghost use Rattle.columns.specs.Setting.{join_outcome};
ghost use Rattle.columns.specs.Promise.{Promised};
ghost use Rattle.tree.specs.Checking.{batch_checked};
ghost use Rattle.tokens.specs.Chunks.{chunks_held, chunks_answer, RoomHolds, chunks_room};
ghost use Rattle.formatting.specs.Formatting.{formatted};
ghost use Rattle.formatting.specs.Demands.{Lesson};
ghost use Rattle.losses.specs.Lost.{lost_from, loss_answer, Narrow};
ghost use Rattle.exports.specs.Packed.{packed_of, Small};

#[unsafe(no_mangle)]
pub extern "C" fn felgutrosa_join_chunks(chunks: &[u8], options: &[u8], text: &mut [u8]) -> u64
    ensures answer { let outcome = join_outcome chunks.now options.now in
        result ≡ packed_of (answer_in outcome (length text.old)) }
    ensures small { let outcome = join_outcome chunks.now options.now in
        Small (answer_in outcome (length text.old)) }
    ensures buffer { let outcome = join_outcome chunks.now options.now in
        text.new ≡ buffer_after outcome text.old }
    ensures demands { let outcome = join_outcome chunks.now options.now in
        Promised (chunks_of chunks.now) outcome }
{
    exports::felgutrosa_join_chunks(chunks, options, text)
}

#[unsafe(no_mangle)]
pub extern "C" fn felgutrosa_check_tree(tree: &[u8]) -> u64
    ensures answer { result ≡ packed_of (answer_of (batch_checked tree.now)) }
    ensures small { Small (answer_of (batch_checked tree.now)) }
{
    exports::felgutrosa_check_tree(tree)
}

#[unsafe(no_mangle)]
pub extern "C" fn felgutrosa_chunks(tree: &[u8], options: &[u8], room: &mut [u8]) -> u64
    ensures answer { let held = chunks_held tree.now options.now (length room.old) in
        result ≡ packed_of (chunks_answer held) }
    ensures small { let held = chunks_held tree.now options.now (length room.old) in
        Small (chunks_answer held) }
    ensures stored { let held = chunks_held tree.now options.now (length room.old) in
        RoomHolds held room.new }
    ensures room { room.new ≡ chunks_room tree.now options.now room.old }
{
    exports::felgutrosa_chunks(tree, options, room)
}

#[unsafe(no_mangle)]
pub extern "C" fn felgutrosa_format(
    tree: &[u8],
    options: &[u8],
    work: &mut [u8],
    text: &mut [u8],
) -> u64
    ensures answer { let lesson = formatted tree.now options.now (length work.old) in
        result ≡ packed_of (answer_in lesson (length text.old)) }
    ensures small { let lesson = formatted tree.now options.now (length work.old) in
        Small (answer_in lesson (length text.old)) }
    ensures buffer { let lesson = formatted tree.now options.now (length work.old) in
        text.new ≡ buffer_after lesson text.old }
    ensures work { work.new ≡ zeros (length work.old) }
    ensures demands { let lesson = formatted tree.now options.now (length work.old) in
        Lesson tree.now options.now lesson }
{
    exports::felgutrosa_format(tree, options, work, text)
}

#[unsafe(no_mangle)]
pub extern "C" fn felgutrosa_lost(tree: &[u8], from: usize) -> u64
    ensures answer { result ≡ packed_of (loss_answer (lost_from from tree.now)) }
    ensures small { Small (loss_answer (lost_from from tree.now)) }
    ensures narrow { Narrow (lost_from from tree.now) }
{
    exports::felgutrosa_lost(tree, from)
}

#[unsafe(no_mangle)]
pub extern "C" fn felgutrosa_has_ink(line: &[u8]) -> bool
    ensures { result ≡ not (all_blank line.now) }
{
    exports::felgutrosa_has_ink(line)
}
