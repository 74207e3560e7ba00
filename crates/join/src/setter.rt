// The column setter over arbitrary bytes.
ghost use Rattle.std.specs.Prelude.{◌≡◌, length};
ghost use Rattle.answers.specs.Numbers.{numbers};
ghost use Rattle.answers.specs.Texts.{answer_in, buffer_after, numbers_in};
ghost use Rattle.chunks.specs.Reading.{chunks_of};
ghost use Rattle.chunks.specs.Judging.{chunks_checked};
ghost use Rattle.columns.specs.Setting.{text_of, unless_failed, join_outcome};
ghost use Rattle.columns.specs.Promise.{Promised};
ghost use Rattle.join.specs.Walk.{Narrow};

use crate::lines;
use crate::piece::Judged;
use answers::{Answer, Reason, Refusal};
use chunks::list;
use columns::Margins;

// The setter at given margins: refusals 6, 7 and 9.
pub(crate) fn join_with(chunks: &[u8], margins: Margins, text: &mut [u8]) -> Answer
    requires { Narrow margins }
    ensures answer { let list = chunks.now in
        let outcome = unless_failed (chunks_checked list) (text_of margins (chunks_of list)) in
        result ≡ answer_in outcome (length text.old) }
    ensures buffer { let list = chunks.now in
        let outcome = unless_failed (chunks_checked list) (text_of margins (chunks_of list)) in
        text.new ≡ buffer_after outcome text.old }
    ensures demands { let list = chunks.now in
        let outcome = unless_failed (chunks_checked list) (text_of margins (chunks_of list)) in
        Promised (chunks_of list) outcome }
{
    list::check_chunks(chunks)?;
    let judged = Judged {
        list: chunks,
        margins,
    };
    let length = lines::measure_lines(judged);
    if text.len() < length {
        return Err(Refusal {
            reason: Reason::TextRoom,
            place: length,
        });
    }
    lines::write_lines(&mut text[..length], judged);
    Ok(length)
}

// The text of a stored chunk list under stored options, at the buffer's start; or refusal 1, 2, 6, 7 or 9.
pub fn join_chunks(chunks: &[u8], options: &[u8], text: &mut [u8]) -> Answer
    ensures answer { let outcome = join_outcome chunks.now options.now in
        result ≡ answer_in outcome (length text.old) }
    ensures buffer { let outcome = join_outcome chunks.now options.now in
        text.new ≡ buffer_after outcome text.old }
    ensures demands { let outcome = join_outcome chunks.now options.now in
        Promised (chunks_of chunks.now) outcome }
    ensures numbers { let outcome = join_outcome chunks.now options.now in
        numbers result ≡ numbers_in outcome (length text.old) }
{
    let options = options::read_options(options)?;
    join_with(chunks, Margins::from(options), text)
}
