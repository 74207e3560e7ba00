// The tree call: a stored tree becomes a lesson in columns.
#![tactic(auto)]

ghost use Rattle.std.specs.Prelude.{◌≡◌, length};
ghost use Rattle.answers.specs.Numbers.{numbers};
ghost use Rattle.answers.specs.Texts.{answer_in, buffer_after, numbers_in};
ghost use Rattle.text.specs.Stores.{zeros};
ghost use Rattle.formatting.specs.Formatting.{formatted};
ghost use Rattle.formatting.specs.Demands.{Lesson};

use answers::Answer;
use text::stores;

// The call with a work room that is left as the walk leaves it.
fn format_in(tree: &[u8], options: &[u8], work: &mut [u8], text: &mut [u8]) -> Answer
    ensures answer { let lesson = formatted tree.now options.now (length work.old) in
        result ≡ answer_in lesson (length text.old) }
    ensures buffer { let lesson = formatted tree.now options.now (length work.old) in
        text.new ≡ buffer_after lesson text.old }
    ensures demands { let lesson = formatted tree.now options.now (length work.old) in
        Lesson tree.now options.now lesson }
{
    let used = tokens::chunks_in_one_pass(tree, options, work)?;
    join::join_chunks(&work[..used], options, text)
}

// The text of a stored tree under stored options, at the text buffer's start; or refusal 1, 2, 3, 4, 5, 7, 8 or 9. The
// work room is all zeros afterwards.
pub fn format(tree: &[u8], options: &[u8], work: &mut [u8], text: &mut [u8]) -> Answer
    ensures answer { let lesson = formatted tree.now options.now (length work.old) in
        result ≡ answer_in lesson (length text.old) }
    ensures buffer { let lesson = formatted tree.now options.now (length work.old) in
        text.new ≡ buffer_after lesson text.old }
    ensures work { work.new ≡ zeros (length work.old) }
    ensures demands { let lesson = formatted tree.now options.now (length work.old) in
        Lesson tree.now options.now lesson }
    ensures numbers { let lesson = formatted tree.now options.now (length work.old) in
        numbers result ≡ numbers_in lesson (length text.old) }
{
    let answer = format_in(tree, options, work, text);
    stores::clear(work);
    answer
}
