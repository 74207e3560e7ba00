// The printers of tokens and blocks, and the walk over a whole tree.
#![tactic(auto)]

ghost use Rattle.std.specs.Prelude.{◌≡◌, length, Ok};
ghost use Rattle.answers.specs.Numbers.{numbers};
ghost use Rattle.options.specs.Types.{Narrow};
ghost use Rattle.printing.specs.Running.{room_of};
ghost use Rattle.tokens.specs.Chunks.{held_with, room_with, one_pass_with, chunks_held, chunks_answer, RoomHolds, chunks_room, one_pass_room};
ghost use Rattle.tokens.specs.Chunks.{numbers_held};
ghost use Rattle.tokens.specs.Settling.{file_run, file_walked, settles};

use answers::{Answer, Refusal};
use options::FormattingOptions;
use printers::{Printer, Walked};
use printing::Context;
use tree::check;

pub mod fronts;
pub mod plain;
pub mod walk;

// The walk over a whole tree into an empty room.
fn walk_file(tree: &[u8], options: FormattingOptions, room: &mut [u8]) -> Result<Walked, Refusal>
    requires { Narrow options }
    ensures answer { result ≡ file_walked options tree.now room.old }
    ensures room { room.new ≡ room_of (file_run options tree.now room.old) }
{
    let context = Context { options, indent: 0 };
    let mut printer = Printer::new(tree, room, context);
    walk::format_tokens(&mut printer, 64, false);
    printer.answer()
}

// The walk under given options: refusals 3, 4, 5, 7 and 8.
fn chunks_with(tree: &[u8], options: FormattingOptions, room: &mut [u8]) -> Answer
    requires { Narrow options }
    ensures answer { let held = held_with (Ok options) tree.now (length room.old) in
        result ≡ chunks_answer held }
    ensures stored { let held = held_with (Ok options) tree.now (length room.old) in
        RoomHolds held room.new }
    ensures room { room.new ≡ room_with (Ok options) tree.now room.old }
{
    tree::check_tree(tree)?;
    walk_file(tree, options, room).map(|walked| walked.used)
}

// The chunks of a stored tree under stored options, stored at the start of the work room; or refusal 1, 2, 3, 4, 5, 7
// or 8.
pub fn chunks(tree: &[u8], options: &[u8], room: &mut [u8]) -> Answer
    ensures answer { let held = chunks_held tree.now options.now (length room.old) in
        result ≡ chunks_answer held }
    ensures stored { let held = chunks_held tree.now options.now (length room.old) in
        RoomHolds held room.new }
    ensures room { room.new ≡ chunks_room tree.now options.now room.old }
    ensures numbers { let held = chunks_held tree.now options.now (length room.old) in
        numbers result ≡ numbers_held held }
{
    let options = options::read_options(options)?;
    chunks_with(tree, options, room)
}

// Whether the walk's answer says by itself that the tree is accepted. Every record that a walk passes is judged, so one
// that went on to the last byte has met no refusal 4 or 5, and in a plain tree there is no 7.
fn settles(tree: &[u8], walked: Result<Walked, Refusal>) -> bool
    ensures { result ≡ settles tree.now walked }
{
    match walked {
        Ok(walked) => walked.at == tree.len() && check::is_plain(tree),
        Err(_) => false,
    }
}

// The walk under given options before the check: refusals 3, 4, 5, 7 and 8.
fn one_pass_with(tree: &[u8], options: FormattingOptions, room: &mut [u8]) -> Answer
    requires { Narrow options }
    ensures answer { let held = held_with (Ok options) tree.now (length room.old) in
        result ≡ chunks_answer held }
    ensures stored { let held = held_with (Ok options) tree.now (length room.old) in
        RoomHolds held room.new }
    ensures room { room.new ≡ one_pass_with (Ok options) tree.now room.old }
{
    // A tree of a wrong length, however long, is refused without a look at its bytes
    check::check_length(tree, 65535)?;
    let walked = walk_file(tree, options, room);
    if !settles(tree, walked) {
        tree::check_tree(tree)?;
    }
    walked.map(|walked| walked.used)
}

// `chunks` for a caller who clears the room after every answer: the tree is walked first, and checked only where the
// walk does not settle that it is accepted. So a plain tree that is accepted is read once; and a refused one may leave
// chunks in the room.
pub fn chunks_in_one_pass(tree: &[u8], options: &[u8], room: &mut [u8]) -> Answer
    ensures answer { let held = chunks_held tree.now options.now (length room.old) in
        result ≡ chunks_answer held }
    ensures stored { let held = chunks_held tree.now options.now (length room.old) in
        RoomHolds held room.new }
    ensures room { room.new ≡ one_pass_room tree.now options.now room.old }
    ensures numbers { let held = chunks_held tree.now options.now (length room.old) in
        numbers result ≡ numbers_held held }
{
    let options = options::read_options(options)?;
    one_pass_with(tree, options, room)
}
