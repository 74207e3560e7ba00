// The command `lesson`: answers cases from standard input on standard output; README.md beside src/ says how a case and
// an answer are written. What it says is put together in crate `wording`; here it is only read, asked for and written.
#![tactic(auto)]

ghost use Rattle.std.specs.Prelude.{◌≤◌};

use answers::Refusal;
use cases::input;
use cases::input::NoCommand;
use cases::uses::Uses;
use chunks::list::Chunks;
use std::io;
use std::io::{BufReader, BufWriter, Read, Write};
use tree::grammar::{Class, Kind};
use tree::{check, own};
use wording::lines::Line;
use wording::{places, records, sentences};

// What is asked of a lesson.
#[derive(Clone, Copy)]
enum Command {
    // The formatted text.
    Format,
    // The records of the tree.
    Tree,
    // The chunks.
    Chunks,
    // What will be lost.
    Lost,
}

impl TryFrom<u8> for Command {
    type Error = NoCommand;

    fn try_from(byte: u8) -> Result<Command, NoCommand> {
        match byte {
            b'F' => Ok(Command::Format),
            b'T' => Ok(Command::Tree),
            b'C' => Ok(Command::Chunks),
            b'L' => Ok(Command::Lost),
            _ => Err(NoCommand),
        }
    }
}

// The exit status, which begins an answer.
fn write_status(out: &mut impl Write, status: usize) -> io::Result<()> {
    let mut room = [0u8; 32];
    let mut line = Line::new(&mut room);
    line.put_number(status);
    line.put(b"\n");
    out.write_all(line.written())
}

// A refusal: its number is the status, and its sentence follows.
fn write_refusal(
    out: &mut impl Write,
    refusal: Refusal,
    tree: &[u8],
    options: &[u8],
    work: usize,
    text: usize,
) -> io::Result<()> {
    write_status(out, refusal.reason.number())?;
    // No sentence has more than 200 bytes.
    let mut room = [0u8; 256];
    let used = sentences::store_refusal(&mut room, refusal, tree, options, work, text);
    out.write_all(&room[..used])
}

// The formatted text.
fn answer_format(
    out: &mut impl Write,
    options: &[u8],
    tree: &[u8],
    work: &mut [u8],
    text: &mut [u8],
) -> io::Result<()> {
    match formatting::format(tree, options, work, text) {
        Ok(length) => {
            write_status(out, 0)?;
            if let Some(written) = text.get(..length) {
                out.write_all(written)?;
            }
            Ok(())
        }
        Err(refusal) => write_refusal(out, refusal, tree, options, work.len(), text.len()),
    }
}

// A line for each chunk of a list, put together in a room.
fn show_chunks(out: &mut impl Write, list: &[u8], room: &mut [u8]) -> io::Result<()> {
    let mut at = 0;
    for chunk in (Chunks { list, at }) {
        let mut line = Line::new(room);
        records::put_chunk(&mut line, list, at, chunk);
        out.write_all(line.written())?;
        at = chunk.end;
    }
    Ok(())
}

// The chunks that the walk holds at its end.
fn answer_chunks(
    out: &mut impl Write,
    options: &[u8],
    tree: &[u8],
    work: &mut [u8],
    room: &mut [u8],
) -> io::Result<()> {
    match tokens::chunks(tree, options, work) {
        Ok(length) => {
            write_status(out, 0)?;
            if let Some(list) = work.get(..length) {
                show_chunks(out, list, room)?;
            }
            Ok(())
        }
        Err(refusal) => write_refusal(out, refusal, tree, options, work.len(), room.len()),
    }
}

// A class in which a kind may stand. Both are of crate `tree`, so no `From` can stand here.
fn class_of(kind: Kind) -> Class {
    match kind {
        Kind::Vec => Class::Tokens,
        Kind::Leaf => Class::Word,
        Kind::PathItem => Class::StringItem,
        Kind::Block => Class::BlockRecord,
        Kind::BinaryExpression | Kind::Factor => Class::LocatedExpression,
        Kind::CurrentProgramCounter
        | Kind::ExprParens
        | Kind::FunctionCall
        | Kind::IdentifierValue
        | Kind::Number
        | Kind::StringFactor => Class::LocatedFactor,
        Kind::InterpolatedString => Class::StringRecord,
        Kind::Operand => Class::OperandRecord,
        Kind::RegisterSuffix => Class::SuffixRecord,
        Kind::ImportAs => Class::AsRecord,
        Kind::ImportAll => Class::ImportArguments,
        Kind::SpecificImportArg => Class::ImportPath,
        Kind::ArgItem => Class::ExpressionArgument,
        _ => Class::LocatedToken,
    }
}

// A line for the record of a class at a place and one for each record in it; the place behind them. The tree was
// checked, so that every record is read: a refusal could not be told any more, behind the status of an accepted tree.
// Place, class and levels are told apart as `read_own` asks for them.
fn show_record(
    out: &mut impl Write,
    tree: &[u8],
    at: usize,
    class: Class,
    levels: usize,
    room: &mut [u8],
) -> io::Result<usize>
    requires { levels ≤ 64 }
{
    let Ok(own) = own::read_own(tree, at, class, levels) else {
        return Ok(at);
    };
    let mut line = Line::new(room);
    records::put_record(&mut line, tree, at, 65 - levels, class, own);
    out.write_all(line.written())?;
    let mut place = own.end;
    for field in check::plan_of(class, own) {
        place = show_record(out, tree, place, field, levels - 1, room)?;
    }
    Ok(place)
}

// The records of a tree.
fn answer_tree(
    out: &mut impl Write,
    tree: &[u8],
    options: &[u8],
    room: &mut [u8],
) -> io::Result<()> {
    match tree::check_tree(tree) {
        Ok(()) => {
            write_status(out, 0)?;
            show_record(out, tree, 0, Class::Tokens, 64, room)?;
            Ok(())
        }
        Err(refusal) => write_refusal(out, refusal, tree, options, 0, room.len()),
    }
}

// A line for each record that uses a place.
fn show_losses(out: &mut impl Write, tree: &[u8], room: &mut [u8]) -> io::Result<()> {
    for loss in Uses::of(tree) {
        let Some(kind) = tree.get(loss.place).copied().and_then(Kind::of_byte) else {
            return Ok(());
        };
        if let Ok(own) = own::read_own(tree, loss.place, class_of(kind), 64) {
            let mut line = Line::new(room);
            places::put_loss(&mut line, tree, loss.place, loss.letters, own);
            out.write_all(line.written())?;
        }
    }
    Ok(())
}

// 1 where ink is lost or doubled: by every use of a place but a register letter's, whose comment is kept.
fn lost_status(tree: &[u8]) -> usize {
    usize::from(Uses::of(tree).any(|loss| loss.letters != places::REGISTER_LETTER))
}

// What formatting a tree will lose or double.
fn answer_lost(
    out: &mut impl Write,
    tree: &[u8],
    options: &[u8],
    room: &mut [u8],
) -> io::Result<()> {
    match losses::lost(tree, 0) {
        Ok(Some(_)) => {
            write_status(out, lost_status(tree))?;
            show_losses(out, tree, room)
        }
        // Each search reads the whole tree, so where the first finds nothing there is no other.
        Ok(None) => write_status(out, 0),
        Err(refusal) => write_refusal(out, refusal, tree, options, 0, room.len()),
    }
}

// Answers a case by its command.
fn answer_command(
    out: &mut impl Write,
    command: Command,
    options: &[u8],
    tree: &[u8],
    work: &mut [u8],
    text: &mut [u8],
) -> io::Result<()> {
    match command {
        Command::Format => answer_format(out, options, tree, work, text),
        Command::Tree => answer_tree(out, tree, options, text),
        Command::Chunks => answer_chunks(out, options, tree, work, text),
        Command::Lost => answer_lost(out, tree, options, text),
    }
}

// One case; false where the input ends, or a case is cut, too long or of no command.
fn answer_case(
    input: &mut impl Read,
    out: &mut impl Write,
    options: &mut [u8],
    tree: &mut [u8],
    work: &mut [u8],
    text: &mut [u8],
) -> io::Result<bool> {
    let Some(case) = input::read_case(input, options, tree, work.len(), text.len())? else {
        return Ok(false);
    };
    let Ok(command) = Command::try_from(case.command) else {
        return Ok(false);
    };
    answer_command(
        out,
        command,
        &options[..case.options],
        &tree[..case.payload],
        &mut work[..case.work],
        &mut text[..case.text],
    )?;
    Ok(true)
}

// The buffers have the longest lengths that a case may have, which are others than those of `replay`.
fn main(rt: HostRuntime) -> io::Result<()> {
    let mut input = BufReader::new(rt.alloc(), rt.reader())?;
    let mut out = BufWriter::new(rt.alloc(), io::writer(&rt))?;
    let mut options = [0u8; 16];
    let mut tree = [0u8; 65536];
    let mut work = [0u8; 1048576];
    let mut text = [0u8; 2097152];
    // More cases than any input has: a program is proved to end.
    for _ in 0..u64::MAX {
        let more = answer_case(
            &mut input,
            &mut out,
            &mut options,
            &mut tree,
            &mut work,
            &mut text,
        )?;
        if !more {
            return Ok(());
        }
        out.flush()?;
    }
    Ok(())
}
