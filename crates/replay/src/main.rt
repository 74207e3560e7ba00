// Answers a stream of cases from standard input on standard output: README.md beside src/ says how a case and an answer
// are written.
#![tactic(auto)]

use answers::{Answer, Numbered};
use cases::input;
use cases::input::NoCommand;
use cases::uses::Uses;
use std::io;
use std::io::{BufReader, BufWriter, Read, Write};

// The byte that the text buffer is filled with before a call, and the one that the work room is.
const UNWRITTEN: u8 = 165;

const UNUSED: u8 = 90;

// What is asked of a case.
#[derive(Clone, Copy)]
enum Command {
    // `join_chunks`.
    Join,
    // `join_chunks` with a list that fills the work room.
    JoinRepeated,
    // `chunks`.
    Chunks,
    // `format`.
    Format,
    // `check_tree`.
    Check,
    // `lost`.
    Lost,
}

impl TryFrom<u8> for Command {
    type Error = NoCommand;

    fn try_from(byte: u8) -> Result<Command, NoCommand> {
        match byte {
            b'J' => Ok(Command::Join),
            b'R' => Ok(Command::JoinRepeated),
            b'C' => Ok(Command::Chunks),
            b'F' => Ok(Command::Format),
            b'K' => Ok(Command::Check),
            b'L' => Ok(Command::Lost),
            _ => Err(NoCommand),
        }
    }
}

// The flag: 1 where a byte behind the text changed, and 2 more where the work room is not all zeros.
fn flag_of(text: &[u8], from: usize, work: &[u8]) -> u8 {
    let kept = text
        .get(from..)
        .is_some_and(|rest| rest.iter().all(|&byte| byte == UNWRITTEN));
    let cleared = work.iter().all(|&byte| byte == 0);
    u8::from(!kept) + 2 * u8::from(!cleared)
}

// Writes a number of four bytes, the low byte first.
fn write_four(out: &mut impl Write, value: usize) -> io::Result<()> {
    out.write_all(&value.to_le_bytes()[..4])
}

// Writes the number, the length or place, and the flag.
fn write_head(out: &mut impl Write, answer: Answer, flag: u8) -> io::Result<()> {
    out.write_all(&answer.number().to_le_bytes()[..1])?;
    write_four(out, answer.value())?;
    out.write_all(&[flag])
}

// Writes the answer of a call that writes a text, and under 0 the text.
fn write_text(out: &mut impl Write, answer: Answer, text: &[u8], work: &[u8]) -> io::Result<()> {
    let length = answer.unwrap_or(0);
    write_head(out, answer, flag_of(text, length, work))?;
    if let Some(written) = text.get(..length) {
        out.write_all(written)?;
    }
    Ok(())
}

// A case of the column setter, which has no work room.
fn answer_join(
    out: &mut impl Write,
    options: &[u8],
    chunks: &[u8],
    text: &mut [u8],
) -> io::Result<()> {
    let answer = join::join_chunks(chunks, options, text);
    write_text(out, answer, text, b"")
}

// Fills a room with a part, again and again; the last copy may be cut.
fn repeat(part: &[u8], room: &mut [u8]) {
    if part.is_empty() {
        return;
    }
    for (at, byte) in room.iter_mut().enumerate() {
        *byte = part[at % part.len()];
    }
}

// A case of the column setter with a list that fills the work room; false where there is nothing to repeat.
fn answer_repeated(
    out: &mut impl Write,
    options: &[u8],
    part: &[u8],
    room: &mut [u8],
    text: &mut [u8],
) -> io::Result<bool> {
    if part.is_empty() {
        return Ok(false);
    }
    repeat(part, room);
    answer_join(out, options, room, text)?;
    Ok(true)
}

// A case of the tree's check, which has no text.
fn answer_check(out: &mut impl Write, bytes: &[u8], text: &[u8]) -> io::Result<()> {
    let checked = tree::check_tree(bytes);
    write_head(out, answers::answer_of(checked), flag_of(text, 0, b""))
}

// A case of the walk: the chunks in the work room.
fn answer_chunks(
    out: &mut impl Write,
    options: &[u8],
    bytes: &[u8],
    room: &mut [u8],
    text: &[u8],
) -> io::Result<()> {
    room.fill(UNUSED);
    let answer = tokens::chunks(bytes, options, room);
    write_head(out, answer, flag_of(text, 0, b""))?;
    if let Ok(length) = answer {
        if let Some(chunks) = room.get(..length) {
            out.write_all(chunks)?;
        }
    }
    Ok(())
}

// A case of the tree call.
fn answer_format(
    out: &mut impl Write,
    options: &[u8],
    bytes: &[u8],
    work: &mut [u8],
    text: &mut [u8],
) -> io::Result<()> {
    work.fill(UNUSED);
    let answer = formatting::format(bytes, options, work, text);
    write_text(out, answer, text, work)
}

// Notes a record for each of its places that none was noted for before.
fn note_places(noted: &mut [usize; 8], record: usize, letters: usize) {
    let mut rest = letters;
    for first in noted {
        if *first == 0 && rest % 2 == 1 {
            *first = record;
        }
        rest /= 2;
    }
}

// A case of the search for lost comments: for each place the offset of its first record plus 1, or 0.
fn answer_lost(out: &mut impl Write, bytes: &[u8], text: &[u8]) -> io::Result<()> {
    let flag = flag_of(text, 0, b"");
    let found = match losses::lost(bytes, 0) {
        Ok(found) => found,
        Err(refusal) => return write_head(out, Err(refusal), flag),
    };
    let mut noted = [0; 8];
    // Each search reads all of the bytes: the first was made, and those behind it are searched for from there.
    if let Some(first) = found {
        note_places(&mut noted, first.place + 1, first.letters);
        for loss in Uses::since(bytes, first.place + 1) {
            note_places(&mut noted, loss.place + 1, loss.letters);
        }
    }
    write_head(out, Ok(32), flag)?;
    for first in noted {
        write_four(out, first)?;
    }
    Ok(())
}

// Answers a case by its command; false where there is nothing to answer.
fn answer_command(
    out: &mut impl Write,
    command: Command,
    options: &[u8],
    payload: &[u8],
    room: &mut [u8],
    text: &mut [u8],
) -> io::Result<bool> {
    text.fill(UNWRITTEN);
    match command {
        Command::Join => answer_join(out, options, payload, text)?,
        Command::JoinRepeated => return answer_repeated(out, options, payload, room, text),
        Command::Chunks => answer_chunks(out, options, payload, room, text)?,
        Command::Format => answer_format(out, options, payload, room, text)?,
        Command::Check => answer_check(out, payload, text)?,
        Command::Lost => answer_lost(out, payload, text)?,
    }
    Ok(true)
}

// One case; false where the input ends, or a case is cut, too long or of no command.
fn answer_case(
    input: &mut impl Read,
    out: &mut impl Write,
    options: &mut [u8],
    payload: &mut [u8],
    room: &mut [u8],
    text: &mut [u8],
) -> io::Result<bool> {
    let Some(case) = input::read_case(input, options, payload, room.len(), text.len())? else {
        return Ok(false);
    };
    let Ok(command) = Command::try_from(case.command) else {
        return Ok(false);
    };
    answer_command(
        out,
        command,
        &options[..case.options],
        &payload[..case.payload],
        &mut room[..case.work],
        &mut text[..case.text],
    )
}

// The buffers have the longest lengths that a case may have, which are others than those of `lesson`.
fn main(rt: HostRuntime) -> io::Result<()> {
    let mut input = BufReader::new(rt.alloc(), rt.reader())?;
    let mut out = BufWriter::new(rt.alloc(), io::writer(&rt))?;
    let mut options = [0u8; 16];
    let mut payload = [0u8; 1114112];
    let mut room = [0u8; 1114112];
    let mut text = [0u8; 1114112];
    // More cases than any input has: a program is proved to end.
    for _ in 0..u64::MAX {
        let more = answer_case(
            &mut input,
            &mut out,
            &mut options,
            &mut payload,
            &mut room,
            &mut text,
        )?;
        if !more {
            return Ok(());
        }
        out.flush()?;
    }
    Ok(())
}
