// A case as it stands in a stream: a command, the options and the payload, each behind its length, the length of the
// work room and that of the text buffer. Numbers have four bytes, the low byte first.
ghost use Rattle.std.specs.Prelude.{◌≤◌, length, IfOk, IfSome};
ghost use Rattle.cases.specs.Cases.{LiesWithin};

use std::io;
use std::io::{ErrorKind, Read};

// The command, how many bytes of their buffers the options and the payload fill, and two lengths.
#[derive(Clone, Copy)]
pub struct Case {
    pub command: u8,
    pub options: usize,
    pub payload: usize,
    pub work: usize,
    pub text: usize,
}

// A byte that is no command of the program.
#[derive(Clone, Copy)]
pub struct NoCommand;

// Fills a buffer; false where the input ends before.
fn read_full(input: &mut impl Read, buffer: &mut [u8]) -> io::Result<bool> {
    match input.read_exact(buffer) {
        Ok(()) => Ok(true),
        Err(error) if error.kind() == ErrorKind::UnexpectedEof => Ok(false),
        Err(error) => Err(error),
    }
}

// A length; none where it is above the most that there is room for, or the input ends.
fn read_length(input: &mut impl Read, most: usize) -> io::Result<Option<usize>>
    ensures { IfOk result (λ read. IfSome read (λ count. count ≤ most)) }
{
    let mut bytes = [0u8; 4];
    if !read_full(input, &mut bytes)? {
        return Ok(None);
    }
    let count = u32::from_le_bytes(bytes) as usize;
    if most < count {
        return Ok(None);
    }
    Ok(Some(count))
}

// A length and as many bytes, to a buffer's start; none where they do not fit, or the input ends.
fn read_sized(input: &mut impl Read, buffer: &mut [u8]) -> io::Result<Option<usize>>
    ensures { IfOk result (λ read. IfSome read (λ count. count ≤ length buffer.old)) }
{
    let Some(count) = read_length(input, buffer.len())? else {
        return Ok(None);
    };
    if read_full(input, &mut buffer[..count])? {
        return Ok(Some(count));
    }
    Ok(None)
}

// The next case; none where the input ends, or a case is cut or longer than the buffers and the most that the two
// lengths may be.
pub fn read_case(
    input: &mut impl Read,
    options: &mut [u8],
    payload: &mut [u8],
    work: usize,
    text: usize,
) -> io::Result<Option<Case>>
    ensures { IfOk result
        (λ read. IfSome read (LiesWithin (length options.old) (length payload.old) work text)) }
{
    let mut command = [0u8; 1];
    if !read_full(input, &mut command)? {
        return Ok(None);
    }
    let Some(options) = read_sized(input, options)? else {
        return Ok(None);
    };
    let Some(payload) = read_sized(input, payload)? else {
        return Ok(None);
    };
    let Some(work) = read_length(input, work)? else {
        return Ok(None);
    };
    let Some(text) = read_length(input, text)? else {
        return Ok(None);
    };
    Ok(Some(Case {
        command: command[0],
        options,
        payload,
        work,
        text,
    }))
}
