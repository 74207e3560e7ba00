// Runs the samples of document 01 and writes what comes of each; the file stdout beside src/ has what is expected.
#![tactic(auto)]

use answers::{Answer, Numbered};
use std::io;

// The options that stored bytes stand for, or the number and place of the refusal.
fn show_options(rt: &impl Print, name: &str, stored: &[u8]) -> io::Result<()> {
    match options::read_options(stored) {
        Ok(options) => {
            let whitespace = options.whitespace;
            println!(rt;
                "{name} 0: indent {}, margins {} {}, listing {}",
                whitespace.indent,
                whitespace.label_margin,
                whitespace.code_margin,
                options.listing.num_bytes_per_line
            )
        }
        Err(refusal) => { println!(rt; "{name} {} {}", refusal.reason.number(), refusal.place) }
    }
}

// The answer's number and value, and the text that stands at the buffer's start.
fn show_answer(rt: &impl Print, name: &str, answer: Answer, text: &[u8]) -> io::Result<()> {
    println!(rt; "{name} {} {}", answer.number(), answer.value())?;
    if let Ok(length) = answer {
        if let Some(written) = text.get(..length) {
            rt.write_all(written)?;
            println!(rt;)?;
        }
    }
    Ok(())
}

// The text of a stored chunk list in a buffer of up to 64 bytes.
fn show_join(
    rt: &impl Print,
    name: &str,
    chunks: &[u8],
    options: &[u8],
    room: usize,
) -> io::Result<()> {
    let mut buffer = [0u8; 64];
    let Some(text) = buffer.get_mut(..room) else {
        return Ok(());
    };
    let answer = join::join_chunks(chunks, options, text);
    show_answer(rt, name, answer, text)
}

// The text of a stored tree in a work room of up to 512 bytes and a buffer of up to 64.
fn show_format(
    rt: &impl Print,
    name: &str,
    tree: &[u8],
    options: &[u8],
    room: usize,
    length: usize,
) -> io::Result<()> {
    let mut work = [0u8; 512];
    let mut buffer = [0u8; 64];
    let Some(room) = work.get_mut(..room) else {
        return Ok(());
    };
    let Some(text) = buffer.get_mut(..length) else {
        return Ok(());
    };
    let answer = formatting::format(tree, options, room, text);
    show_answer(rt, name, answer, text)
}

fn show_all_options(rt: &impl Print) -> io::Result<()> {
    show_options(rt, "options of no bytes", b"")?;
    show_options(rt, "options, no bit stands", b"\x00")?;
    show_options(rt, "options, a byte too many", b"\x00\x00")?;
    show_options(rt, "options, indent 64", b"\x08\x40")?;
    show_options(rt, "options, indent 65", b"\x08\x41")?;
    show_options(rt, "options, casings 1 and 2", b"\x03\x01\x02")?;
    show_options(
        rt,
        "options, alignment 2 behind two margins",
        b"\x70\xff\x02\x00",
    )?;
    show_options(
        rt,
        "options, all bits stand",
        b"\xff\x01\x00\x01\x02\x03\x00\x04\x05",
    )
}

// No line, one line, and lines of labels and code.
fn show_labels_and_code(rt: &impl Print) -> io::Result<()> {
    let lines = b"\x00\x03\x00nop\x00\x01\x00\n\x00\x01\x00\n\x00\x01\x00\n\x00\x03\x00rts";
    show_join(rt, "no chunks", b"", b"\x00", 64)?;
    show_join(rt, "a newline", b"\x00\x01\x00\n", b"\x00", 64)?;
    show_join(
        rt,
        "two newlines",
        b"\x00\x01\x00\n\x00\x01\x00\n",
        b"\x00",
        64,
    )?;
    show_join(
        rt,
        "label / nop",
        b"\x01\x02\x00a:\x00\x03\x00nop",
        b"\x00",
        64,
    )?;
    show_join(
        rt,
        "label / newline",
        b"\x01\x02\x00a:\x00\x01\x00\n",
        b"\x00",
        64,
    )?;
    show_join(
        rt,
        "label / newline / nop",
        b"\x01\x02\x00a:\x00\x01\x00\n\x00\x03\x00nop",
        b"\x00",
        64,
    )?;
    show_join(rt, "nop / three newlines / rts", lines, b"\x00", 64)
}

// A comment alone, before code, of two lines, and the empty lines behind code.
fn show_comments(rt: &impl Print) -> io::Result<()> {
    let behind = b"\x02\x04\x00// c\x00\x01\x00\n\x00\x01\x00\n\x00\x03\x00nop";
    let before = b"\x02\x07\x00/* c */\x00\x03\x00nop";
    let two_lines = b"\x06\x04\x00\x09\x00/* a\nb */";
    let code = b"\x00\x03\x00nop\x00\x01\x00\n\x00\x01\x00\n\x00\x03\x00rts";
    show_join(rt, "comment", b"\x02\x04\x00// c", b"\x00", 64)?;
    show_join(rt, "comment / two newlines / nop", behind, b"\x00", 64)?;
    show_join(rt, "comment / nop", before, b"\x00", 64)?;
    show_join(rt, "comment of two lines, indent 4", two_lines, b"\x00", 64)?;
    show_join(
        rt,
        "code margin 0, nop / two newlines / rts",
        code,
        b"\x40\x00",
        64,
    )
}

// Texts that do not fit, and lists that are refused.
fn show_limits(rt: &impl Print) -> io::Result<()> {
    let label_and_nop = b"\x01\x02\x00a:\x00\x03\x00nop";
    show_join(rt, "23 bytes in a buffer of 22", label_and_nop, b"\x00", 22)?;
    show_join(rt, "23 bytes in a buffer of 23", label_and_nop, b"\x00", 23)?;
    show_join(rt, "a text length of 0", b"\x00\x00\x00", b"\x00", 64)?;
    show_join(rt, "byte 128 in a text", b"\x00\x01\x00\x80", b"\x00", 64)
}

// The tree call on a file of one definition, whose value is a definition, and so on, 66 at most: none has a text, and
// the leaves of the innermost stand two levels deeper than there are definitions.
fn show_nested(rt: &impl Print, name: &str, definitions: usize) -> io::Result<()> {
    let count = definitions.min(66);
    let mut bytes = [0u8; 400];
    bytes[0] = 24;
    bytes[2] = 1;
    let records = &mut bytes[4..4 + 6 * count];
    for (i, record) in records.chunks_exact_mut(6).enumerate() {
        let innermost = i + 1 == count;
        record.copy_from_slice(if innermost {
            b"\x06\x06\x19\x00\x19\x00"
        } else {
            b"\x06\x0e\x19\x00\x19\x00"
        });
    }
    show_format(rt, name, &bytes[..4 + 6 * count], b"\x00", 512, 64)
}

// The tree call: the sample, and what is refused before and behind the walk.
fn show_trees(rt: &impl Print) -> io::Result<()> {
    let nop = b"\x18\x00\x01\x00\x0d\x02\x19\x02\x01\x00\x21";
    let no_mnemonic = b"\x18\x00\x01\x00\x0d\x02\x19\x02\x01\x00\x38";
    show_format(rt, "tree: nop", nop, b"\x00", 64, 64)?;
    show_format(rt, "tree: nop in upper case", nop, b"\x01\x00", 64, 64)?;
    show_format(rt, "tree: no tokens", b"\x18\x00\x00\x00", b"\x00", 0, 0)?;
    show_format(rt, "tree of no bytes", b"", b"\x00", 64, 64)?;
    show_format(rt, "tree: no mnemonic 56", no_mnemonic, b"\x00", 64, 64)?;
    show_format(rt, "tree: nop in a work room of 5", nop, b"\x00", 5, 64)?;
    show_format(rt, "tree: nop in a buffer of 22", nop, b"\x00", 6, 22)?;
    show_nested(rt, "tree of 64 levels", 62)?;
    show_nested(rt, "tree of 65 levels", 63)
}

fn main(rt: HostRuntime) -> io::Result<()> {
    show_all_options(&rt)?;
    show_labels_and_code(&rt)?;
    show_comments(&rt)?;
    show_limits(&rt)?;
    show_trees(&rt)
}
