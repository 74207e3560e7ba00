// Stores of runs of bytes into a lent buffer. What does not fit is not written.
ghost use Rattle.std.specs.Prelude.{◌≡◌, ◌+◌, cond, leb, length, replicate, Some, None};
ghost use Rattle.text.specs.Stores.{stored_end, stored_buffer, zeros};

// The place behind so many bytes from a place of a buffer on, where they fit.
fn end_in(buffer: &[u8], at: usize, count: usize) -> Option<usize>
    ensures { result ≡ cond (leb (at + count) (length buffer.now)) (Some (at + count)) None }
{
    at.checked_add(count).filter(|end| *end <= buffer.len())
}

// Copies bytes, a part of another slice for instance, to a place of a buffer. By `copy_from_slice`, of a length that is
// not known when it is compiled, the archive for C would need `memmove` from outside (rust/felgutrosa/README.md).
pub fn copy(bytes: &[u8], buffer: &mut [u8], at: usize) -> Option<usize>
    ensures answer { result ≡ stored_end buffer.old at bytes.now }
    ensures buffer { buffer.new ≡ stored_buffer buffer.old at bytes.now }
{
    let end = end_in(buffer, at, bytes.len())?;
    for (i, byte) in bytes.iter().enumerate() {
        buffer[at + i] = *byte;
    }
    Some(end)
}

// Stores one byte `count` times, from a place of a buffer on.
pub fn fill(buffer: &mut [u8], at: usize, count: usize, byte: u8) -> Option<usize>
    ensures answer { result ≡ stored_end buffer.old at (replicate count byte) }
    ensures buffer { buffer.new ≡ stored_buffer buffer.old at (replicate count byte) }
{
    let end = end_in(buffer, at, count)?;
    buffer[at..end].fill(byte);
    Some(end)
}

// Fills a whole buffer with zeros.
pub fn clear(buffer: &mut [u8])
    ensures { buffer.new ≡ zeros (length buffer.old) }
{
    buffer.fill(0);
}
