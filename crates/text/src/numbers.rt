// Bytes as numbers, and numbers of two bytes, the low byte first.
ghost use Rattle.std.specs.Prelude.{◌≡◌, ◌<◌, get_or};
ghost use Rattle.text.specs.Numbers.{read_number};
ghost use Rattle.text.specs.Stores.{number_end, number_buffer};

use crate::stores;

// Why a number is not stored.
#[derive(Clone, Copy, Debug, PartialEq, Eq)]
pub enum Unstored {
    NoRoom,
    // The number is above 65,535.
    TooLarge,
}

// A byte as a number of the width that places have.
pub fn wide(b: u8) -> usize
    ensures { (result ≡ b) × (result < 256) }
{
    usize::from(b)
}

// The byte at a place; 0 past the end.
pub fn byte_at(bytes: &[u8], at: usize) -> usize
    ensures { result ≡ get_or bytes.now at 0 }
{
    bytes.get(at).map_or(0, |b| wide(*b))
}

// The number at a place.
pub fn read_number(bytes: &[u8], at: usize) -> Option<usize>
    ensures { result ≡ read_number bytes.now at }
{
    let number = bytes.get(at..)?.first_chunk()?;
    Some(usize::from(u16::from_le_bytes(*number)))
}

// The number n, stored at a place.
pub fn store_number(buffer: &mut [u8], at: usize, n: usize) -> Result<usize, Unstored>
    ensures answer { result ≡ number_end buffer.old at n }
    ensures buffer { buffer.new ≡ number_buffer buffer.old at n }
{
    let number = u16::try_from(n).map_err(|_| Unstored::TooLarge)?;
    stores::copy(&number.to_le_bytes(), buffer, at).ok_or(Unstored::NoRoom)
}
