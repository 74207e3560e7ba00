// One stored chunk: a map byte, an indent where there is one, a text length and the text.
ghost use Rattle.std.specs.Prelude.{◌≡◌, ◌+◌, ◌*◌, ◌≤◌, ◌<◌, ◌^◌, length};
ghost use Rattle.chunks.specs.Stored.{type_bits};
ghost use Rattle.chunks.specs.Reading.{chunk_at, Fits, Tells};
ghost use Rattle.chunks.specs.Steps.{text_behind};

// "indent (two bytes, 1 to 4,096; absent is 0)"
pub const LARGEST_INDENT: usize = 4096;

// "a text length (two bytes, at least 1)"
pub const LONGEST_TEXT: usize = 65535;

// What a chunk's text is. (The source has no name for code: it is a chunk without a type.)
#[derive(Clone, Copy, Debug, PartialEq, Eq)]
pub enum ChunkType {
    Code,
    Label,
    Comment,
}

// Bits that are no type's.
#[derive(Clone, Copy, Debug, PartialEq, Eq)]
pub struct NoType;

// The map byte's bits of a type.
impl From<ChunkType> for u8 {
    ghost from_gives = { λ ty bits. bits ≡ type_bits ty };

    fn from(ty: ChunkType) -> u8 {
        match ty {
            ChunkType::Code => 0,
            ChunkType::Label => 1,
            ChunkType::Comment => 2,
        }
    }
}

// The type that a map byte's two lowest bits tell.
impl TryFrom<u8> for ChunkType {
    type Error = NoType;

    ghost try_from_gives = { Tells };

    fn try_from(bits: u8) -> Result<ChunkType, NoType> {
        match bits {
            0 => Ok(ChunkType::Code),
            1 => Ok(ChunkType::Label),
            2 => Ok(ChunkType::Comment),
            _ => Err(NoType),
        }
    }
}

// A chunk where it is stored: its text is the bytes from start to end.
#[derive(Clone, Copy, Debug, PartialEq, Eq)]
pub struct StoredChunk {
    pub ty: ChunkType,
    pub indent: usize,
    pub start: usize,
    pub end: usize,
}

// A number of two bytes.
pub(crate) fn number(low: u8, high: u8) -> usize
    ensures { result ≡ low + 256 * high }
{
    usize::from(u16::from_le_bytes([low, high]))
}

// A chunk whose text starts at a place and is so many of the bytes from there on.
fn text_in(
    bytes: &[u8],
    start: usize,
    count: usize,
    ty: ChunkType,
    indent: usize,
) -> Option<StoredChunk>
    requires { start + length bytes.now < 2 ^ 64 }
    ensures { result ≡ text_behind (length bytes.now) start count ty indent }
{
    if count == 0 || bytes.len() < count {
        return None;
    }
    Some(StoredChunk {
        ty,
        indent,
        start,
        end: start + count,
    })
}

// The chunk at a place of a list.
pub fn chunk_at(list: &[u8], at: usize) -> Option<StoredChunk>
    ensures answer { result ≡ chunk_at list.now at }
    ensures fits { Fits list.now at result }
{
    match list.get(at..)? {
        [map, low, high, text @ ..] if *map < 4 => {
            let ty = ChunkType::try_from(*map).ok()?;
            text_in(text, at + 3, number(*low, *high), ty, 0)
        }
        [map, indent_low, indent_high, low, high, text @ ..] if *map < 8 => {
            let ty = ChunkType::try_from(*map - 4).ok()?;
            let indent = number(*indent_low, *indent_high);
            if indent == 0 || LARGEST_INDENT < indent {
                return None;
            }
            text_in(text, at + 5, number(*low, *high), ty, indent)
        }
        _ => None,
    }
}
