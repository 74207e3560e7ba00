// The characters that the formatter itself knows, by name.
pub const NEWLINE: u8 = b'\n';

pub const SPACE: u8 = b' ';

pub const QUOTE: u8 = b'"';

pub const COLON: u8 = b':';

pub const OPENING_BRACE: u8 = b'{';

pub const CLOSING_BRACE: u8 = b'}';
