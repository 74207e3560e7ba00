// A line in a lent buffer, put together from pieces. A piece that does not fit is left out.
ghost use Rattle.std.specs.Prelude.{◌≡◌, ◌≤◌, [], ◌∷◌, map, length, take, get_or};

use text::{characters, stores};

// The buffer, and how much of it is used.
#[derive(Drop)]
pub struct Line<'a> {
    buffer: &'a mut [u8],
    used: usize,
    ghost within: { used ≤ length buffer.now },
}

impl<'a> Line<'a> {
    ghost use Rattle.wording.specs.Lines.{line_in, line_of, lender_of, Gets};
    ghost use Rattle.wording.specs.Lines.{spaces, digits, decimal, coded, shown, quoted};

    // A line with nothing in it.
    pub fn new(buffer: &'a mut [u8]) -> Line<'a>
        ensures line { line_of result ≡ line_in buffer.old 0 }
        ensures lender { lender_of result ≡ buffer.entry.ghost_name }
    {
        Line { buffer, used: 0 }
    }

    // A line that holds what stands in a buffer up to a place.
    pub(crate) fn resumed(buffer: &'a mut [u8], used: usize) -> Line<'a>
        requires { used ≤ length buffer.old }
        ensures line { line_of result ≡ line_in buffer.old used }
        ensures lender { lender_of result ≡ buffer.entry.ghost_name }
    {
        Line { buffer, used }
    }

    // How much of the buffer is used.
    pub fn used(&self) -> usize
        ensures used { result ≡ (line_of self.now).used }
        ensures within { result ≤ length (line_of self.now).buffer }
    {
        self.used
    }

    // What the line holds.
    pub fn written(&self) -> &[u8]
        ensures { result.now ≡ take (line_of self.now).used (line_of self.now).buffer }
    {
        &self.buffer[..self.used]
    }

    // Puts bytes behind what the line holds.
    pub fn put(&mut self, bytes: &[u8])
        ensures { Gets self.old self.new (bytes.now ∷ []) }
    {
        if let Some(end) = stores::copy(bytes, self.buffer, self.used) {
            self.used = end;
        }
    }

    pub(crate) fn put_spaces(&mut self, count: usize)
        ensures { Gets self.old self.new (spaces count) }
    {
        if let Some(end) = stores::fill(self.buffer, self.used, count, characters::SPACE) {
            self.used = end;
        }
    }

    // The name of an index; past the last there is none.
    pub(crate) fn put_name(&mut self, names: &[&str], index: usize)
        ensures { Gets self.old self.new (get_or (map (λ name. name.now) names.now) index [] ∷ []) }
    {
        if let Some(name) = names.get(index) {
            self.put(name.as_bytes());
        }
    }

    // The last digits of a number, at most so many.
    fn put_digits(&mut self, n: usize, most: usize)
        ensures { Gets self.old self.new (digits most n) }
    {
        if most == 0 {
            return;
        }
        if 10 <= n {
            self.put_digits(n / 10, most - 1);
        }
        self.put(&[b'0' + (n % 10) as u8]);
    }

    // A number in decimal: no number that a computer's word holds has more than twenty digits.
    pub fn put_number(&mut self, n: usize)
        ensures { Gets self.old self.new (decimal n) }
    {
        self.put_digits(n, 20);
    }

    // A byte by its two digits of base sixteen.
    fn put_coded(&mut self, byte: u8)
        ensures { Gets self.old self.new (coded byte ∷ []) }
    {
        let digits = b"0123456789abcdef";
        let high = digits[usize::from(byte / 16)];
        let low = digits[usize::from(byte % 16)];
        self.put(&[b'\\', b'x', high, low]);
    }

    // A byte as a person reads it: a newline as \n, a quote and a backslash behind a backslash, and what is no visible
    // character by its number.
    #[tactic(auto, using(std::proofs::lemmas::Bool::Decides::nat_tests), unfolding(crate::specs::Lines::shown))]
    fn put_shown(&mut self, byte: u8)
        ensures { Gets self.old self.new (shown byte ∷ []) }
    {
        match byte {
            characters::NEWLINE => self.put(b"\\n"),
            characters::QUOTE => self.put(b"\\\""),
            b'\\' => self.put(b"\\\\"),
            b' '..=b'~' => self.put(&[byte]),
            _ => self.put_coded(byte),
        }
    }

    // A text in quotes.
    pub(crate) fn put_quoted(&mut self, bytes: &[u8])
        ensures { Gets self.old self.new (quoted bytes.now) }
    {
        self.put(b"\"");
        for &byte in bytes {
            self.put_shown(byte);
        }
        self.put(b"\"");
    }
}
