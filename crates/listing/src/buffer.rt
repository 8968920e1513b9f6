// Bytes and numbers written one behind the other into lent bytes.
ghost use Rattle.std.specs.Prelude.{◌≡◌, [], ◌∷◌, ◌+◌, ◌<◌};
ghost use Rattle.tree.specs.Table.{first_text};
ghost use Rattle.listing.specs.Decimal as base_ten;
ghost use Rattle.listing.specs.Inner.Writing.{Appends};

/// A text in front of lent bytes, which grows at its end. Where the bytes are too few it is
/// measured, and they hold no more than its beginning.
// Kept: what it holds stands in the contracts. With an `impl Model` on it, a caller that lends the
// bytes knew nothing of what they hold when the loan ends: its proof didn't close.
// Kept: no derived equality, which would compare all lent bytes, those behind the text too.
#[derive(Drop)]
pub struct TextBuffer<'a> {
    /// The lent bytes.
    pub bytes: &'a mut [u8],
    /// How long the text is, whether or not the bytes hold it.
    pub len: usize,
}

fn digit(d: u64) -> u8
    requires { d < 10 }
    ensures { result ≡ 0x30 + d }
{
    b'0' + d as u8
}

impl<'a> TextBuffer<'a> {
    /// An empty text in front of the bytes.
    pub fn new(bytes: &'a mut [u8]) -> TextBuffer<'a>
        ensures bytes { result.bytes.now ≡ bytes.old }
        ensures len { result.len ≡ 0 }
        ensures same_reference { result.bytes.ghost_name ≡ bytes.entry.ghost_name }
    {
        TextBuffer { bytes, len: 0 }
    }

    /// One byte more.
    pub fn push(&mut self, byte: u8)
        ensures { Appends self.old self.new (byte ∷ []) }
    {
        if self.len < self.bytes.len() {
            endian::write_u8(self.bytes, self.len, byte);
        }
        // No bytes that are lent are so many, so that the length of a text that long does not matter.
        if self.len < 0x8000_0000_0000_0000 {
            self.len += 1;
        }
    }

    /// Bytes, each as it is.
    pub fn push_bytes(&mut self, bytes: &[u8])
        ensures { Appends self.old self.new bytes.now }
    {
        // At once: a byte at a time, the length would be stored and read again for each.
        let start = self.len;
        if start < self.bytes.len() {
            let room = self.bytes.len() - start;
            if bytes.len() <= room {
                endian::copy(bytes, 0, self.bytes, start, bytes.len());
            } else {
                endian::copy(bytes, 0, self.bytes, start, room);
            }
        }
        self.len = start.saturating_add(bytes.len());
    }

    /// The bytes of a text, up to a zero byte or to its end.
    pub fn push_text(&mut self, text: &[u8])
        ensures { Appends self.old self.new (first_text text.now) }
    {
        match text.iter().position(|byte| *byte == 0) {
            Some(len) => self.push_bytes(&text[..len]),
            None => self.push_bytes(text),
        }
    }

    /// A number in base ten: the number without its last digit, then that digit.
    pub fn push_decimal(&mut self, n: u64)
        ensures { Appends self.old self.new (base_ten.decimal n) }
    {
        if n < 10 {
            self.push(digit(n));
            return;
        }
        self.push_decimal(n / 10);
        self.push(digit(n % 10));
    }

    /// A number in base ten behind a space.
    pub fn push_field(&mut self, n: u32)
        ensures { Appends self.old self.new (base_ten.number_field n) }
    {
        self.push(b' ');
        self.push_decimal(u64::from(n));
    }
}
