// Writing one text after another into a lent buffer.
ghost use Rattle.std.specs.Prelude.{◌≡◌, [], ◌∷◌, ◌+◌, ◌<◌, ◌≤◌, length};
ghost use Rattle.text.specs.Number.{digit_byte, digits};
ghost use Rattle.text.specs.Write.{Put};

// A lent buffer, and the position after what was written there. Each method keeps the buffer that it was lent, so that its owner
// knows what it is left with. The room is a clause of each: a type that says how much is left would need const arguments that are computed.
#[derive(Drop)]
pub struct Writer<'a> {
    pub buffer: &'a mut [u8],
    pub at: usize,
}

impl<'a> Writer<'a> {
    // A writer at the buffer's start.
    pub fn new(buffer: &'a mut [u8]) -> Writer<'a>
        ensures same_buffer { result.buffer.ghost_name ≡ buffer.entry.ghost_name }
        ensures value { (result.buffer.now ≡ buffer.old) × (result.at ≡ 0) }
    {
        Writer { buffer, at: 0 }
    }

    // One byte.
    pub fn put_byte(&mut self, b: u8)
        requires { self.old.at < length self.old.buffer.now }
        ensures { Put self.old (b ∷ []) self.new }
    {
        self.buffer[self.at] = b;
        self.at += 1;
    }

    // A text.
    pub fn put_text(&mut self, text: &[u8])
        requires { self.old.at + length text.now ≤ length self.old.buffer.now }
        ensures { Put self.old text.now self.new }
    {
        let end = self.at + text.len();
        self.buffer[self.at..end].copy_from_slice(text);
        self.at = end;
    }

    // The digits of n in a base, in at most `room` positions. The higher digits come first: they are the digits of n / base. Not
    // `write!`: fmt has to answer Err where a buffer is full, which the bound on the positions rules out, and states no such bound.
    pub fn put_digits(&mut self, n: u64, base: u64, room: usize)
        requires base { (1 < base) × (base ≤ 16) }
        requires room { self.old.at + room ≤ length self.old.buffer.now }
        ensures { Put self.old (digits base room n) self.new }
    {
        if room == 0 {
            return;
        }
        if n < base {
            self.put_byte(digit_byte(n));
            return;
        }
        self.put_digits(n / base, base, room - 1);
        self.put_byte(digit_byte(n % base));
    }

    // A number in a base, without leading zeros, of which each has at most MOST digits.
    pub fn put_number<const BASE: u64, const MOST: usize>(&mut self, n: u64)
        requires base { (1 < BASE) × (BASE ≤ 16) }
        requires room { self.old.at + MOST ≤ length self.old.buffer.now }
        ensures put { Put self.old (digits BASE MOST n) self.new }
        ensures upper_bound { self.new.at ≤ self.old.at + MOST }
    {
        self.put_digits(n, BASE, MOST);
    }
}

// The byte of a digit.
fn digit_byte(d: u64) -> u8
    requires { d < 16 }
    ensures { result ≡ digit_byte d }
{
    b"0123456789abcdef"[d as usize]
}
