// Positions in a text, and the parts of it before and after a position.
ghost use Rattle.std.specs.Prelude.{◌≡◌, ◌+◌, ◌-◌, ◌≤◌, length, take, drop};
ghost use Rattle.text.specs.Scan.{first_that, is};

// The position of the first c. The length where there is none, and no Option, since `front` and `rest` then take the whole and nothing.
pub fn position(s: &[u8], c: u8) -> usize
    ensures { (result ≡ first_that (is c) s.now) × (result ≤ length s.now) }
{
    s.iter().position(|&b| b == c).unwrap_or(s.len())
}

// What stands from a position on, nothing past the end.
pub fn rest(s: &[u8], at: usize) -> &[u8]
    ensures { (result.now ≡ drop at s.now) × (length result.now ≡ length s.now - at) }
{
    s.get(at..).unwrap_or(&[])
}

// What stands before a position, the whole past the end.
pub fn front(s: &[u8], end: usize) -> &[u8]
    ensures { result.now ≡ take end s.now }
{
    s.get(..end).unwrap_or(s)
}

// What stands before the first c and what stands after it: the whole and nothing where there is none.
pub fn split_byte(s: &[u8], c: u8) -> (&[u8], &[u8])
    ensures { (result.0.now ≡ take (first_that (is c) s.now) s.now) × (result.1.now ≡ drop (first_that (is c) s.now + 1) s.now) }
{
    let at = position(s, c);
    (front(s, at), rest(s, at + 1))
}
