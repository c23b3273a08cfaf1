// The answer of encoding as text.
use std::fmt;

// Eight hexadecimal digits, or that a field is out of range. What is written is left free: the stored output of decode_words has it.
#[derive(Clone, Copy)]
pub struct Encoding(pub Option<u32>);

impl fmt::Display for Encoding {
    fn fmt<W: fmt::Write>(&self, f: &mut fmt::Formatter<W>) -> fmt::Result {
        match self.0 {
            Some(word) => write!(f, "{word:08x}"),
            None => f.write_str("out of range"),
        }
    }
}
