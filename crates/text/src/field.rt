// The lines of a text, and the fields of a line: an empty text has no line, and one field.
ghost use Rattle.std.specs.Prelude.{◌≡◌, [], get_or, drop};
ghost use Rattle.text.specs.Split.{lines, fields};

use crate::scan::{rest, split_byte};

// The line that begins at a position, without its end; an empty one past the text.
pub fn line_at(s: &[u8], at: usize) -> &[u8]
    ensures { result.now ≡ get_or (lines (drop at s.now)) 0 [] }
{
    split_byte(rest(s, at), b'\n').0
}

// The field that begins at a position of a line, without its comma; an empty one past the line. Not one function with `line_at`, over the byte: the
// promises speak of `lines` and of `fields`, which differ on an empty text. It has no caller, and stays for its promise.
pub fn field_at(line: &[u8], at: usize) -> &[u8]
    ensures { result.now ≡ get_or (fields (drop at line.now)) 0 [] }
{
    split_byte(rest(line, at), b',').0
}
