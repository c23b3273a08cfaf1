// The fields of a line as numbers, each field read once.
ghost use Rattle.std.specs.Prelude.{◌≡◌, ◌≤◌, set};
ghost use Rattle.text.specs.Split.{row_as, row_with, row_of, row_over, all_wide, values_of, widths_of};

use crate::number::number;

// A field as read: its number, and how many digits it has. A field that a line lacks is as an empty one, all zero: the count of the
// fields tells them apart.
#[derive(Clone, Copy, Default)]
pub struct Field {
    pub value: u64,
    pub width: u64,
}

// A value in slot k, where there is such a slot. Tried by `get_mut`: the proof did not close, since once that borrow is over a proof
// knows the slots' number and not what they hold.
pub fn fill<T: Copy>(slots: &mut [T], k: usize, v: T)
    ensures { slots.new ≡ set slots.old k v }
{
    if k < slots.len() {
        slots[k] = v;
    }
}

// A line's fields, in as many slots as are lent, and how many fields there are. Counted by hand, since the count is answered too:
// `enumerate` drops it at the loop's end, and `line.split(..).count()` after the loop says the split a second time and looks at each byte
// again. Tried by `slots.iter_mut().zip(line.split(..))`: the proof did not close, for the reason that `fill` has. A slot past the last
// field keeps what it held.
pub fn read_into(line: &[u8], slots: &mut [Field]) -> usize
    ensures { row_as result slots.new ≡ row_over (values_of slots.old) (widths_of slots.old) line.now }
{
    let mut count = 0;
    for f in line.split(|&b| b == b',') {
        let field = Field {
            value: number(f, 16),
            width: f.len() as u64,
        };
        fill(slots, count, field);
        count += 1;
    }
    count
}

// The same into numbers and widths that stand apart, of which there may be unlike many. It has no caller here, and stays for its promise.
pub fn read_over(line: &[u8], values: &mut [u64], widths: &mut [u64]) -> usize
    ensures { row_with result values.new widths.new ≡ row_over values.old widths.old line.now }
{
    let mut n = 0;
    for piece in line.split(|&b| b == b',') {
        fill(values, n, number(piece, 16));
        fill(widths, n, piece.len() as u64);
        n += 1;
    }
    n
}

// A line's fields, in N slots, and how many fields there are.
pub fn read_row<const N: usize>(line: &[u8]) -> (usize, [Field; N])
    ensures { row_as result.0 result.1 ≡ row_of N line.now }
{
    let mut slots = [Field::default(); N];
    let count = read_into(line, &mut slots);
    (count, slots)
}

// The fields' numbers. (The bound is for std's `map`, which asks that room for both arrays fits.)
pub fn values<const N: usize>(fields: [Field; N]) -> [u64; N]
    requires { N ≤ 4096 }
    ensures { result ≡ values_of fields.entry }
{
    fields.map(|f| f.value)
}

// Has each field 1 to 16 digits?
pub fn all_wide(fields: &[Field]) -> bool
    ensures { result ≡ all_wide (widths_of fields.now) }
{
    fields.iter().all(|f| (1..=16).contains(&f.width))
}
