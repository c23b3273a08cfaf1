// Stored records in fixed columns, for the programs that run published vectors. A record is one line of a file, as long as
// every other line of it, and each of its fields stands at a fixed position of the line, padded with spaces.
#![tactic(auto)]

ghost use Rattle.std.specs.Prelude.{◌≡◌, ℕ, ◌*◌, ◌/◌, ◌<◌, ◌≤◌, length, get_or, take, drop, Ok, OnOk};
ghost use Rattle.text.specs.Scan.{first_that, is};
ghost use Rattle.text.specs.Number.{number as number_of};
ghost use Rattle.columns.specs.Doublewords.{doubleword};

use input::{fail, read_stored};
use std::io;
use std::rt::Files;
use text::number::number;
use text::scan::{front, rest, split_byte};

// The n bytes from a position on, fewer where the text ends before.
pub fn column(s: &[u8], at: usize, n: usize) -> &[u8]
    ensures { result.now ≡ take n (drop at s.now) }
{
    front(rest(s, at), n)
}

// The number that a column of at most 16 hexadecimal digits spells.
pub fn hexadecimal_at(s: &[u8], at: usize, n: usize) -> u64
    ensures { result ≡ number_of 16 (take n (drop at s.now)) }
{
    number(column(s, at, n), 16)
}

// What stands before the first space.
pub fn unpadded(s: &[u8]) -> &[u8]
    ensures { result.now ≡ take (first_that (is 32) s.now) s.now }
{
    split_byte(s, b' ').0
}

// Reads a file into the room, as far as that goes, and counts the bytes: none where it cannot be read, which is told on standard error. Their
// count lies within the room; which bytes they are and how many is left free: no contract can speak of what a file holds. A program goes through the records
// by `counted` and `chunks_exact`: as `each_record(rt, path, &mut room, size, |r| show(rt, r))` it would still make the room, and say
// the size and the printer.
pub fn read_file(rt: &(impl Files + Eprint), path: &str, room: &mut [u8]) -> usize
    ensures { result ≤ length room.new }
{
    match read_stored(rt, path, room) {
        Ok(n) => n,
        Err(e) => {
            fail(rt, path, e);
            0
        }
    }
}

// Hands on the address and the value of each doubleword of a memory that is not 0, in the order of addresses, until that answers an
// error. What is printed of them is left free: no contract can speak of it, and each program is held to its stored output.
pub fn each_doubleword<F: Fn(usize, u64) -> io::Result<()>>(mem: &[u8], show: F) -> io::Result<()>
    requires { F.IsAlwaysCallable show }
    ensures { OnOk result ((i : ℕ) → i < length mem.now / 8 → 0 < doubleword mem.now i → F.post show (8 * i) (doubleword mem.now i) (Ok tt)) }
{
    let (doublewords, _) = mem.as_chunks::<8>();
    for (i, &bytes) in doublewords.iter().enumerate() {
        let v = u64::from_le_bytes(bytes);
        if v != 0 {
            show(8 * i, v)?;
        }
    }
    Ok(())
}

// Hands on the number and the value of each register that is not 0, in the order of numbers, until that answers an error. What is
// printed of them is left free, as of doublewords. (One loop over an iterator of either would have to say in its clause what the
// iterator gives, where these two say it of the memory and of the registers.)
pub fn each_register<F: Fn(usize, u64) -> io::Result<()>>(x: &[u64; 32], show: F) -> io::Result<()>
    requires { F.IsAlwaysCallable show }
    ensures { OnOk result ((i : ℕ) → i < 32 → 0 < get_or x.now i 0 → F.post show i (get_or x.now i 0) (Ok tt)) }
{
    for (i, &value) in x.iter().enumerate() {
        if value != 0 {
            show(i, value)?;
        }
    }
    Ok(())
}
