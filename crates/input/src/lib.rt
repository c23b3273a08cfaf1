// Reading to the end, for the programs over sheets and stored data.
#![tactic(auto)]

ghost use Rattle.std.specs.Prelude.{◌≡◌, take};
ghost use Rattle.std.specs.Io.{ReadsAtMost};

use std::fmt::Display;
use std::io::Read;
use std::rt::Files;
use std::{fs, io};
use text::scan::front;

// One byte more than the longest sheet, so that a longer file is seen to be too long.
pub const ROOM: usize = 65537;

// Reads up to the end, or until the room is full, and counts the bytes, which stand from the room's start on. (std's own fills a Vec, and
// the lent room needs no heap. A read says only how many bytes came, so where the next are to stand is counted by hand.) A read that
// fails is the answer, and nothing is then known of the room. Which of the two answers it is, and the bytes and their number within the
// room, are left free, since no contract can speak of what a file holds. Not the bytes as a slice of the room: no clause that the check
// proves would say which part of the room they are, as `counted` does.
pub fn read_to_end<R: Read>(source: &mut R, room: &mut [u8]) -> io::Result<usize>
    ensures { ReadsAtMost result room.new }
{
    let mut n = 0;
    while n < room.len() {
        let more = source.read(&mut room[n..])?;
        if more == 0 {
            break;
        }
        n += more;
    }
    Ok(n)
}

// The same with room for every sheet.
pub fn read_sheet<R: Read>(source: &mut R, room: &mut [u8; ROOM]) -> io::Result<usize>
    ensures { ReadsAtMost result room.new }
{
    read_to_end(source, room)
}

// The same of a file.
pub fn read_stored(rt: &impl Files, path: &str, room: &mut [u8]) -> io::Result<usize>
    ensures { ReadsAtMost result room.new }
{
    let mut file = fs::open(rt, path)?;
    read_to_end(&mut file, room)
}

// The bytes that were counted.
pub fn counted(room: &[u8], n: usize) -> &[u8]
    ensures { result.now ≡ take n room.now }
{
    front(room, n)
}

// One line on standard error: what failed, and why. Where that cannot be written either, nobody can be told.
pub fn fail(rt: &impl Eprint, what: &str, why: impl Display + Drop) {
    let _ = eprintln!(rt; "{what}: {why}");
}
