// Runs the stored sheets that an index names, and prints each one's name and answer. A sheet that cannot be read has no
// answer, and is told on standard error.
#![tactic(auto)]

use columns::{column, read_file, unpadded};
use input::{counted, fail, read_stored};
use std::rt::Files;
use std::{io, str};

// run_sheet has these lines too. They stay: here the name stands between them, and there a failed print is told, not answered.
fn print_answer(rt: &impl Print, name: &str, sheet: &[u8]) -> io::Result<()> {
    let mut answer = [0u8; respond::MOST];
    let r = respond::respond(sheet, &mut answer);
    println!(rt; "{name}")?;
    rt.write_all(&answer[..r])
}

// The answer to one stored sheet, under its name.
fn show(rt: &(impl Files + Print + Eprint), name: &str) -> io::Result<()> {
    let mut room = [0u8; input::ROOM];
    match read_stored(rt, name, &mut room) {
        Ok(n) => print_answer(rt, name, counted(&room, n)),
        Err(e) => {
            fail(rt, name, e);
            Ok(())
        }
    }
}

// A row's name. Names of other bytes than text name no file here.
fn show_row(rt: &(impl Files + Print + Eprint), row: &[u8]) -> io::Result<()> {
    match str::from_utf8(unpadded(column(row, 0, 31))) {
        Ok(name) => show(rt, name),
        Err(e) => {
            fail(rt, "a name in an index", e);
            Ok(())
        }
    }
}

// Each row of an index is a name of at most 31 bytes, padded with spaces, and the line's end.
fn show_index(rt: &(impl Files + Print + Eprint), name: &str) -> io::Result<()> {
    let mut room = [0u8; input::ROOM];
    let n = read_file(rt, name, &mut room);
    counted(&room, n)
        .chunks_exact(32)
        .try_for_each(|row| show_row(rt, row))
}

// The second index names what cannot be read, so that no answer stands in the stored output.
fn main(rt: HostRuntime) -> io::Result<()> {
    show_index(&rt, "index")?;
    show_index(&rt, "unreadable")
}
