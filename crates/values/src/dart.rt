// The cases of the Dart SDK: code at 100000, called with the return address 180000 and the stack at 1f0000. An ECALL at
// the return address ends a run with 18, and x10 is then the result. Printed are the stop and, for 18, pc and x10.
use crate::setting::{machine, place_words};
use columns::{column, hexadecimal_at, read_file, unpadded};
use input::counted;
use memory::bytes::write;
use model::Ran;
use model::stop::Stop;
use run::run_call;
use std::io;
use std::rt::Files;

// The three modules have a function each: from pairs of number and value, one for all would still be handed a pair for each of these
// lines, and which registers a case sets is what its file says.
fn registers(r: &[u8]) -> [u64; 32] {
    let mut x = [0u64; 32];
    x[1] = 0x180000;
    x[2] = 0x1f0000;
    x[10] = hexadecimal_at(r, 64, 16);
    x[11] = hexadecimal_at(r, 80, 16);
    x[12] = hexadecimal_at(r, 96, 16);
    x
}

// One for this and that of `value` would be handed each number of its two lines too.
fn fill(r: &[u8], mem: &mut [u8; 2097152]) {
    place_words(r, 112, 18, mem, 0x100000);
    write(mem, 0x180000, 4, 0x00000073);
}

// Not by Display: `Ran` is another crate's, so that would be of a type made for it, and these lines with `write!`.
fn print_end(rt: &impl Print, o: Ran) -> io::Result<()> {
    print!(rt; " {}", o.stop.number())?;
    if o.stop == Stop::SystemCall {
        print!(rt; " {:x} {:x}", o.machine.pc, o.machine.x[10])?;
    }
    println!(rt)
}

fn print_case(rt: &impl Print, r: &[u8]) -> io::Result<()> {
    let mut mem = [0u8; 2097152];
    fill(r, &mut mem);
    let o = run_call(machine(registers(r), 0x100000), &mut mem, 1000);
    rt.write_all(unpadded(column(r, 0, 64)))?;
    print_end(rt, o)
}

// A line for each case of a file, which is 257 bytes. What is printed is left free: no contract can speak of it, and the stored
// output has it.
pub fn print_cases(rt: &(impl Files + Print + Eprint), path: &str) -> io::Result<()> {
    let mut room = [0u8; 131072];
    let n = read_file(rt, path, &mut room);
    for r in counted(&room, n).chunks_exact(257) {
        print_case(rt, r)?;
    }
    Ok(())
}
