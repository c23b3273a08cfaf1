// The value cases: 65,536 bytes of memory with words at 1000 and a doubleword at 2000, and as many steps as the record
// says. Printed are the stop, the count of steps, the address given with the stop and pc, then each register and each
// doubleword of memory that is not 0.
use crate::setting::{machine, place_words};
use columns::{column, each_doubleword, each_register, hexadecimal_at, read_file, unpadded};
use input::counted;
use memory::bytes::write;
use run::run_call;
use std::io;
use std::rt::Files;

// All but x5, x6, x7 and x10 are 0.
fn registers(r: &[u8]) -> [u64; 32] {
    let mut x = [0u64; 32];
    x[5] = hexadecimal_at(r, 32, 16);
    x[6] = hexadecimal_at(r, 48, 16);
    x[7] = hexadecimal_at(r, 64, 16);
    x[10] = hexadecimal_at(r, 80, 16);
    x
}

fn fill(r: &[u8], mem: &mut [u8; 65536]) {
    place_words(r, 120, 5, mem, 0x1000);
    write(mem, 0x2000, 8, hexadecimal_at(r, 96, 16));
}

fn print_case(rt: &impl Print, r: &[u8]) -> io::Result<()> {
    let mut mem = [0u8; 65536];
    fill(r, &mut mem);
    let steps = hexadecimal_at(r, 112, 8);
    let o = run_call(machine(registers(r), 0x1000), &mut mem, steps);
    rt.write_all(unpadded(column(r, 0, 32)))?;
    let stop = o.stop.number();
    let address = o.stop.address();
    print!(rt; " {stop} {:x} {address:x} {:x}", o.count, o.machine.pc)?;
    each_register(&o.machine.x, |i, v| print!(rt; " x{i}={v:x}"))?;
    each_doubleword(&mem, |a, v| print!(rt; " {a:x}={v:x}"))?;
    println!(rt)
}

// A line for each case of a file, which is 161 bytes. The room is made elsewhere: the prover takes no part of so large an array
// where it is made. One function for these and for Dart's cases would take the room, the size of a record and what prints one, and give
// each of them no more than the loop's line.
fn print_cases_in(
    rt: &(impl Files + Print + Eprint),
    path: &str,
    room: &mut [u8; 524288],
) -> io::Result<()> {
    let n = read_file(rt, path, room);
    for r in counted(room, n).chunks_exact(161) {
        print_case(rt, r)?;
    }
    Ok(())
}

// A line for each case of a file. What is printed is left free: no contract can speak of it, and the stored output has it.
pub fn print_cases(rt: &(impl Files + Print + Eprint), path: &str) -> io::Result<()> {
    let mut room = [0u8; 524288];
    print_cases_in(rt, path, &mut room)
}
