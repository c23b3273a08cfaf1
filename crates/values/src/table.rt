// The table of RV64M: each word of one file with all pairs of the values of another, as x5 and x6. A line is the word's name,
// x5, and x10 after one step for each value as x6.
use crate::setting::machine;
use columns::{column, hexadecimal_at, read_file, unpadded};
use input::counted;
use memory::bytes::write;
use run::run_call;
use std::io;
use std::rt::Files;

// x10 is a number that no result is, so that a word that stopped is seen.
fn registers(a: u64, b: u64) -> [u64; 32] {
    let mut x = [0u64; 32];
    x[5] = a;
    x[6] = b;
    x[10] = 0x7777_7777_7777_7777;
    x
}

// x10 after one step.
fn result_of(word: u64, a: u64, b: u64) -> u64 {
    let mut mem = [0u8; 4];
    write(&mut mem, 0, 4, word);
    run_call(machine(registers(a, b), 0), &mut mem, 1).machine.x[10]
}

fn print_row(rt: &impl Print, r: &[u8], a: u64, values: &[u8]) -> io::Result<()> {
    rt.write_all(unpadded(column(r, 9, 7)))?;
    print!(rt; " {a:x}")?;
    let word = hexadecimal_at(r, 0, 8);
    for v in values.chunks_exact(17) {
        let b = hexadecimal_at(v, 0, 16);
        print!(rt; " {:x}", result_of(word, a, b))?;
    }
    println!(rt)
}

fn print_rows(rt: &impl Print, r: &[u8], values: &[u8]) -> io::Result<()> {
    for v in values.chunks_exact(17) {
        print_row(rt, r, hexadecimal_at(v, 0, 16), values)?;
    }
    Ok(())
}

// The table of two files, whose words and values are 17 bytes each. What is printed is left free: no contract can speak of it, and
// the stored output has it.
pub fn print_table(
    rt: &(impl Files + Print + Eprint),
    words_path: &str,
    values_path: &str,
) -> io::Result<()> {
    let mut words_room = [0u8; 1024];
    let n = read_file(rt, words_path, &mut words_room);
    let mut values_room = [0u8; 1024];
    let m = read_file(rt, values_path, &mut values_room);
    let values = counted(&values_room, m);
    for r in counted(&words_room, n).chunks_exact(17) {
        print_rows(rt, r, values)?;
    }
    Ok(())
}
