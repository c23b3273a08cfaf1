// Decodes each stored word, encodes what it decoded to, and prints both answers. Nothing is compared here: the stored output
// has what LLVM, document 01 and QEMU say of the words. data/README.md has the columns.
#![tactic(auto)]

ghost use Rattle.std.specs.Prelude.{◌≡◌, ◌<◌, ◌≤◌};
ghost use Rattle.instructions.specs.Answers.{decode_number};

use columns::{column, hexadecimal_at, read_file};
use decode::decode;
use encode::answer::Encoding;
use encode::encode;
use input::counted;
use instructions::instruction::Instruction;
use std::io;
use std::rt::Files;

// Document 01's number: 0 of a legal word, 13 of another. (`model` has the second as that of a stop; this program is built on decoder and encoder alone.)
fn number_of(d: Option<Instruction>) -> u64
    ensures { result ≡ decode_number d }
{
    match d {
        Some(_) => 0,
        None => 13,
    }
}

// The word, its number and, for a legal one, the word that encoding the decoded instruction gives.
fn print_word(rt: &impl Print, w: u32) -> io::Result<()> {
    let d = decode(w);
    print!(rt; "{w:08x} {}", number_of(d))?;
    if let Some(i) = d {
        print!(rt; " {}", Encoding(encode(i)))?;
    }
    println!(rt)
}

// A record's word is its first column, and its text, where it has one, the second. A file is read as far as its room goes.
fn print_records<const ROOM: usize>(
    rt: &(impl Files + Print + Eprint),
    path: &str,
    record_size: usize,
) -> io::Result<()>
    requires { (0 < record_size) × (ROOM ≤ 131072) }
{
    let mut room = [0u8; ROOM];
    let n = read_file(rt, path, &mut room);
    for r in counted(&room, n).chunks_exact(record_size) {
        let w = (hexadecimal_at(r, 0, 8) % (1 << 32)) as u32;
        rt.write_all(column(r, 9, 24))?;
        print_word(rt, w)?;
    }
    Ok(())
}

fn main(rt: HostRuntime) -> io::Result<()> {
    println!(rt; "llvm")?;
    print_records::<16384>(&rt, "llvm.columns", 45)?;
    println!(rt; "document")?;
    print_records::<16384>(&rt, "document.columns", 45)?;
    println!(rt; "words")?;
    print_records::<131072>(&rt, "words.columns", 9)
}
