// Goes over all half-words and prints, of each legal one, the long word of the instruction that it stands for. Nothing is compared
// here: the stored output has what GNU binutils says of them. README.md tells how it was made.
#![tactic(auto)]

use encode::answer::Encoding;
use encode::encode;
use expand::expand;
use std::io;

fn main(rt: HostRuntime) -> io::Result<()> {
    for h in 0..=u16::MAX {
        if let Some(i) = expand(h) {
            println!(rt; "{h:04x} {}", Encoding(encode(i)))?;
        }
    }
    Ok(())
}
