// The questions of a fetch, two bytes at a time, and the word that it brings.
ghost use Rattle.std.specs.Prelude.{◌≡◌, ◌+◌, ◌≤◌, true, length};
ghost use Rattle.compressed.specs.Expand.{is_long};
ghost use Rattle.step.specs.Fetch.{half_at, fetch_verdict, size_at, word_at};

use decode::decode;
use expand::{expand, is_long};
use instructions::instruction::Instruction;
use memory::access::{check_fetch, fetches_whole};
use memory::bytes::read;
use model::HfiState;
use model::stop::Denied;

// Questions 5 and 6 by halves: of the two bytes at `pc` and, where these are of a long word, of the next two.
#[tactic(auto, unfolding(crate::specs::Fetch::fetch_verdict))]
fn check_halves(h: &HfiState, mem: &[u8], pc: u64) -> Result<(), Denied>
    ensures { result ≡ fetch_verdict h.now.mode h.now.regions mem.now pc }
{
    let len = mem.len() as u64;
    check_fetch(h, len, pc)?;
    if is_long(read(mem, pc, 2)) {
        check_fetch(h, len, pc.wrapping_add(2))?;
    }
    Ok(())
}

// Questions 5 and 6 of the word at `pc`. Where its four bytes pass whole, so does either half of them.
#[tactic(auto, using(crate::proofs::Verdicts::whole_verdict))]
pub fn check_word(h: &HfiState, mem: &[u8], pc: u64) -> Result<(), Denied>
    ensures { result ≡ fetch_verdict h.now.mode h.now.regions mem.now pc }
{
    if fetches_whole(h, mem.len() as u64, pc) {
        Ok(())
    } else {
        check_halves(h, mem, pc)
    }
}

// How many bytes the word at `pc` has. Its first two tell: of a long word the others need not be in memory. It has no caller here, and stays for
// its promise.
pub fn size_at(mem: &[u8], pc: u64) -> u64
    requires { pc + 2 ≤ length mem.now }
    ensures { result ≡ size_at mem.now pc }
{
    if is_long(read(mem, pc, 2)) { 4 } else { 2 }
}

// How many bytes the word at `pc` has, and its instruction. (Not by `size_at`: the two bytes would be read twice.)
#[tactic(auto, unfolding(crate::specs::Fetch::word_at))]
pub fn word_at(mem: &[u8], pc: u64) -> (u64, Option<Instruction>)
    requires { (pc + 2 ≤ length mem.now) × (is_long (half_at mem.now pc) ≡ true → pc + 4 ≤ length mem.now) }
    ensures size { result.0 ≡ size_at mem.now pc }
    ensures instruction { result.1 ≡ word_at mem.now pc }
{
    let h = read(mem, pc, 2);
    if is_long(h) {
        (4, decode(read(mem, pc, 4) as u32))
    } else {
        (2, expand(h as u16))
    }
}
