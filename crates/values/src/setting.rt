// What a case starts from: a machine outside HFI mode, and words in memory.
ghost use Rattle.std.specs.Prelude.{◌≡◌, ◌+◌, ◌*◌, ◌≤◌, length};
ghost use Rattle.values.specs.Setting.{machine_at, placed};

use columns::hexadecimal_at;
use memory::bytes::write;
use model::{HfiState, Machine, REGIONS, Region};

// All zero but the registers and pc. (What is promised of an array's own default is no equation: the regions are said.)
pub fn machine(x: [u64; 32], pc: u64) -> Machine
    ensures { result ≡ machine_at x pc }
{
    let hfi = HfiState {
        regions: [Region::default(); REGIONS],
        ..HfiState::default()
    };
    Machine { x, pc, hfi }
}

// The words of n columns of a record, which begin at `from`, one after another in memory from `a` on.
pub fn place_words(r: &[u8], from: usize, n: usize, mem: &mut [u8], a: u64)
    requires { (from + 8 * n ≤ 4096) × (a + 4 * n ≤ length mem.old) }
    ensures { mem.new ≡ placed r.now from mem.old a n }
{
    // By index: the contract lets a record end before its n columns do, and there the words are 0; `chunks_exact` would leave them out.
    for i in 0..n {
        write(
            mem,
            a + 4 * (i as u64),
            4,
            hexadecimal_at(r, from + 8 * i, 8),
        );
    }
}
