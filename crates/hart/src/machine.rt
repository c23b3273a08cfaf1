// Reading and changing the registers and pc, and the stop of an access that does not pass.
ghost use Rattle.std.specs.Prelude.{◌≡◌, List, ℕ, ◌<◌, Err};
ghost use Rattle.model.specs.Machine.{reg, set_reg, machine};
ghost use Rattle.model.specs.Stops.{op_number, refused_number, absent_number};
ghost use Rattle.model.specs.Outcome.{Outcome, answer_of, stepped_with, assigned, settle};

use model::stop::{Denied, Op, Stop};
use model::{Fault, Machine};

// Register `i`. An instruction's fields are 64 bits wide, so that a caller can hand in any wrong register and have it refused: who knows the number to be
// below 32 says so. No struct carries the fact, here or in `hfi` and `load_store`: it would ask for `i < 32` where it is made, as these functions
// do, and each arm of `execute` would make one for each register that the arm reads or writes.
pub fn register(m: &Machine, i: u64) -> u64
    requires { i < 32 }
    ensures { result ≡ reg m.now.x i }
{
    m.x[i as usize]
}

// `v` put in register `i`; x0 stays as it is.
pub fn assign(m: &mut Machine, i: u64, v: u64)
    requires { i < 32 }
    ensures { m.new ≡ machine (set_reg m.old.x i v) m.old.pc m.old.hfi }
{
    if i != 0 {
        m.x[i as usize] = v;
    }
}

// `v` in `rd`, and on at `next`. A jump is this with its target and its link.
pub fn write_back(m: &mut Machine, next: u64, rd: u64, v: u64)
    requires { rd < 32 }
    ensures { m.new ≡ assigned m.old next rd v }
{
    assign(m, rd, v);
    m.pc = next;
}

// The stop of an access that does not pass. A refused byte is put in the fault record. (Called in an `if let`: tried under map_err, but what a closure
// changes is not known after it, and the proof did not close.)
#[tactic(auto, unfolding(model::specs::Outcome::settle))]
pub fn denied(m: &mut Machine, op: Op, d: Denied) -> Stop
    ensures { (mem : List ℕ) (rest : Outcome) → stepped_with (answer_of (Err result) m.new) mem ≡ settle m.old mem (op_number op) (refused_number op) (absent_number op) (Err d) rest }
{
    match d {
        Denied::Refused(address, region) => {
            m.hfi.fault = Fault {
                occurred: 1,
                region,
                op: op.number(),
                address,
            };
            if op == Op::Fetch {
                Stop::FetchRefused
            } else {
                Stop::AccessRefused
            }
        }
        Denied::Absent(at) if op == Op::Fetch => Stop::FetchAbsent(at),
        Denied::Absent(at) => Stop::AccessAbsent(at),
    }
}
