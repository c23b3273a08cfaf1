// One step of the machine, which is changed where it stands. `fetch` has the questions of a fetch, `call` the calls by value above the
// step.
#![tactic(auto)]

ghost use Rattle.std.specs.Prelude.{◌≡◌, List, ℕ, ◌+◌, ◌≤◌, true, length, Err};
ghost use Rattle.compressed.specs.Expand.{is_long};
ghost use Rattle.model.specs.Machine.{fetch_op};
ghost use Rattle.model.specs.Outcome.{Outcome, answer_of, stepped_with, settle};
ghost use Rattle.model.specs.Step.{execute_word, step};
ghost use Rattle.step.specs.Fetch.{half_at, size_at, word_at};

use crate::fetch::{check_word, word_at};
use execute::execute;
use hart::machine::denied;
use model::Machine;
use model::stop::{Denied, Op, Stop};

pub mod call;
pub mod fetch;

// Question 7, and the rest of the step.
#[tactic(auto, using(crate::proofs::Verdicts::word_range), unfolding(model::specs::Step::execute_word))]
fn execute_word(m: &mut Machine, mem: &mut [u8]) -> Result<(), Stop>
    requires { (m.old.pc + 2 ≤ length mem.old) × (is_long (half_at mem.old m.old.pc) ≡ true → m.old.pc + 4 ≤ length mem.old) }
    ensures { stepped_with (answer_of result m.new) mem.new ≡ execute_word m.old mem.old (size_at mem.old m.old.pc) (word_at mem.old m.old.pc) }
{
    let (size, word) = word_at(mem, m.pc);
    let Some(i) = word else {
        return Err(Stop::IllegalWord);
    };
    let next = m.pc.wrapping_add(size);
    execute(m, mem, next, i)
}

// The stop of a fetch that does not pass. (A function of its own: what it answers is seen by itself, where the proof of `step` names the calls.)
#[tactic(auto, unfolding(model::specs::Outcome::settle))]
fn denied_fetch(m: &mut Machine, d: Denied) -> Stop
    ensures { (mem : List ℕ) (rest : Outcome) → stepped_with (answer_of (Err result) m.new) mem ≡ settle m.old mem fetch_op 11 12 (Err d) rest }
{
    denied(m, Op::Fetch, d)
}

// Questions 4 to 13: one step.
#[tactic(auto, using(crate::proofs::Verdicts::half_fits, crate::proofs::Verdicts::long_fits, crate::proofs::Verdicts::passed_step), unfolding(model::specs::Step::step))]
pub fn step(m: &mut Machine, mem: &mut [u8]) -> Result<(), Stop>
    ensures { stepped_with (answer_of result m.new) mem.new ≡ step m.old mem.old }
{
    if m.pc % 2 != 0 {
        return Err(Stop::OddPc);
    }
    if let Err(d) = check_word(&m.hfi, mem, m.pc) {
        return Err(denied_fetch(m, d));
    }
    execute_word(m, mem)
}
