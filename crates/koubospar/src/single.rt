// One step by value, as a run of one step: the library then has one loop of steps and no second copy of what is in it,
// which the compiler would otherwise keep apart from the loop (bench/README.md has what that costs).
ghost use Rattle.std.specs.Prelude.{◌≡◌};
ghost use Rattle.model.specs.Outcome.{step_answer, stepped_with};
ghost use Rattle.model.specs.Run.{run_answer};
ghost use Rattle.model.specs.Step.{step_call};
ghost use Rattle.koubospar.specs.Single.{as_step};

use model::{Machine, Ran, Stepped};

// The answer of a run of one step as the step's own, which is no conversion of every `Ran`: a run that has counted its step answers 20 or 21, the step that it completed.
fn as_step(r: Ran) -> Stepped
    ensures { step_answer result ≡ as_step (run_answer r) }
{
    Stepped {
        stop: if r.count == 1 { Ok(()) } else { Err(r.stop) },
        machine: r.machine,
    }
}

// One step of any machine over any memory.
pub fn single_step(m: Machine, mem: &mut [u8]) -> Stepped
    ensures { stepped_with (step_answer result) mem.new ≡ step_call m mem.old }
{
    as_step(run::run_call(m, mem, 1))
}
