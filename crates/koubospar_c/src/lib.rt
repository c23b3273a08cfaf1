// What C calls of koubospar. The exports stand apart from it, since a static library can be no crate's base: each is one call of
// the library's function of that name, with its clauses: C names each, so there is one function for each name. None has a condition that a caller must meet beyond C's own:
// valid pointers, no overlap.
#![tactic(auto)]

ghost use Rattle.std.specs.Prelude.{◌≡◌};
ghost use Rattle.model.specs.Outcome.{stepped_with};
ghost use Rattle.model.specs.Run.{ran_with, run_call};
ghost use Rattle.model.specs.Step.{step_call, resume_call};
ghost use Rattle.scheduler.specs.Turn.{turned_with, turn_call, put_call};
ghost use Rattle.report.specs.Report.{report};
ghost use Rattle.respond.specs.Answered.{Answered};
ghost use Rattle.koubospar.specs.Lent.{stop_with, run_stop_with, turn_stop_with, put_with};
ghost use Rattle.koubospar.specs.Probe.{probe, at_place};

use koubospar::lent::{RunStop, StepStop};
use koubospar::scheduled::TurnStop;
use model::Machine;
use scheduler::Scheduler;

// ---- a lent machine

#[unsafe(no_mangle)]
pub extern "C" fn koubospar_step(m: &mut Machine, mem: &mut [u8]) -> StepStop
    ensures { stepped_with (stop_with result m.new) mem.new ≡ step_call m.old mem.old }
{
    koubospar::lent::koubospar_step(m, mem)
}

#[unsafe(no_mangle)]
pub extern "C" fn koubospar_run(m: &mut Machine, mem: &mut [u8], budget: u64) -> RunStop
    ensures { ran_with (run_stop_with result m.new) mem.new ≡ run_call m.old mem.old budget }
{
    koubospar::lent::koubospar_run(m, mem, budget)
}

#[unsafe(no_mangle)]
pub extern "C" fn koubospar_resume(m: &mut Machine, v: u64) -> StepStop
    ensures { stop_with result m.new ≡ resume_call m.old v }
{
    koubospar::lent::koubospar_resume(m, v)
}

// ---- lent slots

#[unsafe(no_mangle)]
pub extern "C" fn koubospar_turn(s: &mut Scheduler, mem: &mut [u8], allowance: u64) -> TurnStop
    ensures { turned_with (turn_stop_with result s.new) mem.new ≡ turn_call s.old mem.old allowance }
{
    koubospar::scheduled::koubospar_turn(s, mem, allowance)
}

#[unsafe(no_mangle)]
pub extern "C" fn koubospar_put(s: &mut Scheduler, n: u64, m: &Machine) -> bool
    ensures { put_with result s.new ≡ put_call s.old n m.now }
{
    koubospar::scheduled::koubospar_put(s, n, m)
}

// ---- the run sheet

#[unsafe(no_mangle)]
pub extern "C" fn koubospar_respond(input: &[u8], output: &mut [u8; 1373]) -> usize
    ensures { Answered output.old (report input.now) output.new result }
{
    koubospar::sheet_call::koubospar_respond(input, output)
}

// ---- the record's layout (c/try)

#[unsafe(no_mangle)]
pub extern "C" fn koubospar_probe() -> Machine
    ensures { result ≡ probe }
{
    koubospar::probe::koubospar_probe()
}

#[unsafe(no_mangle)]
pub extern "C" fn koubospar_place(m: Machine, i: u64) -> u64
    ensures { result ≡ at_place m i }
{
    koubospar::probe::koubospar_place(m, i)
}
