// A run: steps of one machine until one of the documents' questions stops it.
#![tactic(auto)]

ghost use Rattle.std.specs.Prelude.{◌≡◌, cond, ltb};
ghost use Rattle.model.specs.Machine.{inside as is_inside};
ghost use Rattle.model.specs.Stops.{number_of};
ghost use Rattle.model.specs.WellFormed.{well_formed};
ghost use Rattle.model.specs.WritableCode.{exposes_code};
ghost use Rattle.model.specs.Step.{longest};
ghost use Rattle.model.specs.Run.{largest_budget, run, run_answer, ran_with, run_call};
ghost use Rattle.run.specs.End.{end_with};

use hart::state::inside;
use model::stop::{Stop, keep};
use model::{LARGEST_BUDGET, Machine, Ran};
use step::call::{ask_machine, ask_memory};
use step::step;

// What ended a run, and the count of completed steps.
#[derive(Clone, Copy)]
struct End {
    stop: Stop,
    count: u64,
}

// The steps.
#[tactic(auto, using(model::proofs::Runs::run_out, model::proofs::Runs::run_stops, model::proofs::Runs::run_leaves, model::proofs::Runs::run_goes_on, model::proofs::Stops::stop_never_zero))]
fn run(m: &mut Machine, mem: &mut [u8], budget: u64) -> End
    ensures { ran_with (end_with result m.new) mem.new ≡ run (is_inside m.old.hfi) budget 0 m.old mem.old }
{
    let began = inside(&m.hfi);
    for count in 0..budget {
        if let Err(stop) = step(m, mem) {
            return End { stop, count };
        }
        if began & !inside(&m.hfi) {
            return End {
                stop: Stop::LeftSandbox,
                count: count + 1,
            };
        }
    }
    End {
        stop: Stop::OutOfBudget,
        count: budget,
    }
}

// What a run is refused for, 1 to 4 in this order.
fn ask(m: &Machine, size: usize, budget: u64) -> Result<(), Stop>
    ensures { number_of result ≡ cond (ltb longest size) 1 (cond (ltb largest_budget budget) 2 (cond (well_formed m.now) (cond (exposes_code m.now.hfi) 4 0) 3)) }
{
    ask_memory(size)?;
    keep(budget <= LARGEST_BUDGET, Stop::BudgetTooLarge)?;
    ask_machine(m)?;
    Ok(())
}

// What a run is refused for, and the run. That some byte is writable code is asked once: no step brings it about (`run_is_step_calls` in model/proofs/Runs.antt).
#[tactic(auto, unfolding(model::specs::Run::run_call))]
fn checked_run(m: &mut Machine, mem: &mut [u8], budget: u64) -> End
    ensures { ran_with (end_with result m.new) mem.new ≡ run_call m.old mem.old budget }
{
    match ask(m, mem.len(), budget) {
        Ok(()) => run(m, mem, budget),
        Err(stop) => End { stop, count: 0 },
    }
}

// A run of any machine over any memory, with any budget.
pub fn run_call(m: Machine, mem: &mut [u8], budget: u64) -> Ran
    ensures { ran_with (run_answer result) mem.new ≡ run_call m mem.old budget }
{
    let mut machine = m;
    let e = checked_run(&mut machine, mem, budget);
    Ran {
        stop: e.stop,
        count: e.count,
        machine,
    }
}
