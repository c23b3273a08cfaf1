// "The oven's main loop keeps one machine record and lends it to each call, which updates it there."
ghost use Rattle.std.specs.Prelude.{◌≡◌};
ghost use Rattle.model.specs.Stops.{number_of, address_of, stop_number, stop_address};
ghost use Rattle.model.specs.Outcome.{stepped_with};
ghost use Rattle.model.specs.Step.{step_call, resume_call};
ghost use Rattle.model.specs.Run.{ran_with, run_call};
ghost use Rattle.koubospar.specs.Lent.{stop_with, run_stop_with};

use crate::single::single_step;
use model::stop::Stop;
use model::{Machine, Ran};
use step::call::resume_call;

// What a step or a resumption of a lent machine answers: the documents' number, and the absent address of 12 and 17. The answers here are
// numbers, since an enum cannot cross to C.
#[repr(C)]
#[derive(Clone, Copy)]
pub struct StepStop {
    pub stop: u64,
    pub address: u64,
}

impl From<Result<(), Stop>> for StepStop {
    ghost from_gives = { λ r s. s ≡ record { stop = number_of r; address = address_of r } };

    fn from(r: Result<(), Stop>) -> StepStop {
        let stop = r.err();
        StepStop {
            stop: stop.map_or(0, Stop::number),
            address: stop.map_or(0, Stop::address),
        }
    }
}

// What a run of a lent machine answers, with the count of completed steps.
#[repr(C)]
#[derive(Clone, Copy)]
pub struct RunStop {
    pub stop: u64,
    pub count: u64,
    pub address: u64,
}

impl From<Ran> for RunStop {
    ghost from_gives = { λ r s. s ≡ record { stop = stop_number r.stop; count = r.count; address = stop_address r.stop } };

    fn from(r: Ran) -> RunStop {
        RunStop {
            stop: r.stop.number(),
            count: r.count,
            address: r.stop.address(),
        }
    }
}

// The machine is copied out and back: document 01 asks for thin functions over the by-value step and run.

// One step.
pub fn koubospar_step(m: &mut Machine, mem: &mut [u8]) -> StepStop
    ensures { stepped_with (stop_with result m.new) mem.new ≡ step_call m.old mem.old }
{
    let r = single_step(*m, mem);
    *m = r.machine;
    StepStop::from(r.stop)
}

// A run of at most `budget` steps.
pub fn koubospar_run(m: &mut Machine, mem: &mut [u8], budget: u64) -> RunStop
    ensures { ran_with (run_stop_with result m.new) mem.new ≡ run_call m.old mem.old budget }
{
    let r = run::run_call(*m, mem, budget);
    *m = r.machine;
    RunStop::from(r)
}

// `v` in x10, and pc past the word that it stands at: meant for stop 18.
pub fn koubospar_resume(m: &mut Machine, v: u64) -> StepStop
    ensures { stop_with result m.new ≡ resume_call m.old v }
{
    let r = resume_call(*m, v);
    *m = r.machine;
    StepStop::from(r.stop)
}
