// The calls by value: a step, and resuming after a system call. What refuses a step is asked of a run and of a turn too.
ghost use Rattle.std.specs.Prelude.{◌≡◌, cond, ltb, Ok, Err};
ghost use Rattle.model.specs.WellFormed.{well_formed};
ghost use Rattle.model.specs.WritableCode.{exposes_code};
ghost use Rattle.model.specs.declared.stop.CallRefusal.TheVariants.{MemoryTooLong, NotWellFormed, WritableCode};
ghost use Rattle.model.specs.Step.{longest, step_call, resume_call};
ghost use Rattle.model.specs.Outcome.{answer_of, step_answer, stepped_with};

use crate::step;
use hart::well_formed::well_formed;
use model::stop::{CallRefusal, Stop, keep};
use model::{LONGEST, Machine, Stepped};
use writable_code::exposes_code;

// Question 1.
pub fn ask_memory(size: usize) -> Result<(), CallRefusal>
    ensures { result ≡ cond (ltb longest size) (Err MemoryTooLong) (Ok tt) }
{
    keep(size <= LONGEST, CallRefusal::MemoryTooLong)
}

// Question 3, which is all that a resumption is asked.
fn ask_formed(m: &Machine) -> Result<(), CallRefusal>
    ensures { result ≡ cond (well_formed m.now) (Ok tt) (Err NotWellFormed) }
{
    keep(well_formed(m), CallRefusal::NotWellFormed)
}

// Questions 3 and 4.
pub fn ask_machine(m: &Machine) -> Result<(), CallRefusal>
    ensures { result ≡ cond (well_formed m.now) (cond (exposes_code m.now.hfi) (Err WritableCode) (Ok tt)) (Err NotWellFormed) }
{
    ask_formed(m)?;
    keep(!exposes_code(&m.hfi), CallRefusal::WritableCode)
}

// What a step is refused for, and the step.
#[tactic(auto, unfolding(model::specs::Step::step_call))]
fn checked_step(m: &mut Machine, mem: &mut [u8]) -> Result<(), Stop>
    ensures { stepped_with (answer_of result m.new) mem.new ≡ step_call m.old mem.old }
{
    ask_memory(mem.len())?;
    ask_machine(m)?;
    step(m, mem)
}

// One step of any machine over any memory.
pub fn step_call(m: Machine, mem: &mut [u8]) -> Stepped
    ensures { stepped_with (step_answer result) mem.new ≡ step_call m mem.old }
{
    let mut machine = m;
    let stop = checked_step(&mut machine, mem);
    Stepped { stop, machine }
}

// `v` in x10, and pc past the word that it stands at.
#[tactic(auto, unfolding(model::specs::Step::resume_call))]
fn checked_resume(m: &mut Machine, v: u64) -> Result<(), Stop>
    ensures { answer_of result m.new ≡ resume_call m.old v }
{
    ask_formed(m)?;
    m.x[10] = v;
    m.pc = m.pc.wrapping_add(4);
    Ok(())
}

// Resuming any machine after a system call.
pub fn resume_call(m: Machine, v: u64) -> Stepped
    ensures { step_answer result ≡ resume_call m v }
{
    let mut machine = m;
    let stop = checked_resume(&mut machine, v);
    Stepped { stop, machine }
}
