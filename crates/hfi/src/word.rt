// The words of opcode 5b. Why each register is a number and a clause: hart::machine::register.
ghost use Rattle.std.specs.Prelude.{◌≡◌, List, cond, ℕ, ◌<◌};
ghost use Rattle.instructions.specs.declared.instruction.Instruction.TheVariants.{Hfi};
ghost use Rattle.model.specs.Machine.{redirects_exits, exited};
ghost use Rattle.model.specs.Outcome.{answer_of, stepped_with};
ghost use Rattle.model.specs.Hfi.{selected as selected_of, changed as changed_of, hfi_perform};
ghost use Rattle.model.specs.Step.{execute_instruction};

use crate::rules::word_rule;
use hart::machine::{assign, register};
use hart::regions::{put_region, region_at};
use hart::state::{enter, exit, redirects_exits};
use hart::well_formed::clear_handler;
use instructions::kind::HfiKind;
use model::stop::{Reason, Stop};
use model::{HfiState, Machine, REGIONS, Region};

// The selected region.
fn selected(h: &HfiState) -> Region
    ensures { result ≡ selected_of h.now }
{
    region_at(&h.regions, h.selector)
}

// `to` in its place.
fn replace(h: &mut HfiState, to: Region)
    ensures { h.new ≡ changed_of h.old to }
{
    put_region(&mut h.regions, h.selector, to);
}

// Exit to the handler where exits are redirected, else to the next instruction: the pc after it.
fn leave(h: &mut HfiState, pc: u64, next: u64) -> u64
    ensures after { result ≡ cond (redirects_exits h.old) h.old.handler next }
    ensures left { h.new ≡ exited h.old 1 pc }
{
    let after = if redirects_exits(h) { h.handler } else { next };
    exit(h, Reason::Exit.number(), pc);
    after
}

// What a word that nothing forbids does, and on at `after`; the target of an enter with jump is to be a multiple of 2.
#[tactic(auto, unfolding(model::specs::Hfi::hfi_perform, model::specs::Outcome::aligned))]
fn perform(m: &mut Machine, next: u64, k: HfiKind, rd: u64, rs1: u64, rs2: u64) -> Result<(), Stop>
    requires { (rd < 32) × (rs1 < 32) × (rs2 < 32) }
    ensures { (mem : List ℕ) → stepped_with (answer_of result m.new) mem ≡ hfi_perform m.old mem next k rd rs1 rs2 }
{
    let a = register(m, rs1);
    let r = selected(&m.hfi);
    let mut after = next;
    match k {
        HfiKind::Enter => enter(&mut m.hfi, a),
        HfiKind::EnterJump => {
            after = register(m, rs2);
            if after % 2 != 0 {
                return Err(Stop::OddTarget);
            }
            enter(&mut m.hfi, a);
        }
        HfiKind::Exit => after = leave(&mut m.hfi, m.pc, next),
        HfiKind::SelectRegion => m.hfi.selector = a,
        HfiKind::SetBase => replace(&mut m.hfi, Region { base: a, ..r }),
        HfiKind::GetBase => assign(m, rd, r.base),
        HfiKind::SetBound => replace(&mut m.hfi, Region { bound: a, ..r }),
        HfiKind::GetBound => assign(m, rd, r.bound),
        HfiKind::SetPermission => replace(&mut m.hfi, Region { permission: a, ..r }),
        HfiKind::GetPermission => assign(m, rd, r.permission),
        HfiKind::SetHandler => m.hfi.handler = clear_handler(a),
        HfiKind::GetHandler => {
            let v = m.hfi.handler;
            assign(m, rd, v);
        }
        HfiKind::ResetRegions => {
            m.hfi.regions = [Region::default(); REGIONS];
            m.hfi.selector = 0;
        }
    }
    m.pc = after;
    Ok(())
}

// Question 8, and the rest of the step. Most steps are no such word: `#[cold]` keeps it out of the run's loop, where it cost each other step 0.7 instructions.
#[cold]
#[tactic(auto, using(model::proofs::Stops::rule_stops), unfolding(model::specs::Step::execute_instruction, model::specs::Outcome::allowed, model::specs::Hfi::hfi_stop, model::specs::Step::perform))]
pub fn hfi_word(
    m: &mut Machine,
    next: u64,
    k: HfiKind,
    rd: u64,
    rs1: u64,
    rs2: u64,
) -> Result<(), Stop>
    requires { (rd < 32) × (rs1 < 32) × (rs2 < 32) }
    ensures { (mem : List ℕ) → stepped_with (answer_of result m.new) mem ≡ execute_instruction m.old mem next (Hfi k rd rs1 rs2) }
{
    word_rule(&m.hfi, k, register(m, rs1))?;
    perform(m, next, k, rd, rs1, rs2)
}
