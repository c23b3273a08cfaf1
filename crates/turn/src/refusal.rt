// What a turn is refused for, "the order is 1, 50, 51, then deck by deck from 1, stopped ones left out, 3, 4, 52".
ghost use Rattle.std.specs.Prelude.{◌≡◌, ◌≤◌};
ghost use Rattle.scheduler.specs.Turn.{most_slots, slot_refusal, slots_refusal, refusal as refusal_of, refused_number};

use crate::order::{stopped, within};
use hart::state::locked;
use model::stop::keep;
use scheduler::{LARGEST_ALLOWANCE, MOST_SLOTS, Refusal, SLOTS, Scheduler, Slot};
use step::call::{ask_machine, ask_memory};

// Of one slot.
#[tactic(auto, unfolding(scheduler::specs::Turn::slot_refusal))]
fn slot_refusal(d: &Slot) -> Result<(), Refusal>
    ensures { refused_number result ≡ slot_refusal d.now }
{
    if stopped(d) {
        return Ok(());
    }
    ask_machine(&d.machine)?;
    keep(locked(&d.machine.hfi), Refusal::Unlocked)
}

// Of the first slot that is refused.
fn slots_refusal(slots: &[Slot; SLOTS], count: u64) -> Result<(), Refusal>
    requires { count ≤ most_slots }
    ensures { refused_number result ≡ slots_refusal slots.now count 1 }
{
    for d in &slots[..count as usize] {
        slot_refusal(d)?;
    }
    Ok(())
}

// Of a turn over a memory of `size` bytes.
#[tactic(auto, unfolding(scheduler::specs::Turn::refusal))]
pub fn refusal(s: &Scheduler, size: usize, allowance: u64) -> Result<(), Refusal>
    ensures { refused_number result ≡ refusal_of s.now size allowance }
{
    ask_memory(size)?;
    keep(within(MOST_SLOTS, s.count), Refusal::SlotCount)?;
    keep(within(LARGEST_ALLOWANCE, allowance), Refusal::Allowance)?;
    slots_refusal(&s.slots, s.count)
}
