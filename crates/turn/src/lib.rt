// One turn of several machines over one memory, and putting a machine into a slot again. The slots are lent, and changed where they
// stand.
#![tactic(auto)]

ghost use Rattle.std.specs.Prelude.{◌≡◌, ◌≤◌, Ok, Some, IfOk, IfSome};
ghost use Rattle.model.specs.Run.{run_answer};
ghost use Rattle.scheduler.specs.Turn.{most_slots, took_turn, turn_answer, turned_with, turn_call, put_answer, put_call};

pub mod order;
pub mod refusal;

use crate::order::{following, next_slot, slot_at, within};
use crate::refusal::refusal;
use model::{Machine, Ran};
use run::run_call;
use scheduler::{MOST_SLOTS, Refusal, Scheduler, Slot, Turned};

// Slot n has made the run that answered r: what that run left, and whose turn is next.
fn took_turn(s: &mut Scheduler, n: u64, r: Ran) -> Turned
    requires { (1 ≤ n) × (n ≤ most_slots) }
    ensures answer { turn_answer (Ok (Some result)) s.new ≡ took_turn s.old n (run_answer r) }
    ensures whose { result.slot ≡ n }
{
    s.slots[(n - 1) as usize] = Slot {
        machine: r.machine,
        stop: r.stop.number(),
    };
    s.place = following(s.count, n);
    s.total = s.total.wrapping_add(r.count);
    Turned {
        slot: n,
        stop: r.stop,
        count: r.count,
    }
}

// A turn of any machines over any memory, with any allowance; none where all slots are stopped. A turn that was made has a slot, so a refusal is an Err.
pub fn turn_call(
    s: &mut Scheduler,
    mem: &mut [u8],
    allowance: u64,
) -> Result<Option<Turned>, Refusal>
    ensures answer { turned_with (turn_answer result s.new) mem.new ≡ turn_call s.old mem.old allowance }
    ensures made { IfOk result (λ o. IfSome o (λ t. (1 ≤ t.slot) × (t.slot ≤ most_slots))) }
{
    refusal(s, mem.len(), allowance)?;
    let Some(n) = next_slot(s) else {
        return Ok(None);
    };
    let m = slot_at(&s.slots, n).machine;
    let r = run_call(m, mem, allowance);
    Ok(Some(took_turn(s, n, r)))
}

// It has had no turn. It stays a call, so that a machine goes into its slot by way of the stack: from the caller's, which the
// compiler cannot tell to lie apart from the slots, the copy would be a memmove, and C's host need have memcpy and memset alone.
#[inline(never)]
fn begin(slot: &mut Slot)
    ensures { slot.new ≡ record { machine = slot.old.machine; stop = 0 } }
{
    slot.stop = 0;
}

// A machine put into slot n; a number that no slot has changes nothing. A bool and no Result: there is one way
// to fail, to which the documents give no number.
#[tactic(auto, unfolding(scheduler::specs::Turn::put_call))]
pub fn put_call(s: &mut Scheduler, n: u64, m: Machine) -> bool
    ensures { put_answer result s.new ≡ put_call s.old n m }
{
    let there = within(MOST_SLOTS, n);
    if there {
        let mut slot = Slot {
            machine: m,
            ..Slot::default()
        };
        begin(&mut slot);
        s.slots[(n - 1) as usize] = slot;
    }
    there
}
