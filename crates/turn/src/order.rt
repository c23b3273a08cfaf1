// Whose turn it is: "the first deck not stopped, from the place on and round to the first".
ghost use Rattle.std.specs.Prelude.{◌≡◌, ◌≤◌, unwrap_or, IfSome};
ghost use Rattle.scheduler.specs.Turn.{most_slots, within as is_within, slot, stopped as is_stopped, place_in, following as following_of, next_slot};

use model::stop::Stop;
use scheduler::{SLOTS, Scheduler, Slot};

// From 1 to `most`?
pub fn within(most: u64, n: u64) -> bool
    ensures { result ≡ is_within most n }
{
    (1 <= n) & (n <= most)
}

// Slot n.
pub fn slot_at(slots: &[Slot; SLOTS], n: u64) -> Slot
    requires { (1 ≤ n) × (n ≤ most_slots) }
    ensures { result ≡ slot slots.now n }
{
    slots[(n - 1) as usize]
}

// Is it passed over? Not before its first turn, of which 0 stands there.
pub fn stopped(d: &Slot) -> bool
    ensures { result ≡ is_stopped d.now }
{
    !((d.stop == 0) | (d.stop == Stop::OutOfBudget.number()))
}

// Where a turn starts to look.
fn place_in(count: u64, place: u64) -> u64
    ensures { result ≡ place_in count place }
{
    if within(count, place) { place } else { 1 }
}

// The number after n, and 1 after the last.
pub fn following(count: u64, n: u64) -> u64
    ensures { result ≡ following_of count n }
{
    if n < count { n + 1 } else { 1 }
}

// Is slot n passed over?
fn stopped_at(slots: &[Slot; SLOTS], n: u64) -> bool
    ensures { result ≡ is_stopped (slot slots.now n) }
{
    slots.get(n.saturating_sub(1) as usize).is_some_and(stopped)
}

// The slot whose turn it is; none if all are stopped.
pub fn next_slot(s: &Scheduler) -> Option<u64>
    ensures value { unwrap_or result 0 ≡ next_slot s.now }
    ensures numbered { IfSome result (λ n. (1 ≤ n) × (n ≤ s.now.count)) }
{
    let start = place_in(s.count, s.place);
    (start..=s.count)
        .chain(1..start)
        .find(|&n| !stopped_at(&s.slots, n))
}
