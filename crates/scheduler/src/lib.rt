// Several machines in turn over one memory (document 02, Job 9): what the main loop keeps, and what a turn answers. Everything
// that the document says of a turn is a definition in specs/; the theorems about turns are in proofs/. `turn` has the code.
//
// What the document calls a deck is a slot here: the place of one machine among those that take turns.
#![tactic(auto)]

ghost use Rattle.std.specs.Prelude.{◌≡◌};
ghost use Rattle.scheduler.specs.Turn.{refusal_number};
ghost use Rattle.scheduler.specs.declared.Refusal.TheVariants.{CallRefused};

use model::Machine;
use model::stop::{CallRefusal, Stop};

// "Take 1 to 4 machines and a step allowance of 1 to 10,000."
pub const SLOTS: usize = 4;

pub const MOST_SLOTS: u64 = SLOTS as u64;

pub const LARGEST_ALLOWANCE: u64 = 10_000;

// A machine, and the stop of its last turn: 0 if it has had none since it was put there. A number, since it
// crosses to C and a caller can hand in any.
#[repr(C)]
#[derive(Clone, Copy, Default)]
pub struct Slot {
    pub machine: Machine,
    pub stop: u64,
}

// What the main loop keeps and lends to each turn. Slot n stands at n - 1; the first `count` of them take turns. A count beside
// an array of all, since memory is fixed and C declares this record too.
#[repr(C)]
#[derive(Clone, Copy, Default)]
pub struct Scheduler {
    pub slots: [Slot; SLOTS],
    pub count: u64,
    pub place: u64,
    pub total: u64,
}

// What a turn answers that made a run: the slot whose turn it was, and its run's stop and count.
#[derive(Clone, Copy)]
pub struct Turned {
    pub slot: u64,
    pub stop: Stop,
    pub count: u64,
}

// Why a turn is refused; specs/Turn.antt gives each the documents' number.
#[derive(Clone, Copy, PartialEq, Eq)]
pub enum Refusal {
    CallRefused(CallRefusal),
    SlotCount,
    Allowance,
    Unlocked,
}

impl From<CallRefusal> for Refusal {
    ghost from_gives = { λ call refusal. refusal ≡ CallRefused call };

    fn from(call: CallRefusal) -> Refusal {
        Refusal::CallRefused(call)
    }
}

impl Refusal {
    // A method, as the numbers of `model::stop` are, where `Op::number` says why.
    pub fn number(self) -> u64
        ensures { result ≡ refusal_number self }
    {
        match self {
            Refusal::CallRefused(refusal) => refusal.number(),
            Refusal::SlotCount => 50,
            Refusal::Allowance => 51,
            Refusal::Unlocked => 52,
        }
    }
}
