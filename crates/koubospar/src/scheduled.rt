// Several machines in turn: the main loop keeps the slots and lends them to each turn, which updates them there.
ghost use Rattle.std.specs.Prelude.{◌≡◌};
ghost use Rattle.scheduler.specs.declared.Scheduler.{Scheduler};
ghost use Rattle.scheduler.specs.Turn.{turn_answer, turned_with, turn_call, put_call};
ghost use Rattle.koubospar.specs.Lent.{turn_stop_with, put_with};

use model::Machine;
use scheduler::{Refusal, Scheduler, Turned};

// What a turn of lent slots answers: the slot whose turn it was, and its run's stop, count and address. Numbers, since an enum cannot
// cross to C; slot 0 is none.
#[repr(C)]
#[derive(Clone, Copy, Default)]
pub struct TurnStop {
    pub slot: u64,
    pub stop: u64,
    pub count: u64,
    pub address: u64,
}

impl From<Result<Option<Turned>, Refusal>> for TurnStop {
    ghost from_gives = { λ r t. (s : Scheduler) → turn_stop_with t s ≡ turn_answer r s };

    fn from(r: Result<Option<Turned>, Refusal>) -> TurnStop {
        match r {
            Ok(Some(t)) => TurnStop {
                slot: t.slot,
                stop: t.stop.number(),
                count: t.count,
                address: t.stop.address(),
            },
            Ok(None) => TurnStop::default(),
            Err(refusal) => TurnStop {
                stop: refusal.number(),
                ..TurnStop::default()
            },
        }
    }
}

// One turn.
pub fn koubospar_turn(s: &mut Scheduler, mem: &mut [u8], allowance: u64) -> TurnStop
    ensures { turned_with (turn_stop_with result s.new) mem.new ≡ turn_call s.old mem.old allowance }
{
    TurnStop::from(turn::turn_call(s, mem, allowance))
}

// A machine put into slot n; or there is no such slot, and nothing has changed.
pub fn koubospar_put(s: &mut Scheduler, n: u64, m: &Machine) -> bool
    ensures { put_with result s.new ≡ put_call s.old n m.now }
{
    turn::put_call(s, n, *m)
}
