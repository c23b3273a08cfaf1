// Reading and changing the parts of the HFI state.
ghost use Rattle.std.specs.Prelude.{◌≡◌};
ghost use Rattle.model.specs.Machine.{inside as is_inside, locked as is_locked, redirects_calls, redirects_exits, entered, exited};

use model::HfiState;
use model::permission::Choice;

// In HFI mode?
pub fn inside(h: &HfiState) -> bool
    ensures { result ≡ is_inside h.now }
{
    h.mode == 1
}

// Are the regions locked? A function for each question of the documents, over the one that reads a bit: who asked one function of an option would
// have to know that only some count in HFI mode alone.
pub fn locked(h: &HfiState) -> bool
    ensures { result ≡ is_locked h.now }
{
    inside(h) && Choice::LockRegions.is_among(h.options)
}

// Are system calls redirected?
pub fn redirects_calls(h: &HfiState) -> bool
    ensures { result ≡ redirects_calls h.now }
{
    inside(h) && Choice::RedirectCalls.is_among(h.options)
}

// Are exits redirected?
pub fn redirects_exits(h: &HfiState) -> bool
    ensures { result ≡ redirects_exits h.now }
{
    Choice::RedirectExits.is_among(h.options)
}

// Into HFI mode with new options; the fault record keeps all but `occurred`.
pub fn enter(h: &mut HfiState, options: u64)
    ensures { h.new ≡ entered h.old options }
{
    h.mode = 1;
    h.options = options;
    h.fault.occurred = 0;
}

// Out of HFI mode, for a reason, from this pc. (A number, as the record keeps it: any may be put there, `Reason` names those that have a meaning.)
pub fn exit(h: &mut HfiState, reason: u64, pc: u64)
    ensures { h.new ≡ exited h.old reason pc }
{
    h.mode = 0;
    h.reason = reason;
    h.epc = pc;
}
