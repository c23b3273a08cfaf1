// Loads and stores, ordinary and h-prefixed: questions 10 and 11, and what they do. A load and a store stay two functions: they ask for another
// permission, take another kind, and one is lent the memory to write. Machine and memory stay two parameters: C lends them apart, the turns of many
// machines share one memory, and the isolation theorem is of one machine over two memories. A struct of both would be two references put together
// in each call.
//
// `next`, the kind and `rd` (of a store its value) stay parameters, and `rd < 32` a clause: each is a name of the arm of `execute` that calls, and a
// struct `Target { next, k, rd, ghost below: { rd < 32 } }` would be filled in two arms there and taken apart in `finish_load` alone, for the call
// `write_back(m, target.next, target.rd, extended(target.k, read(mem, a, load_width(target.k))))`.
#![tactic(auto)]

ghost use Rattle.std.specs.Prelude.{◌≡◌, true, ◌+◌, ◌<◌, ◌≤◌, length};
ghost use Rattle.model.specs.Regions.{read as read_bit, write as write_bit};
ghost use Rattle.model.specs.Access.{load_width, store_width, passed, data_access, explicit_access, offset as offset_of};
ghost use Rattle.model.specs.Outcome.{answer_of, stepped_with};
ghost use Rattle.model.specs.Step.{load as load_of, store as store_of};
ghost use Rattle.load_store.specs.Finish.{finish_load, finish_store};

use arithmetic::extended;
use hart::machine::{denied, write_back};
use hart::regions::region_at;
use instructions::kind::{LoadKind, StoreKind};
use memory::access::{check_data, check_explicit, explicit_address};
use memory::bytes::{read, write};
use memory::offset::Offset;
use memory::width::{load_width, store_width};
use model::Machine;
use model::permission::Permission;
use model::stop::{Denied, Op, Stop};

// What the verdict on a load of kind `k` at `a` leads to.
#[tactic(auto, unfolding(model::specs::Outcome::settle))]
fn finish_load(
    m: &mut Machine,
    mem: &[u8],
    next: u64,
    verdict: Result<(), Denied>,
    k: LoadKind,
    rd: u64,
    a: u64,
) -> Result<(), Stop>
    requires { (rd < 32) × (verdict ≡ passed → a + load_width k ≤ length mem.now) }
    ensures { stepped_with (answer_of result m.new) mem.now ≡ finish_load m.old mem.now next verdict k rd a }
{
    if let Err(d) = verdict {
        return Err(denied(m, Op::Load, d));
    }
    write_back(m, next, rd, extended(k, read(mem, a, load_width(k))));
    Ok(())
}

// An ordinary load at `a`.
#[tactic(auto, unfolding(model::specs::Step::load))]
pub fn load(
    m: &mut Machine,
    mem: &[u8],
    next: u64,
    k: LoadKind,
    rd: u64,
    a: u64,
) -> Result<(), Stop>
    requires { rd < 32 }
    ensures { stepped_with (answer_of result m.new) mem.now ≡ load_of m.old mem.now next (data_access m.old.hfi.regions read_bit a (load_width k)) k rd }
{
    let verdict = check_data(
        &m.hfi,
        Permission::Read.bit(),
        mem.len() as u64,
        a,
        load_width(k),
    );
    finish_load(m, mem, next, verdict, k, rd, a)
}

// An h-load of the explicit region `region`.
#[tactic(auto, unfolding(model::specs::Step::load))]
pub fn hload(
    m: &mut Machine,
    mem: &[u8],
    next: u64,
    k: LoadKind,
    region: u64,
    rd: u64,
    offset: Offset,
) -> Result<(), Stop>
    requires { rd < 32 }
    ensures { stepped_with (answer_of result m.new) mem.now ≡ load_of m.old mem.now next (explicit_access m.old.hfi.regions region read_bit (offset_of offset.operand offset.imm) (load_width k)) k rd }
{
    let len = mem.len() as u64;
    let verdict = check_explicit(
        &m.hfi,
        region,
        Permission::Read.bit(),
        len,
        offset,
        load_width(k),
    );
    let first = explicit_address(
        region_at(&m.hfi.regions, region),
        offset.operand,
        offset.imm,
    );
    finish_load(m, mem, next, verdict, k, rd, first)
}

// What the verdict on a store of `value` at `a` leads to.
#[tactic(auto, unfolding(model::specs::Outcome::settle))]
fn finish_store(
    m: &mut Machine,
    mem: &mut [u8],
    next: u64,
    verdict: Result<(), Denied>,
    k: StoreKind,
    value: u64,
    a: u64,
) -> Result<(), Stop>
    requires { verdict ≡ passed → a + store_width k ≤ length mem.old }
    ensures { stepped_with (answer_of result m.new) mem.new ≡ finish_store m.old mem.old next verdict k value a }
{
    if let Err(d) = verdict {
        return Err(denied(m, Op::Store, d));
    }
    write(mem, a, store_width(k), value);
    m.pc = next;
    Ok(())
}

// An ordinary store of `value` at `a`.
#[tactic(auto, unfolding(model::specs::Step::store))]
pub fn store(
    m: &mut Machine,
    mem: &mut [u8],
    next: u64,
    k: StoreKind,
    value: u64,
    a: u64,
) -> Result<(), Stop>
    ensures { stepped_with (answer_of result m.new) mem.new ≡ store_of m.old mem.old next (data_access m.old.hfi.regions write_bit a (store_width k)) value }
{
    let verdict = check_data(
        &m.hfi,
        Permission::Write.bit(),
        mem.len() as u64,
        a,
        store_width(k),
    );
    finish_store(m, mem, next, verdict, k, value, a)
}

// An h-store of `value` to the explicit region `region`.
#[tactic(auto, unfolding(model::specs::Step::store))]
pub fn hstore(
    m: &mut Machine,
    mem: &mut [u8],
    next: u64,
    k: StoreKind,
    region: u64,
    value: u64,
    offset: Offset,
) -> Result<(), Stop>
    ensures { stepped_with (answer_of result m.new) mem.new ≡ store_of m.old mem.old next (explicit_access m.old.hfi.regions region write_bit (offset_of offset.operand offset.imm) (store_width k)) value }
{
    let len = mem.len() as u64;
    let verdict = check_explicit(
        &m.hfi,
        region,
        Permission::Write.bit(),
        len,
        offset,
        store_width(k),
    );
    let first = explicit_address(
        region_at(&m.hfi.regions, region),
        offset.operand,
        offset.imm,
    );
    finish_store(m, mem, next, verdict, k, value, first)
}
