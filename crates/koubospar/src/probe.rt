// Another number in each place of the machine's record, there and back, by which a controller tests its own declaration
// of the record. No contract sees the order of a record's fields, so this test (c/try) is the only guard of the layout.
ghost use Rattle.std.specs.Prelude.{◌≡◌, ◌+◌, ◌<◌};
ghost use Rattle.koubospar.specs.Probe.{probe, in_hart, in_region, in_fault, at_place};
ghost use Rattle.instructions.specs.Table.{lookup};

use model::{Fault, HfiState, LAST_REGION, Machine, Region};
use std::array;

// The places of the first region and of the fault record.
const FIRST_REGION: u64 = 39;

const FIRST_FAULT: u64 = FIRST_REGION + 3 * LAST_REGION;

// A region with n and the numbers after it.
fn numbered(n: u64) -> Region
    requires { n < 2000 }
    ensures { result ≡ record { base = n; bound = n + 1; permission = n + 2 } }
{
    Region {
        base: n,
        bound: n + 1,
        permission: n + 2,
    }
}

// Place i of the record, counted in 64-bit words from its start, holds 1000 + i, but for the registers between x0 and
// x31, which are 0.
pub fn koubospar_probe() -> Machine
    ensures { result ≡ probe }
{
    let mut x = [0u64; 32];
    x[0] = 1000;
    x[31] = 1031;
    let first = 1000 + FIRST_REGION;
    let regions = array::from_fn(|i| numbered(first + 3 * i as u64));
    let fault = Fault {
        occurred: 1000 + FIRST_FAULT,
        region: 1001 + FIRST_FAULT,
        op: 1002 + FIRST_FAULT,
        address: 1003 + FIRST_FAULT,
    };
    let hfi = HfiState {
        mode: 1033,
        reason: 1034,
        epc: 1035,
        options: 1036,
        handler: 1037,
        selector: 1038,
        regions,
        fault,
    };
    Machine { x, pc: 1032, hfi }
}

// What stands in place i of the registers, pc and the HFI state before its regions. Here and below 0 for no such place, as the
// definition has it: with an Option each arm would be a `Some(..)`, which koubospar_place would undo at once by `unwrap_or(0)`.
fn in_hart(m: Machine, i: u64) -> u64
    ensures { result ≡ lookup 0 (in_hart m) i }
{
    let hfi = m.hfi;
    match i {
        0 => m.x[0],
        31 => m.x[31],
        32 => m.pc,
        33 => hfi.mode,
        34 => hfi.reason,
        35 => hfi.epc,
        36 => hfi.options,
        37 => hfi.handler,
        38 => hfi.selector,
        _ => 0,
    }
}

fn in_region(r: Region, i: u64) -> u64
    ensures { result ≡ lookup 0 (in_region r) i }
{
    match i {
        0 => r.base,
        1 => r.bound,
        2 => r.permission,
        _ => 0,
    }
}

fn in_fault(f: Fault, i: u64) -> u64
    ensures { result ≡ lookup 0 (in_fault f) i }
{
    match i {
        0 => f.occurred,
        1 => f.region,
        2 => f.op,
        3 => f.address,
        _ => 0,
    }
}

// What stands in place i of the record; 0 for a register between x0 and x31, and past the end.
pub fn koubospar_place(m: Machine, i: u64) -> u64
    ensures { result ≡ at_place m i }
{
    // The regions apart: indexed in the record, they would take a copy of the whole record on the stack.
    let regions = m.hfi.regions;
    if i < FIRST_REGION {
        return in_hart(m, i);
    }
    if i < FIRST_FAULT {
        let k = i - FIRST_REGION;
        return in_region(regions[(k / 3) as usize], k % 3);
    }
    in_fault(m.hfi.fault, i - FIRST_FAULT)
}
