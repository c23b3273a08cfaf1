// The machine of document 01, as one record, and what the calls on it answer. Everything that the documents say of the
// machine is a definition in specs/; the theorems about these definitions are in proofs/. The code is in the crates above.
//
// Every number is 64 bits wide, so that a caller can hand in any wrong value and have it refused.
#![tactic(auto)]

pub mod permission;
pub mod stop;

// The explicit regions: an h-word chooses among them.
pub use instructions::instruction::EXPLICIT_REGIONS;
use stop::Stop;

// The longest memory and the largest budget that a call takes.
pub const LONGEST: usize = 16_777_216;

pub const LARGEST_BUDGET: u64 = 1_000_000;

// How many regions the record keeps, and the highest number of one: they count from 1.
pub const REGIONS: usize = 10;

pub const LAST_REGION: u64 = REGIONS as u64;

// The implicit regions by kind, in the order in which they are asked.
pub const DATA_REGIONS: [u64; 4] = [2, 7, 8, 9];

pub const CODE_REGIONS: [u64; 2] = [3, 10];

// The largest options: 4 bits.
pub const LARGEST_OPTIONS: u64 = 15;

// "A region has a 64-bit base, a 64-bit bound or mask, and permissions: bit 0 read, bit 1 write, bit 2 execute, bit 3 large".
#[repr(C)]
#[derive(Clone, Copy, Default)]
pub struct Region {
    pub base: u64,
    pub bound: u64,
    pub permission: u64,
}

// "Fault record: occurred (0 or 1), region, op (0 none, 1 load, 2 store, 3 fetch), and the address". A number for the op, since
// C declares this record and a caller can hand in any.
#[repr(C)]
#[derive(Clone, Copy, Default)]
pub struct Fault {
    pub occurred: u64,
    pub region: u64,
    pub op: u64,
    pub address: u64,
}

// "HFI state: mode (0 or 1), exit reason (0 none, 1 hfiexit, 2 system call), exit pc, options (4 bits), exit handler,
// selector, three regions, fault record", of which document 02, Job 7, makes ten regions. `epc` is the exit pc; region n stands at n - 1.
#[repr(C)]
#[derive(Clone, Copy, Default)]
pub struct HfiState {
    pub mode: u64,
    pub reason: u64,
    pub epc: u64,
    pub options: u64,
    pub handler: u64,
    pub selector: u64,
    pub regions: [Region; REGIONS],
    pub fault: Fault,
}

// "Registers x0 to x31 and pc, 64 bits each."
#[repr(C)]
#[derive(Clone, Copy, Default)]
pub struct Machine {
    pub x: [u64; 32],
    pub pc: u64,
    pub hfi: HfiState,
}

// What a step answers: whether it completed or what stopped it, and the machine.
#[derive(Clone, Copy)]
pub struct Stepped {
    pub stop: Result<(), Stop>,
    pub machine: Machine,
}

// What a run answers, with the count of completed steps.
#[derive(Clone, Copy)]
pub struct Ran {
    pub stop: Stop,
    pub count: u64,
    pub machine: Machine,
}
