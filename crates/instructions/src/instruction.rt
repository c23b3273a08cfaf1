// An instruction.
//
// Fields are 64 bits wide, so that a caller can hand in any wrong value. An immediate is held as the 64 bits that it
// stands for, sign extended; an upper immediate has its 12 low bits clear, and an offset of a branch or a jump is in bytes.
use crate::kind::{
    BranchKind, HfiKind, ImmediateKind, LoadKind, RegisterKind, RegisterWordKind, ShiftKind,
    ShiftWordKind, StoreKind, SystemKind, UpperKind,
};

#[derive(Clone, Copy)]
pub enum Instruction {
    Upper(UpperKind, u64, u64), // rd, immediate
    Jal(u64, u64), // rd, offset
    Jalr(u64, u64, u64), // rd, rs1, immediate
    Branch(BranchKind, u64, u64, u64), // rs1, rs2, offset
    Load(LoadKind, u64, u64, u64), // rd, rs1, immediate
    Store(StoreKind, u64, u64, u64), // rs1, rs2, immediate
    Immediate(ImmediateKind, u64, u64, u64), // rd, rs1, immediate
    Shift(ShiftKind, u64, u64, u64), // rd, rs1, amount
    Addiw(u64, u64, u64), // rd, rs1, immediate
    ShiftWord(ShiftWordKind, u64, u64, u64), // rd, rs1, amount
    Register(RegisterKind, u64, u64, u64), // rd, rs1, rs2
    RegisterWord(RegisterWordKind, u64, u64, u64), // rd, rs1, rs2
    Fence(u64, u64, u64, u64, u64), // fm, pred, succ, rs1, rd
    System(SystemKind),
    HLoad(LoadKind, u64, u64, u64, u64), // region, rd, rs1, immediate
    HStore(StoreKind, u64, u64, u64, u64), // region, rs1, rs2, immediate
    Hfi(HfiKind, u64, u64, u64), // rd, rs1, rs2; those that the row does not name are 0
}

// The explicit regions, by the choice that two bits of an h-word make.
pub const EXPLICIT_REGIONS: [u64; 4] = [1, 4, 5, 6];
