// The opcodes, by their names in the specification's "RISC-V base opcode map", and the three of HFI.
pub const LUI: u64 = 0b0110111;

pub const AUIPC: u64 = 0b0010111;

pub const JAL: u64 = 0b1101111;

pub const JALR: u64 = 0b1100111;

pub const BRANCH: u64 = 0b1100011;

pub const LOAD: u64 = 0b0000011;

pub const STORE: u64 = 0b0100011;

pub const OP_IMM: u64 = 0b0010011;

pub const OP_IMM_32: u64 = 0b0011011;

pub const OP: u64 = 0b0110011;

pub const OP_32: u64 = 0b0111011;

pub const MISC_MEM: u64 = 0b0001111;

pub const SYSTEM: u64 = 0b1110011;

pub const H_LOAD: u64 = 0x0b;

pub const H_STORE: u64 = 0x2b;

pub const HFI: u64 = 0x5b;
