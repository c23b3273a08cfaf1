// The kinds of each group of instructions, each with its code as its discriminant.
use crate::opcode::{AUIPC, LUI};

// Opcode.
#[derive(Clone, Copy)]
pub enum UpperKind {
    Lui = LUI as isize,
    Auipc = AUIPC as isize,
}

// funct3 of opcode BRANCH.
#[derive(Clone, Copy)]
pub enum BranchKind {
    Beq = 0b000,
    Bne = 0b001,
    Blt = 0b100,
    Bge = 0b101,
    Bltu = 0b110,
    Bgeu = 0b111,
}

// funct3 of opcode LOAD, and of opcode 0b: an h-prefixed load has the kinds of an ordinary one.
#[derive(Clone, Copy)]
pub enum LoadKind {
    Lb = 0b000,
    Lh = 0b001,
    Lw = 0b010,
    Ld = 0b011,
    Lbu = 0b100,
    Lhu = 0b101,
    Lwu = 0b110,
}

// funct3 of opcode STORE, and of opcode 2b: an h-prefixed store has the kinds of an ordinary one.
#[derive(Clone, Copy)]
pub enum StoreKind {
    Sb = 0b000,
    Sh = 0b001,
    Sw = 0b010,
    Sd = 0b011,
}

// funct3 of opcode OP-IMM.
#[derive(Clone, Copy)]
pub enum ImmediateKind {
    Addi = 0b000,
    Slti = 0b010,
    Sltiu = 0b011,
    Xori = 0b100,
    Ori = 0b110,
    Andi = 0b111,
}

// The six bits above the amount, and funct3, of opcode OP-IMM.
#[derive(Clone, Copy)]
pub enum ShiftKind {
    Slli = 0b000000_001,
    Srli = 0b000000_101,
    Srai = 0b010000_101,
}

// funct7 and funct3 of opcode OP-IMM-32.
#[derive(Clone, Copy)]
pub enum ShiftWordKind {
    Slliw = 0b0000000_001,
    Srliw = 0b0000000_101,
    Sraiw = 0b0100000_101,
}

// funct7 and funct3 of opcode OP.
#[derive(Clone, Copy)]
pub enum RegisterKind {
    Add = 0b0000000_000,
    Sub = 0b0100000_000,
    Sll = 0b0000000_001,
    Slt = 0b0000000_010,
    Sltu = 0b0000000_011,
    Xor = 0b0000000_100,
    Srl = 0b0000000_101,
    Sra = 0b0100000_101,
    Or = 0b0000000_110,
    And = 0b0000000_111,
    Mul = 0b0000001_000,
    Mulh = 0b0000001_001,
    Mulhsu = 0b0000001_010,
    Mulhu = 0b0000001_011,
    Div = 0b0000001_100,
    Divu = 0b0000001_101,
    Rem = 0b0000001_110,
    Remu = 0b0000001_111,
}

// funct7 and funct3 of opcode OP-32.
#[derive(Clone, Copy)]
pub enum RegisterWordKind {
    Addw = 0b0000000_000,
    Subw = 0b0100000_000,
    Sllw = 0b0000000_001,
    Srlw = 0b0000000_101,
    Sraw = 0b0100000_101,
    Mulw = 0b0000001_000,
    Divw = 0b0000001_100,
    Divuw = 0b0000001_101,
    Remw = 0b0000001_110,
    Remuw = 0b0000001_111,
}

// funct12 of opcode SYSTEM.
#[derive(Clone, Copy)]
pub enum SystemKind {
    Ecall = 0,
    Ebreak = 1,
}

// Document 01's funct7 of opcode 5b: the rows of its table.
#[derive(Clone, Copy)]
pub enum HfiKind {
    Enter = 0,
    EnterJump = 1,
    Exit = 2,
    SelectRegion = 3,
    SetBase = 4,
    GetBase = 5,
    SetBound = 6,
    GetBound = 7,
    SetPermission = 8,
    GetPermission = 9,
    SetHandler = 10,
    GetHandler = 11,
    ResetRegions = 12,
}
