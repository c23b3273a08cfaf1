// Kinds and their codes, both ways: the numbers of their function fields, of their opcode, or document 01's funct7. A code is the
// discriminant of its kind. A pattern cannot name a discriminant, so each `of_code` has the numbers again, proved to be the same. One search
// for all, the trait's own `Self::all().iter().copied().find(|k| code == k.code())` over each kind's list, proves, but misses a bar: a step of
// matrix-mul takes 145.2 instructions with it, 144.2 if RegisterKind's alone is a match, and 143.4 with these matches and in plain C. Each `code` is written out, since no type parameter can be cast.
ghost use Rattle.std.specs.Prelude.{◌≡◌, List, ℕ, Some, None};
ghost use Rattle.instructions.specs.Table.{of_code, Found};
ghost use Rattle.instructions.specs.Kinds.{upper_code, upper_kinds, branch_code, branch_kinds, load_code, load_kinds, store_code, store_kinds, immediate_code, immediate_kinds, shift_code, shift_kinds, shift_word_code, shift_word_kinds, register_code, register_kinds, register_word_code, register_word_kinds, system_code, system_kinds, hfi_code, hfi_kinds};
ghost use Rattle.std.proofs.Common.{rules};

use crate::kind::{
    BranchKind, HfiKind, ImmediateKind, LoadKind, RegisterKind, RegisterWordKind, ShiftKind,
    ShiftWordKind, StoreKind, SystemKind, UpperKind,
};
use crate::opcode::{AUIPC, LUI};

// A kind that stands under a code. One trait for both ways, since `found` is a law of both: From<Kind> for u64 and TryFrom<u64> would be two, without it.
pub trait Coded: Copy {
    ghost code_of: { Self → ℕ };

    // In the order of the listing.
    ghost kinds: { List Self };

    // How many bits a code has.
    ghost width: { ℕ };

    fn code(self) -> u64
        ensures { result ≡ code_of self };

    fn of_code(code: u64) -> Option<Self>
        ensures { result ≡ of_code code_of Some None kinds code };

    // Each kind's code has no more bits, and finds the kind.
    ghost found: { (k : Self) → Found code_of kinds width k };
}

impl Coded for UpperKind {
    ghost code_of = { upper_code };

    ghost kinds = { upper_kinds };

    ghost width = { 7 };

    ghost found = { Prim.search rules };

    fn code(self) -> u64 {
        self as u64
    }

    fn of_code(code: u64) -> Option<UpperKind> {
        match code {
            LUI => Some(UpperKind::Lui),
            AUIPC => Some(UpperKind::Auipc),
            _ => None,
        }
    }
}

impl Coded for BranchKind {
    ghost code_of = { branch_code };

    ghost kinds = { branch_kinds };

    ghost width = { 3 };

    ghost found = { Prim.search rules };

    fn code(self) -> u64 {
        self as u64
    }

    fn of_code(code: u64) -> Option<BranchKind> {
        match code {
            0b000 => Some(BranchKind::Beq),
            0b001 => Some(BranchKind::Bne),
            0b100 => Some(BranchKind::Blt),
            0b101 => Some(BranchKind::Bge),
            0b110 => Some(BranchKind::Bltu),
            0b111 => Some(BranchKind::Bgeu),
            _ => None,
        }
    }
}

impl Coded for LoadKind {
    ghost code_of = { load_code };

    ghost kinds = { load_kinds };

    ghost width = { 3 };

    ghost found = { Prim.search rules };

    fn code(self) -> u64 {
        self as u64
    }

    fn of_code(code: u64) -> Option<LoadKind> {
        match code {
            0b000 => Some(LoadKind::Lb),
            0b001 => Some(LoadKind::Lh),
            0b010 => Some(LoadKind::Lw),
            0b011 => Some(LoadKind::Ld),
            0b100 => Some(LoadKind::Lbu),
            0b101 => Some(LoadKind::Lhu),
            0b110 => Some(LoadKind::Lwu),
            _ => None,
        }
    }
}

impl Coded for StoreKind {
    ghost code_of = { store_code };

    ghost kinds = { store_kinds };

    ghost width = { 3 };

    ghost found = { Prim.search rules };

    fn code(self) -> u64 {
        self as u64
    }

    fn of_code(code: u64) -> Option<StoreKind> {
        match code {
            0b000 => Some(StoreKind::Sb),
            0b001 => Some(StoreKind::Sh),
            0b010 => Some(StoreKind::Sw),
            0b011 => Some(StoreKind::Sd),
            _ => None,
        }
    }
}

impl Coded for ImmediateKind {
    ghost code_of = { immediate_code };

    ghost kinds = { immediate_kinds };

    ghost width = { 3 };

    ghost found = { Prim.search rules };

    fn code(self) -> u64 {
        self as u64
    }

    fn of_code(code: u64) -> Option<ImmediateKind> {
        match code {
            0b000 => Some(ImmediateKind::Addi),
            0b010 => Some(ImmediateKind::Slti),
            0b011 => Some(ImmediateKind::Sltiu),
            0b100 => Some(ImmediateKind::Xori),
            0b110 => Some(ImmediateKind::Ori),
            0b111 => Some(ImmediateKind::Andi),
            _ => None,
        }
    }
}

impl Coded for ShiftKind {
    ghost code_of = { shift_code };

    ghost kinds = { shift_kinds };

    ghost width = { 9 };

    ghost found = { Prim.search rules };

    fn code(self) -> u64 {
        self as u64
    }

    fn of_code(code: u64) -> Option<ShiftKind> {
        match code {
            0b000000_001 => Some(ShiftKind::Slli),
            0b000000_101 => Some(ShiftKind::Srli),
            0b010000_101 => Some(ShiftKind::Srai),
            _ => None,
        }
    }
}

impl Coded for ShiftWordKind {
    ghost code_of = { shift_word_code };

    ghost kinds = { shift_word_kinds };

    ghost width = { 10 };

    ghost found = { Prim.search rules };

    fn code(self) -> u64 {
        self as u64
    }

    fn of_code(code: u64) -> Option<ShiftWordKind> {
        match code {
            0b0000000_001 => Some(ShiftWordKind::Slliw),
            0b0000000_101 => Some(ShiftWordKind::Srliw),
            0b0100000_101 => Some(ShiftWordKind::Sraiw),
            _ => None,
        }
    }
}

impl Coded for RegisterKind {
    ghost code_of = { register_code };

    ghost kinds = { register_kinds };

    ghost width = { 10 };

    ghost found = { Prim.search rules };

    fn code(self) -> u64 {
        self as u64
    }

    fn of_code(code: u64) -> Option<RegisterKind> {
        match code {
            0b0000000_000 => Some(RegisterKind::Add),
            0b0100000_000 => Some(RegisterKind::Sub),
            0b0000000_001 => Some(RegisterKind::Sll),
            0b0000000_010 => Some(RegisterKind::Slt),
            0b0000000_011 => Some(RegisterKind::Sltu),
            0b0000000_100 => Some(RegisterKind::Xor),
            0b0000000_101 => Some(RegisterKind::Srl),
            0b0100000_101 => Some(RegisterKind::Sra),
            0b0000000_110 => Some(RegisterKind::Or),
            0b0000000_111 => Some(RegisterKind::And),
            0b0000001_000 => Some(RegisterKind::Mul),
            0b0000001_001 => Some(RegisterKind::Mulh),
            0b0000001_010 => Some(RegisterKind::Mulhsu),
            0b0000001_011 => Some(RegisterKind::Mulhu),
            0b0000001_100 => Some(RegisterKind::Div),
            0b0000001_101 => Some(RegisterKind::Divu),
            0b0000001_110 => Some(RegisterKind::Rem),
            0b0000001_111 => Some(RegisterKind::Remu),
            _ => None,
        }
    }
}

impl Coded for RegisterWordKind {
    ghost code_of = { register_word_code };

    ghost kinds = { register_word_kinds };

    ghost width = { 10 };

    ghost found = { Prim.search rules };

    fn code(self) -> u64 {
        self as u64
    }

    fn of_code(code: u64) -> Option<RegisterWordKind> {
        match code {
            0b0000000_000 => Some(RegisterWordKind::Addw),
            0b0100000_000 => Some(RegisterWordKind::Subw),
            0b0000000_001 => Some(RegisterWordKind::Sllw),
            0b0000000_101 => Some(RegisterWordKind::Srlw),
            0b0100000_101 => Some(RegisterWordKind::Sraw),
            0b0000001_000 => Some(RegisterWordKind::Mulw),
            0b0000001_100 => Some(RegisterWordKind::Divw),
            0b0000001_101 => Some(RegisterWordKind::Divuw),
            0b0000001_110 => Some(RegisterWordKind::Remw),
            0b0000001_111 => Some(RegisterWordKind::Remuw),
            _ => None,
        }
    }
}

impl Coded for SystemKind {
    ghost code_of = { system_code };

    ghost kinds = { system_kinds };

    ghost width = { 12 };

    ghost found = { Prim.search rules };

    fn code(self) -> u64 {
        self as u64
    }

    fn of_code(code: u64) -> Option<SystemKind> {
        match code {
            0 => Some(SystemKind::Ecall),
            1 => Some(SystemKind::Ebreak),
            _ => None,
        }
    }
}

impl Coded for HfiKind {
    ghost code_of = { hfi_code };

    ghost kinds = { hfi_kinds };

    ghost width = { 7 };

    ghost found = { Prim.search rules };

    fn code(self) -> u64 {
        self as u64
    }

    fn of_code(code: u64) -> Option<HfiKind> {
        match code {
            0 => Some(HfiKind::Enter),
            1 => Some(HfiKind::EnterJump),
            2 => Some(HfiKind::Exit),
            3 => Some(HfiKind::SelectRegion),
            4 => Some(HfiKind::SetBase),
            5 => Some(HfiKind::GetBase),
            6 => Some(HfiKind::SetBound),
            7 => Some(HfiKind::GetBound),
            8 => Some(HfiKind::SetPermission),
            9 => Some(HfiKind::GetPermission),
            10 => Some(HfiKind::SetHandler),
            11 => Some(HfiKind::GetHandler),
            12 => Some(HfiKind::ResetRegions),
            _ => None,
        }
    }
}
