// The listing of each group: the instruction that stands under a code. Thirteen functions stay: a generic one would be
// `of_code(..).map(..)` itself, and each is held to the definition of its own group. Their parameters are those of the variant that each makes:
// a struct of them would be made at the call, only to be taken apart here.
#![tactic(auto)]

ghost use Rattle.std.specs.Prelude.{◌≡◌, true, false};
ghost use Rattle.instructions.specs.Decode.{upper_at, branch_at, load_at, store_at, immediate_at, shift_at, shift_word_at, register_at, register_word_at, system_at, hfi_at};

use instructions::code::Coded;
use instructions::instruction::Instruction;
use instructions::kind::{
    BranchKind, HfiKind, ImmediateKind, LoadKind, RegisterKind, RegisterWordKind, ShiftKind,
    ShiftWordKind, StoreKind, SystemKind, UpperKind,
};

pub fn upper(code: u64, rd: u64, imm: u64) -> Option<Instruction>
    ensures { result ≡ upper_at code rd imm }
{
    UpperKind::of_code(code).map(|k| Instruction::Upper(k, rd, imm))
}

pub fn branch(code: u64, rs1: u64, rs2: u64, offset: u64) -> Option<Instruction>
    ensures { result ≡ branch_at code rs1 rs2 offset }
{
    BranchKind::of_code(code).map(|k| Instruction::Branch(k, rs1, rs2, offset))
}

pub fn load(code: u64, rd: u64, rs1: u64, imm: u64) -> Option<Instruction>
    ensures { result ≡ load_at false code 0 rd rs1 imm }
{
    LoadKind::of_code(code).map(|k| Instruction::Load(k, rd, rs1, imm))
}

pub fn h_load(code: u64, region: u64, rd: u64, rs1: u64, imm: u64) -> Option<Instruction>
    ensures { result ≡ load_at true code region rd rs1 imm }
{
    LoadKind::of_code(code).map(|k| Instruction::HLoad(k, region, rd, rs1, imm))
}

pub fn store(code: u64, rs1: u64, rs2: u64, imm: u64) -> Option<Instruction>
    ensures { result ≡ store_at false code 0 rs1 rs2 imm }
{
    StoreKind::of_code(code).map(|k| Instruction::Store(k, rs1, rs2, imm))
}

pub fn h_store(code: u64, region: u64, rs1: u64, rs2: u64, imm: u64) -> Option<Instruction>
    ensures { result ≡ store_at true code region rs1 rs2 imm }
{
    StoreKind::of_code(code).map(|k| Instruction::HStore(k, region, rs1, rs2, imm))
}

pub fn immediate(code: u64, rd: u64, rs1: u64, imm: u64) -> Option<Instruction>
    ensures { result ≡ immediate_at code rd rs1 imm }
{
    ImmediateKind::of_code(code).map(|k| Instruction::Immediate(k, rd, rs1, imm))
}

pub fn shift(code: u64, rd: u64, rs1: u64, amount: u64) -> Option<Instruction>
    ensures { result ≡ shift_at code rd rs1 amount }
{
    ShiftKind::of_code(code).map(|k| Instruction::Shift(k, rd, rs1, amount))
}

pub fn shift_word(code: u64, rd: u64, rs1: u64, amount: u64) -> Option<Instruction>
    ensures { result ≡ shift_word_at code rd rs1 amount }
{
    ShiftWordKind::of_code(code).map(|k| Instruction::ShiftWord(k, rd, rs1, amount))
}

pub fn register(code: u64, rd: u64, rs1: u64, rs2: u64) -> Option<Instruction>
    ensures { result ≡ register_at code rd rs1 rs2 }
{
    RegisterKind::of_code(code).map(|k| Instruction::Register(k, rd, rs1, rs2))
}

pub fn register_word(code: u64, rd: u64, rs1: u64, rs2: u64) -> Option<Instruction>
    ensures { result ≡ register_word_at code rd rs1 rs2 }
{
    RegisterWordKind::of_code(code).map(|k| Instruction::RegisterWord(k, rd, rs1, rs2))
}

pub fn system(code: u64) -> Option<Instruction>
    ensures { result ≡ system_at code }
{
    SystemKind::of_code(code).map(|k| Instruction::System(k))
}

pub fn hfi(code: u64, rd: u64, rs1: u64, rs2: u64) -> Option<Instruction>
    ensures { result ≡ hfi_at code rd rs1 rs2 }
{
    HfiKind::of_code(code).map(|k| Instruction::Hfi(k, rd, rs1, rs2))
}
