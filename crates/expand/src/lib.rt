// Half-words: the integer words of RV64C, each of which stands for one instruction. By quadrant and funct3 to a line of the listing.
#![tactic(auto)]

ghost use Rattle.std.specs.Prelude.{◌≡◌, ◌<◌};
ghost use Rattle.words.specs.Word.{field};
ghost use Rattle.compressed.specs.Immediates.{short as short_of};
ghost use Rattle.compressed.specs.Expand.{expand_half, is_long};

pub mod immediate;

use crate::immediate::{
    addi4spn_immediate, addi16sp_immediate, amount, branch_offset, double_from_stack,
    double_offset, double_to_stack, immediate, jump_offset, lui_immediate, word_from_stack,
    word_offset, word_to_stack,
};
use instructions::instruction::Instruction;
use instructions::kind::{
    BranchKind, ImmediateKind, LoadKind, RegisterKind, RegisterWordKind, ShiftKind, StoreKind,
    SystemKind, UpperKind,
};
use words::{bits, put};

// The register, of x8 to x15, that three bits name.
fn short(h: u64, at: u64) -> u64
    requires { at < 64 }
    ensures { result ≡ short_of h at }
{
    put(bits(h, at, 3), 1, 3)
}

// C.ADDI16SP and C.LUI.
#[tactic(auto, unfolding(compressed::specs::Expand::expand_half))]
fn upper(h: u64) -> Option<Instruction>
    requires { (field h 0 2 ≡ 1) × (field h 13 3 ≡ 3) }
    ensures { result ≡ expand_half h }
{
    if bits(h, 12, 1) == 0 && bits(h, 2, 5) == 0 {
        return None;
    }
    let rd = bits(h, 7, 5);
    if rd == 2 {
        return Some(Instruction::Immediate(ImmediateKind::Addi, 2, 2, addi16sp_immediate(h)));
    }
    Some(Instruction::Upper(UpperKind::Lui, rd, lui_immediate(h)))
}

// What has the destination, of x8 to x15, as its first source.
#[tactic(auto, unfolding(compressed::specs::Expand::expand_half))]
fn arithmetic(h: u64) -> Option<Instruction>
    requires { (field h 0 2 ≡ 1) × (field h 13 3 ≡ 4) }
    ensures { result ≡ expand_half h }
{
    let rd = short(h, 7);
    let rs2 = short(h, 2);
    match (bits(h, 10, 2), bits(h, 12, 1), bits(h, 5, 2)) {
        (0, _, _) => Some(Instruction::Shift(ShiftKind::Srli, rd, rd, amount(h))),
        (1, _, _) => Some(Instruction::Shift(ShiftKind::Srai, rd, rd, amount(h))),
        (2, _, _) => Some(Instruction::Immediate(ImmediateKind::Andi, rd, rd, immediate(h))),
        (3, 0, 0) => Some(Instruction::Register(RegisterKind::Sub, rd, rd, rs2)),
        (3, 0, 1) => Some(Instruction::Register(RegisterKind::Xor, rd, rd, rs2)),
        (3, 0, 2) => Some(Instruction::Register(RegisterKind::Or, rd, rd, rs2)),
        (3, 0, 3) => Some(Instruction::Register(RegisterKind::And, rd, rd, rs2)),
        (3, 1, 0) => Some(Instruction::RegisterWord(RegisterWordKind::Subw, rd, rd, rs2)),
        (3, 1, 1) => Some(Instruction::RegisterWord(RegisterWordKind::Addw, rd, rd, rs2)),
        _ => None,
    }
}

// C.JR, C.MV, C.EBREAK, C.JALR and C.ADD.
#[tactic(auto, unfolding(compressed::specs::Expand::expand_half))]
fn jump_or_add(h: u64) -> Option<Instruction>
    requires { (field h 0 2 ≡ 2) × (field h 13 3 ≡ 4) }
    ensures { result ≡ expand_half h }
{
    let rd = bits(h, 7, 5);
    let rs2 = bits(h, 2, 5);
    match (bits(h, 12, 1), rd, rs2) {
        (0, 0, 0) => None,
        (0, _, 0) => Some(Instruction::Jalr(0, rd, 0)),
        (0, _, _) => Some(Instruction::Register(RegisterKind::Add, rd, 0, rs2)),
        (_, 0, 0) => Some(Instruction::System(SystemKind::Ebreak)),
        (_, _, 0) => Some(Instruction::Jalr(1, rd, 0)),
        _ => Some(Instruction::Register(RegisterKind::Add, rd, rd, rs2)),
    }
}

// The register fields of a half-word. Each arm below reads those that it uses: read before the match, all of them for every half-word,
// koubospar_expand took 108 instructions where it takes 93.
fn rd(h: u64) -> u64
    ensures { result ≡ field h 7 5 }
{
    bits(h, 7, 5)
}

fn rs2(h: u64) -> u64
    ensures { result ≡ field h 2 5 }
{
    bits(h, 2, 5)
}

// The instruction of any half-word, by its op and funct3.
#[tactic(auto, unfolding(compressed::specs::Expand::expand_half))]
pub fn expand(h: u16) -> Option<Instruction>
    ensures { result ≡ expand_half h }
{
    let h = h as u64;
    match (bits(h, 0, 2), bits(h, 13, 3)) {
        (0, 0) if bits(h, 5, 8) == 0 => None,
        (0, 0) => Some(Instruction::Immediate(
            ImmediateKind::Addi,
            short(h, 2),
            2,
            addi4spn_immediate(h),
        )),
        (0, 2) => Some(Instruction::Load(LoadKind::Lw, short(h, 2), short(h, 7), word_offset(h))),
        (0, 3) => Some(Instruction::Load(LoadKind::Ld, short(h, 2), short(h, 7), double_offset(h))),
        (0, 6) => Some(Instruction::Store(StoreKind::Sw, short(h, 7), short(h, 2), word_offset(h))),
        (0, 7) => Some(Instruction::Store(
            StoreKind::Sd,
            short(h, 7),
            short(h, 2),
            double_offset(h),
        )),
        (1, 0) => Some(Instruction::Immediate(ImmediateKind::Addi, rd(h), rd(h), immediate(h))),
        (1, 1) if rd(h) == 0 => None,
        (1, 1) => Some(Instruction::Addiw(rd(h), rd(h), immediate(h))),
        (1, 2) => Some(Instruction::Immediate(ImmediateKind::Addi, rd(h), 0, immediate(h))),
        (1, 3) => upper(h),
        (1, 4) => arithmetic(h),
        (1, 5) => Some(Instruction::Jal(0, jump_offset(h))),
        (1, 6) => Some(Instruction::Branch(BranchKind::Beq, short(h, 7), 0, branch_offset(h))),
        (1, 7) => Some(Instruction::Branch(BranchKind::Bne, short(h, 7), 0, branch_offset(h))),
        (2, 0) => Some(Instruction::Shift(ShiftKind::Slli, rd(h), rd(h), amount(h))),
        (2, 2 | 3) if rd(h) == 0 => None,
        (2, 2) => Some(Instruction::Load(LoadKind::Lw, rd(h), 2, word_from_stack(h))),
        (2, 3) => Some(Instruction::Load(LoadKind::Ld, rd(h), 2, double_from_stack(h))),
        (2, 4) => jump_or_add(h),
        (2, 6) => Some(Instruction::Store(StoreKind::Sw, 2, rs2(h), word_to_stack(h))),
        (2, 7) => Some(Instruction::Store(StoreKind::Sd, 2, rs2(h), double_to_stack(h))),
        _ => None,
    }
}

// Are these the first two bytes of a long word?
pub fn is_long(h: u64) -> bool
    ensures { result ≡ is_long h }
{
    bits(h, 0, 2) == 3
}
