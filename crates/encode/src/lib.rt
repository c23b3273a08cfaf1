// Encoding: the fields of the word, by the instruction's format, and whether each value is one that its field can express.
#![tactic(auto)]

ghost use Rattle.std.specs.Prelude.{◌≡◌, true, ◌<◌};
ghost use Rattle.instructions.specs.Encode.{encode_fields, two, multiple as is_multiple, in_range, encode_word};

pub mod answer;
pub mod format;
pub mod h_word;

use crate::format::{
    b_fields, fence_fields, i_fields, j_fields, join, r_fields, s_fields, shift_fields, u_fields,
};
use crate::h_word::{h_word_in_range, other_field, rs1_field};
use instructions::code::Coded;
use instructions::fields::Fields;
use instructions::hfi_table::fields_named;
use instructions::instruction::Instruction;
use instructions::opcode::{
    BRANCH, H_LOAD, H_STORE, HFI, JAL, JALR, LOAD, OP, OP_32, OP_IMM, OP_IMM_32, STORE, SYSTEM,
};
use words::{bits, fits_signed, put};

fn two_registers(a: u64, b: u64, rest: bool) -> bool
    ensures { result ≡ two a b rest }
{
    a < 32 && b < 32 && rest
}

// Can a signed field of `width` bits express `x`, with its `low` lowest bits zero?
fn multiple(x: u64, width: u64, low: u64) -> bool
    requires { (0 < width) × (width < 64) × (low < 64) }
    ensures { result ≡ is_multiple width low x }
{
    fits_signed(x, width) && bits(x, 0, low) == 0
}

fn in_range(i: Instruction) -> bool
    ensures { result ≡ in_range i }
{
    match i {
        Instruction::Upper(_, rd, imm) => rd < 32 && multiple(imm, 32, 12),
        Instruction::Jal(rd, offset) => rd < 32 && multiple(offset, 21, 1),
        Instruction::Jalr(rd, rs1, imm) => two_registers(rd, rs1, fits_signed(imm, 12)),
        Instruction::Branch(_, rs1, rs2, imm) => two_registers(rs1, rs2, multiple(imm, 13, 1)),
        Instruction::Load(_, rd, rs1, imm) => two_registers(rd, rs1, fits_signed(imm, 12)),
        Instruction::Store(_, rs1, rs2, imm) => two_registers(rs1, rs2, fits_signed(imm, 12)),
        Instruction::Immediate(_, rd, rs1, imm) => two_registers(rd, rs1, fits_signed(imm, 12)),
        Instruction::Shift(_, rd, rs1, amount) => two_registers(rd, rs1, amount < 64),
        Instruction::Addiw(rd, rs1, imm) => two_registers(rd, rs1, fits_signed(imm, 12)),
        Instruction::ShiftWord(_, rd, rs1, amount) => two_registers(rd, rs1, amount < 32),
        Instruction::Register(_, rd, rs1, rs2) => two_registers(rd, rs1, rs2 < 32),
        Instruction::RegisterWord(_, rd, rs1, rs2) => two_registers(rd, rs1, rs2 < 32),
        Instruction::Fence(fm, pred, succ, rs1, rd) => two_registers(
            rd,
            rs1,
            fm < 16 && pred < 16 && succ < 16,
        ),
        Instruction::System(_) => true,
        Instruction::HLoad(_, region, rd, rs1, imm) => h_word_in_range(region, rd, rs1, imm),
        Instruction::HStore(_, region, rs1, rs2, imm) => h_word_in_range(region, rs1, rs2, imm),
        Instruction::Hfi(k, rd, rs1, rs2) => two_registers(
            rd,
            rs1,
            rs2 < 32 && fields_named(k.code(), rd, rs1, rs2),
        ),
    }
}

fn encode_fields(i: Instruction) -> Fields
    requires { in_range i ≡ true }
    ensures { result ≡ encode_fields i }
{
    match i {
        Instruction::Upper(k, rd, imm) => u_fields(k.code(), rd, imm),
        Instruction::Jal(rd, offset) => j_fields(JAL, rd, offset),
        Instruction::Jalr(rd, rs1, imm) => i_fields(JALR, 0, rd, rs1, imm),
        Instruction::Branch(k, rs1, rs2, offset) => b_fields(BRANCH, k.code(), rs1, rs2, offset),
        Instruction::Load(k, rd, rs1, imm) => i_fields(LOAD, k.code(), rd, rs1, imm),
        Instruction::Store(k, rs1, rs2, imm) => s_fields(STORE, k.code(), rs1, rs2, imm),
        Instruction::Immediate(k, rd, rs1, imm) => i_fields(OP_IMM, k.code(), rd, rs1, imm),
        Instruction::Shift(k, rd, rs1, amount) => shift_fields(k, rd, rs1, amount),
        Instruction::Addiw(rd, rs1, imm) => i_fields(OP_IMM_32, 0, rd, rs1, imm),
        Instruction::ShiftWord(k, rd, rs1, n) => r_fields(OP_IMM_32, k.code(), rd, rs1, n),
        Instruction::Register(k, rd, rs1, rs2) => r_fields(OP, k.code(), rd, rs1, rs2),
        Instruction::RegisterWord(k, rd, rs1, rs2) => r_fields(OP_32, k.code(), rd, rs1, rs2),
        Instruction::Fence(fm, pred, succ, rs1, rd) => fence_fields(fm, pred, succ, rs1, rd),
        Instruction::System(k) => i_fields(SYSTEM, 0, 0, 0, k.code()),
        Instruction::HLoad(k, region, rd, rs1, imm) => i_fields(
            H_LOAD,
            k.code(),
            other_field(region, rd),
            rs1_field(region, rs1),
            imm,
        ),
        Instruction::HStore(k, region, rs1, rs2, imm) => s_fields(
            H_STORE,
            k.code(),
            rs1_field(region, rs1),
            other_field(region, rs2),
            imm,
        ),
        Instruction::Hfi(k, rd, rs1, rs2) => r_fields(HFI, put(0, k.code(), 3), rd, rs1, rs2),
    }
}

// The word of any instruction; none where a field is out of range.
#[tactic(auto, using(instructions::proofs::DecodeEncode::encode_in_word), unfolding(instructions::specs::Encode::encode_word))]
pub fn encode(i: Instruction) -> Option<u32>
    ensures { result ≡ encode_word i }
{
    in_range(i).then(|| join(encode_fields(i)))
}
