// Decoding: by opcode to a group, and in the group by its function fields to a kind.
#![tactic(auto)]

ghost use Rattle.std.specs.Prelude.{◌≡◌};
ghost use Rattle.instructions.specs.HWords.{chosen_region};
ghost use Rattle.instructions.specs.Decode.{decode_jalr, decode_shift, decode_immediate, decode_immediate_word, decode_fence, decode_system, decode_h_load, decode_h_store, decode_hfi, decode_fields, decode_word};

pub mod word;

use crate::word::Word;
use instructions::hfi_table::fields_named;
use instructions::instruction::Instruction;
use instructions::opcode;
use words::{bits, put};

fn decode_jalr(w: Word) -> Option<Instruction>
    ensures { result ≡ decode_jalr w.fields }
{
    let f = w.fields;
    (f.funct3 == 0).then(|| Instruction::Jalr(f.rd, f.rs1, w.i_immediate()))
}

fn decode_shift(w: Word) -> Option<Instruction>
    ensures { result ≡ decode_shift w.fields }
{
    let f = w.fields;
    let all = w.i_bits();
    let code = put(f.funct3, bits(all, 6, 6), 3);
    listing::shift(code, f.rd, f.rs1, bits(all, 0, 6))
}

fn decode_immediate(w: Word) -> Option<Instruction>
    ensures { result ≡ decode_immediate w.fields }
{
    let f = w.fields;
    listing::immediate(f.funct3, f.rd, f.rs1, w.i_immediate()).or_else(|| decode_shift(w))
}

fn decode_immediate_word(w: Word) -> Option<Instruction>
    ensures { result ≡ decode_immediate_word w.fields }
{
    let f = w.fields;
    if f.funct3 == 0 {
        Some(Instruction::Addiw(f.rd, f.rs1, w.i_immediate()))
    } else {
        listing::shift_word(put(f.funct3, f.funct7, 3), f.rd, f.rs1, f.rs2)
    }
}

fn decode_fence(w: Word) -> Option<Instruction>
    ensures { result ≡ decode_fence w.fields }
{
    let f = w.fields;
    let all = w.i_bits();
    let fm = bits(all, 8, 4);
    let pred = bits(all, 4, 4);
    let succ = bits(all, 0, 4);
    (f.funct3 == 0).then_some(Instruction::Fence(fm, pred, succ, f.rs1, f.rd))
}

fn decode_system(w: Word) -> Option<Instruction>
    ensures { result ≡ decode_system w.fields }
{
    let f = w.fields;
    if f.rd == 0 && f.funct3 == 0 && f.rs1 == 0 {
        listing::system(w.i_bits())
    } else {
        None
    }
}

// The explicit region that rs1's field and the other, rd's or rs2's, choose by their top bits. No `EXPLICIT_REGIONS[..]`: with it the guest
// program `copy` took 201 instructions a step in place of 183, more than plain C with the same checks (187).
fn chosen_region(rs1: u64, other: u64) -> u64
    ensures { result ≡ chosen_region rs1 other }
{
    let choice = put(bits(other, 4, 1), bits(rs1, 4, 1), 1);
    match choice {
        0 => 1,
        1 => 4,
        2 => 5,
        _ => 6,
    }
}

// A load and a store stay two: they are of two formats, and choose their region by two other fields.
fn decode_h_load(w: Word) -> Option<Instruction>
    ensures { result ≡ decode_h_load w.fields }
{
    let f = w.fields;
    let region = chosen_region(f.rs1, f.rd);
    let rd = bits(f.rd, 0, 4);
    let rs1 = bits(f.rs1, 0, 4);
    listing::h_load(f.funct3, region, rd, rs1, w.i_immediate())
}

fn decode_h_store(w: Word) -> Option<Instruction>
    ensures { result ≡ decode_h_store w.fields }
{
    let f = w.fields;
    let region = chosen_region(f.rs1, f.rs2);
    let rs1 = bits(f.rs1, 0, 4);
    let rs2 = bits(f.rs2, 0, 4);
    listing::h_store(f.funct3, region, rs1, rs2, w.s_immediate())
}

fn decode_hfi(w: Word) -> Option<Instruction>
    ensures { result ≡ decode_hfi w.fields }
{
    let f = w.fields;
    if f.funct3 == 0 && fields_named(f.funct7, f.rd, f.rs1, f.rs2) {
        listing::hfi(f.funct7, f.rd, f.rs1, f.rs2)
    } else {
        None
    }
}

fn decode_fields(w: Word) -> Option<Instruction>
    ensures { result ≡ decode_fields w.fields }
{
    let f = w.fields;
    match f.opcode {
        opcode::LUI | opcode::AUIPC => listing::upper(f.opcode, f.rd, w.u_immediate()),
        opcode::JAL => Some(Instruction::Jal(f.rd, w.j_immediate())),
        opcode::JALR => decode_jalr(w),
        opcode::BRANCH => listing::branch(f.funct3, f.rs1, f.rs2, w.b_immediate()),
        opcode::LOAD => listing::load(f.funct3, f.rd, f.rs1, w.i_immediate()),
        opcode::STORE => listing::store(f.funct3, f.rs1, f.rs2, w.s_immediate()),
        opcode::OP_IMM => decode_immediate(w),
        opcode::OP_IMM_32 => decode_immediate_word(w),
        opcode::OP => listing::register(put(f.funct3, f.funct7, 3), f.rd, f.rs1, f.rs2),
        opcode::OP_32 => listing::register_word(put(f.funct3, f.funct7, 3), f.rd, f.rs1, f.rs2),
        opcode::MISC_MEM => decode_fence(w),
        opcode::SYSTEM => decode_system(w),
        opcode::H_LOAD => decode_h_load(w),
        opcode::H_STORE => decode_h_store(w),
        opcode::HFI => decode_hfi(w),
        _ => None,
    }
}

// The instruction of any word.
#[tactic(auto, unfolding(instructions::specs::Decode::decode_word))]
pub fn decode(w: u32) -> Option<Instruction>
    ensures { result ≡ decode_word w }
{
    decode_fields(Word::new(w))
}
