// The fields of each format, and the word that fields make. What they are made of stays a list of parameters, those of a variant of
// `Instruction`: a struct of them would be made in one arm of `encode_fields`, to be taken apart here at once.
ghost use Rattle.std.specs.Prelude.{◌≡◌, ◌^◌, ◌<◌};
ghost use Rattle.instructions.specs.Fields.{word_of};
ghost use Rattle.instructions.specs.InWord.{InWord};
ghost use Rattle.instructions.specs.Encode.{r_fields, i_fields, s_fields, b_fields, u_fields, j_fields, shift_fields, fence_fields};

use instructions::code::Coded;
use instructions::fields::Fields;
use instructions::kind::ShiftKind;
use instructions::opcode::{MISC_MEM, OP_IMM};
use words::{bits, put};

// `code` is funct7 and funct3 as one number.
pub fn r_fields(opcode: u64, code: u64, rd: u64, rs1: u64, rs2: u64) -> Fields
    ensures { result ≡ r_fields opcode code rd rs1 rs2 }
{
    Fields {
        opcode,
        rd,
        funct3: bits(code, 0, 3),
        rs1,
        rs2,
        funct7: bits(code, 3, 7),
    }
}

pub fn i_fields(opcode: u64, funct3: u64, rd: u64, rs1: u64, imm: u64) -> Fields
    ensures { result ≡ i_fields opcode funct3 rd rs1 imm }
{
    Fields {
        opcode,
        rd,
        funct3,
        rs1,
        rs2: bits(imm, 0, 5),
        funct7: bits(imm, 5, 7),
    }
}

pub fn s_fields(opcode: u64, funct3: u64, rs1: u64, rs2: u64, imm: u64) -> Fields
    ensures { result ≡ s_fields opcode funct3 rs1 rs2 imm }
{
    Fields {
        opcode,
        rd: bits(imm, 0, 5),
        funct3,
        rs1,
        rs2,
        funct7: bits(imm, 5, 7),
    }
}

pub fn b_fields(opcode: u64, funct3: u64, rs1: u64, rs2: u64, imm: u64) -> Fields
    ensures { result ≡ b_fields opcode funct3 rs1 rs2 imm }
{
    Fields {
        opcode,
        rd: put(bits(imm, 11, 1), bits(imm, 1, 4), 1),
        funct3,
        rs1,
        rs2,
        funct7: put(bits(imm, 5, 6), bits(imm, 12, 1), 6),
    }
}

pub fn u_fields(opcode: u64, rd: u64, imm: u64) -> Fields
    ensures { result ≡ u_fields opcode rd imm }
{
    Fields {
        opcode,
        rd,
        funct3: bits(imm, 12, 3),
        rs1: bits(imm, 15, 5),
        rs2: bits(imm, 20, 5),
        funct7: bits(imm, 25, 7),
    }
}

pub fn j_fields(opcode: u64, rd: u64, imm: u64) -> Fields
    ensures { result ≡ j_fields opcode rd imm }
{
    Fields {
        opcode,
        rd,
        funct3: bits(imm, 12, 3),
        rs1: bits(imm, 15, 5),
        rs2: put(bits(imm, 11, 1), bits(imm, 1, 4), 1),
        funct7: put(bits(imm, 5, 6), bits(imm, 20, 1), 6),
    }
}

pub fn shift_fields(k: ShiftKind, rd: u64, rs1: u64, amount: u64) -> Fields
    requires { amount < 2 ^ 6 }
    ensures { result ≡ shift_fields k rd rs1 amount }
{
    let code = k.code();
    i_fields(
        OP_IMM,
        bits(code, 0, 3),
        rd,
        rs1,
        put(amount, bits(code, 3, 6), 6),
    )
}

pub fn fence_fields(fm: u64, pred: u64, succ: u64, rs1: u64, rd: u64) -> Fields
    requires { (fm < 2 ^ 4) × (pred < 2 ^ 4) × (succ < 2 ^ 4) }
    ensures { result ≡ fence_fields fm pred succ rs1 rd }
{
    i_fields(MISC_MEM, 0, rd, rs1, put(succ, put(pred, fm, 4), 4))
}

pub fn join(f: Fields) -> u32
    requires { InWord f }
    ensures { result ≡ word_of f }
{
    let low = put(put(put(f.opcode, f.rd, 7), f.funct3, 12), f.rs1, 15);
    put(put(low, f.rs2, 20), f.funct7, 25) as u32
}
