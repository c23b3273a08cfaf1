// What the operations make of values: the leaves of every instruction that only computes.
#![tactic(auto)]

ghost use Rattle.std.specs.Prelude.{◌≡◌, ◌*◌, ◌^◌, ◌<◌};
ghost use Rattle.instructions.specs.declared.kind.RegisterKind.TheVariants.{Add};
ghost use Rattle.model.specs.Access.{load_width};
ghost use Rattle.model.specs.Step.{jalr_target};
ghost use Rattle.model.specs.Arithmetic.{operate as operate_at, operate_word, of_register_word, of_immediate, of_shift, of_shift_word, taken as is_taken, extended as extended_of};

use instructions::kind::{
    BranchKind, ImmediateKind, LoadKind, RegisterKind, RegisterWordKind, ShiftKind, ShiftWordKind,
};
use words::integer::{
    divide, divide_signed, multiply, multiply_high, multiply_high_mixed, multiply_high_signed,
    remainder, remainder_signed,
};
use words::{bits, shift_right_signed, sign_extend, signed_less};

// An operation on 64 bits.
pub fn operate(k: RegisterKind, a: u64, b: u64) -> u64
    ensures { result ≡ operate_at 64 k a b }
{
    match k {
        RegisterKind::Add => a.wrapping_add(b),
        RegisterKind::Sub => a.wrapping_sub(b),
        RegisterKind::Sll => a << (b % 64),
        RegisterKind::Slt => u64::from(signed_less(a, b)),
        RegisterKind::Sltu => u64::from(a < b),
        RegisterKind::Xor => a ^ b,
        RegisterKind::Srl => a >> (b % 64),
        RegisterKind::Sra => shift_right_signed(a, 64, b % 64),
        RegisterKind::Or => a | b,
        RegisterKind::And => a & b,
        RegisterKind::Mul => multiply(a, b),
        RegisterKind::Mulh => multiply_high_signed(a, b),
        RegisterKind::Mulhsu => multiply_high_mixed(a, b),
        RegisterKind::Mulhu => multiply_high(a, b),
        RegisterKind::Div => divide_signed(a, b, 64),
        RegisterKind::Divu => divide(a, b, 64),
        RegisterKind::Rem => remainder_signed(a, b, 64),
        RegisterKind::Remu => remainder(a, b),
    }
}

// The same with an immediate, or an amount.
pub fn operate_immediate(k: ImmediateKind, a: u64, imm: u64) -> u64
    ensures { result ≡ operate_at 64 (of_immediate k) a imm }
{
    match k {
        ImmediateKind::Addi => operate(RegisterKind::Add, a, imm),
        ImmediateKind::Slti => operate(RegisterKind::Slt, a, imm),
        ImmediateKind::Sltiu => operate(RegisterKind::Sltu, a, imm),
        ImmediateKind::Xori => operate(RegisterKind::Xor, a, imm),
        ImmediateKind::Ori => operate(RegisterKind::Or, a, imm),
        ImmediateKind::Andi => operate(RegisterKind::And, a, imm),
    }
}

pub fn operate_shift(k: ShiftKind, a: u64, amount: u64) -> u64
    ensures { result ≡ operate_at 64 (of_shift k) a amount }
{
    match k {
        ShiftKind::Slli => operate(RegisterKind::Sll, a, amount),
        ShiftKind::Srli => operate(RegisterKind::Srl, a, amount),
        ShiftKind::Srai => operate(RegisterKind::Sra, a, amount),
    }
}

// An operation on 32 bits, of the kinds that have a word form.
#[tactic(auto, using(words::proofs::Quotients::quotient_lt, words::proofs::Quotients::remainder_lt, words::proofs::Products::low_signed, crate::proofs::Word::narrow))]
fn operate_32(k: RegisterWordKind, a: u32, b: u32) -> u32
    ensures { result ≡ operate_at 32 (of_register_word k) a b }
{
    match k {
        RegisterWordKind::Addw => a.wrapping_add(b),
        RegisterWordKind::Subw => a.wrapping_sub(b),
        RegisterWordKind::Sllw => a << (b % 32),
        RegisterWordKind::Srlw => a >> (b % 32),
        RegisterWordKind::Sraw => shift_right_signed(a as u64, 32, b as u64 % 32) as u32,
        RegisterWordKind::Mulw => a.wrapping_mul(b),
        RegisterWordKind::Divw => divide_signed(a as u64, b as u64, 32) as u32,
        RegisterWordKind::Divuw => divide(a as u64, b as u64, 32) as u32,
        RegisterWordKind::Remw => remainder_signed(a as u64, b as u64, 32) as u32,
        RegisterWordKind::Remuw => remainder(a as u64, b as u64) as u32,
    }
}

// A word form: on the low 32 bits, the result sign extended.
pub fn operate_word(k: RegisterWordKind, a: u64, b: u64) -> u64
    ensures { result ≡ operate_word (of_register_word k) a b }
{
    let low = operate_32(k, bits(a, 0, 32) as u32, bits(b, 0, 32) as u32);
    sign_extend(low as u64, 32)
}

// ADDIW: the word form of ADD with an immediate.
pub fn add_word(a: u64, imm: u64) -> u64
    ensures { result ≡ operate_word Add a imm }
{
    operate_word(RegisterWordKind::Addw, a, imm)
}

// The operation that each shift of words is a form of. (No From: both kinds are of `instructions`, and which operation it is, is a definition of `model`.)
pub fn of_shift_word(k: ShiftWordKind) -> RegisterWordKind
    ensures { of_register_word result ≡ of_shift_word k }
{
    match k {
        ShiftWordKind::Slliw => RegisterWordKind::Sllw,
        ShiftWordKind::Srliw => RegisterWordKind::Srlw,
        ShiftWordKind::Sraiw => RegisterWordKind::Sraw,
    }
}

// The target of JALR: the lowest bit of the sum is zero.
pub fn jalr_target(a: u64, imm: u64) -> u64
    ensures { result ≡ jalr_target a imm }
{
    a.wrapping_add(imm) / 2 * 2
}

// Is the branch taken?
pub fn taken(k: BranchKind, a: u64, b: u64) -> bool
    ensures { result ≡ is_taken k a b }
{
    match k {
        BranchKind::Beq => a == b,
        BranchKind::Bne => a != b,
        BranchKind::Blt => signed_less(a, b),
        BranchKind::Bge => !signed_less(a, b),
        BranchKind::Bltu => a < b,
        BranchKind::Bgeu => a >= b,
    }
}

// What a load puts in its register, from the number of its bytes.
pub fn extended(k: LoadKind, v: u64) -> u64
    requires { v < 2 ^ (8 * load_width k) }
    ensures { result ≡ extended_of k v }
{
    match k {
        LoadKind::Lb => sign_extend(v, 8),
        LoadKind::Lh => sign_extend(v, 16),
        LoadKind::Lw => sign_extend(v, 32),
        LoadKind::Ld | LoadKind::Lbu | LoadKind::Lhu | LoadKind::Lwu => v,
    }
}
