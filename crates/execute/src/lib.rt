// The instructions by their groups, an arm each: a value of `arithmetic` written back, a pc, or a call.
#![tactic(auto)]

ghost use Rattle.std.specs.Prelude.{◌≡◌, List, ℕ, true};
ghost use Rattle.instructions.specs.Encode.{in_range};
ghost use Rattle.instructions.specs.declared.instruction.Instruction.TheVariants.{System};
ghost use Rattle.model.specs.Outcome.{answer_of, stepped_with};
ghost use Rattle.model.specs.Step.{perform, execute_instruction};

use arithmetic::{
    add_word, jalr_target, of_shift_word, operate, operate_immediate, operate_shift, operate_word,
    taken,
};
use hart::machine::{register, write_back};
use hart::state::{exit, redirects_calls};
use hfi::rules::h_word_rule;
use hfi::word::hfi_word;
use instructions::instruction::Instruction;
use instructions::kind::{SystemKind, UpperKind};
use load_store::{hload, hstore, load, store};
use memory::offset::Offset;
use model::Machine;
use model::stop::{Reason, Stop};

// ECALL, which HFI may redirect to the handler, and EBREAK.
#[tactic(auto, unfolding(model::specs::Step::perform))]
fn system(m: &mut Machine, k: SystemKind) -> Result<(), Stop>
    ensures { (mem : List ℕ) (next : ℕ) → stepped_with (answer_of result m.new) mem ≡ perform m.old mem next (System k) }
{
    match k {
        SystemKind::Ecall => {
            if !redirects_calls(&m.hfi) {
                return Err(Stop::SystemCall);
            }
            let pc = m.pc;
            m.pc = m.hfi.handler;
            exit(&mut m.hfi, Reason::SystemCall.number(), pc);
            Ok(())
        }
        SystemKind::Ebreak => Err(Stop::Breakpoint),
    }
}

// One instruction, question 8 first; `next` is the pc after it. An arm for each group, so longer than other functions.
#[tactic(auto, using(crate::proofs::Ranges::below, model::proofs::Stops::rule_stops), unfolding(model::specs::Step::perform, model::specs::Step::execute_instruction, model::specs::Outcome::allowed, model::specs::Hfi::hfi_stop))]
pub fn execute(m: &mut Machine, mem: &mut [u8], next: u64, i: Instruction) -> Result<(), Stop>
    requires { in_range i ≡ true }
    ensures { stepped_with (answer_of result m.new) mem.new ≡ execute_instruction m.old mem.old next i }
{
    match i {
        Instruction::Upper(k, rd, imm) => {
            let v = match k {
                UpperKind::Lui => imm,
                UpperKind::Auipc => m.pc.wrapping_add(imm),
            };
            write_back(m, next, rd, v);
        }
        Instruction::Jal(rd, offset) => {
            let target = m.pc.wrapping_add(offset);
            write_back(m, target, rd, next);
        }
        Instruction::Jalr(rd, rs1, imm) => {
            let target = jalr_target(register(m, rs1), imm);
            write_back(m, target, rd, next);
        }
        Instruction::Branch(k, rs1, rs2, offset) => {
            m.pc = if taken(k, register(m, rs1), register(m, rs2)) {
                m.pc.wrapping_add(offset)
            } else {
                next
            };
        }
        Instruction::Load(k, rd, rs1, imm) => {
            let a = register(m, rs1).wrapping_add(imm);
            load(m, mem, next, k, rd, a)?;
        }
        Instruction::Store(k, rs1, rs2, imm) => {
            let a = register(m, rs1).wrapping_add(imm);
            let value = register(m, rs2);
            store(m, mem, next, k, value, a)?;
        }
        Instruction::Immediate(k, rd, rs1, imm) => {
            let v = operate_immediate(k, register(m, rs1), imm);
            write_back(m, next, rd, v);
        }
        Instruction::Shift(k, rd, rs1, amount) => {
            let v = operate_shift(k, register(m, rs1), amount);
            write_back(m, next, rd, v);
        }
        Instruction::Addiw(rd, rs1, imm) => {
            let v = add_word(register(m, rs1), imm);
            write_back(m, next, rd, v);
        }
        Instruction::ShiftWord(k, rd, rs1, amount) => {
            let v = operate_word(of_shift_word(k), register(m, rs1), amount);
            write_back(m, next, rd, v);
        }
        Instruction::Register(k, rd, rs1, rs2) => {
            let v = operate(k, register(m, rs1), register(m, rs2));
            write_back(m, next, rd, v);
        }
        Instruction::RegisterWord(k, rd, rs1, rs2) => {
            let v = operate_word(k, register(m, rs1), register(m, rs2));
            write_back(m, next, rd, v);
        }
        Instruction::Fence(_, _, _, _, _) => m.pc = next,
        Instruction::System(k) => return system(m, k),
        Instruction::HLoad(k, region, rd, rs1, imm) => {
            h_word_rule(&m.hfi)?;
            let offset = Offset {
                operand: register(m, rs1),
                imm,
            };
            hload(m, mem, next, k, region, rd, offset)?;
        }
        Instruction::HStore(k, region, rs1, rs2, imm) => {
            h_word_rule(&m.hfi)?;
            let offset = Offset {
                operand: register(m, rs1),
                imm,
            };
            let value = register(m, rs2);
            hstore(m, mem, next, k, region, value, offset)?;
        }
        Instruction::Hfi(k, rd, rs1, rs2) => hfi_word(m, next, k, rd, rs1, rs2)?,
    }
    Ok(())
}
