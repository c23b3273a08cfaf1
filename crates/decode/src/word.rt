// A long word by its fields, and the immediate of each format.
ghost use Rattle.std.specs.Prelude.{◌≡◌};
ghost use Rattle.instructions.specs.Fields.{fields_of};
ghost use Rattle.instructions.specs.InWord.{InWord};
ghost use Rattle.instructions.specs.Immediates.{i_bits, i_immediate, s_immediate, b_immediate, u_immediate, j_immediate};

use instructions::fields::Fields;
use words::{bits, put, sign_extend};

#[derive(Clone, Copy)]
pub struct Word {
    pub fields: Fields,
    pub ghost in_word: { InWord fields },
}

impl Word {
    pub fn new(w: u32) -> Word
        ensures { result.fields ≡ fields_of w }
    {
        let x = w as u64;
        Word {
            fields: Fields {
                opcode: bits(x, 0, 7),
                rd: bits(x, 7, 5),
                funct3: bits(x, 12, 3),
                rs1: bits(x, 15, 5),
                rs2: bits(x, 20, 5),
                funct7: bits(x, 25, 7),
            },
        }
    }

    // The 12 bits above rs1.
    pub fn i_bits(self) -> u64
        ensures { result ≡ i_bits self.fields }
    {
        put(self.fields.rs2, self.fields.funct7, 5)
    }

    pub fn i_immediate(self) -> u64
        ensures { result ≡ i_immediate self.fields }
    {
        sign_extend(self.i_bits(), 12)
    }

    pub fn s_immediate(self) -> u64
        ensures { result ≡ s_immediate self.fields }
    {
        sign_extend(put(self.fields.rd, self.fields.funct7, 5), 12)
    }

    pub fn b_immediate(self) -> u64
        ensures { result ≡ b_immediate self.fields }
    {
        let f = self.fields;
        let low = put(put(0, bits(f.rd, 1, 4), 1), bits(f.funct7, 0, 6), 5);
        let all = put(put(low, bits(f.rd, 0, 1), 11), bits(f.funct7, 6, 1), 12);
        sign_extend(all, 13)
    }

    pub fn u_immediate(self) -> u64
        ensures { result ≡ u_immediate self.fields }
    {
        let f = self.fields;
        let low = put(put(0, f.funct3, 12), f.rs1, 15);
        sign_extend(put(put(low, f.rs2, 20), f.funct7, 25), 32)
    }

    pub fn j_immediate(self) -> u64
        ensures { result ≡ j_immediate self.fields }
    {
        let f = self.fields;
        let low = put(put(0, bits(f.rs2, 1, 4), 1), bits(f.funct7, 0, 6), 5);
        let middle = put(put(low, bits(f.rs2, 0, 1), 11), f.funct3, 12);
        sign_extend(put(put(middle, f.rs1, 15), bits(f.funct7, 6, 1), 20), 21)
    }
}
