// The offset of an h-word: the value of rs1 and the signed immediate, as a whole number that does not wrap.
ghost use Rattle.std.specs.Prelude.{◌≡◌, true};
ghost use Rattle.words.specs.Word.{fits_signed};
ghost use Rattle.model.specs.Machine.{sum};

#[derive(Clone, Copy)]
pub struct Offset {
    pub operand: u64,
    pub imm: u64,
    pub ghost short: { fits_signed 12 imm ≡ true },
}

impl Offset {
    // It modulo 2^64.
    pub fn sum(self) -> u64
        ensures { result ≡ sum self.operand self.imm }
    {
        self.operand.wrapping_add(self.imm)
    }
}
