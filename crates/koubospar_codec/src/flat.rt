// An instruction as numbers alone, since an enum cannot cross to C: laid out, read back, decoded and encoded.
ghost use Rattle.std.specs.Prelude.{◌≡◌};
ghost use Rattle.std.specs.Result.{result_ok};
ghost use Rattle.instructions.specs.Decode.{decode_word};
ghost use Rattle.compressed.specs.Expand.{expand_half};
ghost use Rattle.koubospar_codec.specs.Flat.{layout, flatten, unflatten, stands_for, flat_decoded, flat_encoded, encode_flat};

use decode::decode;
use encode::encode;
use expand::expand;
use instructions::code::Coded;
use instructions::instruction::Instruction;

// A group from 1 to 17, in the order of the enum of instructions, a kind by its code, and every field that some group
// has. `imm` is an immediate, an offset in bytes or a shift's amount, `region` the explicit region of an h-word. Fields
// that a group lacks are 0.
#[repr(C)]
#[derive(Clone, Copy, Default, PartialEq)]
pub struct Flat {
    pub group: u64,
    pub kind: u64,
    pub rd: u64,
    pub rs1: u64,
    pub rs2: u64,
    pub imm: u64,
    pub fm: u64,
    pub pred: u64,
    pub succ: u64,
    pub region: u64,
}

// 0 and the instruction, or 13 and zeros: C has no Option.
#[repr(C)]
#[derive(Clone, Copy)]
pub struct FlatDecoded {
    pub number: u64,
    pub instruction: Flat,
}

// 0 and the word, or 5 and 0: C has no Option.
#[repr(C)]
#[derive(Clone, Copy)]
pub struct FlatEncoded {
    pub number: u64,
    pub word: u32,
}

// What most groups have. The numbers of group and kind are C's. The parameters are fields of the record that they make, so a struct of
// them would be that record; by the fields' names each arm below would be three to seven lines, the function past forty.
fn lay_out(group: u64, kind: u64, rd: u64, rs1: u64, rs2: u64, imm: u64) -> Flat
    ensures { result ≡ layout group kind rd rs1 rs2 imm }
{
    Flat {
        group,
        kind,
        rd,
        rs1,
        rs2,
        imm,
        ..Flat::default()
    }
}

impl From<Instruction> for Flat {
    ghost from_gives = { λ i f. f ≡ flatten i };

    fn from(i: Instruction) -> Flat {
        match i {
            Instruction::Upper(k, rd, imm) => lay_out(1, k.code(), rd, 0, 0, imm),
            Instruction::Jal(rd, offset) => lay_out(2, 0, rd, 0, 0, offset),
            Instruction::Jalr(rd, rs1, imm) => lay_out(3, 0, rd, rs1, 0, imm),
            Instruction::Branch(k, rs1, rs2, offset) => lay_out(4, k.code(), 0, rs1, rs2, offset),
            Instruction::Load(k, rd, rs1, imm) => lay_out(5, k.code(), rd, rs1, 0, imm),
            Instruction::Store(k, rs1, rs2, imm) => lay_out(6, k.code(), 0, rs1, rs2, imm),
            Instruction::Immediate(k, rd, rs1, imm) => lay_out(7, k.code(), rd, rs1, 0, imm),
            Instruction::Shift(k, rd, rs1, amount) => lay_out(8, k.code(), rd, rs1, 0, amount),
            Instruction::Addiw(rd, rs1, imm) => lay_out(9, 0, rd, rs1, 0, imm),
            Instruction::ShiftWord(k, rd, rs1, n) => lay_out(10, k.code(), rd, rs1, 0, n),
            Instruction::Register(k, rd, rs1, rs2) => lay_out(11, k.code(), rd, rs1, rs2, 0),
            Instruction::RegisterWord(k, rd, rs1, rs2) => lay_out(12, k.code(), rd, rs1, rs2, 0),
            Instruction::Fence(fm, pred, succ, rs1, rd) => Flat {
                fm,
                pred,
                succ,
                ..lay_out(13, 0, rd, rs1, 0, 0)
            },
            Instruction::System(k) => lay_out(14, k.code(), 0, 0, 0, 0),
            Instruction::HLoad(k, region, rd, rs1, imm) => Flat {
                region,
                ..lay_out(15, k.code(), rd, rs1, 0, imm)
            },
            Instruction::HStore(k, region, rs1, rs2, imm) => Flat {
                region,
                ..lay_out(16, k.code(), 0, rs1, rs2, imm)
            },
            Instruction::Hfi(k, rd, rs1, rs2) => lay_out(17, k.code(), rd, rs1, rs2, 0),
        }
    }
}

impl Flat {
    // The instruction that is read from the record; fields that its group lacks are not asked about, so many records are read as
    // one instruction, and this is not the way back: TryFrom is, below.
    pub fn unflatten(self) -> Option<Instruction>
        ensures { result ≡ unflatten self }
    {
        match self.group {
            1 => listing::upper(self.kind, self.rd, self.imm),
            2 => Some(Instruction::Jal(self.rd, self.imm)),
            3 => Some(Instruction::Jalr(self.rd, self.rs1, self.imm)),
            4 => listing::branch(self.kind, self.rs1, self.rs2, self.imm),
            5 => listing::load(self.kind, self.rd, self.rs1, self.imm),
            6 => listing::store(self.kind, self.rs1, self.rs2, self.imm),
            7 => listing::immediate(self.kind, self.rd, self.rs1, self.imm),
            8 => listing::shift(self.kind, self.rd, self.rs1, self.imm),
            9 => Some(Instruction::Addiw(self.rd, self.rs1, self.imm)),
            10 => listing::shift_word(self.kind, self.rd, self.rs1, self.imm),
            11 => listing::register(self.kind, self.rd, self.rs1, self.rs2),
            12 => listing::register_word(self.kind, self.rd, self.rs1, self.rs2),
            13 => Some(Instruction::Fence(self.fm, self.pred, self.succ, self.rs1, self.rd)),
            14 => listing::system(self.kind),
            15 => listing::h_load(self.kind, self.region, self.rd, self.rs1, self.imm),
            16 => listing::h_store(self.kind, self.region, self.rs1, self.rs2, self.imm),
            17 => listing::hfi(self.kind, self.rd, self.rs1, self.rs2),
            _ => None,
        }
    }
}

// Of a record that stands for no instruction: its numbers name none, or a field that its group lacks is not 0.
#[derive(Clone, Copy, Debug, PartialEq, Eq)]
pub struct NoInstruction;

// The instruction that a record stands for: the one that is read from it, if the record is that one laid out.
impl TryFrom<Flat> for Instruction {
    type Error = NoInstruction;

    ghost try_from_gives = { λ f r. result_ok r ≡ stands_for f };

    fn try_from(f: Flat) -> Result<Instruction, NoInstruction> {
        let i = f.unflatten().ok_or(NoInstruction)?;
        (Flat::from(i) == f).then_some(i).ok_or(NoInstruction)
    }
}

impl From<Option<Instruction>> for FlatDecoded {
    ghost from_gives = { λ d f. f ≡ flat_decoded d };

    fn from(d: Option<Instruction>) -> FlatDecoded {
        match d {
            Some(i) => FlatDecoded {
                number: 0,
                instruction: Flat::from(i),
            },
            None => FlatDecoded {
                number: 13,
                instruction: Flat::default(),
            },
        }
    }
}

impl From<Option<u32>> for FlatEncoded {
    ghost from_gives = { λ e f. f ≡ flat_encoded e };

    fn from(e: Option<u32>) -> FlatEncoded {
        match e {
            Some(word) => FlatEncoded { number: 0, word },
            None => FlatEncoded { number: 5, word: 0 },
        }
    }
}

// The instruction of any word.
pub fn koubospar_decode(word: u32) -> FlatDecoded
    ensures { result ≡ flat_decoded (decode_word word) }
{
    decode(word).into()
}

// The instruction that any half-word stands for.
pub fn koubospar_expand(half: u16) -> FlatDecoded
    ensures { result ≡ flat_decoded (expand_half half) }
{
    expand(half).into()
}

// The word of any record: one that stands for no instruction is refused like a field out of range.
pub fn koubospar_encode(f: Flat) -> FlatEncoded
    ensures { result ≡ flat_encoded (encode_flat f) }
{
    Instruction::try_from(f).ok().and_then(encode).into()
}
