// H-words: the two register fields hold the bits that choose the region above the numbers of the registers.
ghost use Rattle.std.specs.Prelude.{◌≡◌, ◌^◌, ◌<◌};
ghost use Rattle.words.specs.Word.{fits_signed};
ghost use Rattle.instructions.specs.HWords.{explicit_regions, place_in, rs1_field, other_field};
ghost use Rattle.instructions.specs.Encode.{h_word};

use instructions::instruction::EXPLICIT_REGIONS;
use words::{bits, fits_signed, put};

// The choice that means an explicit region; for any other it is their count, which two bits cannot hold. No Option: the definitions
// of both register fields have the count there, so both fields would put it back.
fn choice_of(region: u64) -> u64
    ensures { result ≡ place_in explicit_regions region }
{
    let place = EXPLICIT_REGIONS.iter().position(|&r| r == region);
    place.unwrap_or(EXPLICIT_REGIONS.len()) as u64
}

pub fn h_word_in_range(region: u64, a: u64, b: u64, imm: u64) -> bool
    ensures { result ≡ h_word region a b (fits_signed 12 imm) }
{
    choice_of(region) < 4 && a < 16 && b < 16 && fits_signed(imm, 12)
}

// Of the choice this field has bit 1 and `other_field` bit 0. One function with the bit as a parameter would be no plainer: each call
// would give the bit in place of the field's name, and each is held to its own definition.
pub fn rs1_field(region: u64, register: u64) -> u64
    requires { register < 2 ^ 4 }
    ensures { result ≡ rs1_field region register }
{
    put(register, bits(choice_of(region), 1, 1), 4)
}

// The field of rd, or of rs2 in a store.
pub fn other_field(region: u64, register: u64) -> u64
    requires { register < 2 ^ 4 }
    ensures { result ≡ other_field region register }
{
    put(register, bits(choice_of(region), 0, 1), 4)
}
