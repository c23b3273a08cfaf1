// The immediate of each format of half-words. As rows of pieces, read by one loop over a const parameter, these were proved too, but then
// `matrix-mul` took 1.1 instructions a step more, 143.6 in place of 142.5, where plain C takes 143.4.
ghost use Rattle.std.specs.Prelude.{◌≡◌};
ghost use Rattle.compressed.specs.Immediates.{zero_extended, sign_extended, addi4spn, word_offset, double_offset, six_bits, addi16sp, upper, jump_offset, branch_offset, word_from_stack, double_from_stack, word_to_stack, double_to_stack};

use words::{bits, put, sign_extend};

pub fn addi4spn_immediate(h: u64) -> u64
    ensures { result ≡ zero_extended h addi4spn }
{
    let low = put(put(0, bits(h, 6, 1), 2), bits(h, 5, 1), 3);
    put(put(low, bits(h, 11, 2), 4), bits(h, 7, 4), 6)
}

pub fn word_offset(h: u64) -> u64
    ensures { result ≡ zero_extended h word_offset }
{
    put(
        put(put(0, bits(h, 6, 1), 2), bits(h, 10, 3), 3),
        bits(h, 5, 1),
        6,
    )
}

pub fn double_offset(h: u64) -> u64
    ensures { result ≡ zero_extended h double_offset }
{
    put(put(0, bits(h, 10, 3), 3), bits(h, 5, 2), 6)
}

pub fn amount(h: u64) -> u64
    ensures { result ≡ zero_extended h six_bits }
{
    put(bits(h, 2, 5), bits(h, 12, 1), 5)
}

pub fn immediate(h: u64) -> u64
    ensures { result ≡ sign_extended h six_bits }
{
    sign_extend(amount(h), 6)
}

pub fn addi16sp_immediate(h: u64) -> u64
    ensures { result ≡ sign_extended h addi16sp }
{
    let low = put(
        put(put(0, bits(h, 6, 1), 4), bits(h, 2, 1), 5),
        bits(h, 5, 1),
        6,
    );
    sign_extend(put(put(low, bits(h, 3, 2), 7), bits(h, 12, 1), 9), 10)
}

pub fn lui_immediate(h: u64) -> u64
    ensures { result ≡ sign_extended h upper }
{
    sign_extend(put(put(0, bits(h, 2, 5), 12), bits(h, 12, 1), 17), 18)
}

pub fn jump_offset(h: u64) -> u64
    ensures { result ≡ sign_extended h jump_offset }
{
    let low = put(
        put(put(0, bits(h, 3, 3), 1), bits(h, 11, 1), 4),
        bits(h, 2, 1),
        5,
    );
    let middle = put(put(low, bits(h, 7, 1), 6), bits(h, 6, 1), 7);
    let high = put(put(middle, bits(h, 9, 2), 8), bits(h, 8, 1), 10);
    sign_extend(put(high, bits(h, 12, 1), 11), 12)
}

pub fn branch_offset(h: u64) -> u64
    ensures { result ≡ sign_extended h branch_offset }
{
    let low = put(
        put(put(0, bits(h, 3, 2), 1), bits(h, 10, 2), 3),
        bits(h, 2, 1),
        5,
    );
    sign_extend(put(put(low, bits(h, 5, 2), 6), bits(h, 12, 1), 8), 9)
}

pub fn word_from_stack(h: u64) -> u64
    ensures { result ≡ zero_extended h word_from_stack }
{
    put(
        put(put(0, bits(h, 4, 3), 2), bits(h, 12, 1), 5),
        bits(h, 2, 2),
        6,
    )
}

pub fn double_from_stack(h: u64) -> u64
    ensures { result ≡ zero_extended h double_from_stack }
{
    put(
        put(put(0, bits(h, 5, 2), 3), bits(h, 12, 1), 5),
        bits(h, 2, 3),
        6,
    )
}

pub fn word_to_stack(h: u64) -> u64
    ensures { result ≡ zero_extended h word_to_stack }
{
    put(put(0, bits(h, 9, 4), 2), bits(h, 7, 2), 6)
}

pub fn double_to_stack(h: u64) -> u64
    ensures { result ≡ zero_extended h double_to_stack }
{
    put(put(0, bits(h, 10, 3), 3), bits(h, 7, 3), 6)
}
