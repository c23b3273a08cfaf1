// Integer multiplication and division, the specification's chapter "M". Signed high halves are had from the unsigned one, signed
// quotients and remainders from those of the magnitudes. i64's own wrapping_div, wrapping_rem and `>>` (for the root's `shift_right_signed`) are of 64 bits
// alone: word forms share the facts of the 64-bit ones, shown over the width (document 02, Job 2), so each division here serves 64 bits and 32 by one
// law over the width. Of i64 and i32 it would be two functions, with a law each from std's definition to this one.
// A number and its width stay two parameters, with `a < 2 ^ width` at each function: a struct of both, which would carry that, would be made of
// plain registers at each of the callers' six calls, to be taken apart here at once; and with a const parameter in place of the width the fact would stay.
ghost use Rattle.std.specs.Prelude.{◌≡◌, ◌^◌, ◌<◌, ◌≤◌, pos, ◌*ℤ◌, neg_ℤ, if◌then◌else◌, unsigned_abs};
ghost use Rattle.std.specs.Int.Signed.{non_neg};
ghost use Rattle.words.specs.Word.{signed, word};
ghost use Rattle.words.specs.Integer.{low_half, high_half, quotient, remainder as remainder_of};

use crate::{is_negative, ones};

// The low half of a product, the same for signed and unsigned operands.
#[tactic(auto, using(crate::proofs::Products::low_signed))]
pub fn multiply(a: u64, b: u64) -> u64
    ensures { result ≡ low_half 64 (signed 64 a *ℤ signed 64 b) }
{
    a.wrapping_mul(b)
}

// The high half, both unsigned.
#[tactic(auto, using(crate::proofs::Products::high_unsigned))]
pub fn multiply_high(a: u64, b: u64) -> u64
    ensures { result ≡ high_half 64 (pos a *ℤ pos b) }
{
    ((a as u128 * b as u128) >> 64) as u64
}

// A number with its sign bit set counts 2^64 less as signed, so the high half of its product with y is y less.
fn excess(x: u64, y: u64) -> u64
    ensures { result ≡ (if non_neg (signed 64 x) then 0 else y) }
{
    if is_negative(x, 64) { y } else { 0 }
}

// The high half, a signed and b unsigned.
#[tactic(auto, using(crate::proofs::Products::high_less))]
pub fn multiply_high_mixed(a: u64, b: u64) -> u64
    ensures { result ≡ high_half 64 (signed 64 a *ℤ pos b) }
{
    multiply_high(a, b).wrapping_sub(excess(a, b))
}

// The high half, both signed.
pub fn multiply_high_signed(a: u64, b: u64) -> u64
    ensures { result ≡ high_half 64 (signed 64 a *ℤ signed 64 b) }
{
    multiply_high_mixed(a, b).wrapping_sub(excess(b, a))
}

// The `width` bits of m, or of -m.
fn with_sign(negative: bool, m: u64, width: u64) -> u64
    requires { (0 < width) × (width ≤ 64) × (m < 2 ^ width) }
    ensures { result ≡ word width (if negative then neg_ℤ (pos m) else pos m) }
{
    if negative && m != 0 {
        ones(width) - m + 1
    } else {
        m
    }
}

// How far the number that the `width` bits `x` stand for is from 0.
fn magnitude(x: u64, width: u64) -> u64
    requires { (0 < width) × (width ≤ 64) × (x < 2 ^ width) }
    ensures { result ≡ unsigned_abs (signed width x) }
{
    with_sign(is_negative(x, width), x, width)
}

// The quotient, unsigned.
#[tactic(auto, using(crate::proofs::Quotients::quotient_checked))]
pub fn divide(a: u64, b: u64, width: u64) -> u64
    requires { (0 < width) × (width ≤ 64) × (a < 2 ^ width) }
    ensures { result ≡ quotient width (pos a) (pos b) }
{
    a.checked_div(b).unwrap_or(ones(width))
}

// The remainder, unsigned.
#[tactic(auto, using(crate::proofs::Quotients::remainder_checked))]
pub fn remainder(a: u64, b: u64) -> u64
    ensures { result ≡ remainder_of 64 (pos a) (pos b) }
{
    a.checked_rem(b).unwrap_or(a)
}

// The quotient, signed: that of the magnitudes, negative where the signs differ.
pub fn divide_signed(a: u64, b: u64, width: u64) -> u64
    requires { (0 < width) × (width ≤ 64) × (a < 2 ^ width) × (b < 2 ^ width) }
    ensures { result ≡ quotient width (signed width a) (signed width b) }
{
    let top = ones(width);
    if b == 0 {
        return top;
    }
    let negative = is_negative(a, width) ^ is_negative(b, width);
    with_sign(negative, magnitude(a, width) / magnitude(b, width), width)
}

// The remainder, signed: that of the magnitudes, with the dividend's sign.
pub fn remainder_signed(a: u64, b: u64, width: u64) -> u64
    requires { (0 < width) × (width ≤ 64) × (a < 2 ^ width) × (b < 2 ^ width) }
    ensures { result ≡ remainder_of width (signed width a) (signed width b) }
{
    with_sign(
        is_negative(a, width),
        remainder(magnitude(a, width), magnitude(b, width)),
        width,
    )
}
