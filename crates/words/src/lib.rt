// Bits of 64-bit words. The codec takes words apart and puts them together by these functions. A number and its width stay two
// parameters: the number is a plain u64 before and after, so a struct of both would be made at each call only to be taken apart here;
// and a width as a const parameter would have its bounds in each `requires` as before.
#![tactic(auto)]

ghost use Rattle.std.specs.Prelude.{◌≡◌, ◌+◌, ◌-◌, ◌*◌, ◌^◌, ◌<◌, ◌≤◌, not, int_lt};
ghost use Rattle.std.specs.Int.Signed.{non_neg, shr_z};
ghost use Rattle.words.specs.Word.{field, signed, word, sext, fits_signed};

pub mod integer;

// The `width` bits of `x` from bit `at`.
pub fn bits(x: u64, at: u64, width: u64) -> u64
    requires { (at < 64) × (width < 64) }
    ensures { result ≡ field x at width }
{
    (x >> at) & ((1u64 << width) - 1)
}

// `high` put above the `at` bits of `low`.
#[tactic(auto, using(crate::proofs::Shifts::or_above))]
pub fn put(low: u64, high: u64, at: u64) -> u64
    requires { (at < 64) × (low < 2 ^ at) × (high * 2 ^ at < 2 ^ 64) }
    ensures { result ≡ high * 2 ^ at + low }
{
    low | (high << at)
}

// The `width` bits `x` as 64 bits of the same signed number: flipping the sign bit and taking it off again copies it upwards.
#[tactic(auto, using(crate::proofs::Extend::flip_law))]
pub fn sign_extend(x: u64, width: u64) -> u64
    requires { (0 < width) × (width < 64) × (x < 2 ^ width) }
    ensures { result ≡ sext width x }
{
    let sign = 1u64 << (width - 1);
    (x ^ sign).wrapping_sub(sign)
}

// Can a signed field of `width` bits express `x`?
pub fn fits_signed(x: u64, width: u64) -> bool
    requires { (0 < width) × (width < 64) }
    ensures { result ≡ fits_signed width x }
{
    sign_extend(bits(x, 0, width), width) == x
}

// Is `a` less than `b`, both read as signed numbers?
pub fn signed_less(a: u64, b: u64) -> bool
    ensures { result ≡ int_lt (signed 64 a) (signed 64 b) }
{
    a.cast_signed() < b.cast_signed()
}

// The largest number of `width` bits.
#[tactic(auto, using(crate::proofs::Signed::all_ones))]
pub fn ones(width: u64) -> u64
    requires { (0 < width) × (width ≤ 64) }
    ensures { result ≡ 2 ^ width - 1 }
{
    u64::MAX >> (64 - width)
}

// Do the `width` bits `x` stand for a number below 0?
pub fn is_negative(x: u64, width: u64) -> bool
    requires { (0 < width) × (width ≤ 64) × (x < 2 ^ width) }
    ensures { result ≡ not (non_neg (signed width x)) }
{
    (ones(width) >> 1) < x
}

// The `width` bits `x`, read as a signed number, shifted right by `n`. Of a negative number the complement is shifted.
pub fn shift_right_signed(x: u64, width: u64, n: u64) -> u64
    requires { (0 < width) × (width ≤ 64) × (n < width) × (x < 2 ^ width) }
    ensures { result ≡ word width (shr_z (signed width x) (2 ^ n)) }
{
    if is_negative(x, width) {
        let top = ones(width);
        top - ((top - x) >> n)
    } else {
        x >> n
    }
}
