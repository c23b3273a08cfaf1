// What C calls of koubospar_codec. The exports stand apart from it, since a static library can be no crate's base, and from those
// of koubospar: beside the run, decoding would have a second caller, and the compiler would then keep it apart from the
// loop of steps (bench/README.md has what that costs).
#![tactic(auto)]

ghost use Rattle.std.specs.Prelude.{◌≡◌};
ghost use Rattle.instructions.specs.Decode.{decode_word};
ghost use Rattle.compressed.specs.Expand.{expand_half};
ghost use Rattle.koubospar_codec.specs.Flat.{flat_decoded, flat_encoded, encode_flat};

use koubospar_codec::flat::{Flat, FlatDecoded, FlatEncoded};

#[unsafe(no_mangle)]
pub extern "C" fn koubospar_decode(word: u32) -> FlatDecoded
    ensures { result ≡ flat_decoded (decode_word word) }
{
    koubospar_codec::flat::koubospar_decode(word)
}

#[unsafe(no_mangle)]
pub extern "C" fn koubospar_expand(half: u16) -> FlatDecoded
    ensures { result ≡ flat_decoded (expand_half half) }
{
    koubospar_codec::flat::koubospar_expand(half)
}

#[unsafe(no_mangle)]
pub extern "C" fn koubospar_encode(f: Flat) -> FlatEncoded
    ensures { result ≡ flat_encoded (encode_flat f) }
{
    koubospar_codec::flat::koubospar_encode(f)
}
