// Decoding and encoding in C's own terms; koubospar_codec_c exports them.
#![tactic(auto)]

pub mod flat;
