// The calls on a lent machine and on lent slots, and the run sheet, in C's own terms; koubospar_c exports them. (Decoding and
// encoding are in koubospar_codec.) No function has a condition that a caller must meet.
#![tactic(auto)]

pub mod lent;
pub mod probe;
pub mod scheduled;
pub mod sheet_call;
pub mod single;
