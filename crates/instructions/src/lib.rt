// The instructions of RV64I and RV64M with HFI: their types, their codes, and what decoding and encoding are (specs/).
#![tactic(auto)]

pub mod code;
pub mod fields;
pub mod hfi_table;
pub mod instruction;
pub mod kind;
pub mod opcode;
