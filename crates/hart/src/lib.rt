// A hart (RISC-V's hardware thread): the machine record in code, changed where it stands, so that no step copies it. What is read
// from it and changed in it, and whether it is well formed.
#![tactic(auto)]

pub mod machine;
pub mod regions;
pub mod state;
pub mod well_formed;
