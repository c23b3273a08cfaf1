// Question 8 (`rules`), and the words of opcode 5b (`word`).
#![tactic(auto)]

pub mod rules;
pub mod word;
