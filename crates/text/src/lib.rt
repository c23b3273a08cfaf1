// Bytes as text: scanning, lines, fields, numbers, printing. Knows nothing of sheets or machines.
#![tactic(auto)]

pub mod field;
pub mod number;
pub mod row;
pub mod scan;
pub mod writer;
