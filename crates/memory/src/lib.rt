// Regions, and the three kinds of access to memory: what a fetch, a load and a store are asked, and how they read and write.
// In a step nothing else sees a byte of memory.
#![tactic(auto)]

pub mod access;
pub mod bytes;
pub mod offset;
pub mod region;
pub mod width;
