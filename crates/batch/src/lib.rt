// A batch of states, rolled up (document 01, "The batch"); made of states, and taken apart again.
#![tactic(auto)]

pub mod chain;
pub mod closing;
pub mod packing;
pub mod records;
pub mod unpacking;
