// The roll-up: header rules, the accumulator, adding and writing (document 01, modules 5 and 6).
//
// Ported from src/hll.rs (validation) and src/accumulator.rs of zetasketch-rs at commit 9abe68bf87 (Apache-2.0, see NOTICE), without the
// fallback sketch, hashing and estimates. Changed: lent slices and counts in the head in the place of `Vec` and scratch swaps, document 01's
// refusals in the place of strings, and a contract on every function.
//
// The way of a state: `fitting` asks question 1, `judging` (with `header`) 2 to 20; `paths` says which path its values take; `taking` goes by the roll-up's form to
// `starting`, `sparse_paths` or `dense_paths`; `adding` is all of it. `incoming` has the numbers of what is taken in, `refusal` what is refused, `memory` what is lent.
#![tactic(auto)]

pub mod accumulator;
pub mod adding;
mod dense_paths;
mod fitting;
pub mod header;
pub mod incoming;
pub mod judging;
pub mod memory;
pub mod paths;
pub mod refusal;
pub mod sparse_paths;
mod starting;
mod taking;
mod writing;
