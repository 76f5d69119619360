// Values, ranks, lists and registers (document 01, modules 3 and 4).
//
// Ported from src/encoding.rs of zetasketch-rs at commit 9abe68bf87 (Apache-2.0, see NOTICE), without hashing and the unvalidated
// decoders. Changed: lent slices and counts in the place of `Vec`, an error with document 01's numbers in the place of one with strings, and a
// contract on every function.
#![tactic(auto)]

pub mod checking;
pub mod decoding;
pub mod indices;
pub mod inserting;
pub mod merging;
pub mod registers;
pub mod sorting;
pub mod values;
