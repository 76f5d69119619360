// The wire form of a state: varints, tags, reading and writing (document 01, modules 1 and 2).
//
// Ported from src/proto.rs of zetasketch-rs at commit 9abe68bf87 (Apache-2.0, see NOTICE), without its KLL part. Changed: lent slices and
// a cursor by value in the place of `Reader`, an error enum with document 01's numbers in the place of strings, and a contract on every
// function. `small_list` is new.
#![tactic(auto)]

mod compact;
pub mod encoding;
pub mod fields;
pub mod read_error;
mod small_list;
pub mod state;
pub mod varint;
pub mod view;
