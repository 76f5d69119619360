// States as text, as BigQuery exports them: a line each, in hexadecimal or base64. `base64` and `hexadecimal` read a word, `lines` a line, `packing` makes a
// batch of all lines, and `unpacking` the lines of a batch. `replies` has what the programs `pack` and `unpack` say, and
// `programs` the programs themselves.
#![tactic(auto)]

pub mod base64;
pub mod hexadecimal;
pub mod lines;
pub mod packing;
pub mod programs;
mod replies;
pub mod unpacking;
