// What the programs share. `input` reads a stream: lines, words, numbers and byte strings. `output` makes the
// text of an answer in a buffer, and writes it, and `show` has what is printed mostly by `fmt`; `tried` prints so that each write is tried. `text` has the words of a
// line and lists of numbers, and `memory` the memory that programs lend.
#![tactic(auto)]

pub mod input;
pub mod memory;
pub mod output;
pub mod show;
pub mod text;
pub mod tried;
