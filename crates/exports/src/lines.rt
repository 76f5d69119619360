// The state that a line spells.
ghost use Rattle.std.specs.Prelude.{◌≡◌, ◌≤◌, length};
ghost use Rattle.exports.specs.Words.{DecodedPost};
ghost use Rattle.exports.specs.Lines.{trimmed, state_of};

use crate::{base64, hexadecimal};

// The line without the carriage return that may stand at its end.
pub fn trim(line: &[u8]) -> &[u8]
    ensures { result.now ≡ trimmed line.now }
{
    match line {
        [front @ .., b'\r'] => front,
        _ => line,
    }
}

// The bytes that a word spells, put at the front of `out`: hexadecimal where it can be, else base64. The answer is how many there are.
pub fn read_state(word: &[u8], out: &mut [u8]) -> Option<usize>
    requires { length word.now ≤ length out.old }
    ensures { DecodedPost (state_of word.now) out.old result out.new }
{
    match hexadecimal::decode_hex(word, out) {
        Some(n) => Some(n),
        None => base64::decode_base64(word, out),
    }
}
