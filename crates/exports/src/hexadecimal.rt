// Hexadecimal in upper or lower case. The kit's crate `hex` would be one more library to believe. `read_pairs` is shared with the words of cases.
ghost use Rattle.std.specs.Prelude.{◌≡◌, ◌<◌, IfSome};
ghost use Rattle.console.specs.Input.{PairsPost};
ghost use Rattle.exports.specs.Hexadecimal.{any_digit_of};

use console::input;

#[tactic(auto, unfolding(crate::specs::Hexadecimal::any_digit_of))]
fn digit(b: u8) -> Option<u8>
    ensures value { result ≡ any_digit_of b }
    ensures small { IfSome result (λ d. d < 16) }
{
    match b {
        b'A'..=b'F' => Some(b - b'A' + 10),
        _ => input::digit(b),
    }
}

// A byte string in hexadecimal, which is the whole word, put at the front of `out`. The answer is how many bytes there are.
pub fn decode_hex(word: &[u8], out: &mut [u8]) -> Option<usize>
    ensures { PairsPost any_digit_of word.now out.old result out.new }
{
    input::read_pairs(word, digit, out)
}
