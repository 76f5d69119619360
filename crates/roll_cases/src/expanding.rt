// The bytes of a line: words with a blank between them, each a byte string in hexadecimal, or one that stands there several times: `00*3` is `000000`.
ghost use Rattle.std.specs.Prelude.{◌≡◌, ◌≤◌, length, take, drop};
ghost use Rattle.console.specs.Input.{hex_of};
ghost use Rattle.roll_cases.specs.Expanding.{times_of, word_bytes, Expands, LinePost};

use console::input::{Pieces, cut, read_bytes, read_number};

// Puts the bytes of a piece n times behind the first `start` bytes of `out`, and answers where they end.
#[tactic(auto, using(crate::proofs::ExpandingLaws::times_none, crate::proofs::ExpandingLaws::onto_end, console::proofs::TextLaws::front))]
fn put_times(piece: &[u8], n: u64, out: &mut [u8], start: usize) -> Option<usize>
    requires { start ≤ length out.old }
    ensures { Expands (take start out.old) (times_of n (hex_of piece.now)) out.old result out.new }
{
    let mut at = start;
    for _ in 0..n {
        at += read_bytes(piece, &mut out[at..])?;
    }
    Some(at)
}

// Puts the bytes of a word behind the first `at` bytes of `out`, and answers where they end. They stand there once where there is no star. (The whole output and
// a place in it: the contract says what stands in front of that place, too.)
#[tactic(auto, using(crate::proofs::ExpandingLaws::word_once, crate::proofs::ExpandingLaws::word_none, crate::proofs::ExpandingLaws::word_times, crate::proofs::ExpandingLaws::none_long))]
fn put_word(word: &[u8], out: &mut [u8], at: usize) -> Option<usize>
    requires { at ≤ length out.old }
    ensures { Expands (take at out.old) (word_bytes word.now) out.old result out.new }
{
    let (piece, number) = cut(word, b'*');
    if piece.len() == word.len() {
        return put_times(piece, 1, out, at);
    }
    put_times(piece, read_number(number)?, out, at)
}

// Puts the bytes of a line at the front of `out`, and answers how many there are.
#[tactic(auto, using(crate::proofs::ExpandingLaws::line_end, crate::proofs::ExpandingLaws::line_turn, crate::proofs::ExpandingLaws::onto_end, console::proofs::TextLaws::front))]
pub(crate) fn expand(line: &[u8], out: &mut [u8]) -> Option<usize>
    ensures { LinePost line.now out.old result out.new }
{
    let mut n: usize = 0;
    for word in Pieces::new(line, b' ') {
        n = put_word(word, out, n)?;
    }
    Some(n)
}
