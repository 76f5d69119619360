// Reading the operands of a case: words between blanks, decimal numbers, lists of them.
ghost use Rattle.std.specs.Prelude.{◌≡◌, ◌≤◌, length, unwrap_or, IfSome};
ghost use Rattle.console.specs.Input.{decimal_of, below64};
ghost use Rattle.console.specs.Text.{word_of, below32, values_in, list_in, ListedPost};

use crate::input::{Pieces, cut, read_number};

// The word that has k others before it: no bytes where the line has no such word.
pub fn word(line: &[u8], k: usize) -> &[u8]
    ensures { result.now ≡ word_of k line.now }
{
    let mut rest = line;
    for _ in 0..k {
        rest = cut(rest, b' ').1;
    }
    cut(rest, b' ').0
}

// A decimal number of 32 bits, which is the whole word.
pub fn read_value(word: &[u8]) -> Option<u32>
    ensures { result ≡ below32 (decimal_of word.now) }
{
    u32::try_from(read_number(word)?).ok()
}

// A number of 32 bits: 0 where the word is none, as for the head that a case of `rollup` has. `read_value` tells them apart.
pub fn precision(word: &[u8]) -> u32
    ensures { result ≡ unwrap_or (below32 (decimal_of word.now)) 0 }
{
    read_value(word).unwrap_or(0)
}

// A number of 64 bits: 0 where the word is none. `read_number` tells them apart, as above.
pub fn number(word: &[u8]) -> u64
    ensures { result ≡ unwrap_or (below64 (decimal_of word.now)) 0 }
{
    read_number(word).unwrap_or(0)
}

// Decimal numbers with commas between them, put at the front of `out`.
fn read_values(word: &[u8], out: &mut [u32]) -> Option<usize>
    ensures { ListedPost (values_in (length out.old) word.now) word.now out.old result out.new }
{
    // Not by `enumerate`: the count is the answer, too.
    let mut n: usize = 0;
    for piece in Pieces::new(word, b',') {
        if out.len() <= n {
            return None;
        }
        out[n] = read_value(piece)?;
        n += 1;
    }
    Some(n)
}

// A list: `.` is the empty one. The answer is how many values there are.
pub fn read_list(word: &[u8], out: &mut [u32]) -> Option<usize>
    ensures post { ListedPost (list_in (length out.old) word.now) word.now out.old result out.new }
    ensures inside { IfSome result (λ n. n ≤ length out.new) }
{
    match word {
        [] => None,
        [b'.', ..] => Some(0),
        _ => read_values(word, out),
    }
}
