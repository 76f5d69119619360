// The text of a batch: a line of lowercase hexadecimal for each state, in the order of the chain.
ghost use Rattle.std.specs.Prelude.{◌≡◌, ◌+◌, ◌≤◌, length, Ok, Err, MatchResult};
ghost use Rattle.wire.specs.Varints.{PutPost};
ghost use Rattle.batch.specs.Chain.{chain_of};
ghost use Rattle.exports.specs.Text.{line_of};
ghost use Rattle.exports.specs.Unpacking.{batch_text, UnpackedPost};

use batch::chain::{ChainError, Records};
use console::output;

// The chain is broken after so many records; or the text is longer than the slice.
#[derive(Clone, Copy, Debug, PartialEq, Eq)]
pub enum UnpackError {
    Broken { records: usize, error: ChainError },
    TooLong,
}

// Puts the line of a state at `at`, and answers the position past it. (The whole output and a place in it: the contract says what stands at that place of the
// whole.)
fn put_line(text: &mut [u8], at: usize, state: &[u8]) -> usize
    requires { at + length (line_of state.now) ≤ length text.old }
    ensures { PutPost text.old at (line_of state.now) result text.new }
{
    let n = at + output::hex(state, &mut text[at..]);
    text[n] = b'\n';
    n + 1
}

// The length of the text, which is known before any of it is put: so a text that does not fit leaves the slice as it was. Records are counted even where the chain
// breaks.
fn text_len(batch: &[u8], records: &mut usize) -> Result<usize, ChainError>
    requires { records.old ≡ 0 }
    ensures counted { records.new ≡ length (chain_of batch.now).indices }
    ensures measured { MatchResult result (λ n. ((chain_of batch.now).ending ≡ Ok tt) × (n ≡ length (batch_text batch.now))) (λ e. (chain_of batch.now).ending ≡ Err e) }
{
    let mut n: usize = 0;
    for record in Records::new(batch)? {
        n += 2 * record?.state.len() + 1;
        // Not by `enumerate`: the count is told after an error, when the iterator is gone.
        *records += 1;
    }
    Ok(n)
}

// Puts the lines of a batch, whose chain is not broken, at the front, and answers how long they are.
fn put_lines(text: &mut [u8], batch: &[u8]) -> usize
    requires { ((chain_of batch.now).ending ≡ Ok tt) × (length (batch_text batch.now) ≤ length text.old) }
    ensures { PutPost text.old 0 (batch_text batch.now) result text.new }
{
    let mut at: usize = 0;
    for record in Records::new(batch).unwrap() {
        at = put_line(text, at, record.unwrap().state);
    }
    at
}

// Puts the text of a batch at the front of `text`, and answers how long it is. The chain is walked twice: where it is broken, nothing is put.
pub(crate) fn unpack(batch: &[u8], text: &mut [u8]) -> Result<usize, UnpackError>
    ensures { UnpackedPost batch.now text.old result text.new }
{
    let mut records = 0;
    match text_len(batch, &mut records) {
        Ok(n) if text.len() < n => Err(UnpackError::TooLong),
        Ok(_) => Ok(put_lines(text, batch)),
        Err(error) => Err(UnpackError::Broken { records, error }),
    }
}
