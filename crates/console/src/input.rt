// Reading a stream into a buffer, then lines, words, numbers and byte strings.
ghost use Rattle.std.specs.Prelude.{◌≡◌, ◌<◌, ◌≤◌, ◌+◌, ℕ, Option, length, take, drop, MatchOption, IfSome, ⊤};
ghost use Rattle.std.specs.Iterator.{at_most};
ghost use Rattle.console.specs.Input.{reading_of, ReadPost, CasesPost, up_to, PieceOf, digit_of, decimal_of, below64, Digits, Gives, PairsPost};

use crate::output::complain;
use std::io;
use std::io::{Print, Read};
use std::ops::ControlFlow;

// Why a stream is not all there: a read failed; or the buffer is full, and there may be more.
#[derive(Clone, Copy, Debug, PartialEq, Eq)]
pub enum StreamError {
    Failed,
    Full,
}

// A stream that was read: how many bytes the whole of it has, or why it is not all there. And the read that ended it: how many bytes had come before it, and
// what it answered.
#[derive(Clone, Copy)]
pub struct Arrived {
    pub stream: Result<usize, StreamError>,
    pub before: usize,
    pub got: io::Result<usize>,
}

// n bytes of a buffer of `len` have come, and one more read, into the rest of it, has answered `got`. So many bytes have come now, and more may; or reading is
// done. A failed read is told apart from the end, and a buffer that is full from a stream that is all there.
#[tactic(auto, unfolding(crate::specs::Input::reading_of))]
pub fn after_read(
    n: usize,
    got: io::Result<usize>,
    len: usize,
) -> ControlFlow<Result<usize, StreamError>, usize>
    ensures { result ≡ reading_of n got len }
{
    match got {
        Err(_) => ControlFlow::Break(Err(StreamError::Failed)),
        Ok(k) if len.saturating_sub(n) <= k => ControlFlow::Break(Err(StreamError::Full)),
        Ok(0) => ControlFlow::Break(Ok(n)),
        Ok(k) => ControlFlow::Continue(n + k),
    }
}

// Reads to the end, at most 16,384 bytes at once, so that a longer file goes round the loop as a pipe does. What a read puts into the buffer, and that the
// answer that is handed on is a read's, no contract reaches: so little else stands here.
pub fn read_all(reader: &mut impl Read, buf: &mut [u8]) -> Arrived
    ensures { ReadPost buf.old result buf.new }
{
    let mut n: usize = 0;
    loop {
        let end = n + (buf.len() - n).min(16384);
        let got = reader.read(&mut buf[n..end]);
        match after_read(n, got, buf.len()) {
            ControlFlow::Continue(m) => n = m,
            ControlFlow::Break(stream) => {
                return Arrived {
                    stream,
                    before: n,
                    got,
                };
            }
        }
    }
}

// The cases that a program replays: how many bytes of standard input. Where it cannot be read to its end there are none, and the program says so.
pub fn read_cases(
    stdin: &mut impl Read,
    stderr: &impl Print,
    program: &[u8],
    buf: &mut [u8],
) -> usize
    ensures { CasesPost buf.old result buf.new }
{
    match read_all(stdin, buf).stream {
        Ok(n) => n,
        Err(_) => {
            complain(
                stderr,
                program,
                b": standard input cannot be read, or is too long\n",
            );
            0
        }
    }
}

// The bytes before the first b, or all of them, and those behind it.
pub fn cut(s: &[u8], b: u8) -> (&[u8], &[u8])
    ensures first { result.0.now ≡ take (up_to b s.now) s.now }
    ensures rest { result.1.now ≡ drop (up_to b s.now + 1) s.now }
{
    // By cases: with `min` in the place of them an empty line takes up to twice as long.
    let (n, next) = match s.iter().position(|&x| x == b) {
        Some(i) => (i, i + 1),
        None => (s.len(), s.len()),
    };
    (&s[..n], &s[next..])
}

// The pieces of a text, each up to the next `end`. Behind the last `end` there is none, unless bytes follow.
#[derive(Clone, Copy)]
pub struct Pieces<'a> {
    rest: &'a [u8],
    end: u8,
}

impl<'a> Pieces<'a> {
    pub fn new(text: &'a [u8], end: u8) -> Pieces<'a>
        ensures { (result.rest.now ≡ text.now) × (result.end ≡ end) }
    {
        Pieces { rest: text, end }
    }
}

impl<'a> Iterator for Pieces<'a> {
    type Item = &'a [u8];

    ghost can_next = { λ _. ⊤ };

    ghost next_gives = { λ s r t. (t.end ≡ s.end) × MatchOption r ((length s.rest.now ≡ 0) × (t ≡ s)) (λ x. PieceOf s.end s.rest.now x.now t.rest.now) };

    ghost remaining = { λ s. at_most (length s.rest.now) };

    fn next(&mut self) -> Option<&'a [u8]> {
        if self.rest.is_empty() {
            return None;
        }
        let (piece, rest) = cut(self.rest, self.end);
        self.rest = rest;
        Some(piece)
    }
}

// The value of a hexadecimal digit in lower case.
#[tactic(auto, unfolding(crate::specs::Input::digit_of))]
pub fn digit(b: u8) -> Option<u8>
    ensures value { result ≡ digit_of b }
    ensures small { IfSome result (λ d. d < 16) }
{
    match b {
        b'0'..=b'9' => Some(b - b'0'),
        b'a'..=b'f' => Some(b - b'a' + 10),
        _ => None,
    }
}

// A decimal number below 2^64, which is the whole word. Not `parse`, which takes a `+` in front and wants a `str`.
pub fn read_number(word: &[u8]) -> Option<u64>
    ensures { result ≡ below64 (decimal_of word.now) }
{
    if word.is_empty() {
        return None;
    }
    let mut v: u64 = 0;
    for &b in word {
        if !b.is_ascii_digit() {
            return None;
        }
        v = v.checked_mul(10)?.checked_add(u64::from(b - b'0'))?;
    }
    Some(v)
}

// A byte string of two digits to a byte, which is the whole word, put at the front of `out`. The answer is how many bytes there are.
pub fn read_pairs<F: Fn(u8) -> Option<u8> + Drop>(
    word: &[u8],
    digit: F,
    out: &mut [u8],
) -> Option<usize>
    requires callable { F.IsAlwaysCallable digit }
    requires small { Digits (F.post digit) }
    ensures { (value : ℕ → Option ℕ) → Gives (F.post digit) value → PairsPost value word.now out.old result out.new }
{
    let n = word.len() / 2;
    if out.len() < n || word.len() % 2 == 1 {
        return None;
    }
    // By the place, and not over `out.iter_mut()` beside the pairs: behind an adapter no contract says what it leaves.
    for (i, pair) in word.chunks_exact(2).enumerate() {
        let high = digit(pair[0])?;
        let low = digit(pair[1])?;
        out[i] = high * 16 + low;
    }
    Some(n)
}

// A byte string in hexadecimal.
pub fn read_bytes(word: &[u8], out: &mut [u8]) -> Option<usize>
    ensures post { PairsPost digit_of word.now out.old result out.new }
    ensures inside { IfSome result (λ n. n ≤ length out.new) }
{
    read_pairs(word, digit, out)
}
