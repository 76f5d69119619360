// Varints. Ported from `Reader::varint64`, `Reader::varint32`, `put_varint` and `varint_len` in src/proto.rs of zetasketch-rs at commit
// 9abe68bf87 (Apache-2.0, see NOTICE). Changed: a slice and a cursor by value in the place of `Reader`, a lent output. (No struct holds the slice and
// the cursor: the form of document 01 is "a cursor by value".)
ghost use Rattle.std.specs.Prelude.{◌≡◌, ◌+◌, ◌≤◌, length};
ghost use Rattle.wire.specs.Varints.{VarintPost, Varint32Post, PutPost, varint_bytes};

use crate::read_error::ReadError;

// A place in a slice of bytes. What reads there answers a value and the next place.
#[derive(Clone, Copy)]
pub struct Cursor {
    pub at: usize,
}

// The varint at a cursor, of any length. A byte's low seven bits are payload, and one of 128 or more says that another byte follows. A shift keeps the low 64 bits,
// so the tenth byte gives one bit.
fn long_varint(s: &[u8], c: Cursor) -> Result<(u64, Cursor), ReadError>
    ensures { VarintPost s.now c.at result }
{
    let mut value: u64 = 0;
    for n in 0..10 {
        let at = c.at + n;
        let Some(&b) = s.get(at) else {
            return Err(ReadError::Truncated);
        };
        value |= (u64::from(b) & 0x7f) << (7 * n);
        if b < 128 {
            return Ok((value, Cursor { at: at + 1 }));
        }
    }
    Err(ReadError::VarintTooLong)
}

// The varint at a cursor. Most have one byte, so that path stands in front.
pub fn read_varint(s: &[u8], c: Cursor) -> Result<(u64, Cursor), ReadError>
    ensures { VarintPost s.now c.at result }
{
    match s.get(c.at) {
        Some(&b) if b < 128 => Ok((u64::from(b), Cursor { at: c.at + 1 })),
        _ => long_varint(s, c),
    }
}

// A 32-bit field: the low 32 bits of its varint.
pub(crate) fn read_varint32(s: &[u8], c: Cursor) -> Result<(u32, Cursor), ReadError>
    ensures { Varint32Post s.now c.at result }
{
    let (v, next) = read_varint(s, c)?;
    Ok(((v % 0x1_0000_0000) as u32, next))
}

// Writes a value at `start`, and answers the position past it. (The loop here and in `varint_len_64` goes by a value, not by a count.)
pub fn put_varint(out: &mut [u8], start: usize, value: u64) -> usize
    requires { start + length (varint_bytes 10 value) ≤ length out.old }
    ensures { PutPost out.old start (varint_bytes 10 value) result out.new }
{
    let mut at = start;
    let mut v = value;
    while 128 <= v {
        out[at] = (v % 128 + 128) as u8;
        v /= 128;
        at += 1;
    }
    out[at] = v as u8;
    at + 1
}

// How many bytes a value takes: 1 to 5. (By comparisons: the loop of `varint_len_64` takes longer.)
pub fn varint_len(v: u32) -> usize
    ensures { result ≡ length (varint_bytes 5 v) }
{
    if v < 0x80 {
        1
    } else if v < 0x4000 {
        2
    } else if v < 0x20_0000 {
        3
    } else if v < 0x1000_0000 {
        4
    } else {
        5
    }
}

// The same of any value: 1 to 10.
pub fn varint_len_64(v: u64) -> usize
    ensures { result ≡ length (varint_bytes 10 v) }
{
    let mut n: usize = 1;
    let mut rest = v;
    while 128 <= rest {
        rest /= 128;
        n += 1;
    }
    n
}
