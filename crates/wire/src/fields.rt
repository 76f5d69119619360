// Tags, the bytes of a field, and skipping. Ported from `Reader::tag`, `take`, `length_delimited` and `skip` in src/proto.rs of
// zetasketch-rs at commit 9abe68bf87 (Apache-2.0, see NOTICE). Changed: a slice and a cursor by value, and the place of a field's bytes in
// the place of the bytes.
ghost use Rattle.std.specs.Prelude.{◌≤◌, length};
ghost use Rattle.wire.specs.Fields.{TagPost, TakePost, DelimitedPost, SkipPost};

use crate::read_error::ReadError;
use crate::varint::{Cursor, read_varint};

// Wire types. (Numbers and no enum: they are patterns over `tag % 8`, in the one match that there is of them.)
const VARINT: u32 = 0;

const I64: u32 = 1;

const LEN: u32 = 2;

const I32: u32 = 5;

// Where the bytes of a field stand.
#[derive(Clone, Copy, Default)]
pub struct Part {
    pub start: usize,
    pub len: usize,
}

// A tag is below 2^32, with a field number above 0.
pub fn read_tag(s: &[u8], c: Cursor) -> Result<(u32, Cursor), ReadError>
    ensures { TagPost s.now c.at result }
{
    let (v, next) = read_varint(s, c)?;
    if v < 8 || 0x1_0000_0000 <= v {
        return Err(ReadError::InvalidTag);
    }
    Ok((v as u32, next))
}

// The next n bytes. The length is compared with the bytes left, so that no sum can overflow.
pub(crate) fn take(s: &[u8], c: Cursor, n: u64) -> Result<(Part, Cursor), ReadError>
    requires { c.at ≤ length s.now }
    ensures { TakePost s.now c.at n result }
{
    let start = c.at;
    if ((s.len() - start) as u64) < n {
        return Err(ReadError::Truncated);
    }
    let len = n as usize;
    Ok((Part { start, len }, Cursor { at: start + len }))
}

// The bytes of a field of wire type LEN, behind their length.
pub fn length_delimited(s: &[u8], c: Cursor) -> Result<(Part, Cursor), ReadError>
    ensures { DelimitedPost s.now c.at result }
{
    let (n, next) = read_varint(s, c)?;
    take(s, next, n)
}

// Past a field's value. The wire type is the low three bits of the tag.
pub fn skip(s: &[u8], tag: u32, c: Cursor) -> Result<Cursor, ReadError>
    requires { c.at ≤ length s.now }
    ensures { SkipPost s.now tag c.at result }
{
    let next = match tag % 8 {
        VARINT => read_varint(s, c)?.1,
        I64 => take(s, c, 8)?.1,
        LEN => length_delimited(s, c)?.1,
        I32 => take(s, c, 4)?.1,
        _ => return Err(ReadError::InvalidWireType),
    };
    Ok(next)
}
