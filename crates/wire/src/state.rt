// Reading a state. Ported from `parse`, `parse_general` and `parse_hll` of `StateView` in src/proto.rs of zetasketch-rs at commit
// 9abe68bf87 (Apache-2.0, see NOTICE). Changed: the fields are a struct by value with the positions of the two data fields, and a turn of
// each loop is a function. The loops are `while`: a turn moves the cursor by as many bytes as a field takes, and a `for` would count by one.
// `StateView` itself, the fields with the caller's bytes, is in view.rt.
ghost use Rattle.std.specs.Prelude.{◌≡◌, List, ℕ, ◌+◌, ◌<◌, ◌^◌, length};
ghost use Rattle.wire.specs.Compact.{CompactPost};
ghost use Rattle.wire.specs.State.{state_of, empty_state, HllInside, ParsePost, StepPost, HllStepPost, HllPost};

use crate::compact::parse_compact;
use crate::fields::{Part, length_delimited, read_tag, skip};
use crate::read_error::ReadError;
use crate::small_list::parse_small_list;
use crate::varint::{Cursor, read_varint, read_varint32};

// The fields of the nested message. A signed number is carried as the unsigned one of the same bits.
#[derive(Clone, Copy, Default)]
pub struct HllFields {
    pub sparse_size: u32,
    // p, the normal precision.
    pub precision: u32,
    // s, the sparse precision.
    pub sparse_precision: u32,
    // Whether each data field is there. An absent one starts at 0 and has no bytes. (The flags stand here, and no `Option<Part>`, since
    // the state is "a struct holding the bytes, with field starts and presence", and a copy of a struct with seven unused bytes inside is slow.)
    pub data_present: bool,
    pub sparse_data_present: bool,
    pub data: Part,
    pub sparse_data: Part,
}

// The fields of a state. `aggregator_type` is the Rust's `type`.
#[derive(Clone, Copy)]
pub struct Fields {
    pub aggregator_type: u32,
    pub num_values: u64,
    pub encoding_version: u32,
    pub value_type: u32,
    pub hll: HllFields,
}

// What is read of a state that has no field for it; the other numbers are then 0.
pub(crate) const NO_TYPE: u32 = 112;

pub(crate) const NO_VERSION: u32 = 1;

// The tags of the outer fields, in which the type of a number is VARINT.
pub(crate) const TYPE_TAG: u32 = 8;

pub(crate) const NUM_VALUES_TAG: u32 = 16;

pub(crate) const ENCODING_VERSION_TAG: u32 = 24;

pub(crate) const VALUE_TYPE_TAG: u32 = 32;

pub(crate) const HLL_STATE_TAG: u32 = 898;

// The tags of the nested message's fields.
pub(crate) const SPARSE_SIZE_TAG: u32 = 16;

pub(crate) const PRECISION_TAG: u32 = 24;

pub(crate) const SPARSE_PRECISION_TAG: u32 = 32;

pub(crate) const DATA_TAG: u32 = 42;

pub(crate) const SPARSE_DATA_TAG: u32 = 50;

// The fields of a state without any bytes.
pub(crate) fn empty() -> Fields
    ensures { (s : List ℕ) → (state_of s result ≡ empty_state) × HllInside s result.hll }
{
    Fields {
        aggregator_type: NO_TYPE,
        num_values: 0,
        encoding_version: NO_VERSION,
        value_type: 0,
        hll: HllFields::default(),
    }
}

impl Part {
    // The place in the state's bytes of what stands here in a part of them that starts at `base`.
    pub(crate) fn moved(self, base: usize) -> Part
        requires { base + self.start < 2 ^ 64 }
        ensures { result ≡ record { start = base + self.start; len = self.len } }
    {
        Part {
            start: base + self.start,
            len: self.len,
        }
    }
}

// One field of the nested message. (`m` and `base` stay two, here, in `parse_hll` and in compact.rt: a struct of both would be taken apart in each of the four
// functions.)
fn hll_field(
    m: &[u8],
    base: usize,
    c: Cursor,
    mut h: HllFields,
) -> Result<(HllFields, Cursor), ReadError>
    requires { base + length m.now < 2 ^ 64 }
    ensures { HllStepPost m.now base c.at h result }
{
    let (tag, value) = read_tag(m, c)?;
    let next;
    match tag {
        SPARSE_SIZE_TAG => (h.sparse_size, next) = read_varint32(m, value)?,
        PRECISION_TAG => (h.precision, next) = read_varint32(m, value)?,
        SPARSE_PRECISION_TAG => (h.sparse_precision, next) = read_varint32(m, value)?,
        DATA_TAG => {
            let (part, end) = length_delimited(m, value)?;
            h.data = part.moved(base);
            h.data_present = true;
            next = end;
        }
        SPARSE_DATA_TAG => {
            let (part, end) = length_delimited(m, value)?;
            h.sparse_data = part.moved(base);
            h.sparse_data_present = true;
            next = end;
        }
        _ => next = skip(m, tag, value)?,
    }
    Ok((h, next))
}

// The nested message, which is a part of the state's bytes that starts at `base`. What was read of an earlier one stays where this one
// has no field for it. (This loop, that of `parse_general` and the two of compact.rt stay four: a function over a closure or a trait for the
// turn wants a contract at each of the four turns, and spares four lines in each.)
fn parse_hll(m: &[u8], base: usize, earlier: HllFields) -> Result<HllFields, ReadError>
    requires { base + length m.now < 2 ^ 64 }
    ensures { HllPost m.now base earlier result }
{
    let mut h = earlier;
    let mut c = Cursor { at: 0 };
    while c.at < m.len() {
        (h, c) = hll_field(m, base, c, h)?;
    }
    Ok(h)
}

// One outer field. Field 112 is whole before it is opened.
fn outer_field(s: &[u8], c: Cursor, mut f: Fields) -> Result<(Fields, Cursor), ReadError>
    ensures { StepPost s.now c.at f result }
{
    let (tag, value) = read_tag(s, c)?;
    let next;
    match tag {
        TYPE_TAG => (f.aggregator_type, next) = read_varint32(s, value)?,
        NUM_VALUES_TAG => (f.num_values, next) = read_varint(s, value)?,
        ENCODING_VERSION_TAG => (f.encoding_version, next) = read_varint32(s, value)?,
        VALUE_TYPE_TAG => (f.value_type, next) = read_varint32(s, value)?,
        HLL_STATE_TAG => {
            let (part, end) = length_delimited(s, value)?;
            f.hll = parse_hll(&s[part.start..end.at], part.start, f.hll)?;
            next = end;
        }
        _ => next = skip(s, tag, value)?,
    }
    Ok((f, next))
}

// Any layout.
pub fn parse_general(s: &[u8]) -> Result<Fields, ReadError>
    ensures { ParsePost s.now result }
{
    let mut f = empty();
    let mut c = Cursor { at: 0 };
    while c.at < s.len() {
        (f, c) = outer_field(s, c, f)?;
    }
    Ok(f)
}

// The layouts of short states, that of a small list first. The quick readers know lengths of one byte alone, so that they are not tried on a state of more
// than 256 bytes.
fn parse_quickly(s: &[u8]) -> Option<Fields>
    ensures { CompactPost s.now result }
{
    if 256 < s.len() {
        return None;
    }
    match parse_small_list(s) {
        None => parse_compact(s),
        read => read,
    }
}

// The fields of a state, or the first error in byte order. (The general reader is called in one place, so that the compiler puts it
// there and its answer is not copied.)
pub fn parse(s: &[u8]) -> Result<Fields, ReadError>
    ensures { ParsePost s.now result }
{
    match parse_quickly(s) {
        Some(f) => Ok(f),
        None => parse_general(s),
    }
}
