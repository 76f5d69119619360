// The compact reader. Ported from `StateView::parse_compact` in src/proto.rs of zetasketch-rs at commit 9abe68bf87 (Apache-2.0, see
// NOTICE). Changed: a turn of each loop is a function. It knows the layout that every writer gives a small state: known fields
// alone, with one-byte tags (but for field 112's, `82 07`), values and lengths. Where it answers, it answers as the general reader
// does; it leaves every other layout, and every refusal, to that one.
ghost use Rattle.std.specs.Prelude.{◌+◌, ◌<◌, ◌^◌, ◌≡◌, length, get_or};
ghost use Rattle.wire.specs.Compact.{SmallPost, CompactHllStepPost, CompactHllPost, CompactStepPost, CompactPost};

use crate::fields::take;
use crate::state::{
    DATA_TAG, ENCODING_VERSION_TAG, Fields, HllFields, NUM_VALUES_TAG, PRECISION_TAG,
    SPARSE_DATA_TAG, SPARSE_PRECISION_TAG, SPARSE_SIZE_TAG, TYPE_TAG, VALUE_TYPE_TAG, empty,
};
use crate::varint::Cursor;

// A varint of one byte.
fn small(s: &[u8], c: Cursor) -> Option<(u32, Cursor)>
    ensures { SmallPost s.now c.at result }
{
    match s.get(c.at) {
        Some(&b) if b < 128 => Some((u32::from(b), Cursor { at: c.at + 1 })),
        _ => None,
    }
}

// One field of the nested message.
fn compact_hll_field(
    m: &[u8],
    base: usize,
    c: Cursor,
    mut h: HllFields,
) -> Option<(HllFields, Cursor)>
    requires { base + length m.now < 2 ^ 64 }
    ensures { CompactHllStepPost m.now base c.at h result }
{
    let (tag, value) = small(m, c)?;
    let (v, mut next) = small(m, value)?;
    match tag {
        SPARSE_SIZE_TAG => h.sparse_size = v,
        PRECISION_TAG => h.precision = v,
        SPARSE_PRECISION_TAG => h.sparse_precision = v,
        DATA_TAG => {
            let (part, end) = take(m, next, u64::from(v)).ok()?;
            h.data = part.moved(base);
            h.data_present = true;
            next = end;
        }
        SPARSE_DATA_TAG => {
            let (part, end) = take(m, next, u64::from(v)).ok()?;
            h.sparse_data = part.moved(base);
            h.sparse_data_present = true;
            next = end;
        }
        _ => return None,
    }
    Some((h, next))
}

// The nested message, which is a part of the state's bytes that starts at `base`. (Why this loop and those of `parse_compact` and state.rt stay four: see `parse_hll`.)
fn compact_hll(m: &[u8], base: usize, earlier: HllFields) -> Option<HllFields>
    requires { base + length m.now < 2 ^ 64 }
    ensures { CompactHllPost m.now base earlier result }
{
    let mut h = earlier;
    let mut c = Cursor { at: 0 };
    while c.at < m.len() {
        (h, c) = compact_hll_field(m, base, c, h)?;
    }
    Some(h)
}

// Field 112, whose first byte has been seen.
fn compact_nested(s: &[u8], c: Cursor, f: Fields) -> Option<(Fields, Cursor)>
    requires { (c.at < length s.now) × (get_or s.now c.at 0 ≡ 130) }
    ensures { CompactStepPost s.now c.at f result }
{
    // The tag's second byte.
    if *s.get(c.at + 1)? != 7 {
        return None;
    }
    let (len, next) = small(s, Cursor { at: c.at + 2 })?;
    let (part, end) = take(s, next, u64::from(len)).ok()?;
    let hll = compact_hll(&s[part.start..end.at], part.start, f.hll)?;
    Some((Fields { hll, ..f }, end))
}

// One outer field.
fn compact_field(s: &[u8], c: Cursor, mut f: Fields) -> Option<(Fields, Cursor)>
    requires { c.at < length s.now }
    ensures { CompactStepPost s.now c.at f result }
{
    if s[c.at] == 0x82 {
        return compact_nested(s, c, f);
    }
    let (tag, value) = small(s, c)?;
    let (v, next) = small(s, value)?;
    match tag {
        TYPE_TAG => f.aggregator_type = v,
        NUM_VALUES_TAG => f.num_values = u64::from(v),
        ENCODING_VERSION_TAG => f.encoding_version = v,
        VALUE_TYPE_TAG => f.value_type = v,
        _ => return None,
    }
    Some((f, next))
}

// For `parse` alone, which answers for every state: how many this one leaves to the general reader is a matter of speed. (Its loop: see `compact_hll`.)
pub(crate) fn parse_compact(s: &[u8]) -> Option<Fields>
    ensures { CompactPost s.now result }
{
    let mut f = empty();
    let mut c = Cursor { at: 0 };
    while c.at < s.len() {
        (f, c) = compact_field(s, c, f)?;
    }
    Some(f)
}
