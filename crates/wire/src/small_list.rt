// The state of a small list, read in one straight line. New, not ported: the loops of `parse_compact` take most of the time of adding a
// list of a few values. It knows the layout that the writer of document 01 gives such a state: type 112, a value count, version 2, perhaps
// a value type, and the nested message with sparse size, p, s and field 6, every number and length in one byte. It leaves every
// other layout, and every refusal, to `parse_compact`.
ghost use Rattle.wire.specs.Compact.{CompactPost};

use crate::fields::Part;
use crate::state::{Fields, HllFields};

// For `parse` alone, as `parse_compact` is. The fields are made in one place, and this is called in one: of an answer that is made elsewhere the compiler makes a
// copy, which takes as long as the rest.
pub(crate) fn parse_small_list(s: &[u8]) -> Option<Fields>
    ensures { CompactPost s.now result }
{
    // Tags 8, 16, 24 and 32 are those of the fields 1 to 4, `82 07` is that of field 112 and 50 that of field 6.
    let &[8, 112, 16, count, 24, 2, ref rest @ ..] = s else {
        return None;
    };
    let (value_type, nested) = match rest {
        &[32, value_type, ref nested @ ..] => (value_type, nested),
        _ => (0, rest),
    };
    let &[
        0x82,
        7,
        nested_len,
        16,
        sparse_size,
        24,
        precision,
        32,
        sparse_precision,
        50,
        list_len,
        ref list @ ..,
    ] = nested
    else {
        return None;
    };
    // A byte below 128 is a number or a length of one byte.
    if 128 <= count | value_type | sparse_size | precision | sparse_precision | nested_len {
        return None;
    }
    // In the nested message eight bytes stand before the list.
    if usize::from(nested_len) != list.len() + 8 || usize::from(list_len) != list.len() {
        return None;
    }
    let hll = HllFields {
        sparse_size: u32::from(sparse_size),
        precision: u32::from(precision),
        sparse_precision: u32::from(sparse_precision),
        sparse_data_present: true,
        sparse_data: Part {
            start: s.len() - list.len(),
            len: list.len(),
        },
        ..HllFields::default()
    };
    Some(Fields {
        aggregator_type: 112,
        num_values: u64::from(count),
        encoding_version: 2,
        value_type: u32::from(value_type),
        hll,
    })
}
