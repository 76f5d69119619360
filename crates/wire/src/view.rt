// A read state: the caller's bytes, and the fields that were read from them. Ported from `StateView` in src/proto.rs of zetasketch-rs at commit
// 9abe68bf87 (Apache-2.0, see NOTICE). Changed: where the Rust holds each data field as an optional slice, this holds the bytes once, and `fields`
// says of each data field whether it is there, where it starts and how long it is.
ghost use Rattle.std.specs.Prelude.{◌≡◌, IfOk};
ghost use Rattle.wire.specs.State.{part_of, lent_field, bytes_or_none};
ghost use Rattle.wire.specs.View.{viewed, ViewPost};

use crate::fields::Part;
use crate::read_error::ReadError;
use crate::state;
use crate::state::Fields;

#[derive(Clone, Copy)]
pub struct StateView<'a> {
    pub bytes: &'a [u8],
    // What was read from `bytes`.
    pub fields: Fields,
}

// The bytes of a data field, as the part of the state's bytes that holds it, and none where it is absent. (A flag beside a `Part`, as `HllFields` has them, and no
// `Option`: see `data`.)
fn part_bytes(bytes: &[u8], present: bool, p: Part) -> &[u8]
    ensures { result.now ≡ bytes_or_none (part_of bytes.now present p) }
{
    if !present || bytes.len() <= p.start {
        return &bytes[..0];
    }
    let rest = &bytes[p.start..];
    &rest[..p.len.min(rest.len())]
}

impl<'a> StateView<'a> {
    // A state, or the first error in byte order.
    pub fn parse(bytes: &'a [u8]) -> Result<StateView<'a>, ReadError>
        ensures read { ViewPost bytes.now result }
        ensures same { IfOk result (λ v. v.bytes ≡ bytes.entry) }
    {
        let fields = state::parse(bytes)?;
        Ok(StateView { bytes, fields })
    }

    // The bytes of field 5, none where it is absent. It is not made of `data_field`: with an `Option` to be taken apart for each state, a list of one value took a tenth
    // longer.
    pub fn data(self) -> &'a [u8]
        ensures { result.now ≡ bytes_or_none (viewed self.entry).hll.«data» }
    {
        part_bytes(
            self.bytes,
            self.fields.hll.data_present,
            self.fields.hll.data,
        )
    }

    // The bytes of field 6, likewise.
    pub fn sparse_data(self) -> &'a [u8]
        ensures { result.now ≡ bytes_or_none (viewed self.entry).hll.sparse_data }
    {
        part_bytes(
            self.bytes,
            self.fields.hll.sparse_data_present,
            self.fields.hll.sparse_data,
        )
    }

    // Field 5, as it is written.
    pub(crate) fn data_field(self) -> Option<&'a [u8]>
        ensures { lent_field result ≡ (viewed self.entry).hll.«data» }
    {
        if self.fields.hll.data_present {
            Some(self.data())
        } else {
            None
        }
    }

    // Field 6, likewise.
    pub(crate) fn sparse_data_field(self) -> Option<&'a [u8]>
        ensures { lent_field result ≡ (viewed self.entry).hll.sparse_data }
    {
        if self.fields.hll.sparse_data_present {
            Some(self.sparse_data())
        } else {
            None
        }
    }
}
