// Writing a state. Ported from `StateView::encode` in src/proto.rs of zetasketch-rs at commit 9abe68bf87 (Apache-2.0, see NOTICE).
// Changed: the output is lent, and the lengths are taken first, so that nothing is written where it is too short. (A length and what
// puts it are two functions: one over a sink that counts or writes wants a trait, its ghost members, the laws that join two parts and two
// impls, which is more than the five functions that it spares.)
ghost use Rattle.std.specs.Prelude.{◌≡◌, [], ◌+◌, ◌≤◌, ◌<◌, ◌^◌, ◌/◌, ◌%◌, length};
ghost use Rattle.wire.specs.Varints.{PutPost};
ghost use Rattle.wire.specs.State.{lent_field, hll_of, state_of, bytes_or_none};
ghost use Rattle.wire.specs.Fields.{VARINT, LEN};
ghost use Rattle.wire.specs.Encoding.{pair, sign_extended, int32_unless, bytes_field, hll_numbers, hll_bytes, outer_numbers, encode_of, hll_head, hll_start, start_of, head_of, EncodePost};
ghost use Rattle.wire.specs.View.{viewed};

use crate::state::{
    DATA_TAG, ENCODING_VERSION_TAG, Fields, HLL_STATE_TAG, HllFields, NO_VERSION, NUM_VALUES_TAG,
    PRECISION_TAG, SPARSE_DATA_TAG, SPARSE_PRECISION_TAG, SPARSE_SIZE_TAG, TYPE_TAG,
    VALUE_TYPE_TAG,
};
use crate::varint::{put_varint, varint_len_64};
use crate::view::StateView;

// Why a state is not written. The number is that of document 01's question.
#[derive(Clone, Copy, Debug, PartialEq, Eq)]
pub enum EncodeError {
    // The state does not fit the output. Nothing was written.
    OutputTooShort = 23,
}

// A 32-bit number as the 64 bits that are written.
fn sign_extended(v: u32) -> u64
    ensures { result ≡ sign_extended v }
{
    i64::from(v.cast_signed()).cast_unsigned()
}

// ---- lengths

// A tag and the number behind it: the value of a field of wire type VARINT, or the length of one of wire type LEN.
fn pair_len(tag: u32, v: u64) -> usize
    ensures { result ≡ length (pair tag v) }
{
    varint_len_64(u64::from(tag)) + varint_len_64(v)
}

fn int32_len(omitted: u32, tag: u32, v: u32) -> usize
    requires { tag % 8 ≡ VARINT }
    ensures { result ≡ length (int32_unless omitted (tag / 8) v) }
{
    if v == omitted {
        return 0;
    }
    pair_len(tag, sign_extended(v))
}

fn field_len(tag: u32, d: Option<&[u8]>) -> usize
    requires { tag % 8 ≡ LEN }
    ensures { result ≡ length (bytes_field (tag / 8) (lent_field d.entry)) }
{
    let Some(d) = d else {
        return 0;
    };
    pair_len(tag, d.len() as u64) + d.len()
}

// ---- writing: each puts its bytes at `at`, where there is room for them, and answers the position past them. (The whole output and a place in it: the contract
// says what stands at that place of the whole.)

fn put_pair(out: &mut [u8], at: usize, tag: u32, v: u64) -> usize
    requires { at + length (pair tag v) ≤ length out.old }
    ensures { PutPost out.old at (pair tag v) result out.new }
{
    let next = put_varint(out, at, u64::from(tag));
    put_varint(out, next, v)
}

fn put_int32(out: &mut [u8], at: usize, omitted: u32, tag: u32, v: u32) -> usize
    requires wire_type { tag % 8 ≡ VARINT }
    requires room { at + length (int32_unless omitted (tag / 8) v) ≤ length out.old }
    ensures { PutPost out.old at (int32_unless omitted (tag / 8) v) result out.new }
{
    if v == omitted {
        return at;
    }
    put_pair(out, at, tag, sign_extended(v))
}

// For other writers too: the bytes of `d` at `at`.
pub fn put_bytes(out: &mut [u8], at: usize, d: &[u8]) -> usize
    requires { at + length d.now ≤ length out.old }
    ensures { PutPost out.old at d.now result out.new }
{
    let end = at + d.len();
    out[at..end].copy_from_slice(d);
    end
}

fn put_field(out: &mut [u8], at: usize, tag: u32, d: Option<&[u8]>) -> usize
    requires wire_type { tag % 8 ≡ LEN }
    requires room { at + length (bytes_field (tag / 8) (lent_field d)) ≤ length out.old }
    ensures { PutPost out.old at (bytes_field (tag / 8) (lent_field d.entry)) result out.new }
{
    let Some(d) = d else {
        return at;
    };
    let next = put_pair(out, at, tag, d.len() as u64);
    put_bytes(out, next, d)
}

impl Fields {
    fn numbers_len(self) -> usize
        ensures { result ≡ length (outer_numbers (state_of [] self)) }
    {
        pair_len(TYPE_TAG, sign_extended(self.aggregator_type))
            + pair_len(NUM_VALUES_TAG, self.num_values)
            + int32_len(NO_VERSION, ENCODING_VERSION_TAG, self.encoding_version)
            + int32_len(0, VALUE_TYPE_TAG, self.value_type)
    }

    fn put_numbers(self, out: &mut [u8], at: usize) -> usize
        requires { at + length (outer_numbers (state_of [] self)) ≤ length out.old }
        ensures { PutPost out.old at (outer_numbers (state_of [] self)) result out.new }
    {
        let second = put_pair(out, at, TYPE_TAG, sign_extended(self.aggregator_type));
        let third = put_pair(out, second, NUM_VALUES_TAG, self.num_values);
        let fourth = put_int32(
            out,
            third,
            NO_VERSION,
            ENCODING_VERSION_TAG,
            self.encoding_version,
        );
        put_int32(out, fourth, 0, VALUE_TYPE_TAG, self.value_type)
    }
}

impl HllFields {
    fn numbers_len(self) -> usize
        ensures { result ≡ length (hll_numbers (hll_of [] self)) }
    {
        int32_len(0, SPARSE_SIZE_TAG, self.sparse_size)
            + int32_len(0, PRECISION_TAG, self.precision)
            + int32_len(0, SPARSE_PRECISION_TAG, self.sparse_precision)
    }

    fn put_numbers(self, out: &mut [u8], at: usize) -> usize
        requires { at + length (hll_numbers (hll_of [] self)) ≤ length out.old }
        ensures { PutPost out.old at (hll_numbers (hll_of [] self)) result out.new }
    {
        let second = put_int32(out, at, 0, SPARSE_SIZE_TAG, self.sparse_size);
        let third = put_int32(out, second, 0, PRECISION_TAG, self.precision);
        put_int32(out, third, 0, SPARSE_PRECISION_TAG, self.sparse_precision)
    }
}

impl<'a> StateView<'a> {
    // The nested message up to its sparse data.
    fn hll_start_len(self) -> usize
        ensures { result ≡ length (hll_start (viewed self.entry).hll) }
    {
        self.fields.hll.numbers_len() + field_len(DATA_TAG, self.data_field())
    }

    fn hll_len(self) -> usize
        requires { length (bytes_or_none (viewed self).hll.«data») + length (bytes_or_none (viewed self).hll.sparse_data) < 2 ^ 63 }
        ensures { result ≡ length (hll_bytes (viewed self.entry).hll) }
    {
        self.hll_start_len() + field_len(SPARSE_DATA_TAG, self.sparse_data_field())
    }

    // The nested message with as many bytes of sparse data as the fields say, wherever they are.
    fn nested_len(self) -> usize
        requires { length (hll_head (viewed self).hll self.fields.hll.sparse_data.len) + self.fields.hll.sparse_data.len < 2 ^ 64 }
        ensures { result ≡ length (hll_head (viewed self.entry).hll self.entry.fields.hll.sparse_data.len) + self.entry.fields.hll.sparse_data.len }
    {
        let n = self.fields.hll.sparse_data.len;
        self.hll_start_len() + pair_len(SPARSE_DATA_TAG, n as u64) + n
    }

    // How many bytes `encode_head` writes.
    pub fn head_len(self) -> usize
        requires { length (bytes_or_none (viewed self).hll.«data») + self.fields.hll.sparse_data.len < 2 ^ 63 }
        ensures { result ≡ length (head_of (viewed self.entry) self.entry.fields.hll.sparse_data.len) }
    {
        let nested = self.nested_len();
        let outer = self.fields.numbers_len() + pair_len(HLL_STATE_TAG, nested as u64);
        outer + (nested - self.fields.hll.sparse_data.len)
    }

    // How many bytes `encode` writes.
    pub fn encoded_len(self) -> usize
        requires { length (bytes_or_none (viewed self).hll.«data») + length (bytes_or_none (viewed self).hll.sparse_data) < 2 ^ 63 }
        ensures { result ≡ length (encode_of (viewed self.entry)) }
    {
        let nested = self.hll_len();
        self.fields.numbers_len() + pair_len(HLL_STATE_TAG, nested as u64) + nested
    }

    // A state up to its sparse data, where the nested message has `n` bytes.
    fn put_start(self, n: usize, out: &mut [u8]) -> usize
        requires { length (start_of (viewed self) n) ≤ length out.old }
        ensures { PutPost out.old 0 (start_of (viewed self.entry) n) result out.new }
    {
        let prefix = self.fields.put_numbers(out, 0);
        let numbers = put_pair(out, prefix, HLL_STATE_TAG, n as u64);
        let field = self.fields.hll.put_numbers(out, numbers);
        put_field(out, field, DATA_TAG, self.data_field())
    }

    // Everything before the bytes of the sparse data, of which there are as many as the fields say: the caller has the rest of `out` filled by
    // another writer.
    pub fn encode_head(self, out: &mut [u8]) -> usize
        requires { length (head_of (viewed self) self.fields.hll.sparse_data.len) + self.fields.hll.sparse_data.len ≤ length out.old }
        ensures { PutPost out.old 0 (head_of (viewed self.entry) self.entry.fields.hll.sparse_data.len) result out.new }
    {
        let n = self.fields.hll.sparse_data.len;
        let at = self.put_start(self.nested_len(), out);
        put_pair(out, at, SPARSE_DATA_TAG, n as u64)
    }

    fn put_state(self, out: &mut [u8]) -> usize
        requires { length (encode_of (viewed self)) ≤ length out.old }
        ensures { PutPost out.old 0 (encode_of (viewed self.entry)) result out.new }
    {
        let at = self.put_start(self.hll_len(), out);
        put_field(out, at, SPARSE_DATA_TAG, self.sparse_data_field())
    }

    // The two data fields are compared with the room first, one after the other, so that no sum can overflow.
    pub fn encode(self, out: &mut [u8]) -> Result<usize, EncodeError>
        ensures { EncodePost (viewed self.entry) out.old result out.new }
    {
        let dense = self.data().len();
        let sparse = self.sparse_data().len();
        if out.len() < dense || out.len() - dense < sparse || out.len() < self.encoded_len() {
            return Err(EncodeError::OutputTooShort);
        }
        Ok(self.put_state(out))
    }
}
