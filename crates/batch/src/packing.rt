// Appending records to a batch. A writer takes the whole buffer and a position, and answers the next position: `put_record` writes at two places, and the indices
// that it puts are positions in the whole.
ghost use Rattle.std.specs.Prelude.{◌≡◌, ◌+◌, ◌%◌, ◌≤◌, length};
ghost use Rattle.wire.specs.Varints.{PutPost};
ghost use Rattle.batch.specs.Packing.{word_bytes, record_bytes, RecordPre, RecordPost};

use wire::encoding::put_bytes;

// Four bytes, low first. At the front of a buffer, 0 is the batch of no states.
#[tactic(auto, unfolding(crate::specs::Packing::word_bytes))]
pub fn put_word(out: &mut [u8], at: usize, v: usize) -> usize
    requires { at + 4 ≤ length out.old }
    ensures { PutPost out.old at (word_bytes v) result out.new }
{
    put_bytes(out, at, &v.to_le_bytes()[..4])
}

// Next index 0, length, state.
fn put_last(out: &mut [u8], at: usize, state: &[u8]) -> usize
    requires { at + length (record_bytes 0 state.now) ≤ length out.old }
    ensures { PutPost out.old at (record_bytes 0 state.now) result out.new }
{
    let size_at = put_word(out, at, 0);
    let start = put_word(out, size_at, state.len());
    put_bytes(out, start, state)
}

// Appends a state to a batch that ends at `end`. `last` is where the index stands that ends its chain: that of the last record, or 0 where there is none.
pub fn put_record(out: &mut [u8], last: usize, end: usize, state: &[u8]) -> usize
    requires { RecordPre last end (length state.now) (length out.old) }
    ensures { RecordPost out.old last end state.now result out.new }
{
    put_word(out, last, end);
    put_last(out, end, state)
}
