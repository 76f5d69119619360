// Walking a batch without adding its states: where each record stands, and its state.
ghost use Rattle.std.specs.Prelude.{◌≡◌, ◌≤◌, length};
ghost use Rattle.batch.specs.Chain.{state_at};
ghost use Rattle.batch.specs.Unpacking.{WalkedPost};

use crate::chain;
use crate::chain::{ChainError, Records};

// How many records the chain has, and whether it comes to its end after them.
#[derive(Clone, Copy, Debug, PartialEq, Eq)]
pub struct Walked {
    pub records: usize,
    pub ending: Result<(), ChainError>,
}

// Puts the indices into their cells, and counts them. The count is told after an error, too, when that of an `enumerate` is gone.
fn put_indices(batch: &[u8], indices: &mut [u32], records: &mut usize) -> Result<(), ChainError>
    requires { (records.old ≡ 0) × (65536 ≤ length indices.old) }
    ensures { WalkedPost batch.now indices.old (record { records = records.new; ending = result }) indices.new }
{
    for record in Records::new(batch)? {
        indices[*records] = record?.index;
        *records += 1;
    }
    Ok(())
}

// Puts the index of each record into its cell, in the order of the chain. A batch has fewer records than bytes. The cells are lent: there is no heap.
pub fn walk(batch: &[u8], indices: &mut [u32]) -> Walked
    requires { 65536 ≤ length indices.old }
    ensures { WalkedPost batch.now indices.old result indices.new }
{
    let mut records = 0;
    let ending = put_indices(batch, indices, &mut records);
    Walked { records, ending }
}

// The state of the record at an index, which is a part of the batch: as far as it lies inside.
pub fn state_at(batch: &[u8], at: usize) -> &[u8]
    ensures { result.now ≡ state_at batch.now at }
{
    if batch.len() < 8 || batch.len() - 8 < at {
        return &batch[..0];
    }
    let state = &batch[at + 8..];
    let size = chain::word_at(batch, at + 4) as usize;
    &state[..size.min(state.len())]
}
