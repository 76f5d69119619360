// The loop that adds each record's state.
ghost use Rattle.std.specs.Prelude.{◌≡◌, false, length};
ghost use Rattle.rollup.specs.Accumulator.{fresh};
ghost use Rattle.rollup.specs.Lent.{mem_of, SameLent};
ghost use Rattle.batch.specs.declared.records.Ending.TheVariants.{Refused};
ghost use Rattle.batch.specs.Batch.{RolledPost};

use crate::chain::{ChainError, Records};
use rollup::accumulator::Accumulator;
use rollup::adding::Fitted;
use rollup::memory::Memory;
use rollup::refusal;

// Why not all records were added.
#[derive(Clone, Copy, Debug, PartialEq, Eq)]
pub enum Ending {
    // The chain breaks, or there is none.
    Refused(ChainError),
    // There are more records than cells for answers.
    Full,
}

impl From<ChainError> for Ending {
    ghost from_gives = { λ e r. r ≡ Refused e };

    fn from(e: ChainError) -> Ending {
        Ending::Refused(e)
    }
}

// The accumulator after the last record, how many records there were, and whether they were all.
#[derive(Clone, Copy, Debug, PartialEq, Eq)]
pub struct Rolled {
    pub head: Accumulator,
    pub records: usize,
    pub ending: Result<(), Ending>,
}

// Adds the states in the order of the chain, puts each answer into its cell, and counts the records. An answer is a number, since callers lend bytes for them. The count
// is told after an error, too, when that of an `enumerate` is gone.
fn add_records(
    batch: &[u8],
    fitted: &mut Fitted,
    memory: &mut Memory,
    answers: &mut [u8],
    records: &mut usize,
) -> Result<(), Ending>
    requires { (fitted.old.head ≡ fresh) × (fitted.old.distinct ≡ false) × (records.old ≡ 0) }
    ensures rolled { RolledPost batch.now (mem_of memory.old) (length memory.old.scratch.now) (record { head = fitted.new.head; records = records.new; ending = result }) (mem_of memory.new) answers.old answers.new }
    ensures same { SameLent memory.old memory.new }
{
    for record in Records::new(batch)? {
        let record = record?;
        // Not by `get_mut`: its cell would be lent while the state is added, and the proof has no name for what it leaves.
        if *records == answers.len() {
            return Err(Ending::Full);
        }
        answers[*records] = refusal::answer_of(fitted.add(memory, record.state));
        *records += 1;
    }
    Ok(())
}

// Adds the states of a batch to a fresh roll-up, in the order of the chain, and puts each answer into its record's cell.
pub fn roll_up(batch: &[u8], memory: &mut Memory, answers: &mut [u8]) -> Rolled
    ensures rolled { RolledPost batch.now (mem_of memory.old) (length memory.old.scratch.now) result (mem_of memory.new) answers.old answers.new }
    ensures same { SameLent memory.old memory.new }
{
    let mut fitted = Fitted::from(Accumulator::new());
    let mut records = 0;
    let ending = add_records(batch, &mut fitted, memory, answers, &mut records);
    Rolled {
        head: fitted.head,
        records,
        ending,
    }
}
