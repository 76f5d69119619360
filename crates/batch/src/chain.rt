// The chain of a batch: its records, one after the other.
ghost use Rattle.std.specs.Prelude.{◌≡◌, length, ◌+◌, ◌≤◌};
ghost use Rattle.batch.specs.Chain.{word_at, is_record, is_batch, error_number, ordinal_of};
ghost use Rattle.batch.specs.Records.{BeginsPost};

// Why a chain ends before an index of zero. Each has the number of its question.
#[derive(Clone, Copy, Debug, PartialEq, Eq)]
pub enum ChainError {
    // 24: "at most 65,536 bytes, at least 4?"
    NoBatch = 24,
    // 25: "is each index at least 4 and above the one before, and the record inside?"
    Broken = 25,
}

impl ChainError {
    // Document 01's number. It has a method in the place of `as u8`, since a contract says which one it is: the report is told it.
    pub fn number(self) -> u8
        ensures { result ≡ error_number self }
    {
        self as u8
    }

    // The ordinal of the record that could not be had, where so many could. Bytes that are no batch have no record: 0.
    pub fn ordinal(self, records: usize) -> usize
        requires { records ≤ 65536 }
        ensures { result ≡ ordinal_of self records }
    {
        match self {
            ChainError::NoBatch => 0,
            ChainError::Broken => records + 1,
        }
    }
}

// Where a record stands, and its state, which is a part of the batch.
#[derive(Clone, Copy, Debug)]
pub struct Record<'a> {
    pub index: u32,
    pub state: &'a [u8],
}

// The records of a batch that are still to come. After an error there is none. Both indices are as the batch has them, where 0 is no record's: with an `Option` for each,
// every comparison would take it apart again.
#[derive(Clone, Debug, Drop)]
pub struct Records<'a> {
    batch: &'a [u8],
    // The index of the record before, and 0 in front of the first.
    before: u32,
    // The index of the next one: 0 ends the chain.
    next: u32,
}

// Four bytes, low first.
#[tactic(auto, unfolding(crate::specs::Chain::word_at))]
pub(crate) fn word_at(batch: &[u8], at: usize) -> u32
    requires { at + 4 ≤ length batch.now }
    ensures { result ≡ word_at batch.now at }
{
    u32::from_le_bytes([batch[at], batch[at + 1], batch[at + 2], batch[at + 3]])
}

// 25: "is each index at least 4 and above the one before, and the record inside?"
#[tactic(auto, unfolding(crate::specs::Chain::is_record))]
fn is_record(batch: &[u8], before: u32, index: u32) -> bool
    ensures { result ≡ is_record batch.now before index }
{
    let start = index as usize + 8;
    4 <= index
        && before < index
        && start <= batch.len()
        && start + word_at(batch, start - 4) as usize <= batch.len()
}

// 24: "at most 65,536 bytes, at least 4?"
fn is_batch(batch: &[u8]) -> bool
    ensures { result ≡ is_batch batch.now }
{
    (4..=65536).contains(&batch.len())
}

impl<'a> Records<'a> {
    pub fn new(batch: &'a [u8]) -> Result<Records<'a>, ChainError>
        ensures { BeginsPost batch.now result }
    {
        if !is_batch(batch) {
            return Err(ChainError::NoBatch);
        }
        Ok(Records {
            batch,
            before: 0,
            next: word_at(batch, 0),
        })
    }
}

impl<'a> Iterator for Records<'a> {
    ghost use Rattle.std.specs.Iterator.{at_most};
    ghost use Rattle.batch.specs.Records.{left, items_in, GivesRecord};

    type Item = Result<Record<'a>, ChainError>;

    ghost next_gives = { GivesRecord };

    ghost remaining = { λ s. at_most (items_in (left s)) };

    fn next(&mut self) -> Option<Result<Record<'a>, ChainError>> {
        let index = self.next;
        if index == 0 {
            return None;
        }
        if !is_record(self.batch, self.before, index) {
            self.next = 0;
            return Some(Err(ChainError::Broken));
        }
        let at = index as usize;
        let start = at + 8;
        let end = start + word_at(self.batch, at + 4) as usize;
        self.before = index;
        self.next = word_at(self.batch, at);
        Some(Ok(Record {
            index,
            state: &self.batch[start..end],
        }))
    }
}
