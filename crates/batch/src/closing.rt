// What is said of a roll-up at the end: how many of its registers are not zero, and its written state.
ghost use Rattle.std.specs.Prelude.{◌≡◌, true, ◌++◌, length, take};
ghost use Rattle.lists.specs.Registers.{not_zero_count};
ghost use Rattle.rollup.specs.Accumulator.{fits};
ghost use Rattle.rollup.specs.Lent.{mem_of, SameLent};
ghost use Rattle.rollup.specs.Calls.{list_registers};
ghost use Rattle.batch.specs.Closing.{ListCountPre, count_for, ReportPost};

use crate::records;
use crate::records::Rolled;
use lists::registers;
use rollup::accumulator::{Accumulator, Form};
use rollup::memory::Memory;
use rollup::refusal::Refusal;
use rollup::sparse_paths;

// All that is said of a batch: the records; how many registers are not zero, if the piece lent for a list's registers is long enough; and how many bytes were written.
#[derive(Clone, Copy, Debug, PartialEq, Eq)]
pub struct Report {
    pub rolled: Rolled,
    pub not_zero: Option<usize>,
    pub written: Result<usize, Refusal>,
}

// A list's values are read as registers in a piece of its own: a roll-up in list form leaves its register bytes untouched.
fn list_not_zero(a: Accumulator, memory: &Memory, spare: &mut [u8]) -> usize
    requires { ListCountPre a memory.now.sparse.now memory.now.pending.now spare.old }
    ensures { result ≡ not_zero_count (list_registers a.precision a.sparse_precision (take a.sparse_len memory.now.sparse.now ++ take a.pending_len memory.now.pending.now)) }
{
    let enc = a.encoding();
    sparse_paths::set_lists(
        spare,
        enc,
        &memory.sparse[..a.sparse_len],
        &memory.pending[..a.pending_len],
    );
    registers::count_not_zero(&spare[..], enc.normal_precision)
}

#[tactic(auto, using(rollup::proofs::AgreementLaws::registers_list, rollup::proofs::AgreementLaws::registers_dense), unfolding(crate::specs::Closing::count_for))]
fn not_zero(a: Accumulator, memory: &Memory, spare: &mut [u8]) -> Option<usize>
    requires { fits a (mem_of memory.now) ≡ true }
    ensures { result ≡ count_for a.form a (mem_of memory.now) (length spare.old) }
{
    match a.form {
        Form::Unstarted => Some(0),
        Form::Sparse if spare.len() < registers::register_bytes(a.precision) => None,
        Form::Sparse => Some(list_not_zero(a, memory, spare)),
        Form::Dense => Some(registers::count_not_zero(memory.registers, a.precision)),
    }
}

// Rolls up a batch from a fresh head: its states are added in the order of the chain, each answer put into its record's cell of `answers`; then the
// roll-up is written into `out`.
pub fn roll(
    batch: &[u8],
    memory: &mut Memory,
    answers: &mut [u8],
    spare: &mut [u8],
    out: &mut [u8],
) -> Report
    ensures reported { ReportPost batch.now (mem_of memory.old) (length memory.old.scratch.now) answers.old (length spare.old) out.old result (mem_of memory.new) answers.new out.new }
    ensures same { SameLent memory.old memory.new }
{
    let rolled = records::roll_up(batch, memory, answers);
    let not_zero = not_zero(rolled.head, memory, spare);
    // Two slices are lent before the call: a field behind a reference that a call takes as `&` is not covered beside others.
    let (registers, sparse) = (&mut *memory.registers, &mut *memory.sparse);
    let written = rolled
        .head
        .write_fitting(registers, sparse, memory.pending, memory.scratch, out);
    Report {
        rolled,
        not_zero,
        written,
    }
}
