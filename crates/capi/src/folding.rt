// Many states, added one after the other: question 1 is asked once, and then each state goes to `Fitted::add`, which does not ask it again. One state is a fold of
// one: with a single call of it in the library LLVM puts its code into the loop, and the head stays where it is from turn to turn.
ghost use Rattle.std.specs.Prelude.{◌≡◌, true, ◌&&◌, leb, length};
ghost use Rattle.rollup.specs.Accumulator.{mem};
ghost use Rattle.rollup.specs.Lent.{mem_of, SameLent};
ghost use Rattle.rollup.specs.Refusals.{answer_of};
ghost use Rattle.rollup.specs.Adding.{AddPost};
ghost use Rattle.capi.specs.Folds.{ends_fit, fold_fits, FoldedPre, FoldedPost, FoldPost};

use rollup::accumulator::Accumulator;
use rollup::adding::Fitted;
use rollup::memory::Memory;
use rollup::refusal;
use rollup::refusal::Refusal;

// Whether the ends are of states in so many bytes. The loop has no way out, so that it has no branch: a fold of right ends pays little. It is not `is_ascending` of
// `lists`: that is of 32-bit values, with a contract over `ascends`, and here the last end is compared with the size as well.
#[tactic(auto, unfolding(crate::specs::Folds::ends_fit))]
fn ends_fit(ends: &[u64], size: u64) -> bool
    ensures { result ≡ ends_fit size 0 ends.now }
{
    let mut all = true;
    let mut start = 0;
    for &end in ends {
        all &= start <= end;
        start = end;
    }
    all & (start <= size)
}

// Judges a fold's own arguments, so that the loop over the states asks nothing more of them.
pub(crate) fn fold_fits(bytes: &[u8], ends: &[u64], answers: &[u8]) -> bool
    ensures { result ≡ fold_fits bytes.now ends.now answers.now }
{
    ends.len() <= answers.len() && ends_fit(ends, bytes.len() as u64)
}

// Adds the states between the ends, and puts each answer into its cell.
fn fold_states(
    a: Accumulator,
    memory: &mut Memory,
    bytes: &[u8],
    ends: &[u64],
    answers: &mut [u8],
) -> Accumulator
    requires { FoldedPre a (mem_of memory.old) bytes.now ends.now answers.old }
    ensures folded { FoldedPost a (mem_of memory.old) (length memory.old.scratch.now) bytes.now ends.now answers.old result (mem_of memory.new) answers.new }
    ensures same { SameLent memory.old memory.new }
{
    let mut fitted = Fitted::from(a);
    let mut start = 0;
    // Each answer by its place, and not over `answers.iter_mut()` beside the ends: behind an adapter no contract says what it leaves.
    for (i, &end) in ends.iter().enumerate() {
        let end = end as usize;
        answers[i] = refusal::answer_of(fitted.add(memory, &bytes[start..end]));
        start = end;
    }
    fitted.head
}

// Question 1, once, and then the states. The answer is to that question; each state has its own. The memory is put together here, in front
// of the loop, so that LLVM has its slices in hand: those of a struct behind a reference are read again in each turn, and with a `Memory` lent to this function a list of
// one value took 1.13 to 1.19 times as long. An answer is a number, since callers lend bytes for them.
pub(crate) fn fold(
    head: &mut Accumulator,
    registers: &mut [u8],
    sparse: &mut [u32],
    pending: &mut [u32],
    scratch: &mut [u32],
    bytes: &[u8],
    ends: &[u64],
    answers: &mut [u8],
) -> Result<(), Refusal>
    requires { fold_fits bytes.now ends.now answers.old ≡ true }
    ensures { FoldPost head.old (mem registers.old sparse.old pending.old) (length scratch.old) bytes.now ends.now answers.old (answer_of result) head.new (mem registers.new sparse.new pending.new) answers.new }
{
    if !head.fits(registers, sparse, pending) {
        return Err(Refusal::Misfit);
    }
    let mut memory = Memory {
        registers,
        sparse,
        pending,
        scratch,
    };
    *head = fold_states(*head, &mut memory, bytes, ends, answers);
    Ok(())
}

// Adds one state: what `Accumulator::add` of `rollup` promises, by a fold of one.
pub(crate) fn add_one(
    head: &mut Accumulator,
    registers: &mut [u8],
    sparse: &mut [u32],
    pending: &mut [u32],
    scratch: &mut [u32],
    state: &[u8],
) -> u8
    ensures { AddPost head.old (mem registers.old sparse.old pending.old) (length scratch.old) state.now result head.new (mem registers.new sparse.new pending.new) }
{
    let ends = [state.len() as u64];
    let mut answers = [0];
    match fold(
        head,
        registers,
        sparse,
        pending,
        scratch,
        state,
        &ends,
        &mut answers,
    ) {
        Ok(()) => answers[0],
        Err(e) => e.number(),
    }
}
