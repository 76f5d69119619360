// The functions that `capi_c` exports. A caller lends all memory; slices must not overlap. An answer is document 01's number: 0, or the first question that was
// answered with no. An exported function takes numbers and slices and answers a number: so the slices stay apart, and the head is a row of numbers.
ghost use Rattle.std.specs.Prelude.{◌≡◌, length, set};
ghost use Rattle.rollup.specs.Accumulator.{mem};
ghost use Rattle.capi.specs.Calls.{AddRowPost, WriteRowPost, FreshPost};
ghost use Rattle.capi.specs.Folds.{FoldRowPost};

use crate::{folding, heads};
use rollup::accumulator::Accumulator;
use rollup::refusal;

// Puts a fresh head into the row; 1 where it has no ten cells.
pub fn filmoed_fresh(head: &mut [u64]) -> u8
    ensures { FreshPost head.old result head.new }
{
    if head.len() < 10 {
        return 1;
    }
    heads::put_head(head, Accumulator::new());
    0
}

// Adds a state: what `Accumulator::add` of `rollup` promises.
#[tactic(auto, using(crate::proofs::CallLaws::ten_cells))]
pub fn filmoed_add(
    head: &mut [u64],
    registers: &mut [u8],
    sparse: &mut [u32],
    pending: &mut [u32],
    scratch: &mut [u32],
    state: &[u8],
) -> u8
    ensures { AddRowPost head.old (mem registers.old sparse.old pending.old) (length scratch.old) state.now result head.new (mem registers.new sparse.new pending.new) }
{
    let Some(mut a) = heads::read_head(head) else {
        return 1;
    };
    let answer = folding::add_one(&mut a, registers, sparse, pending, scratch, state);
    heads::put_head(head, a);
    answer
}

// The first cell, if there is one.
fn put_first(cells: &mut [u64], v: u64)
    ensures { cells.new ≡ set cells.old 0 v }
{
    if let Some(first) = cells.first_mut() {
        *first = v;
    }
}

// Writes a roll-up: `Accumulator::write` of `rollup`. How many bytes were written is put into the first cell of `len`.
pub fn filmoed_write(
    head: &[u64],
    registers: &[u8],
    sparse: &[u32],
    pending: &mut [u32],
    scratch: &mut [u32],
    out: &mut [u8],
    len: &mut [u64],
) -> u8
    ensures { WriteRowPost head.now (mem registers.now sparse.now pending.old) (length scratch.old) out.old len.old result (mem registers.now sparse.now pending.new) out.new len.new }
{
    let Some(a) = heads::read_head(head) else {
        put_first(len, 0);
        return 1;
    };
    let written = a.write(registers, sparse, pending, scratch, out);
    put_first(len, written.unwrap_or(0) as u64);
    refusal::answer_of(written)
}

// The answer to a fold whose ends do not fit: one is before the last one or past the bytes, or has no cell for its answer. The papers' numbers end before 100.
const BAD_ENDS: u8 = 100;

// Adds many states: `states` has them one behind the other, `ends` where each one ends, and `answers` a cell for each answer. These arguments are judged first.
#[tactic(auto, using(crate::proofs::CallLaws::ten_cells))]
pub fn filmoed_fold(
    head: &mut [u64],
    registers: &mut [u8],
    sparse: &mut [u32],
    pending: &mut [u32],
    scratch: &mut [u32],
    states: &[u8],
    ends: &[u64],
    answers: &mut [u8],
) -> u8
    ensures { FoldRowPost head.old (mem registers.old sparse.old pending.old) (length scratch.old) states.now ends.now answers.old result head.new (mem registers.new sparse.new pending.new) answers.new }
{
    if !folding::fold_fits(states, ends, &answers[..]) {
        return BAD_ENDS;
    }
    let Some(mut a) = heads::read_head(head) else {
        return 1;
    };
    if let Err(e) = folding::fold(
        &mut a, registers, sparse, pending, scratch, states, ends, answers,
    ) {
        return e.number();
    }
    heads::put_head(head, a);
    0
}
