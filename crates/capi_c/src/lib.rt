// The functions of `capi::calls` under their C names, for programs in other languages: a static library (`bindings/archive`). Each is one call, and promises what
// that one promises. The header is bindings/c/filmoed.h.
#![tactic(auto)]

ghost use Rattle.std.specs.Prelude.{◌≡◌, length};
ghost use Rattle.rollup.specs.Accumulator.{mem};
ghost use Rattle.capi.specs.Calls.{AddRowPost, WriteRowPost, FreshPost};
ghost use Rattle.capi.specs.Folds.{FoldRowPost};

use capi::calls;

#[unsafe(no_mangle)]
pub extern "C" fn filmoed_fresh(head: &mut [u64]) -> u8
    ensures { FreshPost head.old result head.new }
{
    calls::filmoed_fresh(head)
}

#[unsafe(no_mangle)]
pub extern "C" fn filmoed_add(
    head: &mut [u64],
    registers: &mut [u8],
    sparse: &mut [u32],
    pending: &mut [u32],
    scratch: &mut [u32],
    state: &[u8],
) -> u8
    ensures { AddRowPost head.old (mem registers.old sparse.old pending.old) (length scratch.old) state.now result head.new (mem registers.new sparse.new pending.new) }
{
    calls::filmoed_add(head, registers, sparse, pending, scratch, state)
}

#[unsafe(no_mangle)]
pub extern "C" fn filmoed_write(
    head: &[u64],
    registers: &[u8],
    sparse: &[u32],
    pending: &mut [u32],
    scratch: &mut [u32],
    out: &mut [u8],
    len: &mut [u64],
) -> u8
    ensures { WriteRowPost head.now (mem registers.now sparse.now pending.old) (length scratch.old) out.old len.old result (mem registers.now sparse.now pending.new) out.new len.new }
{
    calls::filmoed_write(head, registers, sparse, pending, scratch, out, len)
}

#[unsafe(no_mangle)]
pub extern "C" fn filmoed_fold(
    head: &mut [u64],
    registers: &mut [u8],
    sparse: &mut [u32],
    pending: &mut [u32],
    scratch: &mut [u32],
    states: &[u8],
    ends: &[u64],
    answers: &mut [u8],
) -> u8
    ensures { FoldRowPost head.old (mem registers.old sparse.old pending.old) (length scratch.old) states.now ends.now answers.old result head.new (mem registers.new sparse.new pending.new) answers.new }
{
    calls::filmoed_fold(
        head, registers, sparse, pending, scratch, states, ends, answers,
    )
}
