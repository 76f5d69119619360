// The paths of a dense roll-up. Ported from `merge_into_dense_any_precision` in src/accumulator.rs of zetasketch-rs at commit 9abe68bf87 (Apache-2.0,
// see NOTICE). Changed: lent slices in the place of `Vec`, registers lowered in place, a function for the roll-up's own registers and one for each kind of
// what comes in, and a contract on every function.
ghost use Rattle.std.specs.Prelude.{◌≡◌, ◌-◌, take};
ghost use Rattle.lists.specs.Registers.{registers_of, with_registers, larger, lowered, raised_lower};
ghost use Rattle.rollup.specs.Taking.{signed_min, raised_to, dense_after, Shows};
ghost use Rattle.rollup.specs.Lent.{mem_of, SameLent};
ghost use Rattle.rollup.specs.Stages.{LowerOwnPre, LowerOwnPost, RaiseByRowPre, RaiseByListPre, RaisePre, DensePre};

use crate::accumulator::{Accumulator, Form};
use crate::incoming::Incoming;
use crate::memory::Memory;
use lists::registers;
use lists::values::Sparse;

// The smaller of two numbers as signed ones. It has a name, since the definition has one; among the fields of the head it would be a chain of four calls.
fn signed_min(x: u32, y: u32) -> u32
    ensures { result ≡ signed_min x y }
{
    x.cast_signed().min(y.cast_signed()).cast_unsigned()
}

// ---- registers. They are a slice and a precision, as in `registers` of `lists`.

// Makes the roll-up's registers those of the smaller precision, which is the answer. Where that is its own already, they are not walked.
fn lower_own(registers: &mut [u8], p: u32, other: u32) -> u32
    requires { LowerOwnPre p registers.old }
    ensures { LowerOwnPost p other registers.old result registers.new }
{
    let q = p.min(other);
    if q < p {
        registers::lower_registers(registers, p, p - q);
    }
    q
}

// A row of precision p raises registers of precision q.
fn raise_by_row(registers: &mut [u8], q: u32, row: &[u8], p: u32)
    requires { RaiseByRowPre q p row.now registers.old }
    ensures { registers.new ≡ with_registers q (larger (registers_of q registers.old) (lowered (p - q) q row.now)) registers.old }
{
    if q < p {
        registers::downgrade_registers_max_into(row, p - q, registers, q);
    } else {
        registers::max_into(registers, row, q);
    }
}

// Values of precisions p and s raise registers of precision q.
fn raise_by_list(registers: &mut [u8], q: u32, p: u32, s: u32, values: &[u32])
    requires { RaiseByListPre q p s values.now registers.old }
    ensures { registers.new ≡ with_registers q (raised_lower p s (p - q) (registers_of q registers.old) values.now) registers.old }
{
    registers::set_registers(registers, Sparse::new(p, s), p - q, values);
}

// A row or values raise registers of precision q.
fn raise(registers: &mut [u8], q: u32, x: Incoming, row: &[u8], values: &[u32])
    requires { RaisePre q x row.now values.now registers.old }
    ensures { registers.new ≡ with_registers q (raised_to q x row.now values.now (registers_of q registers.old)) registers.old }
{
    if row.is_empty() {
        raise_by_list(registers, q, x.precision, x.sparse_precision, values);
    } else {
        raise_by_row(registers, q, row, x.precision);
    }
}

// ---- the path

impl Accumulator {
    // What comes to a dense roll-up. The head has the smaller of each precision then. Its kept bytes, which question 1 does not ask for, stay as they are.
    pub(crate) fn accept_dense(
        self,
        x: Incoming,
        memory: &mut Memory,
        row: &[u8],
        k: usize,
    ) -> Accumulator
        requires { DensePre self memory.old.registers.now memory.old.scratch.now x row.now k }
        ensures shows { Shows (dense_after self (mem_of memory.old) x row.now (take k memory.old.scratch.now)) result (mem_of memory.new) }
        ensures same { SameLent memory.old memory.new }
    {
        let (registers, scratch) = (&mut *memory.registers, &mut *memory.scratch);
        let values = &scratch[..];
        let q = lower_own(registers, self.precision, x.precision);
        raise(registers, q, x, row, &values[..k]);
        Accumulator {
            form: Form::Dense,
            precision: q,
            sparse_precision: signed_min(self.sparse_precision, x.sparse_precision),
            sparse_len: 0,
            pending_len: 0,
            ..self.counted(x)
        }
    }
}
