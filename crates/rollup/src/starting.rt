// What is taken in first. Ported from `start` in src/accumulator.rs of zetasketch-rs at commit 9abe68bf87 (Apache-2.0, see NOTICE). Changed: lent slices in the place
// of `Vec`, and a contract on every function.
ghost use Rattle.std.specs.Prelude.{◌≡◌, take};
ghost use Rattle.rollup.specs.Lent.{mem_of, SameLent};
ghost use Rattle.rollup.specs.Taking.{start_after, Shows};
ghost use Rattle.rollup.specs.Stages.{StartPre};

use crate::accumulator::{Accumulator, Form};
use crate::incoming::Incoming;
use crate::memory::{Memory, append};
use lists::registers;

// "The first state sets the head. Its list goes to kept, repeats included, and kept bytes is its field's length, L unchecked." The first k cells of `scratch` are its
// values.
pub(crate) fn start(x: Incoming, memory: &mut Memory, row: &[u8], k: usize) -> Accumulator
    requires { StartPre memory.old.registers.now memory.old.sparse.now memory.old.scratch.now x row.now k }
    ensures shows { Shows (start_after (mem_of memory.old) x row.now (take k memory.old.scratch.now)) result (mem_of memory.new) }
    ensures same { SameLent memory.old memory.new }
{
    let head = Accumulator {
        allowed: x.mask,
        value_type: x.value_type,
        num_values: x.num_values,
        precision: x.precision,
        sparse_precision: x.sparse_precision,
        sparse_size: x.sparse_size,
        ..Accumulator::new()
    };
    if !row.is_empty() {
        registers::load_registers(memory.registers, row, x.precision);
        return Accumulator {
            form: Form::Dense,
            ..head
        };
    }
    let (sparse, scratch) = (&mut *memory.sparse, &mut *memory.scratch);
    let values = &scratch[..];
    append(sparse, 0, &values[..k]);
    Accumulator {
        form: Form::Sparse,
        sparse_len: k,
        sparse_bytes: x.list_bytes,
        ..head
    }
}
