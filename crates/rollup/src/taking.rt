// Taking in, by the roll-up's form.
ghost use Rattle.std.specs.Prelude.{take as front};
ghost use Rattle.rollup.specs.Lent.{mem_of, SameLent};
ghost use Rattle.rollup.specs.Taking.{taken_after, Shows};
ghost use Rattle.rollup.specs.Stages.{TakingPre};

use crate::accumulator::{Accumulator, Form};
use crate::incoming::Incoming;
use crate::memory::Memory;
use crate::paths::Path;
use crate::starting;

impl Accumulator {
    // What comes in takes its path. The first k cells of `scratch` hold its values, `row` its registers.
    pub(crate) fn take(
        self,
        x: Incoming,
        path: Option<Path>,
        memory: &mut Memory,
        row: &[u8],
        k: usize,
    ) -> Accumulator
        requires { TakingPre self (mem_of memory.old) memory.old.scratch.now x path row.now k }
        ensures shows { Shows (taken_after self.form self (mem_of memory.old) x row.now (front k memory.old.scratch.now)) result (mem_of memory.new) }
        ensures same { SameLent memory.old memory.new }
    {
        match self.form {
            Form::Unstarted => starting::start(x, memory, row, k),
            Form::Sparse => self.accept_sparse(x, path, memory, row, k),
            Form::Dense => self.accept_dense(x, memory, row, k),
        }
    }
}
