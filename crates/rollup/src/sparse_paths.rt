// The paths of a list roll-up. Ported from `merge_sparse` and `densify` in src/accumulator.rs of zetasketch-rs at commit 9abe68bf87 (Apache-2.0,
// see NOTICE). Changed: lent slices and counts in the head in the place of `Vec` and scratch swaps, a function for each path, one function that
// settles the list after a merge, and a contract on every function.
ghost use Rattle.std.specs.Prelude.{◌≡◌, ℕ, ◌+◌, ◌-◌, ◌<◌, ◌≤◌, true, List, ◌++◌, length, take};
ghost use Rattle.lists.specs.Sorting.{ascends, sort_of};
ghost use Rattle.lists.specs.Lists.{written, MergePost};
ghost use Rattle.lists.specs.Registers.{with_registers, zeros, raised_by, larger, SetListPre};
ghost use Rattle.rollup.specs.declared.accumulator.Form.TheVariants.{Sparse as ListForm};
ghost use Rattle.rollup.specs.Accumulator.{kept_of};
ghost use Rattle.rollup.specs.Lent.{mem_of, SameLent};
ghost use Rattle.rollup.specs.Taking.{densed, settle, all_merged, row_taken, as_waiting, sparse_after, Shows};
ghost use Rattle.rollup.specs.Stages.{SettlePre, Leaves, BackPre, MergeInPre, InsertInPre, SetListsPre, DensifyPre, TakingPre};

use crate::accumulator::{Accumulator, Form};
use crate::fitting;
use crate::incoming::Incoming;
use crate::memory::{Memory, append};
use crate::paths::Path;
use lists::merging::Merged;
use lists::values::Sparse;
use lists::{registers, sorting};

// ---- registers

// The registers of a list, whatever was there.
fn set_list(registers: &mut [u8], enc: Sparse, list: &[u32])
    requires { SetListPre enc 0 list.now registers.old }
    ensures { registers.new ≡ with_registers enc.normal_precision (raised_by enc.normal_precision enc.sparse_precision (zeros enc.normal_precision) list.now) registers.old }
{
    registers::clear_registers(registers, enc.normal_precision);
    registers::set_registers(registers, enc, 0, list);
}

// And those of two lists: of the values that are kept and those that wait.
pub fn set_lists(registers: &mut [u8], enc: Sparse, kept: &[u32], waiting: &[u32])
    requires { SetListsPre enc kept.now waiting.now registers.old }
    ensures { registers.new ≡ with_registers enc.normal_precision (raised_by enc.normal_precision enc.sparse_precision (zeros enc.normal_precision) (kept.now ++ waiting.now)) registers.old }
{
    set_list(registers, enc, kept);
    registers::set_registers(registers, enc, 0, waiting);
}

// ---- merging. A list comes whole and with its count: what is put behind the counted values needs the room.

// The first k values of `scratch` go behind the w that wait, and all these are put in order: where none waited, they are in order already. `scratch` is the spare
// of the sort.
fn join_waiting(pending: &mut [u32], w: usize, scratch: &mut [u32], k: usize)
    requires { (w + k ≤ length pending.old) × (w + k ≤ length scratch.old) × (ascends (take k scratch.old) ≡ true) }
    ensures { take (w + k) pending.new ≡ sort_of (take w pending.old ++ take k scratch.old) }
{
    append(pending, w, &scratch[..k]);
    if w != 0 {
        sorting::sort_runs(&mut pending[..w + k], scratch);
    }
}

// The first n values of `sparse`, merged with those of an ordered list.
fn merge_back(
    enc: Sparse,
    sparse: &mut [u32],
    n: usize,
    incoming: &[u32],
    scratch: &mut [u32],
) -> Merged
    requires { BackPre enc sparse.old n incoming.now scratch.old }
    ensures { MergePost enc.normal_precision enc.sparse_precision (take n sparse.old) incoming.now result sparse.new }
{
    let r = enc.merge_dedupe_into(&sparse[..n], incoming, scratch);
    append(sparse, 0, &scratch[..r.len]);
    r
}

// ---- the paths. `self` has the mask and the count of what comes in already.

impl Accumulator {
    fn densed(self) -> Accumulator
        ensures { result ≡ densed self }
    {
        Accumulator {
            form: Form::Dense,
            sparse_size: 0,
            sparse_len: 0,
            sparse_bytes: 0,
            pending_len: 0,
            ..self
        }
    }

    // After a merge: the list's numbers, or its registers where it has grown to the limit.
    fn settle(self, enc: Sparse, registers: &mut [u8], sparse: &[u32], r: Merged) -> Accumulator
        requires { SettlePre self enc registers.old sparse.now r }
        ensures { Leaves (settle self registers.old (take r.len sparse.now) r.bytes) result registers.new }
    {
        if r.bytes < fitting::size_limit(self.precision) {
            return Accumulator {
                form: Form::Sparse,
                sparse_size: r.len as u32,
                sparse_len: r.len,
                sparse_bytes: r.bytes,
                pending_len: 0,
                ..self
            };
        }
        set_list(registers, enc, &sparse[..r.len]);
        self.densed()
    }

    // Registers turn the list into registers, those that wait too, and then each becomes the larger of itself and the one that comes in.
    fn densify_with(self, memory: &mut Memory, row: &[u8]) -> Accumulator
        requires { DensifyPre self memory.old.registers.now memory.old.sparse.now memory.old.pending.now row.now }
        ensures shows { Shows (row_taken self (mem_of memory.old) row.now) result (mem_of memory.new) }
        ensures same { SameLent memory.old memory.new }
    {
        let (registers, sparse, pending) = (
            &mut *memory.registers,
            &mut *memory.sparse,
            &mut *memory.pending,
        );
        let (sparse, pending) = (&sparse[..], &pending[..]);
        set_lists(
            registers,
            self.encoding(),
            &sparse[..self.sparse_len],
            &pending[..self.pending_len],
        );
        registers::max_into(registers, row, self.precision);
        self.densed()
    }

    // The values go after those that wait.
    fn wait(self, memory: &mut Memory, k: usize) -> Accumulator
        requires { (self.form ≡ ListForm) × (k ≤ length memory.old.scratch.now) × (self.pending_len + k ≤ length memory.old.pending.now) }
        ensures shows { Shows (as_waiting self (mem_of memory.old) (take k memory.old.scratch.now)) result (mem_of memory.new) }
        ensures same { SameLent memory.old memory.new }
    {
        let (pending, scratch) = (&mut *memory.pending, &mut *memory.scratch);
        let values = &scratch[..];
        append(pending, self.pending_len, &values[..k]);
        Accumulator {
            pending_len: self.pending_len + k,
            ..self
        }
    }

    // All values become one list: those kept, those that wait and those that come in. It is settled.
    fn merge_in(self, memory: &mut Memory, k: usize) -> Accumulator
        requires { MergeInPre self memory.old.registers.now memory.old.sparse.now memory.old.pending.now memory.old.scratch.now k }
        ensures shows { Shows (settle self memory.old.registers.now (all_merged self (mem_of memory.old) (take k memory.old.scratch.now)) (written (all_merged self (mem_of memory.old) (take k memory.old.scratch.now)))) result (mem_of memory.new) }
        ensures same { SameLent memory.old memory.new }
    {
        let enc = self.encoding();
        let (registers, sparse, pending, scratch) = (
            &mut *memory.registers,
            &mut *memory.sparse,
            &mut *memory.pending,
            &mut *memory.scratch,
        );
        let w = self.pending_len;
        join_waiting(pending, w, scratch, k);
        let all = &pending[..];
        let r = merge_back(enc, sparse, self.sparse_len, &all[..w + k], scratch);
        self.settle(enc, registers, sparse, r)
    }

    // The same by insertion, where none wait: few values that come to a long list.
    fn insert_in(self, memory: &mut Memory, k: usize) -> Accumulator
        requires { InsertInPre self memory.old.registers.now memory.old.sparse.now memory.old.scratch.now k }
        ensures shows { Shows (settle self memory.old.registers.now (all_merged self (mem_of memory.old) (take k memory.old.scratch.now)) (self.sparse_bytes + written (all_merged self (mem_of memory.old) (take k memory.old.scratch.now)) - written (kept_of self (mem_of memory.old)))) result (mem_of memory.new) }
        ensures same { SameLent memory.old memory.new }
    {
        let enc = self.encoding();
        let (registers, sparse, scratch) = (
            &mut *memory.registers,
            &mut *memory.sparse,
            &mut *memory.scratch,
        );
        let values = &scratch[..];
        let kept = Merged {
            len: self.sparse_len,
            bytes: self.sparse_bytes,
        };
        let r = enc.insert_dedupe(sparse, kept, &values[..k]);
        self.settle(enc, registers, sparse, r)
    }

    // What comes to a list roll-up. Registers turn it dense; without values nothing but the mask and the count changes.
    pub(crate) fn accept_sparse(
        self,
        x: Incoming,
        path: Option<Path>,
        memory: &mut Memory,
        row: &[u8],
        k: usize,
    ) -> Accumulator
        requires { (self.form ≡ ListForm) × TakingPre self (mem_of memory.old) memory.old.scratch.now x path row.now k }
        ensures shows { Shows (sparse_after self (mem_of memory.old) x row.now (take k memory.old.scratch.now)) result (mem_of memory.new) }
        ensures same { SameLent memory.old memory.new }
    {
        let h = self.counted(x);
        if !row.is_empty() {
            return h.densify_with(memory, row);
        }
        match path {
            None => h,
            Some(Path::Waits) => h.wait(memory, k),
            Some(Path::Inserts) => h.insert_in(memory, k),
            Some(Path::Sorts | Path::Merges) => h.merge_in(memory, k),
        }
    }
}
