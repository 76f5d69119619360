// Writing a roll-up. Ported from `Accumulator::serialize`, `flushed_union_bytes`, `current_sparse_size` and `view` (here `fields`) in src/accumulator.rs of
// zetasketch-rs at commit 9abe68bf87 (Apache-2.0, see NOTICE). Changed: the output is lent and its length asked for before anything is written
// (23), the values that wait are sorted in place and merged into lent memory (17), the list goes from there into the output without a copy
// of its bytes, a list at the limit is refused (22), and a contract on every function.
ghost use Rattle.std.specs.Prelude.{◌≡◌, ℕ, ◌≤◌, true, List, [], length};
ghost use Rattle.std.proofs.Math.Option.{none, some};
ghost use Rattle.wire.specs.Encoding.{encode_step};
ghost use Rattle.lists.specs.Registers.{registers_of};
ghost use Rattle.rollup.specs.declared.accumulator.Form.TheVariants.{Sparse as ListForm};
ghost use Rattle.rollup.specs.Accumulator.{mem, fits as headFits};
ghost use Rattle.rollup.specs.Refusals.{answer_of, length_of};
ghost use Rattle.rollup.specs.Writing.{state_with, WritePost};
ghost use Rattle.rollup.specs.WritingPaths.{Writes, head_fields, list_outcome, ValuesPre, FlushPre, FlushPost};

use crate::accumulator::{Accumulator, Form};
use crate::fitting;
use crate::header::{ENCODING_VERSION, HYPERLOGLOG_PLUS_UNIQUE};
use crate::refusal::Refusal;
use lists::merging::Merged;
use lists::registers::register_bytes;
use lists::values::Sparse;
use lists::{merging, sorting};
use wire::state::{Fields, HllFields};
use wire::view::StateView;

impl Accumulator {
    // The fields of a state of the head's numbers, still without registers and without a list.
    fn fields(self, sparse_size: u32) -> Fields
        ensures { result ≡ head_fields self sparse_size }
    {
        let hll = HllFields {
            sparse_size,
            precision: self.precision,
            sparse_precision: self.sparse_precision,
            ..HllFields::default()
        };
        Fields {
            aggregator_type: HYPERLOGLOG_PLUS_UNIQUE,
            num_values: self.num_values,
            encoding_version: ENCODING_VERSION,
            value_type: self.value_type,
            hll,
        }
    }

    // ---- a list roll-up

    // 22 and 23, and then the head and the list. The list's bytes are made in the output, past the head, whose length is asked for first.
    fn write_values(
        self,
        size: u32,
        list: &[u32],
        bytes: usize,
        out: &mut [u8],
    ) -> Result<usize, Refusal>
        requires { ValuesPre self list.now bytes }
        ensures { Writes (list_outcome self size list.now (length out.old)) out.old (answer_of result) (length_of result) out.new }
    {
        if fitting::size_limit(self.precision) <= bytes {
            return Err(Refusal::ListTooLong);
        }
        // The list's bytes are put behind the head, so that the view has no bytes: how many they are is all that counts.
        let mut fields = self.fields(size);
        fields.hll.sparse_data_present = true;
        fields.hll.sparse_data.len = bytes;
        let view = StateView { bytes: b"", fields };
        let total = view.head_len() + bytes;
        if out.len() < total {
            return Err(Refusal::OutputTooShort);
        }
        let at = view.encode_head(out);
        merging::encode_sparse(list, &mut out[at..]);
        Ok(total)
    }

    // 17, and then the list: what is kept as it is where nothing waits, else all values as one list. Registers are not looked at. (Slices one by one, as in `write`
    // below.)
    fn write_list(
        self,
        sparse: &[u32],
        pending: &mut [u32],
        scratch: &mut [u32],
        out: &mut [u8],
    ) -> Result<usize, Refusal>
        requires { (self.form ≡ ListForm) × (headFits self (mem [] sparse.now pending.old) ≡ true) }
        ensures { (registers : List ℕ) → WritePost self (mem registers sparse.now pending.old) (length scratch.old) out.old (answer_of result) (length_of result) (mem registers sparse.now pending.new) out.new }
    {
        if scratch.len() < self.sparse_len + self.pending_len {
            return Err(Refusal::NoRoom);
        }
        let kept = &sparse[..self.sparse_len];
        if self.pending_len == 0 {
            return self.write_values(self.sparse_size, kept, merging::written_len(kept), out);
        }
        let enc = self.encoding();
        let u = flush_pending(enc, kept, &mut pending[..self.pending_len], scratch);
        let list = &scratch[..u.len];
        self.write_values(enc.distinct_indices(list) as u32, list, u.bytes, out)
    }

    // ---- a dense roll-up

    // 23, and then the state with the registers as its data.
    fn write_dense(self, registers: &[u8], out: &mut [u8]) -> Result<usize, Refusal>
        requires { self.precision ≤ 24 }
        ensures { Writes (encode_step (state_with self self.sparse_size (some (registers_of self.precision registers.now)) none) (length out.old)) out.old (answer_of result) (length_of result) out.new }
    {
        let mut fields = self.fields(self.sparse_size);
        fields.hll.data_present = true;
        fields.hll.data.len = register_bytes(self.precision);
        let view = StateView {
            bytes: registers,
            fields,
        };
        Ok(view.encode(out)?)
    }

    // ---- all of it. `registers` and `sparse` are only read, and C lends them const. So the slices are lent one by one: a `Memory` would ask callers for `&mut`.

    // 21, 17, 22 and 23, of a head that fits, and then the state. The answer is how many bytes were written.
    pub fn write_fitting(
        self,
        registers: &[u8],
        sparse: &[u32],
        pending: &mut [u32],
        scratch: &mut [u32],
        out: &mut [u8],
    ) -> Result<usize, Refusal>
        requires { headFits self (mem registers.now sparse.now pending.old) ≡ true }
        ensures { WritePost self (mem registers.now sparse.now pending.old) (length scratch.old) out.old (answer_of result) (length_of result) (mem registers.now sparse.now pending.new) out.new }
    {
        match self.form {
            Form::Unstarted => Err(Refusal::NotStarted),
            Form::Sparse => self.write_list(sparse, pending, scratch, out),
            Form::Dense => self.write_dense(registers, out),
        }
    }

    // Writes a roll-up as a state: document 01's questions in their order, and then the bytes, at the start of `out`. The values that wait are put in
    // order; the roll-up is otherwise as it was.
    pub fn write(
        self,
        registers: &[u8],
        sparse: &[u32],
        pending: &mut [u32],
        scratch: &mut [u32],
        out: &mut [u8],
    ) -> Result<usize, Refusal>
        ensures { WritePost self (mem registers.now sparse.now pending.old) (length scratch.old) out.old (answer_of result) (length_of result) (mem registers.now sparse.now pending.new) out.new }
    {
        if !self.fits(registers, sparse, &pending[..]) {
            return Err(Refusal::Misfit);
        }
        self.write_fitting(registers, sparse, pending, scratch, out)
    }
}

// The values that are kept and those that wait, as one list at the start of `scratch`, which is the spare of the sort before.
fn flush_pending(enc: Sparse, kept: &[u32], waiting: &mut [u32], scratch: &mut [u32]) -> Merged
    requires { FlushPre enc kept.now waiting.old scratch.old }
    ensures { FlushPost enc.normal_precision enc.sparse_precision kept.now waiting.old result waiting.new scratch.new }
{
    sorting::sort_runs(waiting, scratch);
    enc.merge_dedupe_into(kept, waiting, scratch)
}
