// Question 1: whether a head fits the memory that is lent with it. Nothing of either is taken on trust, so no sum is made before
// its parts are known to be small, and no part of a slice is taken before its count is known to lie inside. Four functions ask that p is from 4 to 24: a type for such
// a p would be made and opened in each caller.
ghost use Rattle.std.specs.Prelude.{◌≡◌, ◌≤◌, []};
ghost use Rattle.lists.specs.Values.{Pair};
ghost use Rattle.rollup.specs.Accumulator.{mem, limit, max_pending, ranges_fit, no_lists, waiting_bound, waiting_fits, counts_fit, lists_fit, registers_fit, sparse_fits, dense_fits, fits as headFits};
ghost use Rattle.rollup.specs.Lent.{mem_of};

use crate::accumulator::{Accumulator, Form, MAX_PENDING, MAX_STATE_BYTES, MAX_VALUE_BYTES};
use crate::header;
use crate::memory::Memory;
use lists::registers::{largest_register, register_bytes};
use lists::{checking, merging, values};

// Whether the precisions are those that a list can have.
fn ranges_fit(p: u32, s: u32) -> bool
    ensures { result ≡ ranges_fit p s }
{
    header::check_normal_precision(p) && header::check_sparse_precision(p, s)
}

// The number of bytes from which on a list turns dense, document 01's L. Ported from `max_sparse_bytes` in src/accumulator.rs of zetasketch-rs at commit
// 9abe68bf87 (Apache-2.0, see NOTICE). Changed: whole numbers in the place of floats.
pub(crate) fn size_limit(p: u32) -> usize
    requires { (4 ≤ p) × (p ≤ 24) }
    ensures { (result ≡ limit p) × (result ≤ 12582912) }
{
    3 * (1 << (p - 2))
}

// Whether the registers of a precision are there, and none is too large.
fn registers_fit(p: u32, registers: &[u8]) -> bool
    requires { (4 ≤ p) × (p ≤ 24) }
    ensures { result ≡ registers_fit p registers.now }
{
    register_bytes(p) <= registers.len()
        && largest_register(registers, p) <= values::largest_rank(p)
}

impl Accumulator {
    // Whether both counts are 0.
    fn no_lists(self) -> bool
        ensures { result ≡ no_lists self }
    {
        self.sparse_len == 0 && self.pending_len == 0
    }

    // Kept bytes, and five for each value that waits.
    pub(crate) fn waiting_bound(self) -> usize
        requires { (self.pending_len ≤ max_pending) × (self.sparse_bytes ≤ 2147483647) }
        ensures { (result ≡ waiting_bound self) × (result ≤ 2147493887) }
    {
        self.sparse_bytes + MAX_VALUE_BYTES * self.pending_len
    }

    // Whether the values that wait leave the list below the limit.
    fn waiting_fits(self) -> bool
        requires { (4 ≤ self.precision) × (self.precision ≤ 24) × (self.pending_len ≤ max_pending) × (self.sparse_bytes ≤ 2147483647) }
        ensures { result ≡ waiting_fits self }
    {
        self.pending_len == 0 || self.waiting_bound() < size_limit(self.precision)
    }

    // Whether the counts fit lists of `cells` and `waiting_cells` cells, and each other.
    #[tactic(auto, unfolding(crate::specs::Accumulator::counts_fit))]
    fn counts_fit(self, cells: usize, waiting_cells: usize) -> bool
        requires { (4 ≤ self.precision) × (self.precision ≤ 24) }
        ensures { result ≡ counts_fit self cells waiting_cells }
    {
        self.sparse_len <= cells
            && self.pending_len <= waiting_cells
            && self.pending_len <= MAX_PENDING
            && self.sparse_bytes <= MAX_STATE_BYTES
            && self.waiting_fits()
    }

    // Whether the values are valid, those kept in order, and their bytes counted.
    #[tactic(auto, unfolding(crate::specs::Accumulator::lists_fit))]
    fn lists_fit(self, kept: &[u32], waiting: &[u32]) -> bool
        requires { Pair self.precision self.sparse_precision }
        ensures { result ≡ lists_fit self kept.now waiting.now }
    {
        let enc = self.encoding();
        enc.all_valid(waiting)
            && checking::is_ascending(kept)
            && enc.all_valid_ascending(kept)
            && merging::written_len(kept) <= self.sparse_bytes
    }

    // Whether a list roll-up fits. Of the memory only the two lists count.
    #[tactic(auto, using(crate::proofs::FitLaws::counts_of))]
    fn sparse_fits(self, sparse: &[u32], pending: &[u32]) -> bool
        ensures { result ≡ sparse_fits self (mem [] sparse.now pending.now) }
    {
        ranges_fit(self.precision, self.sparse_precision)
            && self.counts_fit(sparse.len(), pending.len())
            && self.lists_fit(&sparse[..self.sparse_len], &pending[..self.pending_len])
    }

    // Whether a dense roll-up fits. Of the memory only the registers count.
    fn dense_fits(self, registers: &[u8]) -> bool
        ensures { result ≡ dense_fits self (mem registers.now [] []) }
    {
        header::check_normal_precision(self.precision)
            && self.sparse_precision != 0
            && self.no_lists()
            && registers_fit(self.precision, registers)
    }

    // Whether a head of any form fits. It takes the slices that it reads and no `Memory`, since `write` has two of them as `&` only: C lends them const.
    #[tactic(auto, unfolding(crate::specs::Accumulator::fits))]
    pub fn fits(self, registers: &[u8], sparse: &[u32], pending: &[u32]) -> bool
        ensures { result ≡ headFits self (mem registers.now sparse.now pending.now) }
    {
        match self.form {
            Form::Unstarted => self.no_lists(),
            Form::Sparse => self.sparse_fits(sparse, pending),
            Form::Dense => self.dense_fits(registers),
        }
    }

    // The same of a whole `Memory`.
    pub fn fits_in(self, memory: &Memory) -> bool
        ensures { result ≡ headFits self (mem_of memory.now) }
    {
        self.fits(memory.registers, memory.sparse, memory.pending)
    }
}
