// Values of a sparse list and their ranks. Ported from `Sparse`, `compute_rho_w` and `downgrade_rho_w` in src/encoding.rs of zetasketch-rs at
// commit 9abe68bf87 (Apache-2.0, see NOTICE). Changed: unsigned precisions, the difference of two precisions in the place of both, low bits
// masked in the place of shifted up, and a contract on every function. With s = p no plain value and none with m = 0 is valid, so that the
// rank by no bits has no case of its own (document 02, U3).
ghost use Rattle.std.specs.Prelude.{◌≡◌, ◌+◌, ◌<◌, ◌≤◌, true};
ghost use Rattle.lists.specs.Values.{Pair, IndexPost, RankPost, mark, marked, plain_end, marked_end, least_marked_rank, marked_rank_fits, valid, sparse_index, plain_rank, largest_rank, lowered_rank};

// How many low bits of a marked value are its m, and the end of the values of m.
pub(crate) const RHOW_BITS: u32 = 6;

pub(crate) const RHOW_END: u32 = 1 << RHOW_BITS;

// A pair of precisions that a list can have, with the mark that goes with it.
#[derive(Clone, Copy, Debug, PartialEq, Eq)]
pub struct Sparse {
    pub normal_precision: u32,
    pub sparse_precision: u32,
    pub rho_encoded_flag: u32,
    pub ghost pair: { Pair normal_precision sparse_precision },
    pub ghost flag: { rho_encoded_flag ≡ mark normal_precision sparse_precision },
}

impl Sparse {
    ghost use Rattle.lists.specs.Pairs.{NewPost};

    pub fn new(normal_precision: u32, sparse_precision: u32) -> Sparse
        requires { Pair normal_precision sparse_precision }
        ensures { NewPost normal_precision sparse_precision result }
    {
        Sparse {
            normal_precision,
            sparse_precision,
            rho_encoded_flag: 1 << sparse_precision.max(normal_precision + RHOW_BITS),
        }
    }

    // Whether a value has the mark.
    #[tactic(auto, using(crate::proofs::ValueLaws::code_marked))]
    pub fn is_rho_encoded(self, v: u32) -> bool
        ensures { result ≡ marked self.normal_precision self.sparse_precision v }
    {
        v & self.rho_encoded_flag != 0
    }

    // The least low six bits of a marked value: with s = p they are its rank, which is not 0.
    #[tactic(auto, using(crate::proofs::ValueLaws::truth, crate::proofs::ValueLaws::truth_le), unfolding(crate::specs::Values::least_marked_rank))]
    fn least_marked_rank(self) -> u32
        ensures { (result ≡ least_marked_rank self.normal_precision self.sparse_precision) × (result ≤ 1) }
    {
        u32::from(self.sparse_precision == self.normal_precision)
    }

    // The end of the plain values, of which there is none with s = p. A choice between two ends would stay in a loop over many values.
    #[tactic(auto, using(crate::proofs::ValueLaws::code_plain_end))]
    fn plain_end(self) -> u32
        ensures { result ≡ plain_end self.normal_precision self.sparse_precision }
    {
        (1 - self.least_marked_rank()) << self.sparse_precision
    }

    // The end of the marked values, whose index stands between the low six bits and the mark.
    #[tactic(auto, using(crate::proofs::ValueLaws::code_end, crate::proofs::ValueLaws::code_end_fits))]
    pub(crate) fn marked_end(self) -> u32
        ensures { result ≡ marked_end self.normal_precision self.sparse_precision }
    {
        self.rho_encoded_flag + (RHOW_END << self.normal_precision)
    }

    // Whether the low six bits of a marked value are those of a rank, from the least to 65 - s, by one comparison: one less than the least wraps to 63.
    #[tactic(auto, using(crate::proofs::ValueLaws::least_taken, crate::proofs::ValueLaws::code_rank))]
    pub(crate) fn marked_rank_fits(self, v: u32) -> bool
        requires { marked self.normal_precision self.sparse_precision v ≡ true }
        ensures { result ≡ marked_rank_fits self.normal_precision self.sparse_precision v }
    {
        let least = self.least_marked_rank();
        (v - least) % RHOW_END <= 65 - self.sparse_precision - least
    }

    // Whether a list of this pair may have a value.
    pub fn is_valid(self, v: u32) -> bool
        ensures { result ≡ valid self.normal_precision self.sparse_precision v }
    {
        if self.is_rho_encoded(v) {
            v < self.marked_end() && self.marked_rank_fits(v)
        } else {
            v < self.plain_end()
        }
    }

    // The index of a value among 2^s. (This and the next two ask that the value is valid: a newtype with a ghost field would be made of each value in the loops that
    // call them, and opened here.)
    #[tactic(auto, using(crate::proofs::ValueLaws::sparse_plain, crate::proofs::ValueLaws::code_ge, crate::proofs::ValueLaws::code_sparse))]
    pub fn decode_sparse_index(self, v: u32) -> u32
        requires { valid self.normal_precision self.sparse_precision v ≡ true }
        ensures { result ≡ sparse_index self.normal_precision self.sparse_precision v }
    {
        if self.is_rho_encoded(v) {
            ((v - self.rho_encoded_flag) / RHOW_END)
                << (self.sparse_precision - self.normal_precision)
        } else {
            v
        }
    }

    // The register of a value, among 2^p.
    pub fn decode_normal_index(self, v: u32) -> u32
        requires { valid self.normal_precision self.sparse_precision v ≡ true }
        ensures { IndexPost self.normal_precision self.sparse_precision v result }
    {
        if self.is_rho_encoded(v) {
            (v - self.rho_encoded_flag) / RHOW_END
        } else {
            v >> (self.sparse_precision - self.normal_precision)
        }
    }

    // The rank of a value.
    pub fn decode_normal_rho_w(self, v: u32) -> u8
        requires { valid self.normal_precision self.sparse_precision v ≡ true }
        ensures { RankPost self.normal_precision self.sparse_precision v result }
    {
        let bits = self.sparse_precision - self.normal_precision;
        if self.is_rho_encoded(v) {
            (v % RHOW_END + bits) as u8
        } else {
            compute_rho_w(v, bits)
        }
    }
}

// 1 plus the leading zeros of the low bits.
#[tactic(auto, using(crate::proofs::ValueLaws::zeros32_low, crate::proofs::ValueLaws::code_bits))]
pub fn compute_rho_w(value: u32, bits: u32) -> u8
    requires { bits ≤ 25 }
    ensures { result ≡ plain_rank bits value }
{
    let low = value & ((1 << bits) - 1);
    (low.leading_zeros() + bits - 31) as u8
}

// The largest rank of a register at p bits.
pub fn largest_rank(p: u32) -> u8
    requires { p ≤ 24 }
    ensures { result ≡ largest_rank p }
{
    (65 - p) as u8
}

// The rank that a register, or a listed value, of rank `rho_w` has d bits lower.
#[tactic(auto, using(crate::proofs::ValueLaws::zeros32_low, crate::proofs::ValueLaws::code_lowered_zero, crate::proofs::ValueLaws::code_lowered_bits))]
pub fn downgrade_rho_w(index: u32, rho_w: u8, d: u32) -> u8
    requires { (d ≤ 20) × (rho_w + d < 256) }
    ensures { result ≡ lowered_rank d index rho_w }
{
    let low = index & ((1 << d) - 1);
    if low == 0 {
        rho_w + d as u8
    } else {
        (low.leading_zeros() + d - 31) as u8
    }
}
