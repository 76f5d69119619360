// Reading a list. Ported from `decode_validated_each` and `decode_validated_into` in src/encoding.rs of zetasketch-rs at commit 9abe68bf87
// (Apache-2.0, see NOTICE). Changed: a gap is read by a function of its own, unrolled, and one value by another; values go into a lent
// slice in the place of a closure; an error with document 01's number in the place of one with a string; with s = p an m of 0 is refused where it is read
// (document 02, U3), and at the end the index alone of the last value is tested.
ghost use Rattle.std.specs.Prelude.{◌≡◌, ◌≤◌, length};
ghost use Rattle.lists.specs.Lists.{BytePost, GapPost, NextValuePost, refused_here, no_plain, later_plain, ends_valid, DecodePost};

use crate::values::Sparse;

// Why a list is refused, by document 01's numbers.
#[derive(Clone, Copy, Debug, PartialEq, Eq)]
pub enum DecodeError {
    // The bytes end inside a gap.
    TruncatedGap = 18,
    // The fifth byte of a gap has a bit of f0.
    GapTooLong = 19,
    // A value is less than the one before it, or no value of a list of this pair.
    InvalidValue = 20,
}

// The byte at `at`, of a gap that does not end before it.
fn gap_byte(bytes: &[u8], at: usize) -> Result<u32, DecodeError>
    ensures { BytePost bytes.now at result }
{
    match bytes.get(at) {
        Some(&b) => Ok(u32::from(b)),
        None => Err(DecodeError::TruncatedGap),
    }
}

// The gap at `at`, and the position after it. The five bytes are read one after the other, without a loop. A byte that another follows has 128 too much, which
// makes just the weight of the next: it is taken off where that one is added. Only the sum and one byte are in hand at a time, so that the loop around it keeps its
// numbers in registers.
fn read_gap(bytes: &[u8], at: usize) -> Result<(u32, usize), DecodeError>
    ensures { GapPost bytes.now at result }
{
    let a = gap_byte(bytes, at)?;
    if a < 128 {
        return Ok((a, at + 1));
    }
    let b = gap_byte(bytes, at + 1)?;
    let two = a - 128 + b * 128;
    if b < 128 {
        return Ok((two, at + 2));
    }
    let c = gap_byte(bytes, at + 2)?;
    let three = two - 16384 + c * 16384;
    if c < 128 {
        return Ok((three, at + 3));
    }
    let d = gap_byte(bytes, at + 3)?;
    let four = three - 2097152 + d * 2097152;
    if d < 128 {
        return Ok((four, at + 4));
    }
    let e = gap_byte(bytes, at + 4)?;
    if e < 16 {
        return Ok((four - 268435456 + e * 268435456, at + 5));
    }
    Err(DecodeError::GapTooLong)
}

impl Sparse {
    // Whether a value after `last` is refused where it is read.
    fn refused_here(self, last: u32, v: u32) -> bool
        ensures { result ≡ refused_here self.normal_precision self.sparse_precision last v }
    {
        v < last || self.is_rho_encoded(v) && !self.marked_rank_fits(v)
    }

    // The value after `last`, whose gap is at `at`, and the position after that.
    pub fn next_value(self, bytes: &[u8], at: usize, last: u32) -> Result<(u32, usize), DecodeError>
        ensures { NextValuePost self.normal_precision self.sparse_precision bytes.now at last result }
    {
        let (gap, next) = read_gap(bytes, at)?;
        let v = last.wrapping_add(gap);
        if self.refused_here(last, v) {
            return Err(DecodeError::InvalidValue);
        }
        Ok((v, next))
    }

    // What stands for the last value with the mark bit clear before there is one. It is valid at every pair, so that the test at the end needs no case for it, as
    // it would for an `Option`.
    pub fn no_plain(self) -> u32
        ensures { result ≡ no_plain self.normal_precision self.sparse_precision }
    {
        self.rho_encoded_flag + 1
    }

    // The last value with the mark bit clear, where v comes after `plain`.
    pub fn later_plain(self, plain: u32, v: u32) -> u32
        ensures { result ≡ later_plain self.normal_precision self.sparse_precision plain v }
    {
        if self.is_rho_encoded(v) { plain } else { v }
    }

    // Whether every value of a list is valid, by two of them: the last one with the mark bit clear, or `no_plain`, and the last one of all, or 0. The values do
    // not descend, so that no plain one is above the first of these, and no index above that of the second: the others are not tested at the end.
    pub fn ends_valid(self, plain: u32, last: u32) -> bool
        ensures { result ≡ ends_valid self.normal_precision self.sparse_precision plain last }
    {
        self.is_valid(plain) && last < self.marked_end()
    }

    // A list's values, into `out`: how many they are.
    pub fn decode_validated_into(self, bytes: &[u8], out: &mut [u32]) -> Result<usize, DecodeError>
        requires { length bytes.now ≤ length out.old }
        ensures { DecodePost self.normal_precision self.sparse_precision bytes.now out.old result out.new }
    {
        let mut at: usize = 0;
        let mut k: usize = 0;
        let mut last: u32 = 0;
        let mut plain = self.no_plain();
        // A gap has a byte or more, so no iterator goes along; `k` is the answer, too.
        while at < bytes.len() {
            let (v, next) = self.next_value(bytes, at, last)?;
            out[k] = v;
            plain = self.later_plain(plain, v);
            last = v;
            k += 1;
            at = next;
        }
        if self.ends_valid(plain, last) {
            Ok(k)
        } else {
            Err(DecodeError::InvalidValue)
        }
    }
}
