// Registers. Ported from `set_register` and `max_into` in src/accumulator.rs and `downgrade_registers_max_into` in src/encoding.rs of
// zetasketch-rs at commit 9abe68bf87 (Apache-2.0, see NOTICE). Changed: a lent slice and a precision in the place of `Vec`, a scan register by
// register for the first that is not zero, and lowering in place.
//
// A register is a byte: `read_register`, `store_register` and `raise_register` alone know it, and every loop over registers goes through them, by index. Registers of a
// precision fill whole bytes, so that all of them are copied and cleared as bytes. They stay a slice and a precision: a struct that held a lent slice would
// owe in each contract that it is still the same slice, and want a second type for registers that are only read.
ghost use Rattle.std.specs.Prelude.{◌≡◌, ◌+◌, ◌-◌, ◌/◌, ◌^◌, ◌<◌, ◌≤◌};
ghost use Rattle.lists.specs.Registers.{register_bytes, registers_of, with_registers, zeros, larger, lowered, not_zero_count, largest, lowered_in_place, offset_rank, Holds, HoldsFirst, ReadPost, StorePost, RaisePost, BothHold, ScanPre, ScanPost, LowerPre, BlockPre, BlockPost, DowngradePre, raise, raised_lower, SetPre, SetListPre};
ghost use Rattle.lists.specs.Values.{register, rank, lowered_rank};

use crate::values;
use crate::values::Sparse;

// How many registers a precision has. The shift is of 32 bits: of `i < 1 << p` in 64 bits LLVM makes a shift of i, and then a loop takes one register a turn.
fn register_count(p: u32) -> usize
    requires { p ≤ 24 }
    ensures { (result ≡ 2 ^ p) × (result ≤ 16777216) }
{
    (1u32 << p) as usize
}

// How many bytes the registers of a precision take.
#[tactic(auto, using(crate::proofs::RegisterLaws::bytes_count))]
pub fn register_bytes(p: u32) -> usize
    requires { p ≤ 24 }
    ensures { (result ≡ register_bytes p) × (result ≤ 16777216) }
{
    register_count(p)
}

// The register at an index.
pub fn read_register(registers: &[u8], i: usize) -> u8
    requires { HoldsFirst (i + 1) registers.now }
    ensures { ReadPost registers.now i result }
{
    registers[i]
}

// Another register at an index.
fn store_register(registers: &mut [u8], i: usize, r: u8)
    requires { HoldsFirst (i + 1) registers.old }
    ensures { StorePost registers.old i r registers.new }
{
    registers[i] = r;
}

// The register at an index becomes a rank, unless it is larger.
pub fn raise_register(registers: &mut [u8], i: usize, rank: u8)
    requires { HoldsFirst (i + 1) registers.old }
    ensures { RaisePost registers.old i rank registers.new }
{
    registers[i] = registers[i].max(rank);
}

// Each register becomes the larger of itself and the source's.
pub fn max_into(target: &mut [u8], source: &[u8], p: u32)
    requires { BothHold p target.old source.now }
    ensures { target.new ≡ with_registers p (larger (registers_of p target.old) (registers_of p source.now)) target.old }
{
    for i in 0..register_count(p) {
        raise_register(target, i, read_register(source, i));
    }
}

// The registers become the source's.
#[tactic(auto, using(crate::proofs::RegisterLaws::loaded))]
pub fn load_registers(target: &mut [u8], source: &[u8], p: u32)
    requires { BothHold p target.old source.now }
    ensures { target.new ≡ with_registers p (registers_of p source.now) target.old }
{
    let n = register_bytes(p);
    target[..n].copy_from_slice(&source[..n]);
}

// All registers become zero.
pub fn clear_registers(registers: &mut [u8], p: u32)
    requires { Holds p registers.old }
    ensures { registers.new ≡ with_registers p (zeros p) registers.old }
{
    registers[..register_bytes(p)].fill(0);
}

// How many registers are not zero.
pub fn count_not_zero(registers: &[u8], p: u32) -> usize
    requires { Holds p registers.now }
    ensures { result ≡ not_zero_count (registers_of p registers.now) }
{
    let mut count = 0;
    for i in 0..register_count(p) {
        count += usize::from(read_register(registers, i) != 0);
    }
    count
}

// The largest register.
pub fn largest_register(registers: &[u8], p: u32) -> u8
    requires { Holds p registers.now }
    ensures { result ≡ largest (registers_of p registers.now) }
{
    let mut top: u8 = 0;
    for i in 0..register_count(p) {
        top = top.max(read_register(registers, i));
    }
    top
}

// The first index from `from` on, and before `to`, whose register is not zero, or `to`. `find` would be no plainer: its closure reads a register, so that it would
// need a contract of its own.
fn first_not_zero(registers: &[u8], from: usize, to: usize) -> usize
    requires { ScanPre from to registers.now }
    ensures { ScanPost registers.now from to result }
{
    for i in from..to {
        if read_register(registers, i) != 0 {
            return i;
        }
    }
    to
}

// d less the place of o's top bit, which is 0 for 2^d: no case of its own for a block with no such register.
fn offset_rank(o: u32, d: u32) -> u8
    requires { (0 < o) × (o ≤ 2 ^ d) × (d ≤ 24) }
    ensures { result ≡ offset_rank d o }
{
    (o.leading_zeros() + d - 31) as u8
}

// Register t of those lowered by d bits: 2^d registers land on it. The first of these gives more than any other where it is not zero, and else the
// first that is not zero does, since a smaller offset has a larger rank.
fn lowered_block(registers: &[u8], d: u32, t: usize) -> u8
    requires { BlockPre d t registers.now }
    ensures { BlockPost registers.now d t result }
{
    let block = register_count(d);
    let from = t * block;
    let r = read_register(registers, from);
    if r != 0 {
        return r + d as u8;
    }
    let at = first_not_zero(registers, from + 1, from + block);
    offset_rank((at - from) as u32, d)
}

// Each of 2^q registers becomes the larger of itself and the source's, of precision q + d, lowered to it.
pub fn downgrade_registers_max_into(source: &[u8], d: u32, target: &mut [u8], q: u32)
    requires { DowngradePre q d source.now target.old }
    ensures { target.new ≡ with_registers q (larger (registers_of q target.old) (lowered d q (registers_of (q + d) source.now))) target.old }
{
    for t in 0..register_count(q) {
        raise_register(target, t, lowered_block(source, d, t));
    }
}

// Registers of precision p become those of p - d, and the freed ones zero. A block is read before anything is stored in it or past it.
pub fn lower_registers(registers: &mut [u8], p: u32, d: u32)
    requires { LowerPre p d registers.old }
    ensures { registers.new ≡ with_registers p (lowered_in_place p (p - d) (registers_of p registers.old)) registers.old }
{
    for t in 0..register_count(p - d) {
        let r = lowered_block(registers, d, t);
        store_register(registers, t, r);
    }
    registers[register_bytes(p - d)..register_bytes(p)].fill(0);
}

// A listed value raises its register to its rank, both d bits lower. A plain value is read at the lower precision, with d bits more below its register, and a
// marked one is lowered. With both lowered, a list at the registers' own precision takes 1.6 to 1.9 times as long.
pub fn set_register(registers: &mut [u8], enc: Sparse, d: u32, v: u32)
    requires { SetPre enc d v registers.old }
    ensures { registers.new ≡ with_registers (enc.normal_precision - d) (raise (registers_of (enc.normal_precision - d) registers.old) (register enc.normal_precision enc.sparse_precision v / 2 ^ d) (lowered_rank d (register enc.normal_precision enc.sparse_precision v) (rank enc.normal_precision enc.sparse_precision v))) registers.old }
{
    if enc.is_rho_encoded(v) {
        let i = enc.decode_normal_index(v);
        let r = values::downgrade_rho_w(i, enc.decode_normal_rho_w(v), d);
        raise_register(registers, (i >> d) as usize, r);
    } else {
        let bits = enc.sparse_precision - enc.normal_precision + d;
        let r = values::compute_rho_w(v, bits);
        raise_register(registers, (v >> bits) as usize, r);
    }
}

// The values of a list raise their registers, d bits lower. With d = 0 these are the list's own.
pub fn set_registers(registers: &mut [u8], enc: Sparse, d: u32, list: &[u32])
    requires { SetListPre enc d list.now registers.old }
    ensures { registers.new ≡ with_registers (enc.normal_precision - d) (raised_lower enc.normal_precision enc.sparse_precision d (registers_of (enc.normal_precision - d) registers.old) list.now) registers.old }
{
    for &v in list {
        set_register(registers, enc, d, v);
    }
}
