// Replays the vectors of `lists`: a case for each line of standard input, a line on standard output for each. What a case is, and how the
// vectors were made, is said in compare/vectors/README.md. What a function of `lists` requires is asked of the operands first: a case that
// does not have it is a bad case.
#![tactic(auto)]

ghost use Rattle.std.specs.Prelude.{◌≡◌, true, ◌≤◌};
ghost use Rattle.lists.specs.Values.{valid};
ghost use Rattle.lists.specs.Registers.{LowerPre};
ghost use Rattle.lists_cases.specs.Tests.{Mergeable, Insertable};

use console::input::{read_bytes, read_cases};
use console::memory::filled;
use console::show::{FILL, Hex, List, Replayed, Touched, print_hex, print_remark, replay};
use console::text::{precision, read_list, read_value, word};
use console::tried::Tried;
use lists::merging::Merged;
use lists::values::Sparse;
use std::io;
use std::io::Print;

mod tests;

// ---- values

// The register and the rank of a value at each lower precision, p-1 first.
fn print_lower(rt: &impl Print, p: u32, index: u32, rank: u8) -> io::Result<()>
    requires { (p ≤ 24) × (rank ≤ 84) }
{
    for d in 1..p.saturating_sub(3) {
        let r = lists::values::downgrade_rho_w(index, rank, d);
        print!(rt; " {}:{r}", index >> d)?;
    }
    Ok(())
}

fn print_facts(rt: &impl Print, enc: Sparse, v: u32) -> io::Result<()>
    requires { valid enc.normal_precision enc.sparse_precision v ≡ true }
{
    let index = enc.decode_normal_index(v);
    let rank = enc.decode_normal_rho_w(v);
    print!(rt; " {} {index} {rank}", enc.decode_sparse_index(v))?;
    print_lower(rt, enc.normal_precision, index, rank)
}

fn print_value(rt: &impl Print, enc: Sparse, v: u32) -> io::Result<()> {
    let marked = u8::from(enc.is_rho_encoded(v));
    let ok = enc.is_valid(v);
    print!(rt; "{marked} {}", u8::from(ok))?;
    if ok {
        print_facts(rt, enc, v)?;
    }
    println!(rt; "")
}

fn value_case(rt: &impl Print, enc: Sparse, line: &[u8]) -> Replayed {
    let v = read_value(word(line, 3))?;
    Some(print_value(rt, enc, v))
}

// ---- lists

// A case reads its operands into memory of its own. A function that handed them to a closure would be no plainer, since the closure would not know how many there
// are at most, which `sort_runs` and the other functions ask for.

fn decode_case(rt: &impl Print, enc: Sparse, line: &[u8]) -> Replayed {
    let mut bytes = [0u8; 512];
    let n = read_bytes(word(line, 3), &mut bytes)?;
    let mut values = [0u32; 512];
    Some(match enc.decode_validated_into(&bytes[..n], &mut values) {
        Ok(k) => println!(rt; "{}", List(&values[..k])),
        Err(e) => println!(rt; "refused {}", e as u8),
    })
}

fn gap_case(rt: &impl Print, line: &[u8]) -> Replayed {
    let v = read_value(word(line, 1))?;
    Some(println!(rt; "{}", lists::merging::gap_len(v)))
}

#[tactic(auto, using(lists::proofs::MergeLaws::length_encode))]
fn encode_case(rt: &impl Print, line: &[u8]) -> Replayed {
    let mut list = [0u32; 512];
    let n = read_list(word(line, 1), &mut list)?;
    let list = &list[..n];
    if !lists::checking::is_ascending(list) {
        return None;
    }
    let len = lists::merging::written_len(list);
    let mut out = [FILL; 4096];
    if out.len() < len {
        return None;
    }
    let end = lists::merging::encode_sparse(list, &mut out);
    Some(println!(rt; "{len} {}{}", Hex(&out[..end]), Touched(&out[end..])))
}

fn sort_case(rt: &impl Print, line: &[u8]) -> Replayed {
    let mut list = [0u32; 512];
    let n = read_list(word(line, 1), &mut list)?;
    let mut scratch = [0u32; 512];
    lists::sorting::sort_runs(&mut list[..n], &mut scratch);
    Some(println!(rt; "{}", List(&list[..n])))
}

// A list, and how many bytes it takes.
fn print_merged(rt: &impl Print, list: &[u32], bytes: usize) -> io::Result<()> {
    println!(rt; "{} {bytes}", List(list))
}

// Whether a list is one that can be merged.
fn merges(enc: Sparse, l: &[u32]) -> bool
    ensures { result ≡ true → Mergeable enc.normal_precision enc.sparse_precision l.now }
{
    l.len() <= 512 && lists::checking::is_ascending(l) && enc.all_valid(l)
}

fn merge_case(rt: &impl Print, enc: Sparse, line: &[u8]) -> Replayed {
    let mut a = [0u32; 512];
    let n = read_list(word(line, 3), &mut a)?;
    let mut b = [0u32; 512];
    let m = read_list(word(line, 4), &mut b)?;
    let (a, b) = (&a[..n], &b[..m]);
    if !merges(enc, a) || !merges(enc, b) {
        return None;
    }
    let mut out = [0u32; 1024];
    let r = enc.merge_dedupe_into(a, b, &mut out);
    Some(print_merged(rt, &out[..r.len], r.bytes))
}

// Whether a list of this many bytes is one that a merge can have left.
fn inserts(enc: Sparse, l: &[u32], bytes: usize) -> bool
    ensures { result ≡ true → Insertable enc.normal_precision enc.sparse_precision l.now bytes }
{
    merges(enc, l)
        && enc.has_distinct_slots(l)
        && lists::merging::written_len(l) <= bytes
        && bytes <= 0xffff_ffff
}

// Values go into the list at the front of `union`.
fn insert_case(rt: &impl Print, enc: Sparse, line: &[u8]) -> Replayed {
    let mut union = [0u32; 1024];
    let n = read_list(word(line, 4), &mut union)?;
    let mut incoming = [0u32; 512];
    let m = read_list(word(line, 5), &mut incoming)?;
    let bytes = read_value(word(line, 3))? as usize;
    if !inserts(enc, &union[..n], bytes) || union.len() - n < m {
        return None;
    }
    let r = enc.insert_dedupe(&mut union, Merged { len: n, bytes }, &incoming[..m]);
    Some(print_merged(rt, &union[..r.len], r.bytes))
}

fn count_case(rt: &impl Print, enc: Sparse, line: &[u8]) -> Replayed {
    let mut list = [0u32; 512];
    let n = read_list(word(line, 3), &mut list)?;
    let list = &list[..n];
    if !merges(enc, list) || !enc.has_distinct_slots(list) {
        return None;
    }
    Some(println!(rt; "{}", enc.distinct_indices(list)))
}

// ---- registers

// All bytes, how many of the registers of precision p are not zero, and the largest.
fn print_registers(rt: &impl Print, p: u32, registers: &[u8]) -> Replayed {
    if !tests::holds(p, registers) {
        return None;
    }
    let count = lists::registers::count_not_zero(registers, p);
    let top = lists::registers::largest_register(registers, p);
    // Few bytes are printed by one write.
    if registers.len() <= 32 {
        return Some(println!(rt; "{} {count} {top}", Hex(registers)));
    }
    print_hex(rt, registers);
    Some(println!(rt; " {count} {top}"))
}

// The listed values raise registers of precision q.
fn set_case(rt: &impl Print, enc: Sparse, line: &[u8]) -> Replayed {
    let mut registers: [u8; 4096] = filled(0);
    let n = read_bytes(word(line, 4), &mut registers)?;
    let mut list = [0u32; 512];
    let m = read_list(word(line, 5), &mut list)?;
    let (registers, list) = (&mut registers[..n], &list[..m]);
    let (p, q) = (enc.normal_precision, read_value(word(line, 3))?);
    if p < q || q < 4 || !tests::holds(q, &registers[..]) || !enc.all_valid(list) {
        return None;
    }
    lists::registers::set_registers(registers, enc, p - q, list);
    print_registers(rt, q, registers)
}

// Whether registers of precision p can be lowered by d bits.
fn lowers(p: u32, d: u32, registers: &[u8]) -> bool
    ensures { result ≡ true → LowerPre p d registers.now }
{
    tests::holds(p, registers)
        && d <= p
        && d as u8 <= 255 - lists::registers::largest_register(registers, p)
}

// The source's registers of precision p go into the target's of precision q.
fn max_case(rt: &impl Print, line: &[u8]) -> Replayed {
    let mut source: [u8; 4096] = filled(0);
    let n = read_bytes(word(line, 3), &mut source)?;
    let mut target: [u8; 4096] = filled(0);
    let m = read_bytes(word(line, 4), &mut target)?;
    let (source, target) = (&source[..n], &mut target[..m]);
    let (p, q) = (precision(word(line, 1)), precision(word(line, 2)));
    if p < q || !tests::holds(q, &target[..]) || !lowers(p, p - q, source) {
        return None;
    }
    if p == q {
        lists::registers::max_into(target, source, q);
    } else {
        lists::registers::downgrade_registers_max_into(source, p - q, target, q);
    }
    print_registers(rt, q, target)
}

// Registers of precision p become those of precision q, where they lie.
fn lower_case(rt: &impl Print, line: &[u8]) -> Replayed {
    let mut registers: [u8; 4096] = filled(0);
    let n = read_bytes(word(line, 3), &mut registers)?;
    let registers = &mut registers[..n];
    let (p, q) = (precision(word(line, 1)), precision(word(line, 2)));
    if p < q || !lowers(p, p - q, &registers[..]) {
        return None;
    }
    lists::registers::lower_registers(registers, p, p - q);
    print_registers(rt, q, registers)
}

// ---- lines

// The pair of precisions that a line has, if a list can have it.
fn pair(line: &[u8]) -> Option<Sparse> {
    let (p, s) = (read_value(word(line, 1))?, read_value(word(line, 2))?);
    tests::fits(p, s).then(|| Sparse::new(p, s))
}

// A line: a letter, and behind a blank its operands.
fn case(rt: &impl Print, line: &[u8]) -> Replayed {
    match *line.first()? {
        b'#' => {
            print_remark(rt, line);
            Some(Ok(()))
        }
        b'v' => value_case(rt, pair(line)?, line),
        b'd' => decode_case(rt, pair(line)?, line),
        b'm' => merge_case(rt, pair(line)?, line),
        b'i' => insert_case(rt, pair(line)?, line),
        b'n' => count_case(rt, pair(line)?, line),
        b'r' => set_case(rt, pair(line)?, line),
        b'g' => gap_case(rt, line),
        b'e' => encode_case(rt, line),
        b's' => sort_case(rt, line),
        b'x' => max_case(rt, line),
        b'l' => lower_case(rt, line),
        _ => None,
    }
}

fn main(rt: HostRuntime) {
    let mut buf: [u8; 65536] = filled(0);
    let n = read_cases(&mut rt.stdin(), &rt.stderr(), b"lists_cases", &mut buf);
    replay(&Tried(&rt), &buf[..n], b'\n', case);
}
