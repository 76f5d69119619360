// Replays cases of `exports` and of walking a batch. A bar ends a case. Its first line starts with a number and a blank; the rest of that line is a remark,
// and the line is printed. Where the number is above 0, the other lines are packed into so many bytes; where it is 0, the next line is a batch in
// hexadecimal, which is walked.
#![tactic(auto)]

use batch::unpacking;
use console::input::{cut, read_bytes, read_cases, read_number};
use console::memory::filled;
use console::show::{Hex, Replayed, print_hex, print_remark, replay};
use console::text::word;
use console::tried::Tried;
use exports::packing;
use exports::packing::PackError;
use std::io;
use std::io::Print;

// A blank and a state. Short ones are printed by one write, since a batch can have many. Records can overlap, so the states of a batch can have some hundred times
// its bytes.
fn print_state(rt: &impl Print, state: &[u8]) -> io::Result<()> {
    if state.len() <= 32 {
        return print!(rt; " {}", Hex(state));
    }
    print!(rt; " ")?;
    print_hex(rt, state);
    Ok(())
}

// How many records, the number that ends the chain, and the states.
fn print_walk(rt: &impl Print, batch: &[u8]) -> io::Result<()> {
    let mut indices: [u32; 65536] = filled(0);
    let w = unpacking::walk(batch, &mut indices);
    let n = w.records;
    match w.ending {
        Ok(()) => print!(rt; "{n} 0")?,
        Err(e) => print!(rt; "{n} {}", e.number())?,
    }
    for &index in &indices[..n] {
        print_state(rt, unpacking::state_at(batch, index as usize))?;
    }
    println!(rt; "")
}

fn walk_case(rt: &impl Print, word: &[u8], bytes: &mut [u8]) -> Replayed {
    let n = read_bytes(word, bytes)?;
    Some(print_walk(rt, &bytes[..n]))
}

fn print_batch(rt: &impl Print, batch: &[u8]) -> io::Result<()> {
    print_hex(rt, batch);
    println!(rt; "")?;
    print_walk(rt, batch)
}

fn pack_case(rt: &impl Print, lines: &[u8], out: &mut [u8]) -> Replayed {
    let mut spare: [u8; 65536] = filled(0);
    if spare.len() < lines.len() || out.len() < 4 {
        return None;
    }
    Some(match packing::pack(lines, &mut spare, out) {
        Ok(n) => print_batch(rt, &out[..n]),
        Err(PackError::BadLine(line)) => println!(rt; "bad line {line}"),
        Err(PackError::TooLong(line)) => println!(rt; "too long at line {line}"),
    })
}

// A case, by the number that it starts with. Where its first line is all of it, it is none.
fn numbered(rt: &impl Print, lines: &[u8]) -> Replayed {
    let (first, others) = cut(lines, b'\n');
    let room = read_number(word(first, 0))?;
    let mut out: [u8; 4096] = filled(0);
    if lines.len() <= first.len() {
        return None;
    }
    if room == 0 {
        return walk_case(rt, cut(others, b'\n').0, &mut out);
    }
    pack_case(rt, others, out.get_mut(..room as usize)?)
}

fn case(rt: &impl Print, lines: &[u8]) -> Replayed {
    print_remark(rt, cut(lines, b'\n').0);
    numbered(rt, lines)
}

fn main(rt: HostRuntime) {
    let mut buf: [u8; 65536] = filled(0);
    let n = read_cases(&mut rt.stdin(), &rt.stderr(), b"exports_cases", &mut buf);
    replay(&Tried(&rt), &buf[..n], b'|', case);
}
