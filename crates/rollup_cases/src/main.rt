// Replays the vectors of `rollup`: sequences of calls, a line of standard input for each step and a line on standard output for each. What a
// line is, and how the vectors were made, is said in compare/vectors/README.md.
#![tactic(auto)]

ghost use Rattle.std.specs.Prelude.{◌≤◌, ◌<◌, length, IfSome};
ghost use Rattle.rollup.specs.Refusals.{length_of};

use console::input::{cut, read_bytes, read_cases};
use console::memory::filled;
use console::show::{FILL, Replayed, bad_case, print_remark};
use console::text::{number, precision, read_list, word};
use console::tried::Tried;
use rollup::accumulator::{Accumulator, Form};
use rollup::adding::Fitted;
use rollup::memory::Memory;
use rollup::refusal::Refusal;
use std::io::Print;

mod answers;

// What the lists that are lent are filled with: a value that no list allows, as `FILL` is a register that no head allows.
const CELL: u32 = 2779096485;

// ---- heads

// The head of a line: its ten numbers, those that are signed as the unsigned ones of the same bits.
fn head_in(line: &[u8]) -> Accumulator {
    Accumulator {
        // Another number, or none, is an unstarted head: a line `h` is never refused.
        form: Form::try_from(number(word(line, 1))).unwrap_or_default(),
        allowed: u8::try_from(number(word(line, 2))).unwrap_or(0),
        value_type: precision(word(line, 3)),
        num_values: number(word(line, 4)),
        precision: precision(word(line, 5)),
        sparse_precision: precision(word(line, 6)),
        sparse_size: precision(word(line, 7)),
        sparse_len: number(word(line, 8)) as usize,
        sparse_bytes: number(word(line, 9)) as usize,
        pending_len: number(word(line, 10)) as usize,
    }
}

// ---- calls

// The same as `Accumulator::add`, by the function that asks for a head that fits; no roll-up where it does not.
fn add_fitting(
    head: &mut Accumulator,
    memory: &mut Memory,
    bytes: &[u8],
) -> Option<Result<(), Refusal>> {
    if !head.fits_in(memory) {
        return None;
    }
    let mut fitted = Fitted::from(*head);
    let answer = fitted.add(memory, bytes);
    *head = fitted.head;
    Some(answer)
}

// A state is added, by one of the two functions.
fn add_line<
    P: Print,
    F: Fn(&mut Accumulator, &mut Memory, &[u8]) -> Option<Result<(), Refusal>> + Drop,
>(rt: &P, head: &mut Accumulator, memory: &mut Memory, line: &[u8], add: F) -> Replayed
    requires { F.IsAlwaysCallable add }
{
    let mut bytes: [u8; 4096] = filled(0);
    let n = read_bytes(word(line, 1), &mut bytes)?;
    let answer = add(head, memory, &bytes[..n])?;
    Some(answers::print_after(rt, answer, *head, memory))
}

// A size of at most `most`, which stands for a larger one too.
fn size(word: &[u8], most: usize) -> usize
    ensures { result ≤ most }
{
    (number(word) as usize).min(most)
}

// What is only read is lent to the writer as `&`. Fields behind one reference that are lent in one call, some as `&` and some as `&mut`, the borrow checker does
// not cover, so the loans stand in front of it. `write` and `write_fitting` take the memory apart themselves: a closure over what they lend would have six parameters.
fn write(head: Accumulator, memory: &mut Memory, out: &mut [u8]) -> Option<Result<usize, Refusal>>
    ensures { IfSome result (λ written. length_of written ≤ length out.new) }
{
    let (registers, sparse, pending, scratch) = (
        &mut *memory.registers,
        &mut *memory.sparse,
        &mut *memory.pending,
        &mut *memory.scratch,
    );
    Some(head.write(registers, sparse, pending, scratch, out))
}

// The same by the function that asks for a head that fits; no roll-up where it does not.
fn write_fitting(
    head: Accumulator,
    memory: &mut Memory,
    out: &mut [u8],
) -> Option<Result<usize, Refusal>>
    ensures { IfSome result (λ written. length_of written ≤ length out.new) }
{
    if !head.fits_in(memory) {
        return None;
    }
    let (registers, sparse, pending, scratch) = (
        &mut *memory.registers,
        &mut *memory.sparse,
        &mut *memory.pending,
        &mut *memory.scratch,
    );
    Some(head.write_fitting(registers, sparse, pending, scratch, out))
}

// The roll-up is written, by one of the two functions.
fn write_line<
    P: Print,
    F: Fn(Accumulator, &mut Memory, &mut [u8]) -> Option<Result<usize, Refusal>> + Drop,
>(rt: &P, head: Accumulator, memory: &mut Memory, line: &[u8], write: F) -> Replayed
    requires callable { F.IsAlwaysCallable write }
    requires inside { (h : _) (m : _) (o : _) (r : _) (m2 : _) (o2 : _) → F.post write h m o r m2 o2 → IfSome r (λ written. length_of written ≤ length o2.now) }
{
    let mut out: [u8; 20480] = filled(FILL);
    let out = &mut out[..size(word(line, 1), 20480)];
    let written = write(head, memory, out)?;
    Some(answers::print_written(rt, written, out, head, memory))
}

// ---- lines

// A line at a roll-up: a letter, and behind a blank its operands.
fn case(rt: &impl Print, head: &mut Accumulator, memory: &mut Memory, line: &[u8]) -> Replayed {
    match *line.first()? {
        b'a' => add_line(rt, head, memory, line, |head, memory, bytes| {
            Some(head.add(memory, bytes))
        }),
        b'f' => add_line(rt, head, memory, line, add_fitting),
        b'o' => write_line(rt, *head, memory, line, write),
        b'u' => write_line(rt, *head, memory, line, write_fitting),
        b'h' => {
            *head = head_in(line);
            Some(println!(rt; "ok"))
        }
        b'r' => read_bytes(word(line, 1), memory.registers).map(|_| println!(rt; "ok")),
        b'k' => read_list(word(line, 1), memory.sparse).map(|_| println!(rt; "ok")),
        b'w' => read_list(word(line, 1), memory.pending).map(|_| println!(rt; "ok")),
        b'q' => Some(answers::print_asked(rt, *head)),
        b'#' => {
            print_remark(rt, line);
            Some(Ok(()))
        }
        _ => None,
    }
}

// The lines up to the next `n`, at a roll-up that begins fresh with this memory. The answer is what is left of the text. A cursor, and no iterator over
// lines, since the line that ends a roll-up belongs to the next.
fn calls<'a>(rt: &impl Print, text: &'a [u8], memory: &mut Memory) -> &'a [u8]
    ensures { length result.now ≤ length text.now }
{
    let mut head = Accumulator::new();
    let mut rest = text;
    while !rest.is_empty() && rest[0] != b'n' {
        let (line, next) = cut(rest, b'\n');
        match case(rt, &mut head, memory, line) {
            Some(_) => {}
            None => bad_case(rt),
        }
        rest = next;
    }
    rest
}

// The same with memory of these sizes.
fn lend<'a>(rt: &impl Print, text: &'a [u8], r: usize, k: usize, w: usize, s: usize) -> &'a [u8]
    requires { (r ≤ 16384) × (k ≤ 8192) × (w ≤ 8192) × (s ≤ 8192) }
    ensures { length result.now ≤ length text.now }
{
    let mut registers: [u8; 16384] = filled(FILL);
    let mut sparse: [u32; 8192] = filled(CELL);
    let mut pending: [u32; 8192] = filled(CELL);
    let mut scratch: [u32; 8192] = filled(CELL);
    let mut memory = Memory {
        registers: &mut registers[..r],
        sparse: &mut sparse[..k],
        pending: &mut pending[..w],
        scratch: &mut scratch[..s],
    };
    calls(rt, text, &mut memory)
}

// A new roll-up, by its line `n`. The answer is what is left of the text behind that line and its calls.
fn new_line<'a>(rt: &impl Print, text: &'a [u8], line: &[u8]) -> &'a [u8]
    ensures { length result.now ≤ length text.now }
{
    let r = size(word(line, 1), 16384);
    let k = size(word(line, 2), 8192);
    let w = size(word(line, 3), 8192);
    let s = size(word(line, 4), 8192);
    let _ = println!(rt; "ok");
    lend(rt, text, r, k, w, s)
}

// A roll-up from its line `n` on; or a line before the first one, which is a remark. The answer is what is left of the text.
fn roll_up<'a>(rt: &impl Print, text: &'a [u8]) -> &'a [u8]
    requires { 0 < length text.now }
    ensures { length result.now < length text.now }
{
    let (line, rest) = cut(text, b'\n');
    if text[0] == b'n' {
        return new_line(rt, rest, line);
    }
    print_remark(rt, line);
    rest
}

// What came of the writes is not looked at, as in `replay` of `console`.
fn replay(rt: &impl Print, text: &[u8]) {
    let mut rest = text;
    while !rest.is_empty() {
        rest = roll_up(rt, rest);
    }
}

fn main(rt: HostRuntime) {
    let mut buf: [u8; 163840] = filled(0);
    let n = read_cases(&mut rt.stdin(), &rt.stderr(), b"rollup_cases", &mut buf);
    replay(&Tried(&rt), &buf[..n]);
}
