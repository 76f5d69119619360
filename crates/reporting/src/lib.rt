// What is said of a batch (document 01, "The batch"): "per record ordinal and answer; 24 or 25 prints ordinal (0 for 24) and number, and ends the
// chain. Then p, s, value count, registers not zero; then the written state, or the writing refusal's number." Numbers are signed decimals, the
// state is lowercase hexadecimal, and each line ends in a newline.
#![tactic(auto)]

ghost use Rattle.std.specs.Prelude.{◌<◌, length};
ghost use Rattle.console.specs.Input.{ArrivedIn, StreamPost};
ghost use Rattle.console.specs.Output.{SaidPost};
ghost use Rattle.reporting.specs.Report.{RolledUp, ReportPut, HeardPost, HeardIn, saying_for, Responds};

use batch::closing;
use batch::closing::Report;
use console::input::{Arrived, StreamError};
use console::output::Said;
use console::{input, output};
use rollup::memory::Memory;
use std::io::{Print, Read};
use wire::encoding::put_bytes;

mod text;

// Rolls up a batch in "65,536 registers, three lists of 16,384 and 65,536 output bytes". 65,536 cells suffice for the answers, and a piece as long as the
// registers for those of a list. (`answers` and `out` are two parameters here and below, since `closing::roll` takes them one by one.)
fn roll_up(batch: &[u8], answers: &mut [u8; 65536], out: &mut [u8; 65536]) -> Report
    ensures { RolledUp batch.now result answers.new out.new }
{
    let mut registers = [0u8; 65536];
    let mut sparse = [0u32; 16384];
    let mut pending = [0u32; 16384];
    let mut scratch = [0u32; 16384];
    let mut spare = [0u8; 65536];
    let mut memory = Memory {
        registers: &mut registers,
        sparse: &mut sparse,
        pending: &mut pending,
        scratch: &mut scratch,
    };
    closing::roll(batch, &mut memory, answers, &mut spare, out)
}

// Rolls up a batch, and puts the text of its report at the front of `text`, which takes the longest. The answer is the text's length.
pub fn roll_batch(batch: &[u8], text: &mut [u8; 350000]) -> usize
    ensures { ReportPut batch.now text.old result text.new }
{
    let mut answers = [0u8; 65536];
    let mut out = [0u8; 65536];
    let r = roll_up(batch, &mut answers, &mut out);
    text::put_report(r, &answers, &out, text)
}

// Between reading and rolling up: the report of a batch, or nothing where the stream could not be read. A stream that fills the buffer has more than 65,536
// bytes, however it arrived, and is 24 by its length. A failed read is not the end: nothing is rolled up of an input that did not arrive whole.
fn hear(
    stream: Result<usize, StreamError>,
    buf: &[u8],
    answers: &mut [u8; 65536],
    out: &mut [u8; 65536],
) -> Option<Report>
    requires { (65536 < length buf.now) × StreamPost buf.now stream }
    ensures { HeardPost stream buf.now result answers.new out.new }
{
    match stream {
        Ok(n) => Some(roll_up(&buf[..n], answers, out)),
        Err(StreamError::Full) => Some(roll_up(buf, answers, out)),
        Err(StreamError::Failed) => None,
    }
}

// What there is to say of it, at the front of `text`.
fn respond(heard: Option<Report>, answers: &[u8], out: &[u8], text: &mut [u8; 350000]) -> Said
    requires { HeardIn heard answers.now out.now }
    ensures { SaidPost (saying_for heard answers.now out.now) text.old result text.new }
{
    match heard {
        Some(r) => Said::Out(text::put_report(r, answers, out, text)),
        None => Said::Err(put_bytes(text, 0, b"roll: standard input cannot be read\n")),
    }
}

// Asks that the text is what `roll` says of the stream in this buffer. No contract can say what reaches a descriptor.
fn hand_over(
    stdout: &impl Print,
    stderr: &impl Print,
    arrived: Arrived,
    buf: &[u8],
    said: Said,
    text: &[u8; 350000],
)
    requires { ArrivedIn buf.now arrived × Responds arrived.stream buf.now said text.now }
{
    output::say(stdout, stderr, b"roll", said, text);
}

// Makes what there is to say, and hands it over.
fn tell(
    stdout: &impl Print,
    stderr: &impl Print,
    arrived: Arrived,
    buf: &[u8],
    heard: Option<Report>,
    answers: &[u8; 65536],
    out: &[u8; 65536],
)
    requires { ArrivedIn buf.now arrived × HeardPost arrived.stream buf.now heard answers.now out.now }
{
    let mut text = [0u8; 350000];
    let said = respond(heard, answers, out, &mut text);
    hand_over(stdout, stderr, arrived, buf, said, &text);
}

// The program `roll`: reads a batch from standard input, rolls it up and says what there is to say. The buffer has one byte more than the longest batch.
// `tell` is called in two places, since the compiler takes a function that is called in one into its caller: the text then takes the stack that `roll_up`
// has given back.
pub fn roll(stdin: &mut impl Read, stdout: &impl Print, stderr: &impl Print) {
    let mut buf = [0u8; 65537];
    let mut answers = [0u8; 65536];
    let mut out = [0u8; 65536];
    let arrived = input::read_all(stdin, &mut buf);
    match hear(arrived.stream, &buf, &mut answers, &mut out) {
        Some(r) => tell(stdout, stderr, arrived, &buf, Some(r), &answers, &out),
        None => tell(stdout, stderr, arrived, &buf, None, &answers, &out),
    }
}
