// The programs. Each reads standard input, has a reply made, and says it. What a read puts into the buffer, and what reaches a descriptor, no contract can
// say; that what is said is the reply to this stream is asked where it is said.
ghost use Rattle.std.specs.Prelude.{◌≡◌, length};
ghost use Rattle.console.specs.Input.{ArrivedIn};
ghost use Rattle.exports.specs.Replies.{pack_says, unpack_says, Says};

use crate::replies;
use console::input::Arrived;
use console::memory::filled;
use console::output::Said;
use console::{input, output};
use std::io::{Print, Read};

// Two functions, this and `tell_of_unpacking`, since each asks its own program's reply of the caller.
fn tell_of_packing(
    stdout: &impl Print,
    stderr: &impl Print,
    arrived: Arrived,
    lines: &[u8],
    said: Said,
    batch: &[u8],
)
    requires { ArrivedIn lines.now arrived × Says (pack_says arrived.stream lines.now) said batch.now }
{
    output::say(stdout, stderr, b"pack", said, batch);
}

// Packs states into a batch: a line of standard input for each, in hexadecimal or base64, and the batch on standard output. Where a line is bad, or the
// batch would be too long, nothing is written but a message on standard error. The lines may have 262,144 bytes: a stream that fills one byte more is too long.
pub fn pack(stdin: &mut impl Read, stdout: &impl Print, stderr: &impl Print) {
    let mut lines: [u8; 262145] = filled(0);
    let arrived = input::read_all(stdin, &mut lines);
    let mut spare: [u8; 262145] = filled(0);
    let mut batch: [u8; 65536] = filled(0);
    let said = replies::pack_reply(arrived, &lines, &mut spare, &mut batch);
    tell_of_packing(stdout, stderr, arrived, &lines, said, &batch);
}

fn tell_of_unpacking(
    stdout: &impl Print,
    stderr: &impl Print,
    arrived: Arrived,
    batch: &[u8],
    said: Said,
    text: &[u8],
)
    requires { ArrivedIn batch.now arrived × Says (unpack_says arrived.stream batch.now) said text.now }
{
    output::say(stdout, stderr, b"unpack", said, text);
}

// A batch may have 65,536 bytes.
fn unpack_into(stdin: &mut impl Read, stdout: &impl Print, stderr: &impl Print, text: &mut [u8])
    requires { length text.old ≡ 1048576 }
{
    let mut batch: [u8; 65537] = filled(0);
    let arrived = input::read_all(stdin, &mut batch);
    let said = replies::unpack_reply(arrived, &batch, text);
    tell_of_unpacking(stdout, stderr, arrived, &batch, said, text);
}

// Unpacks a batch: its bytes on standard input, and a line of lowercase hexadecimal on standard output for each state, in the order of the chain. Where the
// chain is broken, nothing is written but a message on standard error. The text may have 1,048,576 bytes: eight times what any batch needs whose records
// do not overlap.
pub fn unpack(stdin: &mut impl Read, stdout: &impl Print, stderr: &impl Print) {
    let mut text: [u8; 1048576] = filled(0);
    unpack_into(stdin, stdout, stderr, &mut text);
}
