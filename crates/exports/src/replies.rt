// What the programs say: a text for standard output, or a message for standard error, by what came in. All of it is made here; a program only reads, lends
// memory and writes.
ghost use Rattle.std.specs.Prelude.{◌≡◌, ◌++◌, ◌+◌, ◌≤◌, length, decimal};
ghost use Rattle.wire.specs.Varints.{PutPost};
ghost use Rattle.console.specs.Output.{SaidPost, err};
ghost use Rattle.exports.specs.Replies.{line_message, lines_say, pack_says, chain_message, batch_says, unpack_says, PackMemory, PackReply, UnpackMemory};

use crate::packing::PackError;
use crate::unpacking::UnpackError;
use crate::{packing, unpacking};
use batch::chain::ChainError;
use console::input::{Arrived, StreamError};
use console::output::Said;
use wire::encoding::put_bytes;

// Puts a piece of text and then a number in decimal at `at`, and answers the position past them. (In a lent buffer, and not by `fmt`, since the contract says the
// text. The whole of it and a place in it: the contract says what stands at that place of the whole.)
fn put_numbered(text: &mut [u8], at: usize, piece: &[u8], n: usize) -> usize
    requires { at + length piece.now + 20 ≤ length text.old }
    ensures { PutPost text.old at (piece.now ++ decimal n) result text.new }
{
    let mut digits = itoa::Buffer::new();
    let next = put_bytes(text, at, piece);
    put_bytes(text, next, digits.format(n).as_bytes())
}

fn complain(text: &mut [u8], message: &[u8]) -> Said
    requires { length message.now ≤ length text.old }
    ensures { SaidPost (err message.now) text.old result text.new }
{
    Said::Err(put_bytes(text, 0, message))
}

fn complain_of_line(text: &mut [u8], line: usize, what: &[u8]) -> Said
    requires { 31 + length what.now ≤ length text.old }
    ensures { SaidPost (err (line_message line what.now)) text.old result text.new }
{
    let next = put_numbered(text, 0, b"pack: line ", line);
    Said::Err(put_bytes(text, next, what))
}

fn complain_of_chain(text: &mut [u8], records: usize, error: ChainError) -> Said
    requires { (records ≤ 65536) × (128 ≤ length text.old) }
    ensures { SaidPost (err (chain_message records error)) text.old result text.new }
{
    let record = error.ordinal(records);
    let next = put_numbered(text, 0, b"unpack: the chain breaks at record ", record);
    let number = usize::from(error.number());
    let end = put_numbered(text, next, b" with ", number);
    Said::Err(put_bytes(text, end, b"\n"))
}

fn pack_lines(lines: &[u8], spare: &mut [u8], out: &mut [u8]) -> Said
    requires { (length lines.now ≤ length spare.old) × (length out.old ≡ 65536) }
    ensures { PackReply (lines_say lines.now) spare.old out.old result spare.new out.new }
{
    match packing::pack(lines, spare, out) {
        Ok(n) => Said::Out(n),
        Err(PackError::BadLine(line)) => complain_of_line(
            out,
            line,
            b" is neither hexadecimal nor base64\n",
        ),
        Err(PackError::TooLong(line)) => complain_of_line(
            out,
            line,
            b" makes the batch longer than 65,536 bytes\n",
        ),
    }
}

// What `pack` says of a stream that was read into `lines`.
pub(crate) fn pack_reply(arrived: Arrived, lines: &[u8], spare: &mut [u8], out: &mut [u8]) -> Said
    requires { PackMemory arrived lines.now spare.old out.old }
    ensures { PackReply (pack_says arrived.stream lines.now) spare.old out.old result spare.new out.new }
{
    match arrived.stream {
        Ok(n) => pack_lines(&lines[..n], spare, out),
        Err(StreamError::Failed) => complain(out, b"pack: standard input cannot be read\n"),
        Err(StreamError::Full) => complain(
            out,
            b"pack: standard input is longer than 262,144 bytes\n",
        ),
    }
}

fn unpack_batch(batch: &[u8], text: &mut [u8]) -> Said
    requires { length text.old ≡ 1048576 }
    ensures { SaidPost (batch_says batch.now) text.old result text.new }
{
    match unpacking::unpack(batch, text) {
        Ok(len) => Said::Out(len),
        Err(UnpackError::Broken { records, error }) => complain_of_chain(text, records, error),
        Err(UnpackError::TooLong) => complain(
            text,
            b"unpack: the text is longer than 1,048,576 bytes\n",
        ),
    }
}

// What `unpack` says of a stream that was read into `buf`. A buffer that is full has more bytes than a batch, which is what is said of it.
pub(crate) fn unpack_reply(arrived: Arrived, buf: &[u8], text: &mut [u8]) -> Said
    requires { UnpackMemory arrived buf.now text.old }
    ensures { SaidPost (unpack_says arrived.stream buf.now) text.old result text.new }
{
    match arrived.stream {
        Ok(n) => unpack_batch(&buf[..n], text),
        Err(StreamError::Failed) => complain(text, b"unpack: standard input cannot be read\n"),
        Err(StreamError::Full) => unpack_batch(buf, text),
    }
}
