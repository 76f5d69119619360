// What the programs that replay cases print, mostly by `fmt`. Of this a contract says the text of `Hex` alone, where it is no error: an error is the writer's, and
// nothing is said of it. `print_hex` writes what `hex` makes, of which one says the text, too.
ghost use Rattle.std.specs.Prelude.{◌≡◌, ◌*◌, ◌≤◌, ◌⊎◌, Some, IsOk, IsErr, length};
ghost use Rattle.console.specs.Output.{hex_text};

use crate::input::Pieces;
use crate::output::{all_are, hex};
use std::io::Print;
use std::{fmt, io, str};

// Bytes in lowercase hexadecimal.
#[derive(Clone, Copy)]
pub struct Hex<'a>(pub &'a [u8]);

// The digits of some bytes as a text, put into the memory that is lent. A function of its own, since of a parameter the check knows that each byte is below 256.
fn spelled<'a>(bytes: &[u8], digits: &'a mut [u8]) -> &'a str
    requires { 2 * length bytes.now ≤ length digits.old }
    ensures { result.now ≡ hex_text bytes.now }
{
    let n = hex(bytes, digits);
    let Ok(text) = str::from_utf8(&digits[..n]) else {
        unreachable!();
    };
    text
}

impl fmt::Display for Hex<'_> {
    ghost output = { λ h. Some (hex_text h.0.now) };

    // Not by `{b:02x}` for each byte, which takes several times as long.
    fn fmt<W: fmt::Write>(&self, f: &mut fmt::Formatter<W>) -> fmt::Result {
        let mut digits = [0u8; 64];
        for chunk in self.0.chunks(32) {
            f.write_str(spelled(chunk, &mut digits))?;
        }
        Ok(())
    }
}

// The same of bytes that may be many, as `hex` makes them. Not by `Hex`, whose digits come by pieces of 64: that takes one and a half times the instructions. A write
// that fails leaves the output short, which a comparison shows.
pub fn print_hex(rt: &impl Print, bytes: &[u8]) {
    let mut digits = [0u8; 4096];
    for chunk in bytes.chunks(2048) {
        let n = hex(chunk, &mut digits);
        let _ = rt.write_all(&digits[..n]);
    }
}

// A list as `read_list` reads it: with commas, and a point where it is empty.
#[derive(Clone, Copy)]
pub struct List<'a>(pub &'a [u32]);

impl fmt::Display for List<'_> {
    fn fmt<W: fmt::Write>(&self, f: &mut fmt::Formatter<W>) -> fmt::Result {
        let [first, rest @ ..] = self.0 else {
            return f.write_str(".");
        };
        write!(f, "{first}")?;
        for v in rest {
            write!(f, ",{v}")?;
        }
        Ok(())
    }
}

// What an output is filled with before a call writes into it, to see which of its bytes are written.
pub const FILL: u8 = 165;

// The bytes of such an output behind those that were written. Nothing is said of them where each is as it was.
#[derive(Clone, Copy)]
pub struct Touched<'a>(pub &'a [u8]);

impl fmt::Display for Touched<'_> {
    fn fmt<W: fmt::Write>(&self, f: &mut fmt::Formatter<W>) -> fmt::Result {
        if all_are(self.0, FILL) {
            return Ok(());
        }
        f.write_str(" touched")
    }
}

// Bytes as they are, and a newline: what is printed of a remark. It cannot fail, as `print_hex`, and goes past the buffer of `fmt`, too.
pub fn print_remark(rt: &impl Print, line: &[u8]) {
    let _ = rt.write_all(line);
    let _ = rt.write_all(b"\n");
}

// The same, and whether it was written: behind a write that fails nothing more is tried. The answer is the writer's, of which the library's `Print` says nothing, so
// that it can be any.
pub fn print_line(rt: &impl Print, line: &[u8]) -> io::Result<()>
    ensures { IsOk result ⊎ IsErr result }
{
    rt.write_all(line)?;
    println!(rt; "")
}

// What a case came to: `None` where the text is no case, since it has not the operands that it should have; else what came of its last write, which `Tried` passes over.
pub type Replayed = Option<io::Result<()>>;

// What is printed of a text that is no case. It cannot fail, either.
pub fn bad_case(rt: &impl Print) {
    let _ = rt.write_all(b"bad case\n");
}

// Replays the cases of a text, of which each goes up to the next `end`. What came of a case's writes is not looked at: a `main` that answered it would rest on one more
// function of C.
pub fn replay<P: Print, F: Fn(&P, &[u8]) -> Replayed + Drop>(rt: &P, text: &[u8], end: u8, case: F)
    requires { F.IsAlwaysCallable case }
{
    for piece in Pieces::new(text, end) {
        match case(rt, piece) {
            Some(_) => {}
            None => bad_case(rt),
        }
    }
}
