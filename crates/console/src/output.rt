// Making the text of an answer in a buffer, and writing it. It is made so, and not by `fmt` as most texts of `show`, where a contract says which text it is. No
// contract can say what is written.
ghost use Rattle.std.specs.Prelude.{◌≡◌, ◌*◌, ◌≤◌, ◌<◌, length};
ghost use Rattle.std.specs.Counts.{IsPrefixLen};
ghost use Rattle.console.specs.Output.{size_of, all_are, hex_digit_ascii, HexPost};

use std::io::Print;

// What a program says, at the front of a slice that is lent with it: so many bytes for standard output, or so many of a message for standard error. Not a
// `Result`, since either is text to be written, and neither is handed on by `?`.
#[derive(Clone, Copy, Debug, PartialEq, Eq)]
pub enum Said {
    Out(usize),
    Err(usize),
}

// Whether each byte is b.
pub fn all_are(s: &[u8], b: u8) -> bool
    ensures { result ≡ all_are b s.now }
{
    s.iter().all(|&x| x == b)
}

fn glyph(d: u8) -> u8
    requires { d < 16 }
    ensures { result ≡ hex_digit_ascii d }
{
    if d < 10 { b'0' + d } else { b'a' - 10 + d }
}

// Puts the bytes as lowercase hexadecimal at the front of `out`, and answers how long that is. By hand, and not by the kit's crate `hex`: that would be one more
// library to believe (README, "Believed").
pub fn hex(bytes: &[u8], out: &mut [u8]) -> usize
    requires { 2 * length bytes.now ≤ length out.old }
    ensures { HexPost bytes.now out.old result out.new }
{
    // By the place, and not over `out.chunks_exact_mut(2)`: no contract says what a slice that is lent to it ends as.
    for (i, b) in bytes.iter().enumerate() {
        out[2 * i] = glyph(b / 16);
        out[2 * i + 1] = glyph(b % 16);
    }
    2 * bytes.len()
}

// Says on standard error what is wrong with a program's input or output. The name is bytes, which need be no UTF-8, so it is not a text for `fmt`.
pub(crate) fn complain(stderr: &impl Print, program: &[u8], what: &[u8]) {
    let _ = stderr.write_all(program);
    let _ = stderr.write_all(what);
}

// Says it. Where standard output cannot be written, the program of this name says so on standard error. No contract can say what reaches a descriptor.
// (`stdout` and `stderr` are two parameters, here and in the programs: a struct of both would have a type parameter for each, and be taken apart here alone.)
pub fn say(stdout: &impl Print, stderr: &impl Print, program: &[u8], said: Said, text: &[u8])
    requires { IsPrefixLen (size_of said) text.now }
{
    match said {
        Said::Out(n) => {
            if stdout.write_all(&text[..n]).is_err() {
                complain(stderr, program, b": standard output cannot be written\n");
            }
        }
        Said::Err(n) => {
            let _ = stderr.write_all(&text[..n]);
        }
    }
}
