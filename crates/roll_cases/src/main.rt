// Replays the vectors of `roll`: each line of standard input is a batch, of which is printed what `roll` prints. What a line is, and how the
// vectors were made, is said in compare/vectors/README.md.
#![tactic(auto)]

use console::input::read_cases;
use console::memory::filled;
use console::show::{Replayed, print_remark, replay};
use std::io;
use std::io::Print;

mod expanding;

// What `roll` prints of a batch. Where `batch_line` made the text itself, it would be zeroed twice.
fn print_batch(rt: &impl Print, batch: &[u8]) -> io::Result<()> {
    let mut text = [0u8; 350000];
    let len = reporting::roll_batch(batch, &mut text);
    rt.write_all(&text[..len])
}

// A batch may have one byte more than question 24 allows.
fn batch_line(rt: &impl Print, line: &[u8]) -> Replayed {
    let mut batch: [u8; 65537] = filled(0);
    let n = expanding::expand(line, &mut batch)?;
    Some(print_batch(rt, &batch[..n]))
}

// A line that starts with `#` is a remark. One with no bytes is a batch with none.
fn case(rt: &impl Print, line: &[u8]) -> Replayed {
    match line {
        [b'#', ..] => {
            print_remark(rt, line);
            Some(Ok(()))
        }
        _ => batch_line(rt, line),
    }
}

fn main(rt: HostRuntime) {
    let mut buf: [u8; 524288] = filled(0);
    let n = read_cases(&mut rt.stdin(), &rt.stderr(), b"roll_cases", &mut buf);
    replay(&rt, &buf[..n], b'\n', case);
}
