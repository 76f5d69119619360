// What `print_line` prints and answers, by running it: where each write succeeds, where that of the bytes fails, where that of the newline does, and where both do;
// and the same through `Tried`. No other program here calls it: those that print a line look at no answer, and go by `print_remark`.
#![tactic(auto)]

use console::show::print_line;
use console::tried::Tried;
use std::fmt::Display;
use std::io;
use std::io::{Error, ErrorKind, Print};

// An output that writes what it is given, and says that it failed: of bytes with one error, of what comes by `fmt` with another, where there is one.
#[derive(Clone, Copy)]
struct Saying<P> {
    to: P,
    bytes: Option<ErrorKind>,
    text: Option<ErrorKind>,
}

fn said(error: Option<ErrorKind>) -> io::Result<()> {
    match error {
        Some(kind) => Err(Error::from(kind)),
        None => Ok(()),
    }
}

impl<P: Print> Print for Saying<P> {
    fn print<D: Display + Drop>(&self, value: D) -> io::Result<()> {
        let _ = self.to.print(value);
        said(self.text)
    }

    fn println<D: Display + Drop>(&self, value: D) -> io::Result<()> {
        let _ = self.to.println(value);
        said(self.text)
    }

    fn write_all(&self, bytes: &[u8]) -> io::Result<()> {
        let _ = self.to.write_all(bytes);
        said(self.bytes)
    }
}

// A line that is no UTF-8, and behind it what was answered.
fn print_case(rt: &impl Print, to: &impl Print) {
    let answer = match print_line(to, b"l\xefne").map_err(|e| e.kind()) {
        Ok(()) => "written",
        Err(ErrorKind::BrokenPipe) => "broken pipe",
        Err(ErrorKind::StorageFull) => "storage full",
        Err(_) => "another error",
    };
    let _ = println!(rt; " {answer}");
}

fn main(rt: HostRuntime) {
    for bytes in [None, Some(ErrorKind::BrokenPipe)] {
        for text in [None, Some(ErrorKind::StorageFull)] {
            let to = Saying {
                to: &rt,
                bytes,
                text,
            };
            print_case(&rt, &to);
            print_case(&rt, &Tried(to));
        }
    }
}
