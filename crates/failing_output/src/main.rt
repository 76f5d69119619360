// What `Tried` prints where each write fails, by running it: all that there is to print. The output of this program does write what it is given, and says that it
// failed, so that what is tried behind a failure shows. No other program but `printed_line` has an output of which a write fails.
#![tactic(auto)]

use console::show::{List, print_hex, print_remark};
use console::tried::Tried;
use std::fmt::Display;
use std::io::{Error, ErrorKind, Print};
use std::{io, str};

// An output that writes what it is given, and says that it failed.
#[derive(Clone, Copy)]
struct Failing<P>(P);

impl<P: Print> Print for Failing<P> {
    fn print<D: Display + Drop>(&self, value: D) -> io::Result<()> {
        let _ = self.0.print(value);
        Err(Error::from(ErrorKind::Other))
    }

    fn println<D: Display + Drop>(&self, value: D) -> io::Result<()> {
        let _ = self.0.println(value);
        Err(Error::from(ErrorKind::Other))
    }

    fn write_all(&self, bytes: &[u8]) -> io::Result<()> {
        let _ = self.0.write_all(bytes);
        Err(Error::from(ErrorKind::Other))
    }
}

// A line by three calls; a line of more bytes than `Tried` gathers, by short pieces; one with a piece that is longer than that; a line past `fmt`; and a short one.
fn print_lines(rt: &impl Print) -> io::Result<()> {
    print!(rt; "{}", 1)?;
    print!(rt; " {}", 2)?;
    println!(rt; " {}", 3)?;
    println!(rt;
        "a list: {} and what stands behind it",
        List(&[4294967295; 200])
    )?;
    let bytes = [b'.'; 1500];
    println!(rt;
        "a text: {} and what stands behind it",
        str::from_utf8(&bytes).unwrap_or("")
    )?;
    print_hex(rt, &bytes);
    print_remark(rt, b" and what stands behind it");
    println!(rt; "{}", 4)
}

fn main(rt: HostRuntime) {
    let _ = print_lines(&Tried(Failing(&rt)));
}
