// What `read_all` makes of a stream, by running it: a stream that cannot be read; a buffer that is full before the stream ends; the rest of the stream,
// which takes more than one read; and its end.
#![tactic(auto)]

use console::input::{Arrived, StreamError, read_all};
use console::memory::filled;
use std::io;
use std::io::{Error, ErrorKind, Print, Read};

// A stream of which each read fails.
#[derive(Drop)]
struct Unreadable;

impl Read for Unreadable {
    fn read(&mut self, _buf: &mut [u8]) -> io::Result<usize> {
        Err(Error::from(ErrorKind::Other))
    }
}

fn print_stream(rt: &impl Print, arrived: Arrived) -> io::Result<()> {
    match arrived.stream {
        Ok(n) => println!(rt; "all {n}"),
        Err(StreamError::Failed) => println!(rt; "failed"),
        Err(StreamError::Full) => println!(rt; "full"),
    }
}

// A write that fails leaves the output short, which a comparison shows; the stream is read all the same. A `main` that answered it would rest on one more
// function of C.
fn main(rt: HostRuntime) {
    let mut short: [u8; 4096] = filled(0);
    let mut long: [u8; 65536] = filled(0);
    let _ = print_stream(&rt, read_all(&mut Unreadable, &mut short));
    let _ = print_stream(&rt, read_all(&mut rt.stdin(), &mut short));
    let _ = print_stream(&rt, read_all(&mut rt.stdin(), &mut long));
    let _ = print_stream(&rt, read_all(&mut rt.stdin(), &mut long));
}
