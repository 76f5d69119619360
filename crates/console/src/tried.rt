// Printing of which each write is tried, whatever came of those before it. The programs that replay cases and print a case by pieces print so: a write that fails
// leaves their output short, which a comparison shows, and takes nothing along but what was to be written with it.
ghost use Rattle.std.specs.Prelude.{◌≡◌, ◌≤◌, take, IsOk};
ghost use Rattle.console.specs.Output.{unwritten};

use std::fmt::{Display, Write};
use std::io::Print;
use std::{fmt, io};

// How many bytes of a text are gathered for one write. (What a contract says of it has the number.)
const ROOM: usize = 1024;

// What another prints, where each write counts as one that did not fail.
#[derive(Clone, Copy)]
pub struct Tried<P>(pub P);

// What is left to write of a text: the first `len` bytes. The library's own buffer is given up at the first write that fails, and what is left with it. Not `Drop`, so
// that no text is let go of before `finish`.
struct Unwritten<'a, P> {
    to: &'a P,
    bytes: [u8; ROOM],
    len: usize,
    ghost inside: { len ≤ 1024 },
}

impl<P: Print> Unwritten<'_, P> {
    fn new(to: &P) -> Unwritten<'_, P>
        ensures { result.len ≡ 0 }
    {
        Unwritten {
            to,
            bytes: [0; ROOM],
            len: 0,
        }
    }

    fn flush(&mut self)
        ensures { self.new.len ≡ 0 }
    {
        let _ = self.to.write_all(&self.bytes[..self.len]);
        self.len = 0;
    }

    // What was left is written where a piece has no room behind it, and so is a piece that never has room.
    fn push(&mut self, piece: &[u8])
        ensures { take self.new.len self.new.bytes ≡ unwritten (take self.old.len self.old.bytes) piece.now }
    {
        if piece.len() > ROOM {
            self.flush();
            let _ = self.to.write_all(piece);
            return;
        }
        if piece.len() > ROOM - self.len {
            self.flush();
        }
        let end = self.len + piece.len();
        self.bytes[self.len..end].copy_from_slice(piece);
        self.len = end;
    }

    fn finish(self) {
        let Unwritten { to, bytes, len } = self;
        let _ = to.write_all(&bytes[..len]);
    }
}

impl<P: Print> Write for Unwritten<'_, P> {
    ghost write_str_gives = { λ u s v. take v.len v.bytes ≡ unwritten (take u.len u.bytes) s };

    fn write_str(&mut self, s: &str) -> fmt::Result {
        self.push(s.as_bytes());
        Ok(())
    }
}

impl<P: Print> Print for Tried<P> {
    fn print<D: Display + Drop>(&self, value: D) -> io::Result<()>
        ensures { IsOk result }
    {
        let mut text = Unwritten::new(&self.0);
        let _ = text.write(value);
        text.finish();
        Ok(())
    }

    fn println<D: Display + Drop>(&self, value: D) -> io::Result<()>
        ensures { IsOk result }
    {
        self.print(format_args!("{value}\n"))
    }

    fn write_all(&self, bytes: &[u8]) -> io::Result<()>
        ensures { IsOk result }
    {
        let _ = self.0.write_all(bytes);
        Ok(())
    }
}
