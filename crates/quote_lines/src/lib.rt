// A line of a quote's picture: gathered in fixed memory, as by `write!`, so that it goes to the file by one write and not by one for each of its parts.

#![tactic(auto)]

ghost use Rattle.std.specs.Prelude.{◌≡◌, ◌≤◌, ℕ, List, [], ◌++◌, length, take, Ok, None, IsOk, OnOk, OnErr};
ghost use Rattle.std.specs.Io.KnownBytes.{Appends, Keeps, WriteAppends};
ghost use Rattle.std.specs.Io.{WritesAtMost};
ghost use Rattle.console.specs.Promises.{WritesFront};

use std::io;
use std::io::Write;
use std::marker::Model;

// The first `len` bytes: 192 at most.
#[derive(Drop)]
pub struct Line {
    bytes: [u8; 192],
    len: usize,
}

impl Model for Line {
    ghost Value = { List ℕ };

    ghost view = { λ l. take l.len l.bytes };

    ghost invariant = { λ l. l.len ≤ 192 };
}

impl Line {
    pub fn new() -> Self
        ensures { result ≡ [] }
    {
        Line {
            bytes: [0; 192],
            len: 0,
        }
    }

    // The line to a file. An error is the file's, and leaves a front of the line written, not all.
    pub fn put<W: Write>(&self, out: &mut W) -> io::Result<()>
        ensures whole { OnOk result (Appends (W.contents out.old) (W.contents out.new) self.now) }
        ensures front { OnErr result (WritesFront (W.contents out.old) (W.contents out.new) (length self.now) self.now) }
    {
        console::put_to(out, &self.bytes, self.len)
    }
}

impl Write for Line {
    // What has no room is left out and counts as written, so this never fails.
    fn write(&mut self, buf: &[u8]) -> io::Result<usize>
        ensures bound { WritesAtMost result buf.now }
        ensures bytes { WriteAppends None None result buf.now }
        ensures counts { result ≡ Ok (length buf.now) }
        ensures gathered { self.new ≡ take 192 (self.old ++ buf.now) }
    {
        let n = buf.len().min(192 - self.len);
        self.bytes[self.len..self.len + n].copy_from_slice(&buf[..n]);
        self.len += n;
        Ok(buf.len())
    }

    fn flush(&mut self) -> io::Result<()>
        ensures bytes { Keeps None None }
        ensures ok { IsOk result }
        ensures same { self.new ≡ self.old }
    {
        Ok(())
    }
}
