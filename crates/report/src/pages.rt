//! A text that is kept in pieces.

ghost use Rattle.std.specs.Prelude.{◌≡◌, ◌++◌, [], true, false, length, IfErr, IfOk};
ghost use Rattle.std.specs.Prelude.{IsOk, OnErr, OnOk, Some};
ghost use Rattle.std.specs.Io.{WritesAtMost};
ghost use Rattle.std.specs.Io.KnownBytes.{Appends, Keeps, WriteAppends};
ghost use Rattle.std.specs.IoError.{error_kind};
ghost use Rattle.ball_model.specs.Streams.{PutsFront, RisesByOne};

use ball_model::{CountedWrite, put_all};
use std::alloc::Global;
use std::io;
use std::io::{ErrorKind, Write};
use std::marker::Model;

/// A text that is kept in pieces, as they were written. No piece is moved when another one follows.
///
/// Its model is the text: all pages, one after another.
#[derive(Drop)]
pub struct Pages {
    alloc: Global,
    pages: Vec<Vec<u8>>,
}

impl Model for Pages {
    ghost use Rattle.std.specs.Prelude.{List, ℕ};
    ghost use Rattle.std.specs.List.{flat_map};

    ghost Value = { List ℕ };

    ghost view = { λ p. flat_map (λ page. page.items) p.pages.items };
}

impl Pages {
    /// No page yet. It takes no memory.
    pub fn new(alloc: Global) -> Pages
        ensures { result ≡ [] }
    {
        Pages {
            alloc,
            pages: Vec::new(alloc),
        }
    }

    /// Writes all pages, in order, and answers true; or answers false if a call failed, after a beginning of the text.
    /// Nothing is tried again.
    pub fn write_to<W: CountedWrite>(&self, writer: &mut W) -> bool
        ensures done { result ≡ true →
            Appends (W.contents writer.old) (W.contents writer.new) self.now }
        ensures front { result ≡ false →
            PutsFront (W.contents writer.old) (W.contents writer.new) self.now }
        ensures counted { result ≡ true → W.failed_calls writer.new ≡ W.failed_calls writer.old }
        ensures failed { result ≡ false →
            RisesByOne (W.failed_calls writer.old) (W.failed_calls writer.new) }
    {
        for page in &self.pages {
            if !put_all(writer, page) {
                return false;
            }
        }
        true
    }
}

// Each write is a page.
impl Write for Pages {
    ghost contents = { λ p. Some p };

    fn write(&mut self, buf: &[u8]) -> io::Result<usize>
        ensures bound { WritesAtMost result buf.now }
        ensures bytes { WriteAppends (Some self.old) (Some self.new) result buf.now }
        ensures count { IfOk result (λ n. n ≡ length buf.now) }
        ensures ok { OnOk result (self.new ≡ self.old ++ buf.now) }
        ensures err { OnErr result (self.new ≡ self.old) }
        ensures kind { IfErr result (λ e. error_kind e ≡ ErrorKind.OutOfMemory) }
    {
        let page = buf.to_vec(self.alloc)?;
        self.pages.push(page)?;
        Ok(buf.len())
    }

    fn flush(&mut self) -> io::Result<()>
        ensures bytes { Keeps (Some self.old) (Some self.new) }
        ensures ok { IsOk result }
        ensures unchanged { self.new ≡ self.old }
    {
        Ok(())
    }
}
