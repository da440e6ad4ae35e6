//! A reader of bytes in memory none of whose calls fails.
//!
//! A `MemReader` that is made to fail at no call fails at none either. But that is known of the value, and is lost once
//! `csv` has taken it; of this reader the type says so.

ghost use Rattle.std.specs.Prelude.{◌≡◌, IsOk, None, Some};
ghost use Rattle.std.specs.Io.KnownBytes.{ReadConsumes};
ghost use Rattle.std.specs.Io.{ReadsAtMost};

use ball_model::CountedRead;
use std::io;
use std::io::Read;

/// A reader of bytes in memory. No call of it fails, and its contract says so.
#[derive(Drop)]
pub struct Bytes<'a> {
    left: &'a [u8],
}

impl<'a> Bytes<'a> {
    /// A reader of these bytes.
    pub fn new(bytes: &'a [u8]) -> Bytes<'a>
        ensures { result.left.now ≡ bytes.now }
    {
        Bytes { left: bytes }
    }
}

impl<'a> Read for Bytes<'a> {
    ghost remaining = { λ r. Some r.left.now };

    fn read(&mut self, buf: &mut [u8]) -> io::Result<usize>
        ensures bound { ReadsAtMost result buf.new }
        ensures bytes { ReadConsumes (Some self.old.left.now) (Some self.new.left.now)
            result buf.new }
        ensures ok { IsOk result }
    {
        Read::read(&mut self.left, buf)
    }
}

impl<'a> CountedRead for Bytes<'a> {
    ghost failed_calls = { λ _. 0 };

    ghost sure_calls = { λ _. None };

    fn failures(&self) -> u64 {
        0
    }

    fn get(&mut self, buf: &mut [u8]) -> Option<usize> {
        self.read(buf).ok()
    }
}
