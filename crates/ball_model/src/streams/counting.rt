//! Streams that count the failed calls of another.

ghost use Rattle.std.specs.Prelude.{◌≡◌, ◌+◌, ◌<◌, Some, IfOk, OnOk, OnErr, length};
ghost use Rattle.std.specs.Io.KnownBytes.{ReadConsumes, WriteAppends, Keeps};
ghost use Rattle.std.specs.Io.{ReadsAtMost, WritesAtMost};

use super::counted::{CountedRead, CountedWrite};
use super::failures::FailedCalls;
use std::io;
use std::io::{Read, Write};

/// A reader that counts the failed calls of the one inside.
#[derive(Drop)]
pub struct CountingReader<R: Drop> {
    inner: R,
    failures: FailedCalls,
}

impl<R: Read + Drop> CountingReader<R> {
    /// The reader, with no failed call yet.
    pub fn new(inner: R) -> CountingReader<R>
        ensures inner { result.inner ≡ inner }
        ensures failures { result.failures ≡ 0 }
    {
        CountingReader {
            inner,
            failures: FailedCalls::none(),
        }
    }
}

impl<R: Read + Drop> Read for CountingReader<R> {
    ghost remaining = { λ r. R.remaining r.inner };

    fn read(&mut self, buf: &mut [u8]) -> io::Result<usize>
        ensures bound { ReadsAtMost result buf.new }
        ensures bytes { ReadConsumes (R.remaining self.old.inner) (R.remaining self.new.inner)
            result buf.new }
        ensures failed { OnErr result (self.new.failures ≡ self.old.failures + 1) }
        ensures done { OnOk result (self.new.failures ≡ self.old.failures) }
    {
        let result = self.inner.read(buf);
        if result.is_err() {
            self.failures.add_one();
        }
        result
    }
}

// Of the reader inside nothing is known, so no call is sure to go well.
impl<R: Read + Drop> CountedRead for CountingReader<R> {
    ghost failed_calls = { λ r. r.failures };

    ghost sure_calls = { λ _. Some 0 };

    fn failures(&self) -> u64 {
        self.failures.count()
    }

    fn get(&mut self, buf: &mut [u8]) -> Option<usize> {
        self.read(buf).ok()
    }
}

/// A writer that counts the failed calls of the one inside.
///
/// A write of no bytes is no failed call, and a flush is one only if it answers an error.
#[derive(Drop)]
pub struct CountingWriter<W: Drop> {
    inner: W,
    failures: FailedCalls,
}

impl<W: Write + Drop> CountingWriter<W> {
    /// The writer, with no failed call yet.
    pub fn new(inner: W) -> CountingWriter<W>
        ensures inner { result.inner ≡ inner }
        ensures failures { result.failures ≡ 0 }
    {
        CountingWriter {
            inner,
            failures: FailedCalls::none(),
        }
    }

    /// The writer inside.
    pub fn into_inner(self) -> W
        ensures { result ≡ self.inner }
    {
        let CountingWriter { inner, failures: _ } = self;
        inner
    }
}

impl<W: Write + Drop> Write for CountingWriter<W> {
    ghost contents = { λ w. W.contents w.inner };

    fn write(&mut self, buf: &[u8]) -> io::Result<usize>
        ensures bound { WritesAtMost result buf.now }
        ensures bytes { WriteAppends (W.contents self.old.inner) (W.contents self.new.inner)
            result buf.now }
        ensures failed { OnErr result (self.new.failures ≡ self.old.failures + 1) }
        ensures stuck { IfOk result (λ n. n ≡ 0 → 0 < length buf.now →
            self.new.failures ≡ self.old.failures + 1) }
        ensures done { IfOk result (λ n. 0 < n → self.new.failures ≡ self.old.failures) }
        ensures idle { OnOk result (length buf.now ≡ 0 → self.new.failures ≡ self.old.failures) }
    {
        let result = self.inner.write(buf);
        let failed = match &result {
            Ok(n) => *n == 0 && !buf.is_empty(),
            Err(_) => true,
        };
        if failed {
            self.failures.add_one();
        }
        result
    }

    fn flush(&mut self) -> io::Result<()>
        ensures bytes { Keeps (W.contents self.old.inner) (W.contents self.new.inner) }
        ensures failed { OnErr result (self.new.failures ≡ self.old.failures + 1) }
        ensures done { OnOk result (self.new.failures ≡ self.old.failures) }
    {
        let result = self.inner.flush();
        if result.is_err() {
            self.failures.add_one();
        }
        result
    }
}

// Of the writer inside nothing is known, so no call is sure to go well.
impl<W: Write + Drop> CountedWrite for CountingWriter<W> {
    ghost failed_calls = { λ w. w.failures };

    ghost sure_calls = { λ _. Some 0 };

    ghost room = { λ _. 0 };

    fn failures(&self) -> u64 {
        self.failures.count()
    }

    fn put(&mut self, bytes: &[u8]) -> Option<usize> {
        match self.write(bytes) {
            Ok(0) => None,
            Ok(n) => Some(n),
            Err(_) => None,
        }
    }

    fn try_flush(&mut self) -> bool {
        self.flush().is_ok()
    }
}
