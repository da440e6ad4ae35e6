//! Streams over memory, whose bytes a contract sees, and which fail from a chosen call on.

ghost use Rattle.std.specs.Prelude.{◌≡◌, ◌+◌, ◌-◌, ◌<◌, ◌≤◌, ◌⊎◌, min, None, Some, OnOk, OnErr};
ghost use Rattle.std.specs.Prelude.{IfOk, IfSome, IfNone, IsOk, IsErr, length, [], true};
ghost use Rattle.std.specs.Prelude.{option_map, vec_len, vec_capacity};
ghost use Rattle.std.specs.Io.KnownBytes.{ReadConsumes, WriteAppends, Keeps};
ghost use Rattle.std.specs.Io.{ReadsAtMost, WritesAtMost};
ghost use Rattle.ball_model.specs.Streams.{Gets, Puts, after_call};

use super::counted::{CountedRead, CountedWrite};
use super::failures::FailedCalls;
use std::alloc::{AllocError, Global};
use std::io;
use std::io::{ErrorKind, Read, Write};

/// A reader of bytes in memory. A call chosen in advance and all later ones fail. It takes no memory.
#[derive(Drop)]
pub struct MemReader<'a> {
    left: &'a [u8],
    good: Option<u64>,
    failures: FailedCalls,
}

impl<'a> MemReader<'a> {
    /// A reader of these bytes whose call `fails_at`, counted from 1, and all later ones fail; None: no call fails.
    pub fn new(bytes: &'a [u8], fails_at: Option<u64>) -> MemReader<'a>
        ensures left { result.left.now ≡ bytes.now }
        ensures good { result.good ≡ option_map (λ call. call - 1) fails_at }
        ensures failures { result.failures ≡ 0 }
    {
        MemReader {
            left: bytes,
            good: fails_at.map(|call| call.saturating_sub(1)),
            failures: FailedCalls::none(),
        }
    }
}

impl<'a> Read for MemReader<'a> {
    ghost remaining = { λ r. Some r.left.now };

    fn read(&mut self, buf: &mut [u8]) -> io::Result<usize>
        ensures bound { ReadsAtMost result buf.new }
        ensures bytes { ReadConsumes (Some self.old.left.now) (Some self.new.left.now)
            result buf.new }
        ensures count { IfOk result (λ n. n ≡ min (length self.old.left.now) (length buf.old)) }
        ensures fails { self.old.good ≡ Some 0 → IsErr result }
        ensures only { OnErr result (self.old.good ≡ Some 0) }
        ensures good { self.new.good ≡ after_call self.old.good }
        ensures failed { OnErr result (self.new.failures ≡ self.old.failures + 1) }
        ensures done { OnOk result (self.new.failures ≡ self.old.failures) }
    {
        match self.good {
            Some(0) => {
                self.failures.add_one();
                return Err(io::Error::from(ErrorKind::Other));
            }
            Some(n) => self.good = Some(n - 1),
            None => {}
        }
        Read::read(&mut self.left, buf)
    }
}

impl<'a> CountedRead for MemReader<'a> {
    ghost failed_calls = { λ r. r.failures };

    ghost sure_calls = { λ r. r.good };

    fn failures(&self) -> u64 {
        self.failures.count()
    }

    fn get(&mut self, buf: &mut [u8]) -> Option<usize>
        ensures within { IfSome result (λ n. n ≤ length buf.new) }
        ensures bytes { Gets (Some self.old.left.now) (Some self.new.left.now) result buf.new }
        ensures count { IfSome result (λ n. n ≡ min (length self.old.left.now) (length buf.old)) }
        ensures fails { self.old.good ≡ Some 0 → result ≡ None }
        ensures only { IfNone result (self.old.good ≡ Some 0) }
        ensures good { self.new.good ≡ after_call self.old.good }
        ensures failed { IfNone result (self.new.failures ≡ self.old.failures + 1) }
        ensures done { IfSome result (λ _. self.new.failures ≡ self.old.failures) }
    {
        self.read(buf).ok()
    }
}

/// A writer into memory with room for some bytes, whose memory is all taken when it is made. It fails if it is full,
/// and a call chosen in advance and all later ones fail. A flush is no call and never fails.
#[derive(Drop)]
pub struct MemWriter {
    bytes: Vec<u8>,
    room: usize,
    good: Option<u64>,
    failures: FailedCalls,
    ghost fits: { vec_len bytes + room ≤ vec_capacity bytes },
}

impl MemWriter {
    /// A writer with room for `room` bytes whose call `fails_at`, counted from 1, and all later ones fail; None: only
    /// if it is full does a call fail.
    pub fn with_room(
        alloc: Global,
        room: usize,
        fails_at: Option<u64>,
    ) -> Result<MemWriter, AllocError>
        ensures bytes { IfOk result (λ w. w.bytes.items ≡ []) }
        ensures room { IfOk result (λ w. w.room ≡ room) }
        ensures good { IfOk result (λ w. w.good ≡ option_map (λ call. call - 1) fails_at) }
        ensures failures { IfOk result (λ w. w.failures ≡ 0) }
    {
        Ok(MemWriter {
            bytes: Vec::with_capacity(alloc, room)?,
            room,
            good: fails_at.map(|call| call.saturating_sub(1)),
            failures: FailedCalls::none(),
        })
    }

    /// The bytes that were taken.
    pub fn into_bytes(self) -> Vec<u8>
        ensures { result.items ≡ self.bytes.items }
    {
        let MemWriter {
            bytes,
            room: _,
            good: _,
            failures: _,
        } = self;
        bytes
    }
}

impl Write for MemWriter {
    ghost contents = { λ w. Some w.bytes.items };

    fn write(&mut self, buf: &[u8]) -> io::Result<usize>
        ensures bound { WritesAtMost result buf.now }
        ensures bytes { WriteAppends (Some self.old.bytes.items) (Some self.new.bytes.items)
            result buf.now }
        ensures count { IfOk result (λ n. n ≡ min (length buf.now) self.old.room) }
        ensures room { IfOk result (λ n. self.new.room + n ≡ self.old.room) }
        ensures err { OnErr result (self.new.room ≡ self.old.room) }
        ensures fails { self.old.good ≡ Some 0 → IsErr result }
        ensures full { self.old.room ≡ 0 → 0 < length buf.now → IsErr result }
        ensures only { OnErr result ((self.old.good ≡ Some 0)
            ⊎ ((self.old.room ≡ 0) × (0 < length buf.now))) }
        ensures good { self.new.good ≡ after_call self.old.good }
        ensures failed { OnErr result (self.new.failures ≡ self.old.failures + 1) }
        ensures done { OnOk result (self.new.failures ≡ self.old.failures) }
    {
        let due = matches!(self.good, Some(0));
        self.good = self.good.map(|n| n.saturating_sub(1));
        if due || self.room == 0 && !buf.is_empty() {
            self.failures.add_one();
            return Err(io::Error::from(ErrorKind::Other));
        }
        let (front, _) = buf.split_at(buf.len().min(self.room));
        self.room -= front.len();
        self.bytes.extend_from_slice(front).unwrap();
        Ok(front.len())
    }

    fn flush(&mut self) -> io::Result<()>
        ensures bytes { Keeps (Some self.old.bytes.items) (Some self.new.bytes.items) }
        ensures ok { IsOk result }
        ensures unchanged { self.new ≡ self.old }
    {
        Ok(())
    }
}

impl CountedWrite for MemWriter {
    ghost failed_calls = { λ w. w.failures };

    ghost sure_calls = { λ w. w.good };

    ghost room = { λ w. w.room };

    fn failures(&self) -> u64 {
        self.failures.count()
    }

    fn put(&mut self, bytes: &[u8]) -> Option<usize>
        requires { 0 < length bytes.now }
        ensures some { IfSome result (λ n. 0 < n) }
        ensures within { IfSome result (λ n. n ≤ length bytes.now) }
        ensures bytes { Puts (Some self.old.bytes.items) (Some self.new.bytes.items)
            result bytes.now }
        ensures count { IfSome result (λ n. n ≡ min (length bytes.now) self.old.room) }
        ensures room { IfSome result (λ n. self.new.room + n ≡ self.old.room) }
        ensures none { IfNone result (self.new.room ≡ self.old.room) }
        ensures fails { self.old.good ≡ Some 0 → result ≡ None }
        ensures full { self.old.room ≡ 0 → result ≡ None }
        ensures only { IfNone result ((self.old.good ≡ Some 0) ⊎ (self.old.room ≡ 0)) }
        ensures good { self.new.good ≡ after_call self.old.good }
        ensures failed { IfNone result (self.new.failures ≡ self.old.failures + 1) }
        ensures done { IfSome result (λ _. self.new.failures ≡ self.old.failures) }
    {
        self.write(bytes).ok()
    }

    fn try_flush(&mut self) -> bool
        ensures ok { result ≡ true }
        ensures unchanged { self.new ≡ self.old }
    {
        self.flush().is_ok()
    }
}
