//! Bytes that are written whole, and buffers that are filled.

ghost use Rattle.std.specs.Prelude.{◌≡◌, ◌≢◌, ℕ, ◌+◌, ◌-◌, ◌≤◌, length, true, false};
ghost use Rattle.std.specs.Io.KnownBytes.{Appends, Consumes};
ghost use Rattle.ball_model.specs.Streams.{PutsFront, EndsAfter, AfterAtMost, AreSure, RisesByOne};
ghost use Rattle.ball_model.specs.Streams.{TakesAtMost};

use super::counted::{CountedRead, CountedWrite};

/// Writes all bytes and answers true, or answers false if a call failed; nothing is tried again.
pub fn put_all<W: CountedWrite>(writer: &mut W, bytes: &[u8]) -> bool
    ensures done { result ≡ true →
        Appends (W.contents writer.old) (W.contents writer.new) bytes.now }
    ensures front { result ≡ false →
        PutsFront (W.contents writer.old) (W.contents writer.new) bytes.now }
    ensures counted { result ≡ true → W.failed_calls writer.new ≡ W.failed_calls writer.old }
    ensures failed { result ≡ false →
        RisesByOne (W.failed_calls writer.old) (W.failed_calls writer.new) }
    ensures only { AreSure (W.sure_calls writer.old) (length bytes.now) →
        length bytes.now ≤ W.room writer.old → result ≡ true }
    ensures sure { AfterAtMost (length bytes.now)
        (W.sure_calls writer.old) (W.sure_calls writer.new) }
    ensures taken { result ≡ true → W.room writer.new ≡ W.room writer.old - length bytes.now }
    ensures room { W.room writer.old ≤ W.room writer.new + length bytes.now }
{
    let mut rest = bytes;
    while !rest.is_empty() {
        match writer.put(rest) {
            Some(n) => rest = &rest[n..],
            None => return false,
        }
    }
    true
}

/// What came of filling a buffer.
#[derive(Clone, Copy, Debug, PartialEq, Eq)]
pub enum Filled {
    /// The buffer is full.
    Full,
    /// The input ended, and its last `count` bytes are the front of the buffer, which has more.
    Ended { count: usize },
    /// A call failed. Some bytes may be gone from the input.
    Failed,
}

/// Reads until the buffer is full or the input is at its end, or up to the first failed call.
///
/// Nothing is read if the buffer is empty, and nothing after the end was seen.
pub fn fill<R: CountedRead>(reader: &mut R, buf: &mut [u8]) -> Filled
    ensures full { result ≡ Filled.Full →
        Consumes (R.remaining reader.old) (R.remaining reader.new) buf.new }
    ensures ended { (n : ℕ) → result ≡ Filled.Ended n →
        EndsAfter n (R.remaining reader.old) (R.remaining reader.new) buf.new }
    ensures few { TakesAtMost (length buf.old) (R.remaining reader.old) (R.remaining reader.new) }
    ensures counted { result ≢ Filled.Failed →
        R.failed_calls reader.new ≡ R.failed_calls reader.old }
    ensures failed { result ≡ Filled.Failed →
        RisesByOne (R.failed_calls reader.old) (R.failed_calls reader.new) }
    ensures only { AreSure (R.sure_calls reader.old) (length buf.old) → result ≢ Filled.Failed }
    ensures sure { AfterAtMost (length buf.old)
        (R.sure_calls reader.old) (R.sure_calls reader.new) }
{
    let mut at = 0;
    while at < buf.len() {
        match reader.get(&mut buf[at..]) {
            Some(0) => return Filled::Ended { count: at },
            Some(n) => at += n,
            None => return Filled::Failed,
        }
    }
    Filled::Full
}
