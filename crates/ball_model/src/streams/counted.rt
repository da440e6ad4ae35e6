//! Streams whose failed calls a contract sees.

ghost use Rattle.std.specs.Prelude.{◌≡◌, ℕ, ◌+◌, ◌-◌, ◌^◌, min, ◌<◌, ◌≤◌, ◌⊎◌, length, true};
ghost use Rattle.std.specs.Prelude.{false, Option, Some, IfSome, IfNone};
ghost use Rattle.std.specs.Io.KnownBytes.{Keeps};
ghost use Rattle.ball_model.specs.Streams.{Gets, Puts, after_call};

use std::io::{Read, Write};

/// A reader whose failed calls a contract sees.
pub trait CountedRead: Read {
    ghost failed_calls: { Self → ℕ };

    // How many of the next calls are sure to go well. None: all.
    ghost sure_calls: { Self → Option ℕ };

    /// How many calls failed, or `u64::MAX` if they are more.
    fn failures(&self) -> u64
        ensures { result ≡ min (failed_calls self.now) (2 ^ 64 - 1) };

    /// Reads some bytes into the front of `buf`, and returns their number; None if the call failed.
    ///
    /// The number is 0 only at the end of the input, or if `buf` is empty.
    fn get(&mut self, buf: &mut [u8]) -> Option<usize>
        ensures within { IfSome result (λ n. n ≤ length buf.new) }
        ensures bytes { Gets (Self.remaining self.old) (Self.remaining self.new) result buf.new }
        ensures counted { IfSome result (λ _. failed_calls self.new ≡ failed_calls self.old) }
        ensures failed { IfNone result (failed_calls self.new ≡ failed_calls self.old + 1) }
        ensures only { IfNone result (sure_calls self.old ≡ Some 0) }
        ensures sure { sure_calls self.new ≡ after_call (sure_calls self.old) };
}

/// A writer whose failed calls a contract sees.
///
/// A write that takes no byte of a slice that is not empty counts as failed.
pub trait CountedWrite: Write {
    ghost failed_calls: { Self → ℕ };

    // How many of the next calls are sure to go well if there is room. None: all.
    ghost sure_calls: { Self → Option ℕ };

    // How many bytes there is room for, as far as that is sure.
    ghost room: { Self → ℕ };

    /// How many calls failed, or `u64::MAX` if they are more.
    fn failures(&self) -> u64
        ensures { result ≡ min (failed_calls self.now) (2 ^ 64 - 1) };

    /// Writes a first piece of `bytes`, and returns its length, which is not 0; None if the call failed.
    fn put(&mut self, bytes: &[u8]) -> Option<usize>
        requires { 0 < length bytes.now }
        ensures some { IfSome result (λ n. 0 < n) }
        ensures within { IfSome result (λ n. n ≤ length bytes.now) }
        ensures bytes { Puts (Self.contents self.old) (Self.contents self.new) result bytes.now }
        ensures counted { IfSome result (λ _. failed_calls self.new ≡ failed_calls self.old) }
        ensures failed { IfNone result (failed_calls self.new ≡ failed_calls self.old + 1) }
        ensures only { IfNone result ((sure_calls self.old ≡ Some 0) ⊎ (room self.old ≡ 0)) }
        ensures sure { sure_calls self.new ≡ after_call (sure_calls self.old) }
        ensures taken { IfSome result (λ n. room self.new ≡ room self.old - n) }
        ensures kept { IfNone result (room self.new ≡ room self.old) };

    /// Passes on what is held back, and returns whether the call went well.
    fn try_flush(&mut self) -> bool
        ensures bytes { Keeps (Self.contents self.old) (Self.contents self.new) }
        ensures counted { result ≡ true → failed_calls self.new ≡ failed_calls self.old }
        ensures failed { result ≡ false → failed_calls self.new ≡ failed_calls self.old + 1 }
        ensures only { result ≡ false → sure_calls self.old ≡ Some 0 }
        ensures sure { sure_calls self.new ≡ sure_calls self.old }
        ensures room { room self.new ≡ room self.old };
}
