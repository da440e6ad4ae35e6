//! Rows of registers, sets of sources, and joins.

ghost use Rattle.std.specs.Prelude.{◌≡◌, length, true, IfOk, Some};
ghost use Rattle.ball_model.specs.Counter.{max_each};

use registers::{Rows, SourceMask, max_into, reconcile};
use std::alloc::{AllocError, Global};

/// A counter of a union: the maximum of two counters, register by register.
pub fn add_counter(counter: &mut [u8], other: &[u8])
    requires { length counter.old ≡ length other.now }
    ensures { counter.new ≡ max_each counter.old other.now }
{
    max_into(counter, other);
}

/// Two rows of 16 registers; register 14 of the second becomes 3, so 15 of its registers are 0.
pub fn empty_after_one(alloc: Global) -> Result<u32, AllocError>
    ensures { IfOk result (λ count. count ≡ 15) }
{
    let mut rows = Rows::fixed(alloc, 2, 16)?;
    rows.raise_one(1, 14, 3);
    Ok(rows.empty_count(1))
}

/// Of three partitions, what the first one still waits for once the second was heard.
pub fn still_missing() -> Option<u16>
    ensures { result ≡ Some 2 }
{
    let mut heard = SourceMask::empty();
    heard.insert(1);
    heard.least_missing(3, 0)
}

/// Two sets of sources become one and the same; that takes no memory.
pub fn share_sources(alloc: Global, left: &mut SourceMask, right: &mut SourceMask) -> bool
    ensures same { left.new ≡ right.new }
    ensures always { result ≡ true }
{
    reconcile(alloc, left, right).is_ok()
}
