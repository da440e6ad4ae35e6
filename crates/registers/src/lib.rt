//! Registers of HyperLogLog counters.
//!
//! A counter of 2^log2m registers is a slice of as many bytes. The counter of a union of sets is the maximum of
//! their counters, register by register (HyperLogLog 2007): [`max_into`] takes that maximum and returns whether it
//! changed anything, so that a superstep knows what to send (HyperBall 2013). [`Rows`] has one counter for
//! each vertex, side by side in one buffer that is taken once. [`raise_by_eight`] takes the maximum with eight of them
//! in one pass.
//!
//! [`Join`] is what can be joined in any order and any number of times with the same outcome, as [`Rows`] by their
//! maximum and a [`SourceMask`] by the sources of both; [`reconcile`] makes two such values equal.
//!
//! Nothing here limits a register to the ranks of a hash: what is at most 33 stays so, since a maximum makes no
//! new numbers.
//!
//! Proved callers: `uses::of_registers::{add_counter, empty_after_one, still_missing, share_sources}`.
#![tactic(auto)]

ghost use Rattle.std.specs.Prelude.{◌≡◌, ◌↔◌, length, false};
ghost use Rattle.ball_model.specs.Counter.{max_each};

mod eight;
mod join;
mod lanes;
mod marks;
mod mask;
mod rows;
mod takes;

pub use eight::raise_by_eight;
pub use join::{Join, reconcile};
use lanes::{HALF, LANES, raise_half, raise_lanes};
pub use marks::next_marked;
pub use mask::SourceMask;
pub use rows::{LINE, Rows, glance_over};
pub use takes::take_over;

/// Each byte of `dst` becomes the maximum of itself and the byte of `src` there; the answer is whether one changed.
///
/// Both have the same length. 32 bytes are taken at once, or 16, and the loop over the rest has no branch.
pub fn max_into(dst: &mut [u8], src: &[u8]) -> bool
    requires { length dst.old ≡ length src.now }
    ensures maximum { dst.new ≡ max_each dst.old src.now }
    ensures unchanged { (result ≡ false) ↔ (dst.new ≡ dst.old) }
{
    let len = dst.len();
    let mut changed = false;
    let mut done = 0;
    while len - done >= LANES {
        changed |= raise_lanes(dst, src, done);
        done += LANES;
    }
    if len - done >= HALF {
        changed |= raise_half(dst, src, done);
        done += HALF;
    }
    for i in done..len {
        changed |= dst[i] < src[i];
        dst[i] = dst[i].max(src[i]);
    }
    changed
}
