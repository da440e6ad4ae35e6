//! What hyperball speaks of: its definitions (in `specs/`), their laws, and the types that every crate names.
//!
//! A [`Plan`] says how many registers a counter has, under which seed vertices are hashed, among how many partitions
//! they are dealt out, and after how many supersteps a run stops at the latest. A vertex is hashed by [`mix`], and
//! [`place`] reads a register and a rank off the hash. A [`BatchName`] names what a partition sends another for a
//! superstep. An [`Event`](world::Event) is what happens in a world of replicas. The functions of [`laws`], of
//! [`history`] and of [`world`] do nothing: the contract of each is a law of the definitions.
//!
//! Only crates that read or write text use the streams. By [`CountedRead`] and [`CountedWrite`] a contract sees how
//! many calls failed: [`CountingReader`] and [`CountingWriter`] count those of a stream inside, and [`MemReader`] and
//! [`MemWriter`] are streams over memory that fail from a chosen call on. [`put_all`] writes all of some bytes, and
//! [`fill`] reads until a buffer is full or the input ends.
//!
//! Proved callers: `uses::of_ball_model::{register_of, size_around, earlier_name, failures_of_two, copied}`.
#![tactic(auto)]

ghost use Rattle.std.specs.Prelude.{◌≡◌, ◌≤◌, ◌<◌, ◌^◌};
ghost use Rattle.ball_model.specs.declared.plan.TheConstants.{GREATEST_RANK};
ghost use Rattle.ball_model.specs.Hash.{hash_of, index_of, rank_of};

pub mod history;
pub mod laws;
mod names;
pub mod plan;
mod streams;
pub mod world;

pub use history::{Kept, Posted};
pub use names::{BatchName, CloseError, MergeError, NodeId, TakeError, Taken, Verdict};
pub use plan::{Estimate, Plan, PlanError};
pub use streams::{
    CountedRead, CountedWrite, CountingReader, CountingWriter, Filled, MemReader, MemWriter, fill,
    put_all,
};

/// The hash of a vertex under a seed: the step and the finalizer of SplitMix64.
pub fn mix(seed: u64, v: u32) -> u64
    ensures { result ≡ hash_of seed v }
{
    let start = seed.wrapping_add((u64::from(v) + 1).wrapping_mul(0x9e3779b97f4a7c15));
    let second = (start ^ (start >> 30)).wrapping_mul(0xbf58476d1ce4e5b9);
    let third = (second ^ (second >> 27)).wrapping_mul(0x94d049bb133111eb);
    third ^ (third >> 31)
}

/// The register that a hash falls into, of 2^log2m, and its rank there, from 1 to 33.
///
/// The register is the top `log2m` bits; the rank is the position, from 1, of the leftmost 1 among the next 32 bits,
/// and 33 if all of them are 0 (HyperLogLog 2007).
pub fn place(log2m: u8, hash: u64) -> (u16, u8)
    requires low { 4 ≤ log2m }
    requires high { log2m ≤ 10 }
    ensures index { result.0 ≡ index_of log2m hash }
    ensures rank { result.1 ≡ rank_of log2m hash }
    ensures in_range { result.0 < 2 ^ log2m }
    ensures rank_from { 1 ≤ result.1 }
    ensures rank_to { result.1 ≤ GREATEST_RANK }
{
    let index = (hash >> (64 - u32::from(log2m))) as u16;
    let tail = ((hash >> (32 - u32::from(log2m))) & 0xffff_ffff) as u32;
    (index, tail.leading_zeros() as u8 + 1)
}
