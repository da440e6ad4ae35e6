//! The fixed fields of a checkpoint.

ghost use Rattle.std.specs.Prelude.{◌≡◌, ◌+◌, ◌≤◌, length, take, drop, OnOk, IfErr};
ghost use Rattle.std.specs.Int.{w16, w32};
ghost use Rattle.ball_model.specs.PlanValue.{greatest_limit};
ghost use Rattle.batches.specs.Kept.{field};
ghost use Rattle.checkpoint.specs.Reading.{check_checkpoint_head, checkpoint_head_at, IsRead};

use crate::error::KeepError;
use crate::sizes::HEADER_LEN;
use graph::Part;

/// `HBCK`.
pub(crate) const MAGIC: u32 = 0x4842_434b;

/// The fixed fields as the bytes have them, not checked yet.
#[derive(Clone, Copy)]
pub(crate) struct CheckpointHeader {
    /// `HBCK` in every checkpoint.
    pub(crate) magic: u32,
    /// 1 or 2.
    pub(crate) version: u8,
    /// The binary logarithm of the number of registers.
    pub(crate) log2m: u8,
    /// The number of partitions.
    pub(crate) parts: u16,
    /// The number of the partition.
    pub(crate) partition: u16,
    /// How many vertices the graph has.
    pub(crate) vertices: u32,
    /// How many vertices the partition has.
    pub(crate) size: u32,
    /// The superstep.
    pub(crate) superstep: u32,
    /// The job digest.
    pub(crate) job: [u8; 32],
}

// The big-endian number of two bytes at a place.
pub(crate) fn u16_at(bytes: &[u8], at: usize) -> u16
    requires { at + 2 ≤ length bytes.now }
    ensures { result ≡ field w16 at bytes.now }
{
    u16::from_be_bytes([bytes[at], bytes[at + 1]])
}

// The big-endian number of four bytes at a place.
fn u32_at(bytes: &[u8], at: usize) -> u32
    requires { at + 4 ≤ length bytes.now }
    ensures { result ≡ field w32 at bytes.now }
{
    u32::from_be_bytes([bytes[at], bytes[at + 1], bytes[at + 2], bytes[at + 3]])
}

// The 32 bytes at place 22.
fn job_at(bytes: &[u8]) -> [u8; 32]
    requires { HEADER_LEN ≤ length bytes.now }
    ensures { result ≡ take 32 (drop 22 bytes.now) }
{
    let mut job = [0; 32];
    job.copy_from_slice(&bytes[22..HEADER_LEN]);
    job
}

/// The fixed fields of bytes that are long enough.
#[tactic(auto, unfolding(crate::specs::Reading::checkpoint_head_at))]
pub(crate) fn read_header(bytes: &[u8]) -> CheckpointHeader
    requires { HEADER_LEN ≤ length bytes.now }
    ensures { result ≡ checkpoint_head_at bytes.now }
{
    CheckpointHeader {
        magic: u32_at(bytes, 0),
        version: bytes[4],
        log2m: bytes[5],
        parts: u16_at(bytes, 6),
        partition: u16_at(bytes, 8),
        vertices: u32_at(bytes, 10),
        size: u32_at(bytes, 14),
        superstep: u32_at(bytes, 18),
        job: job_at(bytes),
    }
}

/// The first fault of the fixed fields.
#[tactic(auto, unfolding(crate::specs::Reading::check_checkpoint_head))]
pub(crate) fn check_header(part: &Part, header: &CheckpointHeader) -> Result<(), KeepError>
    ensures value { result ≡ check_checkpoint_head part.now header.now }
    ensures in_time { OnOk result (header.now.superstep ≤ part.now.plan.limit) }
    ensures small { OnOk result (header.now.superstep ≤ greatest_limit) }
    ensures of_bytes { IfErr result (λ e. IsRead e → ⊥) }
    ensures memory { IfErr result (λ e. e ≡ KeepError.Memory → ⊥) }
{
    let plan = part.plan();
    if header.magic != MAGIC {
        return Err(KeepError::Magic);
    }
    if header.version != 1 && header.version != 2 {
        return Err(KeepError::Version);
    }
    if header.job != plan.job() {
        return Err(KeepError::OtherJob);
    }
    if header.partition != part.partition() {
        return Err(KeepError::OtherPart);
    }
    if header.log2m != plan.log2m() || header.parts != plan.parts() {
        return Err(KeepError::Shape);
    }
    if header.vertices != plan.vertices() || header.size != part.size() {
        return Err(KeepError::Shape);
    }
    if header.superstep > plan.limit() {
        return Err(KeepError::Shape);
    }
    Ok(())
}
