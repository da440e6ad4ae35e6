//! The fixed fields of a batch's bytes.

ghost use Rattle.std.specs.Prelude.{◌≡◌, ◌+◌, ◌≤◌, ◌++◌, length, take};
ghost use Rattle.std.specs.Prelude.{drop, OnOk};
ghost use Rattle.std.specs.Int.{w16, w32, to_be_bytes};
ghost use Rattle.batches.specs.Kept.{field};
ghost use Rattle.batches.specs.Reading.{head_at, head_bytes, check_head};

use crate::error::BatchError;
use ball_model::{BatchName, Plan};
use byteorder::{BigEndian, ByteOrder};
use std::alloc::AllocError;

/// `HBBT`.
pub(crate) const MAGIC: u32 = 0x4842_4254;

/// The version that is written, and the only one that is read.
pub(crate) const VERSION: u8 = 1;

/// How many bytes the fixed fields have.
pub const HEADER_LEN: usize = 54;

/// The fixed fields as the bytes have them, not checked yet.
#[derive(Clone, Copy)]
pub(crate) struct Header {
    /// [`MAGIC`] in every batch.
    pub(crate) magic: u32,
    /// [`VERSION`] in every batch.
    pub(crate) version: u8,
    /// The binary logarithm of the number of registers.
    pub(crate) log2m: u8,
    /// The superstep, the source and the target.
    pub(crate) name: BatchName,
    /// The job digest.
    pub(crate) job: [u8; 32],
    /// How many vertices of the source are changed at the superstep.
    pub(crate) changed: u32,
    /// How many rows follow.
    pub(crate) count: u32,
}

/// The big-endian number of four bytes at a place.
pub(crate) fn u32_at(bytes: &[u8], at: usize) -> u32
    requires { at + 4 ≤ length bytes.now }
    ensures { result ≡ field w32 at bytes.now }
{
    u32::from_be_bytes([bytes[at], bytes[at + 1], bytes[at + 2], bytes[at + 3]])
}

/// The big-endian number of two bytes at a place.
fn u16_at(bytes: &[u8], at: usize) -> u16
    requires { at + 2 ≤ length bytes.now }
    ensures { result ≡ field w16 at bytes.now }
{
    u16::from_be_bytes([bytes[at], bytes[at + 1]])
}

fn job_at(bytes: &[u8]) -> [u8; 32]
    requires { 46 ≤ length bytes.now }
    ensures { result ≡ take 32 (drop 14 bytes.now) }
{
    let mut job = [0; 32];
    job.copy_from_slice(&bytes[14..46]);
    job
}

/// The fixed fields of bytes that are long enough.
#[tactic(auto, unfolding(crate::specs::Reading::head_at))]
pub(crate) fn read_header(bytes: &[u8]) -> Header
    requires { HEADER_LEN ≤ length bytes.now }
    ensures { result ≡ head_at bytes.now }
{
    Header {
        magic: u32_at(bytes, 0),
        version: bytes[4],
        log2m: bytes[5],
        name: BatchName {
            superstep: u32_at(bytes, 6),
            source: u16_at(bytes, 10),
            target: u16_at(bytes, 12),
        },
        job: job_at(bytes),
        changed: u32_at(bytes, 46),
        count: u32_at(bytes, 50),
    }
}

/// The first fault of the fixed fields.
#[tactic(auto, unfolding(crate::specs::Reading::check_head))]
pub(crate) fn check_header(plan: &Plan, header: &Header) -> Result<(), BatchError>
    ensures { result ≡ check_head plan.now header.now }
{
    if header.magic != MAGIC {
        return Err(BatchError::Magic);
    }
    if header.version != VERSION {
        return Err(BatchError::Version);
    }
    if header.log2m != plan.log2m() {
        return Err(BatchError::Size);
    }
    let name = header.name;
    if name.superstep > plan.limit() || name.source >= plan.parts() || name.target >= plan.parts() {
        return Err(BatchError::Name);
    }
    if header.changed > plan.part_size(name.source) || header.count > header.changed {
        return Err(BatchError::Count);
    }
    Ok(())
}

/// Appends a number, big-endian.
pub(crate) fn put_u32(out: &mut Vec<u8>, number: u32) -> Result<(), AllocError>
    ensures { OnOk result (out.new.items ≡ out.old.items ++ to_be_bytes w32 number) }
{
    let mut field = [0; 4];
    BigEndian::write_u32(&mut field, number);
    out.extend_from_slice(&field)
}

fn set_field(bytes: &mut [u8], at: usize, field: &[u8])
    requires { at + length field.now ≤ length bytes.old }
    ensures { take (at + length field.now) bytes.new ≡ take at bytes.old ++ field.now }
{
    bytes[at..at + field.len()].copy_from_slice(field);
}

/// The fixed fields as bytes.
#[tactic(auto, unfolding(crate::specs::Reading::head_bytes))]
pub(crate) fn spell_header(header: &Header) -> [u8; HEADER_LEN]
    ensures { result ≡ head_bytes header.now }
{
    let name = header.name;
    let mut bytes = [0; HEADER_LEN];
    set_field(&mut bytes, 0, &header.magic.to_be_bytes());
    set_field(&mut bytes, 4, &[header.version, header.log2m]);
    set_field(&mut bytes, 6, &name.superstep.to_be_bytes());
    set_field(&mut bytes, 10, &name.source.to_be_bytes());
    set_field(&mut bytes, 12, &name.target.to_be_bytes());
    set_field(&mut bytes, 14, &header.job);
    set_field(&mut bytes, 46, &header.changed.to_be_bytes());
    set_field(&mut bytes, 50, &header.count.to_be_bytes());
    bytes
}
