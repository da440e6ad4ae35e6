//! The header of a stored graph.

ghost use Rattle.std.specs.Prelude.{◌≡◌, ◌≢◌, ◌+◌, ◌^◌, ◌<◌, ◌≤◌, length, IfOk, IfErr};
ghost use Rattle.std.specs.Int.{w32, w64};
ghost use Rattle.ball_model.specs.PlanValue.{most_vertices};
ghost use Rattle.stored.specs.Reading.{check_stored_head, field, stored_head_at, IsRead};

use crate::error::StoredError;
use crate::sizes::HEADER_LEN;

/// `HBGR`.
pub(crate) const MAGIC: u32 = 0x4842_4752;

/// The version that is written and read.
pub(crate) const VERSION: u8 = 1;

/// How many vertices there are at most.
const MOST_VERTICES: u32 = 1 << 31;

/// How many edges there are at most.
const MOST_EDGES: u64 = (1 << 32) - 1;

/// What stands before the labels, as the bytes have it.
#[derive(Clone, Copy)]
pub struct StoredHeader {
    /// `HBGR` in every stored graph.
    pub magic: u32,
    /// 1.
    pub version: u8,
    /// How many vertices there are.
    pub vertices: u32,
    /// How many edges there are.
    pub edges: u64,
    /// How many bytes the labels have, with an LF after each.
    pub labels: u64,
}

// The big-endian number of four bytes at a place.
pub(crate) fn u32_at(bytes: &[u8], at: usize) -> u32
    requires { at + 4 ≤ length bytes.now }
    ensures { result ≡ field w32 at bytes.now }
{
    u32::from_be_bytes([bytes[at], bytes[at + 1], bytes[at + 2], bytes[at + 3]])
}

// The big-endian number of eight bytes at a place.
pub(crate) fn u64_at(bytes: &[u8], at: usize) -> u64
    requires { at + 8 ≤ length bytes.now }
    ensures { result ≡ field w64 at bytes.now }
{
    let mut number = [0; 8];
    number.copy_from_slice(&bytes[at..at + 8]);
    u64::from_be_bytes(number)
}

/// The header of bytes that are long enough.
#[tactic(auto, unfolding(crate::specs::Reading::stored_head_at))]
pub(crate) fn header_at(bytes: &[u8]) -> StoredHeader
    requires { HEADER_LEN ≤ length bytes.now }
    ensures { result ≡ stored_head_at bytes.now }
{
    StoredHeader {
        magic: u32_at(bytes, 0),
        version: bytes[4],
        vertices: u32_at(bytes, 5),
        edges: u64_at(bytes, 9),
        labels: u64_at(bytes, 17),
    }
}

/// The first fault of the header.
#[tactic(auto, unfolding(crate::specs::Reading::check_stored_head))]
pub(crate) fn checked(header: StoredHeader) -> Result<StoredHeader, StoredError>
    ensures value { result ≡ check_stored_head header }
    ensures few { IfOk result (λ h. h.vertices ≤ most_vertices) }
    ensures few_edges { IfOk result (λ h. h.edges < 2 ^ 32) }
    ensures kind { IfErr result (λ e. IsRead e → ⊥) }
    ensures no_memory { IfErr result (λ e. e ≢ StoredError.Memory) }
{
    if header.magic != MAGIC {
        return Err(StoredError::Magic);
    }
    if header.version != VERSION {
        return Err(StoredError::Version);
    }
    if header.vertices > MOST_VERTICES || header.edges > MOST_EDGES {
        return Err(StoredError::Size);
    }
    Ok(header)
}
