//! How many bytes the fields of a checkpoint have.

/// The fixed fields.
pub const HEADER_LEN: usize = 54;

/// A vertex beside its registers: its mark and its figures.
pub const ENTRY_LEN: usize = 33;

/// Each sum.
pub const SUM_LEN: usize = 16;

/// Which sources are heard, and whether one of them has changed vertices.
pub const HEARD_LEN: usize = 9;

/// The number of batches.
pub const COUNT_LEN: usize = 2;

/// The length of a batch, before it.
pub const LENGTH_LEN: usize = 8;

/// A vertex's number in a batch, before its registers.
pub const ID_LEN: usize = 4;

/// The SHA-256 of all before.
pub const DIGEST_LEN: usize = 32;

/// How many bytes are read, or digested and written, at once, at most.
pub(crate) const PIECE: usize = 4096;
