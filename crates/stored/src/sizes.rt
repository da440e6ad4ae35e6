//! How many bytes the fields of a stored graph have.

/// What stands before the labels.
pub const HEADER_LEN: usize = 25;

/// What stands before the code of a block.
pub const BLOCK_HEAD_LEN: usize = 12;

/// The SHA-256 of all before.
pub const DIGEST_LEN: usize = 32;

/// How many vertices a block has at most.
pub const BLOCK_VERTICES: u32 = 1 << 16;

/// How many bits of code make a block full.
pub const BLOCK_BITS: u128 = 1 << 20;

/// The byte after each label.
pub(crate) const LF: u8 = b'\n';

/// How many bytes are read, or digested and written, at once, at most.
pub(crate) const PIECE: usize = 4096;
