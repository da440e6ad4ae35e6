//! Why a checkpoint is not written or read.

ghost use Rattle.std.specs.Prelude.{◌≡◌};
ghost use Rattle.checkpoint.specs.declared.error.KeepError.TheVariants.{Memory, Write};

use std::alloc::AllocError;
use thiserror::Error;

/// Why a checkpoint is not written, or its bytes are not read: the first check that fails.
#[derive(Clone, Copy, Debug, PartialEq, Eq, Error)]
pub enum KeepError {
    /// A write failed.
    #[error("the checkpoint cannot be written")]
    Write,
    /// A read failed.
    #[error("the checkpoint cannot be read")]
    Read,
    /// The bytes end too early.
    #[error("too few bytes")]
    Short,
    /// The bytes do not begin with `HBCK`.
    #[error("not a checkpoint")]
    Magic,
    /// The version is neither 1 nor 2.
    #[error("not of version 1 or 2")]
    Version,
    /// The job digest is another one.
    #[error("the checkpoint is of another job")]
    OtherJob,
    /// The partition is another one.
    #[error("the checkpoint is of another partition")]
    OtherPart,
    /// The bytes spell what no replica of the partition has.
    #[error("no replica has this shape")]
    Shape,
    /// Memory was refused. It is answered only if no check of the bytes up to their end fails.
    #[error("out of memory")]
    Memory,
    /// The last 32 bytes are not the SHA-256 of those before.
    #[error("the digest is another one")]
    Digest,
    /// There are more bytes than a checkpoint has.
    #[error("bytes after the digest")]
    Trailing,
}

impl From<AllocError> for KeepError {
    ghost from_gives = { λ _ e. e ≡ Memory };

    fn from(_e: AllocError) -> KeepError {
        KeepError::Memory
    }
}

/// A write failed, and no other was tried.
#[derive(Drop)]
pub(crate) struct Failed;

impl From<Failed> for KeepError {
    ghost from_gives = { λ _ e. e ≡ Write };

    fn from(_failed: Failed) -> KeepError {
        KeepError::Write
    }
}
