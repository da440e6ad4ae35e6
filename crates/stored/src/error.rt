//! Why a graph is not stored, and why bytes are no stored graph.

ghost use Rattle.std.specs.Prelude.{◌≡◌};
ghost use Rattle.stored.specs.Reading.{lines_refusal, refusal_of};
ghost use Rattle.stored.specs.declared.error.StoreError.TheVariants as store_fault;
ghost use Rattle.stored.specs.declared.error.StoredError.TheVariants as stored_fault;

use gapcode::CodeError;
use graph::LinesError;
use std::alloc::AllocError;
use thiserror::Error;

/// Why a graph is not stored.
#[derive(Clone, Copy, Debug, PartialEq, Eq, Error)]
pub enum StoreError {
    /// A label is empty, has an LF, or all together have too many bytes. Nothing is written then.
    #[error("a label is empty or has a line feed")]
    Labels,
    /// A write failed.
    #[error("the stored graph cannot be written")]
    Write,
    /// Memory was refused.
    #[error("out of memory")]
    Memory,
}

impl From<AllocError> for StoreError {
    ghost from_gives = { λ _ e. e ≡ store_fault.Memory };

    fn from(_error: AllocError) -> StoreError {
        StoreError::Memory
    }
}

/// A write failed, and no other was tried.
#[derive(Drop)]
pub(crate) struct Failed;

impl From<Failed> for StoreError {
    ghost from_gives = { λ _ e. e ≡ store_fault.Write };

    fn from(_failed: Failed) -> StoreError {
        StoreError::Write
    }
}

/// Why bytes are no stored graph: the first check that fails.
#[derive(Clone, Copy, Debug, PartialEq, Eq, Error)]
pub enum StoredError {
    /// A read failed.
    #[error("the stored graph cannot be read")]
    Read,
    /// The bytes end too early.
    #[error("the stored graph is cut short")]
    Short,
    /// The bytes do not begin with `HBGR`.
    #[error("this is not a stored graph")]
    Magic,
    /// The version is not 1.
    #[error("the stored graph is not of version 1")]
    Version,
    /// There are more than 2^31 vertices, or more than 2^32 - 1 edges.
    #[error("the stored graph has too many vertices or edges")]
    Size,
    /// The labels are not as many as the vertices, or one is empty.
    #[error("the labels of the stored graph are not as many as its vertices, or one is empty")]
    Labels,
    /// A block has no vertex, or others than those that are its own.
    #[error("a block of the stored graph has other vertices than its own")]
    Block,
    /// A block's bits end before a code does.
    #[error("a block of the stored graph ends within a code")]
    Ended,
    /// 64 zero bits stand where a code has to begin.
    #[error("a block of the stored graph has a number of more than 64 bits")]
    TooLong,
    /// A predecessor is no vertex.
    #[error("a block of the stored graph names a vertex that is not there")]
    Range,
    /// A bit behind the last list of a block is set.
    #[error("a block of the stored graph has padding that is set")]
    Padding,
    /// A whole byte follows the lists of a block.
    #[error("a block of the stored graph has bytes after its last list")]
    Behind,
    /// The edges are not as many as the header says.
    #[error("the stored graph has another number of edges")]
    Edges,
    /// The last 32 bytes are not the SHA-256 of those before.
    #[error("the stored graph has another digest")]
    Digest,
    /// More bytes follow.
    #[error("bytes follow the stored graph")]
    Trailing,
    /// Memory was refused. It is answered only where the checks before passed.
    #[error("out of memory")]
    Memory,
}

impl From<AllocError> for StoredError {
    ghost from_gives = { λ _ e. e ≡ stored_fault.Memory };

    fn from(_error: AllocError) -> StoredError {
        StoredError::Memory
    }
}

impl From<CodeError> for StoredError {
    ghost from_gives = { λ fault e. e ≡ refusal_of fault };

    fn from(fault: CodeError) -> StoredError {
        match fault {
            CodeError::Ended => StoredError::Ended,
            CodeError::TooLong => StoredError::TooLong,
            CodeError::Range => StoredError::Range,
            CodeError::Padding => StoredError::Padding,
            CodeError::Trailing => StoredError::Behind,
            CodeError::Memory => StoredError::Memory,
        }
    }
}

impl From<LinesError> for StoredError {
    ghost from_gives = { λ fault e. e ≡ lines_refusal fault };

    fn from(fault: LinesError) -> StoredError {
        match fault {
            LinesError::Lines => StoredError::Labels,
            LinesError::Memory => StoredError::Memory,
        }
    }
}
