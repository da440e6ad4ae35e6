//! Why bytes are no batch.

ghost use Rattle.std.specs.Prelude.{◌≡◌};
ghost use Rattle.batches.specs.declared.error.BatchError.TheVariants.{Memory};

use std::alloc::AllocError;
use thiserror::Error;

/// Why bytes are no batch of a plan: the first check that fails.
#[derive(Clone, Copy, Debug, PartialEq, Eq, Error)]
pub enum BatchError {
    /// There are fewer bytes than the fixed fields have, or fewer than the rows have.
    #[error("too few bytes")]
    Short,
    /// The bytes do not begin with `HBBT`.
    #[error("not a batch")]
    Magic,
    /// The version is not 1.
    #[error("not of version 1")]
    Version,
    /// The counters have another number of registers than the plan's.
    #[error("another size of counters")]
    Size,
    /// The superstep is above the limit, or a partition is not below the number of partitions.
    #[error("no batch has this name")]
    Name,
    /// More vertices are changed than the source has, or there are more rows than changed vertices.
    #[error("a count is too great")]
    Count,
    /// There are more bytes than the rows have.
    #[error("bytes after the last row")]
    Trailing,
    /// A row is of a number that is no vertex of the source.
    #[error("not a vertex of the source")]
    Vertex,
    /// A row's vertex is not above the one before.
    #[error("vertices do not ascend")]
    Order,
    /// A register is above 33.
    #[error("a register is too great")]
    Rank,
    /// Memory was refused. It is answered only if the bytes pass all checks.
    #[error("out of memory")]
    Memory,
}

impl From<AllocError> for BatchError {
    ghost from_gives = { λ _ e. e ≡ Memory };

    fn from(_e: AllocError) -> BatchError {
        BatchError::Memory
    }
}
