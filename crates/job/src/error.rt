//! Why an input says no job.

ghost use Rattle.std.specs.Prelude.{◌≡◌};

use ball_model::PlanError;
use edgelist::{CountedError, EdgeError};
use std::alloc::AllocError;
use thiserror::Error;

/// Why there is no job, in the order of the checks.
#[derive(Clone, Copy, Debug, PartialEq, Eq, Error)]
pub enum InputError {
    /// The edge list is refused.
    #[error("{0}")]
    Edges(EdgeError),
    /// No line of %% ends the edge list.
    #[error("no line %% after the edge list")]
    NoMark,
    /// No line of %% is within the first 2^64 - 1 bytes.
    #[error("the edge list is longer than 18446744073709551614 bytes")]
    EdgesSize,
    /// No line of %% ends the list of counted vertices.
    #[error("no line %% after the list")]
    NoListMark,
    /// The list of counted vertices has more than 2^26 bytes.
    #[error("the list is longer than 67108864 bytes")]
    ListSize,
    /// The list of counted vertices is refused.
    #[error("{0}")]
    Counted(CountedError),
    /// There is no such plan.
    #[error("{0}")]
    Plan(PlanError),
    /// Memory was refused.
    #[error("out of memory")]
    Memory,
    /// A call of the reader failed.
    #[error("the input cannot be read")]
    Read,
}

impl From<EdgeError> for InputError {
    ghost use Rattle.job.specs.declared.error.InputError.TheVariants.{Edges};

    ghost from_gives = { λ fault e. e ≡ Edges fault };

    fn from(fault: EdgeError) -> InputError {
        InputError::Edges(fault)
    }
}

impl From<CountedError> for InputError {
    ghost use Rattle.job.specs.declared.error.InputError.TheVariants.{Counted};

    ghost from_gives = { λ fault e. e ≡ Counted fault };

    fn from(fault: CountedError) -> InputError {
        InputError::Counted(fault)
    }
}

impl From<PlanError> for InputError {
    ghost use Rattle.job.specs.declared.error.InputError.TheVariants.{Plan};

    ghost from_gives = { λ fault e. e ≡ Plan fault };

    fn from(fault: PlanError) -> InputError {
        InputError::Plan(fault)
    }
}

impl From<AllocError> for InputError {
    ghost use Rattle.job.specs.declared.error.InputError.TheVariants.{Memory};

    ghost from_gives = { λ _ e. e ≡ Memory };

    fn from(_fault: AllocError) -> InputError {
        InputError::Memory
    }
}
