//! Why a node or a gathering gives up.

ghost use Rattle.std.specs.Prelude.{◌≡◌};

use checkpoint::KeepError;
use job::InputError;
use report::ReportError;
use std::alloc::AllocError;
use thiserror::Error;
use world::tell::TellError;

/// Why a node that has a job answers no more. Commands are numbered from 1 on.
#[derive(Clone, Copy, Debug, PartialEq, Eq, Error)]
pub enum ServeError {
    /// The line is no command.
    #[error("command {number} is no command")]
    Command { number: u64 },
    /// More bytes are announced than a batch or a checkpoint of the job has at most.
    #[error("command {number} has too long a body")]
    Length { number: u64 },
    /// The input ends within the command.
    #[error("the input ends within command {number}")]
    Cut { number: u64 },
    /// There are more commands than can be numbered.
    #[error("too many commands")]
    TooMany,
    /// Memory was refused.
    #[error("out of memory")]
    Memory,
    /// A call of the reader failed.
    #[error("the input cannot be read")]
    Read,
    /// A write failed.
    #[error("the output cannot be written")]
    Write,
}

impl From<TellError> for ServeError {
    ghost use Rattle.node.specs.Serving.{serve_error_of};

    ghost from_gives = { λ fault e. e ≡ serve_error_of fault };

    fn from(fault: TellError) -> ServeError {
        match fault {
            TellError::Memory => ServeError::Memory,
            TellError::Write => ServeError::Write,
        }
    }
}

/// Why a node answers no more, or not at all.
#[derive(Clone, Copy, Debug, PartialEq, Eq, Error)]
pub enum ServeNodeError {
    /// It has no job.
    #[error("{0}")]
    Job(InputError),
    /// There is no such partition.
    #[error("there is no such partition")]
    Part,
    /// It gives up its commands.
    #[error("{0}")]
    Serve(ServeError),
}

impl From<InputError> for ServeNodeError {
    ghost use Rattle.node.specs.declared.error.ServeNodeError.TheVariants.{Job};

    ghost from_gives = { λ fault e. e ≡ Job fault };

    fn from(fault: InputError) -> ServeNodeError {
        ServeNodeError::Job(fault)
    }
}

impl From<AllocError> for ServeNodeError {
    ghost use Rattle.job.specs.declared.error.InputError.TheVariants.{Memory};
    ghost use Rattle.node.specs.declared.error.ServeNodeError.TheVariants.{Job};

    ghost from_gives = { λ _ e. e ≡ Job Memory };

    fn from(_fault: AllocError) -> ServeNodeError {
        ServeNodeError::Job(InputError::Memory)
    }
}

impl From<ServeError> for ServeNodeError {
    ghost use Rattle.node.specs.declared.error.ServeNodeError.TheVariants.{Serve};

    ghost from_gives = { λ fault e. e ≡ Serve fault };

    fn from(fault: ServeError) -> ServeNodeError {
        ServeNodeError::Serve(fault)
    }
}

/// Why no report is gathered, or not all of it.
#[derive(Clone, Copy, Debug, PartialEq, Eq, Error)]
pub enum GatherError {
    /// There is no job.
    #[error("{0}")]
    Job(InputError),
    /// The input ends before the checkpoint of this partition.
    #[error("no checkpoint of partition {part}")]
    Missing { part: u16 },
    /// No line `part L` is before the checkpoint of this partition.
    #[error("no line before the checkpoint of partition {part}")]
    Line { part: u16 },
    /// More bytes are announced than a checkpoint of the partition has at most.
    #[error("too long a checkpoint of partition {part}")]
    Length { part: u16 },
    /// The input ends within the checkpoint of this partition.
    #[error("the input ends within the checkpoint of partition {part}")]
    Cut { part: u16 },
    /// The bytes are no checkpoint of this partition of the job.
    #[error("partition {part}: {error}")]
    Checkpoint { part: u16, error: KeepError },
    /// Bytes follow the checkpoint of the last partition.
    #[error("bytes after the last checkpoint")]
    Trailing,
    /// The checkpoints are not all of the end of a run.
    #[error("the checkpoints are not those of the end of a run")]
    NotReady,
    /// Memory was refused.
    #[error("out of memory")]
    Memory,
    /// A call of the reader failed.
    #[error("the input cannot be read")]
    Read,
    /// A write failed.
    #[error("the output cannot be written")]
    Write,
}

impl From<InputError> for GatherError {
    ghost use Rattle.node.specs.declared.error.GatherError.TheVariants.{Job};

    ghost from_gives = { λ fault e. e ≡ Job fault };

    fn from(fault: InputError) -> GatherError {
        GatherError::Job(fault)
    }
}

impl From<AllocError> for GatherError {
    ghost use Rattle.node.specs.declared.error.GatherError.TheVariants.{Memory};

    ghost from_gives = { λ _ e. e ≡ Memory };

    fn from(_fault: AllocError) -> GatherError {
        GatherError::Memory
    }
}

impl From<ReportError> for GatherError {
    ghost use Rattle.node.specs.Gathering.{report_fault};

    ghost from_gives = { λ fault e. e ≡ report_fault fault };

    fn from(fault: ReportError) -> GatherError {
        match fault {
            ReportError::Memory => GatherError::Memory,
            ReportError::Write => GatherError::Write,
        }
    }
}
