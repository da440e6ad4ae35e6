//! Why a command is not done, and how that is reported.

ghost use Rattle.std.specs.Prelude.{◌≡◌};

use crate::whole::{Lack, WholeError};
use node::error::{GatherError, ServeNodeError};
use std::fmt::Display;
use std::io::Write;
use thiserror::Error;
use workers::RunError;
use world::replay::ReplayError;

/// Why a command is not done, in the order of the checks.
#[derive(Clone, Copy, Debug, Error)]
pub(crate) enum Fault {
    /// Memory was refused for the gate of a run.
    #[error("out of memory")]
    Gate,
    /// There are no random words to hash labels by.
    #[error("the system gives no random words")]
    Random,
    /// The input is not read whole.
    #[error(transparent)]
    Input(WholeError),
    /// The input lacks a part.
    #[error(transparent)]
    Lacks(Lack),
    /// A run gives no report.
    #[error(transparent)]
    Run(RunError),
    /// A replay gives no answers, or not all of them.
    #[error(transparent)]
    Replay(ReplayError),
    /// A node does not answer all commands.
    #[error(transparent)]
    Node(ServeNodeError),
    /// A gathering gives no report.
    #[error(transparent)]
    Gather(GatherError),
}

impl From<WholeError> for Fault {
    ghost use Rattle.hyperball.specs.declared.fault.Fault.TheVariants.{Input};

    ghost from_gives = { λ error e. e ≡ Input error };

    fn from(error: WholeError) -> Fault {
        Fault::Input(error)
    }
}

impl From<Lack> for Fault {
    ghost use Rattle.hyperball.specs.declared.fault.Fault.TheVariants.{Lacks};

    ghost from_gives = { λ error e. e ≡ Lacks error };

    fn from(error: Lack) -> Fault {
        Fault::Lacks(error)
    }
}

impl From<RunError> for Fault {
    ghost use Rattle.hyperball.specs.declared.fault.Fault.TheVariants.{Run as OfRun};

    ghost from_gives = { λ error e. e ≡ OfRun error };

    fn from(error: RunError) -> Fault {
        Fault::Run(error)
    }
}

impl From<ReplayError> for Fault {
    ghost use Rattle.hyperball.specs.declared.fault.Fault.TheVariants.{Replay};

    ghost from_gives = { λ error e. e ≡ Replay error };

    fn from(error: ReplayError) -> Fault {
        Fault::Replay(error)
    }
}

// The status of a fault.
const FAULT: u8 = 1;

/// Reports a fault in one line, which is dropped if it cannot be written, and returns the status of a fault.
pub(crate) fn tell_fault<F: Write>(faults: &mut F, fault: impl Display + Drop) -> u8
    ensures { result ≡ 1 }
{
    let _ = writeln!(faults, "hyperball: {fault}");
    FAULT
}
