//! How much of an edge list is read, what it is refused for, and what was read.

ghost use Rattle.std.specs.Prelude.{◌≡◌, ◌≢◌, ◌<◌, Result, true, false, Ok, Err, IfOk, IfErr};
ghost use Rattle.csv.specs.Reading.{is_io, error_kind};
ghost use Rattle.ball_model.specs.Input.{Network, Refusal};
ghost use Rattle.edgelist.specs.declared.limits.EdgeError.TheVariants.{Memory};
ghost use Rattle.edgelist.specs.Reading.{Refuses, edge_error};

use ball_model::plan::{MOST_VERTICES, USUAL_VERTICES};
use graph::Graph;
use std::alloc::AllocError;
use thiserror::Error;

/// Why an edge list is refused.
#[derive(Clone, Copy, Debug, PartialEq, Eq, Error)]
pub enum EdgeError {
    /// A read failed.
    #[error("the edge list cannot be read")]
    Read,
    /// There is a record more than the limit.
    #[error("too many records")]
    TooManyEdges,
    /// A record has not one or two fields, or an empty one. Records are numbered from 1.
    #[error("record {number} has not one or two identifiers")]
    Fields { number: u64 },
    /// There is a vertex more than the limit.
    #[error("too many vertices")]
    TooManyVertices,
    /// Memory was refused.
    #[error("out of memory")]
    Memory,
}

impl From<AllocError> for EdgeError {
    ghost from_gives = { λ _ e. e ≡ Memory };

    fn from(_error: AllocError) -> EdgeError {
        EdgeError::Memory
    }
}

impl From<csv::Error> for EdgeError {
    ghost from_gives = { λ error e. e ≡ edge_error (is_io (error_kind error)) };

    fn from(error: csv::Error) -> EdgeError {
        match error.kind() {
            csv::ErrorKind::Io(_) => EdgeError::Read,
            _ => EdgeError::Memory,
        }
    }
}

/// The most vertices and the most records that are read.
#[derive(Clone, Copy, Debug, PartialEq, Eq)]
pub struct EdgeLimits {
    /// The most vertices: labels that differ.
    pub vertices: u32,
    /// The most records. Those of one field, and edges that were read before, count too.
    pub edges: u64,
}

/// The most records under any limits: 2^32 - 1.
pub(crate) const MOST_RECORDS: u64 = 4_294_967_295;

/// The most records that the usual calls read: 2^26.
pub(crate) const USUAL_RECORDS: u64 = 67_108_864;

/// What a run, a replay, a node and a gathering read at most of an edge list, if no large one is
/// asked for.
pub const LIMITS: EdgeLimits = EdgeLimits {
    vertices: USUAL_VERTICES,
    edges: USUAL_RECORDS,
};

/// What a run, a node and a gathering read at most of a large edge list.
pub const LARGE_LIMITS: EdgeLimits = EdgeLimits {
    vertices: MOST_VERTICES,
    edges: MOST_RECORDS,
};

/// An edge list that was read.
#[derive(Drop)]
pub struct EdgeList {
    /// The graph that it says, with every vertex counted.
    pub graph: Graph,
    /// How many records it has. Those of one field, and edges that were read before, count too.
    pub records: u64,
}

// What a call answers after reading: `Read` exactly if a call of the reader failed. It takes no
// memory.
pub(crate) fn read_answer<T: Drop>(read: Result<T, EdgeError>, failed: bool) -> Result<T, EdgeError>
    ensures ok { IfOk result (λ what. read ≡ Ok what) }
    ensures refused { (says : Result Network Refusal) → IfErr read (Refuses says) →
        IfErr result (Refuses says) }
    ensures read { result ≡ Err EdgeError.Read → failed ≡ true }
    ensures failed { failed ≡ true → result ≡ Err EdgeError.Read }
    ensures same { read ≢ Err EdgeError.Read → failed ≡ false → result ≡ read }
{
    if failed {
        return Err(EdgeError::Read);
    }
    match read {
        Ok(what) => Ok(what),
        Err(EdgeError::Read) => Err(EdgeError::Memory),
        Err(e) => Err(e),
    }
}
