//! Names of batches and of nodes, and the answers of a replica.

ghost use Rattle.std.specs.Prelude.{◌≡◌};
ghost use Rattle.ball_model.specs.Names.{stands_before, node_stands_before};

use thiserror::Error;

/// The name of a batch: what partition `source` sends partition `target` for a superstep.
///
/// Names ascend by superstep, then by source, then by target.
#[derive(Clone, Copy, Debug, PartialEq, Eq, PartialOrd, Ord)]
pub struct BatchName {
    /// The superstep whose changes the batch has, from 0 up to the plan's limit.
    pub superstep: u32,
    /// The number of the partition that sends it, from 0 on.
    pub source: u16,
    /// The number of the partition that it is sent to, from 0 on.
    pub target: u16,
}

impl BatchName {
    /// Whether the name is before the other: by superstep, then by source, then by target.
    ///
    /// For a library's user: the program does not call it.
    pub fn is_before(&self, other: &BatchName) -> bool
        ensures { result ≡ stands_before self.now other.now }
    {
        self < other
    }
}

/// A replica of a partition. They ascend by partition, then by replica.
#[derive(Clone, Copy, Debug, PartialEq, Eq, PartialOrd, Ord)]
pub struct NodeId {
    /// The number of its partition, from 0 on.
    pub part: u16,
    /// Its number among the replicas of that partition, from 0 on.
    pub replica: u8,
}

impl NodeId {
    /// Whether the node is before the other: by partition, then by replica.
    ///
    /// For a library's user: the program does not call it.
    pub fn is_before(&self, other: &NodeId) -> bool
        ensures { result ≡ node_stands_before self.now other.now }
    {
        (self.part, self.replica) < (other.part, other.replica)
    }
}

/// What a replica that holds its level says of the run.
#[derive(Clone, Copy, Debug, PartialEq, Eq)]
pub enum Verdict {
    /// There is a next superstep.
    GoOn,
    /// No vertex of the graph is changed at this superstep, so none will be.
    Stable,
    /// The superstep is the plan's limit.
    Limit,
}

/// What became of a batch that is for a replica.
#[derive(Clone, Copy, Debug, PartialEq, Eq)]
pub enum Taken {
    /// It is of an earlier superstep; nothing is changed.
    Old,
    /// It is held already; nothing is changed.
    Known,
    /// It is held from now on.
    New,
}

/// Why a batch is not taken, in the order of the checks.
#[derive(Clone, Copy, Debug, PartialEq, Eq, Error)]
pub enum TakeError {
    /// The batch's plan is not the replica's, in some number or in the job digest.
    #[error("the batch is of another job")]
    OtherJob,
    /// The batch's target is not the replica's partition.
    #[error("the batch is for another partition")]
    NotMine,
    /// The batch's source is the replica's partition, which sends itself nothing.
    #[error("the batch is of the replica's own partition")]
    OwnPartition,
    /// A replica takes batches of its superstep and of the three that follow, up to `last`.
    #[error("the batch is of a superstep after {last}")]
    TooEarly { last: u32 },
}

/// Why a superstep is not closed, in the order of the checks.
#[derive(Clone, Copy, Debug, PartialEq, Eq, Error)]
pub enum CloseError {
    /// The batch of `source` at the replica's superstep is missing; it is the least such source.
    #[error("waiting for partition {source}")]
    Waiting { source: u16 },
    /// No batch is missing, and the verdict is not to go on: nothing is changed any more, or the limit is reached.
    #[error("the run has ended")]
    Finished,
}

/// Why a snapshot is not merged, in the order of the checks.
#[derive(Clone, Copy, Debug, PartialEq, Eq, Error)]
pub enum MergeError {
    /// The snapshot's plan is not the replica's, in some number or in the job digest.
    #[error("the snapshot is of another job")]
    OtherJob,
    /// The snapshot's partition is not the replica's.
    #[error("the snapshot is of another partition")]
    NotMine,
    /// The memory that the merge asks for is refused.
    #[error("out of memory")]
    Memory,
}
