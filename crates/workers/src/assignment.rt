//! What a node's thread promises: how its node ended, and by which calls.

use crate::options::RunOptions;
use crate::worker::node_run::{NodeEnd, NodeError};
use ball_model::{NodeId, Plan};
use edgelist::Graph;
use std::snapshot::Snapshot;
use std::thread::Promise;

/// What a node's thread gives.
pub(crate) type NodeResult = Result<NodeEnd, NodeError>;

/// A node of a job, and what is asked of its run.
#[derive(Drop)]
pub(crate) struct Assignment {
    pub(crate) graph: Snapshot<Graph>,
    pub(crate) plan: Snapshot<Plan>,
    pub(crate) options: Snapshot<RunOptions>,
    pub(crate) node: NodeId,
}

impl Promise<NodeResult> for Assignment {
    ghost use Rattle.workers.specs.Job.{IsNodeEnd, job_in};

    ghost kept_by = { λ p r.
        IsNodeEnd (job_in p) p.options.value p.node.part p.node.replica r };
}
