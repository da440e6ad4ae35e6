//! What a world begins with.

ghost use Rattle.std.specs.Prelude.{◌≡◌, ◌<◌, ℕ, IfOk, map};
ghost use Rattle.ball_model.specs.Job.{IsJob, Job, job_of, part_of};
ghost use Rattle.world.specs.Shows.{AreStart, AreFirstNodes};

use crate::node::Node;
use ball_model::Plan;
use edgelist::{Graph, Part};
use std::alloc::{AllocError, Global};
use std::sync::Arc;

/// `replicas` nodes of a part at superstep 0, which share it.
pub(crate) fn start_nodes(alloc: Global, part: Part, replicas: u8) -> Result<Vec<Node>, AllocError>
    ensures { (j : Job) (p : ℕ) → IsJob j → p < j.plan.parts → part ≡ part_of j p →
        IfOk result (λ nodes. AreStart j p replicas nodes.items) }
{
    let shared = Arc::new(alloc, part)?;
    let mut nodes = Vec::with_capacity(alloc, usize::from(replicas))?;
    for _ in 0..replicas {
        let own = Arc::try_clone(&shared)?;
        let node = Node::start(alloc, own)?;
        nodes.push(node)?;
    }
    Ok(nodes)
}

/// `replicas` nodes of each partition at superstep 0. The edges are walked over once for the masks of all parts.
pub(crate) fn start_all(
    alloc: Global,
    graph: &Graph,
    plan: &Plan,
    replicas: u8,
) -> Result<Vec<Vec<Node>>, AllocError>
    requires { IsJob (job_of graph.now.graph plan.now) }
    ensures { IfOk result (λ rows. AreFirstNodes (job_of graph.now.graph plan.now) plan.now.parts
        replicas (map (λ row. row.items) rows.items)) }
{
    let feeds = graph.feeds(alloc, plan)?;
    let mut rows = Vec::with_capacity(alloc, usize::from(plan.parts()))?;
    for p in 0..plan.parts() {
        let part = graph.part_with(alloc, plan, p, &feeds)?;
        let nodes = start_nodes(alloc, part, replicas)?;
        rows.push(nodes)?;
    }
    Ok(rows)
}
