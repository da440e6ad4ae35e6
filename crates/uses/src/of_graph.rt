//! Graphs, the plans of jobs over them, and parts.

ghost use Rattle.std.specs.Prelude.{◌≡◌, ◌<◌, IfOk};
ghost use Rattle.std.specs.Arc.{arc_value};
ghost use Rattle.ball_model.specs.Job.{IsJob, job_of, part_of};

use ball_model::{Plan, PlanError};
use graph::{BuildError, Graph, GraphBuilder, Part};
use std::alloc::{AllocError, Global};
use std::hash::RandomState;
use std::sync::Arc;

/// The graph of one edge, from `a` to `b`.
pub fn one_edge(alloc: Global, state: RandomState) -> Result<Graph, BuildError>
    ensures { IfOk result (λ g. g.graph.vertices ≡ 2) }
{
    let mut builder = GraphBuilder::new(alloc, state);
    builder.edge(alloc, b"a", b"b")?;
    Ok(builder.finish(alloc)?)
}

/// A job over the graph: 256 registers, two partitions, at most 100 supersteps, raw estimates.
pub fn raw_job(graph: &Graph) -> Result<Plan, PlanError>
    ensures { IfOk result (λ plan. IsJob (job_of graph.now.graph plan)) }
{
    graph.plan(8, 0, 2, 100)
}

/// Such a job whose estimates are corrected for small sets.
pub fn corrected_job(graph: &Graph) -> Result<Plan, PlanError>
    ensures { IfOk result (λ plan. IsJob (job_of graph.now.graph plan)) }
{
    graph.corrected_plan(8, 0, 2, 100)
}

/// What partition 0 of a job has of its graph, to be shared by the replicas of that partition.
pub fn first_part(alloc: Global, graph: &Graph, plan: &Plan) -> Result<Arc<Part>, AllocError>
    requires { IsJob (job_of graph.now.graph plan.now) }
    ensures { IfOk result (λ part. arc_value part ≡ part_of (job_of graph.now.graph plan.now) 0) }
{
    Ok(Arc::new(alloc, graph.part(alloc, plan, 0)?)?)
}
