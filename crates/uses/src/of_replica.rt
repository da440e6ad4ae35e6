//! One partition's replica.

ghost use Rattle.std.specs.Prelude.{◌≡◌, ◌<◌, ◌+◌, ℕ, true, IfOk, IfSome, Ok, OnOk};
ghost use Rattle.std.specs.Arc.{arc_value};
ghost use Rattle.ball_model.specs.Batches.{IsTrueBatch, true_batch};
ghost use Rattle.ball_model.specs.Counter.{ball_counter};
ghost use Rattle.ball_model.specs.History.{holding_in};
ghost use Rattle.ball_model.specs.Job.{IsJob, Job, job_of};
ghost use Rattle.ball_model.specs.PlanValue.{mixing_of};
ghost use Rattle.ball_model.specs.State.{StandsFor};
ghost use Rattle.replica.specs.Sent.{batch_name};

use crate::of_graph::first_part;
use ball_model::{CloseError, Plan};
use batches::Batch;
use graph::Graph;
use registers::{Join, reconcile};
use replica::{Replica, Shown};
use std::alloc::{AllocError, Global};
use std::sync::Arc;

/// What partition 0 of a job tells partition 1 of superstep 0.
pub fn first_batch(alloc: Global, graph: &Graph, plan: &Plan) -> Result<Batch, AllocError>
    requires job { IsJob (job_of graph.now.graph plan.now) }
    requires parts { 1 < plan.now.parts }
    ensures { IfOk result (λ batch.
        batch ≡ true_batch (job_of graph.now.graph plan.now) (batch_name 0 0 1)) }
{
    let part = first_part(alloc, graph, plan)?;
    let replica = Replica::new(alloc, part)?;
    replica.out(alloc, 1)
}

/// Takes a batch and closes: true batches bring a replica of a job one superstep further.
pub fn take_and_close(replica: &mut Replica, batch: Arc<Batch>) -> Result<u32, CloseError>
    ensures { (j : Job) (p t : ℕ) → StandsFor j p t replica.old →
        IsTrueBatch j (arc_value batch) → OnOk result (StandsFor j p (t + 1) replica.new) }
{
    let _taken = replica.take(batch);
    replica.close()
}

/// The counter of a vertex, if it is one of the partition.
pub fn counter_of<'a>(replica: &'a Replica, x: u32) -> Option<&'a [u8]>
    ensures { (j : Job) (p t : ℕ) → StandsFor j p t replica.now →
        IfSome result (λ row. row.now ≡ ball_counter (mixing_of j.plan) j.graph x t) }
{
    if !replica.owns(x) {
        return None;
    }
    Some(replica.row(x))
}

/// If two replicas are of one partition, both then know what either did, and the answer is true.
pub fn share(alloc: Global, left: &mut Replica, right: &mut Replica) -> Result<bool, AllocError>
    ensures { result ≡ Ok true → holding_in left.new ≡ holding_in right.new }
{
    if !left.alike(right) {
        return Ok(false);
    }
    reconcile(alloc, left, right)?;
    Ok(true)
}
