//! Jobs over edge lists.

ghost use Rattle.std.specs.Prelude.{IfSome};
ghost use Rattle.ball_model.specs.Job.{IsJob, job_of};
ghost use Rattle.ball_model.specs.RunText.{AreRead};
ghost use Rattle.job.specs.Job.{WherePlain, settings_of};

use ball_model::{CountedRead, Plan};
use graph::Graph;
use job::JobOptions;
use std::alloc::Global;
use std::hash::RandomState;

/// The graph and the plan of a job over an edge list. If there is a list of `counted` vertices, only those count.
pub fn job_over<R: CountedRead>(
    alloc: Global,
    state: RandomState,
    options: &JobOptions,
    reader: &mut R,
    counted: Option<&[u8]>,
) -> Option<(Graph, Plan)>
    ensures graph { WherePlain (R.remaining reader.old) counted.entry (λ input list.
        IfSome result (λ job. AreRead (settings_of options.now) input list job.0)) }
    ensures plan { IfSome result (λ job. IsJob (job_of job.0.graph job.1)) }
{
    let read = options.read_network(alloc, state, reader, counted).ok()?;
    let plan = options.plan(&read.graph).ok()?;
    Some((read.graph, plan))
}
