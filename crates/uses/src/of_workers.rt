//! Runs, and nodes alone.

ghost use Rattle.std.specs.Prelude.{◌≡◌, None, IfOk, OnOk};
ghost use Rattle.ball_model.specs.Input.{IsPlain};
ghost use Rattle.ball_model.specs.Job.{IsJob, job_of};
ghost use Rattle.ball_model.specs.RunText.{AppendsReport};
ghost use Rattle.job.specs.Job.{settings_of};
ghost use Rattle.workers.specs.Node.{IfDone, IfStarved, IsDone};
ghost use Rattle.workers.specs.Options.{job_asked};

use crate::of_graph::first_part;
use ball_model::{CountedWrite, MemReader, NodeId, Plan};
use graph::Graph;
use std::alloc::AllocGlobal;
use std::hash::RandomState;
use std::sync::Wait;
use std::thread::Threads;
use workers::{
    MemoryExchange, NodeEnd, NodeError, NodeOrders, OpenGate, RunError, RunOptions, run, run_node,
};

/// Writes the report of an edge list in memory.
pub fn report_of<T: AllocGlobal + Threads + Wait + Sync, W: CountedWrite>(
    rt: &T,
    state: RandomState,
    edges: &[u8],
    writer: &mut W,
    options: &RunOptions,
) -> Result<(), RunError>
    ensures { IsPlain edges.now → OnOk result (AppendsReport
        (settings_of (job_asked options.now)) edges.now None
        (W.contents writer.old) (W.contents writer.new)) }
{
    let mut reader = MemReader::new(edges, None);
    run(rt, state, &mut reader, None, writer, options, &OpenGate)
}

/// The node of a job's only partition, from its start to its end, which waits for nobody.
pub fn lone_node<T: AllocGlobal + Threads + Wait + Sync>(
    rt: &T,
    graph: &Graph,
    plan: &Plan,
) -> Result<NodeEnd, NodeError>
    requires job { IsJob (job_of graph.now.graph plan.now) }
    requires alone { plan.now.parts ≡ 1 }
    ensures done { IfOk result (λ end. IfDone end (IsDone (job_of graph.now.graph plan.now) 0)) }
    ensures spared { IfOk result (λ end. IfStarved end (λ s q. ⊥)) }
{
    let alloc = rt.alloc();
    let part = first_part(alloc, graph, plan)?;
    let mut exchange = MemoryExchange::open(alloc, graph, plan, 2)?;
    let orders = NodeOrders {
        keep: 0,
        patience: 1,
        lose: None,
        restart: None,
    };
    let node = NodeId {
        part: 0,
        replica: 0,
    };
    run_node(rt, &mut exchange, &OpenGate, node, part, &orders)
}
