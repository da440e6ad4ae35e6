//! Reports of ended runs.

ghost use Rattle.std.specs.Prelude.{◌≡◌, true, Ok};
ghost use Rattle.std.specs.List.{All};
ghost use Rattle.report.specs.Ready.{AddsReportOfAll};

use ball_model::CountedWrite;
use graph::Graph;
use replica::Replica;
use report::{ReportError, report_ready, write_report};
use std::alloc::AllocGlobal;
use std::thread::Threads;

/// Writes the report if the replicas are at the end of their run, and answers whether they are.
pub fn report_at_end<T: AllocGlobal + Threads + Sync, W: CountedWrite>(
    rt: &T,
    writer: &mut W,
    graph: &Graph,
    replicas: &[Replica],
) -> Result<bool, ReportError>
    requires { All (λ v. v.part.plan.vertices ≡ graph.now.graph.vertices) replicas.now }
    ensures { result ≡ Ok true →
        AddsReportOfAll W.contents writer.old writer.new graph.now replicas.now }
{
    if !report_ready(replicas) {
        return Ok(false);
    }
    write_report(rt, writer, graph, replicas)?;
    Ok(true)
}
