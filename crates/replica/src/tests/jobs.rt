//! Replicas of small jobs, at 16 registers.

ghost use Rattle.std.specs.Prelude.{◌≡◌, ◌<◌};
ghost use Rattle.ball_model.specs.Job.{digest_of};
ghost use Rattle.replica.specs.First.{BeginsAs};
ghost use Rattle.replica.specs.Index.{targets_of};

use super::*;
use std::alloc::Global;

/// A job of a graph: its edge list with tabs, the vertices that are counted if not all are, whether estimates are
/// corrected for small sets, and the numbers of its plan.
pub struct Job {
    pub text: &'static [u8],
    pub counted: Option<&'static [u8]>,
    pub is_corrected: bool,
    pub seed: u64,
    pub parts: u16,
    pub limit: u32,
}

/// The edges a to b and b to c, in two partitions.
pub const TWO_EDGES: Job = Job {
    text: b"a\tb\nb\tc\n",
    counted: None,
    is_corrected: false,
    seed: 0,
    parts: 2,
    limit: 4096,
};

/// Adds the vertex or the edge of a line.
fn add_line(alloc: Global, builder: &mut GraphBuilder, line: &[u8]) -> Option<()> {
    match line.iter().position(|byte| *byte == b'\t') {
        Some(tab) => builder.edge(alloc, &line[..tab], &line[tab + 1..]).ok(),
        None => {
            if !line.is_empty() {
                builder.vertex(alloc, line).ok()?;
            }
            Some(())
        }
    }
}

/// The graph of an edge list with tabs.
pub fn graph(rt: &HostRuntime, text: &[u8]) -> Option<Graph> {
    let alloc = rt.alloc();
    let mut builder = GraphBuilder::new(alloc, RandomState::new(rt).ok()?);
    for line in text.split(|byte| *byte == b'\n') {
        add_line(alloc, &mut builder, line)?;
    }
    builder.finish(alloc).ok()
}

/// Counts only the vertices of a list, if there is one.
fn count(rt: &HostRuntime, graph: &mut Graph, list: Option<&[u8]>) -> bool {
    match list {
        Some(list) => graph.count_only(rt.alloc(), Delimiter::Tab, list).is_ok(),
        None => true,
    }
}

/// A replica of a part, which is shared then, by its index and first tables.
pub fn begun(alloc: Global, part: Part, targets: Targets, first: FirstTables) -> Option<Replica>
    requires index { targets ≡ targets_of part }
    requires first { BeginsAs part first }
{
    let part = Arc::new(alloc, part).ok()?;
    Replica::with_tables(alloc, part, targets, first).ok()
}

/// A replica of a part whose index and first tables were made before it was shared.
fn prepared_replica(rt: &HostRuntime, part: Part) -> Option<Replica> {
    let targets = Targets::of(rt.alloc(), &part).ok()?;
    let first = FirstTables::of(rt.alloc(), &part).ok()?;
    begun(rt.alloc(), part, targets, first)
}

/// A replica of a part.
fn new_replica(rt: &HostRuntime, part: Part) -> Option<Replica> {
    let part = Arc::new(rt.alloc(), part).ok()?;
    Replica::new(rt.alloc(), part).ok()
}

/// Adds a replica of a part: of every other partition its index and first tables are made first.
fn add(rt: &HostRuntime, all: &mut Vec<Replica>, part: Part) -> Option<()> {
    let replica = if part.partition() % 2 == 0 {
        new_replica(rt, part)?
    } else {
        prepared_replica(rt, part)?
    };
    all.push(replica).ok()
}

/// Adds a replica of a partition of a graph, by a plan of it.
fn add_part(rt: &HostRuntime, all: &mut Vec<Replica>, graph: &Graph, plan: &Plan, p: u16) -> bool
    requires vertices { plan.now.vertices ≡ graph.now.graph.vertices }
    requires digest { plan.now.job ≡ digest_of plan.now graph.now.graph }
    requires partition { p < plan.now.parts }
{
    match graph.part(rt.alloc(), plan, p) {
        Ok(part) => add(rt, all, part).is_some(),
        Err(_) => false,
    }
}

/// Adds a replica of each of its partitions.
fn add_parts(rt: &HostRuntime, all: &mut Vec<Replica>, graph: &Graph, plan: &Plan) -> bool
    requires vertices { plan.now.vertices ≡ graph.now.graph.vertices }
    requires digest { plan.now.job ≡ digest_of plan.now graph.now.graph }
{
    let mut added = true;
    for p in 0..plan.parts() {
        added = added && add_part(rt, all, graph, plan, p);
    }
    added
}

/// Adds a replica of each partition of a graph, by the plan of a job, whose vertices alone are counted.
fn add_planned(rt: &HostRuntime, all: &mut Vec<Replica>, graph: &mut Graph, job: &Job) -> bool {
    let counted = count(rt, graph, job.counted);
    let plan = if job.is_corrected {
        graph.corrected_plan(4, job.seed, job.parts, job.limit)
    } else {
        graph.plan(4, job.seed, job.parts, job.limit)
    };
    match plan {
        Ok(plan) => counted && add_parts(rt, all, graph, &plan),
        Err(_) => false,
    }
}

/// Adds a replica of each partition of a job, if memory for all is granted.
fn add_all(rt: &HostRuntime, all: &mut Vec<Replica>, job: &Job) -> bool {
    match graph(rt, job.text) {
        Some(mut graph) => add_planned(rt, all, &mut graph, job),
        None => false,
    }
}

/// Adds a replica of each partition of a job, or none: None if memory was refused.
pub fn add_job(rt: &HostRuntime, all: &mut Vec<Replica>, job: &Job) -> Option<bool> {
    let count = all.len();
    if add_all(rt, all, job) {
        return Some(true);
    }
    all.truncate(count);
    None
}
