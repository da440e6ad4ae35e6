//! The job digest.

ghost use Rattle.std.specs.Prelude.{◌≡◌, ◌<◌, [], if◌then◌else◌, IfOk, Ok, true};
ghost use Rattle.std.specs.List.{flat_map};
ghost use Rattle.ball_model.specs.Graph.{is_counted};
ghost use Rattle.ball_model.specs.Job.{counted_bytes, digest_of, edge_bytes, first_magic, job_bytes};
ghost use Rattle.ball_model.specs.Job.{second_magic, IsJob, job_of};
ghost use Rattle.graph.specs.Planning.{Hashes, target_bytes, vertex_number_bytes};
ghost use Rattle.ball_model.specs.PlanValue.{plan_of};
ghost use Rattle.ball_model.specs.RunText.{plan_over};
ghost use Rattle.graph.specs.Planning.{numbers_of, numbers_with, signed};

use crate::graph::Graph;
use crate::lists::Preds;
use ball_model::{Plan, PlanError};
use sha2::{Digest, Sha256};

// Adds the edges from some sources to a target.
fn add_row(hasher: &mut Sha256, sources: Preds<'_>, target: u32)
    ensures { Hashes hasher.old hasher.new (target_bytes sources.entry target) }
{
    for source in sources {
        add_edge(hasher, source, target);
    }
}

fn add_edge(hasher: &mut Sha256, source: u32, target: u32)
    ensures { Hashes hasher.old hasher.new (edge_bytes (source, target)) }
{
    hasher.update(&source.to_be_bytes());
    hasher.update(&target.to_be_bytes());
}

fn add_edges(hasher: &mut Sha256, graph: &Graph)
    ensures { Hashes hasher.old hasher.new (flat_map edge_bytes graph.now.graph.edges) }
{
    for target in 0..graph.vertices() {
        add_row(hasher, graph.preds(target), target);
    }
}

fn add(hasher: &mut Sha256, bytes: &[u8])
    ensures { Hashes hasher.old hasher.new bytes.now }
{
    hasher.update(bytes);
}

// Adds what digests of both forms have after their magic.
fn add_job(hasher: &mut Sha256, graph: &Graph, plan: &Plan)
    ensures { Hashes hasher.old hasher.new (job_bytes plan.now graph.now.graph) }
{
    add(hasher, &[plan.log2m()]);
    add(hasher, &plan.seed().to_be_bytes());
    add(hasher, &plan.parts().to_be_bytes());
    add(hasher, &plan.limit().to_be_bytes());
    add(hasher, &graph.vertices().to_be_bytes());
    add(hasher, &graph.edges().to_be_bytes());
    add_edges(hasher, graph);
}

fn add_if_counted(hasher: &mut Sha256, graph: &Graph, v: u32)
    requires { v < graph.now.graph.vertices }
    ensures { Hashes hasher.old hasher.new
        (if is_counted graph.now.graph v then vertex_number_bytes v else []) }
{
    if graph.counted(v) {
        add(hasher, &v.to_be_bytes());
    }
}

// Adds the counted vertices.
fn add_members(hasher: &mut Sha256, graph: &Graph)
    ensures { Hashes hasher.old hasher.new (flat_map vertex_number_bytes graph.now.graph.counted) }
{
    for v in 0..graph.vertices() {
        add_if_counted(hasher, graph, v);
    }
}

// Adds the number of counted vertices, and each of them.
fn add_counted(hasher: &mut Sha256, graph: &Graph)
    ensures { Hashes hasher.old hasher.new (counted_bytes graph.now.graph) }
{
    add(hasher, &graph.counted_count().to_be_bytes());
    add_members(hasher, graph);
}

// Adds the magic of the first form, of a job with raw estimates or corrected ones.
fn add_first(hasher: &mut Sha256, corrected: bool)
    ensures { Hashes hasher.old hasher.new (first_magic corrected) }
{
    if corrected {
        add(hasher, b"HBC1");
    } else {
        add(hasher, b"HBJ1");
    }
}

// Adds the magic of the second form.
fn add_second(hasher: &mut Sha256, corrected: bool)
    ensures { Hashes hasher.old hasher.new (second_magic corrected) }
{
    if corrected {
        add(hasher, b"HBC2");
    } else {
        add(hasher, b"HBJ2");
    }
}

/// The job digest: SHA-256 of a magic, the options, the numbers of vertices and of edges, and each edge. The magic is
/// HBJ1 if every vertex is counted. Else it is HBJ2, and the number of counted vertices and each of them follow. If
/// estimates are corrected for small sets, it is HBC1 or HBC2.
pub(crate) fn digest(graph: &Graph, plan: &Plan) -> [u8; 32]
    ensures { result ≡ digest_of plan.now graph.now.graph }
{
    let mut hasher = Sha256::new();
    if graph.counted_count() == graph.vertices() {
        add_first(&mut hasher, plan.is_corrected());
        add_job(&mut hasher, graph, plan);
        return hasher.finalize();
    }
    add_second(&mut hasher, plan.is_corrected());
    add_job(&mut hasher, graph, plan);
    add_counted(&mut hasher, graph);
    hasher.finalize()
}

impl Graph {
    /// The plan of a job over this graph, with its job digest, or the first fault of these options. It takes no memory,
    /// and time in proportion to the edges. For a library's user: the program does not call it.
    pub fn plan(&self, log2m: u8, seed: u64, parts: u16, limit: u32) -> Result<Plan, PlanError>
        ensures value { result ≡
            plan_of (plan_over (numbers_of log2m seed parts limit) self.now.graph) }
        ensures job { IfOk result (λ plan. IsJob (job_of self.now.graph plan)) }
    {
        let plan = Plan::new(log2m, seed, parts, limit, self.vertices(), [0; 32])?;
        Ok(self.signed(plan))
    }

    /// The plan of a job whose estimates are corrected for small sets. Its digest differs from that of the job with raw
    /// estimates, so that the two are never mixed. For a library's user: the program does not call it.
    pub fn corrected_plan(
        &self,
        log2m: u8,
        seed: u64,
        parts: u16,
        limit: u32,
    ) -> Result<Plan, PlanError>
        ensures value { result ≡
            plan_of (plan_over (numbers_with true log2m seed parts limit) self.now.graph) }
        ensures job { IfOk result (λ plan. IsJob (job_of self.now.graph plan)) }
    {
        let raw = Plan::new(log2m, seed, parts, limit, self.vertices(), [0; 32])?;
        Ok(self.signed(raw.corrected([0; 32])))
    }

    /// The job digest of a plan with these numbers, whatever digest the plan has. It takes no memory, and time in
    /// proportion to the edges.
    pub fn digest(&self, plan: &Plan) -> [u8; 32]
        ensures { result ≡ digest_of plan.now self.now.graph }
    {
        digest(self, plan)
    }

    /// The plan with its job digest.
    pub fn signed(&self, plan: Plan) -> Plan
        ensures { result ≡ signed self.now.graph plan }
    {
        let job = self.digest(&plan);
        plan.with_job(job)
    }
}
