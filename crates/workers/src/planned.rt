//! The plan of a run and the parts of its partitions. Parts, their indexes and the tables of their first replicas take
//! only the plan's numbers, so its digest is made while they are.

ghost use Rattle.std.specs.Prelude.{◌≡◌, ◌<◌, ◌^◌, ℕ, IfOk};
ghost use Rattle.ball_model.specs.Job.{Job, digest_of, job_of, part_of};
ghost use Rattle.graph.specs.Feeding.{feeds_of};
ghost use Rattle.graph.specs.Planning.{signed};
ghost use Rattle.workers.specs.Job.{AreMade, AreParts, signed_job};

use crate::indexed::{IndexedPart, ReadyPart};
use ball_model::Plan;
use edgelist::{Feeds, Graph};
use std::alloc::{AllocError, AllocGlobal, Global};
use std::thread;
use std::thread::Threads;

/// The plan of a job, and the part of each of its partitions.
#[derive(Drop)]
pub(crate) struct Planned {
    pub(crate) plan: Plan,
    pub(crate) parts: Vec<ReadyPart>,
}

// What makes the parts of a plan over a graph, each by this number of threads.
#[derive(Drop)]
struct Maker<'a, R> {
    rt: &'a R,
    graph: &'a Graph,
    plan: &'a Plan,
    threads: usize,
}

impl<'a, R: AllocGlobal + Threads + Sync> Maker<'a, R> {
    // The part of a partition, with what its first replica begins with.
    fn part(&self, p: u16, feeds: &Feeds) -> Result<IndexedPart, AllocError>
        requires vertices { self.now.plan.now.vertices ≡ self.now.graph.now.graph.vertices }
        requires part { p < self.now.plan.now.parts }
        requires feeds { feeds.now ≡ feeds_of self.now.graph.now.graph self.now.plan.now.parts }
        ensures { IfOk result (λ part. part ≡
            part_of (job_of self.now.graph.now.graph self.now.plan.now) p) }
    {
        let part = self.graph.part_with(self.rt.alloc(), self.plan, p, feeds)?;
        IndexedPart::of(self.rt, part, self.threads)
    }

    // The parts of all partitions, if there was memory for each, made by a thread of its own if there could be one. The
    // edges are walked over once for the masks of all.
    fn parts(&self) -> Result<Vec<Result<IndexedPart, AllocError>>, AllocError>
        requires { self.now.plan.now.vertices ≡ self.now.graph.now.graph.vertices }
        ensures { IfOk result (λ parts.
            AreMade (job_of self.now.graph.now.graph self.now.plan.now) parts.items) }
    {
        let alloc = self.rt.alloc();
        let feeds = self.graph.feeds(alloc, self.plan)?;
        let feeds = &feeds;
        let make = |p: usize| -> Result<IndexedPart, AllocError>
            requires vertices { self.now.plan.now.vertices ≡ self.now.graph.now.graph.vertices }
            requires part { p < self.now.plan.now.parts }
            requires few { p < 2 ^ 16 }
            requires feeds { feeds.now ≡ feeds_of self.now.graph.now.graph self.now.plan.now.parts }
            ensures { IfOk result (λ part. part ≡ part_of
                (job_of self.entry.now.graph.now.graph self.entry.now.plan.now) p) }
        { self.part(p as u16, feeds) };
        thread::map_indices(self.rt, alloc, usize::from(self.plan.parts()), &make)
    }
}

// A part of the plan with this digest, to be shared.
fn shared_part(
    alloc: Global,
    part: Result<IndexedPart, AllocError>,
    job: [u8; 32],
) -> Result<ReadyPart, AllocError>
    ensures { (j : Job) (p : ℕ) → IfOk part (λ made. made ≡ part_of j p) →
        IfOk result (λ shared. shared ≡ part_of (signed_job j job) p) }
{
    part?.with_job(job).shared(alloc)
}

// The parts of the plan with this digest, to be shared.
fn shared_parts(
    alloc: Global,
    parts: Vec<Result<IndexedPart, AllocError>>,
    job: [u8; 32],
) -> Result<Vec<ReadyPart>, AllocError>
    ensures { (j : Job) → AreMade j parts.items →
        IfOk result (λ shared. AreParts (signed_job j job) shared.items) }
{
    let mut shared = Vec::with_capacity(alloc, parts.len())?;
    for part in parts {
        let ready = shared_part(alloc, part, job)?;
        shared.push(ready)?;
    }
    Ok(shared)
}

/// A plan with its job digest, and the part of each of its partitions, each made by this number of threads.
pub(crate) fn plan_parts<R: AllocGlobal + Threads + Sync>(
    rt: &R,
    graph: &Graph,
    bare: &Plan,
    threads: usize,
) -> Result<Planned, AllocError>
    requires { bare.now.vertices ≡ graph.now.graph.vertices }
    ensures plan { IfOk result (λ all. all.plan ≡ signed graph.now.graph bare.now) }
    ensures parts { IfOk result (λ all.
        AreParts (job_of graph.now.graph all.plan) all.parts.items) }
{
    let maker = Maker {
        rt,
        graph,
        plan: bare,
        threads,
    };
    let digest = || -> [u8; 32]
        ensures { result ≡ digest_of bare.entry.now graph.entry.now.graph }
    { graph.digest(bare) };
    let parts = || -> Result<Vec<Result<IndexedPart, AllocError>>, AllocError>
        requires { maker.plan.now.vertices ≡ maker.graph.now.graph.vertices }
        ensures { IfOk result (λ parts.
            AreMade (job_of maker.entry.graph.now.graph maker.entry.plan.now) parts.items) }
    { maker.parts() };
    let (job, parts) = thread::join(rt, digest, parts);
    let parts = shared_parts(rt.alloc(), parts?, job)?;
    Ok(Planned {
        plan: bare.with_job(job),
        parts,
    })
}
