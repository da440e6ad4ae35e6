//! Parts with the index and the tables that a replica of them begins with.

ghost use Rattle.std.specs.Prelude.{◌≡◌, ◌<◌, ℕ, IfOk};
ghost use Rattle.std.specs.Arc.{arc_value};
ghost use Rattle.ball_model.specs.Job.{IsJob, Job, part_of};
ghost use Rattle.replica.specs.First.{BeginsAs};
ghost use Rattle.replica.specs.Index.{targets_of};
ghost use Rattle.workers.specs.Prepared.{IsPrepared};
ghost use Rattle.workers.specs.Superstep.{IsFirst};

use edgelist::Part;
use replica::{FirstTables, Replica, Targets};
use std::alloc::{AllocError, AllocGlobal, Global};
use std::marker::Model;
use std::sync::Arc;
use std::thread;
use std::thread::Threads;

/// What a replica of a part begins with: its index and its first tables.
#[derive(Drop)]
pub(crate) struct Prepared {
    targets: Targets,
    first: FirstTables,
}

// Below these numbers of bytes of registers and of edges, threads cost more than they save.
const FEW: usize = 1 << 20;

const FEW_EDGES: usize = 1 << 18;

// Whether a part has few registers and few edges.
fn is_small(part: &Part) -> bool {
    let rows = FEW / part.plan().width().max(1);
    (part.size() as usize) < rows && part.edges() < FEW_EDGES
}

impl Prepared {
    // Both are made: in turn if one thread may work or the part is small, and else each by half of the threads.
    fn of<R: AllocGlobal + Threads + Sync>(
        rt: &R,
        part: &Part,
        threads: usize,
    ) -> Result<Prepared, AllocError>
        ensures { IfOk result (IsPrepared part.now) }
    {
        if threads < 2 || is_small(part) {
            return Prepared::in_turn(rt.alloc(), part);
        }
        Prepared::side_by_side(rt, part, threads / 2)
    }

    // They are made one after the other.
    fn in_turn(alloc: Global, part: &Part) -> Result<Prepared, AllocError>
        ensures { IfOk result (IsPrepared part.now) }
    {
        let targets = Targets::of(alloc, part)?;
        let first = FirstTables::of(alloc, part)?;
        Ok(Prepared { targets, first })
    }

    // They are made side by side, each by this number of threads.
    fn side_by_side<R: AllocGlobal + Threads + Sync>(
        rt: &R,
        part: &Part,
        threads: usize,
    ) -> Result<Prepared, AllocError>
        ensures { IfOk result (IsPrepared part.now) }
    {
        let targets = || -> Result<Targets, AllocError>
            ensures { IfOk result (λ targets. targets ≡ targets_of part.entry.now) }
        { Targets::of_by(rt, part, threads) };
        let first = || -> Result<FirstTables, AllocError>
            ensures { IfOk result (λ first. BeginsAs part.entry.now first) }
        { FirstTables::of_by(rt, part, threads) };
        let (targets, first) = thread::join(rt, targets, first);
        let (targets, first) = (targets?, first?);
        Ok(Prepared { targets, first })
    }
}

/// A part and what a replica of it begins with, which can be made while the job's digest is: nobody shares them yet, so
/// the digest can still be put in.
#[derive(Drop)]
pub(crate) struct IndexedPart {
    part: Part,
    prepared: Prepared,
}

impl Model for IndexedPart {
    ghost use Rattle.ball_model.specs.Job.{PartValue};
    ghost use Rattle.workers.specs.Prepared.{IsPrepared};

    ghost Value = { PartValue };

    ghost view = { λ p. p.part };

    ghost invariant = { λ p. IsPrepared p.part p.prepared };
}

impl IndexedPart {
    /// The part, indexed, with its first tables. It takes time in proportion to the vertices of the graph, the edges into
    /// the part and its registers, over the processors.
    pub(crate) fn of<R: AllocGlobal + Threads + Sync>(
        rt: &R,
        part: Part,
        threads: usize,
    ) -> Result<IndexedPart, AllocError>
        ensures { IfOk result (λ indexed. indexed ≡ part) }
    {
        let prepared = Prepared::of(rt, &part, threads)?;
        Ok(IndexedPart { part, prepared })
    }

    /// The part under a plan with this job digest, with what was made of it.
    pub(crate) fn with_job(self, job: [u8; 32]) -> IndexedPart
        ensures { result ≡ record self { plan = record self.plan { job = job } } }
    {
        let IndexedPart { part, prepared } = self;
        IndexedPart {
            part: part.with_job(job),
            prepared,
        }
    }

    /// The part, to be shared by the replicas of its partition, and what the first of them begins with.
    pub(crate) fn shared(self, alloc: Global) -> Result<ReadyPart, AllocError>
        ensures { IfOk result (λ ready. ready ≡ self) }
    {
        let IndexedPart { part, prepared } = self;
        let part = Arc::new(alloc, part)?;
        Ok(ReadyPart {
            part,
            prepared: Some(prepared),
        })
    }
}

/// A part that is shared, for one replica, with what that begins with if it was made already. ([`IndexedPart`] becomes
/// one; a caller's part is one from the start.)
#[derive(Drop)]
pub(crate) struct ReadyPart {
    part: Arc<Part>,
    // none if the replica makes it
    prepared: Option<Prepared>,
}

impl Model for ReadyPart {
    ghost use Rattle.std.specs.Prelude.{IfSome};
    ghost use Rattle.std.specs.Arc.{arc_value};
    ghost use Rattle.ball_model.specs.Job.{PartValue};
    ghost use Rattle.workers.specs.Prepared.{IsPrepared};

    ghost Value = { PartValue };

    ghost view = { λ p. arc_value p.part };

    ghost invariant = { λ p. IfSome p.prepared (IsPrepared (arc_value p.part)) };
}

impl ReadyPart {
    /// A part alone.
    pub(crate) fn of(part: Arc<Part>) -> ReadyPart
        ensures { result ≡ arc_value part }
    {
        ReadyPart {
            part,
            prepared: None,
        }
    }

    /// The part.
    pub(crate) fn part(&self) -> &Arc<Part>
        ensures { arc_value result.now ≡ self.now }
    {
        &self.part
    }

    /// The part for another replica. The first that is handed out has what was made already; the others make theirs.
    pub(crate) fn hand_out(&mut self, alloc: Global) -> Result<ReadyPart, AllocError>
        ensures same { self.new ≡ self.old }
        ensures other { IfOk result (λ ready. ready ≡ self.old) }
    {
        let part = Arc::try_clone(&self.part)?;
        let prepared = self.prepared.take();
        Ok(ReadyPart { part, prepared })
    }

    /// A new replica of the part. What was made already is not made again.
    pub(crate) fn into_replica(self, alloc: Global) -> Result<Replica, AllocError>
        ensures { (j : Job) (p : ℕ) → IsJob j → p < j.plan.parts → self ≡ part_of j p →
            IfOk result (IsFirst j p) }
    {
        let ReadyPart { part, prepared } = self;
        match prepared {
            Some(Prepared { targets, first }) => {
                Replica::with_tables(alloc, part, targets, first)
            }
            None => Replica::new(alloc, part),
        }
    }
}
