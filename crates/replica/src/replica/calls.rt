//! A replica: what it knows, and the room in which it goes on. Only its making, `out`, `changed_rows`, `out_of`,
//! `snapshot` and `merge` take memory, and `close_by` that of its threads.

ghost use Rattle.std.specs.Prelude.{◌≡◌, ◌≢◌, ◌↔◌, ℕ, ◌<◌, ◌+◌, max, false, OnOk, OnErr, IfOk, Ok, Err};
ghost use Rattle.std.specs.Arc.{arc_value};
ghost use Rattle.ball_model.specs.declared.names.CloseError.TheVariants as waits;
ghost use Rattle.ball_model.specs.declared.names.MergeError.TheVariants as refusal;
ghost use Rattle.ball_model.specs.declared.names.Verdict.TheVariants as verdict;
ghost use Rattle.ball_model.specs.PlanValue.{measure_of};
ghost use Rattle.ball_model.specs.Job.{Job, IsJob, part_of};
ghost use Rattle.ball_model.specs.Batches.{IsTrueBatch};
ghost use Rattle.ball_model.specs.Content.{Content, is_new, close_of, after_close};
ghost use Rattle.ball_model.specs.State.{SameShown, StandsFor, content_of, further};
ghost use Rattle.figures.specs.Values.{AreWeighed};
ghost use Rattle.replica.specs.Change.{HoldsAfter, take_answer};
ghost use Rattle.replica.specs.First.{BeginsAs};
ghost use Rattle.replica.specs.Index.{targets_of};
ghost use Rattle.replica.specs.Level.{EndsRun, found_verdict, missing_in};
ghost use Rattle.replica.specs.Merged.{AreOfOnePart, TakesIn, HoldsOfBoth, ShowsAs, merge_answer};
ghost use Rattle.replica.specs.Stage.{CanGoOn};
ghost use Rattle.replica.specs.Runs.{HasContent, Takes, Closes, Merges};
ghost use Rattle.replica.specs.Start.{Starts};

use crate::early::Early;
use crate::first::FirstTables;
use crate::hearing::Hearing;
use crate::shown::Shown;
use crate::stage::is_same;
use crate::targets::Targets;
use crate::team::{Alone, Sizes, Team};
use crate::{Replica, Snapshot, Stage};
use ball_model::{CloseError, MergeError, TakeError, Taken};
use batches::Batch;
use figures::Estimator;
use graph::Part;
use std::alloc::{AllocError, Global};
use std::sync::Arc;
use std::thread::Threads;

impl Replica {
    /// A replica of the part at superstep 0, which holds no batch: each vertex has seen itself.
    ///
    /// All room of later supersteps is taken here. The error is that memory was refused. It takes time in proportion
    /// to the registers of the partition and the edges into it.
    pub fn new(alloc: Global, part: Arc<Part>) -> Result<Replica, AllocError>
        ensures part { IfOk result (λ r. r.part ≡ arc_value part) }
        ensures superstep { IfOk result (λ r. r.superstep ≡ 0) }
        ensures names { IfOk result (λ r. (s q : ℕ) → (content_of r).holds s q ≡ false) }
        ensures stands { IfOk result (λ r. (j : Job) (p : ℕ) → IsJob j → p < j.plan.parts →
            arc_value part ≡ part_of j p → StandsFor j p 0 r) }
    {
        let targets = Targets::of(alloc, &part)?;
        Replica::with_targets(alloc, part, targets)
    }

    /// A replica of the part at superstep 0, by the index of the part, which was made before: so it takes time in
    /// proportion to the registers alone.
    ///
    /// The error is that memory was refused; the part and the index are dropped then.
    pub(crate) fn with_targets(
        alloc: Global,
        part: Arc<Part>,
        targets: Targets,
    ) -> Result<Replica, AllocError>
        requires { targets ≡ targets_of (arc_value part) }
        ensures { IfOk result (λ r. Starts (arc_value part) r) }
    {
        let first = FirstTables::of(alloc, &part)?;
        Replica::with_tables(alloc, part, targets, first)
    }

    /// A replica of the part at superstep 0, by the index of the part and by what a replica of it begins with, which
    /// were both made before: so it takes next to no time and memory.
    ///
    /// The error is that memory was refused; all three are dropped then.
    pub fn with_tables(
        alloc: Global,
        part: Arc<Part>,
        targets: Targets,
        first: FirstTables,
    ) -> Result<Replica, AllocError>
        requires index { targets ≡ targets_of (arc_value part) }
        requires first { BeginsAs (arc_value part) first }
        ensures { IfOk result (λ r. Starts (arc_value part) r) }
    {
        part.limits();
        let early = Early::empty(alloc, part.plan().parts())?;
        let FirstTables {
            tables,
            hearing,
            estimator,
            weights,
        } = first;
        let spare = Hearing::bare(alloc, tables.rows())?;
        Ok(Replica {
            stage: Stage {
                part,
                superstep: 0,
                tables,
                hearing,
                spare,
                early,
            },
            targets,
            estimator,
            weights,
        })
    }

    /// A replica that has this, by the index of its part. Estimates are made as its plan says.
    pub(crate) fn of(
        alloc: Global,
        stage: Stage,
        targets: Targets,
        estimator: Estimator,
    ) -> Result<Replica, AllocError>
        requires goes_on { CanGoOn stage }
        requires index { targets ≡ targets_of stage.state.part }
        requires measure { estimator ≡ measure_of stage.state.part.plan }
        ensures { IfOk result (λ r. r ≡ stage.state) }
    {
        let mut weights = Vec::with_capacity(alloc, stage.tables.rows().len())?;
        stage.weigh_again(&mut weights);
        Ok(Replica {
            stage,
            targets,
            estimator,
            weights,
        })
    }

    /// Holds a batch from now on, or says why not. It takes no memory, and waits for nobody.
    ///
    /// In this order: [`OtherJob`](TakeError::OtherJob) if the plan is another, [`NotMine`](TakeError::NotMine) if the
    /// target is, [`OwnPartition`](TakeError::OwnPartition) if the source is the replica's own partition;
    /// [`Old`](Taken::Old) below its superstep, [`Known`](Taken::Known) if it is held,
    /// [`TooEarly`](TakeError::TooEarly) more than three supersteps ahead, else [`New`](Taken::New). New adds the
    /// batch alone; every other answer changes nothing. A batch of the superstep is merged and dropped, in time in
    /// proportion to the registers of the edges from its vertices into the partition; a later one is kept.
    pub fn take(&mut self, batch: Arc<Batch>) -> Result<Taken, TakeError>
        ensures answer { result ≡ take_answer self.old (arc_value batch) }
        ensures names { HoldsAfter (is_new result) (arc_value batch).name self.old self.new }
        ensures shown { SameShown self.new self.old }
        ensures unchanged { is_new result ≡ false → self.new ≡ self.old }
        ensures stands { (j : Job) (p t : ℕ) → StandsFor j p t self.old →
            IsTrueBatch j (arc_value batch) → StandsFor j p t self.new }
        // a step of a run
        ensures step { (j : Job) (p : ℕ) → IsTrueBatch j (arc_value batch) →
            Takes j p (arc_value batch).name result self.old self.new }
    {
        let answer = self.stage.answer(&batch);
        match answer {
            Ok(Taken::New) => {
                batch.limits();
                self.stage.receive(&self.targets, batch);
                answer
            }
            _ => answer,
        }
    }

    /// Closes the superstep and returns the next one, at which the replica is then. It takes no memory, and waits for
    /// nobody.
    ///
    /// [`Waiting`](CloseError::Waiting) if a batch of the level is missing, for the least such source, then
    /// [`Finished`](CloseError::Finished) if the verdict is Stable or Limit; an error changes nothing. Batches of the
    /// superstep go, the others stay. It takes time in proportion to the registers of the vertices that change, and of
    /// the edges from own vertices that did and from vertices of kept batches that it hears. Marks, a byte a vertex,
    /// are passed over 64 at once if none is set, and those of the next superstep are copied and cleared. The first
    /// close after a snapshot copies rows and figures too: those that changed since the snapshot before it, or all of
    /// them if there was none, or if somebody still holds that one.
    pub fn close(&mut self) -> Result<u32, CloseError>
        ensures waits { (q : ℕ) →
            (result ≡ Err (waits.Waiting q)) ↔ (missing_in self.old ≡ Some q) }
        ensures goes_on { (result ≡ Ok (self.old.superstep + 1)) ↔
            (found_verdict self.old ≡ Some verdict.GoOn) }
        ensures finished { (result ≡ Err waits.Finished) ↔ EndsRun (found_verdict self.old) }
        ensures refused { OnErr result (self.new ≡ self.old) }
        ensures part { self.new.part ≡ self.old.part }
        ensures superstep { IfOk result (λ t.
            (t ≡ self.old.superstep + 1) × (self.new.superstep ≡ t)) }
        ensures names { OnOk result ((s q : ℕ) →
            (content_of self.new).holds s q ≡ (after_close (content_of self.old)).holds s q) }
        ensures answer { (j : Job) (p t : ℕ) → StandsFor j p t self.old →
            result ≡ close_of j p (content_of self.old) }
        ensures stands { (j : Job) (p t : ℕ) → StandsFor j p t self.old →
            OnOk result (StandsFor j p (t + 1) self.new) }
        // a step of a run
        ensures step { (j : Job) (p : ℕ) → Closes j p result self.old self.new }
    {
        self.stage
            .close_level(&Alone, &self.targets, &self.estimator, &mut self.weights)
    }

    /// Closes the superstep as [`Replica::close`] does, in `threads` threads, or the next power of 2 below. If many
    /// vertices changed, each accumulator is raised by the rows of its own predecessors ("pulled") by one thread, and
    /// the figures of its vertex follow at once, so that threads share nothing that is written. If `threads` is at
    /// least the number of processors, up to four times as many are started, since parts of the work take unequal
    /// times.
    ///
    /// Errors are those of `close`. It takes no memory but that of its threads, which it joins; a thread that cannot
    /// be started is done without. It takes the time of `close`, over the processors if many vertices changed.
    pub fn close_by<R: Threads + Sync>(&mut self, rt: &R, threads: usize) -> Result<u32, CloseError>
        ensures waits { (q : ℕ) →
            (result ≡ Err (waits.Waiting q)) ↔ (missing_in self.old ≡ Some q) }
        ensures goes_on { (result ≡ Ok (self.old.superstep + 1)) ↔
            (found_verdict self.old ≡ Some verdict.GoOn) }
        ensures finished { (result ≡ Err waits.Finished) ↔ EndsRun (found_verdict self.old) }
        ensures refused { OnErr result (self.new ≡ self.old) }
        ensures part { self.new.part ≡ self.old.part }
        ensures superstep { IfOk result (λ t.
            (t ≡ self.old.superstep + 1) × (self.new.superstep ≡ t)) }
        ensures names { OnOk result ((s q : ℕ) →
            (content_of self.new).holds s q ≡ (after_close (content_of self.old)).holds s q) }
        ensures answer { (j : Job) (p t : ℕ) → StandsFor j p t self.old →
            result ≡ close_of j p (content_of self.old) }
        ensures stands { (j : Job) (p t : ℕ) → StandsFor j p t self.old →
            OnOk result (StandsFor j p (t + 1) self.new) }
        // a step of a run
        ensures step { (j : Job) (p : ℕ) → Closes j p result self.old self.new }
    {
        let sizes = Sizes::usual();
        let team = Team { rt, threads, sizes };
        self.stage
            .close_level(&team, &self.targets, &self.estimator, &mut self.weights)
    }

    /// Closes the superstep as [`Replica::close`] does, by a team.
    #[cfg(test)]
    pub(crate) fn close_in<R: Threads + Sync>(
        &mut self,
        team: &Team<'_, R>,
    ) -> Result<u32, CloseError> {
        self.stage
            .close_level(team, &self.targets, &self.estimator, &mut self.weights)
    }

    /// The weight of each vertex's row, which its estimate is made of, as [`figures::weight`] has it.
    pub fn weights(&self) -> &[u64]
        ensures { AreWeighed self.now.rows result.now }
    {
        self.limits();
        &self.weights
    }

    /// Gives back the memory that a run that is over needs no more: that of the index, that of the accumulators if
    /// each equals its row, and what sharing the tables took (but room taken with a table that somebody still holds).
    /// If the run is not over it does nothing. What the replica has stays as it is, and only a merge, a join or a
    /// snapshot may take memory again.
    pub fn give_back(&mut self)
        ensures { self.new ≡ self.old }
    {
        if self.stage.is_over() {
            self.stage.let_go();
            self.targets.clear();
        }
    }

    /// Takes over what a snapshot of a replica of the same partition knows: its superstep, rows and figures if it is
    /// further, and its batches of the superstep reached and of the three that follow.
    ///
    /// In this order: [`OtherJob`](MergeError::OtherJob) if the plan is another, [`NotMine`](MergeError::NotMine) if
    /// the partition is, [`Memory`](MergeError::Memory) if that of the list of shared batches, three for each
    /// partition, is refused, or that of the index and the accumulators, which are made again if `give_back` has given
    /// them back; an error changes nothing. It waits for nobody. It takes time in proportion to the registers of the
    /// partition, and of the edges from the early batches' vertices.
    pub fn merge(&mut self, alloc: Global, other: &Snapshot) -> Result<(), MergeError>
        ensures answer { result ≢ Err refusal.Memory →
            result ≡ merge_answer self.old other.now }
        ensures memory { result ≡ Err refusal.Memory → merge_answer self.old other.now ≡ Ok tt }
        ensures refused { OnErr result (self.new ≡ self.old) }
        ensures part { self.new.part ≡ self.old.part }
        ensures superstep { OnOk result
            (self.new.superstep ≡ max self.old.superstep other.now.superstep) }
        ensures names { OnOk result (HoldsOfBoth self.old other.now self.new) }
        ensures shown { OnOk result (ShowsAs self.new (further self.old other.now)) }
        ensures stands { (j : Job) (p t u : ℕ) → StandsFor j p t self.old →
            StandsFor j p u other.now → OnOk result (StandsFor j p (max t u) self.new) }
        // a step of a run
        ensures step { (j : Job) (p : ℕ) (d : Content) → HasContent j p d other.now →
            Merges j p d result self.old self.new }
    {
        if !is_same(self.plan(), other.plan()) {
            return Err(MergeError::OtherJob);
        }
        if other.partition() != self.partition() {
            return Err(MergeError::NotMine);
        }
        let Ok(()) = self.take_over(alloc, &other.stage) else {
            return Err(MergeError::Memory);
        };
        Ok(())
    }

    /// Takes over what another one of the same plan and partition knows. An error changes nothing.
    pub(crate) fn take_over(&mut self, alloc: Global, other: &Stage) -> Result<(), AllocError>
        requires { AreOfOnePart self.old other.now.state }
        ensures taken { OnOk result (TakesIn self.old other.now.state self.new) }
        ensures refused { OnErr result (self.new ≡ self.old) }
    {
        let mut shared = other.early.share(alloc)?;
        self.targets.renew(alloc, &self.stage.part)?;
        self.stage.absorb(alloc, &self.targets, other, &mut shared)?;
        self.stage.weigh_again(&mut self.weights);
        Ok(())
    }

    /// What the replica has now.
    ///
    /// Rows, figures, batches and the part are shared; a mark for each vertex and the sums so far are copied, and if
    /// what is heard has raised a row, the accumulators. Room for a table of rows and one of figures is taken, in
    /// which the replica goes on while somebody holds this one. The error is that memory was refused.
    pub fn snapshot(&mut self, alloc: Global) -> Result<Snapshot, AllocError>
        ensures same { IfOk result (λ s. s ≡ self.old) }
        ensures stands { IfOk result (λ s. (j : Job) (p t : ℕ) → StandsFor j p t self.old →
            StandsFor j p t s) }
        ensures unchanged { self.new ≡ self.old }
    {
        let stage = self.stage.copied(alloc)?;
        Ok(Snapshot { stage })
    }
}
