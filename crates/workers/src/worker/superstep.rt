//! One superstep of a node.

ghost use Rattle.std.specs.Prelude.{◌≡◌, ◌≢◌, ◌⊎◌, ◌<◌, ◌≤◌, ℕ, true, false, None, Err, IfErr};
ghost use Rattle.std.specs.Prelude.{IfOk};
ghost use Rattle.std.specs.Prelude.{OnErr, OnOk};
ghost use Rattle.std.specs.Arc.{arc_value};
ghost use Rattle.ball_model.specs.Batches.{true_batch};
ghost use Rattle.ball_model.specs.Caller.{CalledNothing, Extends, IsCaller, IsFull};
ghost use Rattle.ball_model.specs.Held.{held_after};
ghost use Rattle.ball_model.specs.History.{entries_of, holding_in};
ghost use Rattle.ball_model.specs.Join.{Holding};
ghost use Rattle.ball_model.specs.Steps.{Close};
ghost use Rattle.workers.specs.declared.worker.node_run.NodeError.TheVariants.{BookFull};
ghost use Rattle.workers.specs.Node.{HasPosted, HasToldAll, WasMissing, is_kept_at};
ghost use Rattle.ball_model.specs.Job.{Job};
ghost use Rattle.ball_model.specs.State.{StandsFor};
ghost use Rattle.replica.specs.Level.{EndsRun, found_verdict, missing_in};
ghost use Rattle.workers.specs.declared.worker.superstep.SuperstepEnd.TheVariants as superstep_end;
ghost use Rattle.workers.specs.Superstep.{DropsBefore, EndsSuperstep, HasKept, HasRecalled, IsFound};
ghost use Rattle.workers.specs.Superstep.{StandsIn};
ghost use Rattle.replica.specs.Sent.{AreChanged, batch_name};
ghost use Rattle.workers.specs.Tie.{HasCome, HasGone, HasPath, IsPath};

use crate::exchange::Exchange;
use crate::gate::Gate;
use crate::shared::SharedTables;
use crate::worker::Worker;
use crate::worker::node_run::NodeError;
use ball_model::BatchName;
use batches::Batch;
use job::Watch;
use replica::{ChangedRows, Replica, Shown, Snapshot};
use std::alloc::{AllocError, AllocGlobal, Global};
use std::sync::{Arc, Wait};
use std::thread::Threads;

/// How a superstep of a node ends.
#[derive(Clone, Copy)]
pub(crate) enum SuperstepEnd {
    /// The replica is at another superstep.
    Next,
    /// The run is over.
    Over,
    /// It waited in vain for the batch of a source.
    Starved { source: u16 },
}

/// What a node has found of the others.
#[derive(Clone, Copy)]
pub(crate) enum Found {
    /// Every batch of its superstep.
    Level,
    /// A snapshot of a further superstep, which it has taken over.
    Further,
    /// A batch is missing.
    Missed { source: u16 },
}

// A snapshot of the replica, as threads share it.
fn shared_snapshot(alloc: Global, replica: &mut Replica) -> Result<Arc<Snapshot>, AllocError>
    ensures same { IfOk result (λ s. arc_value s ≡ replica.old) }
    ensures unchanged { replica.new ≡ replica.old }
{
    Ok(Arc::new(alloc, replica.snapshot(alloc)?)?)
}

// Whether a snapshot is kept at a superstep: it is a multiple of `every`, and that is not 0.
fn is_kept_at(every: u32, superstep: u32) -> bool
    ensures { result ≡ is_kept_at every superstep }
{
    every != 0 && superstep % every == 0
}

// The batch of the superstep for another partition, as threads share it.
fn shared_batch(
    alloc: Global,
    replica: &Replica,
    changed: &ChangedRows,
    target: u16,
) -> Result<Arc<Batch>, AllocError>
    requires target { target < replica.now.part.plan.parts }
    requires other { target ≢ replica.now.part.number }
    requires changed { AreChanged replica.now changed.now }
    ensures { (j : Job) (p t : ℕ) → StandsFor j p t replica.now →
        IfOk result (λ b. arc_value b ≡ true_batch j (batch_name t p target)) }
{
    Ok(Arc::new(alloc, replica.out_of(alloc, changed, target)?)?)
}

impl<'a, R: AllocGlobal + Threads + Wait + Sync, G: Gate + Watch> Worker<'a, R, G> {
    /// Takes over the snapshot that is kept for the replica's partition, if it is of superstep `at_least` or later; and
    /// returns whether there is one.
    pub(crate) fn catch_up<E: Exchange>(
        &self,
        exchange: &mut E,
        at_least: u32,
        replica: &mut Replica,
    ) -> Result<bool, NodeError>
        requires caller { IsCaller (E.caller exchange.old) }
        requires stands { StandsIn (E.caller exchange.old) self.now.node.part replica.old }
        ensures seen { Extends (E.caller exchange.old) (E.caller exchange.new) }
        ensures stands { OnOk result (StandsIn (E.caller exchange.old) self.now.node.part
            replica.new) }
        ensures none { IfOk result (λ found. found ≡ false → replica.new ≡ replica.old) }
        ensures found { IfOk result (λ found. found ≡ true →
            HasRecalled (E.caller exchange.old) self.now.node.part at_least replica.old.superstep
            replica.new.superstep (E.caller exchange.new)) }
        ensures came { OnOk result (HasCome (E.caller exchange.old) self.now.node.part
            (holding_in replica.old) (holding_in replica.new) (E.caller exchange.new)) }
        ensures gone { OnErr result (HasGone (E.caller exchange.old) self.now.node.part
            (holding_in replica.old) (E.caller exchange.new)) }
        ensures full { IfErr result (λ e. e ≡ BookFull → IsFull (E.caller exchange.new)) }
    {
        let Some(snapshot) = exchange.recall(self.rt, self.node.part, at_least)? else {
            return Ok(false);
        };
        replica.limits();
        snapshot.limits();
        let Ok(()) = replica.merge(self.rt.alloc(), &snapshot) else {
            return Err(NodeError::Memory);
        };
        Ok(true)
    }

    // Keeps a snapshot if its orders say so at this superstep.
    fn keep_snapshot<E: Exchange>(
        &self,
        exchange: &mut E,
        replica: &mut Replica,
    ) -> Result<(), NodeError>
        requires caller { IsCaller (E.caller exchange.old) }
        requires stands { StandsIn (E.caller exchange.old) self.now.node.part replica.old }
        ensures seen { Extends (E.caller exchange.old) (E.caller exchange.new) }
        ensures same { replica.new ≡ replica.old }
        ensures kept { is_kept_at self.now.orders.keep replica.old.superstep ≡ true → OnOk result (
            HasKept (E.caller exchange.old) (holding_in replica.old) (E.caller exchange.new)) }
        ensures unkept { is_kept_at self.now.orders.keep replica.old.superstep ≡ false →
            CalledNothing (E.caller exchange.old) (E.caller exchange.new) }
        ensures came { OnOk result (IsPath self.now.orders.keep (E.caller exchange.old)
            self.now.node.part (holding_in replica.old) (holding_in replica.new)
            (E.caller exchange.new)) }
        ensures gone { OnErr result (HasGone (E.caller exchange.old) self.now.node.part
            (holding_in replica.old) (E.caller exchange.new)) }
        ensures full { IfErr result (λ e. e ≡ BookFull → IsFull (E.caller exchange.new)) }
        ensures never { self.now.orders.keep ≡ 0 → result ≢ Err BookFull }
    {
        if !is_kept_at(self.orders.keep, replica.superstep()) {
            return Ok(());
        }
        let snapshot = shared_snapshot(self.rt.alloc(), replica)?;
        exchange.keep(self.rt, snapshot)?;
        Ok(())
    }

    // Posts the batch of the superstep for one other partition.
    fn tell<E: Exchange>(
        &self,
        exchange: &mut E,
        replica: &Replica,
        changed: &ChangedRows,
        target: u16,
    ) -> Result<(), NodeError>
        requires caller { IsCaller (E.caller exchange.old) }
        requires stands { StandsIn (E.caller exchange.old) self.now.node.part replica.now }
        requires target { target < (E.caller exchange.old).seen.job.plan.parts }
        requires other { target ≢ self.now.node.part }
        requires changed { AreChanged replica.now changed.now }
        ensures seen { Extends (E.caller exchange.old) (E.caller exchange.new) }
        ensures posted { OnOk result (HasPosted (E.caller exchange.old)
            (batch_name replica.now.superstep self.now.node.part target) (E.caller exchange.new)) }
        ensures came { OnOk result (HasCome (E.caller exchange.old) self.now.node.part
            (holding_in replica.now) (holding_in replica.now) (E.caller exchange.new)) }
        ensures gone { OnErr result (HasGone (E.caller exchange.old) self.now.node.part
            (holding_in replica.now) (E.caller exchange.new)) }
        ensures full { IfErr result (λ e. e ≡ BookFull → IsFull (E.caller exchange.new)) }
    {
        let batch = shared_batch(self.rt.alloc(), replica, changed, target)?;
        self.gate.before_post(self.node, replica.superstep());
        exchange.post(self.rt, batch)?;
        self.gate.after_post(self.node, replica.superstep());
        Ok(())
    }

    // Posts the batch of the superstep for every other partition, from the rows that changed.
    fn tell_each<E: Exchange>(
        &self,
        exchange: &mut E,
        replica: &Replica,
        changed: &ChangedRows,
    ) -> Result<(), NodeError>
        requires caller { IsCaller (E.caller exchange.old) }
        requires stands { StandsIn (E.caller exchange.old) self.now.node.part replica.now }
        requires changed { AreChanged replica.now changed.now }
        ensures seen { Extends (E.caller exchange.old) (E.caller exchange.new) }
        ensures told { OnOk result (HasToldAll (E.caller exchange.old) replica.now.superstep
            self.now.node.part (E.caller exchange.new)) }
        ensures came { OnOk result (HasCome (E.caller exchange.old) self.now.node.part
            (holding_in replica.now) (holding_in replica.now) (E.caller exchange.new)) }
        ensures gone { OnErr result (HasGone (E.caller exchange.old) self.now.node.part
            (holding_in replica.now) (E.caller exchange.new)) }
        ensures full { IfErr result (λ e. e ≡ BookFull → IsFull (E.caller exchange.new)) }
        ensures alone { (E.caller exchange.old).seen.job.plan.parts ≡ 1 → result ≢ Err BookFull }
    {
        for target in 0..replica.plan().parts() {
            if target != self.node.part {
                self.tell(exchange, replica, changed, target)?;
            }
        }
        Ok(())
    }

    // Posts the superstep's batches for all other partitions. The registers of the vertices that changed are copied once,
    // into a table that all batches share; a partition that is alone copies nothing.
    fn tell_all<E: Exchange>(
        &self,
        exchange: &mut E,
        tables: &mut SharedTables,
        replica: &Replica,
    ) -> Result<(), NodeError>
        requires caller { IsCaller (E.caller exchange.old) }
        requires stands { StandsIn (E.caller exchange.old) self.now.node.part replica.now }
        ensures seen { Extends (E.caller exchange.old) (E.caller exchange.new) }
        ensures told { OnOk result (HasToldAll (E.caller exchange.old) replica.now.superstep
            self.now.node.part (E.caller exchange.new)) }
        ensures came { OnOk result (HasCome (E.caller exchange.old) self.now.node.part
            (holding_in replica.now) (holding_in replica.now) (E.caller exchange.new)) }
        ensures gone { OnErr result (HasGone (E.caller exchange.old) self.now.node.part
            (holding_in replica.now) (E.caller exchange.new)) }
        ensures full { IfErr result (λ e. e ≡ BookFull → IsFull (E.caller exchange.new)) }
        ensures alone { (E.caller exchange.old).seen.job.plan.parts ≡ 1 → result ≢ Err BookFull }
    {
        if replica.plan().parts() == 1 {
            return Ok(());
        }
        let changed = tables.next(self.rt.alloc(), replica)?;
        self.tell_each(exchange, replica, &changed)
    }

    // If every superstep is kept, drops the batches that nobody needs any more.
    fn drop_old<E: Exchange>(&self, exchange: &mut E, superstep: u32) -> Result<(), NodeError>
        requires caller { IsCaller (E.caller exchange.old) }
        ensures seen { Extends (E.caller exchange.old) (E.caller exchange.new) }
        ensures came { (p : ℕ) (h : Holding) → superstep ≤ h.superstep →
            HasCome (E.caller exchange.old) p h h (E.caller exchange.new) }
        ensures full { IfErr result (λ e. e ≡ BookFull → IsFull (E.caller exchange.new)) }
        ensures never { self.now.orders.keep ≡ 0 → result ≢ Err BookFull }
        ensures unkept { self.now.orders.keep ≢ 1 → CalledNothing (E.caller exchange.old)
            (E.caller exchange.new) }
        ensures dropped { OnOk result (DropsBefore (E.caller exchange.old) superstep
            (E.caller exchange.new)) }
    {
        let every = self.orders.keep;
        if every != 1 || superstep < 2 {
            return Ok(());
        }
        exchange.drop_below(self.rt, superstep - 1)?;
        Ok(())
    }

    // Idles until the history is no longer of that length, nothing can come from the source any more, or patience is at
    // its end; and returns whether it has grown. (A node posts before it ends: so the length is looked at once more.)
    fn has_grown<E: Exchange>(&self, exchange: &mut E, source: u16, before: u64) -> bool
        requires caller { IsCaller (E.caller exchange.old) }
        ensures seen { Extends (E.caller exchange.old) (E.caller exchange.new) }
        ensures nothing { CalledNothing (E.caller exchange.old) (E.caller exchange.new) }
        ensures grown { result ≡ true → entries_of (E.caller exchange.new).seen ≢ before }
        ensures same { result ≡ false → 0 < self.now.orders.patience →
            entries_of (E.caller exchange.new).seen ≡ before }
    {
        for _ in 0..self.orders.patience {
            let may_come = self.gate.wait_for(self.node, source);
            if exchange.length() != before {
                return true;
            }
            if !may_come {
                return false;
            }
        }
        false
    }

    // Finds the batch of a source, and takes it; and whether it is there.
    fn find<E: Exchange>(
        &self,
        exchange: &mut E,
        replica: &mut Replica,
        source: u16,
    ) -> Result<bool, NodeError>
        requires caller { IsCaller (E.caller exchange.old) }
        requires stands { StandsIn (E.caller exchange.old) self.now.node.part replica.old }
        ensures seen { Extends (E.caller exchange.old) (E.caller exchange.new) }
        ensures stands { OnOk result (StandsIn (E.caller exchange.old) self.now.node.part
            replica.new) }
        ensures superstep { replica.new.superstep ≡ replica.old.superstep }
        ensures missed { IfOk result (λ found. found ≡ false →
            WasMissing (E.caller exchange.old)
            (batch_name replica.old.superstep source self.now.node.part) (E.caller exchange.new)) }
        ensures came { OnOk result (HasCome (E.caller exchange.old) self.now.node.part
            (holding_in replica.old) (holding_in replica.new) (E.caller exchange.new)) }
        ensures gone { OnErr result (HasGone (E.caller exchange.old) self.now.node.part
            (holding_in replica.old) (E.caller exchange.new)) }
        ensures full { IfErr result (λ e. e ≡ BookFull → IsFull (E.caller exchange.new)) }
    {
        let name = BatchName {
            superstep: replica.superstep(),
            source,
            target: self.node.part,
        };
        let Some(batch) = exchange.fetch(self.rt, name)? else {
            return Ok(false);
        };
        let _ = replica.take(batch);
        Ok(true)
    }

    // Takes the batches of the superstep, until the level is held, a snapshot of a further superstep is taken over, or a
    // wait for a batch was in vain.
    fn hear_all<E: Exchange>(
        &self,
        exchange: &mut E,
        replica: &mut Replica,
    ) -> Result<Found, NodeError>
        requires caller { IsCaller (E.caller exchange.old) }
        requires stands { StandsIn (E.caller exchange.old) self.now.node.part replica.old }
        ensures seen { Extends (E.caller exchange.old) (E.caller exchange.new) }
        ensures stands { OnOk result (StandsIn (E.caller exchange.old) self.now.node.part
            replica.new) }
        ensures found { IfOk result (λ found. IsFound (E.caller exchange.old) self.now.node.part
            replica.old.superstep replica.new found (E.caller exchange.new)) }
        ensures came { OnOk result (HasCome (E.caller exchange.old) self.now.node.part
            (holding_in replica.old) (holding_in replica.new) (E.caller exchange.new)) }
        ensures gone { OnErr result (HasGone (E.caller exchange.old) self.now.node.part
            (holding_in replica.old) (E.caller exchange.new)) }
        ensures full { IfErr result (λ e. e ≡ BookFull → IsFull (E.caller exchange.new)) }
        ensures alone { (E.caller exchange.old).seen.job.plan.parts ≡ 1 → result ≢ Err BookFull }
    {
        for _ in self.rt.forever() {
            let Some(source) = replica.missing() else {
                return Ok(Found::Level);
            };
            let length = exchange.length();
            if self.find(exchange, replica, source)? {
                continue;
            }
            if self.catch_up(exchange, replica.superstep() + 1, replica)? {
                return Ok(Found::Further);
            }
            if !self.has_grown(exchange, source, length) {
                return Ok(Found::Missed { source });
            }
        }
        unreachable!()
    }

    // Goes on from a superstep whose level is held.
    fn close(&self, replica: &mut Replica) -> SuperstepEnd
        requires held { missing_in replica.old ≡ None }
        ensures stands { (j : Job) (p t : ℕ) → StandsFor j p t replica.old →
            StandsFor j p replica.new.superstep replica.new }
        ensures held { (j : Job) (p t : ℕ) → StandsFor j p t replica.old →
            holding_in replica.new ≡ held_after j (holding_in replica.old) Close }
        ensures over { result ≡ superstep_end.Over → (replica.new ≡ replica.old)
            × EndsRun (found_verdict replica.new) }
        ensures kind { (result ≡ superstep_end.Next) ⊎ (result ≡ superstep_end.Over) }
    {
        replica.limits();
        let vertices = replica.plan().part_size(replica.partition());
        match replica.close_by(self.rt, self.threads) {
            Ok(reached) => {
                let changed = replica.changed_count();
                self.gate.after_close(self.node, reached, changed, vertices);
                SuperstepEnd::Next
            }
            Err(_) => SuperstepEnd::Over,
        }
    }

    /// A superstep of a node: it keeps a snapshot, posts its batches, takes those of the others, and closes.
    pub(crate) fn run_superstep<E: Exchange>(
        &self,
        exchange: &mut E,
        tables: &mut SharedTables,
        replica: &mut Replica,
    ) -> Result<SuperstepEnd, NodeError>
        requires caller { IsCaller (E.caller exchange.old) }
        requires stands { StandsIn (E.caller exchange.old) self.now.node.part replica.old }
        ensures seen { Extends (E.caller exchange.old) (E.caller exchange.new) }
        ensures ends { IfOk result (λ end. EndsSuperstep self.now.orders.keep
            (E.caller exchange.old) self.now.node.part replica.old replica.new end
            (E.caller exchange.new)) }
        ensures gone { OnErr result (HasPath self.now.orders.keep (E.caller exchange.old)
            self.now.node.part (holding_in replica.old) (E.caller exchange.new)) }
        ensures full { IfErr result (λ e. e ≡ BookFull → IsFull (E.caller exchange.new)) }
        ensures alone { (E.caller exchange.old).seen.job.plan.parts ≡ 1 → self.now.orders.keep ≡ 0 →
            result ≢ Err BookFull }
    {
        self.keep_snapshot(exchange, replica)?;
        self.tell_all(exchange, tables, replica)?;
        self.drop_old(exchange, replica.superstep())?;
        Ok(match self.hear_all(exchange, replica)? {
            Found::Level => self.close(replica),
            Found::Further => SuperstepEnd::Next,
            Found::Missed { source } => SuperstepEnd::Starved { source },
        })
    }
}
