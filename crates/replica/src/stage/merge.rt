//! What is taken over from another replica of the partition.

ghost use Rattle.std.specs.Prelude.{◌≡◌, ◌↔◌, ◌<◌, IsTrue, OnErr, OnOk};
ghost use Rattle.ball_model.specs.History.{holding_in};
ghost use Rattle.ball_model.specs.Join.{AreAlike};
ghost use Rattle.replica.specs.Index.{targets_of};
ghost use Rattle.replica.specs.Merged.{CanTakeIn, CanTakeOver, TakesIn, TakesOver};
ghost use Rattle.replica.specs.Stage.{CanGoOn, IsWhole};
ghost use Rattle.replica.specs.Seen.{IsState};

use crate::early::Early;
use crate::stage::is_same;
use crate::targets::Targets;
use crate::team::Alone;
use crate::{Shown, Stage};
use std::alloc::{AllocError, Global};

impl Stage {
    /// Whether the two are of one plan and one partition.
    pub(crate) fn is_alike(&self, other: &Stage) -> bool
        ensures { IsTrue result ↔
            AreAlike (holding_in self.now.state) (holding_in other.now.state) }
    {
        is_same(self.plan(), other.plan()) && self.part.partition() == other.part.partition()
    }

    /// Takes over what another one of the same plan and partition knows; `shared` are the batches that it keeps.
    pub(crate) fn absorb(
        &mut self,
        alloc: Global,
        targets: &Targets,
        other: &Stage,
        shared: &mut Early,
    ) -> Result<(), AllocError>
        requires { CanTakeIn self.old other.now shared.old targets.now }
        ensures taken { OnOk result (TakesIn self.old.state other.now.state self.new.state) }
        ensures refused { OnErr result (self.new.state ≡ self.old.state) }
        ensures goes_on { CanGoOn self.new }
    {
        let theirs = other.superstep;
        self.keep_all(alloc)?;
        if self.superstep < theirs {
            self.overtake(targets, other, shared);
        } else if theirs < self.superstep {
            self.take_lesser(targets, other, shared);
        } else {
            self.unite(alloc, other, shared);
        }
        Ok(())
    }

    // Keeps an accumulator of each row, whether the run is over or not.
    fn keep_all(&mut self, alloc: Global) -> Result<(), AllocError>
        requires { CanGoOn self.old }
        ensures same { self.new.state ≡ self.old.state }
        ensures goes_on { CanGoOn self.new }
        ensures whole { OnOk result (IsWhole self.new) }
        ensures state { IsState self.new.state }
    {
        self.hearing
            .take_back(&Alone, &mut self.spare, &self.tables);
        self.hearing.renew(alloc, self.tables.rows())
    }

    // Becomes what another one is that is further; of the own batches those count that are of its superstep or later.
    fn overtake(&mut self, targets: &Targets, other: &Stage, shared: &mut Early)
        requires further { self.old.state.superstep < other.now.state.superstep }
        requires can { CanTakeOver self.old other.now shared.old targets.now }
        ensures { TakesOver self.old other.now self.new }
    {
        let plan = *self.part.plan();
        let passed = other.superstep - self.superstep - 1;
        self.superstep = other.superstep;
        self.tables.assign(&other.tables);
        self.hearing.assign(other.tables.rows(), &other.hearing);
        self.hearing
            .hear_early(targets, &plan, &mut self.early, passed);
        self.early.fill(shared);
    }

    // Of the batches of another one that is behind, those of the own superstep are heard, and later ones kept.
    fn take_lesser(&mut self, targets: &Targets, other: &Stage, shared: &mut Early)
        requires further { other.now.state.superstep < self.old.state.superstep }
        requires can { CanTakeOver self.old other.now shared.old targets.now }
        ensures { TakesOver self.old other.now self.new }
    {
        let plan = *self.part.plan();
        let passed = self.superstep - other.superstep - 1;
        self.hearing.hear_early(targets, &plan, shared, passed);
        self.early.fill(shared);
    }

    // What either of two at one superstep has heard and keeps.
    fn unite(&mut self, alloc: Global, other: &Stage, shared: &mut Early)
        requires level { self.old.state.superstep ≡ other.now.state.superstep }
        requires can { CanTakeOver self.old other.now shared.old
            (targets_of self.old.state.part) }
        ensures { TakesOver self.old other.now self.new }
    {
        self.hearing.absorb(
            alloc,
            self.tables.rows(),
            &other.hearing,
            other.accumulators(),
        );
        self.early.fill(shared);
    }
}
