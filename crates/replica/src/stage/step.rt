//! How what a replica has changes, superstep by superstep.

ghost use Rattle.std.specs.Prelude.{◌≡◌, true, Ok, OnOk, OnErr};
ghost use Rattle.std.specs.Arc.{arc_value};
ghost use Rattle.ball_model.specs.declared.names.Taken.TheVariants as taken;
ghost use Rattle.ball_model.specs.declared.names.Verdict.TheVariants as verdict;
ghost use Rattle.replica.specs.Level.{close_answer, is_over, level_verdict};
ghost use Rattle.replica.specs.Change.{Advances, Receives, take_answer};
ghost use Rattle.replica.specs.Stage.{CanLetGo, StaysSame};
ghost use Rattle.replica.specs.Seen.{GoesBy, GoesFurther, HoldsTogether, IsState};

use crate::early::LEVELS;
use crate::level::Closing;
use crate::stage::is_same;
use crate::targets::Targets;
use crate::team::{Alone, Hands};
use crate::{Shown, Stage};
use ball_model::{CloseError, TakeError, Taken, Verdict};
use batches::Batch;
use figures::Estimator;
use std::sync::Arc;

impl Stage {
    pub(crate) fn answer(&self, batch: &Batch) -> Result<Taken, TakeError>
        ensures { result ≡ take_answer self.now.state batch.now }
    {
        let name = batch.name();
        if !is_same(self.plan(), batch.plan()) {
            return Err(TakeError::OtherJob);
        }
        if name.target != self.partition() {
            return Err(TakeError::NotMine);
        }
        if name.source == self.partition() {
            return Err(TakeError::OwnPartition);
        }
        if name.superstep < self.superstep {
            return Ok(Taken::Old);
        }
        if self.holds_from(name.superstep, name.source) {
            return Ok(Taken::Known);
        }
        let last = self.superstep + LEVELS as u32;
        if last < name.superstep {
            return Err(TakeError::TooEarly { last });
        }
        Ok(Taken::New)
    }

    /// Holds a batch from now on: one of the superstep is heard, a later one is kept.
    pub(crate) fn receive(&mut self, targets: &Targets, batch: Arc<Batch>)
        requires new { take_answer self.old.state (arc_value batch) ≡ Ok taken.New }
        requires by { GoesBy self.old targets.now }
        ensures receives { Receives (arc_value batch) self.old.state self.new.state }
        ensures by { GoesBy self.new targets.now }
    {
        let name = batch.name();
        if name.superstep == self.superstep {
            self.hearing
                .take_back(&Alone, &mut self.spare, &self.tables);
            self.hearing.hear(targets, &batch);
        } else {
            let level = (name.superstep - self.superstep - 1) as usize;
            self.early.keep(level, name.source, batch);
        }
    }

    /// Closes the superstep, unless the level is not held or the run is over. Weights are carried forward.
    pub(crate) fn close_level<H: Hands>(
        &mut self,
        hands: &H,
        targets: &Targets,
        estimator: &Estimator,
        weights: &mut [u64],
    ) -> Result<u32, CloseError>
        requires ready { H.ready hands.now }
        requires goes_on { HoldsTogether self.old targets.now estimator.now weights.old }
        ensures exact { result ≡ close_answer self.old.state }
        ensures refused { OnErr result (self.new.state ≡ self.old.state) }
        ensures advances { OnOk result (Advances self.old.state self.new.state) }
        ensures goes_on { HoldsTogether self.new targets.now estimator.now weights.new }
        ensures state { IsState self.old.state }
    {
        let next = self.superstep() + 1;
        match self.missing() {
            Some(source) => Err(CloseError::Waiting { source }),
            None => match self.level_verdict() {
                Verdict::GoOn => {
                    self.advance(hands, targets, estimator, weights);
                    Ok(next)
                }
                Verdict::Stable | Verdict::Limit => Err(CloseError::Finished),
            },
        }
    }

    /// Drops what only going on needs: what the tables have kept for it, and the accumulators if the run is over and
    /// each of them equals its row.
    pub(crate) fn let_go(&mut self)
        requires { CanLetGo self.old }
        ensures { StaysSame self.old self.new }
    {
        self.hearing
            .take_back(&Alone, &mut self.spare, &self.tables);
        self.tables.give_back();
        self.hearing.let_go();
    }

    pub(crate) fn is_over(&self) -> bool
        ensures { result ≡ is_over self.now.state }
    {
        match self.missing() {
            Some(_) => false,
            None => match self.level_verdict() {
                Verdict::GoOn => false,
                Verdict::Stable | Verdict::Limit => true,
            },
        }
    }

    // If many rows changed, a team walks over all of them.
    fn advance<H: Hands>(
        &mut self,
        hands: &H,
        targets: &Targets,
        estimator: &Estimator,
        weights: &mut [u64],
    )
        requires ready { H.ready hands.now }
        requires goes_on { HoldsTogether self.old targets.now estimator.now weights.old }
        requires going { level_verdict self.old.state ≡ verdict.GoOn }
        ensures { GoesFurther self.old.state self.new targets.now estimator.now weights.new }
    {
        if self.tables.are_walked(hands, &self.part) {
            self.walk_on(hands, targets, estimator, weights);
        } else {
            self.spread_on(hands, targets, estimator, weights);
        }
    }

    // What changed in the own partition is heard too, what was accumulated becomes the rows, and the batches of the
    // new superstep are heard.
    fn spread_on<H: Hands>(
        &mut self,
        hands: &H,
        targets: &Targets,
        estimator: &Estimator,
        weights: &mut [u64],
    )
        requires ready { H.ready hands.now }
        requires goes_on { HoldsTogether self.old targets.now estimator.now weights.old }
        requires going { level_verdict self.old.state ≡ verdict.GoOn }
        ensures { GoesFurther self.old.state self.new targets.now estimator.now weights.new }
    {
        let plan = *self.part.plan();
        self.hearing.take_back(hands, &mut self.spare, &self.tables);
        self.hearing.hear_own(targets, &self.part, &self.tables);
        let closing = Closing {
            estimator: &*estimator,
            t: self.superstep,
        };
        self.tables
            .next(hands, &closing, &mut self.hearing, weights);
        self.superstep += 1;
        self.hearing.hear_early(targets, &plan, &mut self.early, 0);
    }
}
