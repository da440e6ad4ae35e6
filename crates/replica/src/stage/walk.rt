//! A superstep that is closed in one walk over the own rows.

ghost use Rattle.std.specs.Prelude.{◌≡◌};
ghost use Rattle.ball_model.specs.declared.names.Verdict.TheVariants as verdict;
ghost use Rattle.replica.specs.Level.{level_verdict};
ghost use Rattle.replica.specs.Seen.{GoesFurther, HoldsTogether};

use crate::Stage;
use crate::level::Closing;
use crate::targets::Targets;
use crate::team::Hands;
use figures::Estimator;

impl Stage {
    /// Does what `spread_on` does, in one walk, after which the accumulators are stale. If there are other partitions,
    /// whose batches are to be heard, they are taken back at once.
    pub(crate) fn walk_on<H: Hands>(
        &mut self,
        hands: &H,
        targets: &Targets,
        estimator: &Estimator,
        weights: &mut [u64],
    )
        requires ready { H.ready hands.now }
        requires goes_on { HoldsTogether self.old targets.now estimator.now weights.old }
        requires going { level_verdict self.old.state ≡ verdict.GoOn }
        ensures { GoesFurther self.old.state self.new targets.now estimator.now weights.new }
    {
        let plan = *self.part.plan();
        let closing = Closing {
            estimator: &*estimator,
            t: self.superstep,
        };
        let stale = self.hearing.lend(&mut self.spare);
        let spare = &mut self.spare;
        self.tables
            .walk(hands, &self.part, &closing, stale, spare, weights);
        self.superstep += 1;
        if plan.parts() == 1 {
            self.early.shift(1);
            return;
        }
        self.hearing.take_back(hands, &mut self.spare, &self.tables);
        self.hearing.hear_early(targets, &plan, &mut self.early, 0);
    }
}
