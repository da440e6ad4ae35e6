//! What is read off what a replica has.

ghost use Rattle.std.specs.Prelude.{◌≡◌, ◌^◌, IfOk};
ghost use Rattle.ball_model.specs.State.{content_of};
ghost use Rattle.replica.specs.Level.{is_changing, level_verdict};
ghost use Rattle.replica.specs.Seen.{IsPlaceOf, OwnsVertex};

use crate::Stage;
use crate::hearing::Hearing;
use crate::marks::any_marked;
use ball_model::Verdict;
use ball_model::plan::MOST_PARTS;
use registers::Rows;
use std::alloc::{AllocError, Global};
use std::sync::Arc;

impl Stage {
    // The place of a vertex of the partition.
    #[tactic(auto, using(crate::proofs::SeenLemmas::Read::place_in))]
    pub(crate) fn own_place(&self, x: u32) -> usize
        requires { OwnsVertex self.now.state x }
        ensures { IsPlaceOf self.now.state x result }
    {
        (x / u32::from(self.part.plan().parts())) as usize
    }

    pub(crate) fn holds_from(&self, superstep: u32, source: u16) -> bool
        ensures { result ≡ (content_of self.now.state).holds superstep source }
    {
        if superstep < self.superstep {
            return false;
        }
        if superstep == self.superstep {
            return source < MOST_PARTS && self.hearing.heard().has(source);
        }
        let level = (superstep - self.superstep - 1) as usize;
        self.early.get(level, source).is_some()
    }

    /// The accumulators, a row each: the rows themselves if no others are kept.
    pub(crate) fn accumulators(&self) -> &Rows
        ensures { result.now ≡ record {
          width = 2 ^ self.now.state.part.plan.log2m;
          rows = self.now.state.accumulated;
        } }
    {
        self.hearing.accumulators(self.tables.rows())
    }

    // Whether a vertex of the own partition or of one that is heard is changed.
    pub(crate) fn is_changing(&self) -> bool
        ensures { result ≡ is_changing self.now.state }
    {
        self.hearing.change() || any_marked(self.tables.marks())
    }

    // The verdict of a level that is held.
    pub(crate) fn level_verdict(&self) -> Verdict
        ensures { result ≡ level_verdict self.now.state }
    {
        if 1 <= self.superstep && !self.is_changing() {
            return Verdict::Stable;
        }
        if self.superstep == self.part.plan().limit() {
            Verdict::Limit
        } else {
            Verdict::GoOn
        }
    }

    /// A copy of all that is known, without room for later sums, and without accumulators if each equals its row.
    pub(crate) fn copied(&mut self, alloc: Global) -> Result<Stage, AllocError>
        ensures same { self.new ≡ self.old }
        ensures copy { IfOk result (λ s. s.state ≡ self.old.state) }
    {
        let part = Arc::try_clone(&self.part)?;
        let early = self.early.share(alloc)?;
        let spare = Hearing::bare(alloc, self.tables.rows())?;
        let hearing = self.hearing.copied(alloc)?;
        let tables = self.tables.copied(alloc)?;
        Ok(Stage {
            part,
            superstep: self.superstep,
            tables,
            hearing,
            spare,
            early,
        })
    }
}
