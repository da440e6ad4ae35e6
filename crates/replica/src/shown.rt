//! What a replica has at a superstep.

ghost use Rattle.std.specs.Prelude.{◌≡◌, ◌↔◌, ℕ, ◌<◌, ◌+◌, ◌/◌, ◌%◌, ◌^◌, ◌==◌, ◌&&◌, false, [], map, length};
ghost use Rattle.std.specs.Prelude.{slice_index_or, option_map, count_by, None, IsSome, IsTrue};
ghost use Rattle.std.specs.List.{All, list_any, slice_get};
ghost use Rattle.figures.specs.Values.{value_of};
ghost use Rattle.ball_model.specs.PlanValue.{mixing_of, vertices_of};
ghost use Rattle.ball_model.specs.Counter.{ball_counter};
ghost use Rattle.ball_model.specs.Change.{changed_at};
ghost use Rattle.ball_model.specs.Figures.{empty_of};
ghost use Rattle.ball_model.specs.Laws.{IsCounterRow};
ghost use Rattle.ball_model.specs.Supersteps.{tally_at};
ghost use Rattle.ball_model.specs.Job.{Job};
ghost use Rattle.ball_model.specs.Batches.{changed_count};
ghost use Rattle.ball_model.specs.Content.{verdict_of};
ghost use Rattle.ball_model.specs.State.{State, StandsFor, content_of, rows_of};
ghost use Rattle.ball_model.specs.State.{tallies_of, sums_of};
ghost use Rattle.ball_model.specs.Checkpoint.{no_figures, kept_batches};
ghost use Rattle.replica.specs.Ahead.{early_names, true_early};
ghost use Rattle.replica.specs.Level.{found_verdict, missing_in};
ghost use Rattle.replica.specs.Hearing.{accumulated_by, change_by, heard_by};
ghost use Rattle.replica.specs.Saved.{IsFigures};
ghost use Rattle.replica.specs.Seen.{IsState};

use crate::Stage;
use crate::marks::count_set;
use ball_model::{BatchName, Plan, Verdict};
use batches::Batch;
use figures::Tally;
use registers::{Rows, SourceMask};

/// How a replica and a snapshot of it are read. No call takes memory.
pub trait Shown {
    /// What it has.
    ghost state: { Self → State };

    /// What a replica and a snapshot both have.
    fn shown(&self) -> &Stage
        ensures { result.now.state ≡ state self.now };

    /// The plan of the job.
    final fn plan(&self) -> &Plan
        ensures { result.now ≡ (state self.now).part.plan }
    {
        let s = self.shown();
        s.part.plan()
    }

    /// The number of the partition.
    final fn partition(&self) -> u16
        ensures { result ≡ (state self.now).part.number }
    {
        let s = self.shown();
        s.part.partition()
    }

    /// The superstep.
    final fn superstep(&self) -> u32
        ensures value { result ≡ (state self.now).superstep }
        // the limits that every replica keeps, whatever its batches say
        ensures state { IsState (state self.now) }
    {
        let s = self.shown();
        s.superstep
    }

    /// Does nothing: its contract has the limits that every replica keeps, whatever its batches say, for proofs.
    final fn limits(&self)
        ensures state { IsState (state self.now) }
        ensures figures { All IsFigures (state self.now).tallies }
    {
        let _limits = (self.superstep(), self.tallies().len());
    }

    /// Whether vertex `x` is one of the partition. For a library's user: the program does not call it.
    final fn owns(&self, x: u32) -> bool
        ensures vertex { IsTrue result → x < (state self.now).part.plan.vertices }
        ensures own { IsTrue result →
            x % (state self.now).part.plan.parts ≡ (state self.now).part.number }
        ensures value { result ≡ list_any (λ v. v == x) (vertices_of
            (state self.now).part.plan.vertices (state self.now).part.plan.parts
            (state self.now).part.number) }
    {
        let plan = self.plan();
        x < plan.vertices() && plan.partition_of(x) == self.partition()
    }

    /// The 2^log2m registers of vertex `x`, which the partition owns.
    #[tactic(auto, using(crate::proofs::SeenLemmas::Read::row_stands))]
    final fn row(&self, x: u32) -> &[u8]
        requires vertex { x < (state self.now).part.plan.vertices }
        requires own { x % (state self.now).part.plan.parts ≡ (state self.now).part.number }
        ensures value { result.now ≡
            slice_index_or (state self.now).rows (x / (state self.now).part.plan.parts) [] }
        ensures counter { IsCounterRow (state self.now).part.plan.log2m result.now }
        ensures stands { (j : Job) (p t : ℕ) → StandsFor j p t (state self.now) →
            result.now ≡ ball_counter (mixing_of j.plan) j.graph x t }
    {
        let s = self.shown();
        let rows = s.tables.rows();
        rows.row(s.own_place(x))
    }

    /// How many of its registers are 0.
    #[tactic(auto, using(crate::proofs::SeenLemmas::Read::row_stands))]
    final fn empty_count(&self, x: u32) -> u32
        requires vertex { x < (state self.now).part.plan.vertices }
        requires own { x % (state self.now).part.plan.parts ≡ (state self.now).part.number }
        ensures value { result ≡ empty_of
            (slice_index_or (state self.now).rows (x / (state self.now).part.plan.parts) []) }
        ensures stands { (j : Job) (p t : ℕ) → StandsFor j p t (state self.now) →
            result ≡ empty_of (ball_counter (mixing_of j.plan) j.graph x t) }
    {
        let s = self.shown();
        let table = s.tables.rows();
        table.empty_count(s.own_place(x))
    }

    /// The figures of vertex `x`, which the partition owns.
    final fn tally(&self, x: u32) -> Tally
        requires vertex { x < (state self.now).part.plan.vertices }
        requires own { x % (state self.now).part.plan.parts ≡ (state self.now).part.number }
        ensures value { value_of result ≡
            slice_index_or (state self.now).tallies (x / (state self.now).part.plan.parts)
            no_figures }
        ensures stands { (j : Job) (p t : ℕ) → StandsFor j p t (state self.now) →
            value_of result ≡ tally_at (mixing_of j.plan) j.graph x t }
    {
        let s = self.shown();
        s.tables.tallies()[s.own_place(x)]
    }

    /// Whether vertex `x`, which the partition owns, changed at this superstep.
    #[tactic(auto, using(crate::proofs::SeenLemmas::Read::mark_stands))]
    final fn changed(&self, x: u32) -> bool
        requires vertex { x < (state self.now).part.plan.vertices }
        requires own { x % (state self.now).part.plan.parts ≡ (state self.now).part.number }
        ensures value { result ≡
            slice_index_or (state self.now).marks (x / (state self.now).part.plan.parts) false }
        ensures stands { (j : Job) (p t : ℕ) → StandsFor j p t (state self.now) →
            result ≡ changed_at (mixing_of j.plan) j.graph x t }
    {
        let s = self.shown();
        s.tables.marks()[s.own_place(x)]
    }

    /// How many vertices of the partition changed at this superstep.
    #[tactic(auto, using(crate::proofs::SeenLemmas::Read::count_stands))]
    final fn changed_count(&self) -> u32
        ensures value { result ≡ count_by (λ mark. mark) (state self.now).marks }
        ensures stands { (j : Job) (p t : ℕ) → StandsFor j p t (state self.now) →
            result ≡ changed_count j t p }
    {
        let s = self.shown();
        count_set(s.tables.marks()) as u32
    }

    /// The sum of the estimates of the partition at each superstep so far, from 0 on.
    final fn sums(&self) -> &[u128]
        ensures value { result.now ≡ (state self.now).sums }
        ensures count { length result.now ≡ (state self.now).superstep + 1 }
        ensures stands { (j : Job) (p t : ℕ) → StandsFor j p t (state self.now) →
            result.now ≡ sums_of j p t }
    {
        let s = self.shown();
        s.tables.sums()
    }

    /// The registers of all vertices of the partition, a row each.
    final fn rows(&self) -> &Rows
        ensures value { result.now.rows ≡ (state self.now).rows }
        ensures width { result.now.width ≡ 2 ^ (state self.now).part.plan.log2m }
        ensures stands { (j : Job) (p t : ℕ) → StandsFor j p t (state self.now) →
            result.now.rows ≡ rows_of j p t }
    {
        let s = self.shown();
        s.tables.rows()
    }

    /// The figures of all vertices of the partition.
    #[tactic(auto, using(crate::proofs::SavedLemmas::Fits::figures_kept))]
    final fn tallies(&self) -> &[Tally]
        ensures value { map value_of result.now ≡ (state self.now).tallies }
        // figures that a run can have, whatever its batches say
        ensures limits { All IsFigures (state self.now).tallies }
        ensures stands { (j : Job) (p t : ℕ) → StandsFor j p t (state self.now) →
            map value_of result.now ≡ tallies_of j p t }
    {
        let s = self.shown();
        s.tables.tallies()
    }

    /// Whether the batch of that name is held.
    final fn holds(&self, name: BatchName) -> bool
        ensures { result ≡ ((name.target == (state self.now).part.number) &&
            (content_of (state self.now)).holds name.superstep name.source) }
    {
        let s = self.shown();
        name.target == s.part.partition() && s.holds_from(name.superstep, name.source)
    }

    /// The least source that is missing from the level; the level is held if there is none.
    final fn missing(&self) -> Option<u16>
        ensures { result ≡ missing_in (state self.now) }
    {
        self.heard()
            .least_missing(self.plan().parts(), self.partition())
    }

    /// Which sources of the superstep are heard.
    #[tactic(auto, using(crate::proofs::SeenLemmas::Read::heard_is))]
    final fn heard(&self) -> SourceMask
        ensures value { result ≡ (state self.now).heard }
        ensures names { result ≡ heard_by (content_of (state self.now)) }
    {
        let s = self.shown();
        s.hearing.heard()
    }

    /// Whether a source that is heard has a changed vertex.
    #[tactic(auto, using(crate::proofs::SeenLemmas::Read::change_stands))]
    final fn heard_change(&self) -> bool
        ensures value { result ≡ (state self.now).heard_change }
        ensures stands { (j : Job) (p t : ℕ) → StandsFor j p t (state self.now) →
            result ≡ change_by j (content_of (state self.now)) }
    {
        let s = self.shown();
        s.hearing.change()
    }

    /// The registers accumulated so far for vertex `x`, which the partition owns.
    #[tactic(auto, using(crate::proofs::SeenLemmas::Read::accumulated_stands))]
    final fn accumulated(&self, x: u32) -> &[u8]
        requires vertex { x < (state self.now).part.plan.vertices }
        requires own { x % (state self.now).part.plan.parts ≡ (state self.now).part.number }
        ensures value { result.now ≡
            slice_index_or (state self.now).accumulated (x / (state self.now).part.plan.parts) [] }
        ensures counter { IsCounterRow (state self.now).part.plan.log2m result.now }
        ensures stands { (j : Job) (p t : ℕ) → StandsFor j p t (state self.now) →
            result.now ≡ accumulated_by j (content_of (state self.now)) x }
    {
        let s = self.shown();
        s.accumulators().row(s.own_place(x))
    }

    /// How many batches of later supersteps are kept. It takes time in proportion to three slots for each partition.
    final fn early_count(&self) -> u32
        ensures value { result ≡ length (kept_batches (state self.now).early) }
        ensures names { result ≡ length (early_names (state self.now)) }
    {
        let s = self.shown();
        s.early.count() as u32
    }

    /// The i-th of the batches of later supersteps, ascending by superstep, then by source; none past the last.
    ///
    /// It takes time in proportion to three slots for each partition.
    #[tactic(auto, using(crate::proofs::KeptLemmas::Kept::nth_true))]
    final fn early(&self, i: u32) -> Option<&Batch>
        ensures value { option_map (λ b. b.now) result ≡
            slice_get (kept_batches (state self.now).early) i }
        ensures name { option_map (λ b. b.now.name) result ≡
            slice_get (early_names (state self.now)) i }
        ensures stands { (j : Job) (p t : ℕ) → StandsFor j p t (state self.now) →
            option_map (λ b. b.now) result ≡ true_early j (state self.now) i }
    {
        let s = self.shown();
        s.early.nth(i as usize)
    }

    /// The verdict, if the level is held.
    final fn verdict(&self) -> Option<Verdict>
        ensures value { result ≡ found_verdict (state self.now) }
        ensures none { (result ≡ None) ↔ (IsSome (missing_in (state self.now))) }
        ensures stands { (j : Job) (p t : ℕ) → StandsFor j p t (state self.now) →
            result ≡ verdict_of j p (content_of (state self.now)) }
    {
        match self.missing() {
            Some(_) => None,
            None => Some(self.shown().level_verdict()),
        }
    }
}
