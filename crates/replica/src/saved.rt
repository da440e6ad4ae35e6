//! What a checkpoint has of a replica.

ghost use Rattle.std.specs.Prelude.{◌≡◌, ◌↔◌, ℕ, ◌+◌, ◌^◌, ◌<◌, ◌≤◌, map, length, slice_index_or, IsTrue};
ghost use Rattle.std.specs.Arc.{arc_value};
ghost use Rattle.ball_model.specs.declared.plan.TheConstants.{GREATEST_RANK};
ghost use Rattle.replica.specs.Kept.{AreCounters, AllRise, AreSources, AreSums};
ghost use Rattle.replica.specs.Saved.{AreOfWidth, Fits, HasRows, HasFigures, HasHeard, MayKeep};
ghost use Rattle.replica.specs.Saved.{MayBeKept};

use crate::early::LEVELS;
use crate::level::sum_of_lasts;
use crate::stage::is_same;
use ball_model::Plan;
use ball_model::plan::{GREATEST_RANK, MOST_PARTS};
use batches::Batch;
use figures::{Tally, are_last};
use graph::Part;
use registers::{Rows, SourceMask};
use std::sync::Arc;

// How far apart the keys of two supersteps are: there is one for each source that there may be.
const SOURCES: u32 = MOST_PARTS as u32;

/// What a replica has beside its part, as a checkpoint keeps it.
///
/// A replica is made of it by [`Replica::rebuild`](crate::Replica::rebuild), if it fits a part.
#[derive(Drop)]
pub struct Saved {
    /// The superstep.
    pub superstep: u32,
    /// The registers, a row of 2^log2m for each vertex of the partition.
    pub rows: Rows,
    /// Which of the vertices changed at the superstep.
    pub marks: Vec<bool>,
    /// Their figures.
    pub tallies: Vec<Tally>,
    /// The sum of their estimates at each superstep from 0 on.
    pub sums: Vec<u128>,
    /// Which sources of the superstep are heard.
    pub heard: SourceMask,
    /// Whether one of these has a changed vertex.
    pub heard_change: bool,
    /// The registers accumulated so far, a row for each vertex.
    pub accumulated: Rows,
    /// The batches that are kept of later supersteps, ascending by superstep, then by source.
    pub early: Vec<Arc<Batch>>,
}

impl Saved {
    /// Whether a replica of the part can have all this.
    ///
    /// The superstep is at most the limit; rows, marks, figures and accumulators are as many as the vertices, and the
    /// sums one more than the superstep; rows have 2^log2m registers of at most 33, and no accumulator has one below
    /// its row's; each last estimate is that of its row; no sum is less than the one before, and the last is that of
    /// the last estimates; what is heard are other partitions; and what is kept are batches of the plan from other
    /// partitions to this one, of the three supersteps that follow, each after the one before. It takes no memory, and
    /// time in proportion to the registers.
    pub fn fits(&self, part: &Part) -> bool
        ensures { IsTrue result ↔ Fits part.now self.now }
    {
        if !self.has_rows(part) {
            return false;
        }
        self.has_figures(part)
            && self.has_heard(part)
            && may_be_kept(part, self.superstep, &self.early)
    }

    // Whether it has a row and a mark for each vertex, and is in time.
    fn has_rows(&self, part: &Part) -> bool
        ensures { IsTrue result ↔ HasRows part.now self.now }
    {
        let size = part.size() as usize;
        let width = part.plan().width();
        self.superstep <= part.plan().limit()
            && self.rows.width() == width
            && self.rows.len() == size
            && self.marks.len() == size
            && are_counters(&self.rows, part.plan())
    }

    // Whether the figures are those of the rows, and the sums rise to theirs.
    fn has_figures(&self, part: &Part) -> bool
        requires { HasRows part.now self.now }
        ensures { IsTrue result ↔ HasFigures part.now self.now }
    {
        if self.tallies.len() != self.rows.len() {
            return false;
        }
        let plan = part.plan();
        are_last(plan.log2m(), plan.is_corrected(), &self.rows, &self.tallies)
            && are_sums(self.superstep, sum_of_lasts(&self.tallies), &self.sums)
    }

    // Whether what is heard are other partitions, and no accumulator is below its row.
    fn has_heard(&self, part: &Part) -> bool
        requires { HasRows part.now self.now }
        ensures { IsTrue result ↔ HasHeard part.now self.now }
    {
        let width = part.plan().width();
        are_sources(part, self.heard)
            && self.accumulated.width() == width
            && self.accumulated.len() == self.rows.len()
            && all_rise(&self.rows, &self.accumulated, part.plan())
    }
}

// Whether each row has registers of at most the greatest rank.
fn are_counters(rows: &Rows, plan: &Plan) -> bool
    requires { rows.now.width ≡ 2 ^ plan.now.log2m }
    ensures { IsTrue result ↔ AreCounters plan.now.log2m rows.now.rows }
{
    plan.limits();
    for i in 0..rows.len() {
        if !rows.row(i).iter().all(|rank| *rank <= GREATEST_RANK) {
            return false;
        }
    }
    true
}

// Whether there is a sum for each superstep up to `t`, the last is the one given, and none is less than the one
// before.
fn are_sums(t: u32, last: u128, sums: &[u128]) -> bool
    ensures { IsTrue result ↔ AreSums t last sums.now }
{
    let t = t as usize;
    sums.len() == t + 1 && sums[t] == last && do_rise(sums)
}

// Whether none is less than the one before.
fn do_rise(sums: &[u128]) -> bool
    ensures { IsTrue result ↔ ((i : ℕ) → i + 1 < length sums.now →
        slice_index_or sums.now i 0 ≤ slice_index_or sums.now (i + 1) 0) }
{
    for i in 1..sums.len() {
        if sums[i] < sums[i - 1] {
            return false;
        }
    }
    true
}

// Whether only other partitions are set.
fn are_sources(part: &Part, heard: SourceMask) -> bool
    ensures { IsTrue result ↔ AreSources part.now.plan.parts part.now.number heard }
{
    let parts = part.plan().parts();
    let own = part.partition();
    heard.limits();
    for q in parts..MOST_PARTS {
        if heard.has(q) {
            return false;
        }
    }
    !heard.has(own)
}

// Whether each row has become a counter's row in which no register fell.
fn all_rise(rows: &Rows, accumulated: &Rows, plan: &Plan) -> bool
    requires { AreOfWidth plan.now rows.now accumulated.now }
    ensures { IsTrue result ↔ AllRise plan.now.log2m rows.now.rows accumulated.now.rows }
{
    plan.limits();
    for i in 0..rows.len() {
        if !rises(rows.row(i), accumulated.row(i)) {
            return false;
        }
    }
    true
}

// Whether a row has.
fn rises(row: &[u8], accumulated: &[u8]) -> bool
    requires { length accumulated.now ≡ length row.now }
    ensures { IsTrue result ↔ ((k : ℕ) → k < length row.now →
        (slice_index_or row.now k 0 ≤ slice_index_or accumulated.now k 0)
        × (slice_index_or accumulated.now k 0 ≤ GREATEST_RANK)) }
{
    for k in 0..row.len() {
        if accumulated[k] < row[k] || GREATEST_RANK < accumulated[k] {
            return false;
        }
    }
    true
}

// Whether these are batches that a replica of the part may keep, in their order.
fn may_be_kept(part: &Part, superstep: u32, early: &[Arc<Batch>]) -> bool
    ensures { IsTrue result ↔ MayBeKept part.now.plan part.now.number superstep
        (map arc_value early.now) }
{
    let mut next = 0;
    for batch in early {
        let name = batch.name();
        let key = name.superstep * SOURCES + u32::from(name.source);
        if key < next || !may_keep(part, superstep, batch) {
            return false;
        }
        next = key + 1;
    }
    true
}

// Whether a replica of the part may keep this batch.
fn may_keep(part: &Part, superstep: u32, batch: &Batch) -> bool
    ensures { IsTrue result ↔ MayKeep part.now.plan part.now.number superstep batch.now }
{
    let name = batch.name();
    is_same(batch.plan(), part.plan())
        && name.target == part.partition()
        && name.source != part.partition()
        && superstep < name.superstep
        && u64::from(name.superstep) <= u64::from(superstep) + LEVELS as u64
}
