//! A replica, made of what a checkpoint has.

ghost use Rattle.std.specs.Prelude.{◌≡◌, map, IfOk};
ghost use Rattle.std.specs.Arc.{arc_value};
ghost use Rattle.ball_model.specs.State.{State};
ghost use Rattle.replica.specs.Seen.{IsState};
ghost use Rattle.replica.specs.Saved.{Fits, IsKeepable, IsRebuilt, IsRemade};
ghost use Rattle.replica.specs.Saved.{KeepsInPlace, MayBeKept};

use crate::early::Early;
use crate::hearing::{self, Hearing};
use crate::saved::Saved;
use crate::tables::{self, Tables};
use crate::targets::Targets;
use crate::{Replica, Shown, Stage, start};
use batches::Batch;
use graph::Part;
use std::alloc::{AllocError, Global};
use std::sync::Arc;

impl Replica {
    /// The replica of the part that has all this, which has to fit it.
    ///
    /// All room of later supersteps is taken here. The error is that memory was refused; then both are dropped. It
    /// takes time in proportion to the registers of the partition and the edges into it.
    pub fn rebuild(alloc: Global, part: Arc<Part>, saved: Saved) -> Result<Replica, AllocError>
        requires { Fits (arc_value part) saved }
        ensures fields { IfOk result (λ r. IsRebuilt (arc_value part) saved r) }
        ensures keepable { IfOk result (λ r. IsKeepable r) }
        // what a replica has makes that replica, and no other
        ensures same { IfOk result (λ r. (v : State) → IsState v →
            IsRebuilt (arc_value part) saved v → r ≡ v) }
    {
        let stage = rebuilt(alloc, part, saved)?;
        let estimator = start::estimator_of(alloc, stage.plan())?;
        let targets = Targets::of(alloc, &stage.part)?;
        Replica::of(alloc, stage, targets, estimator)
    }
}

// What a replica of the part knows that has all this.
fn rebuilt(alloc: Global, part: Arc<Part>, saved: Saved) -> Result<Stage, AllocError>
    requires { Fits (arc_value part) saved }
    ensures { IfOk result (λ k. IsRemade (arc_value part) saved k) }
{
    part.limits();
    let touched = hearing::differences(alloc, &saved.rows, &saved.accumulated)?;
    // in room for a sum of each superstep up to the limit
    let mut sums = Vec::with_capacity(alloc, part.plan().limit() as usize + 1)?;
    tables::refill(&mut sums, &saved.sums);
    let early = kept(alloc, &part, saved.superstep, &saved.early)?;
    let spare = Hearing::bare(alloc, &saved.rows)?;
    let (heard, change, accumulated) = (saved.heard, saved.heard_change, saved.accumulated);
    Ok(Stage {
        part,
        superstep: saved.superstep,
        tables: Tables::of(saved.rows, saved.marks, saved.tallies, sums),
        hearing: Hearing::of(heard, change, accumulated, touched),
        spare,
        early,
    })
}

// The batches, shared, each at its place.
fn kept(
    alloc: Global,
    part: &Part,
    superstep: u32,
    batches: &[Arc<Batch>],
) -> Result<Early, AllocError>
    requires { MayBeKept part.now.plan part.now.number superstep (map arc_value batches.now) }
    ensures { IfOk result (λ early. KeepsInPlace part.now.plan part.now.number superstep
        (map arc_value batches.now) early) }
{
    let mut early = Early::empty(alloc, part.plan().parts())?;
    for batch in batches {
        let name = batch.name();
        let level = (name.superstep - superstep - 1) as usize;
        early.keep(level, name.source, Arc::try_clone(batch)?);
    }
    Ok(early)
}
