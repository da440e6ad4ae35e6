//! Replicas that are made of what another one has.

use super::calls::sent;
use super::facts::Fact::*;
use super::jobs::TWO_EDGES;
use super::script::Step::{self, *};
use super::script::copied;
use super::*;
use crate::hearing::copy_rows;

/// Copies of rows and of accumulators.
fn copied_rows(rt: &HostRuntime, snapshot: &Snapshot) -> Option<(Rows, Rows)> {
    let rows = copy_rows(rt.alloc(), snapshot.stage.tables.rows()).ok()?;
    match copy_rows(rt.alloc(), snapshot.stage.accumulators()) {
        Ok(accumulated) => Some((rows, accumulated)),
        Err(AllocError) => None,
    }
}

/// The superstep, the rows and what was heard of a snapshot.
fn saved_rows(rt: &HostRuntime, snapshot: &Snapshot) -> Option<Box<Saved>> {
    let (rows, accumulated) = copied_rows(rt, snapshot)?;
    let saved = Saved {
        superstep: snapshot.superstep(),
        rows,
        marks: Vec::new(rt.alloc()),
        tallies: Vec::new(rt.alloc()),
        sums: Vec::new(rt.alloc()),
        heard: snapshot.heard(),
        heard_change: snapshot.heard_change(),
        accumulated,
        early: Vec::new(rt.alloc()),
    };
    Box::new(rt.alloc(), saved).ok()
}

/// Adds the marks, figures and sums, and a batch of a later superstep.
fn fill(rt: &HostRuntime, saved: &mut Saved, from: &Snapshot, early: Option<Batch>) -> Option<()> {
    let early = Arc::new(rt.alloc(), early?).ok()?;
    saved.early.push(early).ok()?;
    let tables = &from.stage.tables;
    saved.marks.extend_from_slice(tables.marks()).ok()?;
    saved.tallies.extend_from_slice(tables.tallies()).ok()?;
    saved.sums.extend_from_slice(tables.sums()).ok()
}

/// A replica that is made of it, if it fits the part.
fn rebuilt(rt: &HostRuntime, part: Arc<Part>, saved: Saved) -> Option<Box<Replica>> {
    if !saved.fits(&part) {
        return None;
    }
    let replica = Replica::rebuild(rt.alloc(), part, saved).ok()?;
    Box::new(rt.alloc(), replica).ok()
}

/// A replica that is made of what a snapshot shows. It keeps one batch of a later superstep, which partition 1 tells
/// still.
fn again_of(rt: &HostRuntime, all: &[Replica], from: &Snapshot) -> Option<Box<Replica>> {
    let mut saved = saved_rows(rt, from)?;
    fill(rt, &mut saved, from, sent(rt, all, 1, 0))?;
    let part = Arc::try_clone(&from.stage.part).ok()?;
    rebuilt(rt, part, Box::into_inner(saved))
}

/// The replica at a place, which is of partition 0, made again.
fn again(rt: &HostRuntime, all: &mut [Replica], place: usize) -> Option<Box<Replica>> {
    let snapshot = copied(rt, all, place)?;
    again_of(rt, all, &snapshot)
}

/// Whether it is added: None if memory was refused.
pub fn add_again(rt: &HostRuntime, all: &mut Vec<Replica>, place: usize) -> Option<bool> {
    let replica = again(rt, all, place)?;
    all.push(Box::into_inner(replica)).ok()?;
    Some(true)
}

/// Partition 0 is at superstep 1, has heard its batch, and keeps one of superstep 2.
pub const HEARS_AND_KEEPS: [Step; 8] = [
    Add(TWO_EDGES),
    Round(0, 2),
    Tell(1, 0),
    Tell(0, 1),
    Close(1, Ok(2)),
    Tell(1, 0),
    See(0, Accumulated(2, ROW_ABC)),
    See(0, Holds(2, 1, true)),
];

/// Made again it shows the same, and runs on as it does.
const RUNS_ON: [Step; 18] = [
    Again(0),
    Keep(0, None),
    Shows(2, 0),
    Close(0, Ok(2)),
    Close(2, Ok(2)),
    Tell(2, 1),
    Close(0, Ok(3)),
    Close(1, Ok(3)),
    Close(2, Ok(3)),
    Tell(1, 0),
    Tell(1, 2),
    Tell(0, 1),
    See(0, Says(Some(Verdict::Stable))),
    See(1, Says(Some(Verdict::Stable))),
    See(2, Says(Some(Verdict::Stable))),
    See(2, Sums(&SUMS_OF_FIRST)),
    Keep(0, None),
    Shows(2, 1),
];

/// A replica is rebuilt.
pub const REBUILT: [&[Step]; 2] = [&HEARS_AND_KEEPS, &RUNS_ON];
