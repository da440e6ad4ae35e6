//! Snapshots, merges and joins.

use super::facts::Fact::*;
use super::jobs::{Job, TWO_EDGES};
use super::rebuilt::REBUILT;
use super::script::Step::{self, *};
use super::script::play_all;
use super::snapshots::HELD_ON;
use super::*;

/// Two runs of two edges, by replicas 0 and 1, and 2 and 3. The first has partition 0 at superstep 1, with the batch
/// of superstep 2 alone; the other has it at superstep 0, with the batches of superstep 0 and, with a row, of
/// superstep 1.
pub const APART: [Step; 9] = [
    Add(TWO_EDGES),
    Add(TWO_EDGES),
    Round(0, 2),
    Tells(1, 0, (1, 1, 1, Some(1))),
    Tell(3, 2),
    Tell(1, 2),
    Tell(0, 1),
    Close(1, Ok(2)),
    Tell(1, 0),
];

/// What partition 0 is to have once the two are merged: superstep 1, and the batches of supersteps 1 and 2.
pub const RECOVERED: [Step; 10] = [
    See(0, Superstep(1)),
    See(0, Missing(None)),
    See(0, Holds(1, 1, true)),
    See(0, Holds(2, 1, true)),
    See(0, Holds(0, 1, false)),
    See(0, Row(0, ROW_A)),
    See(0, Row(2, ROW_BC)),
    See(0, Accumulated(2, ROW_ABC)),
    See(0, Changed(0, false)),
    See(0, Changed(2, true)),
];

/// The run goes on to the end of an undisturbed one.
const GOES_ON: [Step; 14] = [
    Close(0, Ok(2)),
    See(0, Row(2, ROW_ABC)),
    Tell(0, 1),
    Close(0, Ok(3)),
    Close(1, Ok(3)),
    Exchange(0, 2),
    See(0, Says(Some(Verdict::Stable))),
    See(1, Says(Some(Verdict::Stable))),
    See(0, Row(0, ROW_A)),
    See(1, Row(1, ROW_AB)),
    See(0, Row(2, ROW_ABC)),
    See(0, Figures(2, (12_417_153, 751_274, 1_856_191))),
    See(0, Sums(&SUMS_OF_FIRST)),
    See(1, Sums(&SUMS_OF_SECOND)),
];

/// Snapshots of both; the one behind merges that of the one ahead, and takes its place.
const BEHIND_MERGES: [Step; 4] = [
    Keep(0, None),
    Keep(2, None),
    Merge(2, 0, 1, Ok(())),
    Swap(0, 2),
];

/// The one ahead merges that of the one behind.
const AHEAD_MERGES: [Step; 3] = [Keep(0, None), Keep(2, None), Merge(0, 1, 0, Ok(()))];

const RECOVERS_BEHIND: [&[Step]; 4] = [&APART, &BEHIND_MERGES, &RECOVERED, &GOES_ON];

const RECOVERS_AHEAD: [&[Step]; 4] = [&APART, &AHEAD_MERGES, &RECOVERED, &GOES_ON];

/// The one behind joins the one ahead and takes its place.
const BEHIND_JOINS: [Step; 2] = [Join(2, 0), Swap(0, 2)];

/// The one ahead joins the one behind.
const AHEAD_JOINS: [Step; 1] = [Join(0, 2)];

const JOINS_OF_BEHIND: [&[Step]; 4] = [&APART, &BEHIND_JOINS, &RECOVERED, &GOES_ON];

const JOINS_OF_AHEAD: [&[Step]; 4] = [&APART, &AHEAD_JOINS, &RECOVERED, &GOES_ON];

/// Two runs of two edges that are over once they close, by replicas 0 and 1, and 2 and 3, and one at superstep 0. A
/// snapshot tells what partition 0 has.
pub const OVER: [Step; 12] = [
    Add(TWO_EDGES),
    Add(TWO_EDGES),
    Add(TWO_EDGES),
    Round(0, 2),
    Round(0, 2),
    Round(0, 2),
    Exchange(0, 2),
    Round(2, 4),
    Round(2, 4),
    Round(2, 4),
    Exchange(2, 4),
    Keep(0, None),
];

/// They give back what they need no more, and are as they were.
pub const GIVE_BACK: [Step; 8] = [
    Close(0, Err(CloseError::Finished)),
    Close(2, Err(CloseError::Finished)),
    GiveBack(0),
    GiveBack(2),
    See(0, IsSettled),
    Shows(0, 0),
    See(2, IsSettled),
    Shows(2, 0),
];

/// One merges the other, and is as it was.
pub const MERGES_OTHER: [Step; 4] = [
    Keep(2, Some(0)),
    Merge(0, 1, 0, Ok(())),
    See(0, IsSettled),
    Shows(0, 0),
];

/// One joins the one at superstep 0, and is as it was; that one joins the other, and is as it is.
const JOINS_BEHIND: [Step; 6] = [
    Join(0, 4),
    See(0, IsSettled),
    Shows(0, 0),
    Join(4, 2),
    See(4, IsSettled),
    Shows(4, 0),
];

const ENDED: [&[Step]; 5] = [&OVER, &GIVE_BACK, &MERGES_OTHER, &GIVE_BACK, &JOINS_BEHIND];

/// Of partition 2, which owns vertex 2 alone, one has the batch of partition 0, the other that of partition 1.
const EITHER: [Step; 6] = [
    Add(Job {
        parts: 3,
        ..TWO_EDGES
    }),
    Add(Job {
        parts: 3,
        ..TWO_EDGES
    }),
    Tell(0, 2),
    Tell(4, 5),
    See(2, Missing(Some(1))),
    See(5, Missing(Some(0))),
];

/// The one merges a snapshot of the other: it has the level, with the row of vertex 1.
const BOTH: [Step; 10] = [
    Keep(2, None),
    Keep(5, None),
    Merge(2, 1, 0, Ok(())),
    See(2, Holds(0, 0, true)),
    See(2, Holds(0, 1, true)),
    See(2, Missing(None)),
    See(2, Row(2, ROW_C)),
    See(2, Accumulated(2, ROW_BC)),
    Close(2, Ok(1)),
    See(2, Row(2, ROW_BC)),
];

const EQUAL: [&[Step]; 2] = [&EITHER, &BOTH];

/// Partition 0 of two edges holds its level at superstep 0, by the batch of partition 1. A snapshot tells what it has.
pub const HELD: [Step; 6] = [
    Add(TWO_EDGES),
    Tell(1, 0),
    See(0, Superstep(0)),
    See(0, Missing(None)),
    See(0, Holds(0, 1, true)),
    Keep(0, None),
];

/// It refuses snapshots of other jobs, of another partition too: the job is the first of the checks.
const OTHER_JOBS: [Step; 8] = [
    Add(Job {
        seed: 1,
        ..TWO_EDGES
    }),
    Add(Job {
        text: b"a\tb\na\tc\n",
        ..TWO_EDGES
    }),
    Keep(2, None),
    Keep(3, None),
    Keep(4, None),
    Merge(0, 1, 0, Err(MergeError::OtherJob)),
    Merge(0, 2, 0, Err(MergeError::OtherJob)),
    Merge(0, 3, 0, Err(MergeError::OtherJob)),
];

const REFUSES_JOBS: [&[Step]; 2] = [&HELD, &OTHER_JOBS];

/// It refuses one of another partition.
const OTHER_PARTITION: [Step; 2] = [Keep(1, None), Merge(0, 1, 0, Err(MergeError::NotMine))];

const REFUSES_PARTITION: [&[Step]; 2] = [&HELD, &OTHER_PARTITION];

/// The replica goes on to superstep 1; its snapshot of superstep 0 does not.
const STAYS: [Step; 4] = [
    IsFirst(0, 0),
    Close(0, Ok(1)),
    See(0, Holds(0, 1, false)),
    IsFirst(0, 0),
];

const SNAPSHOT: [&[Step]; 2] = [&HELD, &STAYS];

/// Scripts, each with replicas of its own: who recovers when it is behind or ahead, by a merge and by a join; runs
/// that are over; equal supersteps with different names; snapshots of another job and of another partition, which are
/// refused, and one that tells its content; and those of the other files.
static CASES: [&[&[Step]]; 11] = [
    &RECOVERS_BEHIND,
    &RECOVERS_AHEAD,
    &JOINS_OF_BEHIND,
    &JOINS_OF_AHEAD,
    &ENDED,
    &EQUAL,
    &REFUSES_JOBS,
    &REFUSES_PARTITION,
    &SNAPSHOT,
    &HELD_ON,
    &REBUILT,
];

#[test]
fn merges_joins_and_snapshots(rt: HostRuntime) {
    assert_eq!(rt; play_all(&rt, &CASES), None);
}
