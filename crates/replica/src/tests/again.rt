//! Joins that are done twice: the second changes nothing.

use super::facts::Fact::*;
use super::jobs::TWO_EDGES;
use super::joins::{APART, RECOVERED};
use super::script::Step::{self, *};
use super::script::play;
use super::*;

/// At superstep 0 one of two runs has partition 0 with its level, the other with nothing.
const LEVEL: [Step; 4] = [
    Add(TWO_EDGES),
    Add(TWO_EDGES),
    Tell(1, 0),
    See(2, Missing(Some(1))),
];

/// What they have together.
const HAS_LEVEL: [Step; 4] = [
    See(0, Superstep(0)),
    See(0, Missing(None)),
    See(0, Holds(0, 1, true)),
    See(0, Early(&[])),
];

/// Both are at superstep 1. The first has the batch of superstep 2 alone, as partition 1 tells it; the other has the
/// batch of superstep 1, with a row, and one of superstep 3.
const EARLY: [Step; 9] = [
    Add(TWO_EDGES),
    Add(TWO_EDGES),
    Round(0, 2),
    Tell(0, 1),
    Close(1, Ok(2)),
    Tell(1, 0),
    Round(2, 4),
    Tell(3, 2),
    Bare((3, 1, 0), 2, Ok(Taken::New)),
];

/// What they have together.
const HAS_EARLY: [Step; 4] = [
    See(0, Superstep(1)),
    See(0, Missing(None)),
    See(0, Accumulated(2, ROW_ABC)),
    See(0, Early(&[(2, 1), (3, 1)])),
];

/// What two runs that went apart keep together for later.
const KEEPS: [Step; 1] = [See(0, Early(&[(2, 1)]))];

/// Partition 0 of one run joins that of the other, and that the first; or both are joined at once.
static WAYS: [&[Step]; 4] = [
    &[Join(0, 2), Join(2, 0)],
    &[Join(2, 0), Join(0, 2)],
    &[Reconcile(0, 2)],
    &[Reconcile(2, 0)],
];

/// What each of two runs begins with, and what they have together, in two scripts.
static CASES: [[&[Step]; 3]; 3] = [
    [&LEVEL, &HAS_LEVEL, &[]],
    [&EARLY, &HAS_EARLY, &[]],
    [&APART, &RECOVERED, &KEEPS],
];

/// A snapshot of the one shows what it has.
static KEEP: [Step; 1] = [Keep(0, None)];

/// In each reader both show the same.
static SAME: [Step; 2] = [Shows(0, 0), Shows(2, 0)];

/// The two change places.
static TURNED: [Step; 1] = [Swap(0, 2)];

/// Whether two runs that are joined twice in one way are as they are to be.
fn joined_twice(rt: &HostRuntime, case: &[&[Step]; 3], way: &[Step]) -> bool {
    let [begun, union, later] = *case;
    let scripts = [
        begun, way, &KEEP, way, &SAME, union, later, &TURNED, union, later,
    ];
    play(rt, &scripts).is_none()
}

/// Whether they are in each way.
fn joined_each_way(rt: &HostRuntime, case: &[&[Step]; 3]) -> bool {
    let mut all = true;
    for way in &WAYS {
        all &= joined_twice(rt, case, way);
    }
    all
}

/// Whether it is so in each case.
fn all_joined(rt: &HostRuntime) -> bool {
    let mut all = true;
    for case in &CASES {
        all &= joined_each_way(rt, case);
    }
    all
}

#[test]
fn joins_twice(rt: HostRuntime) {
    assert!(rt; all_joined(&rt));
}
