//! Refused memory. A run of this test can refuse any one growth: then a call that is refused leaves all as it was, and
//! is answered when it is made again.

use super::facts::Fact::*;
use super::jobs::TWO_EDGES;
use super::joins::{APART, GIVE_BACK, MERGES_OTHER, OVER, RECOVERED};
use super::rebuilt::HEARS_AND_KEEPS;
use super::script::Step::{self, *};
use super::script::play_all;
use super::*;

/// A new replica has the first row of two edges, and waits.
const STARTS: [Step; 3] = [
    Add(TWO_EDGES),
    See(0, Missing(Some(1))),
    See(0, Row(0, ROW_A)),
];

/// Partition 0 of a second run has done the same. Its snapshot has what the other one has, which has made none yet.
const TWIN: [Step; 7] = [
    Add(TWO_EDGES),
    Round(2, 4),
    Tell(3, 2),
    Tell(2, 3),
    Close(3, Ok(2)),
    Tell(3, 2),
    Keep(2, None),
];

/// A replica is copied for the first time and again, stays as it was, and is made again as it was.
const COPIES: [Step; 5] = [
    Keep(0, Some(0)),
    Keep(0, Some(0)),
    Shows(0, 0),
    Again(0),
    Shows(4, 0),
];

/// One that holds nothing merges one that holds its level.
const LEVEL: [Step; 9] = [
    Add(TWO_EDGES),
    Add(TWO_EDGES),
    Tell(1, 0),
    Keep(0, None),
    Keep(2, None),
    Merge(2, 0, 1, Ok(())),
    See(2, Superstep(0)),
    See(2, Missing(None)),
    See(2, Holds(0, 1, true)),
];

/// One that is behind merges one ahead, and takes its place.
const BEHIND: [Step; 4] = [
    Keep(0, None),
    Keep(2, None),
    Merge(2, 0, 1, Ok(())),
    Swap(0, 2),
];

/// One that is ahead merges one behind.
const AHEAD: [Step; 3] = [Keep(0, None), Keep(2, None), Merge(0, 1, 0, Ok(()))];

static CASES: [&[&[Step]]; 6] = [
    &[&STARTS],
    &[&HEARS_AND_KEEPS, &TWIN, &COPIES],
    &[&LEVEL],
    &[&APART, &BEHIND, &RECOVERED],
    &[&APART, &AHEAD, &RECOVERED],
    &[&OVER, &GIVE_BACK, &MERGES_OTHER],
];

#[test]
fn calls_where_memory_is_refused(rt: HostRuntime) {
    assert_eq!(rt; play_all(&rt, &CASES), None);
}
