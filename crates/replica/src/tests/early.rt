//! Batches that come early, or are not for the replica.

use super::facts::Fact::*;
use super::jobs::{Job, TWO_EDGES};
use super::script::Step::{self, *};
use super::script::play_each;
use super::*;

/// What partition 1 tells of superstep 1 has a row of its vertex, and comes before what it tells of superstep 0: it is
/// not merged. Replicas 2 and 3 stay at superstep 0.
const AHEAD: [Step; 22] = [
    Add(TWO_EDGES),
    Add(TWO_EDGES),
    Tell(0, 1),
    Close(1, Ok(1)),
    Tells(1, 0, (1, 1, 1, Some(1))),
    Tell(1, 0),
    Answer(1, 0, 0, Ok(Taken::Known)),
    Close(0, Err(CloseError::Waiting { source: 1 })),
    See(0, Accumulated(2, ROW_C)),
    // it is given the batch of superstep 0 and closes that: the row is spread, and the next close makes it that of
    // vertex 2
    See(0, Heard(false, false)),
    Tell(3, 0),
    Close(0, Ok(1)),
    Answer(3, 0, 0, Ok(Taken::Old)),
    See(0, Heard(true, true)),
    See(0, Missing(None)),
    See(0, Holds(1, 1, true)),
    See(0, Row(2, ROW_BC)),
    See(0, Accumulated(2, ROW_ABC)),
    Tell(0, 1),
    Close(0, Ok(2)),
    Close(1, Ok(2)),
    See(0, Row(2, ROW_ABC)),
];

/// What is kept is shown by superstep, then by source, and without the batch of the replica's own superstep; a
/// snapshot tells the same.
const LATER: [Step; 7] = [
    Add(Job {
        parts: 3,
        ..TWO_EDGES
    }),
    Bare((3, 0, 2), 2, Ok(Taken::New)),
    Bare((1, 1, 2), 2, Ok(Taken::New)),
    Bare((0, 0, 2), 2, Ok(Taken::New)),
    Bare((1, 0, 2), 2, Ok(Taken::New)),
    See(2, Early(&[(1, 0), (1, 1), (3, 0)])),
    Keep(2, None),
];

/// Replicas 0 and 1 are of two edges. The others are of jobs with another limit, with one counted vertex, and with
/// other estimates.
const REFUSED: [Step; 12] = [
    Add(TWO_EDGES),
    Add(Job {
        limit: 7,
        ..TWO_EDGES
    }),
    Add(Job {
        counted: Some(b"a"),
        ..TWO_EDGES
    }),
    Add(Job {
        is_corrected: true,
        ..TWO_EDGES
    }),
    Answer(3, 0, 0, Err(TakeError::OtherJob)),
    Answer(5, 0, 0, Err(TakeError::OtherJob)),
    Answer(7, 0, 0, Err(TakeError::OtherJob)),
    Answer(1, 0, 6, Err(TakeError::OtherJob)),
    Answer(0, 1, 0, Err(TakeError::NotMine)),
    Bare((0, 1, 1), 1, Err(TakeError::OwnPartition)),
    Bare((4, 1, 0), 0, Err(TakeError::TooEarly { last: 3 })),
    Bare((3, 1, 0), 0, Ok(Taken::New)),
];

static CASES: [&[Step]; 3] = [&AHEAD, &LATER, &REFUSED];

#[test]
fn batches_out_of_turn(rt: HostRuntime) {
    assert_eq!(rt; play_each(&rt, &CASES), None);
}
