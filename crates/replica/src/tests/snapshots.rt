//! Snapshots that are held while their replica goes on.

use super::jobs::Job;
use super::script::Step::{self, *};
use super::*;

/// A path of five vertices, in one partition.
const PATH: Job = Job {
    text: b"a\tb\nb\tc\nc\td\nd\te\n",
    counted: None,
    is_corrected: false,
    seed: 0,
    parts: 1,
    limit: 4096,
};

/// A replica goes on to superstep 4. Its snapshots of supersteps 0, 2 and 3 are held all along. That of superstep 1 is
/// dropped, so once it goes on in a table that it showed before, and else in room that was taken.
const GOES_ON: [Step; 11] = [
    Add(PATH),
    Keep(0, None),
    Close(0, Ok(1)),
    Keep(0, None),
    Close(0, Ok(2)),
    LetGo(1),
    Keep(0, None),
    Close(0, Ok(3)),
    Keep(0, None),
    Close(0, Ok(4)),
    Keep(0, None),
];

/// Another one, of which none is kept, tells at each superstep what they do.
const GOES_ALONE: [Step; 9] = [
    Add(PATH),
    Shows(1, 0),
    Close(1, Ok(1)),
    Close(1, Ok(2)),
    Shows(1, 1),
    Close(1, Ok(3)),
    Shows(1, 2),
    Close(1, Ok(4)),
    Shows(1, 3),
];

/// A third one closes twice with no snapshot between, and then goes on in the table that it showed before that.
const GOES_TWICE: [Step; 12] = [
    Add(PATH),
    Keep(2, None),
    Close(2, Ok(1)),
    Keep(2, None),
    Close(2, Ok(2)),
    Close(2, Ok(3)),
    LetGo(5),
    Keep(2, None),
    Close(2, Ok(4)),
    Keep(2, None),
    Shows(0, 6),
    Shows(2, 3),
];

/// Snapshots stay as they were.
pub const HELD_ON: [&[Step]; 3] = [&GOES_ON, &GOES_ALONE, &GOES_TWICE];
