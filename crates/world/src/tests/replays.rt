//! Scripts and their answers, byte for byte, for refused memory and writers that fail, and the texts of errors. Counters
//! have 16 registers under seed 0. (The cases of `tests/check` have more scripts, and what a replay refuses.)

use crate::replay::{ReplayError, ReplayOptions, replay};
use ball_model::{Estimate, MemWriter, PlanError};
use edgelist::{CountedError, Delimiter, EdgeError};
use std::alloc::AllocGlobal;
use std::hash::RandomState;

const TWO_EDGES: &[u8] = b"a\tb\nb\tc\n";

const FOUR_EDGES: &[u8] = b"a\tb\nb\tc\nc\td\nd\te\n";

// Counters of 16 registers under seed 0.
pub(crate) fn options(parts: u16, replicas: u8) -> ReplayOptions {
    ReplayOptions {
        log2m: 4,
        seed: 0,
        parts,
        limit: 4096,
        replicas,
        estimate: Estimate::Raw,
        delimiter: Delimiter::Tab,
    }
}

// A script over an edge list, and its answers.
#[derive(Clone, Copy)]
pub(crate) struct Worked {
    pub edges: &'static [u8],
    pub counted: Option<&'static [u8]>,
    pub parts: u16,
    pub replicas: u8,
    pub script: &'static [u8],
    pub told: Result<(), ReplayError>,
    pub answers: &'static [u8],
}

// What a replay returns, and whether it wrote these bytes; the writer has room for `room`.
fn replayed(
    rt: &HostRuntime,
    worked: &Worked,
    room: usize,
) -> Option<(Result<(), ReplayError>, bool)> {
    let state = RandomState::new(rt).ok()?;
    let mut writer = MemWriter::with_room(rt.alloc(), room, None).ok()?;
    let told = replay(
        rt.alloc(),
        state,
        worked.edges,
        worked.counted,
        worked.script,
        &options(worked.parts, worked.replicas),
        &mut writer,
    );
    Some((told, writer.into_bytes().as_slice() == worked.answers))
}

// A batch of superstep 1 comes before that of superstep 0.
const EARLY_BATCH: Worked = Worked {
    edges: TWO_EDGES,
    counted: None,
    parts: 2,
    replicas: 1,
    script: b"send 0.0 1
send 1.0 0
deliver 1 0.0
close 0.0
send 0.0 1
deliver 2 1.0
close 1.0
deliver 0 1.0
close 1.0
show 1.0
close 1.0
",
    told: Ok(()),
    answers: b"sent 0 0 0 1 2 1
sent 1 0 1 0 1 1
new
closed 1
sent 2 1 0 1 1 0
new
waiting 0
new
closed 1
node 1.0 1 go-on 1:0
row 1 11.780376 0.665022 0.665022 00000000000001000000000000000300
closed 2
",
};

// A standby takes over copies of the other replica, the later and the earlier.
pub(crate) const COPIED: Worked = Worked {
    edges: TWO_EDGES,
    counted: None,
    parts: 2,
    replicas: 2,
    script: b"send 0.0 1
send 1.0 0
deliver 0 1.0
deliver 1 0.0
close 0.0
close 1.0
copy 0.0
send 0.0 1
send 1.0 0
deliver 2 1.0
deliver 3 0.0
close 0.0
close 1.0
copy 0.0
send 1.0 0
deliver 4 0.1
recover 0.1 1
recover 0.1 0
recover 0.1 1
show 0.1
recover 1.0 0
close 0.1
",
    told: Ok(()),
    answers: b"sent 0 0 0 1 2 1
sent 1 0 1 0 1 1
new
new
closed 1
closed 1
copied 0 1
sent 2 1 0 1 1 0
sent 3 1 1 0 1 1
new
new
closed 2
closed 2
copied 1 2
sent 4 2 1 0 0 0
new
merged 2
merged 2
merged 2
node 0.1 2 go-on 2:1
row 0 11.390942 0.000000 0.000000 00000000000000000000000000000300
row 2 12.417153 0.751274 1.856191 02000000000001000000000000000300
not-mine
closed 3
",
};

// Two replicas hold a batch each, and one takes over the other.
pub(crate) const THREE_PARTITIONS: Worked = Worked {
    edges: TWO_EDGES,
    counted: None,
    parts: 3,
    replicas: 2,
    script: b"send 0.0 2
send 1.0 2
deliver 0 2.0
deliver 1 2.1
copy 2.1
recover 2.0 0
close 2.0
show 2.0
",
    told: Ok(()),
    answers: b"sent 0 0 0 2 1 0
sent 1 0 1 2 1 1
new
new
copied 0 0
merged 0
closed 1
node 2.0 1 open
row 2 11.680542 0.382969 0.382969 02000000000001000000000000000000
",
};

// A node keeps what it holds of later supersteps too.
pub(crate) const RESTARTED: Worked = Worked {
    edges: FOUR_EDGES,
    counted: None,
    parts: 2,
    replicas: 2,
    script: b"send 0.0 1
send 1.1 0
deliver 0 1.1
deliver 1 0.0
close 0.0
close 1.1
send 0.0 1
send 1.1 0
deliver 2 1.1
deliver 3 0.0
close 0.0
close 1.1
send 0.0 1
send 1.1 0
deliver 4 1.1
deliver 5 0.0
close 0.0
close 1.1
send 0.0 1
send 1.1 0
deliver 7 0.0
close 0.0
send 0.0 1
deliver 8 1.0
deliver 6 1.0
show 1.0
keep 1.0
restart 1.0
show 1.0
deliver 6 1.0
",
    told: Ok(()),
    answers: b"sent 0 0 0 1 3 2
sent 1 0 1 0 2 2
new
new
closed 1
closed 1
sent 2 1 0 1 2 1
sent 3 1 1 0 2 2
new
new
closed 2
closed 2
sent 4 2 0 1 2 1
sent 5 2 1 0 1 1
new
new
closed 3
closed 3
sent 6 3 0 1 1 0
sent 7 3 1 0 1 1
new
closed 4
sent 8 4 0 1 1 0
too-early 3
new
node 1.0 0 open 3:0
row 1 11.115354 0.000000 0.000000 00000000000001000000000000000000
row 3 11.115354 0.000000 0.000000 00000000000000000000000000000001
kept 0
restarted 0
node 1.0 0 open 3:0
row 1 11.115354 0.000000 0.000000 00000000000001000000000000000000
row 3 11.115354 0.000000 0.000000 00000000000000000000000000000001
known
",
};

static FULL: Worked = Worked {
    told: Err(ReplayError::Write),
    answers: b"sent 0 0 0 1 2 1\nsen",
    ..EARLY_BATCH
};

// A writer that is full: the line before it was written, and the next one as far as there was room.
#[test]
fn full_writer(rt: HostRuntime) {
    assert!(rt; replayed(&rt, &FULL, 20) == Some((FULL.told, true)));
}

static TEXTS: [(ReplayError, &str); 9] = [
    (ReplayError::Options, "an option does not fit the job"),
    (
        ReplayError::Script { line: 7 },
        "line 7 of the script is no command",
    ),
    (
        ReplayError::Edges(EdgeError::TooManyEdges),
        "too many records",
    ),
    (
        ReplayError::Edges(EdgeError::Fields { number: 2 }),
        "record 2 has not one or two identifiers",
    ),
    (
        ReplayError::Counted(CountedError::Unknown { number: 3 }),
        "record 3 of the list names no vertex",
    ),
    (
        ReplayError::Plan(PlanError::Log2m),
        "log2m is not from 4 to 10",
    ),
    (
        ReplayError::Plan(PlanError::Limit),
        "limit is not from 1 to 4096",
    ),
    (ReplayError::Memory, "out of memory"),
    (ReplayError::Write, "the output cannot be written"),
];

// Whether an error prints that text.
fn prints(rt: &HostRuntime, error: ReplayError, text: &str) -> Option<bool> {
    let told = format!(in rt.alloc(); "{error}").ok()?;
    Some(told.as_str() == text)
}

// Whether each does.
fn all_print(rt: &HostRuntime) -> bool {
    let mut all = true;
    for (error, text) in &TEXTS {
        all &= prints(rt, *error, text) == Some(true);
    }
    all
}

#[test]
fn texts_of_errors(rt: HostRuntime) {
    assert!(rt; all_print(&rt));
}
