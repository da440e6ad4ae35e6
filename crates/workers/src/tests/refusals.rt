//! Refused memory, and streams that fail. A run of the first two tests can refuse any one growth: then a node ends with
//! want of memory, a run writes nothing, and what was refused is done when it is done again.

use super::runs::{REPORT, Seen, Trial, USUAL, Written, seen};
use super::*;
use edgelist::EdgeError;
use std::thread::Threads;

/// Whether the lone node is done, starting anew at a superstep or not: at once, or when it is run again.
fn is_done<R: AllocGlobal + RandomSource + Threads + Wait + Sync>(
    rt: &R,
    restart: Option<u32>,
) -> bool {
    let first = lone(rt, 64, None, restart);
    let refused = matches!(first, Some(Outcome::NoMemory) | None);
    let end = if refused {
        lone(rt, 64, None, restart)
    } else {
        first
    };
    end == Some(DONE)
}

#[test]
fn nodes_whose_memory_is_refused(rt: HostRuntime) {
    assert!(rt; is_done(&rt, None) && is_done(&rt, Some(2)));
}

/// What is seen of a run of the two edges in one partition, which one thread reads, while a call of the reader and one
/// of the writer may fail.
fn seen_there<R: AllocGlobal + RandomSource + Threads + Wait + Sync>(
    rt: &R,
    read_fails: Option<u64>,
    write_fails: Option<u64>,
) -> Seen {
    let trial = Trial {
        threads: 1,
        ..USUAL
    };
    seen(rt, &trial, &OpenGate, REPORT, read_fails, write_fails)
}

/// A run that writes its report.
const WHOLE: Seen = (Ok(()), Written::Whole);

/// Whether memory was refused, and nothing is written.
fn is_refused(seen: Seen) -> bool {
    matches!(
        seen,
        (
            Err(RunError::Memory | RunError::Edges(EdgeError::Memory)),
            Written::Nothing
        )
    )
}

#[test]
fn a_run_whose_memory_is_refused(rt: HostRuntime) {
    let first = seen_there(&rt, None, None);
    let again = is_refused(first) && seen_there(&rt, None, None) == WHOLE;
    assert!(rt; first == WHOLE || again);
}

/// Which call of the reader and of the writer fails, and what is seen then. The edge list is read by three calls: one
/// for its bytes, and two that find no more. The report is written by two: one for what is before the vertices, and one
/// for them.
static FAILING: [(Option<u64>, Option<u64>, Seen); 7] = [
    (Some(1), None, UNREAD),
    (Some(2), None, UNREAD),
    (Some(3), None, UNREAD),
    (Some(4), None, WHOLE),
    (None, Some(1), (Err(RunError::Write), Written::Nothing)),
    (None, Some(2), (Err(RunError::Write), Written::Beginning)),
    (None, Some(3), WHOLE),
];

const UNREAD: Seen = (Err(RunError::Edges(EdgeError::Read)), Written::Nothing);

/// Whether just that is seen.
fn all_are_seen<R: AllocGlobal + RandomSource + Threads + Wait + Sync>(rt: &R) -> bool {
    let mut all = true;
    for (read_fails, write_fails, wanted) in &FAILING {
        all &= seen_there(rt, *read_fails, *write_fails) == *wanted;
    }
    all
}

#[test]
fn a_run_whose_streams_fail(rt: HostRuntime) {
    assert!(rt; all_are_seen(&rt));
}
