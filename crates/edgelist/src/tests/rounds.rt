//! Edge lists that several threads read, piece by piece.

use super::pieces::push_pieces;
use super::reading::{CASES, Case};
use super::{Stepping, TWO_EDGES, TWO_LINES, Told, at_once, hash, shown};
use crate::rounds::Rounds;
use crate::{
    Delimiter, EdgeError, EdgeLimits, EdgeList, LIMITS, ReadWatch, Unwatched, read_edge_list_by,
};
use Delimiter::Tab;
use ball_model::CountingReader;
use std::alloc::AllocGlobal;
use std::cell::Cell;
use std::hash::RandomState;
use std::thread::Threads;

// What an edge list was read as.
fn told_of_list(read: Result<EdgeList, EdgeError>) -> Told {
    match read {
        Ok(list) => Ok(shown(&list.graph)),
        Err(e) => Err(e),
    }
}

// How many bytes a piece takes, and how many come at a time.
type Way = (usize, usize);

// What a worked edge list is read as by four threads, in rounds of three pieces, from a reader of
// which `good` calls succeed.
fn told_in<R: AllocGlobal + Threads + Sync>(
    rt: &R,
    state: RandomState,
    case: &Case<'_>,
    way: Way,
    good: u64,
) -> Told {
    let (bytes, delimiter, vertices, edges, _) = *case;
    let (size, step) = way;
    let limits = EdgeLimits {
        vertices: vertices.min(LIMITS.vertices),
        edges: edges.min(LIMITS.edges),
    };
    let rounds = Rounds {
        rt,
        watch: &Unwatched,
        delimiter,
        limits,
        size,
        threads: 4,
    };
    let mut reader = CountingReader::new(Stepping { bytes, step, good });
    told_of_list(rounds.read(state, &mut reader))
}

// Whether that is what the case wants.
fn is_told<R: AllocGlobal + Threads + Sync>(
    rt: &R,
    state: RandomState,
    case: &Case<'_>,
    way: Way,
    good: u64,
) -> bool {
    told_in(rt, state, case, way, good) == told_of_lines(case.4)
}

// What is wanted, with the lines of the graph.
fn told_of_lines(wanted: Result<&[u8], EdgeError>) -> Told {
    match wanted {
        Ok(lines) => Ok(hash(&[(lines, 1)])),
        Err(e) => Err(e),
    }
}

// A round has one piece if fewer bytes come than are asked for, and else it has three. Each line of
// each row begins a piece in one of these ways at least: also comments, empty lines, those after CR
// LF and what is refused.
static WAYS: [Way; 7] = [
    (1, usize::MAX),
    (5, 2),
    (5, usize::MAX),
    (16, 1),
    (16, 5),
    (16, usize::MAX),
    (1000, usize::MAX),
];

// Twelve lines of four bytes: a piece of sixteen bytes has four of them.
const PATH: &[u8] = b"a\tb\nb\tc\nc\td\nd\te\ne\tf\nf\tg\ng\th\nh\ti\ni\tj\nj\tk\nk\tl\nl\tm\n";

// The lines of its graph.
const PATH_LINES: &[u8] = b"a\nb 0\nc 1\nd 2\ne 3\nf 4\ng 5\nh 6\ni 7\nj 8\nk 9\nl 0\nm 1\n";

// Lines of the same length, of which the sixth and the ninth have no first field.
const TWO_FAULTS: &[u8] =
    b"a\tb\nb\tc\nc\td\nd\te\ne\tf\n\tgg\ng\th\nh\ti\n\tjj\nj\tk\nk\tl\nl\tm\n";

// Lists of three pieces of sixteen bytes. All but the first list are refused at the sixth line, in
// the second piece.
static LONGER: [Case<'static>; 4] = [
    (PATH, Tab, 13, 12, Ok(PATH_LINES)),
    (TWO_FAULTS, Tab, 9, 99, Err(EdgeError::Fields { number: 6 })),
    (PATH, Tab, 99, 5, Err(EdgeError::TooManyEdges)),
    (PATH, Tab, 6, 99, Err(EdgeError::TooManyVertices)),
];

// Whether all are read as wanted in each way.
fn are_told<R: AllocGlobal + Threads + Sync>(
    rt: &R,
    state: RandomState,
    cases: &[Case<'_>],
) -> bool {
    let mut right = true;
    for case in cases {
        for way in &WAYS {
            right &= is_told(rt, state, case, *way, u64::MAX);
        }
    }
    right
}

#[test]
fn worked_edge_lists_piece_by_piece(rt: HostRuntime) {
    let right = match RandomState::new(&rt) {
        Ok(state) => are_told(&rt, state, &CASES) && are_told(&rt, state, &LONGER),
        Err(_) => false,
    };
    assert!(rt; right);
}

// An edge list, how it is read, and how many calls are made of its reader.
type Calls<'a> = (Case<'a>, Way, u64);

// If bytes come one by one each takes a call, and the end takes one. So does each piece, if all are
// there.
static CALLS: [Calls<'static>; 4] = [
    ((TWO_EDGES, Tab, 9, 9, Ok(TWO_LINES)), (4, 1), 9),
    ((TWO_EDGES, Tab, 9, 9, Ok(TWO_LINES)), (4, usize::MAX), 3),
    ((TWO_EDGES, Tab, 9, 9, Ok(TWO_LINES)), (99, usize::MAX), 2),
    (
        (b"\xef\xbb\xbfa\tb\r\nb\tc", Tab, 9, 9, Ok(TWO_LINES)),
        (4, 1),
        12,
    ),
];

// How the longer lists are read, and how many calls are made if the sixth line is refused. The
// pieces of the next round are asked for before it is found: those of the lines 7 to 9, or one that
// takes three calls, or the end of the list. If all lines are in one piece, the end is asked for
// with these.
static REFUSED_AFTER: [(Way, u64); 4] = [
    ((4, usize::MAX), 9),
    ((16, 5), 10),
    ((16, usize::MAX), 4),
    ((99, usize::MAX), 2),
];

// Whether a failure of each of `calls` calls is answered, and what the list says if only the next
// one would fail.
fn fails_at_each<R: AllocGlobal + Threads + Sync>(
    rt: &R,
    state: RandomState,
    case: &Case<'_>,
    way: Way,
    calls: u64,
) -> bool {
    let mut right = is_told(rt, state, case, way, calls);
    for good in 0..calls {
        right &= told_in(rt, state, case, way, good) == Err(EdgeError::Read);
    }
    right
}

// Whether the lists that are read whole do so.
fn all_fail_at_each<R: AllocGlobal + Threads + Sync>(rt: &R, state: RandomState) -> bool {
    let mut right = true;
    for (case, way, calls) in &CALLS {
        right &= fails_at_each(rt, state, case, *way, *calls);
    }
    right
}

// Whether every worked edge list does that comes byte by byte: each byte takes a call, and so does
// the end, which is asked for before a record of these short lists is refused.
fn worked_fail_at_each<R: AllocGlobal + Threads + Sync>(rt: &R, state: RandomState) -> bool {
    let mut right = true;
    for case in &CASES {
        let calls = (case.0.len() as u64).saturating_add(1);
        right &= fails_at_each(rt, state, case, (16, 1), calls);
    }
    right
}

// Whether the longer lists that are refused do.
fn refused_fail_at_each<R: AllocGlobal + Threads + Sync>(rt: &R, state: RandomState) -> bool {
    let mut right = true;
    for case in &LONGER[1..] {
        for (way, calls) in &REFUSED_AFTER {
            right &= fails_at_each(rt, state, case, *way, *calls);
        }
    }
    right
}

#[test]
fn failing_readers_piece_by_piece(rt: HostRuntime) {
    let right = match RandomState::new(&rt) {
        Ok(state) => {
            all_fail_at_each(&rt, state)
                && worked_fail_at_each(&rt, state)
                && refused_fail_at_each(&rt, state)
        }
        Err(_) => false,
    };
    assert!(rt; right);
}

// What refuses the list of two faults, read by four threads in pieces of one line, if `good` calls
// succeed.
fn fault_in<R: AllocGlobal + Threads + Sync>(
    rt: &R,
    state: RandomState,
    good: u64,
) -> Option<EdgeError> {
    let rounds = Rounds {
        rt,
        watch: &Unwatched,
        delimiter: Tab,
        limits: LIMITS,
        size: 4,
        threads: 4,
    };
    let mut reader = CountingReader::new(Stepping {
        bytes: TWO_FAULTS,
        step: usize::MAX,
        good,
    });
    match rounds.read_rounds(state, &mut reader) {
        Ok(_) => None,
        Err(fault) => Some(fault),
    }
}

// Whether the sixth line, which comes with the sixth call, is refused exactly if that one succeeds.
// (A call that failed is answered as `Read` all the same, by whoever counts the calls.)
fn is_refused_first<R: AllocGlobal + Threads + Sync>(rt: &R, state: RandomState) -> bool {
    let mut right = true;
    for good in 0..6 {
        right &= fault_in(rt, state, good) == Some(EdgeError::Read);
    }
    for good in 6..9 {
        right &= fault_in(rt, state, good) == Some(EdgeError::Fields { number: 6 });
    }
    right
}

#[test]
fn refusals_before_a_call_that_fails(rt: HostRuntime) {
    let right = match RandomState::new(&rt) {
        Ok(state) => is_refused_first(&rt, state),
        Err(_) => false,
    };
    assert!(rt; right);
}

// The last number of records that the watch was called with, if there is one.
#[derive(Drop)]
struct Last {
    records: Cell<Option<u64>>,
}

impl ReadWatch for Last {
    fn while_read(&self, records: u64) {
        self.records.set(Some(records));
    }
}

// The number of records of a list, and how many the watch was called with last.
fn records_by<R: AllocGlobal + Threads + Sync>(
    rt: &R,
    state: RandomState,
    text: &[u8],
    threads: usize,
) -> Option<(u64, Option<u64>)> {
    let watch = Last {
        records: Cell::new(None),
    };
    let mut reader = CountingReader::new(at_once(text));
    match read_edge_list_by(rt, &watch, state, &mut reader, Tab, LIMITS, threads) {
        Ok(read) => Some((read.records, watch.records.get())),
        Err(_) => None,
    }
}

// These of 3,000 records, by one thread.
fn many_records<R: AllocGlobal + Threads + Sync>(
    rt: &R,
    state: RandomState,
) -> Option<(u64, Option<u64>)> {
    let mut text = Vec::new(rt.alloc());
    if !push_pieces(&mut text, &[(b"a\tb\n", 3_000)]) {
        return None;
    }
    records_by(rt, state, &text, 1)
}

// These of the two edges, in pieces of one line each.
fn records_in_pieces<R: AllocGlobal + Threads + Sync>(
    rt: &R,
    state: RandomState,
) -> Option<(u64, Option<u64>)> {
    let watch = Last {
        records: Cell::new(None),
    };
    let rounds = Rounds {
        rt,
        watch: &watch,
        delimiter: Tab,
        limits: LIMITS,
        size: 1,
        threads: 3,
    };
    match rounds.read(state, &mut CountingReader::new(at_once(TWO_EDGES))) {
        Ok(list) => Some((list.records, watch.records.get())),
        Err(_) => None,
    }
}

// One thread calls the watch each time that 1,024 more are added. More threads call it with what
// was added before the last round: nothing if there is one round, and one record if each has a
// round.
fn are_told_of<R: AllocGlobal + Threads + Sync>(rt: &R, state: RandomState) -> bool {
    records_by(rt, state, TWO_EDGES, 1) == Some((2, None))
        && many_records(rt, state) == Some((3_000, Some(2_048)))
        && records_by(rt, state, TWO_EDGES, 3) == Some((2, None))
        && records_in_pieces(rt, state) == Some((2, Some(1)))
}

#[test]
fn records_are_told(rt: HostRuntime) {
    let right = match RandomState::new(&rt) {
        Ok(state) => are_told_of(&rt, state),
        Err(_) => false,
    };
    assert!(rt; right);
}

// How many of 10,000 records each number of threads from 1 to 4 reads. Pieces have 16 KiB, so two
// threads have three rounds.
fn are_counted<R: AllocGlobal + Threads + Sync>(rt: &R, state: RandomState) -> bool {
    let mut text = Vec::new(rt.alloc());
    let mut right = push_pieces(&mut text, &[(b"a\tb\n", 10_000)]);
    for threads in 1..5 {
        right &= match records_by(rt, state, &text, threads) {
            Some((records, _)) => records == 10_000,
            None => false,
        };
    }
    right
}

#[test]
fn each_number_of_threads(rt: HostRuntime) {
    let right = match RandomState::new(&rt) {
        Ok(state) => are_counted(&rt, state),
        Err(_) => false,
    };
    assert!(rt; right);
}
