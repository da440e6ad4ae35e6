//! Refused memory. A run of this test can refuse any one growth: then a call that is refused is
//! answered when it is made again.

use super::*;
use std::alloc::AllocGlobal;
use std::thread::Threads;

// Whether just the last vertex of the two edges is counted, which `threads` threads read.
fn is_counted<R: AllocGlobal + Threads + Sync>(
    rt: &R,
    state: RandomState,
    threads: u16,
) -> Result<bool, NetworkError> {
    let mut reader = CountingReader::new(TWO_EDGES);
    let options = options(false, threads);
    let read = options.read_network_by(rt, &Unwatched, state, &mut reader, Some(b"c"))?;
    Ok(counts(&read.graph, b"2"))
}

// Whether memory was refused.
fn is_refused(told: Result<bool, NetworkError>) -> bool {
    told == Err(NetworkError::Edges(EdgeError::Memory))
        || told == Err(NetworkError::Counted(CountedError::Memory))
}

// Whether both of two calls are answered, or just one was refused for want of memory.
fn are_answered<R: AllocGlobal + Threads + Sync>(rt: &R, state: RandomState, threads: u16) -> bool {
    let first = is_counted(rt, state, threads);
    let second = is_counted(rt, state, threads);
    let one = first == Ok(true) || is_refused(first);
    let other = second == Ok(true) || is_refused(second);
    one && other && (first == Ok(true) || second == Ok(true))
}

#[test]
fn calls_where_memory_is_refused(rt: HostRuntime) {
    let right = match RandomState::new(&rt) {
        Ok(state) => are_answered(&rt, state, 1) && are_answered(&rt, state, 3),
        Err(_) => false,
    };
    assert!(rt; right);
}
