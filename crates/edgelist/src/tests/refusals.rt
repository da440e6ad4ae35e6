//! Refused memory. A run of this test can refuse any one growth: then a call that is refused leaves
//! all as it was, and is answered when it is made again.

use super::counting::counts;
use super::parts::part_by_feeds;
use super::*;
use crate::{LIMITS, Unwatched, read_edge_list_by};
use std::alloc::AllocGlobal;
use std::thread::Threads;

// Whether both of two calls read the two edges, or just one was refused for want of memory.
fn are_answered(first: Told, second: Told) -> bool {
    let read = Ok(hash(&[(TWO_LINES, 1)]));
    let refused = Err(EdgeError::Memory);
    if first == read {
        second == read || second == refused
    } else {
        first == refused && second == read
    }
}

// What the two edges are read as.
fn told_there(rt: &HostRuntime) -> Told {
    told(rt, at_once(TWO_EDGES), Delimiter::Tab, NO_LIMITS)
}

// What the two edges are read as by three threads.
fn told_by_three<R: AllocGlobal + Threads + Sync>(rt: &R, state: RandomState) -> Told {
    let mut reader = CountingReader::new(at_once(TWO_EDGES));
    match read_edge_list_by(
        rt,
        &Unwatched,
        state,
        &mut reader,
        Delimiter::Tab,
        LIMITS,
        3,
    ) {
        Ok(read) => Ok(shown(&read.graph)),
        Err(fault) => Err(fault),
    }
}

// Whether three threads answer the two edges.
fn three_answer<R: AllocGlobal + Threads + Sync>(rt: &R, state: RandomState) -> bool {
    are_answered(told_by_three(rt, state), told_by_three(rt, state))
}

// Whether a list of just the last vertex is answered: at once, or after a refusal that left all
// counted.
fn is_counted(alloc: Global, graph: &mut Graph) -> bool {
    let first = graph.count_only(alloc, Delimiter::Tab, b"c");
    if first == Err(CountedError::Memory) {
        counts(graph, b"012")
            && graph.count_only(alloc, Delimiter::Tab, b"c") == Ok(())
            && counts(graph, b"2")
    } else {
        first == Ok(()) && counts(graph, b"2")
    }
}

// Whether a graph has a part, by whichever masks it is made: if memory is refused there is none.
fn has_part(alloc: Global, graph: &Graph) -> bool {
    part_of(alloc, graph, 2, 1).is_some() && part_by_feeds(alloc, graph, 2, 1).is_some()
}

// Whether a list is answered on the two edges, and a part is made by one of two calls at least.
fn is_answered_there(rt: &HostRuntime) -> Option<bool> {
    let alloc = rt.alloc();
    match tabs(rt, TWO_EDGES) {
        Ok(mut graph) => Some(
            is_counted(alloc, &mut graph) && (has_part(alloc, &graph) || has_part(alloc, &graph)),
        ),
        Err(_) => None,
    }
}

// Whether all is answered. If memory is refused before there is a graph, all is done again, and
// nothing is refused.
fn all_is_answered(rt: &HostRuntime) -> bool {
    let right = are_answered(told_there(rt), told_there(rt));
    let answered = match is_answered_there(rt) {
        Some(answered) => answered,
        None => is_answered_there(rt) == Some(true),
    };
    right && answered
}

#[test]
fn calls_where_memory_is_refused(rt: HostRuntime) {
    let right = match RandomState::new(&rt) {
        Ok(state) => all_is_answered(&rt) && three_answer(&rt, state),
        Err(_) => false,
    };
    assert!(rt; right);
}
