//! What no clause says: worked jobs, from an edge list to a plan.

mod job;
mod refusals;

use crate::{JobOptions, NetworkError, Unwatched};
use ball_model::{CountingReader, Estimate};
use edgelist::{CountedError, Delimiter, EdgeError, EdgeList, Graph};
use std::alloc::Global;
use std::fmt::Display;
use std::hash::RandomState;

/// Two edges, with tabs.
const TWO_EDGES: &[u8] = b"a\tb\nb\tc\n";

/// A job of usual or of large edge lists, on which `threads` threads work.
fn options(large: bool, threads: u16) -> JobOptions {
    JobOptions {
        log2m: 4,
        seed: 7,
        parts: 2,
        limit: 9,
        estimate: Estimate::Corrected,
        delimiter: Delimiter::Tab,
        large,
        threads,
    }
}

/// Whether just the vertices of these digits are counted, of ten at most, and the graph has their
/// number.
fn counts(graph: &Graph, wanted: &[u8]) -> bool {
    let mut right = graph.counted_count() as usize == wanted.len();
    for v in 0..graph.vertices() {
        let digit = b'0' + (v % 10) as u8;
        right &= graph.counted(v) == wanted.contains(&digit);
    }
    right
}

/// The texts of the errors of an edge list and of a list of counted vertices.
static NETWORK_TEXTS: [(NetworkError, &str); 2] = [
    (
        NetworkError::Edges(EdgeError::TooManyVertices),
        "too many vertices",
    ),
    (
        NetworkError::Counted(CountedError::Unknown { number: 3 }),
        "record 3 of the list names no vertex",
    ),
];

/// Whether an error has this text.
fn has_text<E: Display>(alloc: Global, error: &E, text: &str) -> bool {
    match format!(in alloc; "{error}") {
        Ok(told) => told.as_str() == text,
        Err(_) => false,
    }
}

#[test]
fn error_texts(rt: HostRuntime) {
    let mut right = true;
    for (error, text) in &NETWORK_TEXTS {
        right &= has_text(rt.alloc(), error, *text);
    }
    assert!(rt; right);
}
