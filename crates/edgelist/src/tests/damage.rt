//! Edge lists and lists of counted vertices of random bytes, and some of which a few bytes are
//! changed.

use super::*;

// The next of a row of numbers: x becomes 6364136223846793005 x + 1442695040888963407 below 2^64
// (Knuth).
fn next(state: &mut u64) -> u64 {
    *state = state
        .wrapping_mul(6_364_136_223_846_793_005)
        .wrapping_add(1_442_695_040_888_963_407);
    *state >> 33
}

/// Bytes that mean something in an edge list, and some that do not.
static MARKS: [u8; 16] = *b"\t\t\n\n\n\r#ab,\xff\0\"abb";

// The next of them at random.
fn mark(state: &mut u64) -> u8 {
    MARKS[(next(state) % 16) as usize]
}

// Fills bytes with such ones at random.
fn scatter(bytes: &mut [u8], state: &mut u64) {
    for byte in bytes.iter_mut() {
        *byte = mark(state);
    }
}

// Changes up to four bytes at random, each to one that may mean something.
fn change(bytes: &mut [u8], state: &mut u64) {
    for _ in 0..1 + next(state) % 4 {
        let place = (next(state) % 27) as usize;
        if place < bytes.len() {
            bytes[place] = mark(state);
        }
    }
}

const NINE: EdgeLimits = EdgeLimits {
    vertices: 9,
    edges: 9,
};

// Whether bytes are read alike at once and a byte at a time.
fn is_same(rt: &HostRuntime, bytes: &[u8]) -> bool {
    let slow = Stepping {
        bytes,
        step: 1,
        good: u64::MAX,
    };
    let at_once = told(rt, at_once(bytes), Delimiter::Tab, NINE);
    at_once != Err(EdgeError::Memory) && told(rt, slow, Delimiter::Tab, NINE) == at_once
}

// An edge list with a comment, both ends of lines and a double.
const EDGES: [u8; 27] = *b"# c\r\na\tb\nb\tc\r\nd\na\tb\n\nbc\ta\nc";

// Whether a thousand of these lists with some bytes changed are.
fn changed_are_same(rt: &HostRuntime) -> bool {
    let mut state = 30;
    let mut right = true;
    for _ in 0..1000 {
        let mut bytes = EDGES;
        change(&mut bytes, &mut state);
        right &= is_same(rt, &bytes);
    }
    right
}

#[test]
fn edge_lists_with_some_bytes_changed(rt: HostRuntime) {
    assert!(rt; changed_are_same(&rt));
}

// Whether a thousand of up to 31 random bytes are.
fn random_are_same(rt: &HostRuntime) -> bool {
    let mut state = 28;
    let mut right = true;
    for _ in 0..1000 {
        let mut bytes = [0u8; 31];
        scatter(&mut bytes, &mut state);
        let (front, _) = bytes.split_at((next(&mut state) % 32) as usize);
        right &= is_same(rt, front);
    }
    right
}

#[test]
fn random_edge_lists(rt: HostRuntime) {
    assert!(rt; random_are_same(&rt));
}

// The labels of the two edges.
const LABELS: [u8; 3] = *b"abc";

// Which of their vertices are counted.
fn counted(graph: &Graph) -> [bool; 3] {
    let mut counted = [false; 3];
    for v in 0..graph.vertices().min(3) {
        counted[v as usize] = graph.counted(v);
    }
    counted
}

// Whether just those are counted that a list has, or after a refusal those that were before.
fn is_answered(alloc: Global, graph: &mut Graph, list: &[u8]) -> bool {
    let before = counted(graph);
    let answer = graph.count_only(alloc, Delimiter::Tab, list);
    let after = counted(graph);
    let mut right = answer != Err(CountedError::Memory);
    for v in 0..3 {
        right &= if answer.is_ok() {
            !after[v] || list.contains(&LABELS[v])
        } else {
            after[v] == before[v]
        };
    }
    right
}

// A list of counted vertices of the two edges.
const LIST: [u8; 14] = *b"# x\r\nb\nc\n\nb\r\na";

// Whether a thousand of these lists with some bytes changed are answered rightly, and a thousand of
// up to 14 random bytes.
fn are_answered(alloc: Global, graph: &mut Graph) -> bool {
    let mut state = 31;
    let mut right = true;
    for _ in 0..1000 {
        let mut list = LIST;
        change(&mut list, &mut state);
        right &= is_answered(alloc, graph, &list);
        scatter(&mut list, &mut state);
        let (front, _) = list.split_at((next(&mut state) % 15) as usize);
        right &= is_answered(alloc, graph, front);
    }
    right
}

// Whether all of these lists are answered rightly on the two edges.
fn are_answered_there(rt: &HostRuntime) -> bool {
    match tabs(rt, TWO_EDGES) {
        Ok(mut graph) => are_answered(rt.alloc(), &mut graph),
        Err(_) => false,
    }
}

#[test]
fn counted_lists_with_some_bytes_changed(rt: HostRuntime) {
    assert!(rt; are_answered_there(&rt));
}
