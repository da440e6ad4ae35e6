//! Large edge lists: what the usual calls read is read the same, and lower limits are in force.

use super::*;

// An edge list with tabs that is read at once.
fn read_at_once(rt: &HostRuntime, text: &[u8], limits: EdgeLimits) -> Result<EdgeList, EdgeError> {
    let Ok(state) = RandomState::new(rt) else {
        return Err(EdgeError::Memory);
    };
    let mut reader = CountingReader::new(at_once(text));
    read_large_edge_list(rt.alloc(), state, &mut reader, Delimiter::Tab, limits)
}

// A reader of edges.
fn reader(rt: &HostRuntime, limits: EdgeLimits) -> Result<EdgeReader, EdgeError> {
    match RandomState::new(rt) {
        Ok(state) => EdgeReader::large(rt.alloc(), state, Delimiter::Tab, limits),
        Err(_) => Err(EdgeError::Memory),
    }
}

// The edge list whose bytes are given one at a time.
fn list_given(rt: &HostRuntime, text: &[u8], limits: EdgeLimits) -> Result<EdgeList, EdgeError> {
    let mut edges = reader(rt, limits)?;
    for byte in text {
        edges.add(rt.alloc(), *byte)?;
    }
    edges.finish(rt.alloc())
}

// What such a list is read as.
fn told_of_list(list: &Result<EdgeList, EdgeError>) -> Told {
    match list {
        Ok(list) => Ok(shown(&list.graph)),
        Err(e) => Err(*e),
    }
}

// Whether the two edges are read as wanted both ways.
fn is_told(rt: &HostRuntime, case: &(u32, u64, Result<Pieces<'_>, EdgeError>)) -> bool {
    let (vertices, edges, wanted) = *case;
    let limits = EdgeLimits { vertices, edges };
    let wanted = told_of(wanted);
    told_of_list(&read_at_once(rt, TWO_EDGES, limits)) == wanted
        && told_of_list(&list_given(rt, TWO_EDGES, limits)) == wanted
}

// Limits, and what the two edges are read as.
static CASES: [(u32, u64, Result<Pieces<'static>, EdgeError>); 4] = [
    (u32::MAX, u64::MAX, Ok(&[(TWO_LINES, 1)])),
    (3, 2, Ok(&[(TWO_LINES, 1)])),
    (2, 2, Err(EdgeError::TooManyVertices)),
    (3, 1, Err(EdgeError::TooManyEdges)),
];

// Whether the two edges are read as wanted within each of these limits.
fn are_told(rt: &HostRuntime) -> bool {
    let mut right = true;
    for case in &CASES {
        right &= is_told(rt, case);
    }
    right
}

#[test]
fn large_edge_lists(rt: HostRuntime) {
    assert!(rt; are_told(&rt));
}
