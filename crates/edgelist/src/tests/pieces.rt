//! Edge lists whose bytes are given one at a time, across the places where lines are read.

use super::*;

// A reader of edges.
fn reader(
    rt: &HostRuntime,
    delimiter: Delimiter,
    limits: EdgeLimits,
) -> Result<EdgeReader, EdgeError> {
    match RandomState::new(rt) {
        Ok(state) => EdgeReader::new(rt.alloc(), state, delimiter, limits),
        Err(_) => Err(EdgeError::Memory),
    }
}

// Gives bytes to a reader, up to the first that is refused.
fn give(alloc: Global, edges: &mut EdgeReader, text: &[u8]) -> Result<(), EdgeError> {
    for byte in text {
        edges.add(alloc, *byte)?;
    }
    Ok(())
}

// The edge list of a text that is given to a reader.
fn list_given(
    rt: &HostRuntime,
    text: &[u8],
    delimiter: Delimiter,
    limits: EdgeLimits,
) -> Result<EdgeList, EdgeError> {
    let mut edges = reader(rt, delimiter, limits)?;
    give(rt.alloc(), &mut edges, text)?;
    edges.finish(rt.alloc())
}

// What a text that is given to a reader is read as.
pub(super) fn given(
    rt: &HostRuntime,
    text: &[u8],
    delimiter: Delimiter,
    limits: EdgeLimits,
) -> Told {
    match &list_given(rt, text, delimiter, limits) {
        Ok(list) => Ok(shown(&list.graph)),
        Err(e) => Err(*e),
    }
}

// How many records an edge list has.
pub(super) fn records_of(list: &Result<EdgeList, EdgeError>) -> Result<u64, EdgeError> {
    match list {
        Ok(list) => Ok(list.records),
        Err(e) => Err(*e),
    }
}

// How many records a text with tabs has that is given to a reader.
pub(super) fn records_given(rt: &HostRuntime, text: &[u8]) -> Result<u64, EdgeError> {
    records_of(&list_given(rt, text, Delimiter::Tab, NO_LIMITS))
}

// Adds the pieces of a text. False: there was no room.
pub(super) fn push_pieces(text: &mut Vec<u8>, pieces: Pieces<'_>) -> bool {
    let mut room = true;
    for (piece, count) in pieces {
        for _ in 0..*count {
            room &= text.extend_from_slice(*piece).is_ok();
        }
    }
    room
}

// An edge list with tabs, and the lines of its graph or the error.
pub(super) type Case<'a> = (Pieces<'a>, Result<Pieces<'a>, EdgeError>);

// Whether a text with tabs is read as wanted, at once and with its bytes given one after the other.
fn is_told_both_ways(rt: &HostRuntime, text: &[u8], wanted: &Told) -> bool {
    given(rt, text, Delimiter::Tab, NO_LIMITS) == *wanted
        && told(rt, at_once(text), Delimiter::Tab, NO_LIMITS) == *wanted
}

// Whether a long edge list is.
fn is_told(rt: &HostRuntime, case: &Case<'_>) -> bool {
    let (pieces, wanted) = *case;
    let mut text = Vec::new(rt.alloc());
    push_pieces(&mut text, pieces) && is_told_both_ways(rt, &text, &told_of(wanted))
}

// Whether all of them are.
pub(super) fn are_told(rt: &HostRuntime, cases: &[Case<'_>]) -> bool {
    let mut right = true;
    for case in cases {
        right &= is_told(rt, case);
    }
    right
}

// 16,384 lines of 4 bytes are read at once, 40,000 in three times. A byte order mark is skipped at
// the front of a text, and is part of a label in a later piece. A record is refused. Labels of 300
// bytes.
static LONG: [Case<'static>; 7] = [
    (
        &[(b"a\tb\n", 16_383), (b"b\tc\n# end", 1)],
        Ok(&[(TWO_LINES, 1)]),
    ),
    (
        &[(b"a\tb\n", 16_384), (b"b\tc\n# end", 1)],
        Ok(&[(TWO_LINES, 1)]),
    ),
    (
        &[(b"a\tb\n", 16_385), (b"b\tc\n# end", 1)],
        Ok(&[(TWO_LINES, 1)]),
    ),
    (
        &[(b"a\tb\n", 40_000), (b"b\tc\n# end", 1)],
        Ok(&[(TWO_LINES, 1)]),
    ),
    (
        &[(b"a\tb\n", 16_384), (b"\xef\xbb\xbfx\n", 1)],
        Ok(&[(b"a\nb 0\n\xef\xbb\xbfx\n", 1)]),
    ),
    (
        &[(b"a\tb\n", 16_384), (b"a\tb\tc\n", 1)],
        Err(EdgeError::Fields { number: 16_385 }),
    ),
    (
        &[(b"x", 299), (b"y\t", 1), (b"x", 299), (b"z", 1)],
        Ok(&[(b"x", 299), (b"y\n", 1), (b"x", 299), (b"z 0\n", 1)]),
    ),
];

#[test]
fn long_edge_lists(rt: HostRuntime) {
    assert!(rt; are_told(&rt, &LONG));
}

// Gives the pieces of a text to a reader, up to the first that is refused.
fn give_pieces(alloc: Global, edges: &mut EdgeReader, pieces: Pieces<'_>) -> Result<(), EdgeError> {
    let mut answer = Ok(());
    for (piece, count) in pieces {
        for _ in 0..*count {
            if answer.is_ok() {
                answer = give(alloc, edges, *piece);
            }
        }
    }
    answer
}

// What is answered to the bytes of an edge list with tabs before its end.
fn answered(rt: &HostRuntime, pieces: Pieces<'_>) -> Result<(), EdgeError> {
    match reader(rt, Delimiter::Tab, NO_LIMITS) {
        Ok(mut edges) => give_pieces(rt.alloc(), &mut edges, pieces),
        Err(e) => Err(e),
    }
}

#[test]
fn a_refusal_in_between(rt: HostRuntime) {
    // Record 16,385 is refused at the 16,384th line that follows it.
    let pieces: Pieces<'_> = &[(b"a\tb\n", 16_384), (b"a\tb\tc\n", 1), (b"a\tb\n", 16_384)];
    let refused = Err(EdgeError::Fields { number: 16_385 });
    assert!(rt; answered(&rt, pieces) == refused);
}
