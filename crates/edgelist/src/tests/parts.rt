//! The parts of a graph.

use super::*;

// A number of partitions, a partition and the index of a vertex in it; the number of vertices of
// the part, and the vertex, its predecessors, its feed mask and whether it is counted.
type Row<'a> = (u16, u16, u32, u32, u32, &'a [u32], u64, bool);

// Whether a part has this row.
fn is_row(part: &Part, row: &Row<'_>) -> bool {
    let (parts, p, i, size, vertex, preds, feeds, counted) = *row;
    if i >= part.size() {
        return false;
    }
    let mut right = part.size() == size;
    right &= part.partition() == p;
    right &= part.plan().parts() == parts;
    right &= part.vertex(i) == vertex;
    right &= are_preds(part.preds(i), preds);
    right &= part.feeds(i) == feeds;
    right &= part.counts(i) == counted;
    right
}

// A part of a graph by the masks of all vertices, and whose digest is put in afterwards.
pub(super) fn part_by_feeds(alloc: Global, graph: &Graph, parts: u16, p: u16) -> Option<Part> {
    let Ok(bare) = bare_plan(graph, parts, Estimate::Raw, false) else {
        return None;
    };
    if p >= bare.parts() || bare.vertices() != graph.vertices() {
        return None;
    }
    let feeds = graph.feeds(alloc, &bare).ok()?;
    let part = graph.part_with(alloc, &bare, p, &feeds).ok()?;
    Some(part.with_job(graph.digest(&bare)))
}

// Whether two parts have the same plan, and this row.
fn are_rows(one: &Part, other: &Part, row: &Row<'_>) -> bool {
    *one.plan() == *other.plan() && is_row(one, row) && is_row(other, row)
}

// Whether a part of a graph has this row, whichever way it is made.
fn has_row(alloc: Global, graph: &Graph, row: &Row<'_>) -> bool {
    let one = part_of(alloc, graph, row.0, row.1);
    let other = part_by_feeds(alloc, graph, row.0, row.1);
    match (&one, &other) {
        (Some(one), Some(other)) => are_rows(one, other, row),
        _ => false,
    }
}

// Whether the parts of a graph have these rows.
fn has_rows(alloc: Global, graph: &Graph, rows: &[Row<'_>]) -> bool {
    let mut right = true;
    for row in rows {
        right &= has_row(alloc, graph, row);
    }
    right
}

// An edge list with tabs, a list, and rows of its parts.
type Rows<'a> = (&'a [u8], Option<&'a [u8]>, &'a [Row<'a>]);

// Whether the parts of its graph have them.
fn have_rows(rt: &HostRuntime, case: &Rows<'_>) -> bool {
    let (text, list, rows) = *case;
    match tabs(rt, text) {
        Ok(mut graph) => {
            count(rt.alloc(), &mut graph, list) && has_rows(rt.alloc(), &graph, rows)
        }
        Err(_) => false,
    }
}

// 0 to 1 to 2 to 3 to 4, and 2 to itself: of two partitions, the even vertices are partition 0, the
// odd ones partition 1.
const PATH: &[Row<'static>] = &[
    (1, 0, 2, 5, 2, &[1, 2], 0b1, true),
    (1, 0, 4, 5, 4, &[3], 0, true),
    (2, 0, 0, 3, 0, &[], 0b10, true),
    (2, 0, 1, 3, 2, &[1, 2], 0b11, true),
    (2, 0, 2, 3, 4, &[3], 0, true),
    (2, 1, 0, 2, 1, &[0], 0b1, true),
    (2, 1, 1, 2, 3, &[2], 0b1, true),
];

// Vertices 0 to 9, and edges from 0 to 1, 7 and 8, from 8 to 0, and from 9 to 7. Of 8 partitions:
// vertices 0 and 8, then 1 and 9: partition 7 is that of vertex 7, and partition 0 that of vertex
// 8. Of 9: vertices 0 and 9, then 8: partition 8 is that of vertex 8.
const MASKS: &[Row<'static>] = &[
    (8, 0, 0, 2, 0, &[8], 0b1000_0011, true),
    (8, 0, 1, 2, 8, &[0], 0b1, true),
    (8, 1, 0, 2, 1, &[0], 0, true),
    (8, 1, 1, 2, 9, &[], 0b1000_0000, true),
    (9, 0, 0, 2, 0, &[8], 0b1_1000_0010, true),
    (9, 0, 1, 2, 9, &[], 0b1000_0000, true),
    (9, 8, 0, 1, 8, &[0], 0b1, true),
];

// The two edges, of whose vertices just the first is counted.
const FIRST: &[Row<'static>] = &[
    (2, 0, 0, 2, 0, &[], 0b10, true),
    (2, 1, 0, 1, 1, &[0], 0b1, false),
    (2, 0, 1, 2, 2, &[1], 0, false),
];

static PARTS: [Rows<'static>; 3] = [
    (b"a\tb\nb\tc\nc\td\nd\te\nc\tc\n", None, PATH),
    (
        b"a\nb\nc\nd\ne\nf\ng\nh\ni\nj\na\tb\na\th\na\ti\ni\ta\nj\th\n",
        None,
        MASKS,
    ),
    (TWO_EDGES, Some(b"a"), FIRST),
];

// Whether all do.
fn all_have_rows(rt: &HostRuntime) -> bool {
    let mut right = true;
    for case in &PARTS {
        right &= have_rows(rt, case);
    }
    right
}

#[test]
fn parts(rt: HostRuntime) {
    assert!(rt; all_have_rows(&rt));
}
