//! Lists of counted vertices, and job digests.

use super::*;

// Whether just the vertices of these digits are counted, of ten at most, and the graph has their
// number.
pub(super) fn counts(graph: &Graph, wanted: &[u8]) -> bool {
    let mut right = graph.counted_count() as usize == wanted.len();
    for v in 0..graph.vertices() {
        right &= graph.counted(v) == wanted.contains(&digit(v));
    }
    right
}

// A list, what is between its fields, what it is answered, and the digits of the vertices that are
// then counted.
type List<'a> = (&'a [u8], Delimiter, Result<(), CountedError>, &'a [u8]);

// Whether these lists are answered as wanted, one after another.
fn are_answered(alloc: Global, graph: &mut Graph, lists: &[List<'_>]) -> bool {
    let mut right = true;
    for (list, delimiter, answer, wanted) in lists {
        right &= graph.count_only(alloc, *delimiter, *list) == *answer;
        right &= counts(graph, *wanted);
    }
    right
}

// Whether they are on the graph of an edge list with tabs.
fn answered(rt: &HostRuntime, text: &[u8], lists: &[List<'_>]) -> bool {
    match tabs(rt, text) {
        Ok(mut graph) => are_answered(rt.alloc(), &mut graph, lists),
        Err(_) => false,
    }
}

use CountedError::{Fields, Unknown};
use Delimiter::{Comma, Tab};

// A refused list leaves those counted that were, which are all at first, and another list replaces
// one. Comments and empty lines have no number. One vertex; all of them, one twice and in another
// order; none; both ends of lines. A byte order mark at the front is skipped, and no other.
static LISTS: [List<'static>; 18] = [
    (b"# c\nz", Tab, Err(Unknown { number: 1 }), b"012"),
    (b"a\tb", Tab, Err(Fields { number: 1 }), b"012"),
    (b"a\n\n\t\n", Tab, Err(Fields { number: 2 }), b"012"),
    (b"a\nz\na\tb", Tab, Err(Unknown { number: 2 }), b"012"),
    (b"c\na\tb\nz", Tab, Err(Fields { number: 2 }), b"012"),
    (b"a\n \n", Tab, Err(Unknown { number: 2 }), b"012"),
    (b"a", Tab, Ok(()), b"0"),
    (b"b\nc\na\nb\n", Tab, Ok(()), b"012"),
    (b"", Tab, Ok(()), b""),
    (b"# a\n\nc\r\n", Tab, Ok(()), b"2"),
    (b"a\n# b", Tab, Ok(()), b"0"),
    (b"a\nb", Tab, Ok(()), b"01"),
    (b"c\nz", Tab, Err(Unknown { number: 2 }), b"01"),
    (b"c", Comma, Ok(()), b"2"),
    (b"\xef\xbb\xbfb\r\n", Tab, Ok(()), b"1"),
    (b"\xef\xbb\xbf", Tab, Ok(()), b""),
    (b"\xef\xbb\xbf# a\nc", Tab, Ok(()), b"2"),
    (b"b\n\xef\xbb\xbfa", Tab, Err(Unknown { number: 2 }), b"2"),
];

// Labels that begin alike, with quotes, of bytes that are no text, and of one space.
const ODD: &[u8] = b"\"x\ty\"\"z\n\xff\xc0\t \nab\tabc\na\tabcdefghijklmn\n";

static ODD_LISTS: [List<'static>; 2] = [
    (b"\"x\n\xff\xc0\nab\n", Tab, Ok(()), b"024"),
    (b" \nabcdefghijklmn\ny\"\"z\nabc\na", Tab, Ok(()), b"13567"),
];

#[test]
fn counted_lists(rt: HostRuntime) {
    assert!(rt; answered(&rt, TWO_EDGES, &LISTS) && answered(&rt, ODD, &ODD_LISTS));
}

// The job digests of a graph in two partitions, with raw estimates and with corrected ones.
fn jobs(graph: &Graph) -> Result<[[u8; 32]; 2], PlanError> {
    let raw = graph.plan(4, 0, 2, 4096)?;
    let corrected = graph.corrected_plan(4, 0, 2, 4096)?;
    Ok([raw.job(), corrected.job()])
}

// Both job digests, each made for a plan without one, usual or large.
fn digests(graph: &Graph, large: bool) -> Result<[[u8; 32]; 2], PlanError> {
    let raw = bare_plan(graph, 2, Estimate::Raw, large)?;
    let corrected = bare_plan(graph, 2, Estimate::Corrected, large)?;
    Ok([graph.digest(&raw), graph.digest(&corrected)])
}

// Whether a graph has these job digests, whichever way they are made.
fn are_jobs(graph: &Graph, wanted: [[u8; 32]; 2]) -> bool {
    let bare = digests(graph, false) == Ok(wanted) && digests(graph, true) == Ok(wanted);
    jobs(graph) == Ok(wanted) && bare
}

// An edge list with tabs, a list, and the job digests of its graph then.
type Jobs<'a> = (&'a [u8], Option<&'a [u8]>, [[u8; 32]; 2]);

// Whether a graph has these job digests once a list was read.
fn has_jobs(rt: &HostRuntime, case: &Jobs<'_>) -> bool {
    let (text, list, wanted) = *case;
    match tabs(rt, text) {
        Ok(mut graph) => count(rt.alloc(), &mut graph, list) && are_jobs(&graph, wanted),
        Err(_) => false,
    }
}

/// The job digests of the two edges with log2m 4, seed 0, two partitions and a limit of 4096:
/// SHA-256, by another program, of the 47 bytes 48424a31 04 0000000000000000 0002 00001000 00000003
/// 0000000000000002 00000000 00000001 00000001 00000002; and with corrected estimates, of those
/// with 48424331 at the front.
const TWO_EDGES_DIGESTS: [[u8; 32]; 2] = [
    [
        0xe4, 0x87, 0x78, 0x82, 0x8d, 0xfe, 0xa5, 0x0f, 0x8c, 0x6f, 0x4c, 0x3f, 0x13, 0xc9, 0x4f,
        0xf2, 0xeb, 0xd3, 0x33, 0xd7, 0xa4, 0x76, 0x10, 0x77, 0x8d, 0x84, 0xb6, 0xc7, 0xed, 0x7a,
        0x08, 0xd3,
    ],
    [
        0x22, 0xae, 0x45, 0xe3, 0xf6, 0x0d, 0x10, 0x30, 0x30, 0x1f, 0xbe, 0xb0, 0xf2, 0x80, 0xd5,
        0x10, 0xe2, 0x9c, 0x3c, 0x9d, 0xb9, 0x57, 0x5b, 0x4c, 0x4c, 0xa2, 0xd4, 0xf1, 0x76, 0x45,
        0xdc, 0xb3,
    ],
];

/// The job digests if just the first vertex is counted: of the 55 bytes 48424a32 04
/// 0000000000000000 0002 00001000 00000003 0000000000000002 00000000 00000001 00000001 00000002
/// 00000001 00000000, and of those with 48424332 at the front.
const FIRST_DIGESTS: [[u8; 32]; 2] = [
    [
        0x4a, 0xd0, 0xa0, 0xb2, 0x4d, 0xcc, 0xb6, 0x39, 0x31, 0x4c, 0x0e, 0xca, 0x5b, 0x2c, 0xbd,
        0x21, 0xec, 0x52, 0x0b, 0x6f, 0x4a, 0x74, 0x5c, 0x46, 0x6d, 0x5d, 0x0b, 0x42, 0x93, 0x61,
        0x61, 0x45,
    ],
    [
        0x03, 0x5f, 0x92, 0x0d, 0x9f, 0x96, 0xb4, 0x04, 0x86, 0xa6, 0xf2, 0x44, 0x04, 0x2c, 0x41,
        0xf8, 0x10, 0x7a, 0x09, 0x15, 0x96, 0xcb, 0xb5, 0x4b, 0x12, 0xe7, 0x09, 0x3b, 0x7f, 0xd8,
        0xe1, 0xb3,
    ],
];

// An edge that is there twice is one, and a list of all vertices is none.
static JOBS: [Jobs<'static>; 3] = [
    (b"a\tb\nb\tc\na\tb\n", None, TWO_EDGES_DIGESTS),
    (TWO_EDGES, Some(b"a\nb\nc\na"), TWO_EDGES_DIGESTS),
    (TWO_EDGES, Some(b"a"), FIRST_DIGESTS),
];

// Whether all have these job digests.
fn have_jobs(rt: &HostRuntime) -> bool {
    let mut right = true;
    for case in &JOBS {
        right &= has_jobs(rt, case);
    }
    right
}

#[test]
fn job_digests(rt: HostRuntime) {
    assert!(rt; have_jobs(&rt));
}
