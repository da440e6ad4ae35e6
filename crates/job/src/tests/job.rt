//! Options of jobs, from an edge list to a plan.

use super::*;

// The network of an edge list and a list.
fn network(
    rt: &HostRuntime,
    job: &JobOptions,
    edges: &[u8],
    list: Option<&[u8]>,
) -> Result<EdgeList, NetworkError> {
    let Ok(state) = RandomState::new(rt) else {
        return Err(NetworkError::Edges(EdgeError::Memory));
    };
    let mut reader = CountingReader::new(edges);
    job.read_network(rt.alloc(), state, &mut reader, list)
}

// Whether these are the numbers of the plan over a graph, in both its forms.
fn has_plan(job: &JobOptions, graph: &Graph) -> bool {
    let (Ok(plan), Ok(bare)) = (job.plan(graph), job.bare_plan(graph)) else {
        return false;
    };
    let numbers = (plan.log2m(), plan.seed(), plan.parts(), plan.limit());
    let signed = plan.is_corrected() && plan.job() == graph.digest(&bare);
    numbers == (4, 7, 2, 9) && signed && bare.job() == [0; 32]
}

// An edge list, a list of counted vertices, and how many records there are and the digits of the
// vertices that are counted, or the error.
type Case<'a> = (
    &'a [u8],
    Option<&'a [u8]>,
    Result<(u64, &'a [u8]), NetworkError>,
);

// Whether a network is read as wanted, and has its plan.
fn is_read(rt: &HostRuntime, job: &JobOptions, case: &Case<'_>) -> bool {
    let (edges, list, wanted) = *case;
    match (&network(rt, job, edges, list), wanted) {
        (Ok(read), Ok((records, counted))) => {
            read.records == records && counts(&read.graph, counted) && has_plan(job, &read.graph)
        }
        (Err(fault), Err(wanted)) => *fault == wanted,
        _ => false,
    }
}

use CountedError::Unknown;
use EdgeError::Fields;
use NetworkError::{Counted, Edges};

// The list is looked at after the edge list.
static CASES: [Case<'static>; 5] = [
    (TWO_EDGES, None, Ok((2, b"012"))),
    (TWO_EDGES, Some(b"c\n"), Ok((2, b"2"))),
    (TWO_EDGES, Some(b""), Ok((2, b""))),
    (
        TWO_EDGES,
        Some(b"a\nz"),
        Err(Counted(Unknown { number: 2 })),
    ),
    (b"a\t\n", Some(b"z"), Err(Edges(Fields { number: 1 }))),
];

// Whether all are, of usual and of large edge lists.
fn are_read(rt: &HostRuntime) -> bool {
    let mut right = true;
    for case in &CASES {
        right &= is_read(rt, &options(false, 0), case) && is_read(rt, &options(true, 0), case);
    }
    right
}

#[test]
fn networks_and_plans(rt: HostRuntime) {
    assert!(rt; are_read(&rt));
}
