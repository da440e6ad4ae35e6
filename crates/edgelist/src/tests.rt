//! What no clause says: worked edge lists, digests, and readers that fail.

mod counting;
mod damage;
mod labels;
mod large;
mod parts;
mod pieces;
mod reading;
mod refusals;
mod rounds;

ghost use Rattle.std.specs.Prelude.{None};

use crate::{
    CountedError, Delimiter, EdgeError, EdgeLimits, EdgeList, EdgeReader, Graph, Part,
    read_edge_list, read_edges, read_large_edge_list,
};
use ball_model::{CountingReader, Estimate, Plan, PlanError};
use graph::Preds;
use sha2::{Digest, Sha256};
use std::alloc::Global;
use std::fmt::Display;
use std::hash::RandomState;
use std::io;
use std::io::{ErrorKind, Read};

/// No limits but those that are always in force.
const NO_LIMITS: EdgeLimits = EdgeLimits {
    vertices: u32::MAX,
    edges: u64::MAX,
};

/// Two edges, with tabs.
const TWO_EDGES: &[u8] = b"a\tb\nb\tc\n";

/// The lines of their graph, as `shown` has them.
const TWO_LINES: &[u8] = b"a\nb 0\nc 1\n";

/// A reader that gives at most `step` bytes at a time, and of which `good` calls succeed.
#[derive(Drop)]
struct Stepping<'a> {
    bytes: &'a [u8],
    step: usize,
    good: u64,
}

impl<'a> Read for Stepping<'a> {
    ghost remaining = { λ r. None };

    fn read(&mut self, buf: &mut [u8]) -> io::Result<usize> {
        if self.good == 0 {
            return Err(io::Error::from(ErrorKind::Other));
        }
        self.good -= 1;
        let most = self.step.min(buf.len());
        Read::read(&mut self.bytes, &mut buf[..most])
    }
}

/// Gives all bytes at once.
fn at_once<'a>(bytes: &'a [u8]) -> Stepping<'a> {
    Stepping {
        bytes,
        step: usize::MAX,
        good: u64::MAX,
    }
}

/// Reads an edge list.
fn read(
    rt: &HostRuntime,
    reader: Stepping<'_>,
    delimiter: Delimiter,
    limits: EdgeLimits,
) -> Result<Graph, EdgeError> {
    match RandomState::new(rt) {
        Ok(state) => {
            let mut reader = CountingReader::new(reader);
            read_edges(rt.alloc(), state, &mut reader, delimiter, limits)
        }
        Err(_) => Err(EdgeError::Memory),
    }
}

/// Reads an edge list with tabs.
fn tabs(rt: &HostRuntime, text: &[u8]) -> Result<Graph, EdgeError> {
    read(rt, at_once(text), Delimiter::Tab, NO_LIMITS)
}

/// The last digit of a number.
fn digit(v: u32) -> u8 {
    b'0' + (v % 10) as u8
}

/// Adds a line for a vertex: its label, and a space and the last digit of each predecessor.
fn add_line(hasher: &mut Sha256, label: &[u8], preds: Preds<'_>) {
    hasher.update(label);
    for y in preds {
        hasher.update(&[b' ', digit(y)]);
    }
    hasher.update(b"\n");
}

/// The hash of the lines of a graph, one for each vertex.
fn shown(graph: &Graph) -> [u8; 32] {
    let mut hasher = Sha256::new();
    for v in 0..graph.vertices() {
        add_line(&mut hasher, graph.label(v), graph.preds(v));
    }
    hasher.finalize()
}

/// A text in pieces, each with how often it is repeated.
type Pieces<'a> = &'a [(&'a [u8], usize)];

/// The hash of a text.
fn hash(pieces: Pieces<'_>) -> [u8; 32] {
    let mut hasher = Sha256::new();
    for (piece, count) in pieces {
        for _ in 0..*count {
            hasher.update(*piece);
        }
    }
    hasher.finalize()
}

/// What an edge list is read as: the hash of its graph's lines, or an error.
type Told = Result<[u8; 32], EdgeError>;

/// What an edge list that a reader gives is read as.
fn told(rt: &HostRuntime, reader: Stepping<'_>, delimiter: Delimiter, limits: EdgeLimits) -> Told {
    match read(rt, reader, delimiter, limits) {
        Ok(graph) => Ok(shown(&graph)),
        Err(e) => Err(e),
    }
}

/// What is wanted, with the lines in pieces.
fn told_of(wanted: Result<Pieces<'_>, EdgeError>) -> Told {
    match wanted {
        Ok(lines) => Ok(hash(lines)),
        Err(e) => Err(e),
    }
}

/// Whether these are the predecessors.
fn are_preds(mut preds: Preds<'_>, wanted: &[u32]) -> bool {
    let mut right = true;
    for y in wanted {
        right &= preds.next() == Some(*y);
    }
    right && preds.next() == None
}

/// Counts just the vertices of a list, if there is one. False: the list was refused.
fn count(alloc: Global, graph: &mut Graph, list: Option<&[u8]>) -> bool {
    match list {
        Some(list) => graph.count_only(alloc, Delimiter::Tab, list) == Ok(()),
        None => true,
    }
}

/// The plan over a graph but for its digest, with log2m 4, seed 0, `parts` partitions and a limit
/// of 4096.
fn bare_plan(
    graph: &Graph,
    parts: u16,
    estimate: Estimate,
    large: bool,
) -> Result<Plan, PlanError> {
    let vertices = graph.vertices();
    let raw = if large {
        Plan::large(4, 0, parts, 4096, vertices, [0; 32])?
    } else {
        Plan::new(4, 0, parts, 4096, vertices, [0; 32])?
    };
    match estimate {
        Estimate::Raw => Ok(raw),
        Estimate::Corrected => Ok(raw.corrected([0; 32])),
    }
}

/// Part `p` of a graph, by a plan with `parts` partitions.
fn part_of(alloc: Global, graph: &Graph, parts: u16, p: u16) -> Option<Part> {
    let Ok(plan) = graph.plan(4, 0, parts, 4096) else {
        return None;
    };
    if p >= plan.parts() {
        return None;
    }
    graph.part(alloc, &plan, p).ok()
}

/// The texts of the errors of edge lists.
static EDGE_TEXTS: [(EdgeError, &str); 5] = [
    (EdgeError::Read, "the edge list cannot be read"),
    (EdgeError::TooManyEdges, "too many records"),
    (
        EdgeError::Fields { number: 2 },
        "record 2 has not one or two identifiers",
    ),
    (EdgeError::TooManyVertices, "too many vertices"),
    (EdgeError::Memory, "out of memory"),
];

/// The texts of the errors of lists of counted vertices.
static LIST_TEXTS: [(CountedError, &str); 3] = [
    (
        CountedError::Fields { number: 2 },
        "record 2 of the list is not one identifier",
    ),
    (
        CountedError::Unknown { number: 3 },
        "record 3 of the list names no vertex",
    ),
    (CountedError::Memory, "out of memory"),
];

/// Whether an error has this text.
fn has_text<E: Display>(alloc: Global, error: &E, text: &str) -> bool {
    match format!(in alloc; "{error}") {
        Ok(told) => told.as_str() == text,
        Err(_) => false,
    }
}

/// Whether each of these errors has its text.
fn have_texts<E: Display>(alloc: Global, texts: &[(E, &str)]) -> bool {
    let mut right = true;
    for (error, text) in texts {
        right &= has_text(alloc, error, *text);
    }
    right
}

#[test]
fn error_texts(rt: HostRuntime) {
    let alloc = rt.alloc();
    assert!(rt; have_texts(alloc, &EDGE_TEXTS) && have_texts(alloc, &LIST_TEXTS));
}
