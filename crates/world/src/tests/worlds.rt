//! Worlds of small graphs.

use super::*;
use ball_model::{CountingReader, NodeId};
use edgelist::{Delimiter, EdgeLimits, Graph, read_edges};
use std::hash::RandomState;

pub(crate) const TWO_EDGES: &[u8] = b"a\tb\nb\tc\n";

pub(crate) const B: NodeId = NodeId {
    part: 1,
    replica: 0,
};

/// The graph of an edge list with tabs.
pub(crate) fn graph_of(rt: &HostRuntime, text: &[u8]) -> Option<Graph> {
    let limits = EdgeLimits {
        vertices: 100,
        edges: 100,
    };
    let state = RandomState::new(rt).ok()?;
    let mut reader = CountingReader::new(text);
    read_edges(rt.alloc(), state, &mut reader, Delimiter::Tab, limits).ok()
}

/// The world of a graph.
fn world_in(rt: &HostRuntime, graph: &Graph, parts: u16, replicas: u8) -> Option<World> {
    let plan = graph.plan(4, 0, parts, 4096).ok()?;
    World::new(rt.alloc(), graph, &plan, replicas).ok()
}

/// The world of an edge list with tabs.
pub(crate) fn world_of(rt: &HostRuntime, text: &[u8], parts: u16, replicas: u8) -> Option<World> {
    world_in(rt, &graph_of(rt, text)?, parts, replicas)
}
