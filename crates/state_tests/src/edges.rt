//! Graphs of edge lists with tabs, for the tests of more than one crate.

use graph::{Graph, GraphBuilder};
use std::alloc::Global;
use std::hash::RandomState;
use std::random::RandomSource;

/// Adds the vertex or the edge of a line.
fn add_line(alloc: Global, builder: &mut GraphBuilder, line: &[u8]) -> Option<()> {
    match line.iter().position(|byte| *byte == b'\t') {
        Some(tab) => builder.edge(alloc, &line[..tab], &line[tab + 1..]).ok(),
        None => {
            if !line.is_empty() {
                builder.vertex(alloc, line).ok()?;
            }
            Some(())
        }
    }
}

/// The graph of an edge list, or None if memory is refused.
pub(crate) fn graph_of<H: AllocGlobal + RandomSource>(rt: &H, text: &[u8]) -> Option<Graph> {
    let alloc = rt.alloc();
    let mut builder = GraphBuilder::new(alloc, RandomState::new(rt).ok()?);
    for line in text.split(|byte| *byte == b'\n') {
        add_line(alloc, &mut builder, line)?;
    }
    builder.finish(alloc).ok()
}
