//! What no clause says: the bytes of worked replicas, streams that fail, and refused memory.

mod damage;
mod failing;
mod reading;
mod refusals;
mod worked;
mod writing;

use crate::edges::graph_of;
use checkpoint::laws;
use damage::are_told;
use failing::{VERTICES, are_cut, many_are_cut};
use graph::{Graph, Part};
use reading::{early_is_read, edges_are_read};
use replica::Replica;
use std::sync::Arc;
use worked::{TWO_EARLY, TWO_EDGES};

/// One of the `parts` parts of a graph, at 16 registers under seed 0.
fn part_in(rt: &HostRuntime, graph: &Graph, parts: u16, partition: u16) -> Option<Arc<Part>> {
    let plan = graph.plan(4, 0, parts, 4096).ok()?;
    if partition >= plan.parts() {
        return None;
    }
    let part = graph.part(rt.alloc(), &plan, partition).ok()?;
    Arc::new(rt.alloc(), part).ok()
}

/// One of the `parts` parts of the graph of an edge list.
fn part_of(rt: &HostRuntime, text: &[u8], parts: u16, partition: u16) -> Option<Arc<Part>> {
    let graph = graph_of(rt, text)?;
    part_in(rt, &graph, parts, partition)
}

/// The one part of the edges a to b and b to c.
fn whole(rt: &HostRuntime) -> Option<Arc<Part>> {
    part_of(rt, b"a\tb\nb\tc\n", 1, 0)
}

/// The second of two parts of the path of five vertices.
fn half(rt: &HostRuntime) -> Option<Arc<Part>> {
    part_of(rt, b"a\tb\nb\tc\nc\td\nd\te\n", 2, 1)
}

/// A new replica of a part. (Tests hold replicas in boxes: a function that owns one is checked much faster.)
fn replica_of(rt: &HostRuntime, part: &Arc<Part>) -> Option<Box<Replica>> {
    let replica = Replica::new(rt.alloc(), part.clone().ok()?).ok()?;
    Box::new(rt.alloc(), replica).ok()
}

/// Whether the checkpoints of the two edges are right: read whole, cut, damaged, and written into writers that fail.
fn edges_hold(rt: &HostRuntime, part: &Arc<Part>) -> bool {
    edges_are_read(rt, part) && are_told(rt, part) && are_cut(rt, part, &TWO_EDGES)
}

/// Whether those with early batches are.
fn early_holds(rt: &HostRuntime, part: &Arc<Part>) -> bool {
    early_is_read(rt, part) && are_cut(rt, part, &TWO_EARLY)
}

/// Whether both are, and a replica that is written in pieces is cut by each failing call.
fn all_hold(rt: &HostRuntime) -> Option<bool> {
    let both = edges_hold(rt, &whole(rt)?) && early_holds(rt, &half(rt)?);
    Some(both && many_are_cut(rt, &part_of(rt, VERTICES, 1, 0)?))
}

#[test]
fn worked_checkpoints(rt: HostRuntime) {
    assert!(rt; all_hold(&rt) == Some(true));
}

#[test]
fn laws_are_called() {
    laws::text_is_one();
    laws::first_text_tells_rest();
    laws::versions_differ();
    laws::without_names_stands();
}
