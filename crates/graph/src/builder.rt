//! Graphs that are made of labels and edges, one after another.

ghost use Rattle.std.specs.Prelude.{◌≡◌, ◌+◌, ◌^◌, ◌≤◌, ◌<◌, ◌⊎◌, ◌++◌, ◌∷◌, [], Err};
ghost use Rattle.std.specs.Prelude.{IsErr, IfErr, IfOk, OnOk, OnErr, List, length, take};
ghost use Rattle.graph.specs.Edges.{graph_of_edges};
ghost use Rattle.graph.specs.Finding.{StandsAt};
ghost use Rattle.graph.specs.Labels.{texts, with_label};
ghost use Rattle.graph.specs.Making.{AddsEdge, HasNoPlace, LacksPlaces};
ghost use Rattle.graph.specs.declared.edge.Edge.{Edge};
ghost use Rattle.graph.specs.declared.builder.BuildError.TheVariants as fault;

use crate::edge::Edge;
use crate::graph::Graph;
use crate::labels::{Labels, find_label, insert_label};
use ball_model::plan::MOST_VERTICES;
use indexmap::IndexSet;
use std::alloc::{AllocError, Global};
use std::hash::RandomState;
use std::marker::Model;
use thiserror::Error;

// The most edges of a graph.
const MOST_EDGES: usize = 4_294_967_295;

/// Why a vertex or an edge is not added.
#[derive(Clone, Copy, Debug, PartialEq, Eq, Error)]
pub enum BuildError {
    /// There would be more than 2^31 vertices.
    #[error("too many vertices")]
    TooManyVertices,
    /// There would be more than 2^32 - 1 edges, each counted as often as it was added.
    #[error("too many edges")]
    TooManyEdges,
    /// Memory was refused.
    #[error("out of memory")]
    Memory,
}

impl From<AllocError> for BuildError {
    ghost from_gives = { λ _ e. e ≡ fault.Memory };

    fn from(_error: AllocError) -> BuildError {
        BuildError::Memory
    }
}

/// Labels, numbered from 0 by first appearance, and edges between them.
#[derive(Drop)]
pub struct GraphBuilder {
    labels: IndexSet<Vec<u8>, RandomState>,
    edges: Vec<Edge>,
}

impl Model for GraphBuilder {
    ghost use Rattle.graph.specs.Labels.{texts};
    ghost use Rattle.graph.specs.Making.{Built, CanBeBuilt};

    ghost Value = { Built };

    ghost view = { λ b. record { labels = texts b.labels; edges = b.edges.items } };

    ghost invariant = { λ b. CanBeBuilt (texts b.labels) b.edges.items };
}

// The number of a label, which takes the next one if it is new.
fn number_of(
    alloc: Global,
    labels: &mut IndexSet<Vec<u8>, RandomState>,
    label: &[u8],
) -> Result<u32, BuildError>
    requires { length (texts labels.old) ≤ 2 ^ 31 }
    ensures number { IfOk result (StandsAt (texts labels.new) label.now) }
    ensures labels { OnOk result (texts labels.new ≡ with_label (texts labels.old) label.now) }
    ensures within { length (texts labels.new) ≤ 2 ^ 31 }
    ensures kept { OnErr result (texts labels.new ≡ texts labels.old) }
    ensures full { HasNoPlace (texts labels.old) label.now → result ≡ Err fault.TooManyVertices }
    ensures only { IfErr result (λ e. (e ≡ fault.Memory)
        ⊎ ((e ≡ fault.TooManyVertices) × HasNoPlace (texts labels.old) label.now)) }
{
    match find_label(labels, label) {
        Some(number) => Ok(number as u32),
        None => {
            if MOST_VERTICES as usize <= labels.len() {
                return Err(BuildError::TooManyVertices);
            }
            Ok(insert_label(alloc, labels, label)? as u32)
        }
    }
}

// The edge between the vertices with these labels, which take the next numbers if they are new.
fn edge_between(
    alloc: Global,
    labels: &mut IndexSet<Vec<u8>, RandomState>,
    source: &[u8],
    target: &[u8],
) -> Result<Edge, BuildError>
    requires { length (texts labels.old) ≤ 2 ^ 31 }
    ensures edge { IfOk result (λ e. (edges : List Edge) → AddsEdge source.now target.now
        (texts labels.old) edges (texts labels.new) (edges ++ e ∷ [])) }
    ensures within { length (texts labels.new) ≤ 2 ^ 31 }
    ensures longer { take (length (texts labels.old)) (texts labels.new) ≡ texts labels.old }
    ensures full { LacksPlaces (texts labels.old) source.now target.now → IsErr result }
    ensures only { IfErr result (λ e. (e ≡ fault.Memory) ⊎ ((e ≡ fault.TooManyVertices)
        × LacksPlaces (texts labels.old) source.now target.now)) }
{
    let source = number_of(alloc, labels, source)?;
    let target = number_of(alloc, labels, target)?;
    Ok(Edge { source, target })
}

impl GraphBuilder {
    /// No labels and no edges.
    pub fn new(alloc: Global, state: RandomState) -> GraphBuilder
        ensures labels { result.labels ≡ [] }
        ensures edges { result.edges ≡ [] }
    {
        GraphBuilder {
            labels: IndexSet::with_hasher(alloc, state),
            edges: Vec::new(alloc),
        }
    }

    /// The number of the vertex with this label, which takes the next one if it is new. It is refused if there are 2^31
    /// others, and then if memory is; either leaves the builder as it was.
    pub fn vertex(&mut self, alloc: Global, label: &[u8]) -> Result<u32, BuildError>
        ensures number { IfOk result (StandsAt self.new.labels label.now) }
        ensures labels { OnOk result (self.new.labels ≡ with_label self.old.labels label.now) }
        ensures edges { self.new.edges ≡ self.old.edges }
        ensures kept { OnErr result (self.new ≡ self.old) }
        ensures full { HasNoPlace self.old.labels label.now → result ≡ Err fault.TooManyVertices }
        ensures only { IfErr result (λ e. (e ≡ fault.Memory)
            ⊎ ((e ≡ fault.TooManyVertices) × HasNoPlace self.old.labels label.now)) }
    {
        number_of(alloc, &mut self.labels, label)
    }

    /// Adds an edge between the vertices with these labels, which take the next numbers if they are new. It is refused
    /// if there are 2^32 - 1 edges, then if one of the vertices is one too many, or memory is refused; each of these
    /// leaves the builder as it was.
    pub fn edge(&mut self, alloc: Global, source: &[u8], target: &[u8]) -> Result<(), BuildError>
        ensures adds { OnOk result (AddsEdge source.now target.now
            self.old.labels self.old.edges self.new.labels self.new.edges) }
        ensures kept { OnErr result (self.new ≡ self.old) }
        ensures many { 2 ^ 32 ≤ length self.old.edges + 1 → result ≡ Err fault.TooManyEdges }
        ensures full { LacksPlaces self.old.labels source.now target.now → IsErr result }
        ensures only { IfErr result (λ e. (e ≡ fault.Memory)
            ⊎ ((e ≡ fault.TooManyEdges) × (2 ^ 32 ≤ length self.old.edges + 1))
            ⊎ ((e ≡ fault.TooManyVertices)
            × LacksPlaces self.old.labels source.now target.now)) }
    {
        if MOST_EDGES <= self.edges.len() {
            return Err(BuildError::TooManyEdges);
        }
        self.edges.reserve(1)?;
        let count = self.labels.len();
        match edge_between(alloc, &mut self.labels, source, target) {
            Ok(edge) => {
                self.edges.push_reserved(edge);
                Ok(())
            }
            Err(fault) => {
                self.labels.truncate(count);
                Err(fault)
            }
        }
    }

    /// The graph of these labels and edges, each of which it has once. Every vertex is counted. The error is that
    /// memory was refused.
    pub fn finish(self, alloc: Global) -> Result<Graph, AllocError>
        ensures graph { IfOk result (λ g.
            g.graph ≡ graph_of_edges (length self.labels) self.edges) }
        ensures labels { IfOk result (λ g. g.labels ≡ self.labels) }
    {
        let GraphBuilder { labels, edges } = self;
        let labels = Labels::of(alloc, labels.as_slice())?;
        Graph::of_edges(alloc, labels, edges)
    }
}
