//! Graphs whose vertices have labels.

ghost use Rattle.std.specs.Prelude.{◌≡◌, ◌^◌, ◌<◌, ◌≤◌, length, map, slice_index_or, IfOk, IfErr};
ghost use Rattle.std.specs.Prelude.{OnOk, OnErr, Ok, Err, IsOk, []};
ghost use Rattle.std.specs.Arc.{arc_value};
ghost use Rattle.std.specs.List.{All, range_with_len, sum_by};
ghost use Rattle.gapcode.specs.Lists.{AreAscending};
ghost use Rattle.ball_model.specs.Graph.{IsGraph, is_counted, preds_of};
ghost use Rattle.ball_model.specs.PlanValue.{vertices_of, most_vertices};
ghost use Rattle.ball_model.specs.Counting.{counted_of};
ghost use Rattle.ball_model.specs.Input.{IsPlain};
ghost use Rattle.graph.specs.Counting.{RefusesList, with_marks};
ghost use Rattle.graph.specs.Records.{byte_of};
ghost use Rattle.graph.specs.Edges.{graph_of_edges, source_lists, AllBelow};
ghost use Rattle.graph.specs.Links.{graph_of_lists};

use crate::build::lists_of;
use crate::codes::{Shares, lists_of_by};
use crate::counting::{CountedError, count_marks, marks_of, vertex_mark};
use crate::delimiter::Delimiter;
use crate::edge::Edge;
use crate::labels::Labels;
use crate::lists::{PredLists, Preds};
use gapcode::Lists;
use std::alloc::{AllocError, Global};
use std::marker::Model;
use std::sync::Arc;
use std::thread::Threads;

/// A graph: for each vertex its predecessors, ascending, its label, and whether it is counted.
///
/// It takes a gap code for each edge, which is one or two bytes if the predecessors of a vertex are near one another,
/// and for each vertex 8 bytes and its label; and a byte more once only some vertices are counted.
pub struct Graph {
    lists: Arc<PredLists>,
    labels: Labels,
    marks: Vec<bool>,
    number: u32,
}

impl Model for Graph {
    ghost use Rattle.std.specs.Arc.{arc_value};
    ghost use Rattle.ball_model.specs.Input.{Network};
    ghost use Rattle.graph.specs.Links.{graph_of, AreLinks};

    ghost Value = { Network };

    ghost view = { λ g. record {
      graph = graph_of (arc_value g.lists) g.marks.items;
      labels = g.labels;
    } };

    ghost invariant = { λ g. AreLinks g.labels (arc_value g.lists) g.marks.items g.number };
}

// Written out, since the checker reads a derived drop anew wherever a graph is dropped.
impl Drop for Graph {
    fn drop(self) {
        let Graph {
            lists: _,
            labels: _,
            marks: _,
            number: _,
        } = self;
    }
}

// The sources of the edges with each target, to be shared.
fn shared_lists_of(
    alloc: Global,
    edges: Vec<Edge>,
    count: u32,
) -> Result<Arc<PredLists>, AllocError>
    requires below { AllBelow count edges.items }
    requires few { length edges.items < 2 ^ 32 }
    ensures { IfOk result (λ lists. arc_value lists ≡ source_lists count edges.items) }
{
    let lists = Arc::new(alloc, lists_of(alloc, edges, count)?)?;
    Ok(lists)
}

// The same, by several threads.
fn shared_lists_of_by<R: Threads + Sync>(
    rt: &R,
    alloc: Global,
    edges: Vec<Edge>,
    count: u32,
    threads: usize,
) -> Result<Arc<PredLists>, AllocError>
    requires below { AllBelow count edges.items }
    requires few { length edges.items < 2 ^ 32 }
    ensures { IfOk result (λ lists. arc_value lists ≡ source_lists count edges.items) }
{
    let shares = Shares::by(threads);
    let lists = Arc::new(alloc, lists_of_by(rt, alloc, edges, count, shares)?)?;
    Ok(lists)
}

impl Graph {
    /// The graph of edges, with these labels. Every vertex is counted.
    pub fn of_edges(alloc: Global, labels: Labels, edges: Vec<Edge>) -> Result<Graph, AllocError>
        requires below { AllBelow (length labels) edges.items }
        requires few_labels { length labels ≤ most_vertices }
        requires few_edges { length edges.items < 2 ^ 32 }
        ensures graph { IfOk result (λ g. g.graph ≡ graph_of_edges (length labels) edges.items) }
        ensures labels { IfOk result (λ g. g.labels ≡ labels) }
    {
        let number = labels.len() as u32;
        let lists = shared_lists_of(alloc, edges, number)?;
        Ok(Graph {
            lists,
            labels,
            marks: Vec::new(alloc),
            number,
        })
    }

    /// Makes what [`Graph::of_edges`] makes, by several threads.
    pub fn of_edges_by<R: Threads + Sync>(
        rt: &R,
        alloc: Global,
        labels: Labels,
        edges: Vec<Edge>,
        threads: usize,
    ) -> Result<Graph, AllocError>
        requires below { AllBelow (length labels) edges.items }
        requires few_labels { length labels ≤ most_vertices }
        requires few_edges { length edges.items < 2 ^ 32 }
        ensures graph { IfOk result (λ g. g.graph ≡ graph_of_edges (length labels) edges.items) }
        ensures labels { IfOk result (λ g. g.labels ≡ labels) }
    {
        let number = labels.len() as u32;
        let lists = shared_lists_of_by(rt, alloc, edges, number, threads)?;
        Ok(Graph {
            lists,
            labels,
            marks: Vec::new(alloc),
            number,
        })
    }

    /// The graph of lists of predecessors, one a vertex, which have `edges` elements together. Every vertex is counted.
    /// Labels may repeat. Nothing is sorted or copied; the error is that memory was refused.
    pub fn of_lists(
        alloc: Global,
        labels: Labels,
        lists: Lists,
        edges: u64,
    ) -> Result<Graph, AllocError>
        requires ascend { AreAscending (length lists) lists }
        requires as_many { length labels ≡ length lists }
        requires few_labels { length labels ≤ most_vertices }
        requires edges { edges ≡ sum_by length lists }
        requires few_edges { edges < 2 ^ 32 }
        ensures graph { IfOk result (λ g. g.graph ≡ graph_of_lists lists) }
        ensures preds { IfOk result (λ g.
            map (preds_of g.graph) (range_with_len 0 g.graph.vertices) ≡ lists) }
        ensures labels { IfOk result (λ g. g.labels ≡ labels) }
    {
        let vertices = labels.len() as u32;
        let lists = PredLists::of(lists, edges as usize);
        Ok(Graph {
            lists: Arc::new(alloc, lists)?,
            labels,
            marks: Vec::new(alloc),
            number: vertices,
        })
    }

    /// The number of vertices.
    pub fn vertices(&self) -> u32
        ensures count { result ≡ self.now.graph.vertices }
        ensures labels { length self.now.labels ≡ self.now.graph.vertices }
        ensures graph { IsGraph self.now.graph }
        ensures few { self.now.graph.vertices ≤ most_vertices }
        ensures few_edges { length self.now.graph.edges < 2 ^ 32 }
    {
        self.lists.len() as u32
    }

    /// The number of edges.
    pub fn edges(&self) -> u64
        ensures { result ≡ length self.now.graph.edges }
    {
        self.lists.total() as u64
    }

    /// The label of a vertex, as it is in the edge list.
    pub fn label(&self, v: u32) -> &[u8]
        requires { v < self.now.graph.vertices }
        ensures { result.now ≡ slice_index_or self.now.labels v [] }
    {
        self.labels.label(v as usize)
    }

    /// The vertices with an edge to `v`, ascending.
    pub fn preds(&self, v: u32) -> Preds<'_>
        requires { v < self.now.graph.vertices }
        ensures value { result ≡ preds_of self.now.graph v }
        ensures below { All (λ y. y < self.now.graph.vertices) result }
    {
        self.lists.list(v as usize)
    }

    /// Another owner of the lists of predecessors, which are not copied.
    pub(crate) fn shared_lists(&self) -> Result<Arc<PredLists>, AllocError>
        ensures { IfOk result (λ lists. arc_value lists ≡ map
            (λ x. preds_of self.now.graph x) (vertices_of self.now.graph.vertices 1 0)) }
    {
        let lists = Arc::try_clone(&self.lists)?;
        Ok(lists)
    }

    /// Whether balls count this vertex. All vertices of an edge list are counted until a list names some.
    pub fn counted(&self, v: u32) -> bool
        requires { v < self.now.graph.vertices }
        ensures { result ≡ is_counted self.now.graph v }
    {
        vertex_mark(&self.marks, v as usize)
    }

    // Counts only the marked vertices. An error in place of the marks is returned, and then nothing changes.
    fn count_marked(&mut self, marks: Result<Vec<bool>, CountedError>) -> Result<(), CountedError>
        requires size { IfOk marks (λ m. length m.items ≡ length self.old.labels) }
        requires few { length self.old.labels ≤ most_vertices }
        ensures ok { IfOk marks (λ _. IsOk result) }
        ensures counts { IfOk marks (λ m. self.new ≡ with_marks self.old m.items) }
        ensures fault { IfErr marks (λ e. result ≡ Err e) }
        ensures kept { IfErr marks (λ _. self.new ≡ self.old) }
    {
        let marks = marks?;
        self.number = count_marks(&marks);
        self.marks = marks;
        Ok(())
    }

    /// Counts only the vertices whose labels a list names, in place of those that were counted before. Where labels
    /// repeat, a name is that of all vertices with the label.
    ///
    /// The list is read as an edge list is: with the same lines, comments and numbers of records. Each record is one
    /// identifier; to name one twice changes nothing. An error leaves the graph as it was, and is that of the first
    /// record at which a check fails: `Fields` if the record is not one field, or an empty one, and `Unknown` if it
    /// names no vertex.
    ///
    /// Plans that were made before are of another job. It takes 5 bytes a vertex, of which one stays, and time in
    /// proportion to n log n of the n vertices, for sorting their numbers by label, and to the list.
    pub fn count_only(
        &mut self,
        alloc: Global,
        delimiter: Delimiter,
        list: &[u8],
    ) -> Result<(), CountedError>
        ensures ok { IsPlain list.now →
            OnOk result (counted_of (byte_of delimiter) self.old list.now ≡ Ok self.new) }
        ensures refused { IsPlain list.now →
            IfErr result (RefusesList (counted_of (byte_of delimiter) self.old list.now)) }
        ensures labels { self.new.labels ≡ self.old.labels }
        ensures vertices { self.new.graph.vertices ≡ self.old.graph.vertices }
        ensures edges { self.new.graph.edges ≡ self.old.graph.edges }
        ensures kept { OnErr result (self.new ≡ self.old) }
    {
        let marks = marks_of(alloc, &self.labels, delimiter, list);
        self.count_marked(marks)
    }

    /// The number of counted vertices.
    pub fn counted_count(&self) -> u32
        ensures { result ≡ length self.now.graph.counted }
    {
        self.number
    }
}
