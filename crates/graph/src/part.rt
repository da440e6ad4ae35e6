//! What a partition has of its graph.

ghost use Rattle.std.specs.Prelude.{◌≡◌, ◌+◌, ◌*◌, ◌^◌, ◌<◌, ◌≤◌, ◌++◌, ◌∷◌, [], ℕ, false};
ghost use Rattle.std.specs.Prelude.{length, map, slice_index, slice_index_or, IfOk, OnOk, Ok};
ghost use Rattle.std.specs.Arc.{arc_value};
ghost use Rattle.std.specs.List.{All, range_with_len, sum_by};
ghost use Rattle.gapcode.specs.Lists.{AscendsFrom};
ghost use Rattle.ball_model.specs.Graph.{preds_of, is_counted};
ghost use Rattle.ball_model.specs.PlanValue.{vertices_of, part_size};
ghost use Rattle.ball_model.specs.Job.{Job, IsPart, feed_mask, feeds_into, job_of, part_of};
ghost use Rattle.ball_model.specs.Masks.{has_bit};
ghost use Rattle.graph.specs.Feeding.{masks_of, feeds_of};
ghost use Rattle.ball_model.specs.Job.{digest_of};

use crate::feeds::{Feeds, Stride, feeds_over};
use crate::graph::Graph;
use crate::lists::{PredLists, Preds};
use crate::masks::Masks;
use ball_model::Plan;
use gapcode::ListsBuilder;
use std::alloc::{AllocError, Global};
use std::marker::Model;
use std::sync::Arc;

/// What a partition has of its graph: the predecessors of each of its vertices, into which partitions the vertex has
/// edges, and whether it is counted. It has no other partition's lists, and if there is one partition it shares those
/// of the graph, and the masks that it is made by.
///
/// Beside the lists it takes for each vertex a byte for the mask if there are at most 8 partitions, and 8 if there are
/// more; and one for whether it is counted.
#[derive(Drop)]
pub struct Part {
    plan: Plan,
    number: u16,
    lists: Arc<PredLists>,
    feeds: Arc<Masks>,
    counted: Vec<bool>,
}

impl Model for Part {
    ghost use Rattle.std.specs.Arc.{arc_value};
    ghost use Rattle.ball_model.specs.Job.{PartValue, IsPart};
    ghost use Rattle.graph.specs.Feeding.{masks_of};

    ghost Value = { PartValue };

    ghost view = { λ p. record {
      plan = p.plan;
      number = p.number;
      preds = arc_value p.lists;
      feeds = masks_of (arc_value p.feeds);
      counted = p.counted.items;
    } };

    ghost invariant = { λ p. IsPart (record {
      plan = p.plan;
      number = p.number;
      preds = arc_value p.lists;
      feeds = masks_of (arc_value p.feeds);
      counted = p.counted.items;
    }) };
}

impl Part {
    /// The plan of the job.
    pub fn plan(&self) -> &Plan
        ensures { result.now ≡ self.now.plan }
    {
        &self.plan
    }

    /// Does nothing. Its contract states the limits of every part, for proofs.
    #[inline(always)]
    pub fn limits(&self)
        ensures part { IsPart self.now }
        ensures few { length self.now.preds < 2 ^ 32 }
    {
        let _limits = (self.partition(), self.size());
    }

    /// The number of the partition.
    pub fn partition(&self) -> u16
        ensures value { result ≡ self.now.number }
        ensures part { IsPart self.now }
    {
        self.number
    }

    /// The number of its vertices.
    pub fn size(&self) -> u32
        ensures value { result ≡
            part_size self.now.plan.vertices self.now.plan.parts self.now.number }
        ensures lists { result ≡ length self.now.preds }
        ensures masks { result ≡ length self.now.feeds }
        ensures counted { result ≡ length self.now.counted }
    {
        self.plan.part_size(self.number)
    }

    /// The vertex with this index in its partition.
    pub fn vertex(&self, i: u32) -> u32
        requires { i < length self.now.preds }
        ensures value { result ≡ i * self.now.plan.parts + self.now.number }
        ensures below { result < self.now.plan.vertices }
    {
        vertex_at(&self.plan, self.number, i)
    }

    /// The predecessors of the vertex with this index, ascending.
    pub fn preds(&self, i: u32) -> Preds<'_>
        requires { i < length self.now.preds }
        ensures value { result ≡ slice_index_or self.now.preds i [] }
        ensures below { All (λ z. z < self.now.plan.vertices) result }
    {
        self.lists.list(i as usize)
    }

    /// The index, between these two, at which the work on predecessors is cut in two: about half of the codes between
    /// them stand before it. It takes time logarithmic in the number of vertices between.
    pub fn middle(&self, from: u32, to: u32) -> u32
        requires order { from ≤ to }
        requires inside { to ≤ length self.now.preds }
        ensures first { from ≤ result }
        ensures last { result ≤ to }
    {
        self.lists.middle(from as usize, to as usize) as u32
    }

    /// The number of edges to its vertices.
    pub fn edges(&self) -> usize
        ensures value { result ≡ sum_by length self.now.preds }
        ensures few { result < 2 ^ 32 }
    {
        self.lists.total()
    }

    /// The feed mask of the vertex with this index: bit r is set if it has an edge into partition r.
    pub fn feeds(&self, i: u32) -> u64
        requires { i < length self.now.preds }
        ensures value { result ≡ slice_index self.now.feeds i }
        ensures bits { (j : Job) (p r : ℕ) → self.now ≡ part_of j p →
            has_bit result r ≡ feeds_into j.graph j.plan.parts (i * j.plan.parts + p) r }
    {
        self.feeds.get(i as usize)
    }

    /// This part, of a plan with another job digest.
    pub fn with_job(self, job: [u8; 32]) -> Part
        ensures { result ≡ record self { plan = record self.plan { job = job } } }
    {
        let mut part = self;
        part.plan = part.plan.with_job(job);
        part
    }

    /// Whether balls count the vertex with this index.
    pub fn counts(&self, i: u32) -> bool
        requires { i < length self.now.preds }
        ensures value { result ≡ slice_index_or self.now.counted i false }
        ensures graph { (j : Job) (p : ℕ) → self.now ≡ part_of j p →
            result ≡ is_counted j.graph (i * j.plan.parts + p) }
    {
        self.counted[i as usize]
    }
}

// The vertex with this index in partition `p`.
fn vertex_at(plan: &Plan, p: u16, i: u32) -> u32
    requires part { p < plan.now.parts }
    requires index { i < part_size plan.now.vertices plan.now.parts p }
    ensures value { result ≡ i * plan.now.parts + p }
    ensures below { result < plan.now.vertices }
{
    i * u32::from(plan.parts()) + u32::from(p)
}

// Replaces what the row had by predecessors.
fn put_preds(row: &mut Vec<u32>, preds: Preds<'_>) -> Result<(), AllocError>
    ensures { OnOk result (row.new.items ≡ preds.entry) }
{
    row.clear();
    for y in preds {
        row.push(y)?;
    }
    Ok(())
}

// Appends the list of these predecessors. The row is its working memory.
fn push_preds(
    builder: ListsBuilder,
    row: &mut Vec<u32>,
    preds: Preds<'_>,
) -> Result<ListsBuilder, AllocError>
    requires { AscendsFrom 0 preds }
    ensures lists { IfOk result (λ lists. lists ≡ builder ++ preds.entry ∷ []) }
    ensures row { OnOk result (row.new.items ≡ preds.entry) }
{
    put_preds(row, preds)?;
    builder.push(row)
}

// The predecessors of each vertex of partition `p`.
fn own_lists(alloc: Global, graph: &Graph, plan: &Plan, p: u16) -> Result<PredLists, AllocError>
    requires part { p < plan.now.parts }
    requires vertices { plan.now.vertices ≡ graph.now.graph.vertices }
    ensures { IfOk result (λ lists. lists ≡ map (λ x. preds_of graph.now.graph x)
        (vertices_of graph.now.graph.vertices plan.now.parts p)) }
{
    prove!(graph.vertices() == plan.vertices());
    let size = plan.part_size(p);
    let mut builder = ListsBuilder::with_room(alloc, size as usize)?;
    let mut row = Vec::new(alloc);
    let mut total = 0;
    for i in 0..size {
        builder = push_preds(builder, &mut row, graph.preds(vertex_at(plan, p, i)))?;
        total += row.len();
    }
    Ok(PredLists::of(builder.finish(), total))
}

// The predecessors of each vertex of partition `p`; the graph's own lists, shared, if there is one partition.
fn part_lists(
    alloc: Global,
    graph: &Graph,
    plan: &Plan,
    p: u16,
) -> Result<Arc<PredLists>, AllocError>
    requires part { p < plan.now.parts }
    requires vertices { plan.now.vertices ≡ graph.now.graph.vertices }
    ensures { IfOk result (λ lists. arc_value lists ≡ map (λ x. preds_of graph.now.graph x)
        (vertices_of graph.now.graph.vertices plan.now.parts p)) }
{
    if plan.parts() == 1 {
        return graph.shared_lists();
    }
    let lists = Arc::new(alloc, own_lists(alloc, graph, plan, p)?)?;
    Ok(lists)
}

// What the vertices of partition `p` have, of what all vertices have.
fn own_of<T: Copy>(alloc: Global, all: &[T], plan: &Plan, p: u16) -> Result<Vec<T>, AllocError>
    requires part { p < plan.now.parts }
    requires count { length all.now ≡ plan.now.vertices }
    ensures { IfOk result (λ own. (f : ℕ → T) →
        all.now ≡ map f (range_with_len 0 plan.now.vertices) →
        own.items ≡ map f (vertices_of plan.now.vertices plan.now.parts p)) }
{
    let size = plan.part_size(p);
    let mut own = Vec::with_capacity(alloc, size as usize)?;
    for i in 0..size {
        own.push_reserved(all[vertex_at(plan, p, i) as usize]);
    }
    Ok(own)
}

// The masks of the vertices of partition `p`, of the masks of all vertices.
fn own_masks(alloc: Global, all: &Masks, plan: &Plan, p: u16) -> Result<Masks, AllocError>
    requires part { p < plan.now.parts }
    requires count { length (masks_of all.now) ≡ plan.now.vertices }
    ensures { IfOk result (λ own. (f : ℕ → ℕ) →
        masks_of all.now ≡ map f (range_with_len 0 plan.now.vertices) →
        masks_of own ≡ map f (vertices_of plan.now.vertices plan.now.parts p)) }
{
    match all {
        Masks::Narrow(bytes) => Ok(Masks::Narrow(own_of(alloc, bytes, plan, p)?)),
        Masks::Wide(words) => Ok(Masks::Wide(own_of(alloc, words, plan, p)?)),
    }
}

// The masks of the vertices of partition `p`; those of all vertices, shared, if there is one partition.
pub(crate) fn part_feeds(
    alloc: Global,
    feeds: &Feeds,
    plan: &Plan,
    p: u16,
) -> Result<Arc<Masks>, AllocError>
    requires part { p < plan.now.parts }
    requires count { length feeds.now ≡ plan.now.vertices }
    ensures { IfOk result (λ own. (f : ℕ → ℕ) →
        feeds.now ≡ map f (range_with_len 0 plan.now.vertices) →
        masks_of (arc_value own) ≡ map f (vertices_of plan.now.vertices plan.now.parts p)) }
{
    if plan.parts() == 1 {
        return feeds.shared_masks();
    }
    let masks = Arc::new(alloc, own_masks(alloc, feeds.masks(), plan, p)?)?;
    Ok(masks)
}

// The feed mask of each vertex of partition `p`, by a walk over all edges.
pub(crate) fn own_feeds(
    alloc: Global,
    graph: &Graph,
    plan: &Plan,
    p: u16,
) -> Result<Arc<Masks>, AllocError>
    requires part { p < plan.now.parts }
    requires vertices { plan.now.vertices ≡ graph.now.graph.vertices }
    ensures { IfOk result (λ feeds. masks_of (arc_value feeds) ≡ map
        (λ x. feed_mask graph.now.graph plan.now.parts x)
        (vertices_of graph.now.graph.vertices plan.now.parts p)) }
{
    let own = Stride {
        step: u32::from(plan.parts()),
        first: u32::from(p),
    };
    let masks = feeds_over(alloc, graph, plan, own, plan.part_size(p))?;
    let masks = Arc::new(alloc, masks)?;
    Ok(masks)
}

// Whether each vertex of partition `p` is counted.
fn own_counts(alloc: Global, graph: &Graph, plan: &Plan, p: u16) -> Result<Vec<bool>, AllocError>
    requires part { p < plan.now.parts }
    requires vertices { plan.now.vertices ≡ graph.now.graph.vertices }
    ensures { IfOk result (λ counted. counted.items ≡ map (λ x. is_counted graph.now.graph x)
        (vertices_of graph.now.graph.vertices plan.now.parts p)) }
{
    let size = plan.part_size(p);
    let mut counted = Vec::with_capacity(alloc, size as usize)?;
    for i in 0..size {
        counted.push_reserved(graph.counted(vertex_at(plan, p, i)));
    }
    Ok(counted)
}

// The part with these masks.
pub(crate) fn part_by(
    alloc: Global,
    graph: &Graph,
    plan: &Plan,
    p: u16,
    feeds: Arc<Masks>,
) -> Result<Part, AllocError>
    requires below { p < plan.now.parts }
    requires vertices { plan.now.vertices ≡ graph.now.graph.vertices }
    requires feeds { masks_of (arc_value feeds) ≡ map
        (λ x. feed_mask graph.now.graph plan.now.parts x)
        (vertices_of graph.now.graph.vertices plan.now.parts p) }
    ensures { IfOk result (λ part. part ≡ part_of (job_of graph.now.graph plan.now) p) }
{
    prove!(p < plan.parts());
    let lists = part_lists(alloc, graph, plan, p)?;
    let counted = own_counts(alloc, graph, plan, p)?;
    Ok(Part {
        plan: *plan,
        number: p,
        lists,
        feeds,
        counted,
    })
}

impl Graph {
    /// The part of partition `p` of the plan. It takes time in proportion to the vertices and edges, since it walks
    /// over all edges for the masks, and memory in proportion to those of the partition: beside the lists 2 bytes a
    /// vertex of it, or 9 if there are more than 8 partitions. The lists of a sole partition are shared and take none.
    pub fn part(&self, alloc: Global, plan: &Plan, p: u16) -> Result<Part, AllocError>
        requires below { p < plan.now.parts }
        requires vertices { plan.now.vertices ≡ self.now.graph.vertices }
        requires digest { plan.now.job ≡ digest_of plan.now self.now.graph }
        ensures { IfOk result (λ part. part ≡
            part_of (job_of self.now.graph plan.now) p) }
    {
        let feeds = own_feeds(alloc, self, plan, p)?;
        part_by(alloc, self, plan, p, feeds)
    }

    /// The part of partition `p` of the plan, by the masks of all vertices ([`Graph::feeds`]), which one walk over the
    /// edges makes for all parts. It takes time in proportion to the vertices of the partition and the edges to them,
    /// and as much memory. The masks of a sole partition are shared too. The plan's digest is not looked at:
    /// [`Part::with_job`] puts one in its place.
    pub fn part_with(
        &self,
        alloc: Global,
        plan: &Plan,
        p: u16,
        feeds: &Feeds,
    ) -> Result<Part, AllocError>
        requires below { p < plan.now.parts }
        requires vertices { plan.now.vertices ≡ self.now.graph.vertices }
        requires feeds { feeds.now ≡ feeds_of self.now.graph plan.now.parts }
        ensures { IfOk result (λ part. part ≡
            part_of (job_of self.now.graph plan.now) p) }
    {
        let own = part_feeds(alloc, feeds, plan, p)?;
        part_by(alloc, self, plan, p, own)
    }
}
