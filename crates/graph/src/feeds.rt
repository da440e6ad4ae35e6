//! Into which partitions vertices have edges.

ghost use Rattle.std.specs.Prelude.{◌≡◌, ◌/◌, ◌%◌, ◌<◌, ◌≤◌, ◌==◌, ◌++◌, ◌∷◌, [], ℕ, List};
ghost use Rattle.std.specs.Prelude.{length, map, IfOk, Ok};
ghost use Rattle.std.specs.Arc.{arc_value};
ghost use Rattle.std.specs.List.{All};
ghost use Rattle.ball_model.specs.PlanValue.{vertices_of, part_size};
ghost use Rattle.ball_model.specs.Job.{feed_mask};
ghost use Rattle.graph.specs.Feeding.{AreMasks, edges_into, masks_of, width_of, feeds_of};

use crate::graph::Graph;
use crate::lists::Preds;
use crate::masks::Masks;
use ball_model::Plan;
use std::alloc::{AllocError, Global};
use std::marker::Model;
use std::sync::Arc;

/// The feed mask of each vertex of a graph: into which partitions of a plan it has edges. [`Graph::part_with`] makes
/// parts by it, so that for all parts together the edges are walked over once.
///
/// It takes for each vertex a byte if there are at most 8 partitions, and 8 if there are more.
#[derive(Drop)]
pub struct Feeds {
    masks: Arc<Masks>,
}

impl Model for Feeds {
    ghost use Rattle.std.specs.Prelude.{List, ℕ};
    ghost use Rattle.std.specs.Arc.{arc_value};
    ghost use Rattle.graph.specs.Feeding.{masks_of};

    ghost Value = { List ℕ };

    ghost view = { λ feeds. masks_of (arc_value feeds.masks) };
}

impl Feeds {
    pub(crate) fn of(masks: Arc<Masks>) -> Feeds
        ensures { result ≡ masks_of (arc_value masks) }
    {
        Feeds { masks }
    }

    pub(crate) fn masks(&self) -> &Masks
        ensures { masks_of result.now ≡ self.now }
    {
        &*self.masks
    }

    /// Another owner of the masks, which are not copied.
    pub(crate) fn shared_masks(&self) -> Result<Arc<Masks>, AllocError>
        ensures { IfOk result (λ masks. masks_of (arc_value masks) ≡ self.now) }
    {
        let masks = Arc::try_clone(&self.masks)?;
        Ok(masks)
    }
}

/// Some vertices of a graph: every `step`-th from vertex `first` on.
#[derive(Clone, Copy)]
pub(crate) struct Stride {
    pub(crate) step: u32,
    pub(crate) first: u32,
}

impl Stride {
    // Whether a vertex is one of them. Nothing is divided if all are.
    fn has(self, y: u32) -> bool
        requires { self.first < self.step }
        ensures { result ≡ (y % self.step == self.first) }
    {
        self.step == 1 || y % self.step == self.first
    }

    // How many of them are below one of them.
    fn place(self, y: u32) -> u32
        requires { self.first < self.step }
        ensures { result ≡ y / self.step }
    {
        if self.step == 1 { y } else { y / self.step }
    }
}

// Marks that an edge leads from a vertex into this partition, if the vertex is one of those that have a mask.
fn mark_edge(feeds: &mut Masks, stride: Stride, source: u32, into: u32)
    requires stride { stride.first < stride.step }
    requires place { source % stride.step ≡ stride.first →
        source / stride.step < length (masks_of feeds.old) }
    requires room { into < width_of feeds.old }
    ensures masks { (es : List (ℕ × ℕ)) (parts target : ℕ) → into ≡ target % parts →
        AreMasks stride.step stride.first parts es (masks_of feeds.old) →
        AreMasks stride.step stride.first parts (es ++ (source, target) ∷ [])
        (masks_of feeds.new) }
    ensures size { length (masks_of feeds.new) ≡ length (masks_of feeds.old) }
    ensures room { width_of feeds.new ≡ width_of feeds.old }
{
    if stride.has(source) {
        feeds.set_bit(stride.place(source) as usize, into);
    }
}

// Marks the edges from some sources to a target.
fn mark_row(feeds: &mut Masks, plan: &Plan, stride: Stride, sources: Preds<'_>, target: u32)
    requires stride { stride.first < stride.step }
    requires size { length (masks_of feeds.old) ≡
        part_size plan.now.vertices stride.step stride.first }
    requires room { plan.now.parts ≤ width_of feeds.old }
    requires sources { All (λ y. y < plan.now.vertices) sources }
    ensures masks { (es : List (ℕ × ℕ)) →
        AreMasks stride.step stride.first plan.now.parts es (masks_of feeds.old) →
        AreMasks stride.step stride.first plan.now.parts (es ++ edges_into target sources.entry)
        (masks_of feeds.new) }
    ensures size { length (masks_of feeds.new) ≡ length (masks_of feeds.old) }
    ensures room { width_of feeds.new ≡ width_of feeds.old }
{
    let into = u32::from(plan.partition_of(target));
    for source in sources {
        mark_edge(feeds, stride, source, into);
    }
}

fn mark_edges(feeds: &mut Masks, plan: &Plan, stride: Stride, graph: &Graph)
    requires stride { stride.first < stride.step }
    requires size { length (masks_of feeds.old) ≡
        part_size plan.now.vertices stride.step stride.first }
    requires room { plan.now.parts ≤ width_of feeds.old }
    requires vertices { plan.now.vertices ≡ graph.now.graph.vertices }
    ensures masks { AreMasks stride.step stride.first plan.now.parts [] (masks_of feeds.old) →
        AreMasks stride.step stride.first plan.now.parts graph.now.graph.edges
        (masks_of feeds.new) }
    ensures size { length (masks_of feeds.new) ≡ length (masks_of feeds.old) }
    ensures room { width_of feeds.new ≡ width_of feeds.old }
{
    for target in 0..graph.vertices() {
        mark_row(feeds, plan, stride, graph.preds(target), target);
    }
}

/// The feed masks of the vertices of a stride, of which there are `size`.
pub(crate) fn feeds_over(
    alloc: Global,
    graph: &Graph,
    plan: &Plan,
    stride: Stride,
    size: u32,
) -> Result<Masks, AllocError>
    requires stride { stride.first < stride.step }
    requires size { size ≡ part_size plan.now.vertices stride.step stride.first }
    requires vertices { plan.now.vertices ≡ graph.now.graph.vertices }
    ensures { IfOk result (λ feeds. masks_of feeds ≡
        map (λ x. feed_mask graph.now.graph plan.now.parts x)
        (vertices_of graph.now.graph.vertices stride.step stride.first)) }
{
    let bits = u32::from(plan.parts());
    let mut feeds = Masks::zeros(alloc, size as usize, bits)?;
    mark_edges(&mut feeds, plan, stride, graph);
    Ok(feeds)
}

impl Graph {
    /// Into which partitions of the plan each vertex has edges. It takes one walk over the edges, and for each vertex a
    /// byte, or 8 if there are more than 8 partitions.
    pub fn feeds(&self, alloc: Global, plan: &Plan) -> Result<Feeds, AllocError>
        requires { plan.now.vertices ≡ self.now.graph.vertices }
        ensures { IfOk result (λ feeds. feeds ≡ feeds_of self.now.graph plan.now.parts) }
    {
        let all = Stride { step: 1, first: 0 };
        let masks = feeds_over(alloc, self, plan, all, self.vertices())?;
        Ok(Feeds::of(Arc::new(alloc, masks)?))
    }
}
