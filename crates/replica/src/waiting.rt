//! Own rows, spread along edges that wait: each edge leads from an own row to the place of an accumulator.
//!
//! The accumulators that edges of several rows lead to are glanced at side by side, before the first of them is
//! raised.

ghost use Rattle.std.specs.Prelude.{◌≡◌, ◌∷◌, []};
ghost use Rattle.replica.specs.Heard.{SpreadsOwn};
ghost use Rattle.replica.specs.Spread.{CanSpreadOwn};
ghost use Rattle.replica.specs.Waiting.{AddsEdges, CanAddEdges, CanRaiseAlong, MarksBeforeAlong};
ghost use Rattle.replica.specs.Waiting.{RaisesAlong, RaisesWaiting};

use crate::spread::Own;
use arrayvec::ArrayVec;
use registers::{Rows, next_marked};

// How many edges wait before the rows that they lead to are raised.
const WAITING: usize = 16;

// Own row `i`, and the places that it leads to.
#[derive(Clone, Copy, Drop)]
struct Edges<'a> {
    i: u32,
    places: &'a [u32],
}

// Marks the accumulators that are seen at a glance to rise along one of the edges.
fn mark_seen_along(rows: &Rows, edges: &[(u32, u32)], accumulated: &Rows, touched: &mut [bool])
    requires { CanRaiseAlong rows.now edges.now accumulated.now touched.old }
    ensures { MarksBeforeAlong rows.now.rows edges.now accumulated.now.rows touched.old
        touched.new }
{
    for edge in edges {
        let i = edge.1 as usize;
        let seen = accumulated.is_seen_less(i, rows.row(edge.0 as usize));
        touched[i] |= seen;
    }
}

// The accumulators are raised along the edges, one after the other, and each that this changes is marked.
fn raise_along(rows: &Rows, edges: &[(u32, u32)], accumulated: &mut Rows, touched: &mut [bool])
    requires { CanRaiseAlong rows.now edges.now accumulated.old touched.old }
    ensures { RaisesAlong rows.now.rows edges.now accumulated.old accumulated.new touched.old
        touched.new }
{
    for edge in edges {
        let i = edge.1 as usize;
        let raised = accumulated.raise(i, rows.row(edge.0 as usize));
        touched[i] |= raised;
    }
}

// The accumulators are raised along the edges that wait, with a glance at all of them first, and none waits any more.
fn raise_waiting(
    rows: &Rows,
    waiting: &mut ArrayVec<(u32, u32), WAITING>,
    accumulated: &mut Rows,
    touched: &mut [bool],
)
    requires { CanRaiseAlong rows.now waiting.old.items accumulated.old touched.old }
    ensures none { waiting.new.items ≡ [] }
    ensures raised { RaisesWaiting rows.now waiting.old.items accumulated.old accumulated.new
        touched.old touched.new }
{
    mark_seen_along(rows, waiting.as_slice(), accumulated, touched);
    raise_along(rows, waiting.as_slice(), accumulated, touched);
    waiting.clear();
}

// One edge more waits, from an own row to a place; as soon as no other one has room, the accumulators are raised.
fn add_edge(
    rows: &Rows,
    edge: (u32, u32),
    waiting: &mut ArrayVec<(u32, u32), WAITING>,
    accumulated: &mut Rows,
    touched: &mut [bool],
)
    requires { CanAddEdges rows.now edge.0 (edge.1 ∷ []) waiting.old.items
        accumulated.old touched.old }
    ensures { AddsEdges rows.now edge.0 (edge.1 ∷ []) waiting.old.items waiting.new.items
        accumulated.old accumulated.new touched.old touched.new }
{
    waiting.push(edge);
    if waiting.is_full() {
        raise_waiting(rows, waiting, accumulated, touched);
    }
}

// The edges of own row `i` wait too.
fn add_edges(
    rows: &Rows,
    edges: &Edges<'_>,
    waiting: &mut ArrayVec<(u32, u32), WAITING>,
    accumulated: &mut Rows,
    touched: &mut [bool],
)
    requires { CanAddEdges rows.now edges.now.i edges.now.places.now waiting.old.items
        accumulated.old touched.old }
    ensures { AddsEdges rows.now edges.now.i edges.now.places.now waiting.old.items
        waiting.new.items accumulated.old accumulated.new touched.old touched.new }
{
    for place in edges.places {
        add_edge(rows, (edges.i, *place), waiting, accumulated, touched);
    }
}

/// Spreads the own rows that are marked, as [`crate::spread::spread_own`] does, if rows are wider than a line of the
/// cache: those that edges of several rows lead to are fetched side by side.
#[inline(never)]
pub(crate) fn spread_waiting(own: &Own<'_>, accumulated: &mut Rows, touched: &mut [bool])
    requires { CanSpreadOwn own.now.targets.now own.now.part.now own.now.rows.now
        own.now.marks.now accumulated.old touched.old }
    ensures { SpreadsOwn own.now.targets.now own.now.part.now own.now.rows.now.rows
        own.now.marks.now accumulated.old accumulated.new touched.old touched.new }
{
    let size = own.part.size() as usize;
    let mut waiting = ArrayVec::new();
    let mut i = next_marked(own.marks, 0);
    while i < size {
        let edges = Edges {
            i: i as u32,
            places: own.targets.places(own.part.vertex(i as u32)),
        };
        add_edges(own.rows, &edges, &mut waiting, accumulated, touched);
        i = next_marked(own.marks, i + 1);
    }
    raise_waiting(own.rows, &mut waiting, accumulated, touched);
}
