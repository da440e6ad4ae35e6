//! Rows of registers, spread to the own vertices that their vertices have an edge to.

ghost use Rattle.std.specs.Prelude.{◌^◌, length};
ghost use Rattle.replica.specs.Spread.{CanRaise, CanSpreadOwn, CanSpreadRows};
ghost use Rattle.replica.specs.Heard.{MarksBefore, Raises, SpreadsBatch, SpreadsOwn, SpreadsRow};

use crate::targets::Targets;
use crate::waiting::spread_waiting;
use batches::Batch;
use graph::Part;
use registers::{LINE, Rows, next_marked};

// How many rows are glanced at before the first of them is raised.
const BLOCK: usize = 8;

/// The own rows, a mark for each, the part that they are of, and the index that says where they lead.
#[derive(Clone, Copy, Drop)]
pub(crate) struct Own<'a> {
    pub(crate) targets: &'a Targets,
    pub(crate) part: &'a Part,
    pub(crate) rows: &'a Rows,
    pub(crate) marks: &'a [bool],
}

/// Spreads the row of vertex `z`: the accumulator of each own vertex that `z` has an edge to becomes the maximum of
/// itself and `registers`, register by register, and each accumulator that this changes is marked.
///
/// If the registers are the counter of `z`, which is changed at t, the accumulators of what was heard become those of
/// what was heard and `z`. It takes no memory, and time in proportion to the edges of `z` into the part. Rows of a
/// block that are wider than a line of the cache are glanced at first, so that they are fetched side by side.
pub(crate) fn spread_row(
    targets: &Targets,
    z: u32,
    registers: &[u8],
    accumulated: &mut Rows,
    touched: &mut [bool],
)
    requires { CanSpreadRows targets.now (length registers.now) accumulated.old touched.old }
    ensures { SpreadsRow targets.now z registers.now accumulated.old accumulated.new
        touched.old touched.new }
{
    for block in targets.places(z).chunks(BLOCK) {
        mark_seen(block, registers, accumulated, touched);
        raise_block(block, registers, accumulated, touched);
    }
}

/// Spreads the rows of a batch, one after the other.
///
/// If it is the true batch of source q at t, the accumulators of what was heard become those of what was heard and the
/// vertices of q. It takes no memory, and time in proportion to the edges of its rows' vertices into the part.
pub(crate) fn spread_batch(
    targets: &Targets,
    batch: &Batch,
    accumulated: &mut Rows,
    touched: &mut [bool],
)
    requires { CanSpreadRows targets.now (2 ^ batch.now.plan.log2m) accumulated.old touched.old }
    ensures { SpreadsBatch targets.now batch.now accumulated.old accumulated.new
        touched.old touched.new }
{
    for k in 0..batch.count() {
        spread_row(
            targets,
            batch.id(k),
            batch.registers(k),
            accumulated,
            touched,
        );
    }
}

/// Spreads the own rows that are marked, one after the other.
///
/// If the rows are the counters at t and the marks say which of them are changed there, the accumulators of what was
/// heard become those of what was heard and the own vertices. It takes no memory, and time in proportion to the edges
/// of the marked ones into the part; marks are passed over 64 at once if none is set.
pub(crate) fn spread_own(own: &Own<'_>, accumulated: &mut Rows, touched: &mut [bool])
    requires { CanSpreadOwn own.now.targets.now own.now.part.now own.now.rows.now
        own.now.marks.now accumulated.old touched.old }
    ensures { SpreadsOwn own.now.targets.now own.now.part.now own.now.rows.now.rows
        own.now.marks.now accumulated.old accumulated.new touched.old touched.new }
{
    // If rows lead to fewer than two accumulators each, there is little to fetch side by side.
    let few = own.part.edges() / 2 < own.part.size() as usize;
    if few || own.rows.width() <= LINE {
        spread_in_turn(own, accumulated, touched);
    } else {
        spread_waiting(own, accumulated, touched);
    }
}

// Spreads the own rows that are marked, one after the other.
#[inline(never)]
fn spread_in_turn(own: &Own<'_>, accumulated: &mut Rows, touched: &mut [bool])
    requires { CanSpreadOwn own.now.targets.now own.now.part.now own.now.rows.now
        own.now.marks.now accumulated.old touched.old }
    ensures { SpreadsOwn own.now.targets.now own.now.part.now own.now.rows.now.rows
        own.now.marks.now accumulated.old accumulated.new touched.old touched.new }
{
    let size = own.part.size() as usize;
    let mut i = next_marked(own.marks, 0);
    while i < size {
        spread_row(
            own.targets,
            own.part.vertex(i as u32),
            own.rows.row(i),
            accumulated,
            touched,
        );
        i = next_marked(own.marks, i + 1);
    }
}

// Marks the rows at these places that are seen at a glance to rise, if rows are wider than a line of the cache. So
// each row that is marked here is one that spreading marks.
fn mark_seen(places: &[u32], registers: &[u8], accumulated: &Rows, touched: &mut [bool])
    requires { CanRaise places.now registers.now accumulated.now touched.old }
    ensures { MarksBefore places.now registers.now accumulated.now.rows touched.old touched.new }
{
    if registers.len() <= LINE {
        return;
    }
    for place in places {
        let i = *place as usize;
        let seen = accumulated.is_seen_less(i, registers);
        touched[i] |= seen;
    }
}

// The rows at the places of a block become the maximum of themselves and `registers`, one after the other, and each
// row that this changes is marked.
fn raise_block(places: &[u32], registers: &[u8], accumulated: &mut Rows, touched: &mut [bool])
    requires { CanRaise places.now registers.now accumulated.old touched.old }
    ensures { Raises places.now registers.now accumulated.old accumulated.new
        touched.old touched.new }
{
    for place in places {
        let i = *place as usize;
        let raised = accumulated.raise(i, registers);
        touched[i] |= raised;
    }
}
