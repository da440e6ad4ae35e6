//! One walk over the own rows as a superstep is closed: each is pulled, and its figures follow at once, while it and
//! the row before it are near.

ghost use Rattle.std.specs.Prelude.{◌≡◌, ◌+◌, ◌*◌, ◌≤◌, not, length, map, IsTrue};
ghost use Rattle.std.specs.Str.{bytes_eq};
ghost use Rattle.std.specs.Thread.{IsSync};
ghost use Rattle.figures.specs.Values.{value_of};
ghost use Rattle.registers.specs.Differ.{DifferWhere};
ghost use Rattle.registers.specs.Shape.{piece_at, with_piece};
ghost use Rattle.replica.specs.Hearing.{fresh_table};
ghost use Rattle.replica.specs.Pull.{CanPullRow};
ghost use Rattle.replica.specs.Walk.{CanWalk, CanWalkBlock, CanWalkRow, Walks, WalksBlock, WalksRow};
ghost use Rattle.replica.specs.Walk.{IsPieceOf, fresh_row, piece_ahead};

use crate::level::step_tally;
use crate::pull::{Pull, middle, pull_piece};
use crate::team::Hands;
use figures::{Estimator, Tally};
use registers::Rows;
use std::thread::{Threads, join_mut};

/// How rows are pulled, and how figures come to superstep `t`.
#[derive(Clone, Copy, Drop)]
pub(crate) struct Walk<'a> {
    pub(crate) pull: Pull<'a>,
    pub(crate) estimator: &'a Estimator,
    pub(crate) t: u32,
    /// Whether the accumulators are still to become their rows, from which they differ where these are marked alone.
    pub(crate) stale: bool,
}

// The k-th of the rows from own vertex `from` on becomes the own row, if it is stale.
fn renew_piece(walk: &Walk<'_>, from: usize, k: usize, cells: &mut [u8])
    requires within { k * walk.now.pull.rows.now.width + walk.now.pull.rows.now.width
        ≤ length cells.old }
    requires piece { IsPieceOf walk.now.stale walk.now.pull.rows.now walk.now.pull.marks.now
        (from + k) (piece_at walk.now.pull.rows.now.width k cells.old) }
    ensures cells { cells.new ≡ with_piece walk.now.pull.rows.now.width k
        (fresh_row walk.now.stale walk.now.pull.rows.now (from + k)
        (piece_at walk.now.pull.rows.now.width k cells.old)) cells.old }
    ensures wide { length (fresh_row walk.now.stale walk.now.pull.rows.now (from + k)
        (piece_at walk.now.pull.rows.now.width k cells.old)) ≡ walk.now.pull.rows.now.width }
{
    let Pull { rows, marks, .. } = walk.pull;
    rows.limits();
    if walk.stale && marks[from + k] {
        let width = rows.width();
        let start = k * width;
        cells[start..start + width].copy_from_slice(rows.row(from + k));
    }
}

// Pulls the k-th of the rows from own vertex `from` on, once it is the own row if it was stale, and returns whether
// this changed it.
fn pull_fresh(walk: &Walk<'_>, from: usize, k: usize, cells: &mut [u8]) -> bool
    requires within { k * walk.now.pull.rows.now.width + walk.now.pull.rows.now.width
        ≤ length cells.old }
    requires piece { IsPieceOf walk.now.stale walk.now.pull.rows.now walk.now.pull.marks.now
        (from + k) (piece_at walk.now.pull.rows.now.width k cells.old) }
    requires can { CanPullRow walk.now.pull.part.now walk.now.pull.rows.now
        walk.now.pull.marks.now (from + k) (piece_at walk.now.pull.rows.now.width k cells.old) }
    ensures cells { cells.new ≡ with_piece walk.now.pull.rows.now.width k
        (piece_ahead walk.now.pull.part.now walk.now.stale walk.now.pull.rows.now
        walk.now.pull.marks.now from k cells.old) cells.old }
    ensures tells { result ≡ not (bytes_eq
        (piece_ahead walk.now.pull.part.now walk.now.stale walk.now.pull.rows.now
        walk.now.pull.marks.now from k cells.old)
        (fresh_row walk.now.stale walk.now.pull.rows.now (from + k)
        (piece_at walk.now.pull.rows.now.width k cells.old))) }
    ensures wide { length (fresh_row walk.now.stale walk.now.pull.rows.now (from + k)
        (piece_at walk.now.pull.rows.now.width k cells.old)) ≡ walk.now.pull.rows.now.width }
{
    renew_piece(walk, from, k, cells);
    pull_piece(&walk.pull, from, k, cells)
}

// Pulls the k-th of the rows from own vertex `from` on. If it differs from the own row then, by this or by a batch, it
// is marked and its figures follow. It returns what its estimate has gained.
fn walk_row(
    walk: &Walk<'_>,
    from: usize,
    k: usize,
    cells: &mut [u8],
    touched: &mut bool,
    weight: &mut u64,
    tally: &mut Tally,
) -> u128
    requires { CanWalkRow walk.now.estimator.now walk.now.t walk.now.pull.part.now walk.now.stale
        walk.now.pull.rows.now walk.now.pull.marks.now from k cells.old touched.old weight.old
        tally.old.last }
    ensures { WalksRow walk.now.estimator.now walk.now.t walk.now.pull.part.now walk.now.stale
        walk.now.pull.rows.now walk.now.pull.marks.now from k cells.old cells.new touched.old
        touched.new (value_of tally.old) (value_of tally.new) weight.new result }
{
    let rows = walk.pull.rows;
    rows.limits();
    let raised = pull_fresh(walk, from, k, cells);
    *touched |= raised;
    if !*touched {
        return 0;
    }
    let width = rows.width();
    let start = k * width;
    let row = rows.row(from + k);
    let ahead = &cells[start..start + width];
    step_tally(walk.estimator, walk.t, row, ahead, weight, tally)
}

/// Walks over the rows from own vertex `from` on, one after the other, and returns what the sum of the last estimates
/// has gained.
pub(crate) fn walk_block(
    walk: &Walk<'_>,
    from: usize,
    cells: &mut [u8],
    touched: &mut [bool],
    weights: &mut [u64],
    tallies: &mut [Tally],
) -> u128
    requires { CanWalkBlock walk.now.estimator.now walk.now.t walk.now.pull.part.now walk.now.stale
        walk.now.pull.rows.now walk.now.pull.marks.now from cells.old touched.old weights.old
        (map value_of tallies.old) }
    ensures { WalksBlock walk.now.estimator.now walk.now.t walk.now.pull.part.now walk.now.stale
        walk.now.pull.rows.now walk.now.pull.marks.now from cells.old cells.new touched.old
        touched.new (map value_of tallies.old) (map value_of tallies.new) weights.new result }
{
    let mut gain = 0;
    for k in 0..touched.len() {
        let (mark, weight, tally) = (&mut touched[k], &mut weights[k], &mut tallies[k]);
        gain += walk_row(walk, from, k, cells, mark, weight, tally);
    }
    gain
}

/// Does what `walk_block` does, by halves of halves, each in a thread of its own if one can be made.
#[cycle(halves)]
pub(crate) fn walk_halves<R: Threads + Sync>(
    rt: &R,
    walk: &Walk<'_>,
    from: usize,
    cells: &mut [u8],
    touched: &mut [bool],
    weights: &mut [u64],
    tallies: &mut [Tally],
) -> u128
    requires { CanWalkBlock walk.now.estimator.now walk.now.t walk.now.pull.part.now walk.now.stale
        walk.now.pull.rows.now walk.now.pull.marks.now from cells.old touched.old weights.old
        (map value_of tallies.old) }
    ensures { WalksBlock walk.now.estimator.now walk.now.t walk.now.pull.part.now walk.now.stale
        walk.now.pull.rows.now walk.now.pull.marks.now from cells.old cells.new touched.old
        touched.new (map value_of tallies.old) (map value_of tallies.new) weights.new result }
{
    if walk.pull.depth == 0 {
        walk_block(walk, from, cells, touched, weights, tallies)
    } else {
        let pull = Pull {
            part: walk.pull.part,
            rows: walk.pull.rows,
            marks: walk.pull.marks,
            depth: walk.pull.depth - 1,
        };
        let half = Walk {
            pull,
            estimator: walk.estimator,
            t: walk.t,
            stale: walk.stale,
        };
        walk_both(rt, &half, from, cells, touched, weights, tallies)
    }
}

// The two halves, side by side.
#[cycle(halves)]
fn walk_both<R: Threads + Sync>(
    rt: &R,
    half: &Walk<'_>,
    from: usize,
    cells: &mut [u8],
    touched: &mut [bool],
    weights: &mut [u64],
    tallies: &mut [Tally],
) -> u128
    requires { CanWalkBlock half.now.estimator.now half.now.t half.now.pull.part.now half.now.stale
        half.now.pull.rows.now half.now.pull.marks.now from cells.old touched.old weights.old
        (map value_of tallies.old) }
    ensures { WalksBlock half.now.estimator.now half.now.t half.now.pull.part.now half.now.stale
        half.now.pull.rows.now half.now.pull.marks.now from cells.old cells.new touched.old
        touched.new (map value_of tallies.old) (map value_of tallies.new) weights.new result }
{
    half.pull.part.limits();
    let mid = middle(half.pull.part, from, touched.len());
    let up = from + mid;
    let (front, back) = cells.split_at_mut(mid * half.pull.rows.width());
    let (first, last) = touched.split_at_mut(mid);
    let (light, heavy) = weights.split_at_mut(mid);
    let (low, high) = tallies.split_at_mut(mid);
    let mut left = || -> u128
        requires { IsSync R.row × CanWalkBlock half.now.estimator.now half.now.t
            half.now.pull.part.now half.now.stale half.now.pull.rows.now half.now.pull.marks.now from front.now
            first.now light.now (map value_of low.now) }
        ensures { WalksBlock half.entry.now.estimator.now half.entry.now.t
            half.entry.now.pull.part.now half.entry.now.stale half.entry.now.pull.rows.now
            half.entry.now.pull.marks.now from front.entry.now front.exit.now first.entry.now
            first.exit.now (map value_of low.entry.now) (map value_of low.exit.now)
            light.exit.now result }
    { walk_halves(rt, half, from, front, first, light, low) };
    let mut right = || -> u128
        requires { IsSync R.row × CanWalkBlock half.now.estimator.now half.now.t
            half.now.pull.part.now half.now.stale half.now.pull.rows.now half.now.pull.marks.now up back.now
            last.now heavy.now (map value_of high.now) }
        ensures { WalksBlock half.entry.now.estimator.now half.entry.now.t
            half.entry.now.pull.part.now half.entry.now.stale half.entry.now.pull.rows.now
            half.entry.now.pull.marks.now up back.entry.now back.exit.now last.entry.now
            last.exit.now (map value_of high.entry.now) (map value_of high.exit.now)
            heavy.exit.now result }
    { walk_halves(rt, half, up, back, last, heavy, high) };
    let (one, two) = join_mut(rt, &mut left, &mut right);
    one + two
}

/// Walks over all own rows: each accumulator is raised by the rows of its own predecessors that are marked, which
/// comes to what [`crate::spread::spread_own`] does, and the figures of those that differ from their rows then become
/// those of superstep `t`. One that is stale becomes its row first. It returns what the sum of the last estimates has
/// gained.
///
/// It takes no memory but that of threads, and time in proportion to the edges to own vertices, over the processors.
pub(crate) fn walk_own<H: Hands>(
    hands: &H,
    walk: &Walk<'_>,
    accumulated: &mut Rows,
    touched: &mut [bool],
    weights: &mut [u64],
    tallies: &mut [Tally],
) -> u128
    requires ready { H.ready hands.now }
    requires can { CanWalk walk.now.estimator.now walk.now.t walk.now.pull.part.now
        walk.now.pull.rows.now walk.now.pull.marks.now
        (fresh_table walk.now.stale walk.now.pull.rows.now accumulated.old) touched.old
        weights.old (map value_of tallies.old) }
    requires stale { IsTrue walk.now.stale → DifferWhere walk.now.pull.marks.now
        accumulated.old walk.now.pull.rows.now }
    ensures { Walks walk.now.estimator.now walk.now.t walk.now.pull.part.now
        walk.now.pull.rows.now walk.now.pull.marks.now
        (fresh_table walk.now.stale walk.now.pull.rows.now accumulated.old) accumulated.new
        touched.old touched.new (map value_of tallies.old) (map value_of tallies.new)
        weights.new result }
{
    walk.pull.part.limits();
    let cells = accumulated.cells_mut();
    hands.walk(walk, cells, touched, weights, tallies)
}
