//! The figures of a superstep, stepped in several threads.

ghost use Rattle.std.specs.Prelude.{◌≡◌, map};
ghost use Rattle.std.specs.Thread.{IsSync};
ghost use Rattle.figures.specs.Values.{value_of};
ghost use Rattle.replica.specs.Stepping.{CanStepBlock, StepsBlock};
ghost use Rattle.replica.specs.Tables.{AreStepped, CanBeStepped, rows_before};

use crate::level::{Step, step_tally};
use crate::relay::{Behind, Relay};
use figures::Tally;
use registers::{Rows, next_marked};
use std::thread::{Threads, join_mut};

// A step, with the rows as they were, in 2^depth blocks.
#[derive(Clone, Copy, Drop)]
struct Blocks<'a> {
    step: &'a Step<'a>,
    old: &'a Rows,
    depth: u32,
}

// Rows from place `from` on, with a mark for each.
#[derive(Clone, Copy, Drop)]
struct Span<'a> {
    from: usize,
    marks: &'a [bool],
}

// The figures and weights of the rows from place `from` on, one after the other. It returns what the sum of the last
// estimates has gained.
fn step_block(
    blocks: &Blocks<'_>,
    span: &Span<'_>,
    weights: &mut [u64],
    tallies: &mut [Tally],
) -> u128
    requires { CanStepBlock blocks.now.step.now.estimator.now blocks.now.step.now.t
        blocks.now.old.now blocks.now.step.now.ahead.now span.now.from span.now.marks.now
        weights.old (map value_of tallies.old) }
    ensures { StepsBlock blocks.now.step.now.estimator.now blocks.now.step.now.t
        blocks.now.step.now.ahead.now span.now.from (map value_of tallies.old)
        (map value_of tallies.new) weights.new result }
{
    let (step, old, from, marks) = (blocks.step, blocks.old, span.from, span.marks);
    let ahead = step.ahead;
    ahead.limits();
    let mut gain = 0;
    let mut k = next_marked(marks, 0);
    while k < marks.len() {
        let (row, next) = (old.row(from + k), ahead.row(from + k));
        let (weight, tally) = (&mut weights[k], &mut tallies[k]);
        gain += step_tally(step.estimator, step.t, row, next, weight, tally);
        k = next_marked(marks, k + 1);
    }
    gain
}

// Does what `step_block` does, by halves of halves, each in a thread of its own if one can be made.
#[cycle(halves)]
fn step_halves<R: Threads + Sync>(
    rt: &R,
    blocks: &Blocks<'_>,
    span: &Span<'_>,
    weights: &mut [u64],
    tallies: &mut [Tally],
) -> u128
    requires { CanStepBlock blocks.now.step.now.estimator.now blocks.now.step.now.t
        blocks.now.old.now blocks.now.step.now.ahead.now span.now.from span.now.marks.now
        weights.old (map value_of tallies.old) }
    ensures { StepsBlock blocks.now.step.now.estimator.now blocks.now.step.now.t
        blocks.now.step.now.ahead.now span.now.from (map value_of tallies.old)
        (map value_of tallies.new) weights.new result }
{
    if blocks.depth == 0 {
        step_block(blocks, span, weights, tallies)
    } else {
        let half = Blocks {
            step: blocks.step,
            old: blocks.old,
            depth: blocks.depth - 1,
        };
        step_both(rt, &half, span, weights, tallies)
    }
}

// The two halves, side by side.
#[cycle(halves)]
fn step_both<R: Threads + Sync>(
    rt: &R,
    half: &Blocks<'_>,
    span: &Span<'_>,
    weights: &mut [u64],
    tallies: &mut [Tally],
) -> u128
    requires { CanStepBlock half.now.step.now.estimator.now half.now.step.now.t
        half.now.old.now half.now.step.now.ahead.now span.now.from span.now.marks.now
        weights.old (map value_of tallies.old) }
    ensures { StepsBlock half.now.step.now.estimator.now half.now.step.now.t
        half.now.step.now.ahead.now span.now.from (map value_of tallies.old)
        (map value_of tallies.new) weights.new result }
{
    half.step.ahead.limits();
    let mid = span.marks.len() / 2;
    let (first, last) = span.marks.split_at(mid);
    let (front, back) = weights.split_at_mut(mid);
    let (low, high) = tallies.split_at_mut(mid);
    let lower = Span {
        from: span.from,
        marks: first,
    };
    let upper = Span {
        from: span.from + mid,
        marks: last,
    };
    let mut left = || -> u128
        requires { IsSync R.row × CanStepBlock half.now.step.now.estimator.now
            half.now.step.now.t half.now.old.now half.now.step.now.ahead.now lower.from
            lower.marks.now front.now (map value_of low.now) }
        ensures { StepsBlock half.entry.now.step.now.estimator.now half.entry.now.step.now.t
            half.entry.now.step.now.ahead.now lower.entry.from (map value_of low.entry.now)
            (map value_of low.exit.now) front.exit.now result }
    { step_halves(rt, half, &lower, front, low) };
    let mut right = || -> u128
        requires { IsSync R.row × CanStepBlock half.now.step.now.estimator.now
            half.now.step.now.t half.now.old.now half.now.step.now.ahead.now upper.from
            upper.marks.now back.now (map value_of high.now) }
        ensures { StepsBlock half.entry.now.step.now.estimator.now half.entry.now.step.now.t
            half.entry.now.step.now.ahead.now upper.entry.from (map value_of high.entry.now)
            (map value_of high.exit.now) back.exit.now result }
    { step_halves(rt, half, &upper, back, high) };
    let (one, two) = join_mut(rt, &mut left, &mut right);
    one + two
}

// The rows of the superstep before: those that were handed out, or else those that are shown.
fn table_before<'a>(before: &'a Option<Behind<Rows>>, rows: &'a Relay<Rows>) -> &'a Rows
    ensures { result.now ≡ rows_before rows.now before.now }
{
    match before {
        Some(before) => before.table(),
        None => rows.get(),
    }
}

/// Does what [`crate::level::step_rows`] does, in 2^depth threads: the figures by blocks, and then the rows by blocks, so
/// that those that changed are read twice.
///
/// It takes no memory but that of the threads, and time in proportion to the marks and the marked rows, over the
/// processors.
pub(crate) fn step_blocks<R: Threads + Sync>(
    rt: &R,
    step: &Step<'_>,
    rows: &mut Relay<Rows>,
    weights: &mut [u64],
    tallies: &mut [Tally],
) -> u128
    requires { CanBeStepped step.now.estimator.now step.now.t rows.old step.now.ahead.now
        step.now.marks.now weights.old (map value_of tallies.old) }
    ensures { AreStepped step.now.estimator.now step.now.t step.now.ahead.now
        (map value_of tallies.old) (map value_of tallies.new) weights.new result rows.new }
{
    let before = rows.go_on(step.ahead, step.marks);
    let blocks = Blocks {
        step: &*step,
        old: table_before(&before, rows),
        depth: step.depth,
    };
    let span = Span {
        from: 0,
        marks: step.marks,
    };
    let gain = step_halves(rt, &blocks, &span, weights, tallies);
    rows.put_marked(rt, step.depth, step.ahead, step.marks);
    rows.leave_behind(before);
    gain
}
