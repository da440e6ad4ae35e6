//! The figures of a superstep, stepped in one thread.

ghost use Rattle.std.specs.Prelude.{◌≡◌, ◌<◌, [], length, slice_index_or, map};
ghost use Rattle.std.specs.List.{sum_by};
ghost use Rattle.figures.specs.Values.{value_of};
ghost use Rattle.replica.specs.Tables.{AreStepped, CanBeStepped, CanStepMarked, CanStepRow};
ghost use Rattle.replica.specs.Tables.{IsStepped, rows_before};

use crate::relay::{Behind, Relay};
use figures::{Estimator, Tally, moved_weight};
use registers::{Rows, next_marked};

/// The superstep that is closed, and how estimates are made.
#[derive(Clone, Copy, Drop)]
pub(crate) struct Closing<'a> {
    pub(crate) estimator: &'a Estimator,
    pub(crate) t: u32,
}

/// How figures come to superstep `t`: how estimates are made, the rows ahead, from which the rows differ where they
/// are marked alone, and into how many blocks they are cut if there are several, as a power of 2.
#[derive(Clone, Copy, Drop)]
pub(crate) struct Step<'a> {
    pub(crate) estimator: &'a Estimator,
    pub(crate) t: u32,
    pub(crate) ahead: &'a Rows,
    pub(crate) marks: &'a [bool],
    pub(crate) depth: u32,
}

/// The figures become those of the rows ahead, and the rows these. Weights are carried forward, and only marked rows
/// are read. It returns what the sum of the last estimates has gained.
pub(crate) fn step_rows(
    step: &Step<'_>,
    rows: &mut Relay<Rows>,
    weights: &mut [u64],
    tallies: &mut [Tally],
) -> u128
    requires { CanBeStepped step.now.estimator.now step.now.t rows.old step.now.ahead.now
        step.now.marks.now weights.old (map value_of tallies.old) }
    ensures { AreStepped step.now.estimator.now step.now.t step.now.ahead.now
        (map value_of tallies.old) (map value_of tallies.new) weights.new result rows.new }
{
    let before = rows.go_on(step.ahead, step.marks);
    let gain = step_marked(step, &before, rows, weights, tallies);
    rows.leave_behind(before);
    gain
}

// Steps the figures of the marked rows: from the rows before, if these were handed out, and else from those that are
// shown. Each row is taken over right after its figures: a second walk would have to fetch both again.
#[inline(never)]
fn step_marked(
    step: &Step<'_>,
    before: &Option<Behind<Rows>>,
    rows: &mut Relay<Rows>,
    weights: &mut [u64],
    tallies: &mut [Tally],
) -> u128
    requires { CanStepMarked step.now.estimator.now step.now.t rows.old before.now
        step.now.ahead.now step.now.marks.now weights.old (map value_of tallies.old) }
    ensures { AreStepped step.now.estimator.now step.now.t step.now.ahead.now
        (map value_of tallies.old) (map value_of tallies.new) weights.new result rows.new }
{
    let mut gain = 0;
    let mut i = next_marked(step.marks, 0);
    while i < tallies.len() {
        let (row, next) = (row_before(before, rows, i), step.ahead.row(i));
        let (weight, tally) = (&mut weights[i], &mut tallies[i]);
        gain += step_tally(step.estimator, step.t, row, next, weight, tally);
        rows.put(i, next);
        i = next_marked(step.marks, i + 1);
    }
    gain
}

#[inline]
fn row_before<'a>(before: &'a Option<Behind<Rows>>, rows: &'a Relay<Rows>, i: usize) -> &'a [u8]
    requires { i < length (rows_before rows.now before.now).rows }
    ensures { result.now ≡ slice_index_or (rows_before rows.now before.now).rows i [] }
{
    match before {
        Some(before) => before.table().row(i),
        None => rows.get().row(i),
    }
}

/// The figures of a row become those of the one ahead at superstep `t`. It returns what the estimate has gained.
#[inline(always)]
pub(crate) fn step_tally(
    estimator: &Estimator,
    t: u32,
    row: &[u8],
    ahead: &[u8],
    weight: &mut u64,
    tally: &mut Tally,
) -> u128
    requires { CanStepRow estimator.now t row.now ahead.now weight.old tally.old.last }
    ensures { IsStepped estimator.now t ahead.now (value_of tally.old) (value_of tally.new)
        weight.new result }
{
    let before = tally.last;
    *weight = moved_weight(estimator.log2m(), *weight, row, ahead);
    tally.step(t, estimator.estimate_of(*weight));
    u128::from(tally.last - before)
}

pub(crate) fn sum_of_lasts(tallies: &[Tally]) -> u128
    ensures { result ≡ sum_by (λ tally. tally.last) tallies.now }
{
    let mut sum = 0;
    for tally in tallies {
        sum += u128::from(tally.last);
    }
    sum
}
