//! What a replica begins with.

ghost use Rattle.std.specs.Prelude.{◌≡◌, ◌^◌, map, slice_set, IfOk};
ghost use Rattle.ball_model.specs.PlanValue.{measure_of};
ghost use Rattle.figures.specs.Values.{value_of};
ghost use Rattle.replica.specs.Kept.{AreCounters};
ghost use Rattle.replica.specs.Start.{IsEmptyAt, first_figures, first_row, first_rows_of_part};

use ball_model::{Plan, mix, place};
use figures::{Estimator, Tally};
use graph::Part;
use registers::Rows;
use std::alloc::{AllocError, Global};

/// How the estimates of the plan are made.
pub(crate) fn estimator_of(alloc: Global, plan: &Plan) -> Result<Estimator, AllocError>
    ensures { IfOk result (λ e. e ≡ measure_of plan.now) }
{
    let log2m = plan.log2m();
    if plan.is_corrected() {
        return Estimator::corrected(alloc, log2m);
    }
    Ok(Estimator::raw(alloc, log2m))
}

// The row of vertex i, which is empty, becomes that of the vertex alone, if it is counted.
fn start_row(part: &Part, i: u32, rows: &mut Rows)
    requires { IsEmptyAt part.now i rows.old }
    ensures { rows.new ≡
        record rows.old { rows = slice_set rows.old.rows i (first_row part.now i) } }
{
    if part.counts(i) {
        let plan = part.plan();
        let (index, rank) = place(plan.log2m(), mix(plan.seed(), part.vertex(i)));
        let _raised = rows.raise_one(i as usize, usize::from(index), rank);
    }
}

/// The registers that the vertices of the part begin with.
pub(crate) fn start_rows(alloc: Global, part: &Part) -> Result<Rows, AllocError>
    ensures { IfOk result (λ rows. rows ≡
        record { width = 2 ^ part.now.plan.log2m; rows = first_rows_of_part part.now }) }
{
    let plan = part.plan();
    let mut rows = Rows::fixed(alloc, part.size(), plan.width() as u16)?;
    for i in 0..part.size() {
        start_row(part, i, &mut rows);
    }
    Ok(rows)
}

/// Which vertices of the part are changed at superstep 0: those that are counted.
pub(crate) fn start_marks(alloc: Global, part: &Part) -> Result<Vec<bool>, AllocError>
    ensures { IfOk result (λ marks. marks.items ≡ part.now.counted) }
{
    let mut marks = Vec::with_capacity(alloc, part.size() as usize)?;
    for i in 0..part.size() {
        marks.push_reserved(part.counts(i));
    }
    Ok(marks)
}

/// Figures that begin with the estimates of rows.
pub(crate) fn start_tallies(
    alloc: Global,
    estimator: &Estimator,
    rows: &Rows,
) -> Result<Vec<Tally>, AllocError>
    requires { AreCounters estimator.now.log2m rows.now.rows }
    ensures { IfOk result (λ tallies.
        map value_of tallies.items ≡ first_figures estimator.now rows.now.rows) }
{
    let mut tallies = Vec::with_capacity(alloc, rows.len())?;
    for i in 0..rows.len() {
        tallies.push_reserved(Tally::start(estimator.estimate(rows.row(i))));
    }
    Ok(tallies)
}
