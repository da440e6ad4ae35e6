//! Refused memory. A run of this test can refuse any one growth: then one of two calls is refused and the other is
//! answered. If none is refused both are.

ghost use Rattle.std.specs.Prelude.{◌≡◌, ◌∷◌, []};
ghost use Rattle.ball_model.specs.Batches.{ids_of};

use super::*;

// Whether both calls were answered, or just one was refused for want of memory.
fn are_answered(first: Result<bool, BatchError>, second: Result<bool, BatchError>) -> bool {
    matches!(
        (first, second),
        (Ok(true), Ok(true))
            | (Err(BatchError::Memory), Ok(true))
            | (Ok(true), Err(BatchError::Memory))
    )
}

// Whether the batch is read, and written as its bytes again.
fn is_read_and_written(alloc: Global, plan: &Plan) -> Result<bool, BatchError> {
    is_kept(alloc, plan, &BYTES)
}

// Whether a batch has just the row of vertex 0.
fn has_one_row(batch: &Batch) -> bool {
    batch.count() == 1 && batch.changed() == 2 && has_header(batch)
}

// Whether a row is added to the batch: at once, or after a refusal that left it as it was.
fn is_pushed(batch: &mut Batch) -> bool
    requires size { batch.old.plan.log2m ≡ 4 }
    requires parts { (batch.old.plan.parts ≡ 2) × (batch.old.plan.vertices ≡ 3) }
    requires name { (batch.old.name.source ≡ 0) × (batch.old.changed ≡ 2) }
    requires rows { ids_of batch.old.rows ≡ 0 ∷ [] }
{
    match batch.push(2, &ROW) {
        Ok(()) => batch.count() == 2,
        Err(AllocError) => has_one_row(batch) && batch.push(2, &ROW).is_ok() && batch.count() == 2,
    }
}

// Whether a row is added to a new batch with the row of vertex 0: none if memory is refused before. Then the batch is
// made again, and nothing is refused.
fn is_pushed_to(alloc: Global) -> Option<bool> {
    let Ok(plan) = plan(JOB) else {
        return None;
    };
    let Ok(mut batch) = Batch::start(alloc, &plan, NAME, 2) else {
        return None;
    };
    let Ok(()) = batch.push(0, &ROW) else {
        return None;
    };
    Some(is_pushed(&mut batch))
}

// Whether the batch is read and written, twice.
fn are_read_and_written(alloc: Global) -> bool {
    match plan(JOB) {
        Ok(plan) => are_answered(
            is_read_and_written(alloc, &plan),
            is_read_and_written(alloc, &plan),
        ),
        Err(_) => false,
    }
}

#[test]
fn calls_where_memory_is_refused(rt: HostRuntime) {
    let pushed = is_pushed_to(rt.alloc()).or(is_pushed_to(rt.alloc())) == Some(true);
    assert_eq!(rt; [are_read_and_written(rt.alloc()), pushed], [true; 2]);
}
