//! Batches over one table.

ghost use Rattle.std.specs.Prelude.{◌≡◌, ◌+◌, ◌≤◌, ◌<◌, ◌∷◌, [], false, length, IfOk, OnOk};
ghost use Rattle.std.specs.List.{All};
ghost use Rattle.std.specs.Arc.{arc_value};
ghost use Rattle.ball_model.specs.Batches.{IsBatch, ids_of};

use super::*;
use std::sync::Arc;

/// The rows of the table.
const FIRST: [u8; 16] = [1, 0, 0, 0, 0, 0, 0, 0, 0, 0, 0, 0, 0, 0, 0, 0];

const SECOND: [u8; 16] = [0, 2, 0, 0, 0, 0, 0, 0, 0, 0, 0, 0, 0, 0, 0, 0];

const THIRD: [u8; 16] = [0, 0, 3, 0, 0, 0, 0, 0, 0, 0, 0, 0, 0, 0, 0, 33];

// Appends a row of the table.
fn add(rows: &mut Vec<u8>, row: &[u8; 16]) -> Result<(), AllocError>
    requires ranks { All (λ r. r ≤ 33) rows.old.items }
    requires row { All (λ r. r ≤ 33) row.now }
    ensures length { OnOk result (length rows.new.items ≡ length rows.old.items + 16) }
    ensures ranks { OnOk result (All (λ r. r ≤ 33) rows.new.items) }
{
    rows.extend_from_slice(row)
}

/// A table of these rows.
fn table(alloc: Global) -> Result<Vec<u8>, AllocError>
    ensures length { IfOk result (λ t. length t.items ≡ 48) }
    ensures ranks { IfOk result (λ t. All (λ r. r ≤ 33) t.items) }
{
    let mut rows = Vec::new(alloc);
    add(&mut rows, &FIRST)?;
    add(&mut rows, &SECOND)?;
    add(&mut rows, &THIRD)?;
    Ok(rows)
}

/// Two numbers.
fn two(alloc: Global, first: u32, second: u32) -> Result<Vec<u32>, AllocError>
    ensures { IfOk result (λ v. v.items ≡ first ∷ second ∷ []) }
{
    let mut numbers = Vec::new(alloc);
    numbers.push(first)?;
    numbers.push(second)?;
    Ok(numbers)
}

/// A plan of five vertices in two partitions.
fn five() -> Result<Plan, PlanError>
    ensures { IfOk result (λ p. p ≡ record {
      log2m = 4;
      seed = 0;
      parts = 2;
      limit = 4096;
      vertices = 5;
      corrected = false;
      job = JOB;
    }) }
{
    Plan::new(4, 0, 2, 4096, 5, JOB)
}

/// A batch with no rows, of a source with vertices 0, 2 and 4, which are all changed.
fn none(alloc: Global) -> Result<Batch, Fail>
    ensures batch { IfOk result (λ b. IsBatch b) }
    ensures plan { IfOk result
        (λ b. (b.plan.log2m ≡ 4) × (b.plan.parts ≡ 2) × (b.plan.vertices ≡ 5)) }
    ensures name { IfOk result (λ b. (b.name.source ≡ 0) × (b.changed ≡ 3)) }
    ensures rows { IfOk result (λ b. b.rows ≡ []) }
{
    let plan = five()?;
    let batch = Batch::start(alloc, &plan, NAME, 3)?;
    let _ = batch.count();
    Ok(batch)
}

/// A batch like that with no rows, whose vertices 0 and 2 have the rows at two places of a table.
fn over(
    alloc: Global,
    like: &Batch,
    table: Arc<Vec<u8>>,
    first: u32,
    second: u32,
) -> Result<Batch, AllocError>
    requires plan { (like.now.plan.log2m ≡ 4) × (like.now.plan.parts ≡ 2) × (like.now.plan.vertices ≡ 5) }
    requires name { (like.now.name.source ≡ 0) × (like.now.changed ≡ 3) }
    requires length { length (arc_value table).items ≡ 48 }
    requires ranks { All (λ r. r ≤ 33) (arc_value table).items }
    requires places { (first < 3) × (second < 3) }
    ensures plan { IfOk result
        (λ b. (b.plan.log2m ≡ 4) × (b.plan.parts ≡ 2) × (b.plan.vertices ≡ 5)) }
    ensures name { IfOk result (λ b. (b.name.source ≡ 0) × (b.changed ≡ 3)) }
    ensures rows { IfOk result (λ b. ids_of b.rows ≡ 0 ∷ 2 ∷ []) }
{
    let ids = two(alloc, 0, 2)?;
    let places = two(alloc, first, second)?;
    Ok(Batch::sharing(like.plan(), like.name(), like.changed(), table, ids, places))
}

/// A table of these rows, to be shared.
fn shared(alloc: Global) -> Result<Arc<Vec<u8>>, AllocError>
    ensures length { IfOk result (λ t. length (arc_value t).items ≡ 48) }
    ensures ranks { IfOk result (λ t. All (λ r. r ≤ 33) (arc_value t).items) }
{
    Ok(Arc::new(alloc, table(alloc)?)?)
}

/// Two batches over one table.
fn pair(alloc: Global, like: &Batch) -> Result<(Batch, Batch), AllocError>
    requires plan { (like.now.plan.log2m ≡ 4) × (like.now.plan.parts ≡ 2) × (like.now.plan.vertices ≡ 5) }
    requires name { (like.now.name.source ≡ 0) × (like.now.changed ≡ 3) }
    ensures plan { IfOk result
        (λ b. (b.0.plan.log2m ≡ 4) × (b.0.plan.parts ≡ 2) × (b.0.plan.vertices ≡ 5)) }
    ensures name { IfOk result (λ b. (b.0.name.source ≡ 0) × (b.0.changed ≡ 3)) }
    ensures rows { IfOk result (λ b. ids_of b.0.rows ≡ 0 ∷ 2 ∷ []) }
    ensures other { IfOk result (λ b. ids_of b.1.rows ≡ 0 ∷ 2 ∷ []) }
{
    let table = shared(alloc)?;
    let one = over(alloc, like, Arc::try_clone(&table)?, 2, 0)?;
    let other = over(alloc, like, table, 1, 1)?;
    Ok((one, other))
}

/// Whether there are `count` rows, and vertices 0 and 2 have these.
fn has_rows(batch: &Batch, count: u32, first: &[u8], second: &[u8]) -> bool
    requires { 2 ≤ length batch.now.rows }
{
    batch.count() == count
        && batch.id(0) == 0
        && batch.id(1) == 2
        && batch.registers(0) == first
        && batch.registers(1) == second
        && matches!(batch.find(2), Some(row) if row == second)
}

/// Whether two batches have the same bytes.
fn are_same(alloc: Global, one: &Batch, other: &Batch) -> Result<bool, AllocError> {
    let bytes = one.encode(alloc)?;
    Ok(bytes.as_slice() == other.encode(alloc)?.as_slice())
}

/// Whether the batch is written as the one without rows is once the rows are added.
fn is_written(alloc: Global, batch: &Batch, like: &mut Batch) -> Result<bool, AllocError>
    requires plan { (like.old.plan.log2m ≡ 4) × (like.old.plan.parts ≡ 2) × (like.old.plan.vertices ≡ 5) }
    requires name { (like.old.name.source ≡ 0) × (like.old.changed ≡ 3) }
    requires rows { like.old.rows ≡ [] }
{
    like.push(0, &THIRD)?;
    like.push(2, &FIRST)?;
    are_same(alloc, batch, like)
}

/// Whether both batches have their rows once the first has a row more, and that is the row.
fn are_pushed(one: &mut Batch, other: &Batch) -> Result<bool, AllocError>
    requires plan { (one.old.plan.log2m ≡ 4) × (one.old.plan.parts ≡ 2) × (one.old.plan.vertices ≡ 5) }
    requires name { (one.old.name.source ≡ 0) × (one.old.changed ≡ 3) }
    requires rows { ids_of one.old.rows ≡ 0 ∷ 2 ∷ [] }
    requires other { ids_of other.now.rows ≡ 0 ∷ 2 ∷ [] }
{
    one.push(4, &SECOND)?;
    Ok(
        has_rows(one, 3, &THIRD, &FIRST)
            && has_rows(other, 2, &SECOND, &SECOND)
            && matches!(one.find(4), Some(row) if row == SECOND.as_slice()),
    )
}

/// Whether the first batch has its rows and is written as these are, and both have theirs once the first has one more.
fn have_rows(alloc: Global, like: &mut Batch, both: &mut (Batch, Batch)) -> Result<bool, AllocError>
    requires plan { (like.old.plan.log2m ≡ 4) × (like.old.plan.parts ≡ 2) × (like.old.plan.vertices ≡ 5) }
    requires name { (like.old.name.source ≡ 0) × (like.old.changed ≡ 3) }
    requires none { like.old.rows ≡ [] }
    requires same_plan { (both.old.0.plan.log2m ≡ 4) × (both.old.0.plan.parts ≡ 2) × (both.old.0.plan.vertices ≡ 5) }
    requires same_name { (both.old.0.name.source ≡ 0) × (both.old.0.changed ≡ 3) }
    requires rows { ids_of both.old.0.rows ≡ 0 ∷ 2 ∷ [] }
    requires other { ids_of both.old.1.rows ≡ 0 ∷ 2 ∷ [] }
{
    Ok(
        has_rows(&both.0, 2, &THIRD, &FIRST)
            && is_written(alloc, &both.0, like)?
            && are_pushed(&mut both.0, &both.1)?,
    )
}

/// Whether two batches over one table have their rows and the first is written as one with rows of its own, and both
/// have theirs once the first has a row more.
fn pair_has_rows(alloc: Global, like: &mut Batch) -> Result<bool, AllocError>
    requires plan { (like.old.plan.log2m ≡ 4) × (like.old.plan.parts ≡ 2) × (like.old.plan.vertices ≡ 5) }
    requires name { (like.old.name.source ≡ 0) × (like.old.changed ≡ 3) }
    requires none { like.old.rows ≡ [] }
{
    let mut both = pair(alloc, like)?;
    have_rows(alloc, like, &mut both)
}

/// Whether two batches over one table that are made like one with no rows have their rows, before the first has a row
/// more and after.
fn is_shared(alloc: Global) -> Result<bool, Fail> {
    let mut like = none(alloc)?;
    Ok(pair_has_rows(alloc, &mut like)?)
}

#[test]
fn batches_share_a_table(rt: HostRuntime) -> Result<(), Fail> {
    assert!(rt; is_shared(rt.alloc())?);
    Ok(())
}
