//! Batches, and their bytes.

ghost use Rattle.std.specs.Prelude.{◌≡◌, ◌<◌, ◌∷◌, [], length, is_some, IfOk};
ghost use Rattle.ball_model.specs.Batches.{IsBatch, IsRow, batch_bytes, find_row};
ghost use Rattle.ball_model.specs.PlanValue.{part_size};

use ball_model::{BatchName, Plan};
use batches::{Batch, BatchError};
use std::alloc::{AllocError, Global};

/// What partition 0 tells partition 1 of superstep 0 if one of its vertices changed.
pub fn batch_of_one(alloc: Global, plan: &Plan, v: u32, row: &[u8]) -> Result<Batch, AllocError>
    requires parts { 1 < plan.now.parts }
    requires some { 0 < part_size plan.now.vertices plan.now.parts 0 }
    requires row { IsRow plan.now 0 (v, row.now) }
    ensures rows { IfOk result (λ b. b.rows ≡ (v, row.now) ∷ []) }
    ensures changed { IfOk result (λ b. b.changed ≡ 1) }
{
    let name = BatchName {
        superstep: 0,
        source: 0,
        target: 1,
    };
    let mut batch = Batch::start(alloc, plan, name, 1)?;
    batch.push(v, row)?;
    Ok(batch)
}

/// Whether a batch has a row of the vertex.
pub fn has_row(batch: &Batch, v: u32) -> bool
    ensures { result ≡ is_some (find_row batch.now.rows v) }
{
    batch.find(v).is_some()
}

/// The bytes of a batch.
pub fn bytes_of(alloc: Global, batch: &Batch) -> Result<Vec<u8>, AllocError>
    ensures { IfOk result (λ bytes. bytes.items ≡ batch_bytes batch.now) }
{
    batch.encode(alloc)
}

/// A batch out of bytes: whatever they are, it keeps the limits of batches, and these are its bytes.
pub fn batch_from(alloc: Global, plan: &Plan, bytes: &[u8]) -> Result<Batch, BatchError>
    ensures limits { IfOk result IsBatch }
    ensures bytes { IfOk result (λ b. bytes.now ≡ batch_bytes b) }
{
    Batch::decode(alloc, plan, bytes)
}
