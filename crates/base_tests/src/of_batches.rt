//! Batches and their bytes.

ghost use Rattle.std.specs.Prelude.{◌≡◌, ◌∷◌, [], false, length, IfOk};
ghost use Rattle.ball_model.specs.Batches.{ids_of};

mod damage;
mod refusals;
mod sharing;

use ball_model::{BatchName, Plan, PlanError};
use batches::{Batch, BatchError, laws};
use std::alloc::{AllocError, Global};
use std::test::Fail;

/// The job digest of the edges a to b and b to c, with log2m 4, seed 0, two partitions and a limit of 4096.
const JOB: [u8; 32] = [
    0xe4, 0x87, 0x78, 0x82, 0x8d, 0xfe, 0xa5, 0x0f, 0x8c, 0x6f, 0x4c, 0x3f, 0x13, 0xc9, 0x4f, 0xf2,
    0xeb, 0xd3, 0x33, 0xd7, 0xa4, 0x76, 0x10, 0x77, 0x8d, 0x84, 0xb6, 0xc7, 0xed, 0x7a, 0x08, 0xd3,
];

/// The counter of vertex 0 alone: register 14 has rank 3.
const ROW: [u8; 16] = [0, 0, 0, 0, 0, 0, 0, 0, 0, 0, 0, 0, 0, 0, 3, 0];

/// The name of what partition 0 sends partition 1 for superstep 0.
const NAME: BatchName = BatchName {
    superstep: 0,
    source: 0,
    target: 1,
};

/// The batch of that name: vertices 0 and 2 are changed, and 0 has an edge into partition 1.
const BYTES: [u8; 74] = [
    0x48, 0x42, 0x42, 0x54, // HBBT
    1, 4, // version, log2m
    0, 0, 0, 0, // superstep
    0, 0, 0, 1, // source, target
    0xe4, 0x87, 0x78, 0x82, 0x8d, 0xfe, 0xa5, 0x0f, 0x8c, 0x6f, 0x4c, 0x3f, 0x13, 0xc9, 0x4f, 0xf2,
    0xeb, 0xd3, 0x33, 0xd7, 0xa4, 0x76, 0x10, 0x77, 0x8d, 0x84, 0xb6, 0xc7, 0xed, 0x7a, 0x08, 0xd3,
    0, 0, 0, 2, // changed
    0, 0, 0, 1, // rows
    0, 0, 0, 0, // vertex 0
    0, 0, 0, 0, 0, 0, 0, 0, 0, 0, 0, 0, 0, 0, 3, 0,
];

/// A plan of three vertices in two partitions.
fn plan(job: [u8; 32]) -> Result<Plan, PlanError>
    ensures { IfOk result (λ p. p ≡ record {
      log2m = 4;
      seed = 0;
      parts = 2;
      limit = 4096;
      vertices = 3;
      corrected = false;
      job = job;
    }) }
{
    Plan::new(4, 0, 2, 4096, 3, job)
}

/// The bytes with some of them changed.
fn with(edits: &[(usize, u8)]) -> [u8; 74] {
    let mut bytes = BYTES;
    for (place, byte) in edits {
        if *place < 74 {
            bytes[*place] = *byte;
        }
    }
    bytes
}

/// A batch with the row of vertex 0.
fn one_row(alloc: Global) -> Result<Batch, Fail>
    ensures plan { IfOk result
        (λ b. (b.plan.log2m ≡ 4) × (b.plan.parts ≡ 2) × (b.plan.vertices ≡ 3)) }
    ensures name { IfOk result (λ b. (b.name.source ≡ 0) × (b.changed ≡ 2)) }
    ensures rows { IfOk result (λ b. ids_of b.rows ≡ 0 ∷ []) }
{
    let mut batch = Batch::start(alloc, &plan(JOB)?, NAME, 2)?;
    batch.push(0, &ROW)?;
    Ok(batch)
}

/// Whether there are two rows, the second is that of vertex 2, and vertex 1 has none.
fn tells_two(batch: &Batch) -> bool
    requires { length batch.now.rows ≡ 2 }
{
    batch.count() == 2
        && batch.id(1) == 2
        && batch.registers(1) == ROW.as_slice()
        && batch.find(1).is_none()
        && batch.find(2).is_some()
        && batch.length() == 94
}

/// Whether a batch with the row of vertex 0 has two rows once that of vertex 2 is added.
fn is_told(batch: &mut Batch) -> bool
    requires plan { (batch.old.plan.log2m ≡ 4) × (batch.old.plan.parts ≡ 2) × (batch.old.plan.vertices ≡ 3) }
    requires name { (batch.old.name.source ≡ 0) × (batch.old.changed ≡ 2) }
    requires rows { ids_of batch.old.rows ≡ 0 ∷ [] }
{
    let Ok(()) = batch.reserve(1) else {
        return false;
    };
    match batch.push(2, &ROW) {
        Ok(()) => tells_two(batch),
        Err(AllocError) => false,
    }
}

/// Whether a batch has the header of the batch, and its length.
fn has_header(batch: &Batch) -> bool {
    batch.length() == 74 && batch.header().as_slice() == &BYTES[..54]
}

/// Whether a batch is written as the bytes.
fn is_spelled(alloc: Global, batch: &Batch) -> bool {
    match batch.encode(alloc) {
        Ok(bytes) => bytes.as_slice() == BYTES.as_slice(),
        Err(AllocError) => false,
    }
}

/// Whether the batch with one row is written, with its header alone too, and has two rows once one is added.
fn is_written_and_told(alloc: Global) -> Result<bool, Fail> {
    let mut batch = one_row(alloc)?;
    Ok(is_spelled(alloc, &batch) & has_header(&batch) & is_told(&mut batch))
}

#[test]
fn batch_is_written_and_told(rt: HostRuntime) -> Result<(), Fail> {
    assert!(rt; is_written_and_told(rt.alloc())?);
    Ok(())
}

/// Whether a batch returns its name, the numbers of changed vertices and of rows, its own job, and the row of vertex 0.
fn tells_one(batch: &Batch) -> bool {
    batch.name() == NAME
        && batch.changed() == 2
        && batch.count() == 1
        && batch.plan().job() == JOB
        && matches!(batch.find(0), Some(row) if row == ROW.as_slice())
}

/// Whether the bytes do, under a plan of another job.
fn bytes_are_told(alloc: Global) -> Result<bool, BatchError> {
    match plan([9; 32]) {
        Ok(plan) => Ok(tells_one(&Batch::decode(alloc, &plan, &BYTES)?)),
        Err(_) => Ok(false),
    }
}

#[test]
fn batch_is_read(rt: HostRuntime) {
    assert_eq!(rt; bytes_are_told(rt.alloc()), Ok(true));
}

/// How many rows bytes have, or why they are no batch.
fn row_count(alloc: Global, plan: &Plan, bytes: &[u8]) -> Result<u32, BatchError> {
    Ok(Batch::decode(alloc, plan, bytes)?.count())
}

/// What bytes with some changed are refused for: of two faults, for the one that is checked first.
static REFUSED: [(&[(usize, u8)], BatchError); 17] = [
    (&[(0, 0), (4, 2)], BatchError::Magic),
    (&[(3, 0x55), (5, 5)], BatchError::Magic),
    (&[(4, 2), (5, 5)], BatchError::Version),
    (&[(4, 0)], BatchError::Version),
    (&[(5, 5), (6, 1)], BatchError::Size),
    (&[(8, 0x10), (9, 1), (49, 3)], BatchError::Name),
    (&[(11, 2), (49, 3)], BatchError::Name),
    (&[(13, 2), (49, 3)], BatchError::Name),
    (&[(11, 1)], BatchError::Count),
    (&[(49, 3)], BatchError::Count),
    (&[(53, 3)], BatchError::Count),
    (&[(53, 2)], BatchError::Short),
    (&[(53, 0)], BatchError::Trailing),
    (&[(11, 1), (49, 1)], BatchError::Vertex),
    (&[(57, 1)], BatchError::Vertex),
    (&[(57, 4), (72, 34)], BatchError::Vertex),
    (&[(72, 34)], BatchError::Rank),
];

/// Bytes with some changed are refused for that error.
fn is_refused(alloc: Global, plan: &Plan, edits: &[(usize, u8)], wanted: BatchError) -> bool {
    row_count(alloc, plan, &with(edits)) == Err(wanted)
}

/// The first error of that table that is not what is answered.
fn first_not_answered(alloc: Global, plan: &Plan) -> Option<BatchError> {
    for (edits, wanted) in &REFUSED {
        if !is_refused(alloc, plan, edits, *wanted) {
            return Some(*wanted);
        }
    }
    None
}

/// Bytes are read, and written again as they were.
fn is_kept(alloc: Global, plan: &Plan, bytes: &[u8]) -> Result<bool, BatchError> {
    let again = Batch::decode(alloc, plan, bytes)?.encode(alloc)?;
    Ok(again.as_slice() == bytes)
}

/// Places and bytes there that pass: limits themselves.
static LIMITS: [(usize, u8); 4] = [(8, 0x10), (57, 2), (72, 33), (13, 0)];

/// The first place of that table at which the bytes with that byte are not read and kept.
fn first_not_kept(alloc: Global, plan: &Plan) -> Option<usize> {
    for (place, byte) in &LIMITS {
        if is_kept(alloc, plan, &with(&[(*place, *byte)])) != Ok(true) {
            return Some(*place);
        }
    }
    None
}

/// The first length to which the bytes are cut and not refused as short.
fn first_not_short(alloc: Global, plan: &Plan) -> Option<usize> {
    for len in 0..74 {
        if row_count(alloc, plan, &BYTES[..len]) != Err(BatchError::Short) {
            return Some(len);
        }
    }
    None
}

/// What is not as it must be: an error, a length that is short, and a limit that passes.
fn first_otherwise(alloc: Global) -> Option<(Option<BatchError>, Option<usize>, Option<usize>)> {
    match plan(JOB) {
        Ok(plan) => Some((
            first_not_answered(alloc, &plan),
            first_not_short(alloc, &plan),
            first_not_kept(alloc, &plan),
        )),
        Err(_) => None,
    }
}

#[test]
fn each_check_refuses(rt: HostRuntime) {
    assert_eq!(rt; first_otherwise(rt.alloc()), Some((None, None, None)));
}

/// The bytes, and one more.
fn one_more() -> [u8; 75] {
    let mut all = [0u8; 75];
    all[..74].copy_from_slice(&BYTES);
    all
}

/// The bytes with a row of each of two vertices.
fn of_two(first: u8, second: u8) -> [u8; 94] {
    let mut all = [0u8; 94];
    all[..74].copy_from_slice(&with(&[(53, 2), (57, first)]));
    all[77] = second;
    all[78..].copy_from_slice(&ROW);
    all
}

/// How many rows are read of one byte more than the batch has; of two rows that ascend, that descend, and that are of
/// one vertex; and of a batch from partition 1 to itself that has none.
fn row_counts(alloc: Global, plan: &Plan) -> [Result<u32, BatchError>; 5] {
    let own = with(&[(11, 1), (49, 1), (53, 0)]);
    let (header, _) = own.split_at(54);
    [
        row_count(alloc, plan, &one_more()),
        row_count(alloc, plan, &of_two(0, 2)),
        row_count(alloc, plan, &of_two(2, 0)),
        row_count(alloc, plan, &of_two(2, 2)),
        row_count(alloc, plan, header),
    ]
}

/// How many rows are read of these under the plan.
fn rows_of_plan(alloc: Global) -> Option<[Result<u32, BatchError>; 5]> {
    match plan(JOB) {
        Ok(plan) => Some(row_counts(alloc, &plan)),
        Err(_) => None,
    }
}

#[test]
fn rows_ascend_and_end(rt: HostRuntime) {
    assert_eq!(rt;
        rows_of_plan(rt.alloc()),
        Some([
            Err(BatchError::Trailing),
            Ok(2),
            Err(BatchError::Order),
            Err(BatchError::Order),
            Ok(0)
        ])
    );
}

#[test]
fn laws_hold() {
    laws::spelling_is_read();
    laws::spelling_is_one();
    laws::batch_is_one();
    laws::spelling_has_length();
    laws::true_is_batch();
}

static TEXTS: [(BatchError, &str); 11] = [
    (BatchError::Short, "too few bytes"),
    (BatchError::Magic, "not a batch"),
    (BatchError::Version, "not of version 1"),
    (BatchError::Size, "another size of counters"),
    (BatchError::Name, "no batch has this name"),
    (BatchError::Count, "a count is too great"),
    (BatchError::Trailing, "bytes after the last row"),
    (BatchError::Vertex, "not a vertex of the source"),
    (BatchError::Order, "vertices do not ascend"),
    (BatchError::Rank, "a register is too great"),
    (BatchError::Memory, "out of memory"),
];

/// Whether an error has that text.
fn has_text(alloc: Global, error: BatchError, wanted: &str) -> bool {
    match format!(in alloc; "{error}") {
        Ok(text) => text.as_str() == wanted,
        Err(_) => false,
    }
}

/// The first error of that table that has another text.
fn first_of_another_text(alloc: Global) -> Option<BatchError> {
    for (error, wanted) in &TEXTS {
        if !has_text(alloc, *error, wanted) {
            return Some(*error);
        }
    }
    None
}

#[test]
fn errors_have_texts(rt: HostRuntime) {
    assert_eq!(rt; first_of_another_text(rt.alloc()), None);
}
