//! Rows of a batch, in memory and as bytes.

ghost use Rattle.std.specs.Prelude.{◌≡◌, ◌+◌, ◌*◌, ◌^◌, ◌≤◌, ◌<◌, ◌++◌, ◌∷◌, [], length, take};
ghost use Rattle.std.specs.Prelude.{drop, max, nat_lt, IfOk, OnOk, OnErr, Ok};
ghost use Rattle.std.specs.Result.{result_and};
ghost use Rattle.std.specs.List.{list_any, fold};
ghost use Rattle.std.specs.Int.{w32};
ghost use Rattle.ball_model.specs.declared.plan.TheConstants.{GREATEST_RANK, MOST_REGISTERS};
ghost use Rattle.batches.specs.Kept.{field, row_at, first_rows, paired_rows};
ghost use Rattle.batches.specs.Reading.{check_length, check_row, check_rows};

use crate::error::BatchError;
use crate::header::u32_at;
use ball_model::Plan;
use ball_model::plan::GREATEST_RANK;
use std::alloc::{AllocError, Global};

/// How many bytes a row has before its registers.
pub const ID_LEN: usize = 4;

/// The greatest register, or 0. There is no branch in the loop.
fn greatest(registers: &[u8]) -> u8
    ensures { result ≡ fold max 0 registers.now }
{
    registers
        .iter()
        .fold(0, |most, register| most.max(*register))
}

fn has_above(registers: &[u8]) -> bool
    ensures { result ≡ list_any (nat_lt GREATEST_RANK) registers.now }
{
    greatest(registers) > GREATEST_RANK
}

/// Whether rows have the length that is wanted.
#[tactic(auto, unfolding(crate::specs::Reading::check_length))]
pub(crate) fn check_len(wanted: usize, len: usize) -> Result<(), BatchError>
    ensures exact { result ≡ check_length wanted len }
    ensures equal { OnOk result (len ≡ wanted) }
{
    if len < wanted {
        return Err(BatchError::Short);
    }
    if len > wanted {
        return Err(BatchError::Trailing);
    }
    Ok(())
}

/// The vertex of the row at the front, which is to be of the source, and from `least` on.
#[tactic(auto, unfolding(crate::specs::Reading::check_row))]
fn check_first_row(plan: &Plan, source: u16, least: u32, bytes: &[u8]) -> Result<u32, BatchError>
    requires { 4 + 2 ^ plan.now.log2m ≤ length bytes.now }
    ensures exact { result_and result (Ok tt)
        ≡ check_row plan.now source least (row_at (2 ^ plan.now.log2m) bytes.now) }
    ensures id { IfOk result (λ id. (id ≡ field w32 0 bytes.now) × (id < plan.now.vertices)) }
{
    let id = u32_at(bytes, 0);
    if id >= plan.vertices() {
        return Err(BatchError::Vertex);
    }
    if plan.partition_of(id) != source {
        return Err(BatchError::Vertex);
    }
    if id < least {
        return Err(BatchError::Order);
    }
    if has_above(&bytes[ID_LEN..ID_LEN + plan.width()]) {
        return Err(BatchError::Rank);
    }
    Ok(id)
}

/// The first fault of the rows, row by row.
pub(crate) fn check_body(
    plan: &Plan,
    source: u16,
    count: u32,
    body: &[u8],
) -> Result<(), BatchError>
    requires { count * (4 + 2 ^ plan.now.log2m) ≤ length body.now }
    ensures { result ≡
        check_rows plan.now source 0 (first_rows (2 ^ plan.now.log2m) count body.now) }
{
    let size = ID_LEN + plan.width();
    let mut least = 0;
    let mut rest = body;
    for _ in 0..count {
        let id = check_first_row(plan, source, least, rest)?;
        let (_, after) = rest.split_at(size);
        least = id + 1;
        rest = after;
    }
    Ok(())
}

/// The registers of row `i` of rows of `width` registers.
pub(crate) fn row_of(registers: &[u8], width: usize, i: usize) -> &[u8]
    requires { (i + 1) * width ≤ length registers.now }
    ensures { result.now ≡ take width (drop (i * width) registers.now) }
{
    let (_, from_row) = registers.split_at(i * width);
    let (row, _) = from_row.split_at(width);
    row
}

/// Appends a row to vertices and to registers, or leaves both as they are.
pub(crate) fn push_row(
    ids: &mut Vec<u32>,
    registers: &mut Vec<u8>,
    id: u32,
    row: &[u8],
) -> Result<(), AllocError>
    ensures ids { OnOk result (ids.new.items ≡ ids.old.items ++ id ∷ []) }
    ensures registers { OnOk result (registers.new.items ≡ registers.old.items ++ row.now) }
    ensures ids_stay { OnErr result (ids.new.items ≡ ids.old.items) }
    ensures registers_stay { OnErr result (registers.new.items ≡ registers.old.items) }
{
    ids.reserve(1)?;
    registers.extend_from_slice(row)?;
    ids.push_reserved(id);
    Ok(())
}

// Reads rows of `width` registers, with none before them: their vertices and their registers.
fn read_each(
    ids: &mut Vec<u32>,
    registers: &mut Vec<u8>,
    width: usize,
    count: u32,
    body: &[u8],
) -> Result<(), AllocError>
    requires whole { length body.now ≡ count * (4 + width) }
    requires no_ids { ids.old.items ≡ [] }
    requires no_registers { registers.old.items ≡ [] }
    ensures rows { OnOk result
        (paired_rows width ids.new.items registers.new.items ≡ first_rows width count body.now) }
    ensures room { OnOk result
        (length registers.new.items ≡ length ids.new.items * width) }
{
    let mut rest = body;
    for _ in 0..count {
        let (id, from_row) = rest.split_at(ID_LEN);
        let (row, after) = from_row.split_at(width);
        push_row(ids, registers, u32_at(id, 0), row)?;
        rest = after;
    }
    Ok(())
}

/// Reads rows of `width` registers: their vertices and their registers.
pub(crate) fn read_rows(
    alloc: Global,
    width: usize,
    count: u32,
    body: &[u8],
) -> Result<(Vec<u32>, Vec<u8>), AllocError>
    requires small { width ≤ MOST_REGISTERS }
    requires whole { length body.now ≡ count * (4 + width) }
    ensures rows { IfOk result
        (λ r. paired_rows width r.0.items r.1.items ≡ first_rows width count body.now) }
    ensures room { IfOk result (λ r. length r.1.items ≡ length r.0.items * width) }
{
    let mut ids = Vec::with_capacity(alloc, count as usize)?;
    let mut registers = Vec::with_capacity(alloc, count as usize * width)?;
    read_each(&mut ids, &mut registers, width, count, body)?;
    Ok((ids, registers))
}
