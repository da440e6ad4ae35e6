//! What the bytes of a checkpoint say of a replica.

ghost use Rattle.std.specs.Prelude.{◌≡◌, ◌+◌, ◌^◌, ◌≤◌, ◌<◌, ◌++◌, ◌∷◌, [], ℕ, Bool, List};
ghost use Rattle.std.specs.Prelude.{length, map, drop, replicate, slice_index_or, Ok, Err, IfOk};
ghost use Rattle.std.specs.Prelude.{OnOk, IsOk, IfErr, vec_capacity};
ghost use Rattle.std.specs.List.{All, flat_map, range_with_len};
ghost use Rattle.ball_model.specs.Batches.{BatchValue, batch_bytes};
ghost use Rattle.batches.specs.Reading.{GivesBatchOrMemory, batch_at};
ghost use Rattle.ball_model.specs.Checkpoint.{early_bytes, mark_byte, entry_bytes, vertex_bytes};
ghost use Rattle.ball_model.specs.Checkpoint.{table_bytes, held_bytes, without_names};
ghost use Rattle.ball_model.specs.Figures.{TallyValue};
ghost use Rattle.ball_model.specs.PlanValue.{greatest_limit};
ghost use Rattle.ball_model.specs.State.{State};
ghost use Rattle.replica.specs.Saved.{IsKeepable, IsRebuilt};
ghost use Rattle.replica.specs.Seen.{IsState};
ghost use Rattle.std.specs.Int.{w16, w128, to_be_bytes};
ghost use Rattle.std.specs.Arc.{arc_value};
ghost use Rattle.figures.specs.Values.{value_of};
ghost use Rattle.batches.specs.Kept.{field};
ghost use Rattle.checkpoint.specs.Reading.{IsOfBody};
ghost use Rattle.checkpoint.specs.declared.sizes.TheConstants.{HEADER_LEN};
ghost use Rattle.checkpoint.specs.Spelling.{held_text, table_text};
ghost use Rattle.checkpoint.specs.Told.{IsAdded, AreNone, AreVerticesTold, HasRoomForAll, IsSmall};
ghost use Rattle.checkpoint.specs.Told.{IfOkButMemory, AreNext, AreOf, IsOfPlan, IsHeldOf};
ghost use Rattle.checkpoint.specs.Told.{HasShape, IsUnnamed};

use crate::error::KeepError;
use crate::header::{CheckpointHeader, u16_at};
use crate::sizes::{COUNT_LEN, ENTRY_LEN, HEADER_LEN, HEARD_LEN, LENGTH_LEN};
use crate::stream::u64_at;
use batches::{Batch, BatchError};
use figures::Tally;
use graph::Part;
use registers::{Rows, SourceMask};
use replica::Saved;
use std::alloc::{AllocError, Global};
use std::sync::Arc;

// The registers, marks and figures of vertices.
#[derive(Drop)]
struct Vertices {
    rows: Rows,
    marks: Vec<bool>,
    tallies: Vec<Tally>,
}

// What is heard of the superstep, and what is kept of later ones.
#[derive(Drop)]
struct Held {
    heard: SourceMask,
    heard_change: bool,
    accumulated: Rows,
    early: Vec<Arc<Batch>>,
}

// The first `count` bytes, and those after them.
fn split_off(bytes: &[u8], count: usize) -> Result<(&[u8], &[u8]), KeepError>
    ensures split { IfOk result (λ r. bytes.now ≡ r.0.now ++ r.1.now) }
    ensures length { IfOk result (λ r. length r.0.now ≡ count) }
    ensures only { count ≤ length bytes.now → IsOk result }
    ensures kind { IfErr result (λ e. e ≡ KeepError.Shape) }
{
    if bytes.len() < count {
        return Err(KeepError::Shape);
    }
    Ok(bytes.split_at(count))
}

// The big-endian number of sixteen bytes at a place.
fn u128_at(bytes: &[u8], at: usize) -> u128
    requires { at + 16 ≤ length bytes.now }
    ensures { result ≡ field w128 at bytes.now }
{
    let mut number = [0; 16];
    number.copy_from_slice(&bytes[at..at + 16]);
    u128::from_be_bytes(number)
}

// The number of sixteen bytes, and the bytes after it.
fn read_u128(bytes: &[u8]) -> Result<(u128, &[u8]), KeepError>
    ensures spelled { IfOk result (λ r. bytes.now ≡ to_be_bytes w128 r.0 ++ r.1.now) }
    ensures right { (n : ℕ) (rest : List ℕ) → n < 2 ^ 128 →
        bytes.now ≡ to_be_bytes w128 n ++ rest →
        IfOkButMemory result (λ r. (r.0 ≡ n) × (r.1.now ≡ rest)) }
    ensures kind { IfErr result (λ e. e ≡ KeepError.Shape) }
{
    let (number, rest) = split_off(bytes, 16)?;
    Ok((u128_at(number, 0), rest))
}

fn add<T: Drop>(items: &mut Vec<T>, item: T) -> Result<(), AllocError>
    ensures { OnOk result (items.new.items ≡ items.old.items ++ item ∷ []) }
{
    items.push(item)?;
    Ok(())
}

// A batch that may be shared.
fn shared(alloc: Global, batch: Batch) -> Result<Arc<Batch>, AllocError>
    ensures { IfOk result (λ b. arc_value b ≡ batch) }
{
    Ok(Arc::new(alloc, batch)?)
}

// A mark of one byte.
fn mark_of(byte: u8) -> Result<bool, KeepError>
    ensures spelled { IfOk result (λ mark. byte ≡ mark_byte mark) }
    ensures right { (mark : Bool) → byte ≡ mark_byte mark →
        IfOkButMemory result (λ r. r ≡ mark) }
    ensures kind { IfErr result (λ e. e ≡ KeepError.Shape) }
{
    match byte {
        0 => Ok(false),
        1 => Ok(true),
        _ => Err(KeepError::Shape),
    }
}

// The mark and the figures of a vertex, and the bytes after them.
fn figures_of(bytes: &[u8]) -> Result<((bool, Tally), &[u8]), KeepError>
    ensures spelled { IfOk result (λ r. bytes.now
        ≡ entry_bytes r.0.0 (value_of r.0.1) r.1.now) }
    ensures right { (mark : Bool) (tally : TallyValue) (rest : List ℕ) → IsSmall tally →
        bytes.now ≡ entry_bytes mark tally rest →
        IfOkButMemory result (λ r. (r.0.0 ≡ mark) × (value_of r.0.1 ≡ tally) × (r.1.now ≡ rest)) }
    ensures kind { IfErr result (λ e. e ≡ KeepError.Shape) }
{
    let (entry, rest) = split_off(bytes, ENTRY_LEN)?;
    let mark = mark_of(entry[0])?;
    let last = u64_at(entry, 1);
    let harm = u64_at(entry, 9);
    let dist = u128_at(entry, 17);
    match Tally::of(last, harm, dist) {
        Some(tally) => Ok(((mark, tally), rest)),
        None => Err(KeepError::Shape),
    }
}

// Adds the vertex with this index, whose registers are zeros so far, and returns the bytes after it.
fn add_vertex<'a>(vertices: &mut Vertices, i: usize, bytes: &'a [u8]) -> Result<&'a [u8], KeepError>
    requires place { i < length vertices.old.rows.rows }
    requires marks { length vertices.old.marks.items ≡ i }
    requires tallies { length vertices.old.tallies.items ≡ i }
    requires room { HasRoomForAll vertices.old }
    requires zeros { slice_index_or vertices.old.rows.rows i []
        ≡ replicate vertices.old.rows.width 0 }
    ensures added { IfOk result (λ rest.
        IsAdded vertices.old vertices.new i bytes.now rest.now) }
    ensures right { (mark : Bool) (tally : TallyValue) (row rest : List ℕ) → IsSmall tally →
        length row ≡ vertices.old.rows.width → bytes.now ≡ entry_bytes mark tally row ++ rest →
        IfOkButMemory result (λ r. AreNext vertices.old vertices.new i mark tally row
        × (r.now ≡ rest)) }
    ensures width { vertices.new.rows.width ≡ vertices.old.rows.width }
    ensures count { length vertices.new.rows.rows ≡ length vertices.old.rows.rows }
    ensures room { HasRoomForAll vertices.new }
    ensures kind { IfErr result (λ e. e ≡ KeepError.Shape) }
{
    let ((mark, tally), after) = figures_of(bytes)?;
    let (row, rest) = split_off(after, vertices.rows.width())?;
    vertices.marks.push_reserved(mark);
    vertices.tallies.push_reserved(tally);
    vertices.rows.raise(i, row);
    Ok(rest)
}

// Adds the vertices, ascending, if there are none yet, and returns the bytes after them.
fn add_vertices<'a>(vertices: &mut Vertices, bytes: &'a [u8]) -> Result<&'a [u8], KeepError>
    requires none { AreNone vertices.old }
    requires room { HasRoomForAll vertices.old }
    ensures told { IfOk result (λ rest.
        AreVerticesTold (length vertices.new.rows.rows) vertices.new bytes.now rest.now) }
    ensures right { (v : State) (rest : List ℕ) → IsKeepable v →
        length v.part.preds ≡ length vertices.old.rows.rows →
        2 ^ v.part.plan.log2m ≡ vertices.old.rows.width →
        bytes.now ≡ flat_map (vertex_bytes v) (range_with_len 0 (length v.part.preds)) ++ rest →
        IfOkButMemory result (λ r. AreOf v vertices.new × (r.now ≡ rest)) }
    ensures width { vertices.new.rows.width ≡ vertices.old.rows.width }
    ensures count { length vertices.new.rows.rows ≡ length vertices.old.rows.rows }
    ensures kind { IfErr result (λ e. e ≡ KeepError.Shape) }
{
    let mut rest = bytes;
    for i in 0..vertices.rows.len() {
        rest = add_vertex(vertices, i, rest)?;
    }
    Ok(rest)
}

// No vertices yet, with the room for all of the part.
fn no_vertices(alloc: Global, part: &Part) -> Result<Vertices, AllocError>
    ensures none { IfOk result AreNone }
    ensures room { IfOk result HasRoomForAll }
    ensures width { IfOk result (λ v. v.rows.width ≡ 2 ^ part.now.plan.log2m) }
    ensures count { IfOk result (λ v. length v.rows.rows ≡ length part.now.preds) }
{
    let size = part.size();
    Ok(Vertices {
        rows: Rows::fixed(alloc, size, part.plan().width() as u16)?,
        marks: Vec::with_capacity(alloc, size as usize)?,
        tallies: Vec::with_capacity(alloc, size as usize)?,
    })
}

// Adds `count` sums, for which there is room, and returns the bytes after them.
fn add_sums<'a>(sums: &mut Vec<u128>, count: usize, bytes: &'a [u8]) -> Result<&'a [u8], KeepError>
    requires none { sums.old.items ≡ [] }
    requires room { count ≤ vec_capacity sums.old }
    ensures spelled { IfOk result (λ rest. bytes.now
        ≡ flat_map (to_be_bytes w128) sums.new.items ++ rest.now) }
    ensures right { (wanted rest : List ℕ) → ((i : ℕ) → slice_index_or wanted i 0 < 2 ^ 128) →
        length wanted ≡ count → bytes.now ≡ flat_map (to_be_bytes w128) wanted ++ rest →
        IfOkButMemory result (λ r. (sums.new.items ≡ wanted) × (r.now ≡ rest)) }
    ensures count { OnOk result (length sums.new.items ≡ count) }
    ensures kind { IfErr result (λ e. e ≡ KeepError.Shape) }
{
    let mut rest = bytes;
    for _ in 0..count {
        let (sum, after) = read_u128(rest)?;
        sums.push_reserved(sum);
        rest = after;
    }
    Ok(rest)
}

// The sums at each superstep up to the one given, and the bytes after them.
fn read_sums(alloc: Global, superstep: u32, bytes: &[u8]) -> Result<(Vec<u128>, &[u8]), KeepError>
    requires { superstep ≤ greatest_limit }
    ensures spelled { IfOk result (λ r. bytes.now
        ≡ flat_map (to_be_bytes w128) r.0.items ++ r.1.now) }
    ensures right { (sums rest : List ℕ) → ((i : ℕ) → slice_index_or sums i 0 < 2 ^ 128) →
        length sums ≡ superstep + 1 → bytes.now ≡ flat_map (to_be_bytes w128) sums ++ rest →
        IfOkButMemory result (λ r. (r.0.items ≡ sums) × (r.1.now ≡ rest)) }
    ensures count { IfOk result (λ r. length r.0.items ≡ superstep + 1) }
    ensures kind { IfErr result IsOfBody }
{
    let count = superstep as usize + 1;
    let mut sums = Vec::with_capacity(alloc, count)?;
    let rest = add_sums(&mut sums, count, bytes)?;
    Ok((sums, rest))
}

// Puts the registers of each row, all of which are 0, and returns the bytes after them.
fn put_rows<'a>(rows: &mut Rows, bytes: &'a [u8]) -> Result<&'a [u8], KeepError>
    requires { All (λ row. row ≡ replicate rows.old.width 0) rows.old.rows }
    ensures spelled { IfOk result (λ rest.
        bytes.now ≡ flat_map (λ row. row) rows.new.rows ++ rest.now) }
    ensures right { (wanted : List (List ℕ)) (rest : List ℕ) →
        length wanted ≡ length rows.old.rows →
        ((i : ℕ) → i < length wanted → length (slice_index_or wanted i []) ≡ rows.old.width) →
        bytes.now ≡ flat_map (λ row. row) wanted ++ rest →
        IfOkButMemory result (λ r. (rows.new.rows ≡ wanted) × (r.now ≡ rest)) }
    ensures width { rows.new.width ≡ rows.old.width }
    ensures count { length rows.new.rows ≡ length rows.old.rows }
    ensures kind { IfErr result (λ e. e ≡ KeepError.Shape) }
{
    let mut rest = bytes;
    for i in 0..rows.len() {
        let (row, after) = split_off(rest, rows.width())?;
        rows.raise(i, row);
        rest = after;
    }
    Ok(rest)
}

// What a checkpoint's reader answers if a batch is refused.
fn refusal(e: BatchError) -> KeepError
    ensures memory { (b : BatchValue) → GivesBatchOrMemory (Err e) (Ok b) →
        result ≡ KeepError.Memory }
    ensures wanting { result ≡ KeepError.Memory → e ≡ BatchError.Memory }
    ensures kind { IsOfBody result }
{
    match e {
        BatchError::Memory => KeepError::Memory,
        _ => KeepError::Shape,
    }
}

// A batch of the job, which may be shared.
fn decode(alloc: Global, part: &Part, bytes: &[u8]) -> Result<Arc<Batch>, KeepError>
    ensures spelled { IfOk result (λ b. bytes.now ≡ batch_bytes (arc_value b)) }
    ensures right { (b : BatchValue) → IsOfPlan part.now.plan b → bytes.now ≡ batch_bytes b →
        IfOkButMemory result (λ r. arc_value r ≡ b) }
    ensures wanting { IfErr result (λ e. e ≡ KeepError.Memory →
        IsOk (batch_at part.now.plan bytes.now)) }
    ensures kind { IfErr result IsOfBody }
{
    match Batch::decode(alloc, part.plan(), bytes) {
        Ok(batch) => Ok(shared(alloc, batch)?),
        Err(e) => Err(refusal(e)),
    }
}

// A batch of the job, and the bytes after it.
fn read_batch<'a>(
    alloc: Global,
    part: &Part,
    bytes: &'a [u8],
) -> Result<(Arc<Batch>, &'a [u8]), KeepError>
    ensures spelled { IfOk result (λ r.
        bytes.now ≡ early_bytes (arc_value r.0) ++ r.1.now) }
    ensures right { (b : BatchValue) (rest : List ℕ) → IsOfPlan part.now.plan b →
        bytes.now ≡ early_bytes b ++ rest →
        IfOkButMemory result (λ r. (arc_value r.0 ≡ b) × (r.1.now ≡ rest)) }
    ensures kind { IfErr result IsOfBody }
{
    let (length, after) = split_off(bytes, LENGTH_LEN)?;
    let (spelling, rest) = split_off(after, u64_at(length, 0) as usize)?;
    Ok((decode(alloc, part, spelling)?, rest))
}

// Adds `count` batches, and returns the bytes after them.
fn add_batches<'a>(
    alloc: Global,
    part: &Part,
    count: u16,
    bytes: &'a [u8],
    early: &mut Vec<Arc<Batch>>,
) -> Result<&'a [u8], KeepError>
    requires { early.old.items ≡ [] }
    ensures spelled { IfOk result (λ rest.
        bytes.now ≡ flat_map early_bytes (map arc_value early.new.items) ++ rest.now) }
    ensures right { (batches : List BatchValue) → All (IsOfPlan part.now.plan) batches →
        length batches ≡ count → bytes.now ≡ flat_map early_bytes batches →
        IfOkButMemory result (λ r. (map arc_value early.new.items ≡ batches) × (r.now ≡ [])) }
    ensures count { OnOk result (length early.new.items ≡ count) }
    ensures kind { IfErr result IsOfBody }
{
    let mut rest = bytes;
    for _ in 0..count {
        let (batch, after) = read_batch(alloc, part, rest)?;
        add(early, batch)?;
        rest = after;
    }
    Ok(rest)
}

// The early batches, after their number; nothing follows them.
fn read_early(alloc: Global, part: &Part, bytes: &[u8]) -> Result<Vec<Arc<Batch>>, KeepError>
    ensures spelled { IfOk result (λ early. bytes.now ≡ to_be_bytes w16 (length early.items)
        ++ flat_map early_bytes (map arc_value early.items)) }
    ensures right { (batches : List BatchValue) → All (IsOfPlan part.now.plan) batches →
        length batches < 2 ^ 16 →
        bytes.now ≡ to_be_bytes w16 (length batches) ++ flat_map early_bytes batches →
        IfOkButMemory result (λ early. map arc_value early.items ≡ batches) }
    ensures kind { IfErr result IsOfBody }
{
    let (number, after) = split_off(bytes, COUNT_LEN)?;
    let mut early = Vec::new(alloc);
    let rest = add_batches(alloc, part, u16_at(number, 0), after, &mut early)?;
    if !rest.is_empty() {
        return Err(KeepError::Shape);
    }
    Ok(early)
}

// Accumulators of all vertices, which are 0.
fn no_rows(alloc: Global, part: &Part) -> Result<Rows, AllocError>
    ensures empty { IfOk result (λ rows. All (λ row. row ≡ replicate rows.width 0) rows.rows) }
    ensures width { IfOk result (λ rows. rows.width ≡ 2 ^ part.now.plan.log2m) }
    ensures count { IfOk result (λ rows. length rows.rows ≡ length part.now.preds) }
{
    Rows::fixed(alloc, part.size(), part.plan().width() as u16)
}

// What version 2 has of the batches that are held; nothing follows it.
fn read_held(alloc: Global, part: &Part, bytes: &[u8]) -> Result<Held, KeepError>
    ensures spelled { IfOk result (λ h. bytes.now ≡ held_text h.heard h.heard_change
        h.accumulated.rows (map arc_value h.early.items)) }
    ensures right { (v : State) → IsState v → v.part ≡ part.now → bytes.now ≡ held_bytes v →
        IfOkButMemory result (IsHeldOf v) }
    ensures width { IfOk result (λ h. h.accumulated.width ≡ 2 ^ part.now.plan.log2m) }
    ensures kind { IfErr result IsOfBody }
{
    let (fields, after) = split_off(bytes, HEARD_LEN)?;
    let heard_change = mark_of(fields[8])?;
    let mut accumulated = no_rows(alloc, part)?;
    let rest = put_rows(&mut accumulated, after)?;
    Ok(Held {
        heard: SourceMask::of_bits(u64_at(fields, 0)),
        heard_change,
        accumulated,
        early: read_early(alloc, part, rest)?,
    })
}

// Nothing heard, the accumulators equal to the rows, and nothing kept.
fn nothing_held(alloc: Global, part: &Part, rows: &Rows) -> Result<Held, KeepError>
    requires width { rows.now.width ≡ 2 ^ part.now.plan.log2m }
    requires count { length rows.now.rows ≡ length part.now.preds }
    ensures unnamed { IfOk result (IsUnnamed rows.now) }
    ensures kind { IfErr result (λ e. e ≡ KeepError.Memory) }
{
    let mut accumulated = no_rows(alloc, part)?;
    accumulated.copy_from(rows);
    Ok(Held {
        heard: SourceMask::empty(),
        heard_change: false,
        accumulated,
        early: Vec::new(alloc),
    })
}

// Vertices and sums, and the bytes after them.
fn read_table<'a>(
    alloc: Global,
    part: &Part,
    superstep: u32,
    bytes: &'a [u8],
) -> Result<(Vertices, Vec<u128>, &'a [u8]), KeepError>
    requires { superstep ≤ greatest_limit }
    ensures spelled { IfOk result (λ r. bytes.now ≡ table_text r.0.marks.items
        (map value_of r.0.tallies.items) r.0.rows.rows r.1.items ++ r.2.now) }
    ensures right { (v : State) (rest : List ℕ) → IsKeepable v → v.part ≡ part.now →
        v.superstep ≡ superstep → bytes.now ≡ table_bytes v ++ rest →
        IfOkButMemory result (λ r. AreOf v r.0 × (r.1.items ≡ v.sums) × (r.2.now ≡ rest)) }
    ensures width { IfOk result (λ r. r.0.rows.width ≡ 2 ^ part.now.plan.log2m) }
    ensures count { IfOk result (λ r. length r.0.rows.rows ≡ length part.now.preds) }
    ensures kind { IfErr result IsOfBody }
{
    let mut vertices = no_vertices(alloc, part)?;
    let after = add_vertices(&mut vertices, bytes)?;
    let (sums, rest) = read_sums(alloc, superstep, after)?;
    Ok((vertices, sums, rest))
}

// What is held: what version 2 has of it, or nothing in version 1.
fn held_of(
    alloc: Global,
    part: &Part,
    version: u8,
    rows: &Rows,
    bytes: &[u8],
) -> Result<Held, KeepError>
    requires width { rows.now.width ≡ 2 ^ part.now.plan.log2m }
    requires count { length rows.now.rows ≡ length part.now.preds }
    ensures spelled { version ≡ 2 → IfOk result (λ h. bytes.now ≡ held_text h.heard
        h.heard_change h.accumulated.rows (map arc_value h.early.items)) }
    ensures right { version ≡ 2 → (v : State) → IsState v → v.part ≡ part.now →
        bytes.now ≡ held_bytes v → IfOkButMemory result (IsHeldOf v) }
    ensures first { version ≡ 1 → (v : State) → rows.now.rows ≡ v.rows →
        bytes.now ≡ [] → IfOkButMemory result (IsHeldOf (without_names v)) }
    ensures none { version ≡ 1 → OnOk result (bytes.now ≡ []) }
    ensures unnamed { version ≡ 1 → IfOk result (IsUnnamed rows.now) }
    ensures width { IfOk result (λ h. h.accumulated.width ≡ 2 ^ part.now.plan.log2m) }
    ensures kind { IfErr result IsOfBody }
{
    if version != 1 {
        return read_held(alloc, part, bytes);
    }
    if !bytes.is_empty() {
        return Err(KeepError::Shape);
    }
    nothing_held(alloc, part, rows)
}

/// What the bytes up to the digest say of a replica of the part.
pub(crate) fn saved_of(
    alloc: Global,
    part: &Part,
    header: &CheckpointHeader,
    text: &[u8],
) -> Result<Saved, KeepError>
    requires { header.now.superstep ≤ greatest_limit }
    ensures shape { IfOk result (HasShape part.now header.now.superstep) }
    ensures bytes { OnOk result ((i : ℕ) → slice_index_or text.now i 0 < 256) }
    ensures spelled { header.now.version ≡ 2 → IfOk result (λ s. drop HEADER_LEN text.now ≡
        table_text s.marks.items (map value_of s.tallies.items) s.rows.rows s.sums.items
        ++ held_text s.heard s.heard_change s.accumulated.rows (map arc_value s.early.items)) }
    ensures first_spelled { header.now.version ≡ 1 → IfOk result (λ s. drop HEADER_LEN text.now ≡
        table_text s.marks.items (map value_of s.tallies.items) s.rows.rows s.sums.items) }
    ensures right { header.now.version ≡ 2 → (v : State) → IsKeepable v → v.part ≡ part.now →
        v.superstep ≡ header.now.superstep →
        drop HEADER_LEN text.now ≡ table_bytes v ++ held_bytes v →
        IfOkButMemory result (λ s. IsRebuilt part.now s v) }
    ensures first { header.now.version ≡ 1 → (v : State) → IsKeepable v → v.part ≡ part.now →
        v.superstep ≡ header.now.superstep → drop HEADER_LEN text.now ≡ table_bytes v →
        IfOkButMemory result (λ s. IsRebuilt part.now s (without_names v)) }
    ensures kind { IfErr result IsOfBody }
{
    let (_front, body) = split_off(text, HEADER_LEN)?;
    let (vertices, sums, rest) = read_table(alloc, part, header.superstep, body)?;
    let held = held_of(alloc, part, header.version, &vertices.rows, rest)?;
    Ok(Saved {
        superstep: header.superstep,
        rows: vertices.rows,
        marks: vertices.marks,
        tallies: vertices.tallies,
        sums,
        heard: held.heard,
        heard_change: held.heard_change,
        accumulated: held.accumulated,
        early: held.early,
    })
}
