//! Plans, hashes, names, and streams in memory.

ghost use Rattle.std.specs.Prelude.{◌≡◌, ◌%◌, if◌then◌else◌, IfOk};
ghost use Rattle.ball_model.specs.Hash.{hash_of, index_of, rank_of};
ghost use Rattle.ball_model.specs.Names.{node_stands_before, stands_before};
ghost use Rattle.ball_model.specs.PlanValue.{part_size};

use ball_model::{BatchName, CountedRead, MemReader, MemWriter, NodeId, Plan, mix, place, put_all};
use std::alloc::{AllocError, Global};

/// The register that a vertex falls into under a plan, and its rank there.
pub fn register_of(plan: &Plan, v: u32) -> (u16, u8)
    ensures index { result.0 ≡ index_of plan.now.log2m (hash_of plan.now.seed v) }
    ensures rank { result.1 ≡ rank_of plan.now.log2m (hash_of plan.now.seed v) }
{
    place(plan.log2m(), mix(plan.seed(), v))
}

/// How many vertices the partition of a vertex has.
pub fn size_around(plan: &Plan, v: u32) -> u32
    ensures { result ≡ part_size plan.now.vertices plan.now.parts (v % plan.now.parts) }
{
    plan.part_size(plan.partition_of(v))
}

/// The earlier of two batches' names.
pub fn earlier_name(a: BatchName, b: BatchName) -> BatchName
    ensures { result ≡ (if stands_before b a then b else a) }
{
    if b.is_before(&a) { b } else { a }
}

/// The earlier of two nodes.
pub fn earlier_node(a: NodeId, b: NodeId) -> NodeId
    ensures { result ≡ (if node_stands_before b a then b else a) }
{
    if b.is_before(&a) { b } else { a }
}

/// A reader whose second call is to fail has counted one failure after two calls.
pub fn failures_of_two(bytes: &[u8]) -> u64
    ensures { result ≡ 1 }
{
    let mut reader = MemReader::new(bytes, Some(2));
    let mut buffer = [0; 2];
    reader.get(&mut buffer);
    reader.get(&mut buffer);
    reader.failures()
}

/// The bytes again, by a writer that has room for just them.
pub fn copied(alloc: Global, bytes: &[u8]) -> Result<Vec<u8>, AllocError>
    ensures { IfOk result (λ copy. copy.items ≡ bytes.now) }
{
    let mut writer = MemWriter::with_room(alloc, bytes.len(), None)?;
    put_all(&mut writer, bytes);
    Ok(writer.into_bytes())
}
