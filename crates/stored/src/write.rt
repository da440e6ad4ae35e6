//! A graph, written as a stored one.

ghost use Rattle.std.specs.Prelude.{◌≡◌, ◌≢◌, ℕ, List, ◌<◌, ◌+◌, ◌-◌, ◌++◌, ◌≤◌, IfOk, IfErr, OnOk};
ghost use Rattle.std.specs.Prelude.{OnErr, Err, length, take, drop, true};
ghost use Rattle.std.specs.List.{flat_map};
ghost use Rattle.std.specs.Io.KnownBytes.{Appends, Keeps};
ghost use Rattle.ball_model.specs.Streams.{AreSure, PutsFront, RisesByOne};
ghost use Rattle.gapcode.specs.Bits.{AreBytesOf};
ghost use Rattle.stored.specs.Blocks.{EndsAt};
ghost use Rattle.stored.specs.Spooled.{PassesOn, waiting};
ghost use Rattle.stored.specs.Stored.{IsLabel, IsStorable, block_bytes, blocks_of, code_of};
ghost use Rattle.stored.specs.Stored.{head_bytes, label_lines, network_bytes, stored_of};
ghost use Rattle.stored.specs.Writing.{Halts, StopsWriting};

use crate::blocks::block_from;
use crate::error::{Failed, StoreError};
use crate::header::{MAGIC, VERSION};
use crate::sizes::LF;
use crate::spool::Spool;
use ball_model::CountedWrite;
use graph::Graph;
use std::alloc::Global;

/// Writes a graph as a stored one, version 1.
///
/// Beside the graph it takes memory for a block. It is refused with [`Labels`](StoreError::Labels) if a label is empty or
/// has an LF, before anything is written. With [`Write`](StoreError::Write) and [`Memory`](StoreError::Memory) a
/// beginning of the bytes is written, which is no stored graph. No write is tried again.
pub fn store<W: CountedWrite>(
    alloc: Global,
    graph: &Graph,
    writer: &mut W,
) -> Result<(), StoreError>
    // All bytes of the network are written, and then it has such bytes.
    ensures done { OnOk result (Appends (W.contents writer.old) (W.contents writer.new)
        (network_bytes (stored_of graph.now))) }
    ensures storable { OnOk result (IsStorable (stored_of graph.now)) }
    ensures counted { OnOk result (W.failed_calls writer.new ≡ W.failed_calls writer.old) }
    // It has none exactly if its labels are refused, and then nothing was written.
    ensures refused { result ≡ Err StoreError.Labels → IsStorable (stored_of graph.now) → ⊥ }
    ensures kept { result ≡ Err StoreError.Labels → writer.new ≡ writer.old }
    // Else a beginning is written: a call failed, which was not sure, or memory was refused.
    ensures halts { IfErr result (λ e. e ≢ StoreError.Labels →
        Halts W.contents W.failed_calls W.sure_calls W.room
        writer.old writer.new (network_bytes (stored_of graph.now)) e) }
{
    let text = text_len(graph)?;
    let mut spool = Spool::new();
    keep_header(graph, text, &mut spool, writer)?;
    keep_labels(graph, &mut spool, writer)?;
    keep_blocks(alloc, graph, &mut spool, writer)?;
    spool.seal(writer)?;
    Ok(())
}

// Whether a label may be stored.
fn is_label(label: &[u8]) -> bool
    ensures yes { result ≡ true → IsLabel label.now }
    ensures only { IsLabel label.now → result ≡ true }
{
    !label.is_empty() && !label.contains(&LF)
}

// How many bytes the labels have, with an LF after each.
fn text_len(graph: &Graph) -> Result<u64, StoreError>
    ensures value { IfOk result (λ n. n ≡ length (label_lines graph.now.labels)) }
    ensures storable { OnOk result (IsStorable (stored_of graph.now)) }
    ensures refused { OnErr result (IsStorable (stored_of graph.now) → ⊥) }
    ensures kind { IfErr result (λ e. e ≡ StoreError.Labels) }
{
    let mut sum = 0u128;
    for v in 0..graph.vertices() {
        let label = graph.label(v);
        if !is_label(label) {
            return Err(StoreError::Labels);
        }
        sum += label.len() as u128 + 1;
    }
    if sum > u128::from(u64::MAX) {
        return Err(StoreError::Labels);
    }
    Ok(sum as u64)
}

// What stands before the labels.
fn keep_header<W: CountedWrite>(
    graph: &Graph,
    text: u64,
    spool: &mut Spool,
    writer: &mut W,
) -> Result<(), Failed>
    requires { text ≡ length (label_lines graph.now.labels) }
    ensures done { OnOk result (PassesOn W.contents W.failed_calls W.sure_calls W.room
        writer.old writer.new spool.old spool.new (head_bytes (stored_of graph.now))) }
    ensures stops { OnErr result (StopsWriting W.contents W.failed_calls W.sure_calls W.room
        writer.old writer.new (waiting spool.old ++ head_bytes (stored_of graph.now))) }
{
    spool.keep_all(
        writer,
        &[
            &MAGIC.to_be_bytes(),
            &[VERSION],
            &graph.vertices().to_be_bytes(),
            &graph.edges().to_be_bytes(),
            &text.to_be_bytes(),
        ],
    )
}

// The labels, an LF after each.
fn keep_labels<W: CountedWrite>(
    graph: &Graph,
    spool: &mut Spool,
    writer: &mut W,
) -> Result<(), Failed>
    ensures done { OnOk result (PassesOn W.contents W.failed_calls W.sure_calls W.room
        writer.old writer.new spool.old spool.new (label_lines graph.now.labels)) }
    ensures stops { OnErr result (StopsWriting W.contents W.failed_calls W.sure_calls W.room
        writer.old writer.new (waiting spool.old ++ label_lines graph.now.labels)) }
{
    for v in 0..graph.vertices() {
        spool.keep_all(writer, &[graph.label(v), &[LF]])?;
    }
    Ok(())
}

// The blocks.
fn keep_blocks<W: CountedWrite>(
    alloc: Global,
    graph: &Graph,
    spool: &mut Spool,
    writer: &mut W,
) -> Result<(), StoreError>
    ensures done { OnOk result (PassesOn W.contents W.failed_calls W.sure_calls W.room
        writer.old writer.new spool.old spool.new
        (flat_map block_bytes (blocks_of (stored_of graph.now).preds))) }
    ensures halts { IfErr result (λ e. Halts W.contents W.failed_calls W.sure_calls W.room
        writer.old writer.new (waiting spool.old
        ++ flat_map block_bytes (blocks_of (stored_of graph.now).preds)) e) }
{
    let mut from = 0;
    while from < graph.vertices() {
        let block = block_from(alloc, graph, from)?;
        keep_block(block.to - from, &block.code, spool, writer)?;
        from = block.to;
    }
    Ok(())
}

// A block of `count` vertices with this code.
fn keep_block<W: CountedWrite>(
    count: u32,
    code: &[u8],
    spool: &mut Spool,
    writer: &mut W,
) -> Result<(), Failed>
    ensures done { (lists : List (List ℕ)) → length lists ≡ count →
        AreBytesOf (code_of lists) code.now →
        OnOk result (PassesOn W.contents W.failed_calls W.sure_calls W.room
        writer.old writer.new spool.old spool.new (block_bytes lists)) }
    ensures stops { (lists : List (List ℕ)) → length lists ≡ count →
        AreBytesOf (code_of lists) code.now →
        OnErr result (StopsWriting W.contents W.failed_calls W.sure_calls W.room
        writer.old writer.new (waiting spool.old ++ block_bytes lists)) }
{
    let length = code.len() as u64;
    spool.keep_all(writer, &[&count.to_be_bytes(), &length.to_be_bytes(), code])
}
