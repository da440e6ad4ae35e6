//! The blocks of a stored graph: where each ends, and its code.

ghost use Rattle.std.specs.Prelude.{◌≡◌, ◌-◌, ◌^◌, ◌++◌, ◌<◌, ◌||◌, ℕ, List, length, nat_le};
ghost use Rattle.std.specs.Prelude.{take, drop, IfOk, OnOk};
ghost use Rattle.std.specs.List.{sum_by};
ghost use Rattle.ball_model.specs.Graph.{preds_of};
ghost use Rattle.gapcode.specs.Bits.{AreBytesOf};
ghost use Rattle.gapcode.specs.Lists.{list_bits, AscendsFrom};
ghost use Rattle.stored.specs.Blocks.{EndsAt};
ghost use Rattle.stored.specs.Reading.{is_block};
ghost use Rattle.stored.specs.Stored.{code_of, stored_of};

use crate::sizes::{BLOCK_BITS, BLOCK_VERTICES};
use gapcode::{BitWriter, Lists, put_gamma};
use graph::{Graph, Preds};
use std::alloc::{AllocError, Global};

/// The block that begins with some vertex.
#[derive(Drop)]
pub(crate) struct Block {
    /// The vertex behind its last.
    pub(crate) to: u32,
    /// The gap code of its lists.
    pub(crate) code: Vec<u8>,
}

// Whether `count` vertices with that many bits of code make a block full.
fn is_full(count: u64, bits: u128) -> bool
    ensures { result ≡ (nat_le (2 ^ 16) count || nat_le (2 ^ 20) bits) }
{
    count >= u64::from(BLOCK_VERTICES) || bits >= BLOCK_BITS
}

// ---- writing

// Appends the code of a list.
fn put_list(writer: &mut BitWriter, list: &[u32]) -> Result<(), AllocError>
    requires { AscendsFrom 0 list.now }
    ensures { OnOk result (writer.new ≡ writer.old ++ list_bits list.now) }
{
    put_gamma(writer, list.len() as u64 + 1)?;
    let mut least = 0;
    for x in list {
        let next = *x as u64 + 1;
        put_gamma(writer, next - least)?;
        least = next;
    }
    Ok(())
}

// Puts predecessors in place of what the row had.
fn put_preds(row: &mut Vec<u32>, preds: Preds<'_>) -> Result<(), AllocError>
    ensures { OnOk result (row.new.items ≡ preds.entry) }
{
    row.clear();
    for y in preds {
        row.push(y)?;
    }
    Ok(())
}

// The block that begins with this vertex.
pub(crate) fn block_from(alloc: Global, graph: &Graph, from: u32) -> Result<Block, AllocError>
    requires { from < graph.now.graph.vertices }
    ensures ends { IfOk result (λ b. EndsAt (stored_of graph.now).preds from b.to) }
    ensures code { IfOk result (λ b. (lists : List (List ℕ)) →
        lists ≡ take (b.to - from) (drop from (stored_of graph.now).preds) →
        AreBytesOf (code_of lists) b.code.items) }
{
    let mut writer = BitWriter::new(alloc);
    let mut row = Vec::new(alloc);
    let mut to = from;
    while to < graph.vertices() && !is_full(u64::from(to - from), writer.len()) {
        put_preds(&mut row, graph.preds(to))?;
        put_list(&mut writer, &row)?;
        to += 1;
    }
    Ok(Block {
        to,
        code: writer.finish(),
    })
}

// ---- reading

// Whether these lists are a block: no list follows a full block, and they are a full one or the last.
// Only the last list has to be left out for the first part, since a block grows with each list.
pub(crate) fn are_block(lists: &Lists, last: bool) -> bool
    ensures { result ≡ is_block last lists.now }
{
    let count = lists.len();
    if count == 0 || is_full(count as u64 - 1, lists.bits_of_first(count - 1)) {
        return false;
    }
    last || is_full(count as u64, lists.bits_of_first(count))
}

// The number of elements of all lists.
pub(crate) fn elements_of(lists: &Lists) -> u128
    ensures { result ≡ sum_by length lists.now }
{
    let mut sum = 0u128;
    for i in 0..lists.len() {
        sum += u128::from(lists.list(i).len());
    }
    sum
}
