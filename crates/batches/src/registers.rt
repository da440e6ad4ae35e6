//! Where the registers of a batch's rows lie.

ghost use Rattle.std.specs.Prelude.{◌≡◌, ℕ, ◌+◌, ◌*◌, ◌≤◌, ◌<◌, ◌++◌, ◌∷◌, [], length, take, drop};
ghost use Rattle.std.specs.Prelude.{IfOk, OnOk, OnErr};
ghost use Rattle.std.specs.List.{All, flat_map};
ghost use Rattle.ball_model.specs.Batches.{row_bytes};
ghost use Rattle.batches.specs.Kept.{paired_rows, flat_at};
ghost use Rattle.batches.specs.Held.{flat_of, LieIn};

use crate::header::put_u32;
use crate::rows::{push_row, row_of};
use std::alloc::{AllocError, Global};
use std::sync::Arc;

/// The registers of rows.
#[derive(Drop)]
pub(crate) enum Registers {
    /// They are the rows' own: one row after another.
    Own(Vec<u8>),
    /// They lie in a table that others share, each row at its place.
    Shared(Arc<Vec<u8>>, Vec<u32>),
}

/// The registers of row `i` of rows of `width` registers.
#[inline]
pub(crate) fn row_in(registers: &Registers, width: usize, i: usize) -> &[u8]
    requires lie { LieIn width registers.now }
    requires width { 0 < width }
    requires room { (i + 1) * width ≤ length (flat_of width registers.now) }
    ensures { result.now ≡ take width (drop (i * width) (flat_of width registers.now)) }
{
    match registers {
        Registers::Own(own) => row_of(own, width, i),
        Registers::Shared(table, places) => row_of(table, width, places[i] as usize),
    }
}

// The rows of `width` registers at some places of a table, one after another.
fn copied(alloc: Global, table: &[u8], width: usize, places: &[u32]) -> Result<Vec<u8>, AllocError>
    requires { All (λ p. (p + 1) * width ≤ length table.now) places.now }
    ensures { IfOk result (λ own. own.items ≡ flat_at width table.now places.now) }
{
    let mut own = Vec::new(alloc);
    for place in places {
        own.extend_from_slice(row_of(table, width, *place as usize))?;
    }
    Ok(own)
}

/// Appends a row to vertices and to registers, or leaves both as they are. Rows of a table are made own ones first.
pub(crate) fn push_onto(
    ids: &mut Vec<u32>,
    registers: &mut Registers,
    width: usize,
    id: u32,
    row: &[u8],
) -> Result<(), AllocError>
    requires { LieIn width registers.old }
    ensures ids { OnOk result (ids.new.items ≡ ids.old.items ++ id ∷ []) }
    ensures registers { OnOk result
        (flat_of width registers.new ≡ flat_of width registers.old ++ row.now) }
    ensures lie { LieIn width registers.new }
    ensures ids_stay { OnErr result (ids.new.items ≡ ids.old.items) }
    ensures registers_stay { OnErr result
        (flat_of width registers.new ≡ flat_of width registers.old) }
{
    match registers {
        Registers::Own(own) => push_row(ids, own, id, row),
        Registers::Shared(table, places) => {
            let mut own = copied(*places.allocator(), table, width, places)?;
            push_row(ids, &mut own, id, row)?;
            *registers = Registers::Own(own);
            Ok(())
        }
    }
}

/// Takes room for `more` registers at once, if the registers are the rows' own.
pub(crate) fn reserve(registers: &mut Registers, more: usize) -> Result<(), AllocError>
    ensures same { (m : ℕ) → flat_of m registers.new ≡ flat_of m registers.old }
    ensures lie { (m : ℕ) → LieIn m registers.old → LieIn m registers.new }
{
    match registers {
        Registers::Own(own) => own.reserve(more),
        Registers::Shared(_, _) => Ok(()),
    }
}

/// Appends rows of `width` registers as bytes.
pub(crate) fn put_rows(
    out: &mut Vec<u8>,
    width: usize,
    ids: &[u32],
    registers: &Registers,
) -> Result<(), AllocError>
    requires lie { LieIn width registers.now }
    requires width { 0 < width }
    requires room { length (flat_of width registers.now) ≡ length ids.now * width }
    ensures { OnOk result (out.new.items ≡ out.old.items
        ++ flat_map row_bytes (paired_rows width ids.now (flat_of width registers.now))) }
{
    for i in 0..ids.len() {
        put_u32(out, ids[i])?;
        out.extend_from_slice(row_in(registers, width, i))?;
    }
    Ok(())
}
