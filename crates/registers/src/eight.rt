//! A row that becomes the maximum of itself and of eight others, in one pass.

ghost use Rattle.std.specs.Prelude.{◌≡◌, ◌↔◌, ◌<◌, ◌≤◌, ◌+◌, length, false, map};
ghost use Rattle.std.specs.List.{All};
ghost use Rattle.std.specs.Simd.Lanes.{chunk};
ghost use Rattle.registers.specs.Raised.{raised_over, rows_at, RaisesPiece};

use super::Rows;
use super::lanes::{HALF, LANES};
use std::simd::prelude::*;

// How many other rows there are.
const OTHERS: usize = 8;

// The 32 bytes of `row` from `i` on become the maximum of themselves and those of the others there; the answer is
// whether one of them changed.
fn raise_lanes_by(row: &mut [u8], others: &[&[u8]; OTHERS], i: usize) -> bool
    requires same_length { All (λ other. length other.now ≡ length row.old) others.now }
    requires within { i + 32 ≤ length row.old }
    ensures { RaisesPiece i 32 (map (λ other. other.now) others.now) row.old row.new result }
{
    let old = u8x32::from_slice(&row[i..]);
    let mut new = old;
    for other in others {
        new = new.simd_max(u8x32::from_slice(&other[i..]));
    }
    new.copy_to_slice(&mut row[i..]);
    new.simd_ne(old).any()
}

// The 16 bytes of `row` from `i` on become the maximum of themselves and those of the others there; the answer is
// whether one of them changed.
fn raise_half_by(row: &mut [u8], others: &[&[u8]; OTHERS], i: usize) -> bool
    requires same_length { All (λ other. length other.now ≡ length row.old) others.now }
    requires within { i + 16 ≤ length row.old }
    ensures { RaisesPiece i 16 (map (λ other. other.now) others.now) row.old row.new result }
{
    let before = u8x16::from_slice(&row[i..]);
    let mut after = before;
    for other in others {
        after = after.simd_max(u8x16::from_slice(&other[i..]));
    }
    after.copy_to_slice(&mut row[i..]);
    after.simd_ne(before).any()
}

// Byte `i` of `row` becomes the maximum of itself and those of the others there; the answer is whether it changed.
fn raise_register_by(row: &mut [u8], others: &[&[u8]; OTHERS], i: usize) -> bool
    requires same_length { All (λ other. length other.now ≡ length row.old) others.now }
    requires within { i + 1 ≤ length row.old }
    ensures { RaisesPiece i 1 (map (λ other. other.now) others.now) row.old row.new result }
{
    let mut most = row[i];
    for other in others {
        most = most.max(other[i]);
    }
    let changed = row[i] < most;
    row[i] = most;
    changed
}

// Each byte of `row` becomes the maximum of itself and those of the others there; the answer is whether one changed.
fn raise_by_all(row: &mut [u8], others: &[&[u8]; OTHERS]) -> bool
    requires { All (λ other. length other.now ≡ length row.old) others.now }
    ensures maximum { row.new ≡ raised_over row.old (map (λ other. other.now) others.now) }
    ensures unchanged { (result ≡ false) ↔ (row.new ≡ row.old) }
{
    let len = row.len();
    let mut changed = false;
    let mut done = 0;
    while len - done >= LANES {
        changed |= raise_lanes_by(row, others, done);
        done += LANES;
    }
    if len - done >= HALF {
        changed |= raise_half_by(row, others, done);
        done += HALF;
    }
    for i in done..len {
        changed |= raise_register_by(row, others, i);
    }
    changed
}

/// A row becomes the maximum of itself and of the rows of a table at eight places, register by register; the answer is
/// whether it changed.
///
/// It does what eight calls of [`crate::max_into`] do, one after the other, but reads and writes the row once.
pub fn raise_by_eight(rows: &Rows, places: &[u32], row: &mut [u8]) -> bool
    requires eight { length places.now ≡ 8 }
    requires inside { All (λ place. place < length rows.now.rows) places.now }
    requires width { length row.old ≡ rows.now.width }
    ensures maximum { row.new ≡ raised_over row.old (rows_at rows.now.rows places.now) }
    ensures unchanged { (result ≡ false) ↔ (row.new ≡ row.old) }
{
    let others = [
        rows.row(places[0] as usize),
        rows.row(places[1] as usize),
        rows.row(places[2] as usize),
        rows.row(places[3] as usize),
        rows.row(places[4] as usize),
        rows.row(places[5] as usize),
        rows.row(places[6] as usize),
        rows.row(places[7] as usize),
    ];
    raise_by_all(row, &others)
}
