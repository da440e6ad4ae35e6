//! What no clause says: worked supersteps of small graphs. Hashes are those under seed 0 at 16 registers: vertex 0 has
//! rank 3 in register 14, vertex 1 rank 1 in register 6, vertex 2 rank 2 in register 0.
//!
//! A test plays scripts, tables of steps: what is done, and what is to come of it.

mod again;
mod calls;
mod early;
mod facts;
mod jobs;
mod joins;
mod rebuilt;
mod refusals;
mod relay;
mod runs;
mod script;
mod shown;
mod snapshots;
mod table;
mod teams;
mod threads;
mod unions;

use super::*;
use ball_model::{BatchName, CloseError, MergeError, Plan, TakeError, Taken, Verdict};
use batches::Batch;
use figures::Tally;
use graph::{Delimiter, Graph, GraphBuilder, Part};
use registers::{Join, Rows, SourceMask, reconcile};
use std::alloc::AllocError;
use std::hash::RandomState;
use std::sync::Arc;

const ROW_A: [u8; 16] = [0, 0, 0, 0, 0, 0, 0, 0, 0, 0, 0, 0, 0, 0, 3, 0];

const ROW_B: [u8; 16] = [0, 0, 0, 0, 0, 0, 1, 0, 0, 0, 0, 0, 0, 0, 0, 0];

const ROW_C: [u8; 16] = [2, 0, 0, 0, 0, 0, 0, 0, 0, 0, 0, 0, 0, 0, 0, 0];

const ROW_AB: [u8; 16] = [0, 0, 0, 0, 0, 0, 1, 0, 0, 0, 0, 0, 0, 0, 3, 0];

const ROW_BC: [u8; 16] = [2, 0, 0, 0, 0, 0, 1, 0, 0, 0, 0, 0, 0, 0, 0, 0];

const ROW_ABC: [u8; 16] = [2, 0, 0, 0, 0, 0, 1, 0, 0, 0, 0, 0, 0, 0, 3, 0];

/// The sums of partition 0 of two edges at superstep 3.
const SUMS_OF_FIRST: [u128; 4] = [22_688_515, 23_071_484, 23_808_095, 23_808_095];

/// Those of partition 1.
const SUMS_OF_SECOND: [u128; 4] = [11_115_354, 11_780_376, 11_780_376, 11_780_376];

#[test]
fn laws_are_called() {
    laws::end_to_end();
    laws::window();
    laws::same_content();
    laws::what_is_had_fits();
}
