//! Whether last estimates are those of their rows.

ghost use Rattle.std.specs.Prelude.{◌≡◌, ◌↔◌, ℕ, ◌<◌, ◌≤◌, ◌^◌, true, IsTrue, length, map, []};
ghost use Rattle.std.specs.Prelude.{slice_index_or};
ghost use Rattle.std.specs.List.{All};
ghost use Rattle.ball_model.specs.declared.plan.TheConstants.{GREATEST_RANK};
ghost use Rattle.ball_model.specs.Figures.{estimate_with};
ghost use Rattle.figures.specs.Values.{small_table, value_of};

use crate::Tally;
use crate::estimates::{by_table, fill, registers};
use ball_model::plan::MOST_REGISTERS;
use registers::Rows;

/// Whether the last estimate of each tally is that of the row at its place, of 2^log2m registers, raw or corrected for
/// small sets as an [`Estimator`](crate::Estimator) makes them.
///
/// It takes no memory, and the time of an estimate a row.
pub fn are_last(log2m: u8, is_corrected: bool, rows: &Rows, tallies: &[Tally]) -> bool
    requires low { 4 ≤ log2m }
    requires high { log2m ≤ 10 }
    requires count { length tallies.now ≡ length rows.now.rows }
    requires width { rows.now.width ≡ 2 ^ log2m }
    requires ranks { (i : ℕ) → i < length rows.now.rows →
        All (λ r. r ≤ GREATEST_RANK) (slice_index_or rows.now.rows i []) }
    ensures { IsTrue result ↔ (map (λ tally. tally.last) (map value_of tallies.now) ≡
        map (estimate_with (record { log2m = log2m; corrected = is_corrected })) rows.now.rows) }
{
    let m = registers(log2m);
    let mut small = [0; MOST_REGISTERS + 1];
    let (table, _) = small.split_at_mut(m + 1);
    if is_corrected {
        fill(table, m);
    }
    are_by_table(log2m, is_corrected, table, rows, tallies)
}

// Whether the last estimate of each tally is that of its row. What small sets are estimated at is read off a table.
fn are_by_table(
    log2m: u8,
    is_corrected: bool,
    small: &[u64],
    rows: &Rows,
    tallies: &[Tally],
) -> bool
    requires low { 4 ≤ log2m }
    requires high { log2m ≤ 10 }
    requires table { is_corrected ≡ true → small.now ≡ small_table (2 ^ log2m) }
    requires count { length tallies.now ≡ length rows.now.rows }
    requires width { rows.now.width ≡ 2 ^ log2m }
    requires ranks { (i : ℕ) → i < length rows.now.rows →
        All (λ r. r ≤ GREATEST_RANK) (slice_index_or rows.now.rows i []) }
    ensures { IsTrue result ↔ ((i : ℕ) → i < length rows.now.rows →
        slice_index_or (map (λ tally. tally.last) tallies.now) i 0 ≡ estimate_with
        (record { log2m = log2m; corrected = is_corrected })
        (slice_index_or rows.now.rows i [])) }
{
    for i in 0..rows.len() {
        if tallies[i].last != by_table(log2m, is_corrected, small, rows.row(i)) {
            return false;
        }
    }
    true
}
