//! Estimates, and the figures of vertices.

ghost use Rattle.std.specs.Prelude.{◌≡◌, ◌≤◌, length, map, IfOk};
ghost use Rattle.std.specs.List.{All};
ghost use Rattle.ball_model.specs.declared.plan.TheConstants.{GREATEST_RANK};
ghost use Rattle.ball_model.specs.Figures.{estimate_of, fixed6_of};
ghost use Rattle.figures.specs.Values.{raw_figures_from, value_of};

use figures::{Figures, Tally, closeness, estimate, final_figures, fixed6, lin};
use registers::Rows;
use std::alloc::{AllocError, Global};
use std::thread::Threads;

/// How many vertices a counter of 16 registers has seen, as text.
pub fn estimate_text<'a>(row: &[u8], buffer: &'a mut [u8; 48]) -> &'a str
    requires width { length row.now ≡ 16 }
    requires ranks { All (λ r. r ≤ GREATEST_RANK) row.now }
    ensures { result.now ≡ fixed6_of (estimate_of 4 row.now) }
{
    fixed6(u128::from(estimate(4, row)), buffer)
}

/// The figures of a vertex whose ball is estimated at 1, 3 and 4 at supersteps 0, 1 and 2: its harmonic centrality is
/// 2 / 1 + 1 / 2, its closeness 1 / 4, and Lin's index 4 * 4 / 4.
pub fn of_three_estimates() -> (u64, u64, u128)
    ensures harmonic { result.0 ≡ 2500000 }
    ensures closeness { result.1 ≡ 250000 }
    ensures lin { result.2 ≡ 4000000 }
{
    let mut tally = Tally::start(1_000_000);
    tally.step(1, 3_000_000);
    tally.step(2, 4_000_000);
    (
        tally.harm,
        closeness(tally.dist),
        lin(tally.last, tally.dist),
    )
}

/// The figures of all vertices whose counters have 16 registers.
pub fn all_figures(
    rt: &(impl Threads + Sync),
    alloc: Global,
    rows: &Rows,
    tallies: &[Tally],
) -> Result<Vec<Figures>, AllocError>
    requires count { length tallies.now ≡ length rows.now.rows }
    requires width { rows.now.width ≡ 16 }
    requires ranks { All (λ row. All (λ r. r ≤ GREATEST_RANK) row) rows.now.rows }
    ensures { IfOk result (λ v.
        v.items ≡ raw_figures_from 4 rows.now.rows (map value_of tallies.now)) }
{
    final_figures(rt, alloc, 4, rows, tallies)
}
