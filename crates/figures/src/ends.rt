//! The figures of many vertices, in threads.

ghost use Rattle.std.specs.Prelude.{◌≡◌, ◌≤◌, ◌<◌, ◌*◌, ◌^◌, ℕ, List, [], IfOk, length, map};
ghost use Rattle.std.specs.Prelude.{slice_index, slice_index_or};
ghost use Rattle.std.specs.List.{All};
ghost use Rattle.ball_model.specs.declared.plan.TheConstants.{GREATEST_RANK};
ghost use Rattle.ball_model.specs.Figures.{closeness_of, estimate_of, lin_of};
ghost use Rattle.figures.specs.declared.tally.Tally.{Tally};
ghost use Rattle.figures.specs.Values.{AreFiguresAt, AreFiguresBy, AreWeighed, figures_from};
ghost use Rattle.figures.specs.Values.{items_between, raw_figures_from, value_of};

use super::estimates::EMPTY;
use super::{Tally, closeness, estimate, lin};
use rayon::iter::plumbing::LEAST_PIECE;
use rayon::prelude::*;
use registers::Rows;
use std::alloc::{AllocError, AllocGlobal, Global};
use std::ops::Range;
use std::thread::Threads;

/// What is reported of a vertex. The order of the fields keeps it at 48 bytes.
#[derive(Clone, Copy, Debug)]
pub struct Figures {
    /// The estimate of its ball, in millionths.
    pub estimate: u64,
    /// Its harmonic centrality, in millionths.
    pub harmonic: u64,
    /// Lin's index, in millionths.
    pub lin: u128,
    /// Its closeness, in millionths.
    pub closeness: u64,
    /// The number of registers of its row that are 0.
    pub empty: u32,
}

/// The figures of all vertices, in order: of each row and the tally at its place, what [`estimate`], [`closeness`],
/// [`lin`] and [`Rows::empty_count`] give. The estimate is the raw one of the row. The error is that memory was
/// refused.
///
/// The work is dealt out to as many threads as there are processors; the figures are the same for every split.
/// Fewer than 2,048 vertices are done in one thread. For a library's user: the program does not call it.
pub fn final_figures(
    rt: &(impl Threads + Sync),
    alloc: Global,
    log2m: u8,
    rows: &Rows,
    tallies: &[Tally],
) -> Result<Vec<Figures>, AllocError>
    requires low { 4 ≤ log2m }
    requires high { log2m ≤ 10 }
    requires count { length tallies.now ≡ length rows.now.rows }
    requires width { rows.now.width ≡ 2 ^ log2m }
    requires ranks { All (λ row. All (λ r. r ≤ GREATEST_RANK) row) rows.now.rows }
    ensures { IfOk result (λ v.
        v.items ≡ raw_figures_from log2m rows.now.rows (map value_of tallies.now)) }
{
    (0..tallies.len())
        .into_par_iter()
        .map(
            |i: usize| -> Figures
                requires low { 4 ≤ log2m }
                requires high { log2m ≤ 10 }
                requires tally { i < length tallies.now }
                requires row { i < length rows.now.rows }
                requires width { rows.now.width ≡ 2 ^ log2m }
                requires ranks { All (λ r. r ≤ GREATEST_RANK) (slice_index_or rows.now.rows i []) }
                ensures { (d : Tally) →
                    AreFiguresAt (estimate_of log2m (slice_index_or rows.entry.now.rows i []))
                    rows.entry.now.rows tallies.entry.now i d result }
            { figures_at(estimate(log2m, rows.row(i)), rows, tallies, i) },
        )
        .collect(rt, alloc)
}

// How many of `count` vertices a piece has at least. Then there are no more pieces than threads; if 0 threads are asked
// for, each piece is worth one, and there may be as many as the processors take.
fn least_piece(count: usize, threads: usize) -> usize
    ensures worth { LEAST_PIECE ≤ result }
    ensures few { 0 < threads → count ≤ threads * result }
{
    if threads == 0 {
        return LEAST_PIECE;
    }
    count.div_ceil(threads).max(LEAST_PIECE)
}

/// The figures of the vertices at these places, as far as there are such: for callers that have no room for all.
///
/// No row is read: the weight of each ([`weight`]) says how many of its registers are 0, and the estimate is the tally's
/// last one, raw or corrected as the tally was stepped.
///
/// The work is dealt out to at most `threads` threads; if that is 0, to as many as there are processors.
///
/// [`weight`]: crate::weight
pub fn figures_within(
    rt: &(impl AllocGlobal + Threads + Sync),
    weights: &[u64],
    tallies: &[Tally],
    places: Range<usize>,
    threads: usize,
) -> Result<Vec<Figures>, AllocError>
    requires count { length tallies.now ≡ length weights.now }
    ensures { IfOk result (λ v. (rows : List (List ℕ)) → AreWeighed rows weights.now →
        v.items ≡ items_between places.start places.end
        (figures_from rows (map value_of tallies.now))) }
{
    let end = places.end.min(tallies.len());
    let piece = least_piece(end.saturating_sub(places.start), threads);
    (places.start..end)
        .into_par_iter()
        .with_min_len(piece)
        .map(
            |i: usize| -> Figures
                requires tally { i < length tallies.now }
                requires weight { i < length weights.now }
                ensures { (d : Tally) → AreFiguresBy (slice_index weights.entry.now i)
                    (slice_index_or tallies.entry.now i d) result }
            { figures_by(weights[i], tallies[i]) },
        )
        .collect(rt, rt.alloc())
}

// The figures of vertex `i`, with this estimate of its ball.
fn figures_at(estimate: u64, rows: &Rows, tallies: &[Tally], i: usize) -> Figures
    requires tally { i < length tallies.now }
    requires row { i < length rows.now.rows }
    ensures { (d : Tally) → AreFiguresAt estimate rows.now.rows tallies.now i d result }
{
    figures_with(estimate, tallies[i], rows.empty_count(i))
}

// The figures of a vertex whose row has this weight.
fn figures_by(weight: u64, tally: Tally) -> Figures
    ensures { AreFiguresBy weight tally result }
{
    figures_with(tally.last, tally, (weight / EMPTY) as u32)
}

// The figures of a vertex: of the estimate of its ball, its tally, and how many registers of its row are 0.
fn figures_with(estimate: u64, tally: Tally, empty: u32) -> Figures
    ensures { result ≡ record {
      estimate = estimate;
      harmonic = tally.harm;
      closeness = closeness_of tally.dist;
      lin = lin_of estimate tally.dist;
      empty = empty;
    } }
{
    Figures {
        estimate,
        harmonic: tally.harm,
        closeness: closeness(tally.dist),
        lin: lin(estimate, tally.dist),
        empty,
    }
}
