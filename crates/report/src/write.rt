//! The report, written piece by piece.

ghost use Rattle.std.specs.Prelude.{◌≡◌, ◌≢◌, ℕ, ◌≤◌, ◌<◌, Err, OnErr, OnOk, true};
ghost use Rattle.std.specs.List.{All};
ghost use Rattle.ball_model.specs.Streams.{RisesByOne};
ghost use Rattle.report.specs.Parts.{AreAmong, head_text, lines_from, lines_of_all, lists_in};
ghost use Rattle.report.specs.Parts.{totals_in};
ghost use Rattle.report.specs.Ready.{AddsFront, AddsReportOfAll, are_ready};
ghost use Rattle.report.specs.Written.{WritesText};

use crate::parts::{Block, head_of, vertices_text};
use crate::ready::is_stable;
use ball_model::{CountedWrite, put_all};
use graph::Graph;
use replica::{Replica, Shown};
use std::alloc::{AllocError, Global};
use std::ops::Range;
use std::thread::Threads;
use thiserror::Error;

/// Why a report was not written whole.
#[derive(Clone, Copy, Debug, PartialEq, Eq, Error)]
pub enum ReportError {
    /// Memory was refused.
    #[error("out of memory")]
    Memory,
    /// A write failed.
    #[error("the output cannot be written")]
    Write,
}

impl From<AllocError> for ReportError {
    ghost use Rattle.report.specs.declared.write.ReportError.TheVariants.{Memory};

    ghost from_gives = { λ _ e. e ≡ Memory };

    fn from(_e: AllocError) -> ReportError {
        ReportError::Memory
    }
}

// How many vertices have their lines in one piece of text.
const PIECE: u32 = 1024;

// How many vertices, at least, have their figures in memory at once.
const BLOCK: u32 = 8 * PIECE;

// Writes a piece of text.
fn put<W: CountedWrite>(writer: &mut W, text: &[u8]) -> Result<(), ReportError>
    ensures { WritesText W.contents W.failed_calls writer.old writer.new text.now result }
{
    if put_all(writer, text) {
        Ok(())
    } else {
        Err(ReportError::Write)
    }
}

// Writes the lines before the vertices, of replicas at superstep `end`.
fn put_top<W: CountedWrite>(
    alloc: Global,
    writer: &mut W,
    replicas: &[Replica],
    end: u32,
    stable: bool,
) -> Result<(), ReportError>
    requires { All (λ v. v.superstep ≡ end) replicas.now }
    ensures { WritesText W.contents W.failed_calls writer.old writer.new
        (head_text (totals_in replicas.now end) end stable) result }
{
    put(writer, &head_of(alloc, replicas, end, stable)?)
}

// Writes the lines of some vertices in one piece.
fn put_piece<W: CountedWrite>(
    alloc: Global,
    writer: &mut W,
    graph: &Graph,
    block: &Block,
    vertices: Range<u32>,
) -> Result<(), ReportError>
    requires places { (x : ℕ) → vertices.start ≤ x → x < vertices.end →
        AreAmong block.now.first (lists_in block.now.parts.items) x }
    requires from { vertices.start < vertices.end }
    requires to { vertices.end ≤ graph.now.graph.vertices }
    ensures { WritesText W.contents W.failed_calls writer.old writer.new
        (lines_from graph.now block.now vertices.start vertices.end) result }
{
    put(writer, &vertices_text(alloc, graph, block, vertices)?)
}

// Writes the lines of some vertices.
fn put_lines<W: CountedWrite>(
    alloc: Global,
    writer: &mut W,
    graph: &Graph,
    block: &Block,
    vertices: Range<u32>,
) -> Result<(), ReportError>
    requires places { (x : ℕ) → vertices.start ≤ x → x < vertices.end →
        AreAmong block.now.first (lists_in block.now.parts.items) x }
    requires from { vertices.start ≤ vertices.end }
    requires to { vertices.end ≤ graph.now.graph.vertices }
    ensures { WritesText W.contents W.failed_calls writer.old writer.new
        (lines_from graph.now block.now vertices.start vertices.end) result }
{
    let mut at = vertices.start;
    while at < vertices.end {
        let end = at + PIECE.min(vertices.end - at);
        put_piece(alloc, writer, graph, block, at..end)?;
        at = end;
    }
    Ok(())
}

// Writes the lines of all vertices, some of each partition at a time, so that all threads have work.
fn put_vertices<T: AllocGlobal + Threads + Sync, W: CountedWrite>(
    rt: &T,
    writer: &mut W,
    graph: &Graph,
    replicas: &[Replica],
    threads: usize,
) -> Result<(), ReportError>
    requires ready { are_ready replicas.now ≡ true }
    requires graph { All (λ v. v.part.plan.vertices ≡ graph.now.graph.vertices) replicas.now }
    ensures { WritesText W.contents W.failed_calls writer.old writer.new
        (lines_of_all graph.now replicas.now) result }
{
    let count = graph.vertices();
    let size = BLOCK.max(PIECE * u32::from(replicas[0].plan().parts()));
    let mut from = 0;
    while from < count {
        let to = from + size.min(count - from);
        let block = Block::of(rt, replicas, &(from..to), threads)?;
        put_lines(rt.alloc(), writer, graph, &block, from..to)?;
        from = to;
    }
    Ok(())
}

/// Writes the report of replicas at the end of their run.
///
/// Lines of comma-separated values: the neighbourhood function at each superstep, the end, the gain, and each vertex
/// with its label, estimate, harmonic centrality, closeness, Lin's index and number of empty registers, in order of
/// its number (HyperBall 2013). The figures of some vertices at a time are made by all processors, and the text is
/// written in pieces: what was written before an error is a beginning of the report.
///
/// For a library's user: the program does not call it.
pub fn write_report<T: AllocGlobal + Threads + Sync, W: CountedWrite>(
    rt: &T,
    writer: &mut W,
    graph: &Graph,
    replicas: &[Replica],
) -> Result<(), ReportError>
    requires ready { are_ready replicas.now ≡ true }
    requires graph { All (λ v. v.part.plan.vertices ≡ graph.now.graph.vertices) replicas.now }
    ensures ok { OnOk result (
        AddsReportOfAll W.contents writer.old writer.new graph.now replicas.now) }
    ensures front { OnErr result (
        AddsFront W.contents writer.old writer.new graph.now replicas.now) }
    ensures counted { result ≢ Err ReportError.Write →
        W.failed_calls writer.new ≡ W.failed_calls writer.old }
    ensures write { result ≡ Err ReportError.Write →
        RisesByOne (W.failed_calls writer.old) (W.failed_calls writer.new) }
{
    write_report_by(rt, writer, graph, replicas, 0)
}

/// Writes the report as [`write_report`] does. The figures are made by at most `threads` threads, or by all processors
/// if that is 0.
pub fn write_report_by<T: AllocGlobal + Threads + Sync, W: CountedWrite>(
    rt: &T,
    writer: &mut W,
    graph: &Graph,
    replicas: &[Replica],
    threads: usize,
) -> Result<(), ReportError>
    requires ready { are_ready replicas.now ≡ true }
    requires graph { All (λ v. v.part.plan.vertices ≡ graph.now.graph.vertices) replicas.now }
    ensures ok { OnOk result (
        AddsReportOfAll W.contents writer.old writer.new graph.now replicas.now) }
    ensures front { OnErr result (
        AddsFront W.contents writer.old writer.new graph.now replicas.now) }
    ensures counted { result ≢ Err ReportError.Write →
        W.failed_calls writer.new ≡ W.failed_calls writer.old }
    ensures write { result ≡ Err ReportError.Write →
        RisesByOne (W.failed_calls writer.old) (W.failed_calls writer.new) }
{
    let first = &replicas[0];
    let end = first.superstep();
    let stable = is_stable(first);
    put_top(rt.alloc(), writer, replicas, end, stable)?;
    put_vertices(rt, writer, graph, replicas, threads)
}
