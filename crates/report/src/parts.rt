//! The parts of a report: totals and figures of all partitions, and their text.

ghost use Rattle.std.specs.Prelude.{◌≡◌, ℕ, ◌≤◌, ◌<◌, [], IfOk, OnOk, map, true};
ghost use Rattle.std.specs.List.{All};
ghost use Rattle.report.specs.Parts.{AreAmong, HasSize, figures_among, figures_at, figures_in};
ghost use Rattle.report.specs.Parts.{head_text, lines_from, lists_in, superstep_lines, total_in};
ghost use Rattle.report.specs.Parts.{totals_in};
ghost use Rattle.report.specs.Ready.{are_ready};
ghost use Rattle.report.specs.Rows.{Adds, AtRow};

use crate::lines::{bytes_written, put_end, put_gain, put_superstep, put_vertex, rows_in};
use csv::Writer;
use figures::{Figures, figures_within, gain};
use graph::Graph;
use replica::{Replica, Shown};
use std::alloc::{AllocError, Global};
use std::ops::Range;
use std::thread::Threads;

// The bytes of the usual line.
const USUAL_LINE: usize = 96;

// The sum of the partitions' sums at superstep `i`, or the greatest number of 128 bits if it is greater.
fn total(replicas: &[Replica], i: usize) -> u128
    requires { All (λ v. i ≤ v.superstep) replicas.now }
    ensures { result ≡ total_in replicas.now i }
{
    let mut sum = 0u128;
    for replica in replicas {
        sum = sum.saturating_add(replica.sums()[i]);
    }
    sum
}

// These at supersteps 0 to `end`.
fn totals(alloc: Global, replicas: &[Replica], end: u32) -> Result<Vec<u128>, AllocError>
    requires { All (λ v. v.superstep ≡ end) replicas.now }
    ensures { IfOk result (λ totals. totals.items ≡ totals_in replicas.now end) }
{
    let count = end as usize + 1;
    let mut totals = Vec::with_capacity(alloc, count)?;
    for i in 0..count {
        totals.push(total(replicas, i))?;
    }
    Ok(totals)
}

// The figures of a replica's vertices at some places, as far as there are such. At most `threads` threads make them,
// or all processors if that is 0.
fn own_figures<T: AllocGlobal + Threads + Sync>(
    rt: &T,
    replica: &Replica,
    places: Range<usize>,
    threads: usize,
) -> Result<Vec<Figures>, AllocError>
    ensures value { IfOk result (λ own.
        own.items ≡ figures_among places.start places.end replica.now) }
    ensures size { HasSize replica.now }
{
    replica.limits();
    figures_within(rt, replica.weights(), replica.tallies(), places, threads)
}

// Puts these of each replica into `parts`, which is empty.
fn put_figures<T: AllocGlobal + Threads + Sync>(
    rt: &T,
    parts: &mut Vec<Vec<Figures>>,
    replicas: &[Replica],
    places: &Range<usize>,
    threads: usize,
) -> Result<(), AllocError>
    requires { parts.old.items ≡ [] }
    ensures value { OnOk result (lists_in parts.new.items ≡
        map (figures_among places.now.start places.now.end) replicas.now) }
    ensures sizes { OnOk result (All HasSize replicas.now) }
{
    for replica in replicas {
        parts.push(own_figures(rt, replica, places.start..places.end, threads)?)?;
    }
    Ok(())
}

// These of each replica.
fn figures<T: AllocGlobal + Threads + Sync>(
    rt: &T,
    replicas: &[Replica],
    places: &Range<usize>,
    threads: usize,
) -> Result<Vec<Vec<Figures>>, AllocError>
    ensures value { IfOk result (λ parts.
        lists_in parts.items ≡ map (figures_among places.now.start places.now.end) replicas.now) }
    ensures sizes { OnOk result (All HasSize replicas.now) }
{
    let mut parts = Vec::with_capacity(rt.alloc(), replicas.len())?;
    put_figures(rt, &mut parts, replicas, places, threads)?;
    Ok(parts)
}

// The figures of some vertices: of each partition those at the places from `first` on.
#[derive(Drop)]
pub(crate) struct Block {
    pub(crate) first: usize,
    pub(crate) parts: Vec<Vec<Figures>>,
}

impl Block {
    // The figures of these vertices. At most `threads` threads make them, or all processors if that is 0.
    pub(crate) fn of<T: AllocGlobal + Threads + Sync>(
        rt: &T,
        replicas: &[Replica],
        vertices: &Range<u32>,
        threads: usize,
    ) -> Result<Block, AllocError>
        requires ready { are_ready replicas.now ≡ true }
        requires end { All (λ v. vertices.now.end ≤ v.part.plan.vertices) replicas.now }
        ensures places { IfOk result (λ block. (x : ℕ) →
            vertices.now.start ≤ x → x < vertices.now.end →
            AreAmong block.first (lists_in block.parts.items) x) }
        ensures figures { IfOk result (λ block. (x : ℕ) →
            vertices.now.start ≤ x → x < vertices.now.end →
            figures_at block.first (lists_in block.parts.items) x
            ≡ figures_at 0 (map figures_in replicas.now) x) }
    {
        let count = replicas.len();
        let first = vertices.start as usize / count;
        let last = (vertices.end as usize).div_ceil(count);
        let parts = figures(rt, replicas, &(first..last), threads)?;
        Ok(Block { first, parts })
    }

    // The figures of vertex `x`.
    fn figures_at(&self, x: u32) -> Figures
        requires { AreAmong self.now.first (lists_in self.now.parts.items) x }
        ensures { result ≡ figures_at self.now.first (lists_in self.now.parts.items) x }
    {
        let count = self.parts.len();
        self.parts[x as usize % count][x as usize / count - self.first]
    }
}

// The rows of all supersteps.
pub(crate) fn put_supersteps(rows: &mut Writer<Vec<u8>>, totals: &[u128]) -> Result<(), AllocError>
    requires { AtRow rows.old }
    ensures row { OnOk result (AtRow rows.new) }
    ensures text { OnOk result (Adds rows.old rows.new (superstep_lines totals.now)) }
{
    for (i, total) in totals.iter().enumerate() {
        put_superstep(rows, i, *total)?;
    }
    Ok(())
}

// The rows before the vertices.
fn put_head(
    rows: &mut Writer<Vec<u8>>,
    totals: &[u128],
    end: u32,
    stable: bool,
) -> Result<(), AllocError>
    requires { AtRow rows.old }
    ensures { OnOk result (Adds rows.old rows.new (head_text totals.now end stable)) }
{
    put_supersteps(rows, totals)?;
    put_end(rows, end, stable)?;
    put_gain(rows, gain(totals))?;
    Ok(())
}

// The text before the vertices.
fn head(alloc: Global, totals: &[u128], end: u32, stable: bool) -> Result<Vec<u8>, AllocError>
    ensures { IfOk result (λ text. text.items ≡ head_text totals.now end stable) }
{
    let mut rows = rows_in(Vec::new(alloc));
    put_head(&mut rows, totals, end, stable)?;
    bytes_written(rows)
}

// The text before the vertices, of replicas at superstep `end`.
pub(crate) fn head_of(
    alloc: Global,
    replicas: &[Replica],
    end: u32,
    stable: bool,
) -> Result<Vec<u8>, AllocError>
    requires { All (λ v. v.superstep ≡ end) replicas.now }
    ensures { IfOk result (λ text.
        text.items ≡ head_text (totals_in replicas.now end) end stable) }
{
    let totals = totals(alloc, replicas, end)?;
    head(alloc, &totals, end, stable)
}

// The rows of some vertices.
fn put_rows(
    rows: &mut Writer<Vec<u8>>,
    graph: &Graph,
    block: &Block,
    vertices: Range<u32>,
) -> Result<(), AllocError>
    requires row { AtRow rows.old }
    requires places { (x : ℕ) → vertices.start ≤ x → x < vertices.end →
        AreAmong block.now.first (lists_in block.now.parts.items) x }
    requires from { vertices.start ≤ vertices.end }
    requires to { vertices.end ≤ graph.now.graph.vertices }
    ensures { OnOk result (Adds rows.old rows.new
        (lines_from graph.now block.now vertices.start vertices.end)) }
{
    for x in vertices.start..vertices.end {
        put_vertex(rows, graph.label(x), block.figures_at(x))?;
    }
    Ok(())
}

// The text of these rows.
pub(crate) fn vertices_text(
    alloc: Global,
    graph: &Graph,
    block: &Block,
    vertices: Range<u32>,
) -> Result<Vec<u8>, AllocError>
    requires places { (x : ℕ) → vertices.start ≤ x → x < vertices.end →
        AreAmong block.now.first (lists_in block.now.parts.items) x }
    requires from { vertices.start ≤ vertices.end }
    requires to { vertices.end ≤ graph.now.graph.vertices }
    ensures { IfOk result (λ text.
        text.items ≡ lines_from graph.now block.now vertices.start vertices.end) }
{
    let room = (vertices.end - vertices.start) as usize * USUAL_LINE;
    let mut rows = rows_in(Vec::with_capacity(alloc, room)?);
    put_rows(&mut rows, graph, block, vertices)?;
    bytes_written(rows)
}
