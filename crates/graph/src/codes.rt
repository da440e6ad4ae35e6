//! The codes of edges, made by several threads.

ghost use Rattle.std.specs.Prelude.{◌≡◌, ◌+◌, ◌^◌, ◌<◌, ◌≤◌, ◌++◌, IfOk, length, reverse, take};
ghost use Rattle.std.specs.Thread.{IsSync};
ghost use Rattle.graph.specs.Codes.{AreTurned, sources_between};
ghost use Rattle.graph.specs.Edges.{AllBelow, EdgesAscend, below, source_lists};

use crate::build::{coded, last_run, push_sources, shorten, sort_edges};
use crate::edge::Edge;
use crate::lists::PredLists;
use gapcode::ListsBuilder;
use std::alloc::{AllocError, Global};
use std::thread::{Threads, join_mut};

// Fewer edges are not worth a thread.
const LEAST: usize = 16_384;

// The codes of a round, and the places where its lists begin, are held twice for a while. Its edges take 32 MiB, or
// more if one target has more of them; their codes take less, and the places 4 bytes a target.
const ROUND: u32 = 4_194_304;

/// How the work on codes is dealt out.
#[derive(Clone, Copy)]
pub(crate) struct Shares {
    pub(crate) threads: usize,
    /// Fewer edges are coded by one thread.
    pub(crate) least: usize,
    /// A round has at most this number of targets, and of edges too, unless one target alone has more.
    pub(crate) round: u32,
}

impl Shares {
    /// The usual shares for a number of threads.
    pub(crate) fn by(threads: usize) -> Shares {
        Shares {
            threads,
            least: LEAST,
            round: ROUND,
        }
    }
}

// Edges in reverse order, whose targets are from `from` on and below `to`, in a graph of `count` vertices.
#[derive(Clone, Copy)]
struct Block<'a> {
    edges: &'a [Edge],
    from: u32,
    to: u32,
    count: u32,
}

// How many edges are before those with targets below this one.
fn place_of(edges: &[Edge], target: u32) -> usize
    requires { EdgesAscend (reverse edges.now) }
    ensures inside { result ≤ length edges.now }
    ensures place { length edges.now ≡ result + below (reverse edges.now) target }
{
    let mut low = 0;
    let mut high = edges.len();
    while low < high {
        let mid = low + (high - low) / 2;
        if edges[mid].target >= target {
            low = mid + 1;
        } else {
            high = mid;
        }
    }
    low
}

// The sources of the edges with each target of a block.
fn code_block(alloc: Global, block: Block<'_>) -> Result<ListsBuilder, AllocError>
    requires order { block.from ≤ block.to }
    requires turned { AreTurned block.count block.from block.edges.now }
    ensures { IfOk result (λ lists. lists ≡ sources_between
        block.entry.count (reverse block.entry.edges.now) block.entry.from block.entry.to) }
{
    let mut builder = ListsBuilder::with_room(alloc, (block.to - block.from) as usize)?;
    let mut row = Vec::new(alloc);
    let mut left = block.edges.len();
    for target in block.from..block.to {
        let end = left - last_run(&block.edges[..left], target);
        builder = push_sources(builder, &mut row, &block.edges[end..left])?;
        left = end;
    }
    Ok(builder)
}

// The target at which a block is cut in two. The edges to targets below it are about the share of half of the threads.
fn middle(block: Block<'_>, threads: usize) -> u32
    requires threads { 0 < threads }
    requires order { block.from ≤ block.to }
    ensures first { block.entry.from ≤ result }
    ensures last { result ≤ block.entry.to }
{
    if block.from == block.to {
        return block.to;
    }
    let share = (block.edges.len() / threads).saturating_mul(threads / 2);
    let place = block.edges.len().saturating_sub(share).saturating_sub(1);
    match block.edges.get(place) {
        Some(edge) => edge.target.max(block.from + 1).min(block.to),
        None => block.to,
    }
}

// Makes what `code_block` makes, by halves of halves, each in a thread of its own if one can be made.
#[cycle(codes)]
fn code_parts<R: Threads + Sync>(
    rt: &R,
    alloc: Global,
    block: Block<'_>,
    shares: Shares,
) -> Result<ListsBuilder, AllocError>
    requires order { block.from ≤ block.to }
    requires turned { AreTurned block.count block.from block.edges.now }
    ensures { IfOk result (λ lists. lists ≡ sources_between
        block.entry.count (reverse block.entry.edges.now) block.entry.from block.entry.to) }
{
    if shares.threads < 2 || block.edges.len() < shares.least {
        return code_block(alloc, block);
    }
    let cut = middle(block, shares.threads);
    let place = place_of(block.edges, cut);
    let (back, front) = block.edges.split_at(place);
    let low = Block {
        edges: front,
        to: cut,
        ..block
    };
    let high = Block {
        edges: back,
        from: cut,
        ..block
    };
    code_both(rt, alloc, low, high, shares)
}

// The lists of two blocks, which are made side by side and then joined.
#[cycle(codes)]
fn code_both<R: Threads + Sync>(
    rt: &R,
    alloc: Global,
    low: Block<'_>,
    high: Block<'_>,
    shares: Shares,
) -> Result<ListsBuilder, AllocError>
    requires threads { 2 ≤ shares.threads }
    requires low_order { low.from ≤ low.to }
    requires low_turned { AreTurned low.count low.from low.edges.now }
    requires high_order { high.from ≤ high.to }
    requires high_turned { AreTurned high.count high.from high.edges.now }
    ensures { IfOk result (λ lists. lists ≡
        sources_between low.entry.count (reverse low.entry.edges.now) low.entry.from low.entry.to ++
        sources_between high.entry.count (reverse high.entry.edges.now)
        high.entry.from high.entry.to) }
{
    let few = Shares {
        threads: shares.threads / 2,
        ..shares
    };
    let others = Shares {
        threads: shares.threads - shares.threads / 2,
        ..shares
    };
    let mut first = ||
        requires { IsSync R.row × (low.from ≤ low.to) × AreTurned low.count low.from low.edges.now }
        ensures { IfOk result (λ lists. lists ≡ sources_between low.entry.count
            (reverse low.entry.edges.now) low.entry.from low.entry.to) }
    { code_parts(rt, alloc, low, few) };
    let mut second = ||
        requires { IsSync R.row × (high.from ≤ high.to)
            × AreTurned high.count high.from high.edges.now }
        ensures { IfOk result (λ lists. lists ≡ sources_between high.entry.count
            (reverse high.entry.edges.now) high.entry.from high.entry.to) }
    { code_parts(rt, alloc, high, others) };
    let (front, back) = join_mut(rt, &mut first, &mut second);
    front?.append(&back?.finish())
}

// The target before which a round ends that begins with the first target of `rest`: the first one whose edges the round
// has no room for, but never its own first one.
fn round_end(rest: Block<'_>, round: u32) -> u32
    requires { rest.from < rest.to }
    ensures first { rest.entry.from < result }
    ensures last { result ≤ rest.entry.to }
{
    let far = rest.from.saturating_add(round).min(rest.to);
    let end = match rest.edges.len().checked_sub(round as usize + 1) {
        Some(place) => rest.edges[place].target.min(far),
        None => far,
    };
    end.max(rest.from + 1)
}

// Appends the lists of the next round. Also returns the target before which the round ends, and how many edges stand
// before those of the round.
fn code_round<R: Threads + Sync>(
    rt: &R,
    alloc: Global,
    builder: ListsBuilder,
    rest: Block<'_>,
    shares: Shares,
) -> Result<(ListsBuilder, u32, usize), AllocError>
    requires order { rest.from < rest.to }
    requires turned { AreTurned rest.count rest.from rest.edges.now }
    ensures first { IfOk result (λ r. rest.entry.from < r.1) }
    ensures last { IfOk result (λ r. r.1 ≤ rest.entry.to) }
    ensures turned { IfOk result (λ r.
        AreTurned rest.entry.count r.1 (take r.2 rest.entry.edges.now)) }
    ensures lists { IfOk result (λ r. r.0 ++ sources_between rest.entry.count
        (reverse (take r.2 rest.entry.edges.now)) r.1 rest.entry.to ≡ builder ++ sources_between
        rest.entry.count (reverse rest.entry.edges.now) rest.entry.from rest.entry.to) }
{
    let to = round_end(rest, shares.round);
    let place = place_of(rest.edges, to);
    let (_, own) = rest.edges.split_at(place);
    let block = Block {
        edges: own,
        to,
        ..rest
    };
    let made = code_parts(rt, alloc, block, shares)?;
    let codes = made.finish();
    let lists = builder.append(&codes)?;
    Ok((lists, to, place))
}

// Makes what `coded` makes, by several threads. The edges of a round are dropped before those of the next are coded.
fn code_rounds<R: Threads + Sync>(
    rt: &R,
    alloc: Global,
    edges: &mut Vec<Edge>,
    count: u32,
    shares: Shares,
) -> Result<gapcode::Lists, AllocError>
    requires ascend { EdgesAscend (reverse edges.old.items) }
    requires below { AllBelow count (reverse edges.old.items) }
    ensures { IfOk result (λ lists. lists ≡ source_lists count (reverse edges.old.items)) }
{
    let mut builder = ListsBuilder::with_room(alloc, count as usize)?;
    let mut from = 0;
    while from < count {
        let rest = Block {
            edges: edges.as_slice(),
            from,
            to: count,
            count,
        };
        let (more, to, place) = code_round(rt, alloc, builder, rest, shares)?;
        builder = more;
        shorten(edges, place);
        from = to;
    }
    Ok(builder.finish())
}

// Makes what `coded` makes: one thread codes few edges, several code many.
fn coded_by<R: Threads + Sync>(
    rt: &R,
    alloc: Global,
    edges: &mut Vec<Edge>,
    count: u32,
    shares: Shares,
) -> Result<gapcode::Lists, AllocError>
    requires ascend { EdgesAscend (reverse edges.old.items) }
    requires below { AllBelow count (reverse edges.old.items) }
    ensures { IfOk result (λ lists. lists ≡ source_lists count (reverse edges.old.items)) }
{
    if shares.threads < 2 || edges.len() < shares.least {
        return coded(alloc, edges, count);
    }
    code_rounds(rt, alloc, edges, count, shares)
}

/// Makes what [`crate::build::lists_of`] makes, by several threads. Beside the memory that this takes, it holds the
/// codes and places of one round twice.
pub(crate) fn lists_of_by<R: Threads + Sync>(
    rt: &R,
    alloc: Global,
    mut edges: Vec<Edge>,
    count: u32,
    shares: Shares,
) -> Result<PredLists, AllocError>
    requires below { AllBelow count edges.items }
    requires few { length edges.items < 2 ^ 32 }
    ensures { IfOk result (λ lists. lists ≡ source_lists count edges.items) }
{
    sort_edges(&mut edges);
    let total = edges.len();
    edges.reverse();
    let lists = coded_by(rt, alloc, &mut edges, count, shares)?;
    Ok(PredLists::of(lists, total))
}
