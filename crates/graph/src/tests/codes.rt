//! Lists of sources that several threads make, round by round.

ghost use Rattle.std.specs.Prelude.{◌≡◌, ◌^◌, ◌<◌, IfOk, length};
ghost use Rattle.graph.specs.Edges.{AllBelow, edge_of};

use crate::Preds;
use crate::codes::{Shares, lists_of_by};
use crate::edge::Edge;
use crate::lists::PredLists;
use std::alloc::{AllocError, AllocGlobal, Global};
use std::thread::Threads;

// The edge to a target from a source.
fn edge(target: u32, source: u32) -> Edge
    ensures { result ≡ edge_of target source }
{
    Edge { target, source }
}

// Edges in no order, one of them twice, between vertices below 6.
fn edges(alloc: Global) -> Result<Vec<Edge>, AllocError>
    ensures below { IfOk result (λ edges. AllBelow 6 edges.items) }
    ensures few { IfOk result (λ edges. length edges.items < 2 ^ 32) }
{
    let edges = Vec::from_array(
        alloc,
        [
            edge(2, 4),
            edge(0, 2),
            edge(2, 1),
            edge(5, 0),
            edge(2, 0),
            edge(0, 1),
            edge(3, 5),
            edge(2, 1),
            edge(2, 2),
        ],
    )?;
    Ok(edges)
}

// The sources of each target.
static LISTS: [&'static [u32]; 6] = [&[1, 2], &[], &[0, 1, 2, 4], &[5], &[], &[0]];

// Whether these are the elements.
fn is_list(list: Preds<'_>, wanted: &[u32]) -> bool {
    let mut right = true;
    let mut rest = wanted;
    for y in list {
        match rest.split_first() {
            Some((first, more)) => {
                right &= *first == y;
                rest = more;
            }
            None => right = false,
        }
    }
    right && rest.is_empty()
}

// Whether these are the lists.
fn are_lists(lists: &PredLists) -> bool {
    if lists.len() != LISTS.len() {
        return false;
    }
    let mut right = true;
    for i in 0..LISTS.len() {
        right &= is_list(lists.list(i), LISTS[i]);
    }
    right
}

// Whether these lists are made, if the work is dealt out by these shares.
fn are_made<R: AllocGlobal + Threads + Sync>(rt: &R, shares: Shares) -> bool {
    let Ok(edges) = edges(rt.alloc()) else {
        return false;
    };
    match lists_of_by(rt, rt.alloc(), edges, 6, shares) {
        Ok(lists) => are_lists(&lists),
        Err(_) => false,
    }
}

static THREADS: [usize; 4] = [1, 2, 3, 8];

// Target 2 has more edges than the first rounds take.
static ROUNDS: [u32; 5] = [0, 1, 2, 3, 100];

// Whether they are made by this number of threads, by any shares.
fn are_made_by<R: AllocGlobal + Threads + Sync>(rt: &R, threads: usize) -> bool {
    let mut right = true;
    for round in &ROUNDS {
        for least in 0..4 {
            let shares = Shares {
                threads,
                least,
                round: *round,
            };
            right &= are_made(rt, shares);
        }
    }
    right
}

#[test]
fn lists_round_by_round(rt: HostRuntime) {
    let mut right = true;
    for threads in &THREADS {
        right &= are_made_by(&rt, *threads);
    }
    assert!(rt; right);
}
