//! Indexes and first tables that are made in threads.

use super::jobs::{begun, graph};
use super::shown::shows_all;
use super::*;
use std::alloc::AllocGlobal;
use std::thread::Threads;

/// Whether two replicas show the same sums at the same superstep.
fn tell_the_same(a: &Replica, b: &Replica) -> bool {
    a.superstep() == b.superstep() && a.sums() == b.sums()
}

/// Whether the second of two replicas, closed in that many threads, goes on as the first one does, to the end.
fn go_on_alike<R: Threads + Sync>(rt: &R, all: &mut [Replica], threads: usize) -> bool {
    let [first, second] = all else {
        return false;
    };
    for _ in 0..20 {
        let answer = first.close();
        if second.close_by(rt, threads) != answer || !tell_the_same(first, second) {
            return false;
        }
        if answer.is_err() {
            return true;
        }
    }
    false
}

/// Eleven vertices; ten link to the first, which is more than are looked at before the first of them.
const HUB: &[u8] =
    b"b\ta\nc\ta\nd\ta\ne\ta\nf\ta\ng\ta\nh\ta\ni\ta\nj\ta\nk\ta\na\tc\nb\tc\nc\td\nk\tj\n";

/// The sole part of a graph, whose rows are wider than a line of the cache.
fn sole_part(rt: &HostRuntime, text: &[u8]) -> Option<Part> {
    let graph = graph(rt, text)?;
    let plan = graph.plan(8, 0, 1, 4096).ok()?;
    graph.part(rt.alloc(), &plan, 0).ok()
}

/// A new replica of that part.
fn new_replica(rt: &HostRuntime, text: &[u8]) -> Option<Replica> {
    let part = Arc::new(rt.alloc(), sole_part(rt, text)?).ok()?;
    Replica::new(rt.alloc(), part).ok()
}

/// Graphs of eleven vertices, of two and of one that has no edge, and in how many threads each is indexed.
static INDEXED: [(&[u8], usize); 6] = [
    (HUB, 1),
    (HUB, 2),
    (HUB, 3),
    (HUB, 8),
    (b"a\tb\n", 8),
    (b"a\n", 2),
];

/// The replica of a part, which was indexed in so many threads, or by `Targets::of` if by none.
fn indexed<R: AllocGlobal + Threads + Sync>(
    rt: &R,
    part: Option<Part>,
    threads: usize,
) -> Option<Replica> {
    let part = part?;
    let targets = if threads == 0 {
        Targets::of(rt.alloc(), &part)
    } else {
        Targets::of_by(rt, &part, threads)
    };
    let targets = targets.ok()?;
    let part = Arc::new(rt.alloc(), part).ok()?;
    Replica::with_targets(rt.alloc(), part, targets).ok()
}

/// Adds it.
fn add_indexed<R: AllocGlobal + Threads + Sync>(
    rt: &R,
    all: &mut Vec<Replica>,
    part: Option<Part>,
    threads: usize,
) -> bool {
    match indexed(rt, part, threads) {
        Some(replica) => all.push(replica).is_ok(),
        None => false,
    }
}

/// Whether the replica of the sole part of a graph goes on as one does that was indexed by `Targets::of`: None if
/// memory was refused.
fn is_indexed_alike<R: AllocGlobal + Threads + Sync>(
    host: &HostRuntime,
    rt: &R,
    text: &[u8],
    threads: usize,
) -> Option<bool> {
    let mut all = Vec::new(rt.alloc());
    let added = add_indexed(rt, &mut all, sole_part(host, text), 0)
        && add_indexed(rt, &mut all, sole_part(host, text), threads);
    added.then_some(go_on_alike(rt, &mut all, 1))
}

/// Whether it is so of each of these graphs.
fn are_indexed_alike<R: AllocGlobal + Threads + Sync>(host: &HostRuntime, rt: &R) -> Option<bool> {
    let mut alike = true;
    for case in &INDEXED {
        let (text, threads) = *case;
        alike = is_indexed_alike(host, rt, text, threads)? && alike;
    }
    Some(alike)
}

/// A run of this test can refuse any one growth: then all is done again.
#[test]
fn indexes_whose_memory_is_refused(rt: HostRuntime) {
    let alike = are_indexed_alike(&rt, &rt).or(are_indexed_alike(&rt, &rt));
    assert_eq!(rt; alike, Some(true));
}

/// The new replica of a part whose index and first tables were made before, these in two threads.
fn prepared<R: AllocGlobal + Threads + Sync>(rt: &R, part: Part) -> Option<Replica> {
    let targets = Targets::of(rt.alloc(), &part).ok()?;
    let first = FirstTables::of_by(rt, &part, 2).ok()?;
    begun(rt.alloc(), part, targets, first)
}

/// Whether it tells in each reader what one does that makes all by itself.
fn begins_alike<R: AllocGlobal + Threads + Sync>(rt: &R, mut whole: Replica, part: Part) -> bool {
    match (prepared(rt, part), whole.snapshot(rt.alloc())) {
        (Some(replica), Ok(snapshot)) => shows_all(&replica, &snapshot),
        _ => false,
    }
}

#[test]
fn first_tables_change_nothing(rt: HostRuntime) {
    let alike = match (sole_part(&rt, HUB), new_replica(&rt, HUB)) {
        (Some(part), Some(whole)) => begins_alike(&rt, whole, part),
        _ => false,
    };
    assert!(rt; alike);
}
