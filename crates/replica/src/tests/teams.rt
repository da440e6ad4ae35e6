//! Supersteps of graphs of a dozen vertices, closed by teams that start threads at any size: rows are cut into blocks,
//! of which some have one row or none. What is to come of them is said vertex by vertex: its row becomes the maximum
//! of itself and of the rows of its predecessors, and its figures follow.

use super::calls::exchange;
use super::jobs::{begun, graph};
use super::shown::{shows_all, vertex_of};
use super::*;
use crate::team::{Sizes, Team};
use std::alloc::{AllocGlobal, Global};
use std::thread::Threads;

/// Eleven vertices; ten link to the first, which is more than are looked at before the first of them.
const HUB: &[u8] =
    b"b\ta\nc\ta\nd\ta\ne\ta\nf\ta\ng\ta\nh\ta\ni\ta\nj\ta\nk\ta\na\tc\nb\tc\nc\td\nk\tj\n";

/// A ring of twelve, of which each also links to the one three further: each superstep changes every row up to the
/// fourth.
const RING: &[u8] = b"a\tb\nb\tc\nc\td\nd\te\ne\tf\nf\tg\ng\th\nh\ti\ni\tj\nj\tk\nk\tl\nl\ta\n\
a\td\nb\te\nc\tf\nd\tg\ne\th\nf\ti\ng\tj\nh\tk\ni\tl\nj\ta\nk\tb\nl\tc\n";

/// How many threads are asked for.
static THREADS: [usize; 4] = [1, 2, 3, 8];

/// The registers of all vertices, from the replicas of all partitions.
fn table_of(alloc: Global, all: &[Replica], vertices: u32) -> Option<Vec<Vec<u8>>> {
    let mut table = Vec::new(alloc);
    for x in 0..vertices {
        let replica = all.get(x as usize % all.len().max(1))?;
        let row = vertex_of(replica, x)?.0.0;
        table.push(Vec::from_slice(alloc, row).ok()?).ok()?;
    }
    Some(table)
}

/// A row becomes the maximum of itself and of another one.
fn raise(row: &mut [u8], other: &[u8]) {
    for k in 0..row.len() {
        if k < other.len() {
            row[k] = row[k].max(other[k]);
        }
    }
}

/// What the row of a vertex becomes.
fn next_row(alloc: Global, graph: &Graph, table: &[Vec<u8>], x: u32) -> Option<Vec<u8>> {
    if graph.vertices() <= x {
        return None;
    }
    let mut row = Vec::from_slice(alloc, table.get(x as usize)?.as_slice()).ok()?;
    for z in graph.preds(x) {
        raise(&mut row, table.get(z as usize)?);
    }
    Some(row)
}

/// What figures become, at that superstep, with that estimate.
fn next_figures(old: (u64, u64, u128), t: u32, last: u64) -> Option<(u64, u64, u128)> {
    let gain = last.checked_sub(old.0)?;
    let harm = old.1.checked_add(gain.checked_div(u64::from(t))?)?;
    let dist = old
        .2
        .checked_add(u128::from(gain).checked_mul(u128::from(t))?)?;
    Some((last, harm, dist))
}

/// What was shown of all vertices at a superstep: their registers and figures.
#[derive(Drop)]
struct Level {
    table: Vec<Vec<u8>>,
    figures: Vec<(u64, u64, u128)>,
}

/// What replicas show.
fn level_of(alloc: Global, all: &[Replica], vertices: u32) -> Option<Level> {
    let table = table_of(alloc, all, vertices)?;
    let mut found = Vec::new(alloc);
    for x in 0..vertices {
        let replica = all.get(x as usize % all.len().max(1))?;
        found.push(vertex_of(replica, x)?.2).ok()?;
    }
    Some(Level {
        table,
        figures: found,
    })
}

/// Whether a vertex shows what it has to, one superstep after a level: its row, what is accumulated for it, its
/// figures, and whether it changed; and the estimate of its row.
fn is_next(
    alloc: Global,
    graph: &Graph,
    before: &Level,
    replica: &Replica,
    x: u32,
) -> Option<(bool, u64)> {
    if !replica.owns(x) {
        return None;
    }
    let row = next_row(alloc, graph, &before.table, x)?;
    let estimate = figures::estimate(replica.plan().log2m(), replica.row(x));
    let old = *before.figures.get(x as usize)?;
    let moved = next_figures(old, replica.superstep(), estimate)?;
    let changed = row.as_slice() != before.table.get(x as usize)?.as_slice();
    let ((shown, _), accumulated, figures, mark) = vertex_of(replica, x)?;
    let rows = shown == row.as_slice() && accumulated == row.as_slice();
    Some((rows && figures == moved && mark == changed, estimate))
}

/// Whether all vertices do, and the last sum of each partition is that of its estimates.
fn are_next(alloc: Global, graph: &Graph, before: &Level, all: &[Replica]) -> Option<bool> {
    let mut right = true;
    for place in 0..all.len() {
        let replica = all.get(place)?;
        let mut sum = 0;
        for x in 0..graph.vertices() {
            if x as usize % all.len().max(1) == place {
                let (is, estimate) = is_next(alloc, graph, before, replica, x)?;
                right &= is;
                sum = u128::from(estimate).checked_add(sum)?;
            }
        }
        right &= replica.sums().last().copied() == Some(sum);
    }
    Some(right)
}

/// Whether a snapshot shows what its vertices had at a level, in so many partitions.
fn still_shows(before: &Level, snapshot: &Snapshot, parts: usize) -> Option<bool> {
    let mut right = true;
    for x in 0..snapshot.plan().vertices() {
        if x as usize % parts.max(1) == usize::from(snapshot.partition()) {
            let ((row, _), _, figures, _) = vertex_of(snapshot, x)?;
            right &= row == before.table.get(x as usize)?.as_slice();
            right &= Some(&figures) == before.figures.get(x as usize);
        }
    }
    Some(right)
}

/// The replica of a part, whose index and first tables a team has made.
fn made_by<R: AllocGlobal + Threads + Sync>(team: &Team<'_, R>, part: Part) -> Option<Replica> {
    let targets = Targets::of_by(team.rt, &part, team.threads).ok()?;
    let first = FirstTables::of_by(team.rt, &part, team.threads).ok()?;
    begun(team.rt.alloc(), part, targets, first)
}

/// The replicas of all partitions of a graph, with rows of 2^log2m registers.
fn replicas<R: AllocGlobal + Threads + Sync>(
    team: &Team<'_, R>,
    graph: &Graph,
    log2m: u8,
    parts: u16,
) -> Option<Vec<Replica>> {
    let alloc = team.rt.alloc();
    let plan = graph.plan(log2m, 0, parts, 4096).ok()?;
    let mut all = Vec::new(alloc);
    for p in 0..plan.parts() {
        let part = graph.part(alloc, &plan, p).ok()?;
        all.push(made_by(team, part)?).ok()?;
    }
    Some(all)
}

/// What is done beside closing: nothing; a snapshot of each replica is held as it closes; it is merged then, though it
/// has nothing new to tell; each replica is one that took over a snapshot of the one before; every other superstep is
/// closed by one thread.
#[derive(Clone, Copy)]
enum Beside {
    Nothing,
    Held,
    Merged,
    Recalled,
    Turned,
}

/// A new replica of a partition that has taken over a snapshot of another one, if it shows the same.
fn recalled(alloc: Global, replica: &mut Replica) -> Option<Replica> {
    let snapshot = replica.snapshot(alloc).ok()?;
    let part = Arc::try_clone(&replica.stage.part).ok()?;
    let mut other = Replica::new(alloc, part).ok()?;
    other.merge(alloc, &snapshot).ok()?;
    shows_all(&other, &snapshot).then_some(other)
}

/// Closes the superstep of one replica, which holds its level; whether it went on, and a snapshot shows what it did.
fn close_one<R: Threads + Sync>(
    alloc: Global,
    team: &Team<'_, R>,
    replica: &mut Replica,
    (before, parts): (&Level, usize),
    beside: Beside,
) -> Option<bool> {
    match beside {
        Beside::Nothing => Some(replica.close_in(team).is_ok()),
        Beside::Held => {
            let snapshot = replica.snapshot(alloc).ok()?;
            let went_on = replica.close_in(team).is_ok();
            Some(still_shows(before, &snapshot, parts)? && went_on)
        }
        Beside::Merged => {
            let snapshot = replica.snapshot(alloc).ok()?;
            let went_on = replica.close_in(team).is_ok();
            replica.merge(alloc, &snapshot).ok()?;
            Some(went_on)
        }
        Beside::Recalled => {
            let went_on = replica.close_in(team).is_ok();
            *replica = recalled(alloc, replica)?;
            Some(went_on)
        }
        Beside::Turned if replica.superstep() % 2 == 1 => Some(replica.close().is_ok()),
        Beside::Turned => Some(replica.close_in(team).is_ok()),
    }
}

/// Closes one superstep of all replicas, which hold their level: whether all went on to what is to come.
fn close_all<R: Threads + Sync>(
    alloc: Global,
    team: &Team<'_, R>,
    graph: &Graph,
    all: &mut [Replica],
    beside: Beside,
) -> Option<bool> {
    let before = level_of(alloc, all, graph.vertices())?;
    let parts = all.len();
    let mut right = true;
    for place in 0..parts {
        let replica = all.get_mut(place)?;
        right &= close_one(alloc, team, replica, (&before, parts), beside)?;
    }
    Some(are_next(alloc, graph, &before, all)? && right)
}

/// How many vertices have changed at the superstep, in all partitions.
fn changed_in(all: &[Replica]) -> u32 {
    let mut count = 0;
    for place in 0..all.len() {
        count = all[place].changed_count().saturating_add(count);
    }
    count
}

/// A graph, the number of registers as a power of 2, and of partitions, and how many vertices change at each superstep
/// from 1 on, if no two fall into one register.
#[derive(Drop)]
struct Run<'a> {
    graph: &'a Graph,
    log2m: u8,
    parts: u16,
    counts: &'a [u32],
}

/// Whether a graph goes on to the end as it has to.
fn goes_on<R: AllocGlobal + Threads + Sync>(
    host: &HostRuntime,
    team: &Team<'_, R>,
    run: &Run<'_>,
    beside: Beside,
) -> Option<bool> {
    let alloc = host.alloc();
    let mut all = replicas(team, run.graph, run.log2m, run.parts)?;
    let mut right = true;
    for count in run.counts {
        right &= exchange(host, &mut all, 0, usize::from(run.parts));
        right &= close_all(alloc, team, run.graph, &mut all, beside)?;
        let changed = changed_in(&all);
        right &= run.log2m < 8 || changed == *count;
        if changed == 0 {
            return Some(give_back(host, run, &mut all)? && right);
        }
    }
    Some(false)
}

/// Whether replicas whose run is over show the same once they have given back what only going on needs.
fn give_back(host: &HostRuntime, run: &Run<'_>, all: &mut [Replica]) -> Option<bool> {
    let mut right = exchange(host, all, 0, usize::from(run.parts));
    for replica in all.iter_mut() {
        let snapshot = replica.snapshot(host.alloc()).ok()?;
        replica.give_back();
        right &= shows_all(replica, &snapshot);
    }
    Some(right)
}

/// Whether it does so by teams of 1, 2, 3 and 8 threads that begin at any size, whatever is done beside.
fn goes_on_by_teams<R: AllocGlobal + Threads + Sync>(
    host: &HostRuntime,
    rt: &R,
    run: &Run<'_>,
) -> Option<bool> {
    let mut right = true;
    for threads in &THREADS {
        let team = Team {
            rt,
            threads: *threads,
            sizes: Sizes { few: 0, many: 0 },
        };
        right &= goes_on(host, &team, run, Beside::Nothing)?;
        right &= goes_on(host, &team, run, Beside::Held)?;
        right &= goes_on(host, &team, run, Beside::Merged)?;
        right &= goes_on(host, &team, run, Beside::Recalled)?;
        right &= goes_on(host, &team, run, Beside::Turned)?;
    }
    Some(right)
}

/// Whether it does so in one, two and three partitions, at 256 registers, and at 16, where two threads spread rows and
/// step figures block by block.
fn goes_on_in_parts<R: AllocGlobal + Threads + Sync>(
    host: &HostRuntime,
    rt: &R,
    text: &[u8],
    counts: &[u32],
) -> Option<bool> {
    let graph = graph(host, text)?;
    let mut right = true;
    for parts in 1..4u16 {
        for log2m in [4, 8] {
            let run = Run {
                graph: &graph,
                log2m,
                parts,
                counts,
            };
            right &= goes_on_by_teams(host, rt, &run)?;
        }
    }
    Some(right)
}

/// Whether it does: if memory is refused all is done again, since a run of a test can refuse any one growth.
fn goes_on_at_last<R: AllocGlobal + Threads + Sync>(
    host: &HostRuntime,
    rt: &R,
    text: &[u8],
    counts: &[u32],
) -> bool {
    let right = match goes_on_in_parts(host, rt, text, counts) {
        None => goes_on_in_parts(host, rt, text, counts),
        right => right,
    };
    right == Some(true)
}

/// The hub, c, d and j hear somebody new at superstep 1. Then c and d hear what the hub has heard, and at last d what
/// c has.
#[test]
fn hubs_by_teams(rt: HostRuntime) {
    assert!(rt; goes_on_at_last(&rt, &rt, HUB, &[4, 2, 1, 0]));
}

/// Steps of one and of three lead round a ring of twelve: each vertex hears somebody new up to superstep 5.
#[test]
fn rings_by_teams(rt: HostRuntime) {
    assert!(rt; goes_on_at_last(&rt, &rt, RING, &[12, 12, 12, 12, 12, 0]));
}

/// Whether the ring goes on by three threads, each replica taking over a snapshot of the one before.
fn ring_goes_on_by_three<R: AllocGlobal + Threads + Sync>(
    host: &HostRuntime,
    rt: &R,
) -> Option<bool> {
    let graph = graph(host, RING)?;
    let team = Team {
        rt,
        threads: 3,
        sizes: Sizes { few: 0, many: 0 },
    };
    let run = Run {
        graph: &graph,
        log2m: 8,
        parts: 1,
        counts: &[12, 12, 12, 12, 12, 0],
    };
    goes_on(host, &team, &run, Beside::Recalled)
}

/// It does, whichever growth or thread a run of this test refuses: without a thread the others do its work, and without
/// memory all is done again.
#[test]
fn a_ring_where_memory_is_refused(rt: HostRuntime) {
    let right = match ring_goes_on_by_three(&rt, &rt) {
        None => ring_goes_on_by_three(&rt, &rt),
        right => right,
    };
    assert!(rt; right == Some(true));
}
