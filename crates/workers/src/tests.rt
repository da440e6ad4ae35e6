//! What no clause says: worked runs of one node and of many.

mod counts;
mod estimates;
mod gates;
mod refusals;
mod rows;
mod runs;
mod schedules;
mod tables;
mod watched;

ghost use Rattle.std.specs.Arc.{arc_value};
ghost use Rattle.std.specs.Prelude.{◌≡◌, ◌<◌, ◌≤◌, IfSome};
ghost use Rattle.ball_model.specs.Job.{IsJob, job_of, part_of};
ghost use Rattle.board.specs.declared.board.TheConstants.{LEAST_ENTRIES, MOST_ENTRIES};

use super::*;
use ball_model::{CountingReader, NodeId, Plan, Verdict};
use edgelist::{Delimiter, EdgeLimits, Graph, Part, read_edges};
use replica::{Replica, Shown};
use std::alloc::{AllocGlobal, Global};
use std::hash::RandomState;
use std::random::RandomSource;
use std::sync::atomic::{AtomicU32, Ordering};
use std::sync::{Arc, Wait};
use std::thread::Threads;

const TWO_EDGES: &[u8] = b"a\tb\nb\tc\n";

/// The graph of two edges.
fn two_edges<R: RandomSource>(rt: &R, alloc: Global) -> Option<Graph> {
    let limits = EdgeLimits {
        vertices: 100,
        edges: 100,
    };
    let state = RandomState::new(rt).ok()?;
    let mut reader = CountingReader::new(TWO_EDGES);
    read_edges(alloc, state, &mut reader, Delimiter::Tab, limits).ok()
}

/// How a node ended, as plain data.
#[derive(Clone, Copy, PartialEq, Eq)]
enum Outcome {
    Done { superstep: u32, stable: bool },
    Lost { superstep: u32 },
    Starved { superstep: u32, source: u16 },
    Full,
    NoMemory,
}

/// A part of a graph by a plan, to be shared.
fn shared_part(alloc: Global, graph: &Graph, plan: &Plan, p: u16) -> Option<Arc<Part>>
    requires job { IsJob (job_of graph.now.graph plan.now) }
    requires part { p < plan.now.parts }
    ensures { IfSome result (λ shared.
        arc_value shared ≡ part_of (job_of graph.now.graph plan.now) p) }
{
    let part = graph.part(alloc, plan, p).ok()?;
    Arc::new(alloc, part).ok()
}

/// How a node of the job ends that is alone at a board of so many entries.
fn alone<R: AllocGlobal + Threads + Wait + Sync, G: Gate>(
    rt: &R,
    graph: &Graph,
    plan: &Plan,
    node: NodeId,
    entries: u32,
    orders: &NodeOrders,
    gate: &G,
) -> Outcome
    requires job { IsJob (job_of graph.now.graph plan.now) }
    requires node { node.part < plan.now.parts }
    requires entries { (LEAST_ENTRIES ≤ entries) × (entries ≤ MOST_ENTRIES) }
{
    let alloc = rt.alloc();
    let Some(part) = shared_part(alloc, graph, plan, node.part) else {
        return Outcome::NoMemory;
    };
    let Ok(mut exchange) = MemoryExchange::open(alloc, graph, plan, entries) else {
        return Outcome::NoMemory;
    };
    told(&run_node(rt, &mut exchange, gate, node, part, orders))
}

/// An end as plain data.
fn told(end: &Result<NodeEnd, NodeError>) -> Outcome {
    match end {
        Ok(NodeEnd::Done(replica)) => Outcome::Done {
            superstep: replica.superstep(),
            stable: replica.verdict() == Some(Verdict::Stable),
        },
        Ok(NodeEnd::Lost { superstep }) => Outcome::Lost {
            superstep: *superstep,
        },
        Ok(NodeEnd::Starved { superstep, source }) => Outcome::Starved {
            superstep: *superstep,
            source: *source,
        },
        Err(NodeError::BookFull) => Outcome::Full,
        Err(NodeError::Memory) => Outcome::NoMemory,
    }
}

/// How a node of the graph in so many partitions ends that is alone.
fn alone_in<R: AllocGlobal + Threads + Wait + Sync, G: Gate>(
    rt: &R,
    graph: &Graph,
    node: NodeId,
    parts: u16,
    entries: u32,
    orders: &NodeOrders,
    gate: &G,
) -> Option<Outcome>
    requires entries { (LEAST_ENTRIES ≤ entries) × (entries ≤ MOST_ENTRIES) }
{
    let plan = graph.plan(4, 0, parts, 4096).ok()?;
    if node.part >= plan.parts() {
        return None;
    }
    Some(alone(rt, graph, &plan, node, entries, orders, gate))
}

/// How the one node of the two edges in one partition ends.
fn lone<R: AllocGlobal + RandomSource + Threads + Wait + Sync>(
    rt: &R,
    entries: u32,
    lose: Option<u32>,
    restart: Option<u32>,
) -> Option<Outcome>
    requires entries { (LEAST_ENTRIES ≤ entries) × (entries ≤ MOST_ENTRIES) }
{
    let node = NodeId {
        part: 0,
        replica: 0,
    };
    let orders = NodeOrders {
        keep: 1,
        patience: 10,
        lose,
        restart,
    };
    let graph = two_edges(rt, rt.alloc())?;
    alone_in(rt, &graph, node, 1, entries, &orders, &OpenGate)
}

/// How a lone node ends that is not lost.
const DONE: Outcome = Outcome::Done {
    superstep: 3,
    stable: true,
};

/// Entries, the supersteps at which the lone node is lost and starts anew, and how it ends. One that starts anew has
/// two entries more than one that does not: what it recalls, and the snapshot that it keeps a second time. (Seven
/// entries are the opening, four snapshots, and two calls that drop batches.)
static LONE: [(u32, Option<u32>, Option<u32>, Outcome); 8] = [
    (64, None, None, DONE),
    (64, Some(2), None, Outcome::Lost { superstep: 2 }),
    (64, None, Some(2), DONE),
    (2, None, None, Outcome::Full),
    (6, None, None, Outcome::Full),
    (7, None, None, DONE),
    (8, None, Some(2), Outcome::Full),
    (9, None, Some(2), DONE),
];

/// Whether the lone node ends so each time.
fn lone_ends<R: AllocGlobal + RandomSource + Threads + Wait + Sync>(rt: &R) -> bool {
    let mut all = true;
    for (entries, lose, restart, end) in &LONE {
        all &= lone(rt, (*entries).clamp(2, 64), *lose, *restart) == Some(*end);
    }
    all
}

#[test]
fn lone_node(rt: HostRuntime) {
    assert!(rt; lone_ends(&rt));
}

/// A gate that counts idle turns.
#[derive(Drop)]
struct CountingGate {
    turns: AtomicU32,
}

impl Gate for CountingGate {
    fn before_post(&self, _node: NodeId, _superstep: u32) {}

    fn after_post(&self, _node: NodeId, _superstep: u32) {}

    fn idle(&self, _node: NodeId) {
        self.turns.fetch_add(1, Ordering::SeqCst);
    }
}

/// How node 1.0 of the two edges in two partitions ends if nobody else posts.
fn unheard<R: AllocGlobal + RandomSource + Threads + Wait + Sync>(
    rt: &R,
    gate: &CountingGate,
) -> Option<Outcome> {
    let node = NodeId {
        part: 1,
        replica: 0,
    };
    let orders = NodeOrders {
        keep: 0,
        patience: 10,
        lose: None,
        restart: None,
    };
    let graph = two_edges(rt, rt.alloc())?;
    alone_in(rt, &graph, node, 2, 64, &orders, gate)
}

/// Whether it waits in vain for the other partition, for ten idle turns.
fn starves<R: AllocGlobal + RandomSource + Threads + Wait + Sync>(rt: &R) -> bool {
    let gate = CountingGate {
        turns: AtomicU32::new(0),
    };
    let starved = Outcome::Starved {
        superstep: 0,
        source: 0,
    };
    unheard(rt, &gate) == Some(starved) && gate.turns.load(Ordering::SeqCst) == 10
}

#[test]
fn starved_node(rt: HostRuntime) {
    assert!(rt; starves(&rt));
}
