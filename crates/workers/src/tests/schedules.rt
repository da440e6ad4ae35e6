//! Schedules: whatever turns the threads take, whoever is lost or starts anew, the bytes are the same.

use super::estimates::{TREE, TREE_REPORT};
use super::rows::{CYCLE, LONE, NOTHING, ONE_COUNTED};
use super::runs::{REPORT, Trial, USUAL, ends_so, node};
use super::*;
use ball_model::Estimate;
use std::thread;
use std::thread::Threads;

// Mixes the bits of a number (the finalizer of MurmurHash3).
fn mixed(number: u32) -> u32 {
    let half = (number ^ (number >> 16)).wrapping_mul(0x85eb_ca6b);
    let whole = (half ^ (half >> 13)).wrapping_mul(0xc2b2_ae35);
    whole ^ (whole >> 16)
}

/// A gate at which a node yields its thread up to three times at random, by a number that goes on with each call.
#[derive(Drop)]
struct Yielding {
    number: AtomicU32,
}

impl Yielding {
    fn rest(&self) {
        let number = self.number.fetch_add(0x9e37_79b9, Ordering::SeqCst);
        for _ in 0..mixed(number) >> 30 {
            thread::yield_now();
        }
    }
}

impl Gate for Yielding {
    fn before_post(&self, _node: NodeId, _superstep: u32) {
        self.rest();
    }

    fn after_post(&self, _node: NodeId, _superstep: u32) {
        self.rest();
    }

    fn idle(&self, _node: NodeId) {
        thread::yield_now();
        self.rest();
    }
}

// The next of a row of numbers: x becomes 6364136223846793005 x + 1442695040888963407 below 2^64 (Knuth).
fn next(state: &mut u64) -> u64 {
    *state = state
        .wrapping_mul(6_364_136_223_846_793_005)
        .wrapping_add(1_442_695_040_888_963_407);
    *state >> 33
}

/// A run of a graph, its report, and the superstep at which it ends.
type Known = (Trial<'static>, &'static [u8], u32);

/// Runs of graphs, their reports, and the supersteps at which they end.
static GRAPHS: [Known; 6] = [
    (USUAL, REPORT, 3),
    (
        Trial {
            input: b"a\tb\nb\ta\n",
            ..USUAL
        },
        CYCLE,
        2,
    ),
    (
        Trial {
            input: b"x\n",
            ..USUAL
        },
        LONE,
        1,
    ),
    (
        Trial {
            input: b"",
            ..USUAL
        },
        NOTHING,
        1,
    ),
    (
        Trial {
            counted: Some(b"a\n"),
            ..USUAL
        },
        ONE_COUNTED,
        3,
    ),
    (
        Trial {
            input: TREE,
            estimate: Estimate::Corrected,
            ..USUAL
        },
        TREE_REPORT,
        5,
    ),
];

// Orders of a run at random: the first so many of these.
#[derive(Clone, Copy)]
struct Orders {
    list: [(NodeId, u32); 3],
    count: usize,
}

impl Orders {
    fn as_slice(&self) -> &[(NodeId, u32)] {
        self.list.get(..self.count).unwrap_or(&[])
    }
}

// A superstep at random, which may be after the end.
fn any_superstep(state: &mut u64) -> u32 {
    (next(state) % 7) as u32
}

// In a third of all runs one replica of a partition is lost, and in another third all of them.
fn losses(state: &mut u64, lost: NodeId, replicas: u8) -> Orders {
    let (first, count) = match next(state) % 3 {
        0 => (lost.replica, 1),
        1 => (0, usize::from(replicas)),
        _ => (0, 0),
    };
    Orders {
        list: [
            (node(lost.part, first), any_superstep(state)),
            (node(lost.part, 1), any_superstep(state)),
            (node(lost.part, 2), any_superstep(state)),
        ],
        count,
    }
}

// In half of all runs a node starts anew.
fn restarts(state: &mut u64, anew: NodeId) -> Orders {
    Orders {
        list: [(anew, any_superstep(state)); 3],
        count: (next(state) % 2) as usize,
    }
}

// A node of a run at random.
fn any_node(state: &mut u64, parts: u16, replicas: u8) -> NodeId {
    let part = next(state) % u64::from(parts).max(1);
    let replica = next(state) % u64::from(replicas).max(1);
    node(part as u16, replica as u8)
}

// A run at random: its graph, with the report and the superstep at which it ends; how many partitions and
// replicas it has, how often it keeps, its orders, and with which number its nodes begin to yield.
#[derive(Clone, Copy)]
struct Drawn {
    graph: &'static Known,
    parts: u16,
    replicas: u8,
    keep: u32,
    lose: Orders,
    restart: Orders,
    yields: u32,
}

impl Drawn {
    // How many threads it has.
    fn threads(&self) -> u32 {
        u32::from(self.parts).saturating_mul(u32::from(self.replicas))
    }
}

// One to four partitions of one to three replicas: up to twelve threads, three for each of four cores.
fn draw(state: &mut u64) -> Drawn {
    let graph = &GRAPHS[(next(state) % 6) as usize];
    let parts = (1 + next(state) % 4) as u16;
    let replicas = (1 + next(state) % 3) as u8;
    let lost = any_node(state, parts, replicas);
    let anew = any_node(state, parts, replicas);
    Drawn {
        graph,
        parts,
        replicas,
        keep: (next(state) % 4) as u32,
        lose: losses(state, lost, replicas),
        restart: restarts(state, anew),
        yields: (next(state) % 1_000_003) as u32,
    }
}

// The partition all of whose nodes are lost up to the end of the run, if there is one. Who is lost is of one partition.
fn lost_part(trial: &Trial, end: u32) -> Option<u16> {
    if trial.lose.len() < usize::from(trial.replicas) {
        return None;
    }
    let mut lost = None;
    for (node, superstep) in trial.lose {
        if *superstep > end {
            return None;
        }
        lost = Some(node.part);
    }
    lost
}

// Whether a run at random ends as its orders say.
fn ends_as_ordered<R: AllocGlobal + RandomSource + Threads + Wait + Sync>(
    rt: &R,
    run: &Drawn,
) -> bool {
    let (graph, report, end) = run.graph;
    let trial = Trial {
        parts: run.parts,
        replicas: run.replicas,
        keep: run.keep,
        lose: run.lose.as_slice(),
        restart: run.restart.as_slice(),
        patience: 10_000_000,
        ..*graph
    };
    let gate = Yielding {
        number: AtomicU32::new(run.yields),
    };
    let answer = match lost_part(&trial, *end) {
        Some(part) => Err(RunError::PartitionLost { part }),
        None => Ok(()),
    };
    ends_so(rt, &trial, &gate, answer, *report)
}

// How many of so many runs do not, up to the first that does not, and how many threads the widest of them has.
fn different<R: AllocGlobal + RandomSource + Threads + Wait + Sync>(
    rt: &R,
    runs: u32,
) -> (u32, u32) {
    let mut state = 28;
    let mut others = 0u32;
    let mut widest = 0u32;
    for _ in 0..runs {
        let run = draw(&mut state);
        widest = widest.max(run.threads());
        if !ends_as_ordered(rt, &run) {
            others = others.saturating_add(1);
            break;
        }
    }
    (others, widest)
}

#[test]
fn threads_that_yield(rt: HostRuntime) {
    assert_eq!(rt; different(&rt, 200), (0, 12));
}
