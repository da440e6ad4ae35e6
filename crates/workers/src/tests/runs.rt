//! Runs from bytes to bytes, of many nodes.

use super::*;
use ball_model::{Estimate, MemReader, MemWriter};
use std::thread;
use std::thread::Threads;

/// The report of the two edges.
pub const REPORT: &[u8] = b"superstep,0,33.803869
superstep,1,34.851860
superstep,2,35.588471
superstep,3,35.588471
end,3,stable
gain,0.708147
vertex,a,11.390942,0.000000,0.000000,1.000000,15
vertex,b,11.780376,0.665022,1.503709,208.680703,14
vertex,c,12.417153,0.751274,0.538737,83.065637,13
";

/// A run to try: its options as plain data, and its input. Orders are lent, so nothing has to be dropped.
#[derive(Clone, Copy)]
pub struct Trial<'a> {
    pub input: &'a [u8],
    pub counted: Option<&'a [u8]>,
    pub estimate: Estimate,
    pub delimiter: Delimiter,
    pub large: bool,
    pub threads: u16,
    pub parts: u16,
    pub replicas: u8,
    pub limit: u32,
    pub entries: u32,
    pub keep: u32,
    pub patience: u32,
    pub lose: &'a [(NodeId, u32)],
    pub restart: &'a [(NodeId, u32)],
}

/// The two edges in one partition of one replica.
pub const USUAL: Trial<'static> = Trial {
    input: TWO_EDGES,
    counted: None,
    estimate: Estimate::Raw,
    delimiter: Delimiter::Tab,
    large: false,
    threads: 0,
    parts: 1,
    replicas: 1,
    limit: 4096,
    entries: 100000,
    keep: 1,
    // who waits out its patience for a partition that is lost ends in no test's time
    patience: u32::MAX,
    lose: &[],
    restart: &[],
};

/// The options of the run; None if memory was refused.
pub fn options_of(alloc: Global, trial: &Trial) -> Option<RunOptions> {
    let lose = trial.lose.to_vec(alloc).ok()?;
    let restart = trial.restart.to_vec(alloc).ok()?;
    Some(RunOptions {
        log2m: 4,
        seed: 0,
        parts: trial.parts,
        limit: trial.limit,
        estimate: trial.estimate,
        delimiter: trial.delimiter,
        large: trial.large,
        threads: trial.threads,
        replicas: trial.replicas,
        entries: trial.entries,
        keep: trial.keep,
        patience: trial.patience,
        lose,
        restart,
    })
}

/// A replica of a partition.
pub fn node(part: u16, replica: u8) -> NodeId {
    NodeId { part, replica }
}

/// A run by these options, whose report goes to the writer, while a call of the reader may fail.
fn run_into<R: AllocGlobal + RandomSource + Threads + Wait + Sync, G: Gate + Sync>(
    rt: &R,
    trial: &Trial,
    options: &RunOptions,
    gate: &G,
    read_fails: Option<u64>,
    writer: &mut MemWriter,
) -> Result<(), RunError> {
    let Ok(state) = RandomState::new(rt) else {
        return Err(RunError::Memory);
    };
    let mut reader = MemReader::new(trial.input, read_fails);
    run(rt, state, &mut reader, trial.counted, writer, options, gate)
}

/// What is written of a report.
#[derive(Clone, Copy, PartialEq, Eq)]
pub enum Written {
    Nothing,
    Beginning,
    Whole,
    Other,
}

/// What of it the bytes are.
fn written_in(bytes: &[u8], report: &[u8]) -> Written {
    if bytes.is_empty() {
        return Written::Nothing;
    }
    if bytes == report {
        return Written::Whole;
    }
    if report.starts_with(bytes) {
        Written::Beginning
    } else {
        Written::Other
    }
}

/// What a run answers, and what is written of the report.
pub type Seen = (Result<(), RunError>, Written);

/// What is seen of a run while a call of the reader and a call of the writer may fail: want of memory if it was refused
/// before.
pub fn seen<R: AllocGlobal + RandomSource + Threads + Wait + Sync, G: Gate + Sync>(
    rt: &R,
    trial: &Trial,
    gate: &G,
    report: &[u8],
    read_fails: Option<u64>,
    write_fails: Option<u64>,
) -> Seen {
    let Some(options) = options_of(rt.alloc(), trial) else {
        return (Err(RunError::Memory), Written::Nothing);
    };
    let Ok(mut writer) = MemWriter::with_room(rt.alloc(), 4096, write_fails) else {
        return (Err(RunError::Memory), Written::Nothing);
    };
    let answer = run_into(rt, trial, &options, gate, read_fails, &mut writer);
    let bytes = writer.into_bytes();
    (answer, written_in(&bytes, report))
}

/// Whether a run answers so, and writes just the report, or nothing if it fails.
pub fn ends_so<R: AllocGlobal + RandomSource + Threads + Wait + Sync, G: Gate + Sync>(
    rt: &R,
    trial: &Trial,
    gate: &G,
    answer: Result<(), RunError>,
    report: &[u8],
) -> bool {
    let written = match answer {
        Ok(()) => Written::Whole,
        Err(_) => Written::Nothing,
    };
    seen(rt, trial, gate, report, None, None) == (answer, written)
}

/// A gate that holds each node's first post until so many nodes have come to theirs. A node that has waited for too
/// many turns gives up, which is remembered: if all nodes are worked on by one thread, the first of them does.
#[derive(Drop)]
struct Rendezvous {
    nodes: u32,
    posts: [AtomicU32; 4],
    entered: AtomicU32,
    gave_up: AtomicU32,
}

impl Rendezvous {
    // Nobody has come.
    fn new(nodes: u32) -> Rendezvous {
        Rendezvous {
            nodes,
            posts: [
                AtomicU32::new(0),
                AtomicU32::new(0),
                AtomicU32::new(0),
                AtomicU32::new(0),
            ],
            entered: AtomicU32::new(0),
            gave_up: AtomicU32::new(0),
        }
    }

    // Waits until so many nodes have come.
    fn meet(&self) {
        self.entered.fetch_add(1, Ordering::SeqCst);
        for _ in 0..1000000u32 {
            if self.entered.load(Ordering::SeqCst) >= self.nodes {
                return;
            }
            thread::yield_now();
        }
        self.gave_up.store(1, Ordering::SeqCst);
    }

    // All have come, and nobody gave up.
    fn was_met(&self) -> bool {
        let entered = self.entered.load(Ordering::SeqCst);
        entered == self.nodes && self.gave_up.load(Ordering::SeqCst) == 0
    }
}

impl Gate for Rendezvous {
    fn before_post(&self, node: NodeId, _superstep: u32) {
        let Some(posts) = self.posts.get(usize::from(node.part)) else {
            return;
        };
        if posts.fetch_add(1, Ordering::SeqCst) == 0 {
            self.meet();
        }
    }

    fn after_post(&self, _node: NodeId, _superstep: u32) {}

    fn idle(&self, _node: NodeId) {
        thread::yield_now();
    }

    // If a node gave up nobody waits any more.
    fn wait_for(&self, node: NodeId, _source: u16) -> bool {
        self.idle(node);
        self.gave_up.load(Ordering::SeqCst) == 0
    }
}

/// No node gives up, and the report is written.
fn meets<R: AllocGlobal + RandomSource + Threads + Wait + Sync>(rt: &R, parts: u16) -> bool {
    let gate = Rendezvous::new(u32::from(parts));
    let trial = Trial {
        parts,
        patience: 10_000_000,
        ..USUAL
    };
    ends_so(rt, &trial, &gate, Ok(()), REPORT) && gate.was_met()
}

#[test]
fn rendezvous_gate(rt: HostRuntime) {
    assert!(rt; meets(&rt, 2) && meets(&rt, 4));
}
