//! What a watch is called with by a replay.

use super::replays::options;
use crate::replay::{ReplayError, replay_watched};
use ball_model::{MemWriter, NodeId, PlanError};
use edgelist::ReadWatch;
use job::Watch;
use std::alloc::AllocGlobal;
use std::hash::RandomState;
use std::sync::atomic::{AtomicU64, Ordering};

// The numbers of its calls, a digit each, one after the other.
#[derive(Drop)]
struct Digits {
    all: AtomicU64,
}

impl Digits {
    // Puts a number after those before it.
    fn put(&self, number: u64) {
        let before = self.all.load(Ordering::SeqCst);
        self.all.store(
            before.wrapping_mul(10).wrapping_add(number),
            Ordering::SeqCst,
        );
    }
}

impl ReadWatch for Digits {}

impl Watch for Digits {
    fn after_read(&self, records: u64, vertices: u32) {
        self.put(records);
        self.put(u64::from(vertices));
    }

    fn after_close(&self, node: NodeId, superstep: u32, changed: u32, vertices: u32) {
        self.put(u64::from(node.part));
        self.put(u64::from(superstep));
        self.put(u64::from(changed));
        self.put(u64::from(vertices));
    }
}

// Both nodes of two edges close superstep 0, and the second one superstep 1. After a close that is refused no watch is
// called.
const SCRIPT: &[u8] = b"send 0.0 1
send 1.0 0
deliver 0 1.0
close 1.0
close 0.0
deliver 1 0.0
close 0.0
show 0.0
send 0.0 1
deliver 2 1.0
close 1.0
";

// Three records of the two edges, one of them twice.
const THREE_RECORDS: &[u8] = b"a\tb\nb\tc\na\tb\n";

// What a replay of the script over two partitions answers, and the digits of what its watch is called with.
fn watched(rt: &HostRuntime, log2m: u8, script: &[u8]) -> Option<(Result<(), ReplayError>, u64)> {
    let state = RandomState::new(rt).ok()?;
    let mut writer = MemWriter::with_room(rt.alloc(), 4096, None).ok()?;
    let watch = Digits {
        all: AtomicU64::new(0),
    };
    let mut asked = options(2, 1);
    asked.log2m = log2m;
    let told = replay_watched(
        rt.alloc(),
        state,
        THREE_RECORDS,
        None,
        script,
        &asked,
        &watch,
        &mut writer,
    );
    Some((told, watch.all.load(Ordering::SeqCst)))
}

#[test]
fn a_watch_is_told_of_the_edge_list_and_of_closes(rt: HostRuntime) {
    assert!(rt; watched(&rt, 4, SCRIPT) == Some((Ok(()), 33_1111_0112_1201)));
}

#[test]
fn a_watch_is_told_of_an_edge_list_that_has_no_plan(rt: HostRuntime) {
    let told = Err(ReplayError::Plan(PlanError::Log2m));
    assert!(rt; watched(&rt, 3, b"") == Some((told, 33)));
    let told = Err(ReplayError::Script { line: 1 });
    assert!(rt; watched(&rt, 3, b"close\n") == Some((told, 0)));
}
