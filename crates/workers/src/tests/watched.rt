//! What a gate hears of a run, if it also watches.

use super::runs::{USUAL, options_of};
use super::*;
use ball_model::{MemReader, MemWriter};
use edgelist::ReadWatch;
use job::Watch;
use std::sync::atomic::AtomicU64;

/// A gate that notes the numbers that it is called with, a digit each, one after the other.
#[derive(Drop)]
struct Digits {
    all: AtomicU64,
}

impl Digits {
    /// Puts a number after those before it.
    fn put(&self, number: u64) {
        let before = self.all.load(Ordering::SeqCst);
        let after = before.wrapping_mul(10).wrapping_add(number);
        self.all.store(after, Ordering::SeqCst);
    }
}

impl Gate for Digits {
    fn before_post(&self, _node: NodeId, _superstep: u32) {}

    fn after_post(&self, _node: NodeId, _superstep: u32) {}

    fn idle(&self, _node: NodeId) {}
}

impl ReadWatch for Digits {}

impl Watch for Digits {
    fn after_read(&self, records: u64, vertices: u32) {
        self.put(records);
        self.put(u64::from(vertices));
    }

    fn after_start(&self, _node: NodeId) {
        self.put(9);
    }

    fn after_close(&self, _node: NodeId, superstep: u32, changed: u32, vertices: u32) {
        self.put(u64::from(superstep));
        self.put(u64::from(changed));
        self.put(u64::from(vertices));
    }
}

/// What such a gate hears of a run of the two edges by one node, by `run_watched` or by `run`.
fn told_of<R: AllocGlobal + RandomSource + Threads + Wait + Sync>(
    rt: &R,
    watched: bool,
) -> Option<u64> {
    let gate = Digits {
        all: AtomicU64::new(0),
    };
    let options = options_of(rt.alloc(), &USUAL)?;
    let state = RandomState::new(rt).ok()?;
    let mut reader = MemReader::new(TWO_EDGES, None);
    let mut writer = MemWriter::with_room(rt.alloc(), 4096, None).ok()?;
    let answer = if watched {
        run_watched(rt, state, &mut reader, None, &mut writer, &options, &gate)
    } else {
        run(rt, state, &mut reader, None, &mut writer, &options, &gate)
    };
    answer.ok()?;
    Some(gate.all.load(Ordering::SeqCst))
}

/// Two records and three vertices; a node that starts; at superstep 1 two of three vertices change, b and c, at
/// superstep 2 one, c, and at superstep 3 none.
#[test]
fn a_watched_run(rt: HostRuntime) {
    assert!(rt; told_of(&rt, true) == Some(239_123_213_303));
}

#[test]
fn a_run_that_nobody_watches(rt: HostRuntime) {
    assert!(rt; told_of(&rt, false) == Some(0));
}
