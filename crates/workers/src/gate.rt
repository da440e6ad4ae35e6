//! What is called round each of a node's posts, and while it waits.

ghost use Rattle.std.specs.Prelude.{◌≡◌};
ghost use Rattle.workers.specs.Marks.{place_at};

use crate::running::zeros;
use ball_model::NodeId;
use ball_model::plan::{MOST_PARTS, MOST_REPLICAS};
use edgelist::ReadWatch;
use job::Watch;
use std::alloc::{AllocError, Global};
use std::sync::atomic::{AtomicU32, Ordering};
use std::thread;
use std::time::{Clock, Duration};

/// What a node calls before and after each of its posts, and in each idle turn. Nothing is asked of it.
pub trait Gate {
    /// The node is about to post a batch of the superstep.
    fn before_post(&self, node: NodeId, superstep: u32);

    /// The node has posted a batch of the superstep.
    fn after_post(&self, node: NodeId, superstep: u32);

    /// The node waits: nothing that it needs is there, and it looks again after this call.
    fn idle(&self, node: NodeId);

    /// The node waits for a batch of a partition; the answer is whether it may still come. If it is false, the node
    /// looks once more, and gives up. Unless it is overridden, this is an idle turn, and true.
    fn wait_for(&self, node: NodeId, _source: u16) -> bool {
        self.idle(node);
        true
    }
}

/// A gate that does nothing, except that an idle turn yields the thread.
///
/// For a library's user: the program does not call it.
#[derive(Clone, Copy, Debug)]
pub struct OpenGate;

impl Gate for OpenGate {
    fn before_post(&self, _node: NodeId, _superstep: u32) {}

    fn after_post(&self, _node: NodeId, _superstep: u32) {}

    fn idle(&self, _node: NodeId) {
        thread::yield_now();
    }
}

/// A gate that watches nothing: as a [`Gate`] it is the one inside, and as a [`Watch`] it does nothing.
#[derive(Clone, Copy, Debug)]
pub(crate) struct UnwatchedGate<'a, G> {
    gate: &'a G,
}

impl<'a, G: Gate> UnwatchedGate<'a, G> {
    /// The gate inside, which does not hear how the run gets on.
    pub(crate) fn new(gate: &'a G) -> UnwatchedGate<'a, G> {
        UnwatchedGate { gate }
    }
}

impl<'a, G: Gate> Gate for UnwatchedGate<'a, G> {
    fn before_post(&self, node: NodeId, superstep: u32) {
        self.gate.before_post(node, superstep);
    }

    fn after_post(&self, node: NodeId, superstep: u32) {
        self.gate.after_post(node, superstep);
    }

    fn idle(&self, node: NodeId) {
        self.gate.idle(node);
    }

    fn wait_for(&self, node: NodeId, source: u16) -> bool {
        self.gate.wait_for(node, source)
    }
}

impl<'a, G> ReadWatch for UnwatchedGate<'a, G> {}

impl<'a, G> Watch for UnwatchedGate<'a, G> {}

/// How many idle turns of a node yield its thread, before it sleeps.
const YIELDS: u32 = 64;

/// How many nodes a run has at most.
const NODES: usize = MOST_PARTS as usize * MOST_REPLICAS as usize;

/// How long a node sleeps at most, in microseconds.
const LONGEST: u64 = 1000;

/// A gate whose idle turns yield the thread some dozens of times, and then sleep, longer each time, up to a
/// millisecond. After each of its posts a node begins anew.
///
/// So a node that waits uses no processor, and a million idle turns are more than ten minutes.
#[derive(Drop)]
pub struct SleepingGate<'a, C> {
    clock: &'a C,
    // how many idle turns each node has had since its last post
    turns: Vec<AtomicU32>,
}

impl<'a, C: Clock> SleepingGate<'a, C> {
    /// A gate that sleeps by this clock. The error is that memory was refused.
    pub fn new(alloc: Global, clock: &'a C) -> Result<SleepingGate<'a, C>, AllocError> {
        Ok(SleepingGate {
            clock,
            turns: zeros(alloc, NODES)?,
        })
    }
}

impl<'a, C: Clock> Gate for SleepingGate<'a, C> {
    fn before_post(&self, _node: NodeId, _superstep: u32) {}

    fn after_post(&self, node: NodeId, _superstep: u32) {
        if let Some(turns) = self.turns.get(place_of(node)) {
            turns.store(0, Ordering::SeqCst);
        }
    }

    fn idle(&self, node: NodeId) {
        if let Some(turns) = self.turns.get(place_of(node)) {
            rest(self.clock, turns.fetch_add(1, Ordering::SeqCst));
        }
    }
}

/// The place of a node among all that a run may have.
pub(crate) fn place_of(node: NodeId) -> usize
    ensures { result ≡ place_at node.part node.replica }
{
    usize::from(node.part) * usize::from(MOST_REPLICAS) + usize::from(node.replica)
}

// Yields in the first idle turns, and sleeps in later ones.
fn rest<C: Clock>(clock: &C, turns: u32) {
    if turns < YIELDS {
        thread::yield_now();
        return;
    }
    let longer = u64::from(turns - YIELDS) + 1;
    thread::sleep(clock, Duration::from_micros(longer.min(LONGEST)));
}
