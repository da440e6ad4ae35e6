//! What the nodes of a run share: which partitions may still post, and how many threads each node has.

ghost use Rattle.std.specs.Prelude.{◌≡◌, ◌+◌, ◌*◌, ◌≤◌, [], ◌∷◌, IfErr, IfOk, IfSome, is_some};
ghost use Rattle.ball_model.specs.declared.plan.TheConstants.{MOST_REPLICAS};
ghost use Rattle.workers.specs.Ends.{is_early};
ghost use Rattle.workers.specs.Marks.{HaveEnded, IsSilent, place_at, stop_place};

use crate::assignment::NodeResult;
use crate::ends::is_done;
use crate::gate::{Gate, place_of};
use crate::marks::{Look, Marked};
use crate::options::is_named;
use ball_model::NodeId;
use ball_model::plan::MOST_REPLICAS;
use edgelist::ReadWatch;
use job::Watch;
use std::alloc::{AllocError, Global};
use std::sync::atomic::AtomicU32;

/// Which nodes have ended before the end of the run, and how many threads a node may use.
#[derive(Drop)]
pub(crate) struct Running {
    marked: Marked,
    parts: u16,
    replicas: u8,
    threads: usize,
    ghost few: { replicas ≤ MOST_REPLICAS },
    ghost places: { marked.words ≡ parts * MOST_REPLICAS + 1 },
}

impl Running {
    /// No node has ended yet; each may use `threads` threads. The error is that memory was refused.
    pub(crate) fn new(
        alloc: Global,
        parts: u16,
        replicas: u8,
        threads: usize,
    ) -> Result<Running, AllocError>
        requires { replicas ≤ MOST_REPLICAS }
        ensures nodes { IfOk result (λ r. (r.parts ≡ parts) × (r.replicas ≡ replicas)) }
        ensures threads { IfOk result (λ r. r.threads ≡ threads) }
    {
        let places = usize::from(parts) * usize::from(MOST_REPLICAS);
        Ok(Running {
            marked: Marked::new(alloc, places + 1)?,
            parts,
            replicas,
            threads,
        })
    }

    /// How many threads a node may use.
    pub(crate) fn threads(&self) -> usize
        ensures { result ≡ self.now.threads }
    {
        self.threads
    }

    /// Marks a node that has ended before the end of the run; the look that is returned has seen this mark alone. None
    /// exactly if the node has reached the end, or the run has no such node.
    pub(crate) fn end(&self, node: NodeId, end: &NodeResult) -> Option<Look>
        ensures table { IfSome result (λ look. look.table_id ≡ self.now.marked) }
        ensures known { IfSome result (λ look.
            look.me ≡ (place_at node.part node.replica ∷ [], [])) }
        ensures early { is_some result ≡ is_early self.now.parts self.now.replicas node end.now }
    {
        if is_done(end) || !is_named(self.parts, self.replicas, node) {
            return None;
        }
        let mut look = self.marked.look();
        self.marked.mark(&mut look, place_of(node));
        Some(look)
    }

    /// Marks the run as stopped: not all nodes have threads, and nobody waits any more. The look that is returned has seen
    /// this mark alone.
    pub(crate) fn stop(&self) -> Look
        ensures table { result.table_id ≡ self.now.marked }
        ensures known { result.me ≡ (stop_place self.now.parts ∷ [], []) }
    {
        let mut look = self.marked.look();
        self.marked.mark(&mut look, self.stop_place());
        look
    }

    // The word that is marked once the run has stopped: the one after those of its nodes.
    fn stop_place(&self) -> usize
        ensures { result ≡ stop_place self.now.parts }
    {
        place_of(NodeId {
            part: self.parts,
            replica: 0,
        })
    }

    // A look that has seen that the run has stopped; None if it has not.
    fn stopped(&self) -> Option<Look>
        ensures table { IfSome result (λ look. look.table_id ≡ self.now.marked) }
        ensures known { IfSome result (λ look.
            look.me ≡ (stop_place self.now.parts ∷ [], [])) }
    {
        let mut look = self.marked.look();
        if self.marked.is_marked(&mut look, self.stop_place()) {
            Some(look)
        } else {
            None
        }
    }

    /// Whether a partition may still post. If it may not, the look that is returned has seen that the run has stopped, or
    /// that all nodes of this partition have ended too early.
    pub(crate) fn may_come(&self, source: u16) -> Result<(), Look>
        ensures table { IfErr result (λ look. look.table_id ≡ self.now.marked) }
        ensures silent { IfErr result (λ look.
            IsSilent self.now.parts self.now.replicas source look.me.0) }
    {
        if let Some(look) = self.stopped() {
            return Err(look);
        }
        match self.gone(source) {
            Some(look) => Err(look),
            None => Ok(()),
        }
    }

    // A look that has seen that all nodes of a partition ended before the end of the run; None if the run has no such
    // partition, or one of them is still running or has reached the end.
    fn gone(&self, part: u16) -> Option<Look>
        ensures table { IfSome result (λ look. look.table_id ≡ self.now.marked) }
        ensures known { IfSome result (λ look.
            HaveEnded self.now.replicas part look.me.0) }
    {
        if part >= self.parts {
            return None;
        }
        let mut look = self.marked.look();
        for replica in 0..self.replicas {
            let place = place_of(NodeId { part, replica });
            if !self.marked.is_marked(&mut look, place) {
                return None;
            }
        }
        Some(look)
    }
}

/// Numbers that threads share, each of them 0. The error is that memory was refused.
pub(crate) fn zeros(alloc: Global, count: usize) -> Result<Vec<AtomicU32>, AllocError> {
    let mut numbers = Vec::with_capacity(alloc, count)?;
    for _ in 0..count {
        numbers.push(AtomicU32::new(0))?;
    }
    Ok(numbers)
}

/// The gate of a run: that of its caller, at which nobody waits for a partition whose nodes have all ended too early.
#[derive(Clone, Copy)]
pub(crate) struct RunGate<'a, G> {
    gate: &'a G,
    running: &'a Running,
}

impl<'a, G> RunGate<'a, G> {
    /// The caller's gate, and what is known of the ends of the nodes.
    pub(crate) fn new(gate: &'a G, running: &'a Running) -> RunGate<'a, G> {
        RunGate { gate, running }
    }
}

impl<'a, G: Gate> Gate for RunGate<'a, G> {
    fn before_post(&self, node: NodeId, superstep: u32) {
        self.gate.before_post(node, superstep);
    }

    fn after_post(&self, node: NodeId, superstep: u32) {
        self.gate.after_post(node, superstep);
    }

    fn idle(&self, node: NodeId) {
        self.gate.idle(node);
    }

    fn wait_for(&self, node: NodeId, source: u16) -> bool {
        self.running.may_come(source).is_ok() && self.gate.wait_for(node, source)
    }
}

impl<'a, G: ReadWatch> ReadWatch for RunGate<'a, G> {
    fn while_read(&self, records: u64) {
        self.gate.while_read(records);
    }
}

impl<'a, G: Watch> Watch for RunGate<'a, G> {
    fn after_read(&self, records: u64, vertices: u32) {
        self.gate.after_read(records, vertices);
    }

    fn after_start(&self, node: NodeId) {
        self.gate.after_start(node);
    }

    fn after_close(&self, node: NodeId, superstep: u32, changed: u32, vertices: u32) {
        self.gate.after_close(node, superstep, changed, vertices);
    }
}
