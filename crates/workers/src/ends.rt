//! The ends of all nodes of a job, put together: a replica of each partition, or the first fault.

ghost use Rattle.std.specs.Prelude.{◌≡◌, ◌≢◌, ◌≤◌, ◌<◌, ℕ, true, false, All, Err, IfErr, IfOk};
ghost use Rattle.std.specs.Prelude.{IfSome, Some, is_some, length};
ghost use Rattle.std.specs.List.{list_any};
ghost use Rattle.ball_model.specs.Job.{Job};
ghost use Rattle.ball_model.specs.PlanValue.{most_parts};
ghost use Rattle.ball_model.specs.declared.plan.TheConstants.{MOST_REPLICAS};
ghost use Rattle.workers.specs.Job.{AreDone, AreEnds, AreNoted, IsFaultOf, IsPartEnd};
ghost use Rattle.workers.specs.Job.{IsPartitionLost, KeepsItsOrders};
ghost use Rattle.workers.specs.Ends.{done_of, each_has_done, fault_in, fault_noted, first_done};
ghost use Rattle.workers.specs.Ends.{first_fault, first_some, is_done, is_lost, no_faults, with_end};
ghost use Rattle.workers.specs.Ends.{with_part};
ghost use Rattle.workers.specs.Options.{orders_for};
ghost use Rattle.workers.specs.declared.worker.node_run.NodeOrders.{NodeOrders};
ghost use Rattle.workers.specs.declared.options.RunOptions.{RunOptions};

use crate::assignment::NodeResult;
use crate::runs::RunError;
use crate::worker::node_run::{NodeEnd, NodeError};
use ball_model::NodeId;
use replica::Replica;
use std::alloc::{AllocError, Global};

/// A node that waited in vain, and for what.
#[derive(Clone, Copy)]
pub(crate) struct Waiting {
    pub(crate) node: NodeId,
    pub(crate) superstep: u32,
    pub(crate) source: u16,
}

/// What is noted of the nodes of a job that did not reach the end.
#[derive(Clone, Copy)]
pub(crate) struct Faults {
    pub(crate) lost: Option<u16>,
    pub(crate) full: bool,
    pub(crate) memory: bool,
    pub(crate) starved: Option<Waiting>,
}

impl Faults {
    // Nothing is noted yet.
    fn none() -> Faults
        ensures noted { (parts : ℕ) (o : RunOptions) → AreNoted parts o result }
        ensures exact { result ≡ no_faults }
    {
        Faults {
            lost: None,
            full: false,
            memory: false,
            starved: None,
        }
    }

    // The first of them by the order of the checks.
    fn first(&self) -> RunError
        ensures fault { (parts : ℕ) (o : RunOptions) → AreNoted parts o self.now →
            IsFaultOf parts o result }
        ensures exact { result ≡ fault_noted self.now }
    {
        if let Some(part) = self.lost {
            return RunError::PartitionLost { part };
        }
        if self.full {
            return RunError::BookFull;
        }
        match self.starved {
            Some(
                Waiting {
                    node,
                    superstep,
                    source,
                },
            ) if !self.memory => RunError::Starved {
                node,
                superstep,
                source,
            },
            _ => RunError::Memory,
        }
    }
}

// Notes a node that did not reach the end, and returns whether it was lost.
fn note(faults: &mut Faults, node: NodeId, end: &NodeResult) -> bool
    ensures lost { (j : Job) (p : ℕ) (orders : NodeOrders) →
        KeepsItsOrders j p orders end.now → result ≡ true → is_some orders.lose ≡ true }
    ensures noted { (j : Job) (o : RunOptions) (p k : ℕ) →
        KeepsItsOrders j p (orders_for o p k) end.now → AreNoted j.plan.parts o faults.old →
        AreNoted j.plan.parts o faults.new }
    ensures exact { faults.new ≡ with_end node end.now faults.old }
    ensures told { result ≡ is_lost end.now }
{
    match end {
        Ok(NodeEnd::Done(_)) => false,
        Ok(NodeEnd::Lost { .. }) => true,
        Ok(NodeEnd::Starved { superstep, source }) => {
            if faults.starved.is_none() {
                faults.starved = Some(Waiting {
                    node,
                    superstep: *superstep,
                    source: *source,
                });
            }
            false
        }
        Err(NodeError::BookFull) => {
            faults.full = true;
            false
        }
        Err(NodeError::Memory) => {
            faults.memory = true;
            false
        }
    }
}

// Notes a partition all of whose nodes were lost.
fn note_lost(faults: &mut Faults, p: u16)
    ensures noted { (parts : ℕ) (o : RunOptions) → IsPartitionLost parts o p →
        AreNoted parts o faults.old → AreNoted parts o faults.new }
    ensures exact { faults.new ≡
        record faults.old { lost = first_some faults.old.lost (Some p) } }
{
    if faults.lost.is_none() {
        faults.lost = Some(p);
    }
}

/// Whether a node has reached the end of the run.
pub(crate) fn is_done(end: &NodeResult) -> bool
    ensures { result ≡ is_done end.now }
{
    matches!(end, Ok(NodeEnd::Done(_)))
}

// Notes what is wrong with the nodes of a partition, and returns whether one of them has reached the end.
fn note_part(faults: &mut Faults, p: u16, ends: &[NodeResult]) -> bool
    requires few { length ends.now ≤ MOST_REPLICAS }
    ensures noted { (j : Job) (o : RunOptions) → IsPartEnd j o p ends.now → p < j.plan.parts →
        AreNoted j.plan.parts o faults.old → AreNoted j.plan.parts o faults.new }
    ensures exact { faults.new ≡ with_part p ends.now faults.old }
    ensures told { result ≡ list_any is_done ends.now }
{
    let mut done = false;
    let mut all_lost = true;
    let mut replica = 0;
    for end in ends {
        let node = NodeId { part: p, replica };
        all_lost = note(faults, node, end) && all_lost;
        done = is_done(end) || done;
        replica += 1;
    }
    if all_lost {
        note_lost(faults, p);
    }
    done
}

// The first fault of all nodes, if some partition has no node that has reached the end. It takes no memory.
fn fault_in(ends: &[Vec<NodeResult>]) -> Option<RunError>
    requires few { All (λ own. length own.items ≤ MOST_REPLICAS) ends.now }
    requires parts { length ends.now ≤ most_parts }
    ensures exact { result ≡ fault_in (λ own. own.items) ends.now }
    ensures fault { (j : Job) (o : RunOptions) → AreEnds (λ own. own.items) j o ends.now →
        IfSome result (IsFaultOf j.plan.parts o) }
{
    let mut faults = Faults::none();
    let mut complete = true;
    let mut p = 0;
    for own in ends {
        complete = note_part(&mut faults, p, own) && complete;
        p += 1;
    }
    if complete { None } else { Some(faults.first()) }
}

// The replica of the first of two nodes that has reached the end.
fn first_done(done: Option<Replica>, end: NodeResult) -> Option<Replica>
    ensures { result ≡ first_some done (done_of end) }
{
    match end {
        Ok(NodeEnd::Done(replica)) => Some(done.unwrap_or(replica)),
        _ => done,
    }
}

// The replica of the first node of a partition that has reached the end.
fn done_replica(ends: Vec<NodeResult>) -> Option<Replica>
    ensures { result ≡ first_done ends.items }
{
    let mut done = None;
    for end in ends {
        done = first_done(done, end);
    }
    done
}

// The replica of each partition, each of which has a node that has reached the end. The error is that memory was
// refused.
fn collect_done(alloc: Global, ends: Vec<Vec<NodeResult>>) -> Result<Vec<Replica>, AllocError>
    requires { each_has_done (λ own. own.items) ends.items ≡ true }
    ensures { (j : Job) (o : RunOptions) → AreEnds (λ own. own.items) j o ends.items →
        IfOk result (λ rs. AreDone j rs.items) }
{
    let mut replicas = Vec::with_capacity(alloc, ends.len())?;
    for own in ends {
        let Some(replica) = done_replica(own) else {
            unreachable!()
        };
        replicas.push(replica)?;
    }
    Ok(replicas)
}

/// The replica of each partition, by the ends of its nodes: that of the first node that is done. If a partition has
/// none, the error is the first fault of all nodes; else it is `Memory`, if that is refused here.
pub(crate) fn done_replicas(
    alloc: Global,
    ends: Vec<Vec<NodeResult>>,
) -> Result<Vec<Replica>, RunError>
    requires few { All (λ own. length own.items ≤ MOST_REPLICAS) ends.items }
    requires parts { length ends.items ≤ most_parts }
    ensures done { (j : Job) (o : RunOptions) → AreEnds (λ own. own.items) j o ends.items →
        IfOk result (λ rs. AreDone j rs.items) }
    ensures fault { (j : Job) (o : RunOptions) → AreEnds (λ own. own.items) j o ends.items →
        IfErr result (IsFaultOf j.plan.parts o) }
    ensures first { IfErr result (λ e. e ≢ RunError.Memory →
        e ≡ first_fault (λ own. own.items) ends.items) }
    ensures lacking { IfErr result (λ e. e ≢ RunError.Memory →
        each_has_done (λ own. own.items) ends.items ≡ false) }
    ensures exact { each_has_done (λ own. own.items) ends.items ≡ false →
        result ≡ Err (first_fault (λ own. own.items) ends.items) }
{
    let fault = fault_in(&ends);
    match fault {
        Some(fault) => Err(fault),
        None => Ok(collect_done(alloc, ends)?),
    }
}
