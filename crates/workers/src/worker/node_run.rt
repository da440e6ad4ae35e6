//! One node: a replica of a partition, from superstep 0 to its end.

ghost use Rattle.std.specs.Prelude.{◌≡◌, ◌≢◌, ◌<◌, ℕ, true, false, IfOk, OnErr, OnOk, IfErr};
ghost use Rattle.std.specs.Prelude.{Err, None};
ghost use Rattle.std.specs.Arc.{arc_value};
ghost use Rattle.ball_model.specs.History.{holding_in};
ghost use Rattle.ball_model.specs.Job.{IsJob, Job, part_of};
ghost use Rattle.ball_model.specs.Caller.{Extends, IsCaller, IsFull};
ghost use Rattle.workers.specs.declared.worker.node_run.NodeError.TheVariants.{BookFull, Memory};
ghost use Rattle.workers.specs.Node.{FallsDue, HasToldAll, IfDone, IfLost, IfStarved, IsDone};
ghost use Rattle.workers.specs.Node.{WasMissing};
ghost use Rattle.workers.specs.Tie.{HasCome, HasGone, HasPath, HasReached, IsNodePath, IsPath};
ghost use Rattle.workers.specs.Tie.{IsPathTo, KeptIfTold};
ghost use Rattle.workers.specs.Superstep.{EndsAs, IsAnew, IsFate, IsFirst, IsPartOf, StandsIn};
ghost use Rattle.workers.specs.Superstep.{early_end, end_with};
ghost use Rattle.replica.specs.Sent.{batch_name};

use crate::exchange::Exchange;
use crate::gate::{Gate, UnwatchedGate};
use crate::indexed::ReadyPart;
use crate::shared::SharedTables;
use crate::threads::share_of;
use crate::worker::Worker;
use crate::worker::superstep::SuperstepEnd;
use ball_model::NodeId;
use board::BoardError;
use edgelist::Part;
use job::Watch;
use replica::{Replica, Shown};
use std::alloc::{AllocError, AllocGlobal, Global};
use std::sync::{Arc, Wait};
use std::thread::{Threads, available_parallelism};
use thiserror::Error;

/// What a node is to do.
#[derive(Clone, Copy, Debug, PartialEq, Eq)]
pub struct NodeOrders {
    /// It keeps a snapshot at each superstep that is a multiple of this, and none if it is 0.
    pub keep: u32,
    /// The number of idle turns in succession after which it gives up.
    pub patience: u32,
    /// It is lost at this superstep, or at the first that it reaches after it.
    pub lose: Option<u32>,
    /// It starts anew, once, at this superstep, or at the first that it reaches after it.
    pub restart: Option<u32>,
}

/// How a node ended.
#[derive(Drop)]
pub enum NodeEnd {
    /// It has reached the end of the run.
    Done(Replica),
    /// It was to be lost.
    Lost { superstep: u32 },
    /// It waited in vain for the batch of a source.
    Starved { superstep: u32, source: u16 },
}

/// Why a node could not go on.
#[derive(Clone, Copy, Debug, PartialEq, Eq, Error)]
pub enum NodeError {
    /// The history has as many entries as it may have.
    #[error("the book is full")]
    BookFull,
    /// Memory was refused.
    #[error("out of memory")]
    Memory,
}

impl From<BoardError> for NodeError {
    ghost use Rattle.workers.specs.Node.{node_error};

    ghost from_gives = { λ fault e. e ≡ node_error fault };

    fn from(fault: BoardError) -> NodeError {
        match fault {
            BoardError::BookFull => NodeError::BookFull,
            BoardError::Memory => NodeError::Memory,
        }
    }
}

impl From<AllocError> for NodeError {
    ghost from_gives = { λ _ e. e ≡ Memory };

    fn from(_fault: AllocError) -> NodeError {
        NodeError::Memory
    }
}

/// How a node's replica fared: a [`NodeEnd`] without the replica, which is only lent until then.
#[derive(Clone, Copy)]
pub(crate) enum Fate {
    /// It has reached the end of the run.
    Done,
    /// It was to be lost.
    Lost { superstep: u32 },
    /// It waited in vain for the batch of a source.
    Starved { superstep: u32, source: u16 },
}

// Whether an order falls due at a superstep.
fn falls_due(order: Option<u32>, superstep: u32) -> bool
    ensures due { result ≡ true → FallsDue order superstep }
    ensures spared { result ≡ false → FallsDue order superstep → ⊥ }
    ensures none { order ≡ None → result ≡ false }
{
    match order {
        Some(at) => at <= superstep,
        None => false,
    }
}

// A new replica of a part.
fn first_replica(alloc: Global, part: &Arc<Part>) -> Result<Replica, NodeError>
    ensures first { (j : Job) (p : ℕ) → IsJob j → p < j.plan.parts →
        arc_value part.now ≡ part_of j p → IfOk result (IsFirst j p) }
    ensures memory { IfErr result (λ e. e ≡ Memory) }
{
    Ok(Replica::new(alloc, Arc::try_clone(part)?)?)
}

// A new replica of a part takes the place of the old one.
fn replace_replica(alloc: Global, part: &Arc<Part>, replica: &mut Replica) -> Result<(), NodeError>
    ensures first { (j : Job) (p : ℕ) → IsJob j → p < j.plan.parts →
        arc_value part.now ≡ part_of j p → OnOk result (IsFirst j p replica.new) }
    ensures memory { IfErr result (λ e. e ≡ Memory) }
{
    *replica = first_replica(alloc, part)?;
    Ok(())
}

// How a node ended whose replica is not at the end of the run.
fn early_end(fate: Fate) -> Option<NodeEnd>
    ensures { result ≡ early_end fate }
{
    match fate {
        Fate::Done => None,
        Fate::Lost { superstep } => Some(NodeEnd::Lost { superstep }),
        Fate::Starved { superstep, source } => Some(NodeEnd::Starved { superstep, source }),
    }
}

// How a node ended, by the fate of its replica.
fn end_with(fate: Result<Fate, NodeError>, replica: Replica) -> Result<NodeEnd, NodeError>
    ensures { result ≡ end_with fate replica }
{
    Ok(early_end(fate?).unwrap_or(NodeEnd::Done(replica)))
}

impl<'a, R: AllocGlobal + Threads + Wait + Sync, G: Gate + Watch> Worker<'a, R, G> {
    // A new replica takes the place of the old one, with what is kept for the partition.
    fn begin_anew<E: Exchange>(
        &self,
        exchange: &mut E,
        part: &Arc<Part>,
        replica: &mut Replica,
    ) -> Result<(), NodeError>
        requires caller { IsCaller (E.caller exchange.old) }
        requires part { IsPartOf (E.caller exchange.old) self.now.node.part (arc_value part.now) }
        ensures seen { Extends (E.caller exchange.old) (E.caller exchange.new) }
        ensures stands { OnOk result (StandsIn (E.caller exchange.old) self.now.node.part
            replica.new) }
        ensures anew { OnOk result (IsAnew (E.caller exchange.old) self.now.node.part
            replica.new.superstep (E.caller exchange.new)) }
        ensures came { OnOk result (HasCome (E.caller exchange.old) self.now.node.part
            (holding_in replica.old) (holding_in replica.new) (E.caller exchange.new)) }
        ensures gone { OnErr result (HasGone (E.caller exchange.old) self.now.node.part
            (holding_in replica.old) (E.caller exchange.new)) }
        ensures full { IfErr result (λ e. e ≡ BookFull → IsFull (E.caller exchange.new)) }
    {
        replace_replica(self.rt.alloc(), part, replica)?;
        self.catch_up(exchange, 0, replica)?;
        Ok(())
    }

    // The replica goes on, superstep by superstep, until its fate is met.
    fn go_on<E: Exchange>(
        &self,
        exchange: &mut E,
        part: &Arc<Part>,
        replica: &mut Replica,
    ) -> Result<Fate, NodeError>
        requires caller { IsCaller (E.caller exchange.old) }
        requires part { IsPartOf (E.caller exchange.old) self.now.node.part (arc_value part.now) }
        requires stands { StandsIn (E.caller exchange.old) self.now.node.part replica.old }
        ensures seen { Extends (E.caller exchange.old) (E.caller exchange.new) }
        ensures stands { OnOk result (StandsIn (E.caller exchange.old) self.now.node.part
            replica.new) }
        ensures fate { IfOk result (λ fate. IsFate (E.caller exchange.old) self.now.node.part
            self.now.orders replica.new fate (E.caller exchange.new)) }
        ensures came { OnOk result (IsPath self.now.orders.keep (E.caller exchange.old)
            self.now.node.part (holding_in replica.old) (holding_in replica.new)
            (E.caller exchange.new)) }
        ensures gone { OnErr result (HasPath self.now.orders.keep (E.caller exchange.old)
            self.now.node.part (holding_in replica.old) (E.caller exchange.new)) }
        ensures full { IfErr result (λ e. e ≡ BookFull → IsFull (E.caller exchange.new)) }
        ensures alone { (E.caller exchange.old).seen.job.plan.parts ≡ 1 → self.now.orders.keep ≡ 0 →
            self.now.orders.restart ≡ None → result ≢ Err BookFull }
    {
        let mut restart = self.orders.restart;
        let mut tables = SharedTables::none();
        for _ in self.rt.forever() {
            let superstep = replica.superstep();
            if falls_due(self.orders.lose, superstep) {
                return Ok(Fate::Lost { superstep });
            }
            if falls_due(restart, superstep) {
                restart = None;
                self.begin_anew(exchange, part, replica)?;
                continue;
            }
            match self.run_superstep(exchange, &mut tables, replica)? {
                SuperstepEnd::Next => {}
                SuperstepEnd::Over => return Ok(Fate::Done),
                SuperstepEnd::Starved { source } => {
                    let superstep = replica.superstep();
                    return Ok(Fate::Starved { superstep, source });
                }
            }
        }
        unreachable!()
    }

    /// Runs the node as [`run_node`] says, by a part that is ready for it.
    pub(crate) fn run_ready<E: Exchange>(
        &self,
        exchange: &mut E,
        part: ReadyPart,
    ) -> Result<NodeEnd, NodeError>
        requires caller { IsCaller (E.caller exchange.old) }
        requires job { IsJob (E.caller exchange.old).seen.job }
        requires node { self.now.node.part < (E.caller exchange.old).seen.job.plan.parts }
        requires part { part ≡ part_of (E.caller exchange.old).seen.job self.now.node.part }
        ensures seen { Extends (E.caller exchange.old) (E.caller exchange.new) }
        ensures ends { EndsAs (E.caller exchange.old) self.now.node.part self.now.orders result
            (E.caller exchange.new) }
        ensures fits { (E.caller exchange.old).seen.job.plan.parts ≡ 1 → self.now.orders.keep ≡ 0 →
            self.now.orders.restart ≡ None → result ≢ Err BookFull }
    {
        let shared = Arc::try_clone(part.part())?;
        let mut replica = part.into_replica(self.rt.alloc())?;
        self.gate.after_start(self.node);
        let fate = self.go_on(exchange, &shared, &mut replica);
        end_with(fate, replica)
    }
}

/// Runs a node of a partition, from superstep 0 to its end.
///
/// At each superstep it is lost or starts anew when an order falls due, keeps a snapshot, posts what changed to every
/// other partition, takes their batches, and closes. While a batch is missing it takes over a snapshot of a further
/// superstep, if another node of its partition has kept one; else it idles until the history has grown. An error or an
/// end leaves in the exchange the entries that were made before. If many vertices changed it shares a superstep with
/// other threads: its partition's share of the processors.
///
/// [`BookFull`](NodeError::BookFull) if a call of the exchange is refused because the history is full,
/// [`Memory`](NodeError::Memory) if a growth is refused, each as it happens.
///
/// For a library's user: the program does not call it.
pub fn run_node<R: AllocGlobal + Threads + Wait + Sync, E: Exchange, G: Gate>(
    rt: &R,
    exchange: &mut E,
    gate: &G,
    node: NodeId,
    part: Arc<Part>,
    orders: &NodeOrders,
) -> Result<NodeEnd, NodeError>
    requires caller { IsCaller (E.caller exchange.old) }
    requires job { IsJob (E.caller exchange.old).seen.job }
    requires node { node.part < (E.caller exchange.old).seen.job.plan.parts }
    requires part { arc_value part ≡ part_of (E.caller exchange.old).seen.job node.part }
    ensures seen { Extends (E.caller exchange.old) (E.caller exchange.new) }
    ensures done { IfOk result (λ end. IfDone end
        (IsDone (E.caller exchange.old).seen.job node.part)) }
    ensures told { IfOk result (λ end. IfDone end (λ r. HasToldAll (E.caller exchange.old)
        r.superstep node.part (E.caller exchange.new))) }
    ensures kept { IfOk result (λ end. IfDone end (λ r. KeptIfTold orders.now.keep
        (E.caller exchange.old) r.superstep (E.caller exchange.new))) }
    ensures lost { IfOk result (λ end. IfLost end (FallsDue orders.now.lose)) }
    ensures reached { IfOk result (λ end. IfLost end (λ s. HasReached orders.now.keep
        (E.caller exchange.old) node.part s (E.caller exchange.new))) }
    ensures spared { IfOk result (λ end. IfDone end (λ r.
        FallsDue orders.now.lose r.superstep → ⊥)) }
    ensures starved { IfOk result (λ end. IfStarved end (λ s q.
        WasMissing (E.caller exchange.old) (batch_name s q node.part) (E.caller exchange.new))) }
    ensures starved_told { IfOk result (λ end. IfStarved end (λ s q.
        HasToldAll (E.caller exchange.old) s node.part (E.caller exchange.new))) }
    ensures starved_kept { IfOk result (λ end. IfStarved end (λ s q. KeptIfTold orders.now.keep
        (E.caller exchange.old) s (E.caller exchange.new))) }
    ensures source { IfOk result (λ end. IfStarved end (λ s q.
        (q < (E.caller exchange.old).seen.job.plan.parts) × (q ≢ node.part))) }
    ensures path { IsNodePath orders.now.keep (E.caller exchange.old) node.part
        (E.caller exchange.new) }
    ensures came { IfOk result (λ end. IfDone end (λ r. IsPathTo orders.now.keep
        (E.caller exchange.old) node.part r (E.caller exchange.new))) }
    ensures full { IfErr result (λ e. e ≡ BookFull → IsFull (E.caller exchange.new)) }
    ensures alone { (E.caller exchange.old).seen.job.plan.parts ≡ 1 →
        IfOk result (λ end. IfStarved end (λ s q. ⊥)) }
    ensures alone_fits { (E.caller exchange.old).seen.job.plan.parts ≡ 1 → orders.now.keep ≡ 0 →
        orders.now.restart ≡ None → result ≢ Err BookFull }
{
    let processors = match available_parallelism(rt) {
        Ok(processors) => processors.get(),
        Err(_) => 1,
    };
    let threads = share_of(processors, part.plan().parts(), 1);
    let part = ReadyPart::of(part);
    let gate = UnwatchedGate::new(gate);
    let worker = Worker {
        rt,
        gate: &gate,
        node,
        orders: *orders,
        threads,
    };
    worker.run_ready(exchange, part)
}
