//! All nodes of a job: a thread for each, and one board between them.

ghost use Rattle.std.specs.Prelude.{◌≡◌, ◌≢◌, ◌<◌, ◌+◌, ◌*◌, ℕ, true, IfOk, IfErr, IfSome, [], ◌∷◌};
ghost use Rattle.std.specs.Prelude.{is_some};
ghost use Rattle.ball_model.specs.History.{calls_by};
ghost use Rattle.ball_model.specs.Job.{Job, IsJob, job_of, part_of};
ghost use Rattle.ball_model.specs.declared.plan.TheConstants.{MOST_REPLICAS};
ghost use Rattle.workers.specs.Job.{AreDone, AreEnds, AreParts, AreStarted, HasSplit, IsAssigned};
ghost use Rattle.workers.specs.Job.{IsFaultOf, IsFirstFault, IsNodeEnd, IsPartEnd, IsPartStarted};
ghost use Rattle.workers.specs.Job.{HasRun, IsSeatOf, KeepsItsOrders};
ghost use Rattle.workers.specs.Ends.{is_early};
ghost use Rattle.workers.specs.Marks.{place_at, stop_place};
ghost use Rattle.workers.specs.Options.{are_in_limits, is_named, kept_by, order_for, orders_for};

use crate::assignment::{Assignment, NodeResult};
use crate::ends::done_replicas;
use crate::exchange::BoardExchange;
use crate::gate::Gate;
use crate::indexed::ReadyPart;
use crate::marks::Look;
use crate::options::RunOptions;
use crate::planned::Planned;
use crate::running::{RunGate, Running};
use crate::runs::RunError;
use crate::threads::share_of;
use crate::worker::Worker;
use crate::worker::node_run::{NodeError, NodeOrders};
use ball_model::{NodeId, Plan};
use board::{Board, Seat};
use edgelist::Graph;
use job::Watch;
use replica::Replica;
use std::alloc::{AllocError, AllocGlobal};
use std::marker::Model;
use std::snapshot::Snapshot;
use std::sync::Wait;
use std::thread;
use std::thread::{PromisedHandle, Scope, Threads};

// The thread of a node, if there could be one.
type Child = Option<PromisedHandle<NodeResult, Assignment>>;

// The thread of a node; if there could be none, what is known of the mark that says so.
type Started = Result<PromisedHandle<NodeResult, Assignment>, Option<Look>>;

// Every how many supersteps the nodes of a run keep a snapshot. If there is one node, and nobody is to start anew, none is
// kept: no call could recall it.
fn kept_by(options: &RunOptions) -> u32
    ensures { result ≡ kept_by options.now }
{
    let one_node = options.parts == 1 && options.replicas == 1;
    if one_node && options.restart.is_empty() {
        0
    } else {
        options.keep
    }
}

// The first order for a node.
fn order_for(orders: &[(NodeId, u32)], node: NodeId) -> Option<u32>
    ensures { result ≡ order_for node.part node.replica orders.now }
{
    for (named, superstep) in orders {
        if *named == node {
            return Some(*superstep);
        }
    }
    None
}

// The orders of a node.
fn orders_for(options: &RunOptions, node: NodeId) -> NodeOrders
    ensures { result ≡ orders_for options.now node.part node.replica }
{
    NodeOrders {
        keep: kept_by(options),
        patience: options.patience,
        lose: order_for(&options.lose, node),
        restart: order_for(&options.restart, node),
    }
}

/// A node at its seat: what its thread takes over.
#[derive(Drop)]
struct Seated {
    seat: Seat,
    part: ReadyPart,
    node: NodeId,
    orders: NodeOrders,
}

/// How a node ended, and what is known of its mark if that was before the end of the run.
#[derive(Drop)]
struct Ended {
    end: NodeResult,
    told: Option<Look>,
}

// Runs a node at its seat, and marks it if it ends before the end of the run.
fn run_at<R: AllocGlobal + Threads + Wait + Sync, G: Gate + Watch>(
    rt: &R,
    board: &Board,
    gate: &G,
    running: &Running,
    seated: Seated,
) -> Ended
    requires seat { IsSeatOf board.now seated.seat.caller.seen.job seated.seat }
    requires start { calls_by seated.seat.caller.number seated.seat.caller.seen ≡ [] }
    requires job { IsJob seated.seat.caller.seen.job }
    requires node { seated.node.part < seated.seat.caller.seen.job.plan.parts }
    requires part { seated.part ≡ part_of seated.seat.caller.seen.job seated.node.part }
    ensures orders { KeepsItsOrders seated.seat.caller.seen.job seated.node.part seated.orders
        result.end }
    ensures ran { HasRun seated.seat.caller.seen.job board.now.limit seated.node.part seated.orders
        result.end }
    ensures told { is_some result.told ≡
        is_early running.now.parts running.now.replicas seated.node result.end }
    ensures known { IfSome result.told (λ look.
        look.me ≡ (place_at seated.node.part seated.node.replica ∷ [], [])) }
{
    let Seated {
        seat,
        part,
        node,
        orders,
    } = seated;
    let mut exchange = BoardExchange::new(board, seat);
    let gate = RunGate::new(gate, running);
    let worker = Worker {
        rt,
        gate: &gate,
        node,
        orders,
        threads: running.threads(),
    };
    let end = worker.run_ready(&mut exchange, part);
    let told = running.end(node, &end);
    Ended { end, told }
}

/// What the threads of a run share.
#[derive(Drop)]
struct Crew<'a, R, G> {
    rt: &'a R,
    board: &'a Board,
    gate: &'a G,
    running: &'a Running,
    graph: &'a Graph,
    plan: &'a Plan,
    options: &'a RunOptions,
}

impl<'a, R, G> Model for Crew<'a, R, G> {
    ghost use Rattle.ball_model.specs.Job.{job_of};
    ghost use Rattle.workers.specs.Job.{CrewView, IsCrew};

    ghost Value = { CrewView };

    ghost view = { λ c. record {
      board = c.board.now;
      job = job_of c.graph.now.graph c.plan.now;
      options = c.options.now;
      running = c.running.now;
    } };

    ghost invariant = { λ c.
        IsCrew c.board.now (job_of c.graph.now.graph c.plan.now) c.options.now };
}

impl<'a, R: AllocGlobal + Threads + Wait + Sync, G: Gate + Watch + Sync> Crew<'a, R, G> {
    // What the thread of a node promises.
    fn assignment(&self, node: NodeId) -> Assignment
        ensures { IsAssigned self.now.job self.now.options node.part node.replica result }
    {
        Assignment {
            graph: Snapshot::of(self.graph),
            plan: Snapshot::of(self.plan),
            options: Snapshot::of(self.options),
            node,
        }
    }

    // Starts the thread of a node. If there can be none, the node is marked.
    fn start_node<'s, X>(
        &'a self,
        scope: &'s Scope<'s, X>,
        seat: Seat,
        part: ReadyPart,
        node: NodeId,
    ) -> Started
    where
        'a: 's,
        requires seat { IsSeatOf self.now.board self.now.job seat }
        requires start { calls_by seat.caller.number seat.caller.seen ≡ [] }
        requires node { node.part < self.now.job.plan.parts }
        requires part { part ≡ part_of self.now.job node.part }
        ensures started { IfOk result (λ child.
            IsAssigned self.now.job self.now.options node.part node.replica child.promise) }
        ensures told { IfErr result (λ told.
            is_some told ≡ is_named self.now.running.parts self.now.running.replicas node) }
        ensures known { IfErr result (λ told. IfSome told (λ look.
            look.me ≡ (place_at node.part node.replica ∷ [], []))) }
    {
        let assigned = self.assignment(node);
        let (rt, board, gate, running) = (self.rt, self.board, self.gate, self.running);
        let orders = orders_for(self.options, node);
        let seated = Seated {
            seat,
            part,
            node,
            orders,
        };
        let work = move || -> NodeResult
            requires seat { IsSeatOf board.now seated.seat.caller.seen.job seated.seat }
            requires start { calls_by seated.seat.caller.number seated.seat.caller.seen ≡ [] }
            requires job { IsJob seated.seat.caller.seen.job }
            requires node { seated.node.part < seated.seat.caller.seen.job.plan.parts }
            requires part { seated.part ≡ part_of seated.seat.caller.seen.job seated.node.part }
            ensures orders { KeepsItsOrders seated.seat.caller.seen.job seated.node.part
                seated.orders result }
            ensures ran { HasRun seated.seat.caller.seen.job board.entry.now.limit seated.node.part
                seated.orders result }
        { run_at(rt, board, gate, running, seated).end };
        match scope.spawn_with(assigned, work) {
            Ok(child) => Ok(child),
            Err(_) => Err(running.end(node, &Err(NodeError::Memory))),
        }
    }

    // Starts the threads of all nodes of a partition, which share its part.
    fn start_part<'s, X>(
        &'a self,
        scope: &'s Scope<'s, X>,
        first: &mut Seat,
        p: u16,
        part: &mut ReadyPart,
    ) -> Result<Vec<Child>, AllocError>
    where
        'a: 's,
        requires number { p < self.now.job.plan.parts }
        requires part { part.old ≡ part_of self.now.job p }
        requires seat { HasSplit self.now.board self.now.job (MOST_REPLICAS * p) first.old }
        ensures seat { HasSplit self.now.board self.now.job (MOST_REPLICAS * (p + 1)) first.new }
        ensures started { IfOk result (λ own. IsPartStarted (λ child. child.promise)
            self.now.job self.now.options p own.items) }
        ensures part { part.new ≡ part.old }
    {
        let alloc = self.rt.alloc();
        let replicas = self.options.replicas;
        let mut children = Vec::with_capacity(alloc, usize::from(replicas))?;
        for replica in 0..replicas {
            let node = NodeId { part: p, replica };
            let part = part.hand_out(alloc)?;
            let seat = first.split(self.board);
            let child = self.start_node(scope, seat, part, node).ok();
            children.push(child)?;
        }
        Ok(children)
    }

    // Starts the threads of all nodes, partition by partition. If not all can be started, the run is marked as stopped, so
    // that those that were started wait no more; the look that is returned has seen that mark.
    fn start_all<'s, X>(
        &'a self,
        scope: &'s Scope<'s, X>,
        mut first: Seat,
        parts: &mut [ReadyPart],
    ) -> Result<Vec<Vec<Child>>, Look>
    where
        'a: 's,
        requires parts { AreParts self.now.job parts.old }
        requires seat { HasSplit self.now.board self.now.job 0 first }
        ensures started { IfOk result (λ all. AreStarted (λ child. child.promise)
            (λ own. own.items) self.now.job self.now.options all.items) }
        ensures stopped { IfErr result (λ look.
            look.me ≡ (stop_place self.now.running.parts ∷ [], [])) }
    {
        let count = self.plan.parts();
        let Ok(mut children) = Vec::with_capacity(self.rt.alloc(), usize::from(count)) else {
            return Err(self.running.stop());
        };
        for p in 0..count {
            let part = &mut parts[usize::from(p)];
            let Ok(own) = self.start_part(scope, &mut first, p, part) else {
                return Err(self.running.stop());
            };
            let Ok(()) = children.push(own) else {
                return Err(self.running.stop());
            };
        }
        Ok(children)
    }

    // Starts all nodes, waits for all, and returns their ends. The error is that memory was refused.
    fn run_in<'s, X>(
        &'a self,
        scope: &'s Scope<'s, X>,
        first: Seat,
        parts: &mut [ReadyPart],
    ) -> Result<Vec<Vec<NodeResult>>, AllocError>
    where
        'a: 's,
        requires parts { AreParts self.now.job parts.old }
        requires seat { HasSplit self.now.board self.now.job 0 first }
        ensures { IfOk result (λ ends.
            AreEnds (λ own. own.items) self.now.job self.now.options ends.items) }
    {
        match self.start_all(scope, first, parts) {
            Ok(children) => join_all(self.rt, children),
            Err(_) => Err(AllocError),
        }
    }
}

// The end of a node, once its thread has ended; a node without a thread ended for want of memory.
fn end_of<R: Threads>(rt: &R, child: Child) -> NodeResult
    ensures { (j : Job) (o : RunOptions) (p k : ℕ) → p < j.plan.parts →
        IfSome child (λ h. IsAssigned j o p k h.promise) → IsNodeEnd j o p k result }
{
    match child {
        Some(child) => child.join(rt),
        None => Err(NodeError::Memory),
    }
}

// The ends of the nodes of a partition.
fn join_part<R: AllocGlobal + Threads>(
    rt: &R,
    children: Vec<Child>,
) -> Result<Vec<NodeResult>, AllocError>
    ensures { (j : Job) (o : RunOptions) (p : ℕ) →
        IsPartStarted (λ child. child.promise) j o p children.items →
        IfOk result (λ ends. IsPartEnd j o p ends.items) }
{
    let mut ends = Vec::with_capacity(rt.alloc(), children.len())?;
    for child in children {
        ends.push(end_of(rt, child))?;
    }
    Ok(ends)
}

// The ends of all nodes.
fn join_all<R: AllocGlobal + Threads>(
    rt: &R,
    children: Vec<Vec<Child>>,
) -> Result<Vec<Vec<NodeResult>>, AllocError>
    ensures { (j : Job) (o : RunOptions) →
        AreStarted (λ child. child.promise) (λ own. own.items) j o children.items →
        IfOk result (λ ends. AreEnds (λ own. own.items) j o ends.items) }
{
    let mut ends = Vec::with_capacity(rt.alloc(), children.len())?;
    for own in children {
        let own = join_part(rt, own)?;
        ends.push(own)?;
    }
    Ok(ends)
}

// Runs all nodes of a job by the parts of its partitions, a thread each, and returns their ends. The error is that memory
// was refused.
fn run_nodes<'a, R: AllocGlobal + Threads + Wait + Sync, G: Gate + Watch + Sync>(
    rt: &'a R,
    graph: &'a Graph,
    planned: Planned,
    options: &'a RunOptions,
    gate: &'a G,
) -> Result<Vec<Vec<NodeResult>>, AllocError>
    requires job { IsJob (job_of graph.now.graph planned.plan) }
    requires parts { AreParts (job_of graph.now.graph planned.plan) planned.parts.items }
    requires limits { are_in_limits options.now ≡ true }
    ensures { IfOk result (λ ends. AreEnds (λ own. own.items)
        (job_of graph.now.graph planned.plan) options.now ends.items) }
{
    let Planned { plan, mut parts } = planned;
    let (board, first) = Board::open(rt.alloc(), graph, &plan, options.entries)?;
    let threads = share_of(
        options.job().threads_for(rt),
        plan.parts(),
        options.replicas,
    );
    let running = Running::new(rt.alloc(), plan.parts(), options.replicas, threads)?;
    let crew = Crew {
        rt,
        board: &board,
        gate,
        running: &running,
        graph,
        plan: &plan,
        options,
    };
    let crew = &crew;
    let parts = parts.as_mut_slice();
    thread::scope(
        thread::scope_env(),
        rt,
        |scope| -> Result<Vec<Vec<NodeResult>>, AllocError>
            requires parts { AreParts crew.now.job parts.now }
            requires seat { HasSplit crew.now.board crew.now.job 0 first }
            ensures { IfOk result (λ ends. AreEnds (λ own. own.items)
                crew.entry.now.job crew.entry.now.options ends.items) }
        { crew.run_in(scope, first, parts) },
    )
}

/// Runs all nodes of a job by the parts of its partitions, a thread each, and returns the replica of each partition at
/// the end of the run: that of the first of its nodes that is done.
pub(crate) fn run_job<'a, R: AllocGlobal + Threads + Wait + Sync, G: Gate + Watch + Sync>(
    rt: &'a R,
    graph: &'a Graph,
    planned: Planned,
    options: &'a RunOptions,
    gate: &'a G,
) -> Result<Vec<Replica>, RunError>
    requires job { IsJob (job_of graph.now.graph planned.plan) }
    requires parts { AreParts (job_of graph.now.graph planned.plan) planned.parts.items }
    requires limits { are_in_limits options.now ≡ true }
    ensures done { IfOk result (λ rs. AreDone (job_of graph.now.graph planned.plan) rs.items) }
    ensures fault { IfErr result (IsFaultOf planned.plan.parts options.now) }
    ensures first { IfErr result (λ e. e ≢ RunError.Memory →
        IsFirstFault (job_of graph.now.graph planned.plan) options.now e) }
{
    let ends = run_nodes(rt, graph, planned, options, gate)?;
    done_replicas(rt.alloc(), ends)
}
