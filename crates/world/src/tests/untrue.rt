//! Batches of the right form that are not true, or of another job: what was sent was changed on the way.
//!
//! Two edges are dealt out to two partitions: node 0 has the vertices 0 and 2, node 1 has vertex 1.

ghost use Rattle.std.specs.Prelude.{◌≡◌, ◌<◌};
ghost use Rattle.ball_model.specs.Job.{digest_of};

use super::worlds::{B, TWO_EDGES, graph_of, world_of};
use super::*;
use crate::node::Node;
use ball_model::{CloseError, Plan, TakeError, Taken};
use batches::Batch;
use edgelist::Graph;
use replica::{Replica, Shown};
use std::sync::Arc;

const ROW_A: [u8; 16] = [0, 0, 0, 0, 0, 0, 0, 0, 0, 0, 0, 0, 0, 0, 3, 0];

/// The node of partition 0.
fn node_of(rt: &HostRuntime, graph: &Graph, plan: &Plan) -> Option<Node>
    requires below { 0 < plan.now.parts }
    requires vertices { plan.now.vertices ≡ graph.now.graph.vertices }
    requires digest { plan.now.job ≡ digest_of plan.now graph.now.graph }
{
    let part = graph.part(rt.alloc(), plan, 0).ok()?;
    let part = Arc::new(rt.alloc(), part).ok()?;
    Node::start(rt.alloc(), part).ok()
}

/// The node of partition 0 of the job.
fn node(rt: &HostRuntime) -> Option<Node> {
    let graph = graph_of(rt, TWO_EDGES)?;
    let plan = graph.plan(4, 0, 2, 4096).ok()?;
    if plan.parts() == 0 {
        return None;
    }
    node_of(rt, &graph, &plan)
}

/// The bytes of the batch that a replica has for partition 0.
fn told(rt: &HostRuntime, replica: &Replica) -> Option<Vec<u8>> {
    if replica.plan().parts() == 0 || replica.partition() == 0 {
        return None;
    }
    let batch = replica.out(rt.alloc(), 0).ok()?;
    batch.encode(rt.alloc()).ok()
}

/// A batch with one row becomes that of another superstep, and each register 33, the greatest rank.
fn change(bytes: &mut [u8], superstep: u8) {
    if let Some(last) = bytes.get_mut(9) {
        *last = superstep;
    }
    for i in 58..bytes.len() {
        bytes[i] = 33;
    }
}

/// What a node answers to the batch of those bytes.
fn answer_to(rt: &HostRuntime, node: &mut Node, bytes: &[u8]) -> Option<Answer> {
    let batch = Batch::decode(rt.alloc(), node.replica().plan(), bytes).ok()?;
    let batch = Arc::new(rt.alloc(), batch).ok()?;
    Some(node.deliver(batch))
}

/// Whether registers of 33 are closed over: 16 of them are estimated as 0.673 * 16 * 2^33, and the sums are those of
/// both vertices.
fn shows_untrue(node: &Node) -> bool {
    let replica = node.replica();
    if !replica.owns(0) || !replica.owns(2) {
        return false;
    }
    let tally = replica.tally(2);
    replica.superstep() == 1
        && replica.row(0) == ROW_A.as_slice()
        && replica.row(2) == [33u8; 16].as_slice()
        && tally.last == 92_496_415_686_656_000
        && tally.harm == 92_496_415_675_358_427
        && tally.dist == 92_496_415_675_358_427
        && replica.sums() == [22_688_515, 92_496_415_698_046_942].as_slice()
}

/// A node takes the untrue batches of two supersteps, the later one first, and closes.
fn closes_over(rt: &HostRuntime, node: &mut Node, level: &[u8], early: &[u8]) -> bool {
    answer_to(rt, node, early) == Some(Answer::Took(Taken::New))
        && answer_to(rt, node, level) == Some(Answer::Took(Taken::New))
        && node.close() == Answer::Closed { superstep: 1 }
        && shows_untrue(node)
}

/// What comes of them is kept, and is there again after a restart: the batch that came early too.
fn comes_back(rt: &HostRuntime, node: &mut Node, early: &[u8]) -> bool {
    node.keep(rt.alloc()) == Ok(Answer::Kept { superstep: 1 })
        && node.close() == Answer::Closed { superstep: 2 }
        && !shows_untrue(node)
        && node.restart(rt.alloc()) == Ok(Answer::Restarted { superstep: 1 })
        && shows_untrue(node)
        && answer_to(rt, node, early) == Some(Answer::Took(Taken::Known))
        && node.close() == Answer::Closed { superstep: 2 }
}

/// The batch of partition 1 at superstep 0, changed.
fn untrue(rt: &HostRuntime, world: &World, superstep: u8) -> Option<Vec<u8>> {
    let mut bytes = told(rt, world.node(B)?)?;
    change(&mut bytes, superstep);
    Some(bytes)
}

/// Turns the last bit of a byte.
fn turn(bytes: &mut [u8], place: usize) {
    if let Some(byte) = bytes.get_mut(place) {
        *byte ^= 1;
    }
}

/// Whether the batch of partition 1 at superstep 0 is read and not taken if that byte of its digest is another one.
fn is_of_another_job(
    rt: &HostRuntime,
    world: &World,
    node: &mut Node,
    place: usize,
) -> Option<bool> {
    let mut bytes = told(rt, world.node(B)?)?;
    turn(&mut bytes, place);
    let answer = answer_to(rt, node, &bytes)?;
    Some(answer == Answer::NotTaken(TakeError::OtherJob))
}

/// Whether it is so of each byte, and the node still waits for that batch.
fn are_of_another_job(rt: &HostRuntime, node: &mut Node) -> Option<bool> {
    let world = world_of(rt, TWO_EDGES, 2, 1)?;
    let mut all = true;
    for place in 14..46 {
        all &= is_of_another_job(rt, &world, node, place)?;
    }
    Some(all && node.close() == Answer::NotClosed(CloseError::Waiting { source: 1 }))
}

#[test]
fn batches_of_another_job_are_not_taken(rt: HostRuntime) {
    let right = match node(&rt) {
        Some(mut node) => are_of_another_job(&rt, &mut node),
        None => None,
    };
    assert_eq!(rt; right, Some(true));
}

/// Whether both is so.
fn is_so(rt: &HostRuntime, world: &World, node: &mut Node) -> Option<(bool, bool)> {
    let level = untrue(rt, world, 0)?;
    let early = untrue(rt, world, 1)?;
    let closed = closes_over(rt, node, &level, &early);
    Some((closed, comes_back(rt, node, &early)))
}

/// Whether a node at its start closes over the untrue batches, and what comes of them is there again after a restart.
fn story(rt: &HostRuntime, node: &mut Node) -> Option<(bool, bool)> {
    let world = world_of(rt, TWO_EDGES, 2, 1)?;
    is_so(rt, &world, node)
}

#[test]
fn untrue_batches_are_closed_over_and_kept(rt: HostRuntime) {
    let told = match node(&rt) {
        Some(mut node) => story(&rt, &mut node),
        None => None,
    };
    assert_eq!(rt; told, Some((true, true)));
}
