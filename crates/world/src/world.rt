//! A cluster whose events come one at a time.

ghost use Rattle.std.specs.Prelude.{◌≡◌, ◌≢◌, ◌↔◌, ◌++◌, ◌∷◌, [], None, Err, true, IfOk, IsOk};
ghost use Rattle.std.specs.Prelude.{OnErr, OnOk, length, option_map};
ghost use Rattle.std.specs.List.{slice_get};
ghost use Rattle.ball_model.specs.declared.world.Event.TheVariants as event;
ghost use Rattle.ball_model.specs.declared.world.Answer.TheVariants as answer;
ghost use Rattle.ball_model.specs.declared.world.WorldError.TheVariants as refusal;
ghost use Rattle.ball_model.specs.Job.{Job, IsJob, job_of};
ghost use Rattle.ball_model.specs.World.{World as Defined, after_event, answer_of, node_at};
ghost use Rattle.ball_model.specs.World.{sent_answer, start_world};
ghost use Rattle.replica.specs.Seen.{IsState};
ghost use Rattle.world.specs.Runs.{Applies, takes_memory};
ghost use Rattle.world.specs.Shows.{Agree, Has, Shows, message_of, seen_at};

use crate::message::Message;
use crate::node::Node;
use crate::start::start_all;
use ball_model::world::{Answer, Event, WorldError};
use ball_model::{NodeId, Plan};
use batches::Batch;
use edgelist::Graph;
use replica::{Replica, Shown, Snapshot};
use std::alloc::{AllocError, Global};
use std::marker::Model;

/// A cluster whose events come one at a time.
#[derive(Drop)]
pub struct World {
    plan: Plan,
    // for each partition its nodes, by replica
    nodes: Vec<Vec<Node>>,
    messages: Vec<Message>,
    copies: Vec<Snapshot>,
}

impl Model for World {
    ghost use Rattle.std.specs.Prelude.{map};
    ghost use Rattle.world.specs.Shows.{SeenWorld};

    ghost Value = { SeenWorld };

    ghost view = { λ w. record {
      plan = w.plan;
      nodes = map (λ row. row.items) w.nodes.items;
      messages = w.messages.items;
      copies = w.copies.items;
    } };
}

impl World {
    /// The world of a job at its start: `replicas` nodes of each partition, each at superstep 0, which have sent, kept
    /// and copied nothing. The error is that memory was refused.
    pub fn new(alloc: Global, graph: &Graph, plan: &Plan, replicas: u8) -> Result<World, AllocError>
        requires { IsJob (job_of graph.now.graph plan.now) }
        ensures { IfOk result (λ v. Shows (job_of graph.now.graph plan.now)
            (start_world plan.now replicas) v) }
    {
        let nodes = start_all(alloc, graph, plan, replicas)?;
        Ok(World {
            plan: *plan,
            nodes,
            messages: Vec::new(alloc),
            copies: Vec::new(alloc),
        })
    }

    /// The replica of a node, if there is one.
    pub fn node(&self, id: NodeId) -> Option<&Replica>
        ensures value { option_map (λ r. r.now) result ≡
            option_map (λ n. n.replica) (seen_at self.now id) }
        ensures none { (j : Job) (w : Defined) → Shows j w self.now →
            (result ≡ None) ↔ (node_at w id ≡ None) }
        ensures stands { (j : Job) (w : Defined) → Shows j w self.now →
            Agree (λ n r. Has j n.content r.now) (node_at w id) result }
    {
        match self.nodes.get(usize::from(id.part)) {
            Some(nodes) => replica_at(nodes, id.replica),
            None => None,
        }
    }

    /// Does what an event says, and answers it.
    ///
    /// In this order it is refused: [`NoNode`](WorldError::NoNode) if there is no such node,
    /// [`NoTarget`](WorldError::NoTarget) if a target is no partition or the node's own,
    /// [`NoMessage`](WorldError::NoMessage) and [`NoCopy`](WorldError::NoCopy) if none has that number, and
    /// [`Memory`](WorldError::Memory) if the memory is refused that the event takes; a refusal changes nothing, and the
    /// event can be given again. A close and a look take no memory.
    pub fn apply(&mut self, alloc: Global, event: Event) -> Result<Answer, WorldError>
        ensures answer { (j : Job) (w : Defined) → Shows j w self.old →
            result ≢ Err refusal.Memory → result ≡ answer_of j w event }
        ensures shows { (j : Job) (w : Defined) → Shows j w self.old →
            result ≢ Err refusal.Memory → Shows j (after_event j w event) self.new }
        ensures memory { (j : Job) (w : Defined) → Shows j w self.old →
            result ≡ Err refusal.Memory → IsOk (answer_of j w event) }
        ensures takes { result ≡ Err refusal.Memory → takes_memory event ≡ true }
        ensures refused { OnErr result (self.new ≡ self.old) }
        // what the laws of whole runs are over
        ensures step { (j : Job) → Applies j event result self.old self.new }
    {
        self.happen(alloc, event)
    }

    // Does what an event says, and answers it.
    fn happen(&mut self, alloc: Global, event: Event) -> Result<Answer, WorldError>
        ensures { (j : Job) → Applies j event result self.old self.new }
    {
        match event {
            Event::Send { node, target } => self.send(alloc, node, target),
            Event::Deliver { message, node } => self.deliver(alloc, message, node),
            Event::Close { node } => self.close(node),
            Event::Keep { node } => self.keep(alloc, node),
            Event::Restart { node } => self.restart(alloc, node),
            Event::Copy { node } => self.copy(alloc, node),
            Event::Recover { node, copy } => self.recover(alloc, node, copy),
            Event::Show { node } => self.show(node),
        }
    }

    // A node sends a partition the batch of its superstep.
    fn send(&mut self, alloc: Global, id: NodeId, target: u16) -> Result<Answer, WorldError>
        ensures { (j : Job) → Applies j (event.Send id target) result self.old self.new }
    {
        let Some(replica) = self.node(id) else {
            return Err(WorldError::NoNode);
        };
        if replica.plan().parts() <= target || target == replica.partition() {
            return Err(WorldError::NoTarget);
        }
        let batch = replica.out(alloc, target)?;
        Ok(self.add_message(alloc, &batch)?)
    }

    // A batch becomes a message.
    fn add_message(&mut self, alloc: Global, batch: &Batch) -> Result<Answer, AllocError>
        ensures sent { OnOk result (self.new ≡ record self.old {
          messages = self.old.messages ++ message_of batch.now ∷ [];
        }) }
        ensures answer { IfOk result (λ a. a ≡ sent_answer (length self.old.messages) batch.now) }
        ensures refused { OnErr result (self.new ≡ self.old) }
    {
        let message = self.messages.len() as u64;
        let spelled = Message::spell(alloc, batch)?;
        self.messages.push(spelled)?;
        Ok(Answer::Sent {
            message,
            name: batch.name(),
            changed: batch.changed(),
            rows: batch.count(),
        })
    }

    // A message comes to a node.
    fn deliver(&mut self, alloc: Global, message: u64, id: NodeId) -> Result<Answer, WorldError>
        ensures { (j : Job) → Applies j (event.Deliver message id) result self.old self.new }
    {
        let Some(nodes) = self.nodes.get_mut(usize::from(id.part)) else {
            return Err(WorldError::NoNode);
        };
        let Some(node) = nodes.get_mut(usize::from(id.replica)) else {
            return Err(WorldError::NoNode);
        };
        let Some(message) = self.messages.get(message as usize) else {
            return Err(WorldError::NoMessage);
        };
        let batch = message.read(alloc)?;
        Ok(node.deliver(batch))
    }

    // A node closes its superstep.
    fn close(&mut self, id: NodeId) -> Result<Answer, WorldError>
        ensures { (j : Job) → Applies j (event.Close id) result self.old self.new }
    {
        let Some(nodes) = self.nodes.get_mut(usize::from(id.part)) else {
            return Err(WorldError::NoNode);
        };
        let Some(node) = nodes.get_mut(usize::from(id.replica)) else {
            return Err(WorldError::NoNode);
        };
        Ok(node.close())
    }

    // A node keeps what it has.
    fn keep(&mut self, alloc: Global, id: NodeId) -> Result<Answer, WorldError>
        ensures { (j : Job) → Applies j (event.Keep id) result self.old self.new }
    {
        let Some(nodes) = self.nodes.get_mut(usize::from(id.part)) else {
            return Err(WorldError::NoNode);
        };
        let Some(node) = nodes.get_mut(usize::from(id.replica)) else {
            return Err(WorldError::NoNode);
        };
        Ok(node.keep(alloc)?)
    }

    // A node returns to what it kept, or to the start.
    fn restart(&mut self, alloc: Global, id: NodeId) -> Result<Answer, WorldError>
        ensures { (j : Job) → Applies j (event.Restart id) result self.old self.new }
    {
        let Some(nodes) = self.nodes.get_mut(usize::from(id.part)) else {
            return Err(WorldError::NoNode);
        };
        let Some(node) = nodes.get_mut(usize::from(id.replica)) else {
            return Err(WorldError::NoNode);
        };
        Ok(node.restart(alloc)?)
    }

    // A copy is made of a node.
    fn copy(&mut self, alloc: Global, id: NodeId) -> Result<Answer, WorldError>
        ensures { (j : Job) → Applies j (event.Copy id) result self.old self.new }
    {
        let Some(nodes) = self.nodes.get_mut(usize::from(id.part)) else {
            return Err(WorldError::NoNode);
        };
        let Some(node) = nodes.get_mut(usize::from(id.replica)) else {
            return Err(WorldError::NoNode);
        };
        let snapshot = node.copy(alloc)?;
        Ok(self.add_copy(snapshot)?)
    }

    // A snapshot becomes a copy.
    fn add_copy(&mut self, snapshot: Snapshot) -> Result<Answer, AllocError>
        ensures copied { OnOk result (self.new ≡ record self.old {
          copies = self.old.copies ++ snapshot ∷ [];
        }) }
        ensures answer { IfOk result (λ a. a ≡
            answer.Copied (length self.old.copies) snapshot.superstep) }
        ensures refused { OnErr result (self.new ≡ self.old) }
        ensures state { IsState snapshot }
    {
        let copy = self.copies.len() as u64;
        let superstep = snapshot.superstep();
        self.copies.push(snapshot)?;
        Ok(Answer::Copied { copy, superstep })
    }

    // A node takes over what a copy has.
    fn recover(&mut self, alloc: Global, id: NodeId, copy: u64) -> Result<Answer, WorldError>
        ensures { (j : Job) → Applies j (event.Recover id copy) result self.old self.new }
    {
        let Some(nodes) = self.nodes.get_mut(usize::from(id.part)) else {
            return Err(WorldError::NoNode);
        };
        let Some(node) = nodes.get_mut(usize::from(id.replica)) else {
            return Err(WorldError::NoNode);
        };
        let Some(snapshot) = self.copies.get(copy as usize) else {
            return Err(WorldError::NoCopy);
        };
        Ok(node.recover(alloc, snapshot)?)
    }

    // A node is looked at.
    fn show(&self, id: NodeId) -> Result<Answer, WorldError>
        ensures { (j : Job) → Applies j (event.Show id) result self.now self.now }
    {
        match self.node(id) {
            Some(_) => Ok(Answer::Shown),
            None => Err(WorldError::NoNode),
        }
    }
}

// The replica of a node of a partition, if there is one.
fn replica_at(nodes: &[Node], replica: u8) -> Option<&Replica>
    ensures { option_map (λ r. r.now) result ≡
        option_map (λ n. n.replica) (slice_get nodes.now replica) }
{
    match nodes.get(usize::from(replica)) {
        Some(node) => Some(node.replica()),
        None => None,
    }
}
