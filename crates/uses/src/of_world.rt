//! Worlds, event by event and by scripts.

ghost use Rattle.std.specs.Prelude.{◌≡◌, ◌↔◌, None, Some, [], IfOk, OnOk};
ghost use Rattle.ball_model.specs.declared.world.Event.TheVariants as event;
ghost use Rattle.ball_model.specs.Input.{IsPlain};
ghost use Rattle.ball_model.specs.Job.{IsJob, Job, job_of};
ghost use Rattle.ball_model.specs.World.{World as Defined, after_event, node_at, start_world};
ghost use Rattle.ball_model.specs.WorldText.{AppendsReplay};
ghost use Rattle.world.specs.Replay.{replay_of};
ghost use Rattle.world.specs.Shows.{Shows};

use ball_model::{MemWriter, NodeId, Plan};
use graph::Graph;
use replica::Shown;
use std::alloc::{AllocError, Global};
use std::hash::RandomState;
use world::replay::{ReplayError, ReplayOptions, replay};
use world::{Answer, Event, World, WorldError};

/// The world of a job with one node for each partition, before anything has happened.
pub fn start(alloc: Global, graph: &Graph, plan: &Plan) -> Result<World, AllocError>
    requires { IsJob (job_of graph.now.graph plan.now) }
    ensures { IfOk result (λ world.
        Shows (job_of graph.now.graph plan.now) (start_world plan.now 1) world) }
{
    World::new(alloc, graph, plan, 1)
}

/// A node sends its batch to a partition, and then closes its superstep.
pub fn send_and_close(
    alloc: Global,
    world: &mut World,
    node: NodeId,
    target: u16,
) -> Result<Answer, WorldError>
    ensures { (j : Job) (w : Defined) → Shows j w world.old → OnOk result
        (Shows j (after_event j (after_event j w (event.Send node target)) (event.Close node))
        world.new) }
{
    world.apply(alloc, Event::Send { node, target })?;
    world.apply(alloc, Event::Close { node })
}

/// The superstep of a node, if there is that node.
pub fn superstep_of(world: &World, node: NodeId) -> Option<u32>
    ensures { (j : Job) (w : Defined) → Shows j w world.now →
        (result ≡ None) ↔ (node_at w node ≡ None) }
{
    match world.node(node) {
        Some(replica) => Some(replica.superstep()),
        None => None,
    }
}

/// The answers of a script over an edge list, in memory with room for so many bytes.
pub fn answers(
    alloc: Global,
    state: RandomState,
    edges: &[u8],
    script: &[u8],
    options: &ReplayOptions,
    room: usize,
) -> Result<Vec<u8>, ReplayError>
    ensures { IsPlain edges.now → IfOk result (λ text. AppendsReplay (replay_of options.now)
        edges.now None script.now (Some []) (Some text.items)) }
{
    let mut writer = MemWriter::with_room(alloc, room, None)?;
    replay(alloc, state, edges, None, script, options, &mut writer)?;
    Ok(writer.into_bytes())
}
