//! The answers of a list of events, written line by line.

ghost use Rattle.std.specs.Prelude.{◌≡◌, ◌+◌, ◌*◌, ◌<◌, ◌++◌, ◌%◌, OnOk, false};
ghost use Rattle.std.specs.List.{flat_map};
ghost use Rattle.ball_model.specs.declared.world.Event.{Event as Happening};
ghost use Rattle.ball_model.specs.Job.{Job};
ghost use Rattle.ball_model.specs.PlanValue.{part_size};
ghost use Rattle.ball_model.specs.State.{own_vertices};
ghost use Rattle.ball_model.specs.World.{World as Defined, node_at, node_of};
ghost use Rattle.ball_model.specs.WorldText.{node_line, outcome_text};
ghost use Rattle.ball_model.specs.WorldText.{row_text, show_text, show_unless};
ghost use Rattle.world.specs.Runs.{is_want};
ghost use Rattle.world.specs.Shows.{Shows};
ghost use Rattle.world.specs.Tell.{Tells, TellsOf, is_shown};

use crate::World;
use crate::answer::{put_answer, put_node, put_refusal, put_vertex};
use ball_model::world::{Answer, Event, WorldError};
use ball_model::{CountedWrite, NodeId, put_all};
use job::Watch;
use replica::{Replica, Shown};
use std::alloc::AllocError;

/// Why not all answers are written.
#[derive(Clone, Copy, Debug, PartialEq, Eq)]
pub enum TellError {
    /// Memory was refused.
    Memory,
    /// A write failed.
    Write,
}

impl From<AllocError> for TellError {
    ghost use Rattle.world.specs.declared.tell.TellError.TheVariants.{Memory};

    ghost from_gives = { λ _ e. e ≡ Memory };

    fn from(_fault: AllocError) -> TellError {
        TellError::Memory
    }
}

/// Writes lines.
pub fn write_lines<W: CountedWrite>(writer: &mut W, lines: &[u8]) -> Result<(), TellError>
    ensures { Tells W.contents W.failed_calls writer.old writer.new lines.now result }
{
    if put_all(writer, lines) {
        Ok(())
    } else {
        Err(TellError::Write)
    }
}

/// Vertex `i` of the replica's partition, counted from 0.
pub fn own_vertex(replica: &Replica, i: u32) -> u32
    requires { i < part_size replica.now.part.plan.vertices replica.now.part.plan.parts
        replica.now.part.number }
    ensures value { result ≡ i * replica.now.part.plan.parts + replica.now.part.number }
    ensures vertex { result < replica.now.part.plan.vertices }
    ensures own { result % replica.now.part.plan.parts ≡ replica.now.part.number }
{
    replica.limits();
    let parts = u32::from(replica.plan().parts());
    i * parts + u32::from(replica.partition())
}

// Writes the line of vertex `x`, which the replica's partition owns.
fn tell_vertex<W: CountedWrite>(
    replica: &Replica,
    x: u32,
    line: &mut Vec<u8>,
    writer: &mut W,
) -> Result<(), TellError>
    requires vertex { x < replica.now.part.plan.vertices }
    requires own { x % replica.now.part.plan.parts ≡ replica.now.part.number }
    ensures { TellsOf W.contents W.failed_calls replica.now (λ j h. row_text j h.superstep x)
        writer.old writer.new result }
{
    line.clear();
    put_vertex(line, replica, x)?;
    write_lines(writer, line)
}

// Writes the lines of all vertices of a replica's partition.
fn tell_vertices<W: CountedWrite>(
    replica: &Replica,
    line: &mut Vec<u8>,
    writer: &mut W,
) -> Result<(), TellError>
    ensures { TellsOf W.contents W.failed_calls replica.now
        (λ j h. flat_map (row_text j h.superstep) (own_vertices j h.partition))
        writer.old writer.new result }
{
    replica.limits();
    let partition = replica.partition();
    for i in 0..replica.plan().part_size(partition) {
        tell_vertex(replica, own_vertex(replica, i), line, writer)?;
    }
    Ok(())
}

// Writes the line of a node.
fn tell_head<W: CountedWrite>(
    id: NodeId,
    replica: &Replica,
    line: &mut Vec<u8>,
    writer: &mut W,
) -> Result<(), TellError>
    ensures { TellsOf W.contents W.failed_calls replica.now (λ j h. node_line j id h)
        writer.old writer.new result }
{
    line.clear();
    put_node(line, id, replica)?;
    write_lines(writer, line)
}

/// Writes what a node has: its line, and a line for each of its vertices.
pub fn tell_replica<W: CountedWrite>(
    id: NodeId,
    replica: &Replica,
    line: &mut Vec<u8>,
    writer: &mut W,
) -> Result<(), TellError>
    ensures { TellsOf W.contents W.failed_calls replica.now (λ j h. show_text j id h)
        writer.old writer.new result }
{
    tell_head(id, replica, line, writer)?;
    tell_vertices(replica, line, writer)
}

// Writes what a node of a world has, if there is one.
pub(crate) fn tell_node<W: CountedWrite>(
    world: &World,
    id: NodeId,
    line: &mut Vec<u8>,
    writer: &mut W,
) -> Result<(), TellError>
    ensures { (j : Job) (w : Defined) → Shows j w world.now →
        Tells W.contents W.failed_calls writer.old writer.new
        (show_unless j id (node_at w id)) result }
{
    match world.node(id) {
        Some(replica) => tell_replica(id, replica, line, writer),
        None => Ok(()),
    }
}

pub(crate) fn is_want(outcome: Result<Answer, WorldError>) -> bool
    ensures { result ≡ is_want outcome }
{
    matches!(outcome, Err(WorldError::Memory))
}

pub(crate) fn is_shown(outcome: Result<Answer, WorldError>) -> bool
    ensures { result ≡ is_shown outcome }
{
    matches!(outcome, Ok(Answer::Shown))
}

// Adds the line of what an event came to. A node that was looked at has lines of its own.
fn put_outcome(line: &mut Vec<u8>, outcome: Result<Answer, WorldError>) -> Result<(), AllocError>
    ensures { (j : Job) (w : Defined) (e : Happening) → is_shown outcome ≡ false →
        OnOk result (line.new.items ≡ line.old.items ++ outcome_text j w e outcome) }
{
    match outcome {
        Ok(answer) => put_answer(line, answer),
        Err(error) => put_refusal(line, error),
    }
}

// Writes the line of what an event came to.
pub(crate) fn tell_outcome<W: CountedWrite>(
    outcome: Result<Answer, WorldError>,
    line: &mut Vec<u8>,
    writer: &mut W,
) -> Result<(), TellError>
    ensures { (j : Job) (w : Defined) (e : Happening) → is_shown outcome ≡ false →
        Tells W.contents W.failed_calls writer.old writer.new (outcome_text j w e outcome) result }
{
    line.clear();
    put_outcome(line, outcome)?;
    write_lines(writer, line)
}

pub(crate) fn node_of(event: Event) -> NodeId
    ensures { result ≡ node_of event }
{
    match event {
        Event::Send { node, .. }
        | Event::Deliver { node, .. }
        | Event::Close { node }
        | Event::Keep { node }
        | Event::Restart { node }
        | Event::Copy { node }
        | Event::Recover { node, .. }
        | Event::Show { node } => node,
    }
}

// Calls the watch if the event closed a superstep.
pub(crate) fn show_close<V: Watch>(
    world: &World,
    event: Event,
    outcome: Result<Answer, WorldError>,
    watch: &V,
) {
    let node = node_of(event);
    if let Ok(Answer::Closed { superstep }) = outcome
        && let Some(replica) = world.node(node)
    {
        replica.limits();
        let vertices = replica.plan().part_size(replica.partition());
        watch.after_close(node, superstep, replica.changed_count(), vertices);
    }
}
