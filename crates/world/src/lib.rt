//! A cluster whose events come one at a time, in any order that anyone writes down (Pregel 2010).
//!
//! A [`World`] has the nodes of a job: some replicas of each partition. An [`Event`] is one call at one node, and
//! [`World::apply`] answers it: a node sends a message, takes one, closes its superstep, keeps what it has, returns to
//! what it kept, is copied, or takes over what a copy has. Messages and copies are numbered from 0 and stay; a loss is a message that is never delivered, a repeat one that is delivered again. Messages and checkpoints are bytes.
//!
//! What each event answers and makes of the world is a definition of `ball_model`, over plain data. After any list of
//! events the world is what the definition makes of it: each replica at superstep t has for each of its vertices the
//! registers of exactly the counted vertices with a path of at most t edges to it ([`laws::headline`]).
//!
//! Proved callers: `uses::of_world::{start, send_and_close, superstep_of, answers}`.
//!
//! [`replay::replay`] plays a script, a command on each line, over an edge list, and writes the answers;
//! [`replay::replay_watched`] also calls a [`job::Watch`] as it proceeds.
//!
//! An event is refused ([`WorldError`]) if there is no such node, target, message or copy, or if memory is refused;
//! then the world is as it was.
#![tactic(auto)]

pub mod answer;
pub mod bytes;
pub mod laws;
mod message;
mod node;
pub mod replay;
pub mod script;
mod start;
pub mod tell;
mod world;

pub use ball_model::world::{Answer, Event, WorldError};
pub use node::{answer_to_close, answer_to_take};
pub use world::World;

#[cfg(test)]
mod tests;
