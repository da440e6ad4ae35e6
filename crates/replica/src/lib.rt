//! One partition's state, superstep by superstep (Pregel 2010, HyperBall 2013).
//!
//! A [`Replica`] has the registers of each vertex of its partition at a superstep t, which of them changed there, the
//! figures so far, and the batches that it holds, of superstep t and the [`LEVELS`] after it. It holds its level if it
//! has the batch of superstep t of every other partition, those without rows too. Then [`Shown::verdict`] says whether
//! the run goes on, and [`Replica::close`] makes the rows of t + 1: each is raised by those of its predecessors that
//! changed at t, and by no other, since an unchanged row has nothing new to say; [`Replica::close_by`] does so in
//! several threads. [`Replica::out`] is the batch of t for another partition ([`Replica::out_of`] is the same batch
//! over a table of the rows that changed, which all batches of t share), and [`Replica::take`] holds a batch of
//! another one. A replica and a snapshot of it are read by the calls of one trait, [`Shown`].
//!
//! What a replica stands for is a definition of `ball_model`: all that it has is what the definitions say of its
//! superstep. Whatever a batch says, true or not, registers stay at most 33 and every figure fits its type.
//!
//! ```text
//!            superstep t                          superstep t + 1
//!   out  ->  batches of t to the others
//!   take <-  batches of t to t + LEVELS    close
//!            level held: GoOn             ------>  rows raised by changed predecessors
//!                        Stable, Limit             names of t gone, the others stay
//! ```
//!
//! A replica that was lost, restarted or late takes over what another one of its partition knows: it merges a
//! [`Snapshot`] of it ([`Replica::merge`]), or the two are joined. Then it is at the greater superstep of the two,
//! with the rows and figures of that one, and holds each batch of its window that either held. What is taken over is
//! true if both were.
//!
//! Proved callers: `uses::of_replica::{first_batch, take_and_close, counter_of, share}`.
//!
//! Only the making of [`Targets`], [`FirstTables`] and a [`Replica`], [`Replica::out`], [`Replica::changed_rows`],
//! [`Replica::out_of`], [`Replica::snapshot`], [`Replica::merge`] and a join take memory, and [`Replica::close_by`]
//! that of its threads.
#![tactic(auto)]

mod early;
mod first;
mod hearing;
pub mod laws;
mod level;
mod marks;
mod pull;
mod relay;
mod replica;
mod saved;
mod shown;
mod spread;
mod stage;
mod start;
mod stepping;
mod tables;
mod targets;
mod team;
mod telling;
mod waiting;
mod walk;

pub use early::LEVELS;
pub use first::FirstTables;
pub use replica::out::ChangedRows;
pub use replica::{Replica, Snapshot};
pub use saved::Saved;
pub use shown::Shown;
pub(crate) use stage::Stage;
pub use targets::Targets;

#[cfg(test)]
mod tests;
