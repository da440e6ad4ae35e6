//! One node of a run, driven by words and bytes: a partition's replica behind an input and an output.
//!
//! A cluster's engine (a scheduler, a shell) starts a node for each partition of a job, and carries batches and
//! checkpoints between them as bytes. [`serve::serve_node`] reads the job, and then answers commands, one after the
//! other; [`gather::gather`] reads the checkpoints of all partitions at the end of a run, and writes their report.
//!
//! ```text
//! a   b          the edge list, as it is read by a run
//! b   c
//! %%
//! send 1         -> sent 0 0 1 2 1 74, and 74 bytes
//! deliver 74     and 74 bytes -> new
//! close          -> closed 1
//! keep           -> kept 1 259, and 259 bytes
//! ```
//!
//! What a node answers is a function of the commands over one node of the world's definition: the same replica as a
//! [`world::World`] has, whose batches and checkpoints are kept by others. Both calls have a [`job::Watch`] that
//! they call as they get on.
#![tactic(auto)]

mod answers;
mod command;
pub mod error;
pub mod gather;
mod input;
pub mod laws;
pub mod limits;
mod own;
pub mod serve;
mod session;
#[cfg(test)]
mod tests;
mod watched;
