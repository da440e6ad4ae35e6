//! Jobs: one door from an input to a graph and a plan.
//!
//! [`JobOptions`] read a graph and make a plan as a job asks for them: [`JobOptions::read_network`]
//! reads in one thread, and [`JobOptions::read_network_by`] by as many as work on the job, and
//! calls a [`Watch`]. [`read_job`] reads both of an input on which something follows them: its
//! sections end at a line of exactly `%%` each.
//!
//! ```text
//! let mut reader = CountingReader::new(stdin);
//! let read = options.read_network(alloc, state, &mut reader, Some(b"alice\nbob\n"))?;
//! let plan = options.plan(&read.graph)?;
//! let part = read.graph.part(alloc, &plan, 0)?;
//! ```
#![tactic(auto)]

mod error;
mod input;
mod job;
mod limits;
mod section;
mod watch;

pub use edgelist::Unwatched;
pub use error::InputError;
pub use input::{JobInput, part_of, read_job};
pub use job::{JobOptions, NetworkError};
pub use limits::MOST_BYTES;
pub use section::{NextByte, after_mark, next_of};
pub use watch::Watch;

#[cfg(test)]
mod tests;
