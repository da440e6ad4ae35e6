//! A replica as bytes, from which a worker that was lost comes back (Pregel 2010).
//!
//! [`write_checkpoint`] writes all that a replica has: registers, marks and figures of its vertices, the sums of its
//! estimates, and the batches that it holds: what it has heard of its superstep, and what it keeps of later ones. The
//! SHA-256 of all bytes follows them. What is written is a definition of `ball_model`. [`read_checkpoint`] reads it, and
//! what version 1 wrote, which has no batches.
//!
//! A proved caller: `uses::of_checkpoint::kept`.
#![tactic(auto)]

mod error;
mod header;
pub mod laws;
mod length;
mod read;
mod saved;
pub mod sizes;
mod spool;
mod stream;
mod text;
mod write;

pub use ball_model::{CountedRead, CountedWrite};
pub use error::KeepError;
pub use length::checkpoint_length;
pub use read::{check_front, read_checkpoint};
pub use write::write_checkpoint;
