//! Stored graphs: a network as bytes, written once and read often.
//!
//! [`store`] writes a graph in gap codes, block by block, and the SHA-256 of all bytes behind them. [`read_stored`] reads
//! it back as a [`Graph`](graph::Graph), and checks all that it reads. A network has one spelling.
//!
//! ```text
//! store(alloc, &graph, &mut writer)?;
//! let graph = read_stored(alloc, &mut reader)?;     // every vertex is counted
//! read_end(&mut reader)?;                           // if nothing is to follow
//! ```
#![tactic(auto)]

mod blocks;
pub mod error;
pub mod header;
pub mod laws;
pub mod read;
pub mod sizes;
mod spool;
pub mod write;

pub use ball_model::{CountedRead, CountedWrite};
pub use error::{StoreError, StoredError};
pub use read::{read_end, read_stored};
pub use write::store;

#[cfg(test)]
mod tests;
