//! Batches: what a partition sends another for a superstep, and the one spelling of each as bytes.
//!
//! [`Batch::start`] and [`Batch::push`] build a batch row by row, the readers and [`Batch::find`] return what it has,
//! and [`Batch::encode`] writes its bytes. [`Batch::decode`] reads them back: it answers the batch or, as a
//! [`BatchError`], the first check that fails. Bytes that pass are the spelling of a batch within its limits, so a
//! replica may rest on these limits whatever it is sent.
//!
//! The rows of a batch are its own, or lie in a table that several batches share ([`Batch::sharing`]): then a row is
//! kept once for all its targets.
//!
//! Proved callers: `uses::of_batches::{batch_of_one, has_row, bytes_of, batch_from}`.
#![tactic(auto)]

mod batch;
mod error;
mod header;
pub mod laws;
mod registers;
mod rows;

pub use batch::Batch;
pub use error::BatchError;
pub use header::HEADER_LEN;
