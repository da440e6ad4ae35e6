//! Streams that count their failed calls.
//!
//! No contract can say what a file, a pipe or a terminal gives or takes. But a program can say that it answers 'cannot
//! be read' only if a call of its reader really failed: by a reader that counts its failed calls.

mod counted;
mod counting;
mod failures;
mod memory;
mod whole;

pub use counted::{CountedRead, CountedWrite};
pub use counting::{CountingReader, CountingWriter};
pub use memory::{MemReader, MemWriter};
pub use whole::{Filled, fill, put_all};
