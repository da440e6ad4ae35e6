//! What is called as an edge list is read.

/// What [`crate::read_edge_list_by`] calls as it reads an edge list. No clause says anything of it, and by default it
/// does nothing.
pub trait ReadWatch {
    /// This many records of the edge list were read so far.
    fn while_read(&self, _records: u64) {}
}

/// A watch that does nothing.
#[derive(Clone, Copy, Debug)]
pub struct Unwatched;

impl ReadWatch for Unwatched {}
