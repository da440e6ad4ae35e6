//! What is called as a command gets on.

use ball_model::NodeId;
use edgelist::{ReadWatch, Unwatched};

/// What a command calls once its edge list is read and as its nodes get on; a run calls it while it reads, too. No
/// clause says anything of it, and by default each call does nothing.
pub trait Watch: ReadWatch {
    /// The edge list was read: how many records it has, and how many vertices.
    fn after_read(&self, _records: u64, _vertices: u32) {}

    /// The node is at superstep 0.
    fn after_start(&self, _node: NodeId) {}

    /// The node has closed a superstep and is at this one: how many of its partition's vertices
    /// changed at it, and how many there are.
    fn after_close(&self, _node: NodeId, _superstep: u32, _changed: u32, _vertices: u32) {}
}

impl Watch for Unwatched {}
