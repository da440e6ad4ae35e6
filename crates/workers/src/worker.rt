//! A node at work.

pub(crate) mod node_run;
pub(crate) mod superstep;

use crate::worker::node_run::NodeOrders;
use ball_model::NodeId;

/// A node at work: which one it is, what it is to do, and what it works with. Its replica and its place at the board
/// are lent to each call.
#[derive(Clone, Copy)]
pub(crate) struct Worker<'a, R, G> {
    pub(crate) rt: &'a R,
    pub(crate) gate: &'a G,
    pub(crate) node: NodeId,
    pub(crate) orders: NodeOrders,
    /// How many threads are asked for to close a superstep.
    pub(crate) threads: usize,
}
