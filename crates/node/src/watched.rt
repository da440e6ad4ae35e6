//! What a watch is called with for a replica.

use ball_model::NodeId;
use ball_model::world::Answer;
use job::Watch;
use replica::{Replica, Shown};

/// Calls a watch for a replica, the only one of its partition, that has reached its superstep.
pub(crate) fn show_turn<V: Watch>(replica: &Replica, watch: &V) {
    let superstep = replica.superstep();
    let part = replica.partition();
    let vertices = replica.plan().part_size(part);
    let node = NodeId { part, replica: 0 };
    watch.after_close(node, superstep, replica.changed_count(), vertices);
}

/// Calls it if the answer to a close is that the replica was closed.
pub(crate) fn show_close<V: Watch>(replica: &Replica, answer: Answer, watch: &V) {
    if let Answer::Closed { .. } = answer {
        show_turn(replica, watch);
    }
}
