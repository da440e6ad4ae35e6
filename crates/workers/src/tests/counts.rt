//! How the nodes of a run mark who has ended too early.

use super::*;
use crate::assignment::NodeResult;
use crate::running::Running;

/// How a node ended too early.
fn early() -> NodeResult {
    Err(NodeError::Memory)
}

/// Whether each of two partitions may still tell something.
fn may_tell(running: &Running) -> (bool, bool) {
    (running.may_come(0).is_ok(), running.may_come(1).is_ok())
}

/// A node of the second partition.
fn second(replica: u8) -> NodeId {
    NodeId { part: 1, replica }
}

/// Whether of two replicas each counts once, however often it is said to have ended, and for its own partition alone.
fn count_once(running: &Running) -> bool {
    let none = may_tell(running);
    running.end(second(0), &early());
    running.end(second(0), &early());
    let one = may_tell(running);
    running.end(second(1), &early());
    let two = may_tell(running);
    none == (true, true) && one == (true, true) && two == (true, false)
}

/// Whether nobody may tell anything any more once a run has stopped.
fn stop_all(running: &Running) -> bool {
    running.stop();
    may_tell(running) == (false, false)
}

/// Whether all this is so in a new run of two partitions of two replicas.
fn are_counted(alloc: Global) -> bool {
    match Running::new(alloc, 2, 2, 1) {
        Ok(running) => count_once(&running) && stop_all(&running),
        Err(_) => false,
    }
}

#[test]
fn ends_that_come_too_early(rt: HostRuntime) {
    assert!(rt; are_counted(rt.alloc()));
}
