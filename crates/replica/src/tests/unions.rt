//! Joins of replicas at two places. If a call tells None, memory was refused.

use super::*;

/// The replicas at two places, which differ.
fn both(all: &mut [Replica], left: usize, right: usize) -> Option<(&mut Replica, &mut Replica)> {
    let middle = left.max(right);
    if middle >= all.len() {
        return None;
    }
    let (front, back) = all.split_at_mut(middle);
    match (front.get_mut(left.min(right)), back.first_mut()) {
        (Some(lower), Some(upper)) if left < right => Some((lower, upper)),
        (Some(lower), Some(upper)) => Some((upper, lower)),
        _ => None,
    }
}

/// What comes of a call that can be refused memory alone: None if it was.
fn comes_of(answer: Result<(), AllocError>) -> Option<bool> {
    match answer {
        Ok(()) => Some(true),
        Err(AllocError) => None,
    }
}

/// Whether one replica may join another one, and does.
fn joined(rt: &HostRuntime, to: &mut Replica, from: &Replica) -> Option<bool> {
    if !to.alike(from) {
        return Some(false);
    }
    comes_of(to.join(rt.alloc(), from))
}

/// Whether two replicas may become the join of the two, and do.
fn reconciled(rt: &HostRuntime, left: &mut Replica, right: &mut Replica) -> Option<bool> {
    if !left.alike(right) {
        return Some(false);
    }
    comes_of(reconcile(rt.alloc(), left, right))
}

/// Whether the replica at a place joins that at another one.
pub fn joins(rt: &HostRuntime, all: &mut [Replica], to: usize, from: usize) -> Option<bool> {
    match both(all, to, from) {
        Some((to, from)) => joined(rt, to, from),
        None => Some(false),
    }
}

/// Whether the replicas at two places become the join of the two.
pub fn reconciles(
    rt: &HostRuntime,
    all: &mut [Replica],
    left: usize,
    right: usize,
) -> Option<bool> {
    match both(all, left, right) {
        Some((left, right)) => reconciled(rt, left, right),
        None => Some(false),
    }
}

/// Whether two replicas change places.
pub fn swaps(all: &mut [Replica], left: usize, right: usize) -> bool {
    let both = left < all.len() && right < all.len();
    if both {
        all.swap(left, right);
    }
    both
}

/// Whether there is a replica, which gives back the memory that it needs no more.
pub fn gives_back(all: &mut [Replica], place: usize) -> bool {
    match all.get_mut(place) {
        Some(replica) => {
            replica.give_back();
            true
        }
        None => false,
    }
}
