//! The entries of a history, as the book has them.

use ball_model::{BatchName, Kept, Posted};
use replica::Snapshot;
use std::snapshot::Snapshot as Seen;

/// A call that changed or found something, with its reply. What is named by a snapshot takes no bytes here.
#[derive(Drop)]
pub(crate) enum HistoryEvent {
    /// A batch of this name was posted.
    Post(BatchName, Posted),
    /// The batch of this name was found.
    Fetch(BatchName),
    /// This snapshot was to be kept.
    Keep(Seen<Snapshot>, Kept),
    /// For this partition, and at least this superstep, the snapshot was found.
    Recall(u16, u32, Seen<Snapshot>),
    /// The floor was raised to this superstep at least.
    DropBelow(u32),
}

/// An event, and the number of its caller.
#[derive(Drop)]
pub(crate) struct Entry {
    /// The number of the caller's seat.
    pub(crate) by: u64,
    /// What it did.
    pub(crate) event: HistoryEvent,
}
