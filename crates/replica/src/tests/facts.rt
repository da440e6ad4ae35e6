//! What a replica is to show.

use super::shown::{Counter, vertex_of};
use super::*;

/// What a replica shows.
pub enum Fact {
    /// Which of the first five vertices it owns.
    Owns([bool; 5]),
    /// The registers of a vertex.
    Row(u32, [u8; 16]),
    /// Its accumulated registers.
    Accumulated(u32, [u8; 16]),
    /// Its figures.
    Figures(u32, (u64, u64, u128)),
    /// Whether it changed.
    Changed(u32, bool),
    /// The sums so far.
    Sums(&'static [u128]),
    /// The accumulators of its vertices are its rows.
    IsSettled,
    /// The superstep.
    Superstep(u32),
    /// The least source that is missing.
    Missing(Option<u16>),
    /// The verdict.
    Says(Option<Verdict>),
    /// Whether it has heard partition 1, and whether a source that is heard has a change.
    Heard(bool, bool),
    /// Whether it holds what a source sent it of a superstep.
    Holds(u32, u16, bool),
    /// The superstep and the source of each batch that it keeps for later.
    Early(&'static [(u32, u16)]),
}

/// Which of the first five vertices a replica owns.
fn owned(replica: &Replica) -> [bool; 5] {
    let mut owned = [false; 5];
    for x in 0..5 {
        owned[x as usize] = replica.owns(x);
    }
    owned
}

/// Whether the accumulators of a replica's vertices are its rows.
fn is_settled(replica: &Replica) -> bool {
    let mut same = true;
    for x in 0..4 {
        if let Some(((row, _), accumulated, _, _)) = vertex_of(replica, x) {
            same &= accumulated == row;
        }
    }
    same
}

/// Whether a replica holds what a source sent it of a superstep.
fn holds(replica: &Replica, superstep: u32, source: u16) -> bool {
    let target = replica.partition();
    replica.holds(BatchName {
        superstep,
        source,
        target,
    })
}

/// The superstep and the source of a batch.
fn place_of(batch: Option<&Batch>) -> Option<(u32, u16)> {
    let name = batch?.name();
    Some((name.superstep, name.source))
}

/// Whether a replica keeps these batches for later, and no further one.
fn keeps(replica: &Replica, wanted: &[(u32, u16)]) -> bool {
    let mut same = wanted.len() == replica.early_count() as usize;
    for i in 0..4 {
        same &= place_of(replica.early(i)) == wanted.get(i as usize).copied();
    }
    same
}

/// Whether these are the registers that are wanted, and as many of them are 0 as the replica says.
fn has_row((row, empty): Counter<'_>, wanted: &[u8]) -> bool {
    let zeros = wanted.iter().filter(|rank| **rank == 0).count();
    row == wanted && empty as usize == zeros
}

/// Whether a replica shows this of a vertex, which it owns.
fn is_told_of(replica: &Replica, x: u32, fact: &Fact) -> bool {
    let Some((counter, accumulated, figures, changed)) = vertex_of(replica, x) else {
        return false;
    };
    match fact {
        Fact::Row(_, wanted) => has_row(counter, wanted),
        Fact::Accumulated(_, wanted) => accumulated == wanted.as_slice(),
        Fact::Figures(_, wanted) => figures == *wanted,
        Fact::Changed(_, wanted) => changed == *wanted,
        _ => false,
    }
}

/// Whether a replica shows this.
pub fn is_told(replica: &Replica, fact: &Fact) -> bool {
    match fact {
        Fact::Owns(wanted) => owned(replica) == *wanted,
        Fact::Row(x, _) => is_told_of(replica, *x, fact),
        Fact::Accumulated(x, _) => is_told_of(replica, *x, fact),
        Fact::Figures(x, _) => is_told_of(replica, *x, fact),
        Fact::Changed(x, _) => is_told_of(replica, *x, fact),
        Fact::Sums(wanted) => replica.sums() == *wanted,
        Fact::IsSettled => is_settled(replica),
        Fact::Superstep(wanted) => replica.superstep() == *wanted,
        Fact::Missing(wanted) => replica.missing() == *wanted,
        Fact::Says(wanted) => replica.verdict() == *wanted,
        Fact::Heard(source, change) => {
            replica.heard().has(1) == *source && replica.heard_change() == *change
        }
        Fact::Holds(superstep, source, wanted) => holds(replica, *superstep, *source) == *wanted,
        Fact::Early(wanted) => keeps(replica, wanted),
    }
}
