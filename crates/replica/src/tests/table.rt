//! Batches over one table of the rows that changed.

ghost use Rattle.replica.specs.Sent.{AreChanged};

use super::calls::told;
use super::script::Told;
use super::*;

/// Whether a replica sends a partition this over the table of the rows that changed.
fn shares_one(
    rt: &HostRuntime,
    from: &Replica,
    changed: &ChangedRows,
    target: u16,
    wanted: Told,
) -> Option<bool>
    requires changed { AreChanged from.now changed.now }
{
    if target >= from.plan().parts() || target == from.partition() {
        return Some(false);
    }
    let batch = from.out_of(rt.alloc(), changed, target).ok()?;
    Some(told(&batch) == wanted)
}

/// Whether a replica sends partitions 1 and 2 this over it: None if memory was refused.
fn shares_both(
    rt: &HostRuntime,
    from: &Replica,
    changed: &ChangedRows,
    wanted: [Told; 2],
) -> Option<bool>
    requires changed { AreChanged from.now changed.now }
{
    let first = shares_one(rt, from, changed, 1, wanted[0])?;
    let second = shares_one(rt, from, changed, 2, wanted[1])?;
    Some(first && second)
}

/// Whether a replica sends both this over one table of that many bytes.
fn shares_all(rt: &HostRuntime, from: &Replica, wanted: [Told; 2], length: usize) -> Option<bool> {
    let mut rows = Vec::new(rt.alloc());
    rows.extend_from_slice(&[7, 7, 7]).ok()?;
    let changed = from.changed_rows(rt.alloc(), rows).ok()?;
    if changed.table().ok()?.len() != length {
        return Some(false);
    }
    shares_both(rt, from, &changed, wanted)
}

/// Whether the replica at a place does.
pub fn shares(
    rt: &HostRuntime,
    all: &[Replica],
    from: usize,
    wanted: [Told; 2],
    length: usize,
) -> Option<bool> {
    match all.get(from) {
        Some(from) => shares_all(rt, from, wanted, length),
        None => Some(false),
    }
}
