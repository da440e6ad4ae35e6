//! Whether a replica shows in each reader what a snapshot does.

use super::*;

/// The figures of a tally.
pub fn figures(tally: Tally) -> (u64, u64, u128) {
    (tally.last, tally.harm, tally.dist)
}

/// Registers of a vertex, and how many of them are 0.
pub type Counter<'a> = (&'a [u8], u32);

/// What is shown of a vertex: its registers, those accumulated, its figures, and whether it changed.
pub type Vertex<'a> = (Counter<'a>, &'a [u8], (u64, u64, u128), bool);

/// What is shown of a vertex, if it is one of the partition.
pub fn vertex_of<S: Shown>(shown: &S, x: u32) -> Option<Vertex<'_>> {
    if !shown.owns(x) {
        return None;
    }
    let row = (shown.row(x), shown.empty_count(x));
    let accumulated = shown.accumulated(x);
    Some((row, accumulated, figures(shown.tally(x)), shown.changed(x)))
}

/// Whether two tables have the same rows.
fn has_same_rows(left: &Rows, right: &Rows) -> bool {
    let mut same = left.len() == right.len();
    for i in 0..left.len() {
        same &= i < right.len() && left.row(i) == right.row(i);
    }
    same
}

/// Whether two lists have the same figures.
fn has_same_figures(left: &[Tally], right: &[Tally]) -> bool {
    let mut same = left.len() == right.len();
    for i in 0..left.len() {
        same &= left.get(i).copied().map(figures) == right.get(i).copied().map(figures);
    }
    same
}

/// What is shown of a level: the plan, the partition, the superstep, the number of changed vertices, and the verdict.
type Level = (Plan, u16, u32, u32, Option<Verdict>);

/// What is shown of the level.
fn level_of<S: Shown>(shown: &S) -> Level {
    let plan = *shown.plan();
    let changed = shown.changed_count();
    let verdict = shown.verdict();
    (plan, shown.partition(), shown.superstep(), changed, verdict)
}

/// Which names of two partitions and six supersteps are held, a bit each.
fn names_of<S: Shown>(shown: &S) -> u32 {
    let target = shown.partition();
    let mut names = 0;
    for place in 0..12u32 {
        let held = shown.holds(BatchName {
            superstep: place / 2,
            source: (place % 2) as u16,
            target,
        });
        names = 2 * (names % 4096) + u32::from(held);
    }
    names
}

/// What is shown of what was heard: the least source that is missing, whether a change is, the sources, and the names.
type Heard = (Option<u16>, bool, SourceMask, u32);

/// What is shown of what was heard.
fn heard_of<S: Shown>(shown: &S) -> Heard {
    let change = shown.heard_change();
    (shown.missing(), change, shown.heard(), names_of(shown))
}

/// Whether two batches have the same.
fn tells_same(left: &Batch, right: &Batch) -> bool {
    let mut same = left.plan() == right.plan()
        && left.name() == right.name()
        && left.changed() == right.changed()
        && left.count() == right.count();
    for k in 0..left.count() {
        same &= right.find(left.id(k)) == Some(left.registers(k));
    }
    same
}

/// Whether there is the same batch, or none, in both places.
fn is_same_early(left: Option<&Batch>, right: Option<&Batch>) -> bool {
    match (left, right) {
        (Some(left), Some(right)) => tells_same(left, right),
        (None, None) => true,
        _ => false,
    }
}

/// Whether a replica keeps the batches of later supersteps that a snapshot does (of two partitions at most three), and
/// shows of the first five vertices what it does.
fn shows_lists(replica: &Replica, snapshot: &Snapshot) -> bool {
    let mut same = replica.early_count() == snapshot.early_count();
    for i in 0..5 {
        same &= is_same_early(replica.early(i), snapshot.early(i));
        same &= vertex_of(replica, i) == vertex_of(snapshot, i);
    }
    same
}

/// Whether each reader of a replica shows what that of a snapshot does: of its level, of what it has heard, of the
/// batches that it keeps, of all rows, figures and sums, and of each vertex.
pub fn shows_all(replica: &Replica, snapshot: &Snapshot) -> bool {
    let level = level_of(replica) == level_of(snapshot);
    let heard = heard_of(replica) == heard_of(snapshot);
    let sums = replica.sums() == snapshot.sums();
    let rows = has_same_rows(replica.rows(), snapshot.rows());
    let tallies = has_same_figures(replica.tallies(), snapshot.tallies());
    level & heard & sums & rows & tallies & shows_lists(replica, snapshot)
}

/// Whether a snapshot is of superstep 0 of partition 0 by this plan, and has the batch of partition 1.
pub fn is_first_of(plan: &Plan, snapshot: &Snapshot) -> bool {
    let name = BatchName {
        superstep: 0,
        source: 1,
        target: 0,
    };
    let early = snapshot.holds(BatchName {
        superstep: 1,
        ..name
    });
    let elsewhere = snapshot.holds(BatchName { target: 1, ..name });
    let is_first = snapshot.partition() == 0 && snapshot.superstep() == 0;
    *snapshot.plan() == *plan && is_first && snapshot.holds(name) & !early & !elsewhere
}
