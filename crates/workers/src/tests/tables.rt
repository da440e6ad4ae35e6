//! Tables of rows that are filled again.

use super::*;
use crate::shared::SharedTables;
use replica::ChangedRows;

/// How long a table is, and how much room it has.
type Size = (usize, usize);

fn size_of(changed: &ChangedRows) -> Option<Size> {
    let table = changed.table().ok()?;
    Some((table.len(), table.capacity()))
}

/// The replica of the two edges.
fn replica_of_two_edges(rt: &HostRuntime) -> Option<Replica> {
    let alloc = rt.alloc();
    let graph = two_edges(rt, alloc)?;
    let plan = graph.plan(4, 0, 1, 4096).ok()?;
    let part = shared_part(alloc, &graph, &plan, 0)?;
    Replica::new(alloc, part).ok()
}

/// The second and the third table of the two edges: somebody else still has the first one when the second is made, or
/// nobody has. When the third is made nobody has either.
fn later_tables(rt: &HostRuntime, is_held: bool) -> Option<(Size, Size)> {
    let alloc = rt.alloc();
    let mut replica = replica_of_two_edges(rt)?;
    let mut tables = SharedTables::none();
    let mut other = Some(tables.next(alloc, &replica).ok()?);
    if !is_held {
        other = None;
    }
    replica.close().ok()?;
    let second = size_of(&tables.next(alloc, &replica).ok()?)?;
    drop(other);
    replica.close().ok()?;
    let third = size_of(&tables.next(alloc, &replica).ok()?)?;
    Some((second, third))
}

/// The third table and the fourth, if somebody else has the first two until the third is made.
fn last_tables(rt: &HostRuntime) -> Option<(Size, Size)> {
    let alloc = rt.alloc();
    let mut replica = replica_of_two_edges(rt)?;
    let mut tables = SharedTables::none();
    let first = tables.next(alloc, &replica).ok()?;
    replica.close().ok()?;
    let second = tables.next(alloc, &replica).ok()?;
    replica.close().ok()?;
    let third = size_of(&tables.next(alloc, &replica).ok()?)?;
    drop(first);
    drop(second);
    replica.close().ok()?;
    let fourth = size_of(&tables.next(alloc, &replica).ok()?)?;
    Some((third, fourth))
}

/// The third table and the fourth, if somebody else has the first two until the third is made, and the third when the
/// fourth is made.
fn tables_after_two_free(rt: &HostRuntime) -> Option<(Size, Size)> {
    let alloc = rt.alloc();
    let mut replica = replica_of_two_edges(rt)?;
    let mut tables = SharedTables::none();
    let first = tables.next(alloc, &replica).ok()?;
    replica.close().ok()?;
    let second = tables.next(alloc, &replica).ok()?;
    drop(first);
    drop(second);
    replica.close().ok()?;
    let third = tables.next(alloc, &replica).ok()?;
    replica.close().ok()?;
    let fourth = size_of(&tables.next(alloc, &replica).ok()?)?;
    Some((size_of(&third)?, fourth))
}

/// Three rows of 16 registers change at superstep 0, two at superstep 1, one at superstep 2, and none at superstep 3.
#[test]
fn the_oldest_table_that_nobody_else_has_is_filled_again(rt: HostRuntime) {
    assert_eq!(rt; later_tables(&rt, false), Some(((32, 48), (16, 48))));
    assert_eq!(rt; later_tables(&rt, true), Some(((32, 32), (16, 48))));
    assert_eq!(rt; last_tables(&rt), Some(((16, 16), (0, 48))));
}

#[test]
fn one_table_that_nobody_else_has_is_filled_again_and_others_are_let_go(rt: HostRuntime) {
    assert_eq!(rt; tables_after_two_free(&rt), Some(((16, 48), (0, 0))));
}
