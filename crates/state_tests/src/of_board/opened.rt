//! Boards that are opened while memory is refused. A run of this test can refuse any one growth: then a board that is
//! not opened is opened when that is done again.

use super::*;

/// The length of a new board: None if memory is refused.
fn opened(rt: &HostRuntime) -> Option<u64> {
    let Setting { graph, plan } = two_edges(rt, 5)?;
    let (board, mut seat) = Board::open(rt.alloc(), &graph, &plan, 8).ok()?;
    Some(board.length(&mut seat))
}

#[test]
fn boards_whose_memory_is_refused(rt: HostRuntime) {
    assert!(rt; opened(&rt).or(opened(&rt)) == Some(1));
}
