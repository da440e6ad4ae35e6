//! Refused memory. A run of these tests by `rt try --test --fail-alloc N` refuses any one growth of memory: then that
//! is the answer, and the same bytes are read when they are read again. A text that is cut is refused as such. Writing
//! asks for no memory, so it is never refused.

use super::reading::{fault, is_written};
use super::worked::{FIRST, TWO_EARLY, TWO_EDGES};
use super::writing::{early_is_written, edges_are_written};
use super::{half, whole};
use checkpoint::KeepError;
use graph::Part;
use std::sync::Arc;

/// Whether bytes are read, or else memory was refused, and they are read then as a replica that writes those.
fn is_read_again(rt: &HostRuntime, part: &Arc<Part>, bytes: &[u8], wanted: &[u8]) -> bool {
    match fault(rt, part, bytes) {
        Some(told) => told == KeepError::Memory && is_written(rt, part, bytes, wanted),
        None => true,
    }
}

/// Whether bytes without the last of them are too few, whether memory is refused or not.
fn is_short(rt: &HostRuntime, part: &Arc<Part>, bytes: &[u8]) -> bool {
    let (text, _) = bytes.split_at(bytes.len().max(1) - 1);
    fault(rt, part, text) == Some(KeepError::Short)
}

/// Whether those of both checkpoints are. None if memory is refused outside of that.
fn both_are_short(rt: &HostRuntime) -> Option<bool> {
    Some(is_short(rt, &half(rt)?, &TWO_EARLY) && is_short(rt, &whole(rt)?, &FIRST))
}

/// Both checkpoints: that with early batches, and that of the two edges in version 1. None if memory is refused outside
/// of that.
fn both_again(rt: &HostRuntime) -> Option<bool> {
    let early = is_read_again(rt, &half(rt)?, &TWO_EARLY, &TWO_EARLY);
    Some(early && is_read_again(rt, &whole(rt)?, &FIRST, &TWO_EDGES))
}

// If memory is refused before there are bytes, all is done again, and nothing is refused.
#[test]
fn calls_where_memory_is_refused(rt: HostRuntime) {
    assert!(rt; both_again(&rt).or(both_again(&rt)) == Some(true));
}

#[test]
fn cut_texts_where_memory_is_refused(rt: HostRuntime) {
    assert!(rt; both_are_short(&rt).or(both_are_short(&rt)) == Some(true));
}

// If memory is refused there is no replica. If there is one, the bytes are written.
#[test]
fn writing_asks_for_no_memory(rt: HostRuntime) {
    assert!(rt; edges_are_written(&rt).or(edges_are_written(&rt)) == Some(true));
    assert!(rt; early_is_written(&rt).or(early_is_written(&rt)) == Some(true));
}
