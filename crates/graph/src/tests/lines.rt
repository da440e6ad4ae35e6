//! Labels that are the lines of a text, and a graph of lists that are codes already.

ghost use Rattle.std.specs.Prelude.{◌≡◌, ◌∷◌, [], IfOk};

use crate::{Delimiter, Graph, Labels};
use gapcode::{Lists, ListsBuilder};
use std::alloc::{AllocError, AllocGlobal, Global};

// Edges to vertex 0 from 1 and from 2, and to vertex 2 from itself.
fn lists(alloc: Global) -> Result<Lists, AllocError>
    ensures { IfOk result (λ lists. lists ≡ (1 ∷ 2 ∷ []) ∷ [] ∷ (2 ∷ []) ∷ []) }
{
    let builder = ListsBuilder::with_room(alloc, 3)?;
    let builder = builder.push(&[1, 2])?.push(&[])?.push(&[2])?;
    Ok(builder.finish())
}

// Three labels, of which the first and the last are equal.
fn labels(alloc: Global) -> Option<Labels> {
    let Ok(text) = Vec::from_slice(alloc, b"a\nbc\na\n") else {
        return None;
    };
    match Labels::of_lines(alloc, text, 3) {
        Ok(labels) => Some(labels),
        Err(_) => None,
    }
}

// The graph with these labels and lists.
fn graph(alloc: Global) -> Option<Graph> {
    let labels = labels(alloc)?;
    let Ok(lists) = lists(alloc) else {
        return None;
    };
    if labels.len() != lists.len() {
        return None;
    }
    match Graph::of_lists(alloc, labels, lists, 3) {
        Ok(graph) => Some(graph),
        Err(_) => None,
    }
}

#[test]
fn labels_are_lines(rt: HostRuntime) {
    let Some(labels) = labels(rt.alloc()) else {
        assert!(rt; false);
        return;
    };
    assert!(rt; labels.len() == 3);
    assert!(rt; labels.text(0) == labels.text(2) && labels.text(1) == b"bc".as_slice());
    assert!(rt; labels.text(0) == b"a".as_slice());
}

#[test]
fn lists_are_predecessors(rt: HostRuntime) {
    let Some(graph) = graph(rt.alloc()) else {
        assert!(rt; false);
        return;
    };
    assert!(rt; graph.vertices() == 3 && graph.edges() == 3 && graph.counted_count() == 3);
    let mut sum = 0u64;
    for v in 0..graph.vertices() {
        for y in graph.preds(v) {
            sum = sum.saturating_mul(10).saturating_add(u64::from(y));
        }
    }
    assert!(rt; sum == 122);
}

#[test]
fn equal_labels_are_counted_together(rt: HostRuntime) {
    let Some(mut graph) = graph(rt.alloc()) else {
        assert!(rt; false);
        return;
    };
    let named = graph.count_only(rt.alloc(), Delimiter::Tab, b"a\na\n");
    assert!(rt; named.is_ok() && graph.counted_count() == 2);
}
