//! What no clause says: the bytes of worked graphs, each cut and each changed bit, and streams that fail.

mod vectors;

use crate::{StoreError, StoredError, laws, read_end, read_stored, store};
use ball_model::{MemReader, MemWriter};
use graph::{Graph, GraphBuilder};
use std::alloc::Global;
use std::hash::RandomState;
use vectors::{EMPTY, TEN, TWO_EDGES};

/// The graph of the edges a to b and b to c.
fn two_edges(rt: &HostRuntime) -> Option<Graph> {
    let alloc = rt.alloc();
    let mut builder = GraphBuilder::new(alloc, RandomState::new(rt).ok()?);
    builder.edge(alloc, b"a", b"b").ok()?;
    builder.edge(alloc, b"b", b"c").ok()?;
    builder.finish(alloc).ok()
}

/// Puts in ten vertices, and an edge between each two whose sum is a multiple of 3.
fn put_ten(alloc: Global, builder: &mut GraphBuilder) -> Option<()> {
    for v in 0u8..10 {
        builder.vertex(alloc, &[b'v', b'0' + v]).ok()?;
    }
    for x in 0u8..10 {
        for y in 0u8..10 {
            if (x + y) % 3 == 0 {
                builder
                    .edge(alloc, &[b'v', b'0' + y], &[b'v', b'0' + x])
                    .ok()?;
            }
        }
    }
    Some(())
}

/// The graph of these ten.
fn ten(rt: &HostRuntime) -> Option<Graph> {
    let alloc = rt.alloc();
    let mut builder = GraphBuilder::new(alloc, RandomState::new(rt).ok()?);
    put_ten(alloc, &mut builder)?;
    builder.finish(alloc).ok()
}

/// No vertex.
fn empty(rt: &HostRuntime) -> Option<Graph> {
    let builder = GraphBuilder::new(rt.alloc(), RandomState::new(rt).ok()?);
    builder.finish(rt.alloc()).ok()
}

/// Whether a graph is written as the first `room` of these bytes, in a writer with so much room that fails at a call.
fn writes(
    rt: &HostRuntime,
    graph: &Graph,
    bytes: &[u8],
    room: usize,
    fails_at: Option<u64>,
) -> Option<bool> {
    let mut writer = MemWriter::with_room(rt.alloc(), room, fails_at).ok()?;
    let answer = store(rt.alloc(), graph, &mut writer);
    let whole = room == bytes.len() && fails_at.is_none();
    let right = if whole {
        Ok(())
    } else {
        Err(StoreError::Write)
    };
    let made = writer.into_bytes();
    let kept = if fails_at.is_some() { 0 } else { room };
    Some(answer == right && kept <= bytes.len() && made.as_slice() == &bytes[..kept])
}

/// Whether a graph is written as these bytes, and as a beginning of them where a write fails.
fn is_written(rt: &HostRuntime, graph: &Graph, bytes: &[u8]) -> Option<bool> {
    let mut all = writes(rt, graph, bytes, bytes.len(), Some(1))?;
    for room in 0..bytes.len() {
        all &= writes(rt, graph, bytes, room, None)?;
    }
    Some(all && writes(rt, graph, bytes, bytes.len(), None)?)
}

/// What these bytes are read as, if nothing follows.
fn read(rt: &HostRuntime, bytes: &[u8]) -> Result<Graph, StoredError> {
    let mut reader = MemReader::new(bytes, None);
    let graph = read_stored(rt.alloc(), &mut reader)?;
    read_end(&mut reader)?;
    Ok(graph)
}

/// Why these bytes are refused.
fn fault(rt: &HostRuntime, bytes: &[u8]) -> Option<StoredError> {
    read(rt, bytes).err()
}

/// Whether both have the vertex, with one label and the same predecessors.
fn same_vertex(graph: &Graph, stored: &Graph, v: u32) -> bool {
    if v >= graph.vertices() || v >= stored.vertices() || graph.label(v) != stored.label(v) {
        return false;
    }
    let mut others = stored.preds(v);
    let mut same = true;
    for source in graph.preds(v) {
        same &= others.next() == Some(source);
    }
    same && others.next().is_none()
}

/// Whether these bytes are read as the graph.
fn is_read(rt: &HostRuntime, graph: &Graph, bytes: &[u8]) -> bool {
    match read(rt, bytes) {
        Ok(stored) => {
            let mut same = stored.vertices() == graph.vertices() && stored.edges() == graph.edges();
            for v in 0..graph.vertices() {
                same &= same_vertex(graph, &stored, v);
            }
            same
        }
        Err(_) => false,
    }
}

/// Whether the bytes are refused where they are cut.
fn no_part_is_read(rt: &HostRuntime, bytes: &[u8]) -> bool {
    let mut all = true;
    for n in 0..bytes.len() {
        all &= fault(rt, &bytes[..n]) == Some(StoredError::Short);
    }
    all
}

/// Whether they are refused where a bit is turned, and it is neither memory's nor the reader's fault.
fn no_bit_is_free(rt: &HostRuntime, bytes: &mut [u8]) -> bool {
    let mut all = true;
    for at in 0..bytes.len() {
        for bit in 0..8u32 {
            bytes[at] ^= 1 << bit;
            all &= !matches!(
                fault(rt, bytes),
                None | Some(StoredError::Memory | StoredError::Read)
            );
            bytes[at] ^= 1 << bit;
        }
    }
    all
}

/// Whether the bytes are refused where they are cut, where a bit is turned, where one follows, and where a call fails.
fn is_guarded(rt: &HostRuntime, bytes: &[u8]) -> Option<bool> {
    let mut failing = MemReader::new(bytes, Some(2));
    let fails = read_stored(rt.alloc(), &mut failing).err() == Some(StoredError::Read);
    let mut copy = Vec::from_slice(rt.alloc(), bytes).ok()?;
    let turned = no_bit_is_free(rt, &mut copy);
    copy.push(0).ok()?;
    let follows = fault(rt, &copy) == Some(StoredError::Trailing);
    Some(fails && turned && follows && no_part_is_read(rt, bytes))
}

/// Whether a graph is written and read as its bytes, and these are guarded.
fn holds(rt: &HostRuntime, graph: &Graph, bytes: &[u8]) -> Option<bool> {
    Some(is_written(rt, graph, bytes)? && is_read(rt, graph, bytes) && is_guarded(rt, bytes)?)
}

/// Bytes of the two edges that are changed, by their place, and how each change is refused.
static FAULTS: [(usize, u8, StoredError); 13] = [
    (0, 0, StoredError::Magic),
    (4, 2, StoredError::Version),
    (5, 0x81, StoredError::Size),
    (12, 1, StoredError::Size),
    (16, 3, StoredError::Edges),
    (25, b'\n', StoredError::Labels),
    (26, b'x', StoredError::Labels),
    (8, 2, StoredError::Labels),
    (34, 0, StoredError::Block),
    (34, 4, StoredError::Block),
    (34, 2, StoredError::Padding),
    (42, 1, StoredError::Ended),
    (45, 0, StoredError::Digest),
];

/// Whether the two edges with another byte at a place are refused so.
fn refuses(rt: &HostRuntime, at: usize, byte: u8, error: StoredError) -> bool {
    let mut copy = TWO_EDGES;
    if at >= copy.len() {
        return false;
    }
    copy[at] = byte;
    fault(rt, &copy) == Some(error)
}

/// Whether each fault of the two edges has its name.
fn faults_are_named(rt: &HostRuntime) -> bool {
    let mut all = true;
    for (at, byte, error) in &FAULTS {
        all &= refuses(rt, *at, *byte, *error);
    }
    all
}

/// Whether that holds of the two edges, and their faults have names.
fn two_edges_hold(rt: &HostRuntime) -> Option<bool> {
    Some(holds(rt, &two_edges(rt)?, &TWO_EDGES)? && faults_are_named(rt))
}

/// Whether it holds of no vertex, and of ten.
fn others_hold(rt: &HostRuntime) -> Option<bool> {
    Some(holds(rt, &empty(rt)?, &EMPTY)? && holds(rt, &ten(rt)?, &TEN)?)
}

#[test]
fn worked_rows(rt: HostRuntime) {
    assert!(rt; two_edges_hold(&rt) == Some(true));
}

#[test]
fn other_rows(rt: HostRuntime) {
    assert!(rt; others_hold(&rt) == Some(true));
}

#[test]
fn laws_are_called() {
    laws::stored_is_read();
    laws::spelling_is_one();
    laws::meaning_is_one();
    laws::blocks_are_all();
}
