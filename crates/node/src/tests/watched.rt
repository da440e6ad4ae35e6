//! What a watch is called with by a node and by a gathering.

use super::vectors::{FIRST_END, SECOND_END};
use super::*;
use crate::gather::gather;
use ball_model::NodeId;
use edgelist::ReadWatch;
use std::alloc::{AllocError, AllocGlobal};
use std::random::RandomSource;
use std::sync::atomic::{AtomicU64, Ordering};
use std::thread::Threads;

/// The numbers of its calls, a digit each, one after the other.
#[derive(Drop)]
struct Digits {
    all: AtomicU64,
}

impl Digits {
    /// None so far.
    fn new() -> Digits {
        Digits {
            all: AtomicU64::new(0),
        }
    }

    /// All of them.
    fn told(&self) -> u64 {
        self.all.load(Ordering::SeqCst)
    }

    // Puts a number after those before it.
    fn put(&self, number: u64) {
        let before = self.told();
        self.all.store(
            before.wrapping_mul(10).wrapping_add(number),
            Ordering::SeqCst,
        );
    }
}

impl ReadWatch for Digits {}

impl Watch for Digits {
    fn after_read(&self, records: u64, vertices: u32) {
        self.put(records);
        self.put(u64::from(vertices));
    }

    fn after_close(&self, node: NodeId, superstep: u32, changed: u32, vertices: u32) {
        self.put(u64::from(node.part));
        self.put(u64::from(superstep));
        self.put(u64::from(changed));
        self.put(u64::from(vertices));
    }
}

/// What a node reads that goes on, starts anew, and runs to its end, and what it answers. Of its three records two are one
/// edge, and one is b alone. The counter of b takes over that of a at superstep 1, which has other registers; at superstep 2
/// nothing changes.
const ANEW: &[u8] = b"a\tb\n# c\na\tb\nb\n%%\nclose\nrestart 0\nclose\nclose\nclose\n";

const ANSWERS: &[u8] = b"closed 1\nrestarted 0\nclosed 1\nclosed 2\nfinished\n";

/// Whether it answers so, and its watch is called with three records and two vertices, and for the three closes that
/// went on.
fn node_is_watched(rt: &HostRuntime) -> bool {
    let Ok(mut writer) = MemWriter::with_room(rt.alloc(), 4096, None) else {
        return false;
    };
    let watch = Digits::new();
    let end = end_of(rt, &job(1), ANEW, &watch, &mut writer);
    let text = writer.into_bytes();
    end == Some(Ok(())) && text.as_slice() == ANSWERS && watch.told() == 32_0112_0112_0202
}

#[test]
fn a_watch_is_told_of_a_node_that_goes_on(rt: HostRuntime) {
    assert!(rt; node_is_watched(&rt));
}

/// What a gathering of two nodes at the end of their run reads: a and c are of the first, and b of the second.
static BOTH_KEPT: [&[u8]; 5] = [
    b"a\tb\na\tb\nb\tc\n%%\n",
    b"part 291\n",
    FIRST_END,
    b"part 226\n",
    SECOND_END,
];

/// The report of the two edges.
const REPORT: &[u8] = b"superstep,0,33.803869
superstep,1,34.851860
superstep,2,35.588471
superstep,3,35.588471
end,3,stable
gain,0.708147
vertex,a,11.390942,0.000000,0.000000,1.000000,15
vertex,b,11.780376,0.665022,1.503709,208.680703,14
vertex,c,12.417153,0.751274,0.538737,83.065637,13
";

/// Adds all of that.
fn add_both(input: &mut Vec<u8>) -> Result<(), AllocError> {
    for piece in &BOTH_KEPT {
        input.extend_from_slice(*piece)?;
    }
    Ok(())
}

/// What a gathering in two partitions writes that reads this; None if it fails.
fn gathered<T: AllocGlobal + RandomSource + Threads + Sync>(
    rt: &T,
    input: &[u8],
    watch: &Digits,
) -> Option<Vec<u8>> {
    let state = RandomState::new(rt).ok()?;
    let mut reader = MemReader::new(input, None);
    let mut writer = MemWriter::with_room(rt.alloc(), 4096, None).ok()?;
    gather(rt, state, &job(2), watch, &mut reader, &mut writer).ok()?;
    Some(writer.into_bytes())
}

/// Whether the report is written, and its watch is called with three records, of which two are one edge, and three
/// vertices, and for the two checkpoints.
fn gathering_is_watched<T: AllocGlobal + RandomSource + Threads + Sync>(rt: &T) -> bool {
    let mut input = Vec::new(rt.alloc());
    let watch = Digits::new();
    let is_read = add_both(&mut input).is_ok();
    let is_written = match gathered(rt, &input, &watch) {
        Some(text) => text.as_slice() == REPORT,
        None => false,
    };
    is_read && is_written && watch.told() == 33_0302_1301
}

// The counter of a reaches b at superstep 1 and c at superstep 2. At superstep 3 nothing changes, and the run ends.
#[test]
fn a_watch_is_told_of_checkpoints(rt: HostRuntime) {
    assert!(rt; gathering_is_watched(&rt));
}
