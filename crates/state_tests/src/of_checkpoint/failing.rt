//! Writers that fail at a call, that are full, and that take a byte a call.

use super::reading::{fault, read};
use super::replica_of;
use super::writing::{writes, written};
use ball_model::MemReader;
use checkpoint::{KeepError, checkpoint_length};
use graph::Part;
use replica::Replica;
use std::sync::Arc;

/// Whether a failed write is answered, and fewer bytes went out than the replica has: too few to be read.
fn is_cut(rt: &HostRuntime, part: &Arc<Part>, replica: &Replica, room: usize, good: u64) -> bool {
    let mut bytes = [0; 5000];
    let (room, _) = bytes.split_at_mut(room.min(5000));
    let (answer, count) = written(replica, room, usize::MAX, good);
    let (text, _) = bytes.split_at(count.min(5000));
    answer == Err(KeepError::Write)
        && (count as u64) < checkpoint_length(replica)
        && fault(rt, part, text) == Some(KeepError::Short)
}

/// Whether a replica is cut if one of the first `calls` calls of the writer fails, and not if a later one would.
fn calls(rt: &HostRuntime, part: &Arc<Part>, replica: &Replica, calls: u64) -> bool {
    let mut all = true;
    for good in 0..8 {
        all &= is_cut(rt, part, replica, 5000, good) == (good < calls);
    }
    all
}

/// Whether it is cut by each writer with less room than it takes.
fn rooms(rt: &HostRuntime, part: &Arc<Part>, replica: &Replica, length: usize) -> bool {
    let mut all = true;
    for room in 0..400 {
        all &= is_cut(rt, part, replica, room, u64::MAX) == (room < length);
    }
    all
}

/// Whether all that holds of the replica that is read from these bytes. Its fields are written in one call, and then
/// their digest.
pub(super) fn are_cut(rt: &HostRuntime, part: &Arc<Part>, bytes: &[u8]) -> bool {
    match read(rt, part, &mut MemReader::new(bytes, None)) {
        Ok(replica) => {
            calls(rt, part, &replica, 2)
                && rooms(rt, part, &replica, bytes.len())
                && writes(&replica, bytes, 1)
        }
        Err(_) => false,
    }
}

/// Sixty-two vertices and no edge: their 4,111 bytes before the digest are more than one piece.
pub(super) static VERTICES: &[u8] =
    b"0\n1\n2\n3\n4\n5\n6\n7\n8\n9\nA\nB\nC\nD\nE\nF\nG\nH\nI\nJ\nK\nL\nM\nN\nO\nP\nQ\nR\nS\nT\nU\n\
    V\nW\nX\nY\nZ\na\nb\nc\nd\ne\nf\ng\nh\ni\nj\nk\nl\nm\nn\no\np\nq\nr\ns\nt\nu\nv\nw\nx\ny\nz\n";

/// Whether those are written in three calls.
pub(super) fn many_are_cut(rt: &HostRuntime, part: &Arc<Part>) -> bool {
    match replica_of(rt, part) {
        Some(replica) => calls(rt, part, &replica, 3),
        None => false,
    }
}
