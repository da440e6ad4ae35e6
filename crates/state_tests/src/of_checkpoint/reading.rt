//! Worked checkpoints that are read, as version 1 and version 2 spell them: whole, cut, followed by a byte, from readers
//! that fail, and with what no replica has.

ghost use Rattle.std.specs.Prelude.{None};

use super::worked::{FIRST, TWO_EARLY, TWO_EDGES};
use super::writing::writes;
use ball_model::{CountingReader, MemReader};
use checkpoint::{CountedRead, KeepError, read_checkpoint};
use graph::Part;
use replica::Replica;
use sha2::{Digest, Sha256};
use std::io::{ErrorKind, Read};
use std::sync::Arc;
use std::{io, mem};

/// A reader that gives at most `most` bytes a call, and fails after `good` calls.
#[derive(Drop)]
struct Sips<'a> {
    bytes: &'a [u8],
    most: usize,
    good: u64,
}

impl<'a> Read for Sips<'a> {
    ghost remaining = { λ r. None };

    fn read(&mut self, buf: &mut [u8]) -> io::Result<usize> {
        if self.good == 0 {
            return Err(io::Error::from(ErrorKind::Other));
        }
        self.good -= 1;
        let (piece, _) = buf.split_at_mut(buf.len().min(self.most));
        Read::read(&mut self.bytes, piece)
    }
}

/// What was read, with a replica in a box.
fn boxed(rt: &HostRuntime, read: Result<Replica, KeepError>) -> Result<Box<Replica>, KeepError> {
    match read {
        Ok(replica) => Box::new(rt.alloc(), replica).ok().ok_or(KeepError::Memory),
        Err(e) => Err(e),
    }
}

/// What comes of reading a checkpoint of the part.
pub(super) fn read<R: CountedRead>(
    rt: &HostRuntime,
    part: &Arc<Part>,
    reader: &mut R,
) -> Result<Box<Replica>, KeepError> {
    let part = Arc::try_clone(part)?;
    boxed(rt, read_checkpoint(rt.alloc(), part, reader))
}

/// Why the bytes are refused.
pub(super) fn fault(rt: &HostRuntime, part: &Arc<Part>, bytes: &[u8]) -> Option<KeepError> {
    read(rt, part, &mut MemReader::new(bytes, None)).err()
}

/// Why they are refused from a reader of `most` bytes a call that fails after `good` calls.
fn sipped(
    rt: &HostRuntime,
    part: &Arc<Part>,
    bytes: &[u8],
    most: usize,
    good: u64,
) -> Option<KeepError> {
    let sips = Sips { bytes, most, good };
    read(rt, part, &mut CountingReader::new(sips)).err()
}

/// Whether the first bytes are read from such a reader, as a replica that writes the second ones.
fn is_sipped(
    rt: &HostRuntime,
    part: &Arc<Part>,
    first: &[u8],
    second: &[u8],
    most: usize,
    good: u64,
) -> bool {
    let sips = Sips {
        bytes: first,
        most,
        good,
    };
    match read(rt, part, &mut CountingReader::new(sips)) {
        Ok(replica) => writes(&replica, second, usize::MAX),
        Err(_) => false,
    }
}

/// Whether reading `most` bytes a call takes `calls` calls, a failure of each is answered, and the replica that is read
/// writes the second bytes.
fn fails(
    rt: &HostRuntime,
    part: &Arc<Part>,
    first: &[u8],
    second: &[u8],
    most: usize,
    calls: u64,
) -> bool {
    let mut all = true;
    for good in 0..calls {
        all &= sipped(rt, part, first, most, good) == Some(KeepError::Read);
    }
    all && is_sipped(rt, part, first, second, most, calls)
}

/// Whether each beginning of the bytes is too short.
fn cuts(rt: &HostRuntime, part: &Arc<Part>, bytes: &[u8]) -> bool {
    let mut all = true;
    for n in 0..bytes.len() {
        all &= fault(rt, part, &bytes[..n]) == Some(KeepError::Short);
    }
    all
}

/// Whether the replica of the first bytes writes the second ones.
pub(super) fn is_written(rt: &HostRuntime, part: &Arc<Part>, first: &[u8], second: &[u8]) -> bool {
    match read(rt, part, &mut MemReader::new(first, None)) {
        Ok(replica) => writes(&replica, second, usize::MAX),
        Err(_) => false,
    }
}

/// Whether all that holds of a checkpoint, which is read in `calls` calls.
fn is_read(rt: &HostRuntime, part: &Arc<Part>, first: &[u8], second: &[u8], calls: u64) -> bool {
    is_written(rt, part, first, second)
        && cuts(rt, part, first)
        && fails(rt, part, first, second, usize::MAX, calls)
        && fails(rt, part, first, second, 1, first.len() as u64 + 1)
}

/// Whether a byte more is refused.
fn trails(rt: &HostRuntime, part: &Arc<Part>) -> bool {
    let mut more = [0; 341];
    more[..340].copy_from_slice(&TWO_EDGES);
    fault(rt, part, &more) == Some(KeepError::Trailing)
}

/// The replica that keeps two early batches, with the later one alone.
fn one_early() -> [u8; 305] {
    let mut bytes = [0; 305];
    bytes[..209].copy_from_slice(&TWO_EARLY[..209]);
    bytes[210] = 1;
    bytes[211..273].copy_from_slice(&TWO_EARLY[273..335]);
    seal(&mut bytes);
    bytes
}

/// Whether that is read and written again, and each beginning of it is too short, and a byte more is refused.
fn one_early_is_read(rt: &HostRuntime, part: &Arc<Part>) -> bool {
    let bytes = one_early();
    let mut more = [0; 306];
    more[..305].copy_from_slice(&bytes);
    is_written(rt, part, &bytes, &bytes)
        && cuts(rt, part, &bytes)
        && fault(rt, part, &more) == Some(KeepError::Trailing)
}

/// The last 32 bytes become the digest of those before.
fn seal(bytes: &mut [u8]) {
    if let Some((text, digest)) = bytes.split_last_chunk_mut::<32>() {
        *digest = Sha256::digest(text);
    }
}

/// Another byte is put at a place, and the one that was there is given back.
fn swap(bytes: &mut [u8], at: usize, byte: u8) -> u8 {
    match bytes.get_mut(at) {
        Some(place) => mem::replace(place, byte),
        None => 0,
    }
}

/// Whether the bytes are refused as those of no replica with each of these bytes at its place, and the right digest.
fn are_none(rt: &HostRuntime, part: &Arc<Part>, bytes: &mut [u8], places: &[(usize, u8)]) -> bool {
    let mut all = true;
    for (at, byte) in places {
        let right = swap(bytes, *at, *byte);
        seal(bytes);
        all &= fault(rt, part, bytes) == Some(KeepError::Shape);
        swap(bytes, *at, right);
    }
    all
}

/// Of the two edges: a mark, a last estimate, harm and dist above what a run has, a register above 33, a sum below the
/// one before it, the last sum, a source, the bit, and accumulators above 33 and below the row's.
static BODIES: [(usize, u8); 12] = [
    (54, 2),
    (62, 0),
    (63, 1),
    (71, 1),
    (87, 34),
    (202, 9),
    (248, 0),
    (256, 1),
    (256, 2),
    (257, 2),
    (258, 34),
    (272, 0),
];

/// Of two early batches: a number of batches above three, a length that is no batch's, a batch that is none, of superstep
/// 0 and of 4, of source 1, to target 0, of a source with more changed vertices than it has, of another job, whose digest
/// begins with another bit; and one name twice, and names in descending order.
static EARLY: [(usize, u8); 11] = [
    (210, 4),
    (218, 55),
    (219, 0),
    (228, 0),
    (290, 4),
    (230, 1),
    (232, 0),
    (268, 9),
    (233, 0x95 ^ 1),
    (228, 3),
    (290, 1),
];

/// Whether the two edges are read as they should be, in both versions.
pub(super) fn edges_are_read(rt: &HostRuntime, part: &Arc<Part>) -> bool {
    let mut bytes = TWO_EDGES;
    is_read(rt, part, &FIRST, &TWO_EDGES, 4)
        && is_read(rt, part, &TWO_EDGES, &TWO_EDGES, 5)
        && trails(rt, part)
        && are_none(rt, part, &mut bytes, &BODIES)
}

/// Whether all that is read of the early batches is.
pub(super) fn early_is_read(rt: &HostRuntime, part: &Arc<Part>) -> bool {
    let mut bytes = TWO_EARLY;
    is_read(rt, part, &TWO_EARLY, &TWO_EARLY, 9)
        && are_none(rt, part, &mut bytes, &EARLY)
        && one_early_is_read(rt, part)
}
