//! Replicas that are written: the bytes of worked ones, and those of a run that goes on from its checkpoints.

ghost use Rattle.std.specs.Prelude.{None};

use super::reading::read;
use super::worked::{TWO_EARLY, TWO_EDGES};
use super::{half, replica_of, whole};
use ball_model::{CountingWriter, MemReader, Plan, Taken, Verdict};
use batches::Batch;
use checkpoint::{KeepError, checkpoint_length, write_checkpoint};
use graph::Part;
use replica::{Replica, Shown};
use std::io;
use std::io::{ErrorKind, Write};
use std::sync::Arc;

/// A writer into some room, which takes at most `most` bytes a call, and fails after `good` calls.
#[derive(Drop)]
struct Sips<'a> {
    room: &'a mut [u8],
    most: usize,
    good: u64,
}

impl<'a> Write for Sips<'a> {
    ghost contents = { λ w. None };

    fn write(&mut self, buf: &[u8]) -> io::Result<usize> {
        if self.good == 0 {
            return Err(io::Error::from(ErrorKind::Other));
        }
        self.good -= 1;
        let (front, _) = buf.split_at(buf.len().min(self.most));
        Write::write(&mut self.room, front)
    }

    fn flush(&mut self) -> io::Result<()> {
        Ok(())
    }
}

/// What a replica writes into such a writer: the answer, and how many bytes were taken.
pub(super) fn written(
    replica: &Replica,
    room: &mut [u8],
    most: usize,
    good: u64,
) -> (Result<(), KeepError>, usize) {
    let length = room.len();
    let mut sips = Sips { room, most, good };
    let answer = write_checkpoint(replica, &mut CountingWriter::new(&mut sips));
    (answer, length.saturating_sub(sips.room.len()))
}

/// Whether a replica writes these bytes, `most` a call, and as many as its length says.
pub(super) fn writes(replica: &Replica, wanted: &[u8], most: usize) -> bool {
    let mut bytes = [0; 400];
    let out = written(replica, &mut bytes, most, u64::MAX);
    let length = checkpoint_length(replica);
    out == (Ok(()), wanted.len()) && bytes.starts_with(wanted) && length == wanted.len() as u64
}

/// A replica that is read from the bytes of another one.
fn again(rt: &HostRuntime, part: &Arc<Part>, replica: &Replica) -> Option<Box<Replica>> {
    let mut bytes = [0; 400];
    let (_, count) = written(replica, &mut bytes, usize::MAX, u64::MAX);
    let (text, _) = bytes.split_at(count.min(400));
    read(rt, part, &mut MemReader::new(text, None)).ok()
}

/// Whether a replica is replaced by one that is read from its bytes, and closes.
fn renews(rt: &HostRuntime, part: &Arc<Part>, replica: &mut Box<Replica>) -> bool {
    match again(rt, part, replica) {
        Some(again) => {
            *replica = again;
            replica.close().is_ok()
        }
        None => false,
    }
}

/// Whether the two edges come so from superstep 0 to the bytes of superstep 2, and then to the end of the run.
fn runs(rt: &HostRuntime, part: &Arc<Part>, replica: &mut Box<Replica>) -> Option<bool> {
    if !renews(rt, part, replica) || !renews(rt, part, replica) {
        return None;
    }
    let right = writes(replica, &TWO_EDGES, usize::MAX);
    Some(right && replica.close() == Ok(3) && replica.verdict() == Some(Verdict::Stable))
}

/// Whether a new replica of them does.
pub(super) fn edges_are_written(rt: &HostRuntime) -> Option<bool> {
    let part = whole(rt)?;
    let mut replica = replica_of(rt, &part)?;
    runs(rt, &part, &mut replica)
}

/// The batch that these bytes spell.
fn batch(rt: &HostRuntime, plan: &Plan, bytes: &[u8]) -> Option<Arc<Batch>> {
    Arc::new(rt.alloc(), Batch::decode(rt.alloc(), plan, bytes).ok()?).ok()
}

/// Whether it is new.
fn takes(rt: &HostRuntime, replica: &mut Replica, bytes: &[u8]) -> bool {
    match batch(rt, replica.plan(), bytes) {
        Some(batch) => replica.take(batch) == Ok(Taken::New),
        None => false,
    }
}

/// Whether a replica writes those bytes, once it has taken a batch of superstep 3 and one of superstep 2. Both count
/// one changed vertex and have no row. None if memory for one is refused.
fn writes_early(rt: &HostRuntime, replica: &mut Replica) -> Option<bool> {
    let later = takes(rt, replica, &TWO_EARLY[281..335]);
    if later && takes(rt, replica, &TWO_EARLY[219..273]) {
        Some(writes(replica, &TWO_EARLY, usize::MAX))
    } else {
        None
    }
}

/// Whether that of the second of two parts does.
pub(super) fn early_is_written(rt: &HostRuntime) -> Option<bool> {
    let part = half(rt)?;
    let mut replica = replica_of(rt, &part)?;
    writes_early(rt, &mut replica)
}

/// Each error, and its text.
static TEXTS: [(KeepError, &str); 11] = [
    (KeepError::Write, "the checkpoint cannot be written"),
    (KeepError::Read, "the checkpoint cannot be read"),
    (KeepError::Short, "too few bytes"),
    (KeepError::Magic, "not a checkpoint"),
    (KeepError::Version, "not of version 1 or 2"),
    (KeepError::OtherJob, "the checkpoint is of another job"),
    (
        KeepError::OtherPart,
        "the checkpoint is of another partition",
    ),
    (KeepError::Shape, "no replica has this shape"),
    (KeepError::Memory, "out of memory"),
    (KeepError::Digest, "the digest is another one"),
    (KeepError::Trailing, "bytes after the digest"),
];

/// Whether an error prints as that text.
fn told(rt: &HostRuntime, error: KeepError, wanted: &str) -> bool {
    match format!(in rt.alloc(); "{error}") {
        Ok(text) => text.as_str() == wanted,
        Err(_) => false,
    }
}

/// Whether each has.
fn all_told(rt: &HostRuntime) -> bool {
    let mut all = true;
    for (error, wanted) in &TEXTS {
        all &= told(rt, *error, wanted);
    }
    all
}

#[test]
fn texts_of_errors(rt: HostRuntime) {
    assert!(rt; all_told(&rt));
}
