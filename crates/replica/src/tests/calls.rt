//! What replicas say to each other. If a call tells None, memory was refused, and all is as it was.

use super::script::Told;
use super::*;

/// What the replica at a place tells a partition.
pub fn sent(rt: &HostRuntime, all: &[Replica], from: usize, partition: u16) -> Option<Batch> {
    let from = all.get(from)?;
    if partition >= from.plan().parts() || partition == from.partition() {
        return None;
    }
    from.out(rt.alloc(), partition).ok()
}

/// The answer of the replica at a place to a batch.
fn answer(
    rt: &HostRuntime,
    all: &mut [Replica],
    to: usize,
    batch: Option<Batch>,
) -> Option<Result<Taken, TakeError>> {
    let batch = Arc::new(rt.alloc(), batch?).ok()?;
    match all.get_mut(to) {
        Some(replica) => Some(replica.take(batch)),
        None => None,
    }
}

/// The answer of the replica at a place to what another one tells a partition.
pub fn answer_to(
    rt: &HostRuntime,
    all: &mut [Replica],
    from: usize,
    partition: u16,
    to: usize,
) -> Option<Result<Taken, TakeError>> {
    let batch = sent(rt, all, from, partition);
    answer(rt, all, to, batch)
}

/// Whether one replica takes as new what another one tells it: at once, or when it is given that again after memory
/// was refused.
pub fn is_new(rt: &HostRuntime, all: &mut [Replica], from: usize, to: usize) -> bool {
    let partition = match all.get(to) {
        Some(replica) => replica.partition(),
        None => return false,
    };
    let answer = match answer_to(rt, all, from, partition, to) {
        None => answer_to(rt, all, from, partition, to),
        first => first,
    };
    answer == Some(Ok(Taken::New))
}

/// Whether the replicas from a place up to another one take as new what every other one of them tells them.
pub fn exchange(rt: &HostRuntime, all: &mut [Replica], first: usize, end: usize) -> bool {
    let mut news = true;
    for source in first..end {
        for target in first..end {
            if source != target {
                news &= is_new(rt, all, source, target);
            }
        }
    }
    news
}

/// Whether the replica at a place answers this to a close.
pub fn closes(all: &mut [Replica], place: usize, wanted: Result<u32, CloseError>) -> bool {
    match all.get_mut(place) {
        Some(replica) => replica.close() == wanted,
        None => false,
    }
}

/// Whether the replicas from a place up to another one tell each other something new, and close their superstep.
pub fn round(rt: &HostRuntime, all: &mut [Replica], first: usize, end: usize) -> bool {
    let mut done = exchange(rt, all, first, end);
    for place in first..end {
        match all.get_mut(place) {
            Some(replica) => done &= replica.close().is_ok(),
            None => done = false,
        }
    }
    done
}

/// What a batch tells.
pub fn told(batch: &Batch) -> Told {
    let first = if batch.count() == 0 {
        None
    } else {
        Some(batch.id(0))
    };
    let superstep = batch.name().superstep;
    (superstep, batch.changed(), batch.count(), first)
}

/// Whether this is what the replica at a place tells a partition.
pub fn tells(
    rt: &HostRuntime,
    all: &[Replica],
    from: usize,
    partition: u16,
    wanted: Told,
) -> Option<bool> {
    let batch = sent(rt, all, from, partition)?;
    Some(told(&batch) == wanted)
}

/// Whether these are those bytes.
pub fn writes(
    rt: &HostRuntime,
    all: &[Replica],
    from: usize,
    partition: u16,
    wanted: &[u8],
) -> Option<bool> {
    let batch = sent(rt, all, from, partition)?;
    match batch.encode(rt.alloc()) {
        Ok(bytes) => Some(bytes.as_slice() == wanted),
        Err(_) => None,
    }
}

/// A batch with no rows, of that superstep, source and target, under the plan of the replica at a place.
fn bare(
    rt: &HostRuntime,
    all: &[Replica],
    place: usize,
    (superstep, source, target): (u32, u16, u16),
) -> Option<Batch> {
    let plan = all.get(place)?.plan();
    if superstep > plan.limit() || source >= plan.parts() || target >= plan.parts() {
        return None;
    }
    let name = BatchName {
        superstep,
        source,
        target,
    };
    Batch::start(rt.alloc(), plan, name, 0).ok()
}

/// The answer of the replica at a place to a batch with no rows.
pub fn answer_to_bare(
    rt: &HostRuntime,
    all: &mut [Replica],
    place: usize,
    name: (u32, u16, u16),
) -> Option<Result<Taken, TakeError>> {
    let batch = bare(rt, all, place, name);
    answer(rt, all, place, batch)
}
