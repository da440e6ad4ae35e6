//! Scripts: what is done with replicas, and what is to come of it, step by step.
//!
//! A step for which memory was refused changes nothing, and is done once more. So a script comes out even if any one
//! growth is refused, and does not if a call tells of refused memory whatever is left.

use super::calls::*;
use super::facts::{Fact, is_told};
use super::jobs::{Job, add_job};
use super::rebuilt::add_again;
use super::shown::{is_first_of, shows_all};
use super::table::shares;
use super::unions::{gives_back, joins, reconciles, swaps};
use super::*;

/// What a batch tells: its superstep, the number of changed vertices, that of rows, and the vertex of the first row.
pub type Told = (u32, u32, u32, Option<u32>);

/// One step. Replicas, and the snapshots that are kept, are named by their places in order of their making.
pub enum Step {
    /// Adds a replica of each partition of a job.
    Add(Job),
    /// One replica tells another one something new.
    Tell(usize, usize),
    /// What a replica tells a partition, given to the replica at a place, is answered so.
    Answer(usize, u16, usize, Result<Taken, TakeError>),
    /// A batch with no rows and of that superstep, source and target, given to the replica at a place, is answered so.
    Bare((u32, u16, u16), usize, Result<Taken, TakeError>),
    /// The replicas from a place up to another one tell each other something new.
    Exchange(usize, usize),
    /// They do so, and then close their superstep.
    Round(usize, usize),
    /// A replica answers this to a close.
    Close(usize, Result<u32, CloseError>),
    /// What a replica tells a partition is this.
    Tells(usize, u16, Told),
    /// What it tells a partition has these bytes.
    Writes(usize, u16, &'static [u8]),
    /// What it tells partitions 1 and 2 over one table of so many bytes is this.
    Shares(usize, [Told; 2], usize),
    /// Keeps a snapshot of a replica, which tells the same. If memory is refused the replica is as it was, as the
    /// snapshot at another place tells.
    Keep(usize, Option<usize>),
    /// The snapshots from a place on are dropped.
    LetGo(usize),
    /// A replica tells in each reader what the snapshot at a place does.
    Shows(usize, usize),
    /// The snapshot at a place is of superstep 0 of partition 0, and of the job of a replica.
    IsFirst(usize, usize),
    /// The snapshot at a place has less room than its replica.
    IsSmall(usize),
    /// A replica answers this to a merge of the snapshot at a place. If it does not merge it is as it was, as that at
    /// another place tells.
    Merge(usize, usize, usize, Result<(), MergeError>),
    /// One replica joins another one.
    Join(usize, usize),
    /// Two replicas become the join of the two.
    Reconcile(usize, usize),
    /// Adds a replica that is made of what another one has.
    Again(usize),
    /// A replica gives back the memory that it needs no more.
    GiveBack(usize),
    /// Two replicas change places.
    Swap(usize, usize),
    /// A replica tells this.
    See(usize, Fact),
}

/// All replicas of a script, and the snapshots that it keeps.
#[derive(Drop)]
struct World {
    all: Vec<Replica>,
    kept: Vec<Box<Snapshot>>,
}

/// A snapshot of a replica, in a box: a function that owns a snapshot is checked much slower.
pub fn copied(rt: &HostRuntime, all: &mut [Replica], place: usize) -> Option<Box<Snapshot>> {
    let snapshot = all.get_mut(place)?.snapshot(rt.alloc()).ok()?;
    Box::new(rt.alloc(), snapshot).ok()
}

/// Keeps a snapshot of a replica, and tells its place.
fn kept(rt: &HostRuntime, world: &mut World, place: usize) -> Option<usize> {
    let snapshot = copied(rt, &mut world.all, place)?;
    let at = world.kept.len();
    world.kept.push(snapshot).ok()?;
    Some(at)
}

/// Whether a replica tells in each reader what a snapshot does.
fn shows(world: &World, place: usize, kept: usize) -> bool {
    match (world.all.get(place), world.kept.get(kept)) {
        (Some(replica), Some(snapshot)) => shows_all(replica, snapshot),
        _ => false,
    }
}

/// What comes of a call for which memory was refused: nothing yet, if the replica is as a snapshot tells.
fn refused(world: &World, place: usize, before: Option<usize>) -> Option<bool> {
    match before {
        Some(before) if !shows(world, place, before) => Some(false),
        _ => None,
    }
}

/// Whether a snapshot is kept that tells what its replica does.
fn keeps(rt: &HostRuntime, world: &mut World, place: usize, before: Option<usize>) -> Option<bool> {
    match kept(rt, world, place) {
        Some(at) => Some(shows(world, place, at)),
        None => refused(world, place, before),
    }
}

/// The answer of a replica to a merge of a snapshot.
fn merged(
    rt: &HostRuntime,
    all: &mut [Replica],
    place: usize,
    snapshot: Option<&Box<Snapshot>>,
) -> Option<Result<(), MergeError>> {
    match (all.get_mut(place), snapshot) {
        (Some(replica), Some(snapshot)) => Some(replica.merge(rt.alloc(), snapshot)),
        _ => None,
    }
}

/// Whether a replica answers this to a merge of a snapshot, and is as it was if it does not merge.
fn merges(
    rt: &HostRuntime,
    world: &mut World,
    (place, kept, before): (usize, usize, usize),
    wanted: Result<(), MergeError>,
) -> Option<bool> {
    let answer = merged(rt, &mut world.all, place, world.kept.get(kept))?;
    if answer == Err(MergeError::Memory) {
        return refused(world, place, Some(before));
    }
    Some(answer == wanted && (answer.is_ok() || shows(world, place, before)))
}

/// Lets the snapshots from a place on go: whether there are some.
fn lets_go(world: &mut World, from: usize) -> bool {
    let some = from < world.kept.len();
    world.kept.truncate(from);
    some
}

/// Whether a snapshot is of superstep 0 of partition 0 and of a replica's job.
fn is_first(world: &World, place: usize, kept: usize) -> bool {
    match (world.all.get(place), world.kept.get(kept)) {
        (Some(replica), Some(snapshot)) => is_first_of(replica.plan(), snapshot),
        _ => false,
    }
}

/// Whether a snapshot keeps no accumulator beside its rows, and has less room for sums than a replica.
fn is_small(world: &World, kept: usize) -> bool {
    match world.kept.get(kept) {
        Some(snapshot) => {
            let stage = &snapshot.stage;
            stage.hearing.count() == 0 && stage.tables.room() < 4097
        }
        None => false,
    }
}

/// Whether this is the answer: None if memory was refused before it.
fn is_answer(
    answer: Option<Result<Taken, TakeError>>,
    wanted: Result<Taken, TakeError>,
) -> Option<bool> {
    match answer {
        Some(answer) => Some(answer == wanted),
        None => None,
    }
}

/// Whether the replica at a place tells this.
fn sees(all: &[Replica], place: usize, fact: &Fact) -> bool {
    match all.get(place) {
        Some(replica) => is_told(replica, fact),
        None => false,
    }
}

/// Whether a step of talk comes out, or any other one: None if memory was refused.
fn comes_out(rt: &HostRuntime, world: &mut World, step: &Step) -> Option<bool> {
    let all = &mut world.all;
    match step {
        Step::See(place, fact) => Some(sees(all, *place, fact)),
        Step::Tell(from, to) => Some(is_new(rt, all, *from, *to)),
        Step::Answer(from, partition, to, wanted) => {
            is_answer(answer_to(rt, all, *from, *partition, *to), *wanted)
        }
        Step::Bare(name, to, wanted) => is_answer(answer_to_bare(rt, all, *to, *name), *wanted),
        Step::Exchange(first, end) => Some(exchange(rt, all, *first, *end)),
        Step::Round(first, end) => Some(round(rt, all, *first, *end)),
        Step::Close(place, wanted) => Some(closes(all, *place, *wanted)),
        _ => is_made(rt, world, step),
    }
}

/// Whether a step that makes or joins replicas comes out, or any other one but those of talk.
fn is_made(rt: &HostRuntime, world: &mut World, step: &Step) -> Option<bool> {
    let all = &mut world.all;
    match step {
        Step::Add(job) => add_job(rt, all, job),
        Step::Again(place) => add_again(rt, all, *place),
        Step::Join(to, from) => joins(rt, all, *to, *from),
        Step::Reconcile(left, right) => reconciles(rt, all, *left, *right),
        Step::GiveBack(place) => Some(gives_back(all, *place)),
        Step::Swap(left, right) => Some(swaps(all, *left, *right)),
        _ => is_shown(rt, world, step),
    }
}

/// Whether a step with a batch or a snapshot comes out.
fn is_shown(rt: &HostRuntime, world: &mut World, step: &Step) -> Option<bool> {
    let all = &world.all;
    match step {
        Step::Tells(from, partition, wanted) => tells(rt, all, *from, *partition, *wanted),
        Step::Writes(from, partition, wanted) => writes(rt, all, *from, *partition, wanted),
        Step::Shares(from, wanted, length) => shares(rt, all, *from, *wanted, *length),
        Step::Keep(place, before) => keeps(rt, world, *place, *before),
        Step::LetGo(from) => Some(lets_go(world, *from)),
        Step::Shows(place, kept) => Some(shows(world, *place, *kept)),
        Step::IsFirst(place, kept) => Some(is_first(world, *place, *kept)),
        Step::IsSmall(kept) => Some(is_small(world, *kept)),
        Step::Merge(place, kept, before, wanted) => {
            merges(rt, world, (*place, *kept, *before), *wanted)
        }
        _ => Some(false),
    }
}

/// Whether a step comes out, at once or when it is done again.
fn passes(rt: &HostRuntime, world: &mut World, step: &Step) -> bool {
    match comes_out(rt, world, step) {
        Some(right) => right,
        None => comes_out(rt, world, step) == Some(true),
    }
}

/// The first step of a script that does not come out.
fn failure(rt: &HostRuntime, world: &mut World, script: &[Step]) -> Option<usize> {
    for i in 0..script.len() {
        if !passes(rt, world, &script[i]) {
            return Some(i);
        }
    }
    None
}

/// The first of scripts, one after the other, that does not come out, and its first step that does not.
fn failures(rt: &HostRuntime, world: &mut World, scripts: &[&[Step]]) -> Option<(usize, usize)> {
    for i in 0..scripts.len() {
        if let Some(step) = failure(rt, world, scripts[i]) {
            return Some((i, step));
        }
    }
    None
}

/// Plays scripts, one after the other, with the same replicas: None if each step comes out, else the places of the
/// first script and of its first step that do not.
pub fn play(rt: &HostRuntime, scripts: &[&[Step]]) -> Option<(usize, usize)> {
    let mut world = World {
        all: Vec::new(rt.alloc()),
        kept: Vec::new(rt.alloc()),
    };
    failures(rt, &mut world, scripts)
}

/// Plays scripts, each with replicas of its own.
pub fn play_each(rt: &HostRuntime, scripts: &[&[Step]]) -> Option<(usize, usize)> {
    for i in 0..scripts.len() {
        if let Some((_, step)) = play(rt, &[scripts[i]]) {
            return Some((i, step));
        }
    }
    None
}

/// Plays lists of scripts, each with replicas of its own: None if all come out, else the place of the first list that
/// does not, with that of its script and of its step.
pub fn play_all(rt: &HostRuntime, cases: &[&[&[Step]]]) -> Option<(usize, (usize, usize))> {
    for i in 0..cases.len() {
        if let Some(failure) = play(rt, cases[i]) {
            return Some((i, failure));
        }
    }
    None
}
