//! Refused memory, a writer that fails, and scripts that are cut.
//!
//! A run of the first two tests by `rt try --test --fail-alloc N` refuses any one growth of memory: then what
//! could not be tried is tried again.

use super::replays::{COPIED, RESTARTED, THREE_PARTITIONS, Worked, options};
use super::worlds::world_of;
use super::*;
use crate::answer::{put_answer, put_refusal};
use crate::replay::{ReplayError, replay};
use crate::script::read_script;
use ball_model::{BatchName, MemWriter, NodeId};
use edgelist::EdgeError;
use replica::{Replica, Shown};
use std::alloc::{AllocGlobal, Global};
use std::hash::RandomState;

// The scripts that are tried.
static TRIED: [Worked; 3] = [COPIED, RESTARTED, THREE_PARTITIONS];

// A mark with one number more.
fn marked(mark: u64, value: u64) -> u64 {
    mark.wrapping_mul(1_099_511_628_211).wrapping_add(value)
}

// A mark with the names that a replica holds of three sources, at its superstep and the three that follow.
fn mark_names(mark: u64, replica: &Replica) -> u64 {
    let mut all = mark;
    for place in 0..12u32 {
        let name = BatchName {
            superstep: replica.superstep().saturating_add(place / 3),
            source: (place % 3) as u16,
            target: replica.partition(),
        };
        all = marked(all, u64::from(replica.holds(name)));
    }
    all
}

// A mark with the registers of a vertex, if a replica owns it.
fn mark_row(mark: u64, replica: &Replica, x: u32) -> u64 {
    let mut all = mark;
    if replica.owns(x) {
        for register in replica.row(x) {
            all = marked(all, u64::from(*register));
        }
    }
    all
}

// A number that differs for different states of a replica of at most 5 vertices.
fn mark_of(replica: &Replica) -> u64 {
    let mut mark = u64::from(replica.superstep());
    for tally in replica.tallies() {
        mark = marked(mark, tally.harm);
    }
    for x in 0..5u32 {
        mark = mark_row(mark, replica, x);
    }
    mark_names(mark, replica)
}

// One that differs for different states of a world of at most 3 partitions with 2 replicas.
fn mark_of_world(world: &World) -> u64 {
    let mut mark = 0;
    for place in 0..6u16 {
        let id = NodeId {
            part: place / 2,
            replica: (place % 2) as u8,
        };
        if let Some(replica) = world.node(id) {
            mark = marked(mark, mark_of(replica));
        }
    }
    mark
}

// What an event answers; if memory is refused, what it answers when it is given again. None if the state was changed by
// what was refused, or memory is refused twice.
fn answered(world: &mut World, alloc: Global, event: Event) -> Option<Result<Answer, WorldError>> {
    let before = mark_of_world(world);
    let first = world.apply(alloc, event);
    if first != Err(WorldError::Memory) {
        return Some(first);
    }
    if mark_of_world(world) != before {
        return None;
    }
    let second = world.apply(alloc, event);
    if second == Err(WorldError::Memory) {
        return None;
    }
    Some(second)
}

// What follows the first line.
fn after_line(text: &[u8]) -> &[u8] {
    match text.iter().position(|byte| *byte == b'\n') {
        Some(end) => text
            .get(end..)
            .unwrap_or_default()
            .get(1..)
            .unwrap_or_default(),
        None => b"".as_slice(),
    }
}

// What follows the lines of a node.
fn after_node(text: &[u8]) -> &[u8] {
    let mut rest = after_line(text);
    for _ in 0..5u8 {
        if rest.starts_with(b"row ") {
            rest = after_line(rest);
        }
    }
    rest
}

// What follows the lines of what an event came to, if these are the first. There is room in the line.
fn after_outcome<'a>(
    line: &mut Vec<u8>,
    outcome: Result<Answer, WorldError>,
    text: &'a [u8],
) -> Option<&'a [u8]> {
    if outcome == Ok(Answer::Shown) {
        return Some(after_node(text));
    }
    line.clear();
    match outcome {
        Ok(answer) => put_answer(line, answer).ok()?,
        Err(error) => put_refusal(line, error).ok()?,
    }
    text.strip_prefix(line.as_slice())
}

// Whether events are answered so, at once or when they are given again.
fn are_answered(
    world: &mut World,
    alloc: Global,
    line: &mut Vec<u8>,
    events: &[Event],
    answers: &[u8],
) -> Option<bool> {
    let mut rest = answers;
    for event in events {
        let outcome = answered(world, alloc, *event)?;
        rest = after_outcome(line, outcome, rest)?;
    }
    Some(rest.is_empty())
}

// Whether the events of a script are answered so: None if memory is refused before the first event.
fn goes_on(rt: &HostRuntime, worked: &Worked) -> Option<bool> {
    let mut line = Vec::with_capacity(rt.alloc(), 128).ok()?;
    let mut world = world_of(rt, worked.edges, worked.parts, worked.replicas)?;
    let events = read_script(rt.alloc(), worked.script).ok()?;
    let right = are_answered(&mut world, rt.alloc(), &mut line, &events, worked.answers);
    Some(right == Some(true))
}

// Whether they are, at once or when all is begun again.
fn goes_on_once(rt: &HostRuntime, worked: &Worked) -> bool {
    goes_on(rt, worked).or(goes_on(rt, worked)) == Some(true)
}

// Whether those of each script are.
fn all_go_on(rt: &HostRuntime) -> bool {
    let mut right = true;
    for worked in &TRIED {
        right &= goes_on_once(rt, worked);
    }
    right
}

#[test]
fn events_whose_memory_is_refused(rt: HostRuntime) {
    assert!(rt; all_go_on(&rt));
}

// A replay of a beginning of a script: what it answered, how much it wrote, and whether that is a beginning of the
// answers.
#[derive(Clone, Copy)]
struct Written {
    told: Result<(), ReplayError>,
    length: usize,
    is_front: bool,
}

// A replay of a script, whose writer fails at a call.
fn replay_until(
    rt: &HostRuntime,
    worked: &Worked,
    script: &[u8],
    fails_at: Option<u64>,
) -> Option<Written> {
    let state = RandomState::new(rt).ok()?;
    let mut writer = MemWriter::with_room(rt.alloc(), 4096, fails_at).ok()?;
    let told = replay(
        rt.alloc(),
        state,
        worked.edges,
        worked.counted,
        script,
        &options(worked.parts, worked.replicas),
        &mut writer,
    );
    let bytes = writer.into_bytes();
    Some(Written {
        told,
        length: bytes.len(),
        is_front: worked.answers.starts_with(&bytes),
    })
}

// Whether memory was refused.
fn is_want(told: Result<(), ReplayError>) -> bool {
    matches!(
        told,
        Err(ReplayError::Memory | ReplayError::Edges(EdgeError::Memory))
    )
}

// What is seen of a replay.
#[derive(Clone, Copy, PartialEq, Eq)]
enum Seen {
    // All answers are written.
    Whole,
    // Memory was refused, before it or in it: then a beginning of the answers is written.
    Refused,
    // Anything else.
    Wrong,
}

// What is seen of one.
fn seen_of(rt: &HostRuntime, worked: &Worked) -> Seen {
    match replay_until(rt, worked, worked.script, None) {
        Some(made) if !made.is_front => Seen::Wrong,
        Some(made) if is_want(made.told) => Seen::Refused,
        Some(made) if made.told == Ok(()) && made.length == worked.answers.len() => Seen::Whole,
        Some(_) => Seen::Wrong,
        None => Seen::Refused,
    }
}

// Whether all is written, at once or when that is done again.
fn is_whole(rt: &HostRuntime, worked: &Worked) -> bool {
    let first = seen_of(rt, worked);
    first == Seen::Whole || (first == Seen::Refused && seen_of(rt, worked) == Seen::Whole)
}

#[test]
fn replays_whose_memory_is_refused(rt: HostRuntime) {
    assert!(rt; is_whole(&rt, &TRIED[0]) && is_whole(&rt, &TRIED[1]));
}

// Whether a writer that fails at a call has what was written before: nothing at the first, and not all.
fn stops_at(rt: &HostRuntime, worked: &Worked, call: u64) -> bool {
    match replay_until(rt, worked, worked.script, Some(call)) {
        Some(made) => {
            let short = made.length < worked.answers.len() && (made.length == 0) == (call == 1);
            made.is_front && short && made.told == Err(ReplayError::Write)
        }
        None => false,
    }
}

// Whether it stops so at each of `calls` calls, and there is none after them.
fn stops_at_each(rt: &HostRuntime, worked: &Worked, calls: u64) -> bool {
    let mut right = true;
    for before in 0..calls {
        right &= stops_at(rt, worked, before.saturating_add(1));
    }
    match replay_until(rt, worked, worked.script, Some(calls.saturating_add(1))) {
        Some(made) => right && made.told == Ok(()) && made.length == worked.answers.len(),
        None => false,
    }
}

// The answers are 24 lines.
#[test]
fn writers_that_fail_at_a_call(rt: HostRuntime) {
    assert!(rt; stops_at_each(&rt, &TRIED[0], 24));
}

// Whether a script that is cut at `end` has the answers of its lines, or ends in a line that is no command:
// then nothing is written.
fn is_cut(rt: &HostRuntime, worked: &Worked, end: usize) -> bool {
    let script = worked.script.get(..end).unwrap_or_default();
    match replay_until(rt, worked, script, None) {
        Some(made) => match made.told {
            Err(ReplayError::Script { .. }) => made.length == 0,
            told => made.is_front && told == Ok(()),
        },
        None => false,
    }
}

// Whether that is so wherever it is cut.
fn is_cut_anywhere(rt: &HostRuntime, worked: &Worked) -> bool {
    let mut right = true;
    for end in 0..worked.script.len() {
        right &= is_cut(rt, worked, end);
    }
    right
}

#[test]
fn scripts_that_are_cut(rt: HostRuntime) {
    assert!(rt; is_cut_anywhere(&rt, &TRIED[0]));
}
