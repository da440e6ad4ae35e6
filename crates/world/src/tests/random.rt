//! Scripts of random commands, as they are and with some bytes changed, and of random bytes: each is refused as a whole, or
//! each of its commands is answered.

use super::replays::options;
use super::worlds::TWO_EDGES;
use crate::replay::{ReplayError, replay};
use ball_model::MemWriter;
use std::alloc::{AllocError, AllocGlobal};
use std::hash::RandomState;

// The next of a row of numbers: x becomes 6364136223846793005 x + 1442695040888963407 below 2^64 (Knuth).
fn next(state: &mut u64) -> u64 {
    *state = state
        .wrapping_mul(6_364_136_223_846_793_005)
        .wrapping_add(1_442_695_040_888_963_407);
    *state >> 33
}

/// Lines for two partitions of two replicas, of which some name what may not be there.
const LINES: [&[u8]; 32] = [
    b"send 0.0 1\n",
    b"send 0.0 1\n",
    b"send 0.1 1\n",
    b"send 1.0 0\n",
    b"send 1.0 0\n",
    b"send 1.1 0\n",
    b"send 1.1 1\n",
    b"deliver 0 0.0\n",
    b"deliver 0 1.0\n",
    b"deliver 1 0.0\n",
    b"deliver 1 1.1\n",
    b"deliver 2 0.1\r\n",
    b"deliver 2 1.0\n",
    b"deliver 3 0.0\n",
    b"deliver 3 1.0\n",
    b"deliver 999999999 1.1\n",
    b"close 0.0\n",
    b"close 0.1\n",
    b"close 1.0\n",
    b"close 1.1\n",
    b"keep 0.0\n",
    b"keep 1.1\n",
    b"restart 0.0\n",
    b"restart 1.1\n",
    b"copy 0.0\n",
    b"copy 1.0\n",
    b"recover 0.1 0\n",
    b"recover 1.1 1\n",
    b"recover 65535.255 2\n",
    b"show 0.0\n",
    b"show 1.1\n",
    b"# none\n",
];

/// Bytes that mean something in a script, and some that do not.
const MARKS: [u8; 16] = *b"\n\n \r#.01019sdk\0\xff";

// Puts up to 24 lines into a script.
fn fill(script: &mut Vec<u8>, state: &mut u64) -> Result<(), AllocError> {
    script.clear();
    for _ in 0..next(state) % 25 {
        script.extend_from_slice(LINES[(next(state) % 32) as usize])?;
    }
    Ok(())
}

// Puts up to 64 bytes into a script.
fn fill_anyhow(script: &mut Vec<u8>, state: &mut u64) -> Result<(), AllocError> {
    script.clear();
    for _ in 0..next(state) % 65 {
        script.push(MARKS[(next(state) % 16) as usize])?;
    }
    Ok(())
}

// Changes up to three bytes.
fn change(script: &mut [u8], state: &mut u64) {
    let length = script.len().max(1) as u64;
    for _ in 0..1 + next(state) % 3 {
        let mark = MARKS[(next(state) % 16) as usize];
        let place = (next(state) % length) as usize;
        if let Some(byte) = script.get_mut(place) {
            *byte = mark;
        }
    }
}

// How many lines begin with none of these bytes.
fn lines_without(text: &[u8], fronts: &[u8]) -> u32 {
    let mut count = 0u32;
    let mut begins = true;
    for byte in text {
        if begins && !fronts.contains(byte) {
            count = count.saturating_add(1);
        }
        begins = *byte == b'\n';
    }
    count
}

// How many lines are those of a vertex.
fn rows_of(text: &[u8]) -> u32 {
    let mut count = 0u32;
    for place in 0..text.len() {
        let (_, rest) = text.split_at(place);
        if rest.starts_with(b"\nrow ") {
            count = count.saturating_add(1);
        }
    }
    count
}

// What is seen of scripts: how many were answered, how many were refused, and whether all was right.
#[derive(Clone, Copy)]
struct Seen {
    answered: u32,
    refused: u32,
    right: bool,
}

impl Seen {
    // One more script, by what a replay answered and wrote.
    fn and(self, script: &[u8], told: Result<(), ReplayError>, answers: &[u8]) -> Seen {
        let mut all = self;
        if told == Ok(()) {
            let lines = lines_without(answers, b"").saturating_sub(rows_of(answers));
            all.answered = all.answered.saturating_add(1);
            all.right &= lines == lines_without(script, b"\n\r#");
        } else {
            all.refused = all.refused.saturating_add(1);
            all.right &= answers.is_empty() && matches!(told, Err(ReplayError::Script { .. }));
        }
        all
    }
}

// A replay of a script, seen.
fn see(rt: &HostRuntime, script: &[u8], seen: Seen) -> Option<Seen> {
    let state = RandomState::new(rt).ok()?;
    let mut writer = MemWriter::with_room(rt.alloc(), 16384, None).ok()?;
    let told = replay(
        rt.alloc(),
        state,
        TWO_EDGES,
        None,
        script,
        &options(2, 2),
        &mut writer,
    );
    Some(seen.and(script, told, &writer.into_bytes()))
}

// A random script as it is, and with some bytes changed.
fn see_both(rt: &HostRuntime, script: &mut Vec<u8>, state: &mut u64, seen: Seen) -> Option<Seen> {
    fill(script, state).ok()?;
    let seen = see(rt, script, seen)?;
    change(script, state);
    see(rt, script, seen)
}

// No script is seen yet.
const NONE: Seen = Seen {
    answered: 0,
    refused: 0,
    right: true,
};

// A thousand of both.
fn see_all(rt: &HostRuntime) -> Option<Seen> {
    let mut state = 32;
    let mut script = Vec::new(rt.alloc());
    let mut seen = NONE;
    for _ in 0..1000 {
        seen = see_both(rt, &mut script, &mut state, seen)?;
    }
    Some(seen)
}

// All that is not changed is answered, and so is some that is.
#[test]
fn random_scripts(rt: HostRuntime) {
    let right = match see_all(&rt) {
        Some(seen) => seen.right && seen.answered > 1000 && seen.refused > 100,
        None => false,
    };
    assert!(rt; right);
}

// A thousand of random bytes.
fn see_any(rt: &HostRuntime) -> Option<Seen> {
    let mut state = 33;
    let mut script = Vec::new(rt.alloc());
    let mut seen = NONE;
    for _ in 0..1000 {
        fill_anyhow(&mut script, &mut state).ok()?;
        seen = see(rt, &script, seen)?;
    }
    Some(seen)
}

// Nearly all are refused.
#[test]
fn scripts_of_random_bytes(rt: HostRuntime) {
    let right = match see_any(&rt) {
        Some(seen) => seen.right && seen.refused > 800,
        None => false,
    };
    assert!(rt; right);
}
