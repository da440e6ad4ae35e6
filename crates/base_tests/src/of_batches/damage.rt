//! Bytes with bits changed, and random bytes: what is read of them is written as them again.

ghost use Rattle.std.specs.Prelude.{◌<◌};

use super::*;

// Reads bytes, writes what was read, and returns how often they were read as a batch: once, or not at all. There is no
// answer if memory was refused, or if the batch has other bytes; another refusal is no fault.
fn see(alloc: Global, plan: &Plan, bytes: &[u8]) -> Option<u32> {
    match is_kept(alloc, plan, bytes) {
        Ok(true) => Some(1),
        Ok(false) | Err(BatchError::Memory) => None,
        Err(_) => Some(0),
    }
}

// Turns a bit of a byte.
fn turn(bytes: &mut [u8; 74], place: usize, bit: u32)
    requires { bit < 8 }
{
    if place < 74 {
        bytes[place] ^= 1u8 << bit;
    }
}

// Reads the batch with each of the bits of a byte turned in turn.
fn see_turned(alloc: Global, plan: &Plan, place: usize) -> Option<u32> {
    let mut bytes = BYTES;
    let mut read = 0u32;
    for bit in 0..8 {
        turn(&mut bytes, place, bit);
        read = read.saturating_add(see(alloc, plan, &bytes)?);
        turn(&mut bytes, place, bit);
    }
    Some(read)
}

// Reads the batch with each of the bits of all its bytes turned in turn.
fn see_all_turned(alloc: Global, plan: &Plan) -> Option<u32> {
    let mut read = 0u32;
    for place in 0..74 {
        read = read.saturating_add(see_turned(alloc, plan, place)?);
    }
    Some(read)
}

/// By hand, of the batch's 592 bits: 13 of the superstep, up to 4096; one of the target; 256 of the digest, which is
/// then another job's; one of the vertex, 2; and of the registers six of each that is 0, up to 32, and five of the one
/// that is 3.
const READ_TURNED: u32 = 13 + 1 + 256 + 1 + 15 * 6 + 5;

// The next of a row of numbers: x becomes 6364136223846793005 x + 1442695040888963407 below 2^64 (Knuth).
fn next(state: &mut u64) -> u64 {
    *state = state
        .wrapping_mul(6_364_136_223_846_793_005)
        .wrapping_add(1_442_695_040_888_963_407);
    *state >> 33
}

// The batch with up to four bits turned, at random.
fn scattered(state: &mut u64) -> [u8; 74] {
    let mut bytes = BYTES;
    for _ in 0..1 + next(state) % 4 {
        let place = (next(state) % 74) as usize;
        let bit = (next(state) % 8) as u32;
        turn(&mut bytes, place, bit);
    }
    bytes
}

// Random bytes, after the first six of a batch.
fn random(state: &mut u64) -> [u8; 74] {
    let mut bytes = BYTES;
    for byte in bytes[6..].iter_mut() {
        *byte = (next(state) % 256) as u8;
    }
    bytes
}

// Reads a thousand batches with bits turned, and as many random ones, each cut somewhere or whole.
fn see_random(alloc: Global, plan: &Plan) -> Option<u32> {
    let mut state = 28;
    let mut read = 0u32;
    for _ in 0..1000 {
        read = read.saturating_add(see(alloc, plan, &scattered(&mut state))?);
        let len = (next(&mut state) % 75) as usize;
        read = read.saturating_add(see(alloc, plan, &random(&mut state)[..len])?);
    }
    Some(read)
}

// How often batches with a bit turned are read, and random ones.
fn seen(alloc: Global) -> Option<(u32, u32)> {
    match plan(JOB) {
        Ok(plan) => Some((see_all_turned(alloc, &plan)?, see_random(alloc, &plan)?)),
        Err(_) => None,
    }
}

#[test]
fn batches_with_bits_turned_and_random_ones(rt: HostRuntime) {
    assert_eq!(rt; seen(rt.alloc()), Some((READ_TURNED, 354)));
}
