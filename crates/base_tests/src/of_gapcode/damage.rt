//! Bytes that are cut, bytes with a bit changed, and random bytes.

use super::*;

/// Bytes of lists, how many lists they are, a bound, and for how many of the changes of one bit the bytes are still
/// lists: lists
/// [], [0] and [1]; list [0, 2, 5]; lists of one great element.
static SPELLED: [(&[u8], usize, u32, u32); 4] = [
    (&THREE, 3, 9, 2),
    (&[0x25, 0x30], 1, 6, 2),
    (&GREAT, 1, 16_777_216, 1),
    (&FAR, 1, u32::MAX, 31),
];

// The first length to which bytes are cut and not refused as ended.
fn first_not_ended(alloc: Global, bytes: &[u8], count: usize, bound: u32) -> Option<usize> {
    for len in 0..bytes.len() {
        if refusal(alloc, &bytes[..len], count, bound) != Some(CodeError::Ended) {
            return Some(len);
        }
    }
    None
}

// The length of the first cut that is not refused so.
fn first_cut_not_ended(alloc: Global) -> Option<usize> {
    for (bytes, count, bound, _) in &SPELLED {
        let first = first_not_ended(alloc, bytes, *count, *bound);
        if first.is_some() {
            return first;
        }
    }
    None
}

#[test]
fn cut_lists_have_ended(rt: HostRuntime) {
    assert_eq!(rt; first_cut_not_ended(rt.alloc()), None);
}

// Reads bytes, and returns how often they were read as lists: once, or not at all. There is no answer if memory was
// refused, or if the lists have other bytes; another refusal is no fault.
fn see(alloc: Global, bytes: &[u8], count: usize, bound: u32) -> Option<u32> {
    match Lists::read(alloc, bytes, count, bound) {
        Ok(lists) => are_these(&lists, bytes, count).then_some(1),
        Err(fault) => (fault != CodeError::Memory).then_some(0),
    }
}

// Whether there are `count` lists, and these are just their bytes.
fn are_these(lists: &Lists, bytes: &[u8], count: usize) -> bool {
    lists.len() == count && lists.bytes() == bytes
}

// Turns a bit of bytes.
fn turn(bytes: &mut [u8], bit: usize) {
    if let Some(byte) = bytes.get_mut(bit / 8) {
        *byte ^= 0x80u8 >> (bit % 8) as u32;
    }
}

// Reads bytes with each bit turned in turn.
fn see_turned(alloc: Global, bytes: &mut [u8], count: usize, bound: u32) -> Option<u32> {
    let mut read = 0u32;
    for bit in 0..bytes.len().saturating_mul(8) {
        turn(bytes, bit);
        read = read.saturating_add(see(alloc, bytes, count, bound)?);
        turn(bytes, bit);
    }
    Some(read)
}

// Reads a copy of the bytes with each bit turned in turn.
fn see_copy(alloc: Global, bytes: &[u8], count: usize, bound: u32) -> Option<u32> {
    let mut copy = bytes.to_vec(alloc).ok()?;
    see_turned(alloc, &mut copy, count, bound)
}

// The bytes of the table that are not read so often, with how often they are.
fn first_otherwise(alloc: Global) -> Option<(&'static [u8], Option<u32>)> {
    for (bytes, count, bound, wanted) in &SPELLED {
        let read = see_copy(alloc, bytes, *count, *bound);
        if read != Some(*wanted) {
            return Some((bytes, read));
        }
    }
    None
}

#[test]
fn lists_with_a_bit_turned(rt: HostRuntime) {
    assert_eq!(rt; first_otherwise(rt.alloc()), None);
}

// The next of a row of numbers: x becomes 6364136223846793005 x + 1442695040888963407 below 2^64 (Knuth).
fn next(state: &mut u64) -> u64 {
    *state = state
        .wrapping_mul(6_364_136_223_846_793_005)
        .wrapping_add(1_442_695_040_888_963_407);
    *state >> 33
}

// Fills bytes with random ones, of which each bit is set one time in two or, the sparse ones, one in four.
fn scatter(bytes: &mut [u8], state: &mut u64, sparse: bool) {
    for byte in bytes.iter_mut() {
        let all = next(state);
        let some = next(state);
        *byte = ((if sparse { all & some } else { all }) % 256) as u8;
    }
}

// Reads random bytes a thousand times: 0 to 11 of them, as up to three lists below a bound up to 63.
fn see_random(alloc: Global) -> Option<u32> {
    let mut state = 28;
    let mut read = 0u32;
    let mut bytes = [0u8; 11];
    for _ in 0..1000 {
        let len = (next(&mut state) % 12) as usize;
        let count = (next(&mut state) % 4) as usize;
        let bound = (next(&mut state) % 64) as u32;
        scatter(&mut bytes, &mut state, bound % 2 == 0);
        let (front, _) = bytes.split_at(len);
        read = read.saturating_add(see(alloc, front, count, bound)?);
    }
    Some(read)
}

#[test]
fn random_lists(rt: HostRuntime) {
    assert_eq!(rt; see_random(rt.alloc()), Some(28));
}

// Turns up to four bits at random.
fn turn_some(bytes: &mut [u8], state: &mut u64) {
    let bits = bytes.len().saturating_mul(8).max(1) as u64;
    for _ in 0..1 + next(state) % 4 {
        let bit = (next(state) % bits) as usize;
        turn(bytes, bit);
    }
}

// Reads lists of the table with up to four bits turned.
fn see_some_turned(alloc: Global, state: &mut u64) -> Option<u32> {
    let (bytes, count, bound, _) = SPELLED[(next(state) % 4) as usize];
    let mut copy = bytes.to_vec(alloc).ok()?;
    turn_some(&mut copy, state);
    see(alloc, &copy, count, bound)
}

// Whether that has an answer a thousand times.
fn are_seen(alloc: Global) -> bool {
    let mut state = 29;
    for _ in 0..1000 {
        if see_some_turned(alloc, &mut state).is_none() {
            return false;
        }
    }
    true
}

#[test]
fn lists_with_some_bits_turned(rt: HostRuntime) {
    assert!(rt; are_seen(rt.alloc()));
}
