//! Checkpoints with a bit turned, and random ones.

use super::reading::fault;
use super::whole;
use super::worked::TWO_EDGES;
use checkpoint::KeepError;
use graph::Part;
use std::sync::Arc;

/// By hand, the refusals of the checkpoint of the two edges when one bit is turned, from the first of a row up to the
/// second. Bits are counted from the lowest of each byte. With 144 begins the superstep, which is 2: with 3 the
/// digest's bytes 0x24 and 0xf3 are read as the number of early batches, and with 0 the digest is looked for 32 bytes
/// too early; up to 4096 there are too few bytes for others. With 2448 begins the number of early batches, which is
/// none.
static REFUSALS: [(usize, usize, KeepError); 14] = [
    (0, 32, KeepError::Magic),
    (32, 40, KeepError::Version),
    (40, 64, KeepError::Shape),
    (64, 80, KeepError::OtherPart),
    (80, 160, KeepError::Shape),
    (160, 164, KeepError::Short),
    (164, 168, KeepError::Shape),
    (168, 169, KeepError::Shape),
    (169, 170, KeepError::Digest),
    (170, 176, KeepError::Short),
    (176, 432, KeepError::OtherJob),
    (432, 2448, KeepError::Digest),
    (2448, 2464, KeepError::Shape),
    (2464, 2720, KeepError::Digest),
];

/// Turns a bit.
fn turn(bytes: &mut [u8], bit: usize) {
    if let Some(byte) = bytes.get_mut(bit / 8) {
        *byte ^= 1u8 << (bit % 8);
    }
}

/// The refusal when a bit is turned, and turned back.
fn turned(rt: &HostRuntime, part: &Arc<Part>, bytes: &mut [u8], bit: usize) -> Option<KeepError> {
    turn(bytes, bit);
    let told = fault(rt, part, bytes);
    turn(bytes, bit);
    told
}

/// Whether each bit gives its refusal.
pub(super) fn are_told(rt: &HostRuntime, part: &Arc<Part>) -> bool {
    let mut bytes = TWO_EDGES;
    let mut all = true;
    for (from, to, wanted) in &REFUSALS {
        for bit in *from..*to {
            all &= turned(rt, part, &mut bytes, bit) == Some(*wanted);
        }
    }
    all
}

/// The next of a row of numbers: x becomes 6364136223846793005 x + 1442695040888963407 below 2^64 (Knuth).
fn next(state: &mut u64) -> usize {
    *state = state
        .wrapping_mul(6_364_136_223_846_793_005)
        .wrapping_add(1_442_695_040_888_963_407);
    (*state >> 33) as usize
}

/// Turns up to four bits, at random.
fn scatter(bytes: &mut [u8], state: &mut u64) {
    for _ in 0..1 + next(state) % 4 {
        turn(bytes, next(state) % 2720);
    }
}

/// Makes all bits after the fixed fields random.
fn shake(bytes: &mut [u8], state: &mut u64) {
    for bit in 432..2720 {
        if next(state) % 2 == 0 {
            turn(bytes, bit);
        }
    }
}

/// Whether bytes are refused, and not for want of memory; or they are those of the checkpoint.
fn is_refused(rt: &HostRuntime, part: &Arc<Part>, bytes: &[u8]) -> bool {
    match fault(rt, part, bytes) {
        Some(told) => told != KeepError::Memory && told != KeepError::Read,
        None => bytes == TWO_EDGES.as_slice(),
    }
}

/// Whether the bytes of a checkpoint with bits turned, and random ones that are cut somewhere, are refused.
fn are_both_refused(rt: &HostRuntime, part: &Arc<Part>, state: &mut u64) -> bool {
    let mut bytes = TWO_EDGES;
    scatter(&mut bytes, state);
    let turned = is_refused(rt, part, &bytes);
    shake(&mut bytes, state);
    turned && is_refused(rt, part, &bytes[..next(state) % 341])
}

/// Whether a thousand of both are.
fn all_refused(rt: &HostRuntime, part: &Arc<Part>) -> bool {
    let mut state = 25;
    let mut all = true;
    for _ in 0..1000 {
        all &= are_both_refused(rt, part, &mut state);
    }
    all
}

/// Whether those of the two edges are.
fn are_refused(rt: &HostRuntime) -> Option<bool> {
    Some(all_refused(rt, &whole(rt)?))
}

#[test]
fn random_checkpoints(rt: HostRuntime) {
    assert!(rt; are_refused(&rt) == Some(true));
}
