//! Labels as numbers: the keys by which they are looked up.

ghost use Rattle.std.specs.Prelude.{◌≡◌, ◌^◌, ◌<◌, ◌≤◌, length};
ghost use Rattle.edgelist.specs.Guessing.{IsKey, bytes_after, key_of};
ghost use Rattle.edgelist.specs.declared.key.TheConstants.{FIRST, SHORT};

/// The most bytes of a short label.
pub(crate) const SHORT: usize = 11;

// How many of a label's bytes the first number of its key has at most.
const FIRST: usize = 8;

/// The last byte of the second number of a long label's key; that of a short one is at most 12.
pub(crate) const LONG: u32 = 255;

/// A label as two numbers. Those of a short label are its first 8 bytes, and the others with its
/// length: no other label has them. Those of a long one are mixed of its bytes: no short label has
/// them, and few long ones share them.
#[derive(Clone, Copy, PartialEq, Eq)]
pub(crate) struct LabelKey {
    pub(crate) low: u64,
    pub(crate) high: u32,
}

// Four bytes as the digits of one number.
fn four(part: &[u8]) -> u64
    requires { length part.now ≡ 4 }
    ensures { result ≡ bytes_after 0 part.now }
{
    u64::from(u32::from_be_bytes([part[0], part[1], part[2], part[3]]))
}

// Four to eight bytes as the digits of one number: the first four and the last four, which may
// overlap.
fn four_and_more(part: &[u8]) -> u64
    requires least { 4 ≤ length part.now }
    requires most { length part.now ≤ FIRST }
    ensures { result ≡ bytes_after 0 part.now }
{
    let more = part.len() - 4;
    let first = four(&part[..4]);
    let last = four(&part[more..]);
    first << (8 * more) | last
}

// At most eight bytes as the digits of one number.
fn digits(part: &[u8]) -> u64
    requires { length part.now ≤ FIRST }
    ensures value { result ≡ bytes_after 0 part.now }
    ensures few { length part.now ≤ 3 → result < 2 ^ 24 }
{
    if part.len() >= 4 {
        return four_and_more(part);
    }
    let mut digits = 0u64;
    for byte in part {
        digits = digits * 256 + u64::from(*byte);
    }
    digits
}

// The key of a short label.
fn short_key(label: &[u8]) -> LabelKey
    requires { length label.now ≤ SHORT }
    ensures { result ≡ key_of label.now }
{
    let (first, rest) = label.split_at(label.len().min(FIRST));
    let low = digits(first);
    let high = (digits(rest) * 256 + label.len() as u64 + 1) as u32;
    LabelKey { low, high }
}

// A number each of whose bits depends on many of the given one's.
fn mix(number: u64) -> u64 {
    let mixed = number.wrapping_mul(0x9e37_79b9_7f4a_7c15);
    mixed ^ (mixed >> 32)
}

// The key of a long label.
fn long_key(label: &[u8]) -> LabelKey {
    let mut low = label.len() as u64;
    let mut rest = label;
    for _i in 0..=label.len() / FIRST {
        let (first, more) = rest.split_at(rest.len().min(FIRST));
        low = mix(low ^ digits(first));
        rest = more;
    }
    let high = (mix(low) >> 32) as u32 | LONG;
    LabelKey { low, high }
}

impl LabelKey {
    /// The key of a label.
    pub(crate) fn of(label: &[u8]) -> LabelKey
        ensures { IsKey label.now result }
    {
        if label.len() > SHORT {
            return long_key(label);
        }
        short_key(label)
    }

    /// The key of no label: the second number of a key is never 0.
    pub(crate) fn none() -> LabelKey {
        LabelKey { low: 0, high: 0 }
    }
}
