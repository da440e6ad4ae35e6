//! Bits into bytes.

ghost use Rattle.std.specs.Prelude.{◌≡◌, ◌+◌, ◌*◌, ◌/◌, ◌%◌, ◌<◌, ◌≤◌, ◌^◌, ◌++◌, [], length, take};
ghost use Rattle.std.specs.Prelude.{OnOk, OnErr, vec_len, vec_capacity};
ghost use Rattle.gapcode.specs.Bits.{digits, bits_of, bits_with, gamma, most_digits, AreBytesOf};

use crate::code::next_word;
use std::alloc::{AllocError, Global};
use std::marker::Model;

/// How many bytes one code and the bits before it fill at most.
const ROOM: usize = 17;

/// How many bytes less than 64 bits and the bits before them fill at most, and one that is kept.
const SPARE: usize = 9;

// Splits the lowest `rest` bits off `last` and the n bits of `value` after it.
fn split_bits(last: u8, value: u64, n: u32, rest: u32) -> (u64, u8)
    requires n { n ≤ most_digits }
    requires last { last < 128 }
    requires value { value < 2 ^ n }
    requires rest { rest < 8 }
    requires small { (last * 2 ^ n + value) / 2 ^ rest < 2 ^ 64 }
    ensures whole { result.0 ≡ (last * 2 ^ n + value) / 2 ^ rest }
    ensures left { result.1 ≡ (last * 2 ^ n + value) % 2 ^ rest }
{
    let all = ((last as u128) << n) | (value as u128);
    ((all >> rest) as u64, (all % (1 << rest)) as u8)
}

// Appends n bits to whole bytes and the bits after them, which are the lowest `used` of `last`.
fn put_digits(full: &mut Vec<u8>, last: u8, used: u32, value: u64, n: u32) -> (u8, u32)
    requires used { used < 8 }
    requires last { last < 2 ^ used }
    requires n { n ≤ most_digits }
    requires value { value < 2 ^ n }
    requires room { vec_len full.old + 8 ≤ vec_capacity full.old }
    ensures used { result.1 < 8 }
    ensures last { result.0 < 2 ^ result.1 }
    ensures bits { bits_with full.new.items result.0 result.1
        ≡ bits_with full.old.items last used ++ digits n value }
    ensures longer { vec_len full.new ≤ vec_len full.old + 8 }
    ensures room { vec_capacity full.old ≤ vec_capacity full.new }
{
    let total = used + n;
    let (whole, left) = split_bits(last, value, n, total % 8);
    let bytes = whole.to_be_bytes();
    let (_, tail) = bytes.split_at(8 - (total / 8) as usize);
    let _ = full.extend_from_slice(tail);
    (left, total % 8)
}

fn put_code(full: &mut Vec<u8>, last: u8, used: u32, x: u64) -> (u8, u32)
    requires used { used < 8 }
    requires last { last < 2 ^ used }
    requires x { 0 < x }
    requires room { vec_len full.old + 17 ≤ vec_capacity full.old }
    ensures used { result.1 < 8 }
    ensures last { result.0 < 2 ^ result.1 }
    ensures bits { bits_with full.new.items result.0 result.1
        ≡ bits_with full.old.items last used ++ gamma x }
    ensures room { vec_len full.new < vec_capacity full.new }
{
    let zeros = 63 - x.leading_zeros();
    let (last, used) = put_digits(full, last, used, 0, zeros);
    put_digits(full, last, used, x, zeros + 1)
}

// Appends 64 bits. As many bits as before are left over.
fn put_word(full: &mut Vec<u8>, last: u8, used: u32, word: u64) -> u8
    requires used { used < 8 }
    requires last { last < 2 ^ used }
    requires room { vec_len full.old + 8 ≤ vec_capacity full.old }
    ensures last { result < 2 ^ used }
    ensures bits { bits_with full.new.items result used
        ≡ bits_with full.old.items last used ++ digits most_digits word }
    ensures longer { vec_len full.new ≡ vec_len full.old + 8 }
    ensures room { vec_capacity full.old ≤ vec_capacity full.new }
{
    let (whole, left) = split_bits(last, word, u64::BITS, used);
    let _ = full.extend_from_slice(&whole.to_be_bytes());
    left
}

// Appends the first 64 * `count` bits of bytes, 64 at a time. As many bits as before are left over.
fn put_words(full: &mut Vec<u8>, last: u8, used: u32, bytes: &[u8], count: usize) -> u8
    requires used { used < 8 }
    requires last { last < 2 ^ used }
    requires inside { 8 * count ≤ length bytes.now }
    requires room { vec_len full.old + 8 * count ≤ vec_capacity full.old }
    ensures last { result < 2 ^ used }
    ensures bits { bits_with full.new.items result used
        ≡ bits_with full.old.items last used ++ take (most_digits * count) (bits_of bytes.now) }
    ensures longer { vec_len full.new ≡ vec_len full.old + 8 * count }
    ensures room { vec_capacity full.old ≤ vec_capacity full.new }
{
    let mut left = last;
    for i in 0..count {
        left = put_word(full, left, used, next_word(&bytes[8 * i..], 0));
    }
    left
}

fn first_bits(bytes: &[u8], n: u32) -> u64
    requires n { n < most_digits }
    requires inside { n ≤ 8 * length bytes.now }
    ensures small { result < 2 ^ n }
    ensures bits { digits n result ≡ take n (bits_of bytes.now) }
{
    ((next_word(bytes, 0) as u128) >> (u64::BITS - n)) as u64
}

/// Bits on their way into bytes, the most significant of a byte first.
///
/// A model is the list of the bits. One byte of room is always kept, so that `finish` takes no memory.
#[derive(Drop)]
pub struct BitWriter {
    full: Vec<u8>,
    last: u8,
    used: u32,
}

impl Model for BitWriter {
    ghost use Rattle.std.specs.Prelude.{List, Bool, ◌<◌, ◌^◌, vec_len, vec_capacity};
    ghost use Rattle.gapcode.specs.Bits.{bits_with};

    ghost Value = { List Bool };

    ghost view = { λ w. bits_with w.full.items w.last w.used };

    ghost invariant = { λ w.
        (w.used < 8) × (w.last < 2 ^ w.used)
        × (0 < w.used → vec_len w.full < vec_capacity w.full) };
}

impl BitWriter {
    /// No bits yet. It takes no memory.
    pub fn new(alloc: Global) -> BitWriter
        ensures { result ≡ [] }
    {
        BitWriter {
            full: Vec::new(alloc),
            last: 0,
            used: 0,
        }
    }

    /// The number of bits.
    pub fn len(&self) -> u128
        ensures count { result ≡ length self.now }
        ensures few { result < 2 ^ 68 }
    {
        8 * self.full.len() as u128 + self.used as u128
    }

    /// The bytes of these bits, with zero bits up to the next whole byte. It takes no memory.
    pub fn finish(self) -> Vec<u8>
        ensures { AreBytesOf self result.items }
    {
        let BitWriter {
            mut full,
            last,
            used,
        } = self;
        if used > 0 {
            let _ = full.push(last << (8 - used));
        }
        full
    }
}

/// Appends the gamma code of a number: as many zero bits as it has binary digits but one, then these digits
/// (Elias 1975).
///
/// The error is that memory was refused.
pub fn put_gamma(writer: &mut BitWriter, x: u64) -> Result<(), AllocError>
    requires { 0 < x }
    ensures ok { OnOk result (writer.new ≡ writer.old ++ gamma x) }
    ensures err { OnErr result (writer.new ≡ writer.old) }
{
    writer.full.reserve(ROOM)?;
    let (last, used) = put_code(&mut writer.full, writer.last, writer.used, x);
    writer.last = last;
    writer.used = used;
    Ok(())
}

/// Appends the first `count` bits of bytes.
///
/// The error is that memory was refused.
pub(crate) fn put_bits(writer: &mut BitWriter, bytes: &[u8], count: u128) -> Result<(), AllocError>
    requires { count ≤ 8 * length bytes.now }
    ensures ok { OnOk result (writer.new ≡ writer.old ++ take count (bits_of bytes.now)) }
    ensures err { OnErr result (writer.new ≡ writer.old) }
{
    let words = (count / 64) as usize;
    let n = (count % 64) as u32;
    writer.full.reserve(8 * words + SPARE)?;
    let left = put_words(&mut writer.full, writer.last, writer.used, bytes, words);
    let rest = first_bits(&bytes[8 * words..], n);
    let (last, used) = put_digits(&mut writer.full, left, writer.used, rest, n);
    writer.last = last;
    writer.used = used;
    Ok(())
}
