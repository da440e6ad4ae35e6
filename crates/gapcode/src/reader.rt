//! Bits out of bytes.

ghost use Rattle.std.specs.Prelude.{◌≡◌, ◌↔◌, ℕ, Bool, List, Err, false, ◌+◌, ◌++◌, replicate};
ghost use Rattle.std.specs.Prelude.{◌<◌, ◌≤◌, ◌^◌, length, take, slice_get, option_to_list, OnErr};
ghost use Rattle.std.specs.Prelude.{IfOk, Ok};
ghost use Rattle.gapcode.specs.declared.error.CodeError.TheVariants.{TooLong};
ghost use Rattle.gapcode.specs.Bits.{bits_of, rest, with_rest, gamma, gamma_at, most_digits};

use crate::code::code_from;
use crate::error::CodeError;
use std::marker::Model;

/// Reads the bits of bytes, the most significant of a byte first.
///
/// A model has all bits, and the place of the next one, from 0. For a library's user: the program does not call it.
#[derive(Drop)]
pub struct BitReader<'a> {
    bytes: &'a [u8],
    place: u128,
}

impl<'a> Model for BitReader<'a> {
    ghost use Rattle.std.specs.Prelude.{◌*◌, ◌≤◌, length};
    ghost use Rattle.gapcode.specs.Bits.{Place, bits_of};

    ghost Value = { Place };

    ghost view = { λ r. record { bits = bits_of r.bytes.now; position = r.place } };

    ghost invariant = { λ r. r.place ≤ 8 * length r.bytes.now };
}

impl<'a> BitReader<'a> {
    /// A reader at the first bit.
    pub fn new(bytes: &'a [u8]) -> BitReader<'a>
        ensures { result ≡ record { bits = bits_of bytes.now; position = 0 } }
    {
        BitReader { bytes, place: 0 }
    }

    /// The place of the next bit: how many bits are before it.
    pub fn position(&self) -> u128
        ensures value { result ≡ self.now.position }
        ensures inside { result ≤ length self.now.bits }
    {
        self.place
    }

    /// The next bit; at the end there is none, and the reader stays.
    pub fn bit(&mut self) -> Option<bool>
        ensures bit { result ≡ slice_get self.old.bits self.old.position }
        ensures position { self.new.position ≡ self.old.position + length (option_to_list result) }
        ensures bits { self.new.bits ≡ self.old.bits }
    {
        let index = (self.place / 8) as usize;
        if index >= self.bytes.len() {
            return None;
        }
        let bit = (self.bytes[index] >> (7 - self.place % 8)) & 1 == 1;
        self.place += 1;
        Some(bit)
    }
}

// The number whose code comes next.
fn take_code(reader: &mut BitReader<'_>) -> Result<u64, CodeError>
    ensures exact { with_rest result (rest reader.new) ≡ gamma_at (rest reader.old) }
    ensures err { OnErr result (reader.new ≡ reader.old) }
    ensures bits { reader.new.bits ≡ reader.old.bits }
    ensures from { reader.old.position ≤ length reader.old.bits }
    ensures inside { reader.new.position ≤ length reader.new.bits }
{
    let (x, place) = code_from(reader.bytes, reader.place)?;
    reader.place = place;
    Ok(x)
}

/// The number whose gamma code comes next (Elias 1975).
///
/// It is `TooLong` if 64 zero bits come next, else `Ended` if no whole code does; either leaves the reader where it
/// was. For a library's user: the program does not call it.
pub fn get_gamma(reader: &mut BitReader<'_>) -> Result<u64, CodeError>
    // What is found is the code that comes next, and the reader moves past it.
    ensures found { IfOk result (λ x. rest reader.old ≡ gamma x ++ rest reader.new) }
    ensures number { IfOk result (λ x. (0 < x) × (x < 2 ^ 64)) }
    ensures moved { IfOk result (λ x.
        reader.new.position ≡ reader.old.position + length (gamma x)) }
    // If a code comes next it is found.
    ensures only { (x : ℕ) (more : List Bool) → 0 < x → x < 2 ^ 64
        → rest reader.old ≡ gamma x ++ more → result ≡ Ok x }
    // Which fault it is.
    ensures too_long { (result ≡ Err TooLong) ↔
        (take most_digits (rest reader.old) ≡ replicate most_digits false) }
    ensures exact { with_rest result (rest reader.new) ≡ gamma_at (rest reader.old) }
    ensures err { OnErr result (reader.new ≡ reader.old) }
    ensures bits { reader.new.bits ≡ reader.old.bits }
{
    take_code(reader)
}
