//! The elements of a list, one after the other.

ghost use Rattle.std.specs.Prelude.{◌≡◌, ◌+◌, ◌-◌, ◌*◌, ◌/◌, ◌<◌, ◌≤◌, ◌∷◌, length, drop};
ghost use Rattle.std.specs.Iterator.{YieldsFirst, item_count};
ghost use Rattle.gapcode.specs.Bits.{bits_from};
ghost use Rattle.gapcode.specs.Lists.{elements_from, read_list, SpellsFrom, IsPlaced};

use crate::code::code_at;
use std::marker::Model;

/// The elements of a list that are still to come, ascending. It takes no memory.
///
/// A step reads one code: a few nanoseconds.
#[derive(Drop)]
pub struct Elements<'a> {
    bytes: &'a [u8],
    position: u32,
    left: u64,
    least: u64,
}

impl<'a> Model for Elements<'a> {
    ghost use Rattle.std.specs.Prelude.{List, ℕ, ◌<◌, drop};
    ghost use Rattle.gapcode.specs.Bits.{bits_of};
    ghost use Rattle.gapcode.specs.Lists.{elements_of, SpellsFrom};

    ghost Value = { List ℕ };

    ghost view = { λ e. elements_of e.left e.least (drop e.position (bits_of e.bytes.now)) };

    ghost invariant = { λ e. (e.position < 8) × SpellsFrom e.bytes.now e.position e.left e.least };
}

// The next element, and the place after it.
fn step(bytes: &[u8], position: u32, left: u64, least: u64) -> (u32, u32)
    requires first { position < 8 }
    requires placed { SpellsFrom bytes.now position left least }
    requires some { 0 < left }
    ensures next { elements_from bytes.now position left least
        ≡ result.0 ∷ elements_from bytes.now result.1 (left - 1) (result.0 + 1) }
    ensures placed { SpellsFrom bytes.now result.1 (left - 1) (result.0 + 1) }
{
    match code_at(bytes, position) {
        Ok((gap, end)) => ((least + (gap - 1)) as u32, end),
        Err(_) => (0, position),
    }
}

// How many elements a list has, and the place of the first.
fn degree(bytes: &[u8], position: u32) -> (u64, u32)
    requires first { position < 8 }
    requires placed { IsPlaced bytes.now position }
    ensures first { elements_from bytes.now result.1 result.0 0
        ≡ read_list (bits_from bytes.now position) }
    ensures placed { SpellsFrom bytes.now result.1 result.0 0 }
{
    match code_at(bytes, position) {
        Ok((code, end)) => (code - 1, end),
        Err(_) => (0, position),
    }
}

fn behind(bytes: &[u8], place: u32) -> &[u8]
    requires { place ≤ 8 * length bytes.now }
    ensures { result.now ≡ drop (place / 8) bytes.now }
{
    let (_, rest) = bytes.split_at((place / 8) as usize);
    rest
}

impl<'a> Elements<'a> {
    pub(crate) fn at(bytes: &'a [u8], place: u128) -> Elements<'a>
        requires { IsPlaced bytes.now place }
        ensures { result ≡ read_list (bits_from bytes.now place) }
    {
        let (_, rest) = bytes.split_at((place / 8) as usize);
        let (left, end) = degree(rest, (place % 8) as u32);
        Elements {
            bytes: behind(rest, end),
            position: end % 8,
            left,
            least: 0,
        }
    }

    /// How many elements are still to come.
    pub fn len(&self) -> u64
        ensures { result ≡ length self.now }
    {
        self.left
    }

    fn pull(&mut self) -> Option<u32>
        ensures { YieldsFirst (λ e. e) self.old result self.new }
    {
        if self.left == 0 {
            return None;
        }
        let (element, end) = step(self.bytes, self.position, self.left, self.least);
        self.bytes = behind(self.bytes, end);
        self.position = end % 8;
        self.left -= 1;
        self.least = u64::from(element) + 1;
        Some(element)
    }
}

impl<'a> Iterator for Elements<'a> {
    type Item = u32;

    ghost next_gives = { YieldsFirst (λ e. e) };

    ghost remaining = { item_count (λ e. e) };

    fn next(&mut self) -> Option<u32> {
        self.pull()
    }
}
