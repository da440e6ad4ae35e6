//! Places in four bytes each.

ghost use Rattle.std.specs.Prelude.{◌≡◌, ◌+◌, ◌-◌, ◌^◌, ◌<◌, ◌≤◌, ◌++◌, ◌∷◌, [], length};
ghost use Rattle.std.specs.Prelude.{map, replicate, slice_index, IfOk, OnOk};
ghost use Rattle.gapcode.specs.Lists.{IsAscending};
ghost use Rattle.gapcode.specs.Places.{marks_up_to};

use std::alloc::{AllocError, Global};
use std::marker::Model;

/// Ascending places below 2^96: the bits or bytes at which pieces begin that lie one after another.
///
/// A place takes 4 bytes, for its lowest 32 bits. Beside them is a mark of 8 bytes for each 2^32 up to the last place.
#[derive(Drop)]
pub struct Places {
    lows: Vec<u32>,
    marks: Vec<usize>,
}

impl Model for Places {
    ghost use Rattle.std.specs.Prelude.{List, ℕ};
    ghost use Rattle.gapcode.specs.Places.{places_from, AreMarks};

    ghost Value = { List ℕ };

    ghost view = { λ p. places_from 0 p.marks.items p.lows.items };

    ghost invariant = { λ p. AreMarks p.lows.items p.marks.items };
}

fn passed_by(marks: &[usize], i: usize) -> usize
    ensures { result ≡ marks_up_to i marks.now }
{
    marks.iter().filter(|mark| **mark <= i).count()
}

fn put_marks(marks: &mut Vec<usize>, entry: usize, count: u64) -> Result<(), AllocError>
    requires { length marks.old.items ≤ count }
    ensures { OnOk result (marks.new.items
        ≡ marks.old.items ++ replicate (count - length marks.old.items) entry) }
{
    for _ in marks.len() as u64..count {
        marks.push(entry)?;
    }
    Ok(())
}

// The places, with room for `count` more.
fn with_more_room(places: Places, count: usize) -> Result<Places, AllocError>
    ensures { IfOk result (λ p. p ≡ places) }
{
    let Places { mut lows, marks } = places;
    lows.reserve(count)?;
    Ok(Places { lows, marks })
}

impl Places {
    /// No places, with room for `count`.
    pub fn with_room(alloc: Global, count: usize) -> Result<Places, AllocError>
        ensures { IfOk result (λ p. p ≡ []) }
    {
        Ok(Places {
            lows: Vec::with_capacity(alloc, count)?,
            marks: Vec::new(alloc),
        })
    }

    /// The number of places.
    pub fn len(&self) -> usize
        ensures { result ≡ length self.now }
    {
        self.lows.len()
    }

    /// Place i. It looks at all marks; there is none if all places are below 2^32.
    pub fn at(&self, i: usize) -> u128
        requires { i < length self.now }
        ensures { result ≡ slice_index self.now i }
    {
        self.lows[i] as u128 + ((passed_by(&self.marks, i) as u128) << u32::BITS)
    }

    /// One place more, not before the last. The error is that memory was refused, and the places so far are lost.
    pub fn push(self, place: u128) -> Result<Places, AllocError>
        requires order { slice_index self (length self - 1) ≤ place }
        requires small { place < 2 ^ 96 }
        ensures { IfOk result (λ p. p ≡ self ++ place ∷ []) }
    {
        let Places {
            mut lows,
            mut marks,
        } = self;
        put_marks(&mut marks, lows.len(), (place >> u32::BITS) as u64)?;
        lows.push((place % (1 << u32::BITS)) as u32)?;
        Ok(Places { lows, marks })
    }
}

/// The places, and after them the others, each `by` further on. The error is that memory was refused.
pub(crate) fn moved_behind(places: Places, others: &Places, by: u128) -> Result<Places, AllocError>
    requires last { slice_index places (length places - 1) ≤ by }
    requires others { IsAscending (2 ^ 95) 0 others.now }
    requires by { by < 2 ^ 95 }
    ensures { IfOk result (λ p. p ≡ places ++ map (λ place. place + by) others.now) }
{
    let mut joined = with_more_room(places, others.len())?;
    for i in 0..others.len() {
        joined = joined.push(others.at(i) + by)?;
    }
    Ok(joined)
}
