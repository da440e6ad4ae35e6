//! Lists of ascending numbers in one piece of memory.

ghost use Rattle.std.specs.Prelude.{◌≡◌, ◌+◌, ◌*◌, ◌<◌, ◌≤◌, ◌++◌, ◌∷◌, [], ℕ, Bool, List, length};
ghost use Rattle.std.specs.Prelude.{map, slice_index_or, take, IfOk, OnOk, Ok};
ghost use Rattle.std.specs.List.{flat_map, All};
ghost use Rattle.gapcode.specs.Bits.{bits_from};
ghost use Rattle.gapcode.specs.Lists.{beyond, AscendsFrom, AreAscending, IsSpelling, AreSpelled};
ghost use Rattle.gapcode.specs.Lists.{BeginsAt, BeginWith, GivesOrMemory, all_of, list_bits};
ghost use Rattle.gapcode.specs.Index.{starts_from};

use crate::check::{check, pass_list};
use crate::elements::Elements;
use crate::error::CodeError;
use crate::places::{Places, moved_behind};
use crate::writer::{BitWriter, put_bits, put_gamma};
use std::alloc::{AllocError, Global};
use std::marker::Model;

/// How many numbers of 32 bits there are.
const NUMBERS: u64 = 1 << u32::BITS;

/// Lists of strictly ascending numbers, as gap codes in one piece of memory.
///
/// A list takes one code for its length, one for its first element and one for the gap to each further one; a code
/// of x takes 2 log2 x + 1 bits (Elias 1975). Beside these bits a list takes 4 bytes for the place where it begins,
/// so that any list is found at once.
#[derive(Drop)]
pub struct Lists {
    bytes: Vec<u8>,
    places: Places,
}

impl Model for Lists {
    ghost use Rattle.std.specs.Prelude.{List, ℕ};
    ghost use Rattle.gapcode.specs.Bits.{bits_of};
    ghost use Rattle.gapcode.specs.Index.{lists_of, IsStored};

    ghost Value = { List (List ℕ) };

    ghost view = { λ lists. lists_of (bits_of lists.bytes.items) lists.places };

    ghost invariant = { λ lists. IsStored lists.bytes.items lists.places };
}

impl Lists {
    /// These lists, in their order. The error is that memory was refused.
    ///
    /// For a library's user: the program does not call it.
    pub fn build(alloc: Global, lists: &[Vec<u32>]) -> Result<Lists, AllocError>
        requires { All (λ list. AscendsFrom 0 list.items) lists.now }
        ensures { IfOk result (λ built. built ≡ map (λ list. list.items) lists.now) }
    {
        let mut builder = ListsBuilder::with_room(alloc, lists.len())?;
        for list in lists {
            builder = builder.push(list)?;
        }
        Ok(builder.finish())
    }

    /// The number of lists.
    pub fn len(&self) -> usize
        ensures { result ≡ length self.now }
    {
        self.places.len()
    }

    /// List i, which is found without a look at the others.
    pub fn list(&self, i: usize) -> Elements<'_>
        requires { i < length self.now }
        ensures { result ≡ slice_index_or self.now i [] }
    {
        Elements::at(&self.bytes, self.places.at(i))
    }

    /// Where work on lists `from` to `to - 1` is cut in two: about half of their bits come before this list. It looks
    /// at as many places as the number of these lists has binary digits.
    pub fn middle(&self, from: usize, to: usize) -> usize
        requires order { from ≤ to }
        requires inside { to ≤ length self.now }
        ensures first { from ≤ result }
        ensures last { result ≤ to }
    {
        middle_of(&self.places, from, to)
    }

    /// How many bits the first `count` lists take. It looks at one place, and at the last list if they are all.
    pub fn bits_of_first(&self, count: usize) -> u128
        requires { count ≤ length self.now }
        ensures { result ≡ length (flat_map list_bits (take count self.now)) }
    {
        if count < self.places.len() {
            return self.places.at(count);
        }
        bits_in(self)
    }

    /// The bytes that spell the lists. For a library's user: the program does not call it.
    pub fn bytes(&self) -> &[u8]
        ensures spelling { IsSpelling result.now self.now }
        ensures ascend { AreAscending beyond self.now }
    {
        &self.bytes
    }

    /// The `count` lists that these bytes spell, of numbers below the bound.
    ///
    /// The first fault from the left is answered: `Ended`, `TooLong` and `Range` by the place of reading, then
    /// `Padding`, `Trailing` and, if all checks passed, `Memory`. For a library's user: the program does not call it.
    pub fn read(alloc: Global, bytes: &[u8], count: usize, bound: u32) -> Result<Lists, CodeError>
        // What is found is `count` lists of numbers below the bound, and the bytes spell them.
        ensures found { IfOk result (λ lists. AreSpelled bound count bytes.now lists) }
        // If the bytes spell such lists, those are found, or memory was refused.
        ensures only { (lists : List (List ℕ)) → AreSpelled bound count bytes.now lists
            → GivesOrMemory result (Ok lists) }
        // Which refusal it is.
        ensures exact { GivesOrMemory result (all_of bound count bytes.now) }
    {
        checked(alloc, bytes, count, bound)
    }
}

// The first of the places between these two that is not before the middle of the first and the last one.
fn middle_of(places: &Places, from: usize, to: usize) -> usize
    requires order { from ≤ to }
    requires inside { to ≤ length places.now }
    ensures first { from ≤ result }
    ensures last { result ≤ to }
{
    if from == to {
        return from;
    }
    let half = places.at(from) / 2 + places.at(to - 1) / 2;
    let mut low = from;
    let mut high = to - 1;
    while low < high {
        let mid = low + (high - low) / 2;
        if places.at(mid) < half {
            low = mid + 1;
        } else {
            high = mid;
        }
    }
    low
}

fn checked(alloc: Global, bytes: &[u8], count: usize, bound: u32) -> Result<Lists, CodeError>
    ensures { GivesOrMemory result (all_of bound count bytes.now) }
{
    check(bytes, count, bound)?;
    Ok(indexed(alloc, bytes, count)?)
}

// The place after a list that is there.
fn list_end(bytes: &[u8], place: u128) -> u128
    requires inside { place ≤ 8 * length bytes.now }
    ensures end { (x : List ℕ × List Bool) → BeginsAt bytes.now place x
        → result ≡ place + length (list_bits x.0) }
    ensures rest { (x : List ℕ × List Bool) → BeginsAt bytes.now place x
        → bits_from bytes.now result ≡ x.1 }
    ensures inside { result ≤ 8 * length bytes.now }
{
    match pass_list(bytes, place, NUMBERS) {
        Ok(end) => end,
        Err(_) => place,
    }
}

fn bits_in(lists: &Lists) -> u128
    ensures { result ≡ length (flat_map list_bits lists.now) }
{
    let count = lists.len();
    if count == 0 {
        return 0;
    }
    list_end(&lists.bytes, lists.places.at(count - 1))
}

// Where each of the lists begins that the bytes have.
fn places(alloc: Global, bytes: &[u8], count: usize) -> Result<Places, AllocError>
    requires { (x : List (List ℕ) × List Bool) × BeginWith bytes.now count x }
    ensures { (x : List (List ℕ) × List Bool) → BeginWith bytes.now count x
        → IfOk result (λ places. places ≡ starts_from 0 x.0) }
{
    let mut places = Places::with_room(alloc, count)?;
    let mut place = 0;
    for _ in 0..count {
        places = places.push(place)?;
        place = list_end(bytes, place);
    }
    Ok(places)
}

fn indexed(alloc: Global, bytes: &[u8], count: usize) -> Result<Lists, AllocError>
    requires { (lists : List (List ℕ)) × AreSpelled beyond count bytes.now lists }
    ensures { (lists : List (List ℕ)) → AreSpelled beyond count bytes.now lists
        → IfOk result (λ read. read ≡ lists) }
{
    let places = places(alloc, bytes, count)?;
    let bytes = Vec::from_slice(alloc, bytes)?;
    Ok(Lists { bytes, places })
}

/// Lists on their way into codes, one after the other.
///
/// The lists need not be in memory at once: each is given by itself.
#[derive(Drop)]
pub struct ListsBuilder {
    writer: BitWriter,
    places: Places,
}

impl Model for ListsBuilder {
    ghost use Rattle.std.specs.Prelude.{List, ℕ, []};
    ghost use Rattle.gapcode.specs.Index.{lists_of, IsIndex};

    ghost Value = { List (List ℕ) };

    ghost view = { λ builder. lists_of builder.writer builder.places };

    ghost invariant = { λ builder. IsIndex builder.writer [] builder.places };
}

fn put_list(writer: &mut BitWriter, list: &[u32]) -> Result<(), AllocError>
    requires { AscendsFrom 0 list.now }
    ensures { OnOk result (writer.new ≡ writer.old ++ list_bits list.now) }
{
    put_gamma(writer, list.len() as u64 + 1)?;
    let mut least = 0;
    for x in list {
        let next = *x as u64 + 1;
        put_gamma(writer, next - least)?;
        least = next;
    }
    Ok(())
}

impl ListsBuilder {
    /// No lists, with room for the places of `count`.
    pub fn with_room(alloc: Global, count: usize) -> Result<ListsBuilder, AllocError>
        ensures { IfOk result (λ builder. builder ≡ []) }
    {
        Ok(ListsBuilder {
            writer: BitWriter::new(alloc),
            places: Places::with_room(alloc, count)?,
        })
    }

    /// One list more. The error is that memory was refused, and the lists so far are lost.
    pub fn push(self, list: &[u32]) -> Result<ListsBuilder, AllocError>
        requires { AscendsFrom 0 list.now }
        ensures { IfOk result (λ builder. builder ≡ self ++ list.now ∷ []) }
    {
        let ListsBuilder { mut writer, places } = self;
        let places = places.push(writer.len())?;
        put_list(&mut writer, list)?;
        Ok(ListsBuilder { writer, places })
    }

    /// Lists after those that are there: their codes are copied as they are, eight bytes at a time. The error is that
    /// memory was refused, and the lists so far are lost.
    pub fn append(self, lists: &Lists) -> Result<ListsBuilder, AllocError>
        ensures { IfOk result (λ builder. builder ≡ self ++ lists.now) }
    {
        let ListsBuilder { mut writer, places } = self;
        let places = moved_behind(places, &lists.places, writer.len())?;
        put_bits(&mut writer, &lists.bytes, bits_in(lists))?;
        Ok(ListsBuilder { writer, places })
    }

    /// The lists. It takes no memory.
    pub fn finish(self) -> Lists
        ensures { result ≡ self }
    {
        Lists {
            bytes: self.writer.finish(),
            places: self.places,
        }
    }
}
