//! Labels that are numbered by first appearance.

ghost use Rattle.std.specs.Prelude.{◌≡◌, ◌^◌, ◌<◌, ◌≤◌, ℕ, List, length, replicate};
ghost use Rattle.std.specs.Prelude.{slice_index_or, [], true, false, IfOk, IfSome, IfNone, IsOk};
ghost use Rattle.std.specs.Prelude.{OnOk, OnErr};
ghost use Rattle.graph.specs.Finding.{StandsAt};
ghost use Rattle.edgelist.specs.Guessing.{AreGuesses, IsShort, IsKey, IsGuess, blank_entry};
ghost use Rattle.edgelist.specs.Guessing.{entry_key, key_of};
ghost use Rattle.graph.specs.Labels.{texts, has_label, with_label};
ghost use Rattle.edgelist.specs.declared.key.TheConstants.{SHORT};

use crate::cut::CutRecord;
use crate::key::{LONG, LabelKey, SHORT};
use crate::row::Row;
use graph::{Labels, find_label, insert_label};
use indexmap::IndexSet;
use std::alloc::{AllocError, Global};
use std::hash::RandomState;
use std::marker::Model;

// The number of entries at first, of 16 bytes each.
const FIRST_ENTRIES: usize = 131_072;

// A table of up to this many entries is mostly in the cache, so there is no need to look ahead.
const IN_CACHE: usize = 524_288;

// From this many entries on a table grows by 2 and not by 4, since its entries then take much
// memory.
const MANY_ENTRIES: usize = 33_554_432;

// The number of entries of a group: they lie side by side, mostly in one line of the cache.
const GROUP: usize = 4;

// A label's key, and the label's number.
#[derive(Clone, Copy)]
struct LabelGuess {
    low: u64,
    high: u32,
    number: u32,
}

// An entry of no label: the second number of a key is never 0.
const BLANK: LabelGuess = LabelGuess {
    low: 0,
    high: 0,
    number: 0,
};

/// Labels, numbered from 0 by first appearance.
///
/// Beside the set of labels is a table of guesses: a label has one group of entries there, each of
/// which holds a label's key and number. A short label that has the key of an entry is found by one
/// access to memory in place of the set's three. A long one is held against the label with that
/// number, and the set's way of mixing its bytes is saved.
#[derive(Drop)]
pub(crate) struct Numbering {
    labels: IndexSet<Vec<u8>, RandomState>,
    entries: Vec<LabelGuess>,
}

impl Model for Numbering {
    ghost use Rattle.std.specs.Prelude.{List, ℕ};
    ghost use Rattle.edgelist.specs.Guessing.{AreGuesses};
    ghost use Rattle.graph.specs.Labels.{texts};

    ghost Value = { List (List ℕ) };

    ghost view = { λ n. texts n.labels };

    ghost invariant = { λ n. AreGuesses (texts n.labels) n.entries.items };
}

impl LabelGuess {
    fn key(self) -> LabelKey
        ensures { result ≡ entry_key self }
    {
        LabelKey {
            low: self.low,
            high: self.high,
        }
    }
}

// The number that at most eight decimal digits say, whose bytes are those of `text`. Each two
// digits become one number, then each four, and then all.
fn decimal(text: u64) -> u64 {
    let tens = (text >> 8) & 0x000f_000f_000f_000f;
    let twos = tens * 10 + (text & 0x000f_000f_000f_000f);
    let hundreds = (twos >> 16) & 0x0000_00ff_0000_00ff;
    let fours = hundreds * 100 + (twos & 0x0000_00ff_0000_00ff);
    (fours >> 32) * 10_000 + (fours & 0xffff_ffff)
}

// A number by which a key's group is chosen: any will do. Groups of labels that are numbers of at
// most 8 digits lie near one another if the numbers do: edges often lead to labels near by.
// Multiples of a power of 2 are not all in one group. The others are spread.
fn spot(key: LabelKey) -> u64 {
    if key.high < 0x100 && key.low & 0x4040_4040_4040_4040 == 0 {
        let number = decimal(key.low);
        return number.wrapping_add(number >> 12);
    }
    let mixed = (key.low ^ u64::from(key.high).wrapping_mul(0xd6e8_feb8_6659_fd93)).wrapping_mul(
        0x9e37_79b9_7f4a_7c15,
    );
    mixed >> 32
}

// Where the group of a key begins among 2^k entries.
fn group(key: LabelKey, count: usize) -> usize {
    (spot(key) as usize & count.wrapping_sub(1)) / GROUP * GROUP
}

// The number of the short label with this key, if an entry of its group is that label's.
fn guess(entries: &[LabelGuess], key: LabelKey) -> Option<usize>
    ensures { (labels : List (List ℕ)) (label : List ℕ) → AreGuesses labels entries.now
        → IsShort label → key ≡ key_of label → IfSome result (StandsAt labels label) }
{
    let start = group(key, entries.len());
    for i in start..entries.len().min(start.saturating_add(GROUP)) {
        if entries[i].key() == key {
            return Some(entries[i].number as usize);
        }
    }
    None
}

// Whether the set has a label with this number.
fn is_numbered(labels: &IndexSet<Vec<u8>, RandomState>, label: &[u8], number: usize) -> bool
    ensures { result ≡ true → StandsAt (texts labels.now) label.now number }
{
    match labels.get_index(number) {
        Some(known) => known.as_slice() == label,
        None => false,
    }
}

// The number of a long label, if an entry of its group leads to it.
fn guess_long(
    labels: &IndexSet<Vec<u8>, RandomState>,
    entries: &[LabelGuess],
    label: &[u8],
    key: LabelKey,
) -> Option<usize>
    ensures { IfSome result (StandsAt (texts labels.now) label.now) }
{
    let start = group(key, entries.len());
    for i in start..entries.len().min(start.saturating_add(GROUP)) {
        if entries[i].key() == key && is_numbered(labels, label, entries[i].number as usize) {
            return Some(entries[i].number as usize);
        }
    }
    None
}

// Whether the label of a key may be new: the first entry of its group is blank. This is a guess. A
// label that is known may be taken for new, if its entry was lost; a new one is not taken for new
// if another label's entry is the first of its group.
fn may_be_new(entries: &[LabelGuess], key: LabelKey) -> bool {
    let place = group(key, entries.len());
    key.high > 0 && place < entries.len() && entries[place].high == 0
}

// How many of a row's first two fields may be new labels: a guess, as each of them is.
fn count_new_in(entries: &[LabelGuess], row: &Row) -> usize
    ensures { result ≤ 2 }
{
    let source = may_be_new(entries, row.source_key());
    let target = may_be_new(entries, row.target_key());
    usize::from(source) + usize::from(target)
}

// How many labels of these rows may be new: a guess too, in which a label that is there twice may
// count twice.
fn count_new(entries: &[LabelGuess], rows: &[Row]) -> usize {
    let mut new = 0usize;
    for row in rows {
        new = new.saturating_add(count_new_in(entries, row));
    }
    new
}

// How many labels of these cut records may be new, as above.
fn count_new_cut(entries: &[LabelGuess], records: &[CutRecord]) -> usize {
    let mut new = 0usize;
    for record in records {
        let source = may_be_new(entries, record.source_key());
        let target = may_be_new(entries, record.target_key());
        new = new.saturating_add(usize::from(source) + usize::from(target));
    }
    new
}

// The place in a group for one more entry: that of its first blank one, or else its first.
fn entry_place(entries: &[LabelGuess], start: usize) -> usize {
    for i in start..entries.len().min(start.saturating_add(GROUP)) {
        if entries[i].high == 0 {
            return i;
        }
    }
    start
}

// Puts an entry into its group.
fn put(entries: &mut [LabelGuess], entry: LabelGuess)
    ensures { (labels : List (List ℕ)) → AreGuesses labels entries.old → IsGuess labels entry
        → AreGuesses labels entries.new }
{
    let place = entry_place(entries, group(entry.key(), entries.len()));
    if place < entries.len() {
        entries[place] = entry;
    }
}

// Puts the entries of a smaller table into theirs.
fn put_entries(entries: &mut [LabelGuess], smaller: &[LabelGuess])
    ensures { (labels : List (List ℕ)) → AreGuesses labels smaller.now →
        AreGuesses labels entries.old → AreGuesses labels entries.new }
{
    for entry in smaller {
        if entry.high > 0 {
            put(entries, *entry);
        }
    }
}

// Puts a label's key and number into an entry of its group.
fn remember(entries: &mut [LabelGuess], key: LabelKey, number: usize)
    ensures { (labels : List (List ℕ)) (label : List ℕ) → AreGuesses labels entries.old
        → IsShort label → key ≡ key_of label → StandsAt labels label number
        → AreGuesses labels entries.new }
{
    let Ok(number) = u32::try_from(number) else {
        return;
    };
    let entry = LabelGuess {
        low: key.low,
        high: key.high,
        number,
    };
    put(entries, entry);
}

// Puts the key of a long label and a number into an entry of its group, whatever label that is: it
// leads to no short one.
fn remember_long(entries: &mut [LabelGuess], key: LabelKey, number: usize)
    ensures { (labels : List (List ℕ)) → AreGuesses labels entries.old →
        AreGuesses labels entries.new }
{
    let Ok(number) = u32::try_from(number) else {
        return;
    };
    let entry = LabelGuess {
        low: key.low,
        high: key.high,
        number,
    };
    if entry.high % 256 == LONG {
        put(entries, entry);
    }
}

// How many entries the table has that takes the place of one with `count`.
fn larger(count: usize) -> usize {
    if count < MANY_ENTRIES {
        count.saturating_mul(4)
    } else {
        count.saturating_mul(2)
    }
}

// Entries that hold no label.
fn blank(alloc: Global, count: usize) -> Result<Vec<LabelGuess>, AllocError>
    ensures { IfOk result (λ entries. entries.items ≡ replicate count blank_entry) }
{
    vec![in alloc; BLANK; count]
}

impl Numbering {
    /// No labels.
    pub(crate) fn new(alloc: Global, state: RandomState) -> Result<Numbering, AllocError>
        ensures { IfOk result (λ n. n ≡ []) }
    {
        let labels = IndexSet::with_hasher(alloc, state);
        let entries = blank(alloc, FIRST_ENTRIES)?;
        Ok(Numbering { labels, entries })
    }

    pub(crate) fn len(&self) -> usize
        ensures { result ≡ length self.now }
    {
        self.labels.len()
    }

    /// The number of a label, which takes the next one if it is new. For a label that is known no
    /// memory is taken.
    pub(crate) fn number(
        &mut self,
        alloc: Global,
        label: &[u8],
        key: LabelKey,
    ) -> Result<usize, AllocError>
        requires { IsKey label.now key }
        ensures within { IfOk result (λ i. i < length self.new) }
        ensures stands { IfOk result (λ i. slice_index_or self.new i [] ≡ label.now) }
        ensures labels { OnOk result (self.new ≡ with_label self.old label.now) }
        ensures known { has_label self.old label.now ≡ true → IsOk result }
        ensures kept { OnErr result (self.new ≡ self.old) }
    {
        if label.len() > SHORT {
            return self.number_long(alloc, label, key);
        }
        match guess(&self.entries, key) {
            Some(number) => Ok(number),
            None => self.look_up_short(alloc, label, key),
        }
    }

    // The number of a short label by the set, which its key then leads to.
    fn look_up_short(
        &mut self,
        alloc: Global,
        label: &[u8],
        key: LabelKey,
    ) -> Result<usize, AllocError>
        requires short { IsShort label.now }
        requires key { key ≡ key_of label.now }
        ensures found { IfOk result (StandsAt self.new label.now) }
        ensures labels { OnOk result (self.new ≡ with_label self.old label.now) }
        ensures known { has_label self.old label.now ≡ true → IsOk result }
        ensures kept { OnErr result (self.new ≡ self.old) }
    {
        let number = self.look_up(alloc, label)?;
        remember(&mut self.entries, key, number);
        Ok(number)
    }

    // The number of a long label, by the entry that its key leads to or else by the set.
    fn number_long(
        &mut self,
        alloc: Global,
        label: &[u8],
        key: LabelKey,
    ) -> Result<usize, AllocError>
        ensures found { IfOk result (StandsAt self.new label.now) }
        ensures labels { OnOk result (self.new ≡ with_label self.old label.now) }
        ensures known { has_label self.old label.now ≡ true → IsOk result }
        ensures kept { OnErr result (self.new ≡ self.old) }
    {
        match guess_long(&self.labels, &self.entries, label, key) {
            Some(number) => Ok(number),
            None => self.look_up_long(alloc, label, key),
        }
    }

    // The number of a long label by the set, which its key then leads to.
    fn look_up_long(
        &mut self,
        alloc: Global,
        label: &[u8],
        key: LabelKey,
    ) -> Result<usize, AllocError>
        ensures found { IfOk result (StandsAt self.new label.now) }
        ensures labels { OnOk result (self.new ≡ with_label self.old label.now) }
        ensures known { has_label self.old label.now ≡ true → IsOk result }
        ensures kept { OnErr result (self.new ≡ self.old) }
    {
        let number = self.look_up(alloc, label)?;
        remember_long(&mut self.entries, key, number);
        Ok(number)
    }

    // The number of a label by the set, which it is put into if it is new.
    fn look_up(&mut self, alloc: Global, label: &[u8]) -> Result<usize, AllocError>
        ensures found { IfOk result (StandsAt self.new label.now) }
        ensures labels { OnOk result (self.new ≡ with_label self.old label.now) }
        ensures known { has_label self.old label.now ≡ true → IsOk result }
        ensures kept { OnErr result (self.new ≡ self.old) }
    {
        match find_label(&self.labels, label) {
            Some(number) => Ok(number),
            None => self.insert_new(alloc, label),
        }
    }

    // Puts a label into the set. If the table of guesses is full it grows first, unless memory is
    // refused: then some guesses are lost, and those labels are looked up in the set.
    fn insert_new(&mut self, alloc: Global, label: &[u8]) -> Result<usize, AllocError>
        ensures found { IfOk result (StandsAt self.new label.now) }
        ensures labels { OnOk result (self.new ≡ with_label self.old label.now) }
        ensures kept { OnErr result (self.new ≡ self.old) }
    {
        let _room = self.make_room(alloc, 1);
        insert_label(alloc, &mut self.labels, label)
    }

    /// Looks at the first entry for each label of these rows, and makes room for as many as have a
    /// blank one there. No look waits for another. If memory is refused, the table is left as it
    /// is.
    pub(crate) fn look_ahead(&mut self, alloc: Global, rows: &[Row])
        ensures { self.new ≡ self.old }
    {
        if self.entries.len() > IN_CACHE {
            let new = count_new(&self.entries, rows);
            let _room = self.make_room(alloc, new);
        }
    }

    /// Makes a larger table for the labels of records that were cut, if they might not fit.
    pub(crate) fn look_ahead_cut(&mut self, alloc: Global, records: &[CutRecord])
        ensures { self.new ≡ self.old }
    {
        if self.entries.len() > IN_CACHE {
            let new = count_new_cut(&self.entries, records);
            let _room = self.make_room(alloc, new);
        }
    }

    // Makes a larger table, if there would be more labels than entries with `new` ones more.
    fn make_room(&mut self, alloc: Global, new: usize) -> Result<(), AllocError>
        ensures { self.new ≡ self.old }
    {
        let count = self.entries.len();
        if self.len().saturating_add(new) > count {
            let mut entries = blank(alloc, larger(count))?;
            put_entries(&mut entries, &self.entries);
            self.entries = entries;
        }
        Ok(())
    }

    /// The labels in one piece of memory. The guesses are dropped before it is asked for.
    pub(crate) fn into_labels(self, alloc: Global) -> Result<Labels, AllocError>
        ensures { IfOk result (λ labels. labels ≡ self) }
    {
        let Numbering { labels, entries } = self;
        drop(entries);
        Labels::of(alloc, labels.as_slice())
    }
}
