//! Lists of predecessors as gap codes.

ghost use Rattle.std.specs.Prelude.{◌≡◌, ◌^◌, ◌<◌, ◌≤◌, length, slice_index_or, []};
ghost use Rattle.std.specs.List.{sum_by};
ghost use Rattle.std.specs.Iterator.{YieldsFirst, item_count};

use gapcode::Elements;
use std::marker::Model;

/// The predecessors of a vertex: ascending, each once. It takes no memory.
#[derive(Drop)]
pub struct Preds<'a> {
    elements: Elements<'a>,
}

impl<'a> Model for Preds<'a> {
    ghost use Rattle.std.specs.Prelude.{List, ℕ};

    ghost Value = { List ℕ };

    ghost view = { λ preds. preds.elements };
}

impl<'a> Preds<'a> {
    pub(crate) fn of(elements: Elements<'a>) -> Preds<'a>
        ensures { result ≡ elements.entry }
    {
        Preds { elements }
    }
}

impl<'a> Iterator for Preds<'a> {
    type Item = u32;

    ghost next_gives = { YieldsFirst (λ preds. preds) };

    ghost remaining = { item_count (λ preds. preds) };

    fn next(&mut self) -> Option<u32> {
        self.elements.next()
    }
}

/// Lists of predecessors, and how many these are together.
#[derive(Drop)]
pub(crate) struct PredLists {
    codes: gapcode::Lists,
    total: usize,
}

impl Model for PredLists {
    ghost use Rattle.std.specs.Prelude.{◌≡◌, ◌^◌, ◌<◌, List, ℕ, length};
    ghost use Rattle.std.specs.List.{sum_by};

    ghost Value = { List (List ℕ) };

    ghost view = { λ lists. lists.codes };

    ghost invariant = { λ lists.
        (lists.total ≡ sum_by length lists.codes) × (lists.total < 2 ^ 32) };
}

impl PredLists {
    /// These lists, which have `total` elements together.
    pub(crate) fn of(codes: gapcode::Lists, total: usize) -> PredLists
        requires total { total ≡ sum_by length codes }
        requires few { total < 2 ^ 32 }
        ensures { result ≡ codes }
    {
        PredLists { codes, total }
    }

    pub(crate) fn len(&self) -> usize
        ensures count { result ≡ length self.now }
        ensures few { sum_by length self.now < 2 ^ 32 }
    {
        let _total = self.total;
        self.codes.len()
    }

    /// The number of elements of all lists.
    pub(crate) fn total(&self) -> usize
        ensures value { result ≡ sum_by length self.now }
        ensures few { result < 2 ^ 32 }
    {
        self.total
    }

    /// A list between these two, before which about half of the codes between them stand.
    pub(crate) fn middle(&self, from: usize, to: usize) -> usize
        requires order { from ≤ to }
        requires inside { to ≤ length self.now }
        ensures first { from ≤ result }
        ensures last { result ≤ to }
    {
        self.codes.middle(from, to)
    }

    pub(crate) fn list(&self, i: usize) -> Preds<'_>
        requires { i < length self.now }
        ensures { result ≡ slice_index_or self.now i [] }
    {
        Preds::of(self.codes.list(i))
    }
}
