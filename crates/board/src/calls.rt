//! The calls of a history, in their order.

ghost use Rattle.std.specs.Prelude.{◌≡◌, ◌+◌, ◌<◌, ◌≤◌, ◌∷◌, ◌++◌, [], IfErr, IfOk, OnOk};
ghost use Rattle.std.specs.Arc.{arc_value};
ghost use Rattle.ball_model.specs.History.{entry};
ghost use Rattle.board.specs.declared.error.BoardError.TheVariants.{BookFull, Memory};
ghost use Rattle.board.specs.Book.{calls_in, event_of, HasPlace};

use crate::error::BoardError;
use crate::event::{Entry, HistoryEvent};
use std::alloc::Global;
use std::mem;
use std::sync::Arc;

/// How many entries a sheet holds. With sheets no call moves the whole history to make room for one entry more.
const SHEET: usize = 1024;

/// The calls of a history.
#[derive(Drop)]
pub(crate) struct Calls {
    /// Where its sheets come from.
    pub(crate) alloc: Global,
    // how many entries the history has, the opening among them
    entries: u32,
    // full sheets, and the sheet that is written on
    full: Vec<Vec<Entry>>,
    sheet: Vec<Entry>,
}

impl Calls {
    /// None yet.
    pub(crate) fn new(alloc: Global) -> Calls
        ensures entries { result.entries ≡ 1 }
        ensures calls { calls_in result ≡ [] }
    {
        Calls {
            alloc,
            entries: 1,
            full: Vec::new(alloc),
            sheet: Vec::new(alloc),
        }
    }

    /// The number of entries, the opening among them.
    pub(crate) fn entries(&self) -> u32
        ensures { result ≡ self.now.entries }
    {
        self.entries
    }

    /// Makes room for one more.
    pub(crate) fn make_room(&mut self, limit: u32) -> Result<(), BoardError>
        ensures entries { self.new.entries ≡ self.old.entries }
        ensures calls { calls_in self.new ≡ calls_in self.old }
        ensures ok { OnOk result ((self.old.entries < limit) × HasPlace self.new) }
        ensures full { IfErr result (λ e. e ≡ BookFull → limit ≤ self.old.entries) }
        ensures memory { IfErr result (λ e. e ≡ Memory → self.old.entries < limit) }
    {
        if self.entries >= limit {
            return Err(BoardError::BookFull);
        }
        if self.sheet.len() >= SHEET {
            self.full.reserve(1)?;
            let sheet = mem::replace(&mut self.sheet, Vec::new(self.alloc));
            self.full.push_reserved(sheet);
        }
        self.sheet.reserve(1)?;
        Ok(())
    }

    /// Makes room for one more, and shares the batch or snapshot that it is about.
    pub(crate) fn share<T>(&mut self, value: &Arc<T>, limit: u32) -> Result<Arc<T>, BoardError>
        ensures entries { self.new.entries ≡ self.old.entries }
        ensures calls { calls_in self.new ≡ calls_in self.old }
        ensures ok { IfOk result (λ a. (arc_value a ≡ arc_value value.now)
            × (self.old.entries < limit) × HasPlace self.new) }
        ensures full { IfErr result (λ e. e ≡ BookFull → limit ≤ self.old.entries) }
        ensures memory { IfErr result (λ e. e ≡ Memory → self.old.entries < limit) }
    {
        self.make_room(limit)?;
        let copy = Arc::try_clone(value)?;
        Ok(copy)
    }

    /// Notes a call, for which room was made.
    pub(crate) fn note(&mut self, by: u64, event: HistoryEvent)
        requires { HasPlace self.old }
        ensures entries { self.new.entries ≡ self.old.entries + 1 }
        ensures calls { calls_in self.new ≡ calls_in self.old ++ entry by (event_of event) ∷ [] }
    {
        self.sheet.push_reserved(Entry { by, event });
        self.entries += 1;
    }
}
