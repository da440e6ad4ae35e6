//! Marks of the nodes of a run that have ended too early: a table with words for nodes, which threads share without a
//! lock. Who looks at it, by a seat, knows of words that they are marked; no mark is ever taken back.

ghost use Rattle.std.specs.Prelude.{◌≡◌, ◌<◌, [], ◌∷◌, IfOk};
ghost use Rattle.workers.specs.Marks.{with_word};

use atomic_table::{Play, Seat, Table, TableRule};
use std::alloc::{AllocError, Global};
use std::marker::Model;

/// What a seat knows, as clauses see it: the places of words that are marked. No value of it is made.
pub(crate) struct Known {}

impl Model for Known {
    ghost use Rattle.std.specs.Prelude.{ℕ, List, []};

    ghost Value = { List ℕ };

    ghost view = { λ _. [] };
}

/// A word is marked if some seat knows that it is, and no other.
pub(crate) struct Marking;

impl TableRule<(), Known, usize> for Marking {
    ghost use Rattle.std.specs.Prelude.{[]};
    ghost use Rattle.workers.specs.Marks.{AreMarked};

    ghost holds = { AreMarked };

    ghost first = { λ _. [] };
}

/// A seat comes to the table.
pub(crate) struct Comes;

impl Play<(), Known> for Comes {
    ghost use Rattle.workers.specs.Marks.{KnowsNothing};

    ghost then = { KnowsNothing };
}

/// A word is marked.
pub(crate) struct Marks;

impl Play<(), Known> for Marks {
    ghost use Rattle.workers.specs.Marks.{KnowsMark};

    ghost then = { KnowsMark };
}

/// A word is looked at.
pub(crate) struct LooksAt;

impl Play<(), Known> for LooksAt {
    ghost use Rattle.workers.specs.Marks.{KnowsIfMarked};

    ghost then = { KnowsIfMarked };
}

/// What is known of the marks of a table. It has no bytes.
pub(crate) type Look = Seat<(), Known>;

/// Words that are marked one by one, shared without a lock. Contracts see which table it is, and how many words it has.
#[derive(Drop)]
pub(crate) struct Marked {
    table: Table<(), Known, usize, Marking, Global>,
}

impl Model for Marked {
    ghost use Rattle.std.specs.Prelude.{◌≡◌};
    ghost use Rattle.atomic_table.specs.Seated.{TableId};

    ghost Value = { TableId };

    ghost view = { λ m. m.table.shared.table_id };

    ghost invariant = { λ m. m.table.shared.key ≡ m.table.shared.table_id.words };
}

impl Marked {
    /// So many words, none of which is marked. The error is that memory was refused.
    pub(crate) fn new(alloc: Global, words: usize) -> Result<Marked, AllocError>
        ensures { IfOk result (λ marked. marked.words ≡ words) }
    {
        let zeros = vec![in alloc; 0u64; words]?;
        let (table, _first) = Table::of_words(alloc, zeros.as_slice(), &words)?;
        Ok(Marked { table })
    }

    /// Nothing is known.
    pub(crate) fn look(&self) -> Look
        requires { 0 < self.now.words }
        ensures table { result.table_id ≡ self.now }
        ensures known { result.me ≡ ([], []) }
    {
        self.table.shared.load_new_seat::<Comes>(0).1
    }

    /// Marks a word, of which it is known then.
    pub(crate) fn mark(&self, look: &mut Look, word: usize)
        requires word { word < self.now.words }
        requires look { look.old.table_id ≡ self.now }
        ensures look { look.new.table_id ≡ look.old.table_id }
        ensures known { look.new.me ≡ (word ∷ look.old.me.0, look.old.me.1) }
    {
        self.table.shared.store::<Marks>(look, word, 1);
    }

    /// Whether a word is marked, of which it is known if it is.
    pub(crate) fn is_marked(&self, look: &mut Look, word: usize) -> bool
        requires word { word < self.now.words }
        requires look { look.old.table_id ≡ self.now }
        ensures look { look.new.table_id ≡ look.old.table_id }
        ensures known { look.new.me ≡ (with_word result word look.old.me.0, look.old.me.1) }
    {
        self.table.shared.load::<LooksAt>(look, word) > 0
    }
}
