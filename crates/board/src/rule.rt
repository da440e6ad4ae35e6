//! The table of a board: word 0 is the length of the history, word 1 the next ticket, word 2 the ticket that is served,
//! and the one slot has the book. Each step is one of the moves below.

use crate::book::Book;
use atomic_table::{Join, Play, Seat, Split, Table, TableRule};
use std::alloc::Global;
use std::marker::Model;
use std::snapshot::Snapshot as Seen;

/// The word that is the length of the history.
pub(crate) const LENGTH: usize = 0;

/// The word that is the next ticket.
pub(crate) const TICKETS: usize = 1;

/// The word that is the ticket that is served.
pub(crate) const SERVING: usize = 2;

/// What a seat knows, as clauses see it. No value of it is made.
pub(crate) struct Knowledge {}

impl Model for Knowledge {
    ghost use Rattle.board.specs.View.{View, spent_view};

    ghost Value = { View };

    ghost view = { λ _. spent_view };
}

/// There is one legal history, and what each seat knows fits it.
pub(crate) struct Lock;

impl TableRule<Option<Book>, Knowledge, (Seen<Book>, u32)> for Lock {
    ghost use Rattle.board.specs.Rule.{IsLocked, first_view};

    ghost holds = { λ _. IsLocked };

    ghost first = { λ k. first_view k.0.value k.1 };
}

/// A ticket is drawn.
pub(crate) struct DrawsTicket;

impl Play<Option<Book>, Knowledge> for DrawsTicket {
    ghost use Rattle.board.specs.Rule.{DrewTicket};

    ghost then = { DrewTicket };
}

/// The ticket that is served is looked at.
pub(crate) struct LooksAtServing;

impl Play<Option<Book>, Knowledge> for LooksAtServing {
    ghost use Rattle.board.specs.Rule.{LookedAtServing};

    ghost then = { LookedAtServing };
}

/// The length is written.
pub(crate) struct WritesLength;

impl Play<Option<Book>, Knowledge> for WritesLength {
    ghost use Rattle.board.specs.Rule.{WroteLength};

    ghost then = { WroteLength };
}

/// The next ticket is served.
pub(crate) struct RaisesServing;

impl Play<Option<Book>, Knowledge> for RaisesServing {
    ghost use Rattle.board.specs.Rule.{RaisedServing};

    ghost then = { RaisedServing };
}

/// The length is looked at.
pub(crate) struct LooksAtLength;

impl Play<Option<Book>, Knowledge> for LooksAtLength {
    ghost use Rattle.board.specs.Rule.{LookedAtLength};

    ghost then = { LookedAtLength };
}

/// A seat gives some of its numbers to a new one.
pub(crate) struct GivesNumbers;

impl Split<Knowledge> for GivesNumbers {
    ghost use Rattle.board.specs.Rule.{keeper, newcomer};

    ghost left = { keeper };

    ghost right = { newcomer };
}

/// A seat gets to know what another has seen, which ends.
pub(crate) struct TellsOfEnded;

impl Join<Knowledge> for TellsOfEnded {
    ghost use Rattle.board.specs.Rule.{with_news};
    ghost use Rattle.board.specs.View.{spent_view};

    ghost both = { with_news };

    ghost spent = { spent_view };
}

pub(crate) type BoardTable = Table<Option<Book>, Knowledge, (Seen<Book>, u32), Lock, Global>;

pub(crate) type Pass = Seat<Option<Book>, Knowledge>;
