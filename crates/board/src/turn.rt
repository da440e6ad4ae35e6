//! The turn of a call: a ticket is drawn, the book is taken once the ticket is served, and given back.
//!
//! A ticket is drawn only if no other caller waits with one, so that mostly two are out: who is served, and who is
//! next. The others wait before they draw, when they hold up nobody, however late they wake.

ghost use Rattle.std.specs.Prelude.{◌≡◌, ◌%◌, ◌^◌, ◌∷◌, [], None, Some};
ghost use Rattle.ball_model.specs.History.{HistoryEvent, entries_of};
ghost use Rattle.ball_model.specs.Caller.{Called, Extends};
ghost use Rattle.board.specs.Noted.{IsNext, IsNoted};
ghost use Rattle.board.specs.Rule.{GoesOn, HasNews, at_look, with_ticket, at_turn, after_turn};
ghost use Rattle.board.specs.Turn.{GoesOnBySeat, IsAtTable, IsIdle, IsSameSeat, IsSized};
ghost use Rattle.board.specs.Inside.{GrantFits, IsTurn, caller_of};

use crate::book::Book;
use crate::rule::{
    BoardTable, DrawsTicket, LENGTH, LooksAtLength, LooksAtServing, Pass, RaisesServing, SERVING,
    TICKETS, WritesLength,
};
use crate::seat::Grant;
use std::hint;
use std::snapshot::Snapshot as Seen;
use std::sync::Wait;
use std::time::Duration;

/// How often a caller looks before it sleeps.
const LOOKS: u32 = 64;

/// How often a caller sleeps at most before it draws its ticket.
const SLEEPS: u32 = 1000;

/// How long it sleeps first, in microseconds.
const SHORTEST: u64 = 50;

/// How often the next sleep is twice as long.
const DOUBLINGS: u32 = 4;

/// Looks at the length.
pub(crate) fn look_at_length(table: &BoardTable, pass: &mut Pass) -> u64
    requires table { IsAtTable pass.old.table_id table.now.shared.table_id }
    requires idle { IsIdle pass.old.me }
    ensures same { (pass.new.table_id ≡ pass.old.table_id) × (pass.new.id ≡ pass.old.id) }
    ensures length { result ≡ entries_of pass.new.me.0.seen }
    ensures seen { GoesOn pass.old.me.0 pass.new.me.0.seen
        × (pass.new.me ≡ (at_look pass.old.me.0 pass.new.me.0.seen, [])) }
    ensures told { HasNews pass.old.me.0 pass.new.me.0.seen }
{
    table.shared.load::<LooksAtLength>(pass, LENGTH)
}

// The next ticket, if one caller is served and another waits with a ticket.
fn look_at_queue(table: &BoardTable) -> Option<u64>
    requires table { IsSized table.now.shared.table_id }
{
    let serving = table.shared.peek(SERVING);
    let next = table.shared.peek(TICKETS);
    (next.wrapping_sub(serving) > 1).then_some(next)
}

// The half of a word by which a thread that is about to sleep sees whether the word has changed.
fn low_half(word: u64) -> u32 {
    (word & 0xffff_ffff) as u32
}

// Lets time pass after a look at the queue: a moment after the first looks, and then a sleep, longer each time up to
// 800 microseconds. It is short if a ticket is drawn just then.
fn pause_outside<R: Wait>(rt: &R, table: &BoardTable, looks: u32, next: u64)
    requires table { IsSized table.now.shared.table_id }
{
    if looks < LOOKS {
        hint::spin_loop();
        return;
    }
    let micros = SHORTEST << (looks - LOOKS).min(DOUBLINGS);
    table
        .shared
        .park_timeout(rt, TICKETS, low_half(next), Duration::from_micros(micros));
}

// Waits until no other caller waits with a ticket, though at most for `SLEEPS` sleeps.
fn wait_outside<R: Wait>(rt: &R, table: &BoardTable)
    requires table { IsSized table.now.shared.table_id }
{
    for looks in 0..LOOKS + SLEEPS {
        let Some(next) = look_at_queue(table) else {
            return;
        };
        pause_outside(rt, table, looks, next);
    }
}

// Draws a ticket.
fn draw(table: &BoardTable, pass: &mut Pass) -> u64
    requires table { IsAtTable pass.old.table_id table.now.shared.table_id }
    requires idle { IsIdle pass.old.me }
    ensures same { (pass.new.table_id ≡ pass.old.table_id) × (pass.new.id ≡ pass.old.id) }
    ensures drew { pass.new.me ≡ (with_ticket pass.old.me.0 pass.new.me.0.ticket, []) }
    ensures ticket { result ≡ pass.new.me.0.ticket % 2 ^ 64 }
{
    table.shared.fetch_add::<DrawsTicket>(pass, TICKETS, 1)
}

// Waits until it is the seat's turn.
fn wait<R: Wait>(rt: &R, table: &BoardTable, pass: &mut Pass, ticket: u64)
    requires table { IsAtTable pass.old.table_id table.now.shared.table_id }
    requires waits { (pass.old.me.0.stage ≡ 1) × (pass.old.me.1 ≡ [])
        × (ticket ≡ pass.old.me.0.ticket % 2 ^ 64) }
    ensures same { (pass.new.table_id ≡ pass.old.table_id) × (pass.new.id ≡ pass.old.id) }
    ensures seen { GoesOn pass.old.me.0 pass.new.me.0.seen }
    ensures turn { pass.new.me
        ≡ (at_turn pass.old.me.0 pass.new.me.0.seen, (0, Some pass.new.me.0.seen) ∷ []) }
{
    let mut looks = 0;
    for _ in rt.forever() {
        let serving = table.shared.load::<LooksAtServing>(pass, SERVING);
        if serving == ticket {
            return;
        }
        looks = pause(rt, table, looks, serving);
    }
    unreachable!()
}

// Lets a moment pass after one of the first looks, and counts one more; later it sleeps until another is served.
fn pause<R: Wait>(rt: &R, table: &BoardTable, looks: u32, serving: u64) -> u32
    requires table { IsSized table.now.shared.table_id }
{
    if looks < LOOKS {
        hint::spin_loop();
        return looks + 1;
    }
    table.shared.park(rt, SERVING, low_half(serving));
    looks
}

// Takes the book, once it is the seat's turn.
fn take_book<R: Wait>(rt: &R, table: &BoardTable, pass: &mut Pass) -> Book
    requires table { IsAtTable pass.old.table_id table.now.shared.table_id }
    requires idle { IsIdle pass.old.me }
    ensures same { (pass.new.table_id ≡ pass.old.table_id) × (pass.new.id ≡ pass.old.id) }
    ensures kept { IsSameSeat pass.old.me.0 pass.new.me.0 }
    ensures turn { (pass.new.me.0.stage ≡ 2) × (pass.new.me.1 ≡ (0, None) ∷ []) }
    ensures book { (result ≡ pass.new.me.0.seen) × GoesOn pass.old.me.0 result }
{
    wait_outside(rt, table);
    let ticket = draw(table, pass);
    wait(rt, table, pass, ticket);
    let Some(book) = table.shared.exchange(pass, 0, None) else {
        unreachable!()
    };
    book
}

// Gives the book back, and lets the next caller in.
//
// The book is put into the slot before the length is written; no other seat can reach it there until `serving` is
// raised, which is the last step; then who waits is woken.
fn give_book(table: &BoardTable, pass: &mut Pass, book: Book)
    requires table { IsAtTable pass.old.table_id table.now.shared.table_id }
    requires turn { (pass.old.me.0.stage ≡ 2) × (pass.old.me.1 ≡ (0, None) ∷ []) }
    requires next { GoesOnBySeat pass.old.me.0 book }
    ensures same { (pass.new.table_id ≡ pass.old.table_id) × (pass.new.id ≡ pass.old.id) }
    ensures given { pass.new.me ≡ (after_turn (at_turn pass.old.me.0 book), []) }
{
    let length = u64::from(book.entries());
    let _left = table.shared.exchange(pass, 0, Some(book));
    table.shared.store::<WritesLength>(pass, LENGTH, length);
    let served = table.shared.fetch_add::<RaisesServing>(pass, SERVING, 1);
    wake_next(table, served);
}

// Wakes those who sleep with a ticket, if any is out, once that ticket was served.
fn wake_next(table: &BoardTable, served: u64)
    requires table { IsSized table.now.shared.table_id }
{
    if table.shared.peek(TICKETS) != served.wrapping_add(1) {
        table.shared.wake_all(SERVING);
    }
}

/// A call's turn: what was granted to the seat, the book as it was found, and the book.
#[derive(Drop)]
pub(crate) struct Turn {
    was: Seen<Grant>,
    found: Seen<Book>,
    pub(crate) book: Book,
}

impl Turn {
    /// Takes the book, once it is the seat's turn.
    pub(crate) fn take<R: Wait>(rt: &R, table: &BoardTable, grant: &mut Grant) -> Turn
        requires table { IsAtTable grant.old.pass.table_id table.now.shared.table_id }
        requires fits { GrantFits grant.old }
        ensures turn { IsTurn grant.old grant.new result.found.value }
        ensures was { result.was.value ≡ grant.old }
        ensures book { result.book ≡ result.found.value }
    {
        let was = Seen::of(&*grant);
        let book = take_book(rt, table, &mut grant.pass);
        let found = Seen::of(&book);
        Turn { was, found, book }
    }

    /// Gives the book back, and lets the next caller in: the seat has made the calls that were noted.
    pub(crate) fn give(self, table: &BoardTable, grant: &mut Grant)
        requires table { IsAtTable grant.old.pass.table_id table.now.shared.table_id }
        requires turn { IsTurn self.was.value grant.old self.found.value }
        requires next { IsNext self.was.value.pass.me.0.limit self.was.value.number
            self.found.value self.book }
        ensures fits { GrantFits grant.new }
        ensures kept { (grant.new.pass.table_id ≡ self.was.value.pass.table_id)
            × (grant.new.room ≡ self.was.value.room) }
        ensures seen { Extends (caller_of self.was.value) (caller_of grant.new) }
        ensures book { (caller_of grant.new).seen ≡ self.book }
        ensures called { (e : HistoryEvent) →
            IsNoted self.was.value.pass.me.0.limit self.was.value.number e
            self.found.value self.book →
            Called (caller_of self.was.value) e (caller_of grant.new) }
    {
        give_book(table, &mut grant.pass, self.book);
    }
}
