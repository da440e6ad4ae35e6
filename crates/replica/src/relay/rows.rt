//! Rows that are handed out while they go on.

ghost use Rattle.std.specs.Prelude.{◌≡◌, ◌≤◌, ◌<◌, List, ℕ, None, length, slice_set, IfOk, IfSome};
ghost use Rattle.std.specs.Vec.{vec_capacity};
ghost use Rattle.ball_model.specs.Table.{Table};
ghost use Rattle.registers.specs.Differ.{DifferWhere, room_for};
ghost use Rattle.replica.specs.Relay.{DifferWhereEither, IsRelay, shown_of};

use super::{Behind, Relay, Relayed, Shared, filled, mark_all};
use registers::{Rows, next_marked, take_over};
use std::alloc::{AllocError, Global};
use std::mem;
use std::sync::Arc;
use std::thread::Threads;

impl Relayed for Rows {
    ghost use Rattle.std.specs.Prelude.{length};
    ghost use Rattle.std.specs.Vec.{vec_capacity};
    ghost use Rattle.registers.specs.Joined.{AreSameShape};
    ghost use Rattle.registers.specs.Differ.{DifferWhere, room_for};
    ghost use Rattle.replica.specs.RelayLaws.{rows_alike, rows_both, rows_marked, rows_room};

    ghost count = { λ table. length table.rows };

    ghost are_alike = { AreSameShape };

    ghost differ = { DifferWhere };

    ghost needs = { room_for };

    type Room = Vec<u8>;

    ghost size_of = { λ room. vec_capacity room };

    fn places(&self) -> usize {
        self.len()
    }

    fn empty(alloc: Global) -> Result<Rows, AllocError> {
        Rows::fixed(alloc, 0, 0)
    }

    fn room(&self, alloc: Global, spare: Option<Vec<u8>>) -> Result<Vec<u8>, AllocError>
        ensures { IfOk result (λ room. room_for self.now ≤ vec_capacity room) }
    {
        match spare {
            Some(room) if self.size() <= room.capacity() => Ok(room),
            _ => Vec::with_capacity(alloc, self.size()),
        }
    }

    fn copy_in(&self, room: Vec<u8>) -> Rows {
        self.copied_into(room)
    }

    fn copy_all(&mut self, other: &Rows) {
        self.copy_from(other);
    }

    ghost marked = { rows_marked };

    ghost alike = { rows_alike };

    ghost as_large = { rows_room };

    ghost both = { rows_both };
}

// Rows go on by `go_on`, then `put` for each row that changes or `put_marked` for all, then `leave_behind`; or by
// `change_places`.
impl Relay<Rows> {
    /// Makes ready for the rows of `ahead`, from which these differ in marked rows alone: what is shown afterwards
    /// differs from them in marked rows alone too. If the rows were handed out, the answer is what they were, to be
    /// left behind once each marked row was put. Else they stay as they are. It takes no memory.
    ///
    /// It takes no time if nothing is handed out, and else time in proportion to the rows that were marked in the call
    /// before, and to the marks. If there is no table from before that one, or somebody still holds it, all rows are
    /// copied.
    pub(crate) fn go_on(&mut self, ahead: &Rows, marks: &[bool]) -> Option<Behind<Rows>>
        requires { DifferWhere marks.now self.old ahead.now }
        ensures differ { DifferWhere marks.now self.new ahead.now }
        ensures before { IfSome result (λ b. b ≡ record { table = self.old; stale = marks.now }) }
        ensures stays { result ≡ None → self.new ≡ self.old }
    {
        let Shared {
            table,
            room,
            marks: stale,
        } = self.out.take()?;
        let (own, spare) = bring_up(self.behind.take(), room, ahead, marks);
        self.own = own;
        self.spare = spare;
        let stale = filled(stale, marks);
        Some(Behind { table, stale })
    }

    /// It takes no memory.
    #[inline]
    pub(crate) fn put(&mut self, i: usize, row: &[u8])
        requires row { i < length self.old.rows }
        requires width { length row.now ≡ self.old.width }
        ensures { self.new ≡ record self.old { rows = slice_set self.old.rows i row.now } }
    {
        part(&mut self.own, &mut self.out);
        self.own.put(i, row);
        mark_one(&mut self.behind, i);
    }

    /// Puts all marked rows, in 2^depth threads. It takes no memory but that of the threads, and time in proportion to
    /// the marks and the marked rows, over the processors.
    pub(crate) fn put_marked<R: Threads + Sync>(
        &mut self,
        rt: &R,
        depth: u32,
        ahead: &Rows,
        marks: &[bool],
    )
        requires { DifferWhere marks.now self.old ahead.now }
        ensures { self.new ≡ ahead.now }
    {
        let Relay {
            own,
            out,
            behind,
            ..
        } = self;
        mark_all(behind, marks);
        part(own, out);
        take_over(rt, depth, own, ahead, marks);
    }

    /// The rows go on to those of `ahead`, from which they differ in marked rows alone, without a copy of one: `ahead`
    /// becomes a table that differs from them in marked rows alone. It takes no memory, and the time of
    /// [`Relay::go_on`] beside that of the marks.
    pub(crate) fn change_places(&mut self, ahead: &mut Rows, marks: &[bool])
        requires { DifferWhere marks.now self.old ahead.old }
        ensures rows { self.new ≡ ahead.old }
        ensures ahead { DifferWhere marks.now ahead.new self.new }
    {
        let before = self.go_on(ahead, marks);
        self.swap_marked(ahead, marks);
        self.leave_behind(before);
    }

    // The rows and those of `ahead`, from which they differ in marked rows alone, change places.
    fn swap_marked(&mut self, ahead: &mut Rows, marks: &[bool])
        requires { DifferWhere marks.now self.old ahead.old }
        ensures rows { self.new ≡ ahead.old }
        ensures ahead { ahead.new ≡ self.old }
    {
        let Relay {
            own,
            out,
            behind,
            ..
        } = self;
        mark_all(behind, marks);
        part(own, out);
        mem::swap(own, ahead);
    }

    /// From now on what the rows were before they went on is kept as the table shown before.
    pub(crate) fn leave_behind(&mut self, before: Option<Behind<Rows>>)
        requires { IsRelay DifferWhere self.old before }
        ensures { self.new ≡ self.old }
    {
        if before.is_some() {
            self.behind = before;
        }
    }
}

// The rows are those that are shown, and are handed out no more.
#[inline(always)]
fn part(own: &mut Rows, out: &mut Option<Shared<Rows>>)
    ensures own { own.new ≡ shown_of own.old out.old }
    ensures out { out.new ≡ None }
{
    if out.is_some() {
        take_in(own, out);
    }
}

// What `part` does if they are handed out: a call of its own, since that is rare and what is handed out large to move.
#[inline(never)]
fn take_in(own: &mut Rows, out: &mut Option<Shared<Rows>>)
    ensures own { own.new ≡ shown_of own.old out.old }
    ensures out { out.new ≡ None }
{
    match out.take() {
        None => {}
        Some(out) => *own = copy_of(out),
    }
}

#[inline(never)]
fn copy_of(out: Shared<Rows>) -> Rows
    ensures { result ≡ out }
{
    let Shared { table, room, .. } = out;
    table.copied_into(room)
}

// A row that changes is stale.
#[inline]
fn mark_one(behind: &mut Option<Behind<Rows>>, i: usize)
    requires { IfSome behind.old (λ b. i < length b.stale) }
    ensures { (shown : Table) (row : List ℕ) → IsRelay DifferWhere shown behind.old →
        IsRelay DifferWhere (record shown { rows = slice_set shown.rows i row }) behind.new }
{
    match behind {
        Some(behind) => behind.stale[i] = true,
        None => {}
    }
}

// The rows of `ahead` but in marked rows, and what room is left over: the table shown before is taken for them, if
// nobody else holds it, and all rows are copied into the room otherwise.
fn bring_up(
    behind: Option<Behind<Rows>>,
    room: Vec<u8>,
    ahead: &Rows,
    marks: &[bool],
) -> (Rows, Option<Vec<u8>>)
    requires behind { IfSome behind (λ b.
        DifferWhereEither b.stale marks.now b.table ahead.now) }
    requires room { room_for ahead.now ≤ vec_capacity room }
    requires marks { length marks.now ≡ length ahead.now.rows }
    ensures { DifferWhere marks.now result.0 ahead.now }
{
    match take_back(behind, ahead, marks) {
        Some(table) => (table, Some(room)),
        None => (ahead.copied_into(room), None),
    }
}

// The table shown before, brought up to `ahead` but in marked rows, if nobody else holds it.
fn take_back(behind: Option<Behind<Rows>>, ahead: &Rows, marks: &[bool]) -> Option<Rows>
    requires { IfSome behind (λ b. DifferWhereEither b.stale marks.now b.table ahead.now) }
    ensures { IfSome result (λ table. DifferWhere marks.now table ahead.now) }
{
    let Behind { table, stale } = behind?;
    match Arc::try_unwrap(table) {
        Ok(mut table) => {
            catch_up(&mut table, ahead, &stale, marks);
            Some(table)
        }
        Err(_) => None,
    }
}

// Stale rows that are marked are put later, and are not read twice.
fn catch_up(rows: &mut Rows, ahead: &Rows, stale: &[bool], marks: &[bool])
    requires { DifferWhereEither stale.now marks.now rows.old ahead.now }
    ensures { DifferWhere marks.now rows.new ahead.now }
{
    let mut i = next_marked(stale, 0);
    while i < stale.len() {
        if !marks[i] {
            rows.put(i, ahead.row(i));
        }
        i = next_marked(stale, i + 1);
    }
}
