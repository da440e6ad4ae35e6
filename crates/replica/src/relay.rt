//! A table that is handed out while it goes on.

ghost use Rattle.std.specs.Prelude.{◌≡◌, ◌≤◌, ℕ, Bool, List, None, length, IfOk, IfSome, OnErr};
ghost use Rattle.std.specs.Arc.{arc_value};
ghost use Rattle.std.specs.Vec.{vec_capacity};
ghost use Rattle.replica.specs.Relay.{AreEither, IsRelay, shown_of};

mod rows;
mod tallies;

use std::alloc::{AllocError, Global};
use std::marker::Model;
use std::mem;
use std::sync::Arc;
pub(crate) use tallies::Tallies;

/// A table of places that a [`Relay`] can hand out.
pub(crate) trait Relayed: Sized + Drop {
    /// How many places there are.
    ghost count: { Self → ℕ };

    /// As many places of one kind.
    ghost are_alike: { Self → Self → Type 0 };

    /// Tables that are alike, with a mark for each place, and the same at each that is not marked.
    ghost differ: { List Bool → Self → Self → Type 0 };

    /// How much room a copy takes.
    ghost needs: { Self → ℕ };

    /// Room for a copy.
    type Room: Drop;

    /// How large that room is.
    ghost size_of: { Self.Room → ℕ };

    fn places(&self) -> usize
        ensures { result ≡ count self.now };

    /// A table without places.
    fn empty(alloc: Global) -> Result<Self, AllocError>;

    /// Room for a copy: the spare room, if a copy fits into it, or else new room.
    fn room(&self, alloc: Global, spare: Option<Self::Room>) -> Result<Self::Room, AllocError>
        ensures { IfOk result (λ room. needs self.now ≤ size_of room) };

    /// A copy in the room. It takes no memory.
    fn copy_in(&self, room: Self::Room) -> Self
        requires { needs self.now ≤ size_of room }
        ensures { result ≡ self.now };

    /// All places become those of `other`. It takes no memory.
    fn copy_all(&mut self, other: &Self)
        requires { are_alike self.old other.now }
        ensures { self.new ≡ other.now };

    /// There is a mark for each place.
    ghost marked: { (ms : List Bool) (a b : Self) → differ ms a b → length ms ≡ count a };

    /// Tables that differ at marked places alone are alike.
    ghost alike: { (ms : List Bool) (a b : Self) → differ ms a b → are_alike a b };

    /// Tables that are alike take as much room.
    ghost as_large: { (a b : Self) → are_alike a b → needs a ≡ needs b };

    /// Two steps change what either of them changes.
    ghost both: { (stale ms all : List Bool) (a b c : Self) → differ stale a b → differ ms b c →
        AreEither stale ms all → differ all a c };
}

/// A table that can be handed out: what it becomes afterwards does not change what was handed out.
///
/// If nothing is handed out it changes in place. Else it goes on in a second table: in the one shown before, once
/// nobody else holds it, brought up where it changed since, and otherwise in room that was taken when the table was
/// handed out. So [`Relay::share`] and [`Relay::copied`] take memory, calls in threads that of their threads, and no
/// other call does.
pub(crate) struct Relay<T: Relayed> {
    // what is shown, if nothing is handed out
    own: T,
    // what is shown, if it was handed out
    out: Option<Shared<T>>,
    // what was shown before, if that was handed out
    behind: Option<Behind<T>>,
    // room that is left over
    spare: Option<T::Room>,
}

impl<T: Relayed> Model for Relay<T> {
    ghost use Rattle.replica.specs.Relay.{IsRelay, shown_of};

    ghost Value = { T };

    ghost view = { λ r. shown_of r.own r.out };

    ghost invariant = { λ r. IsRelay T.differ (shown_of r.own r.out) r.behind };
}

// Written out, and so one call wherever a table is dropped: the checker reads a derived one again at each place.
impl<T: Relayed> Drop for Relay<T> {
    fn drop(self) {
        let Relay {
            own: _,
            out: _,
            behind: _,
            spare: _,
        } = self;
    }
}

// A table that is handed out, with room for another one, and for a mark for each of its places.
#[derive(Drop)]
struct Shared<T: Relayed> {
    table: Arc<T>,
    room: T::Room,
    marks: Vec<bool>,
}

impl<T: Relayed> Model for Shared<T> {
    ghost use Rattle.std.specs.Arc.{arc_value};
    ghost use Rattle.std.specs.Vec.{vec_capacity};
    ghost use Rattle.replica.specs.Relay.{HasRoom};

    ghost Value = { T };

    ghost view = { λ s. arc_value s.table };

    ghost invariant = { λ s.
        HasRoom T.needs T.count (arc_value s.table) (T.size_of s.room) (vec_capacity s.marks) };
}

/// A table that was handed out, and a mark for each place: what is shown differs from it at stale places alone.
#[derive(Drop)]
pub(crate) struct Behind<T: Relayed> {
    table: Arc<T>,
    stale: Vec<bool>,
}

impl<T: Relayed> Model for Behind<T> {
    ghost use Rattle.std.specs.Arc.{arc_value};
    ghost use Rattle.replica.specs.Relay.{Marked};

    ghost Value = { Marked T };

    ghost view = { λ b. record { table = arc_value b.table; stale = b.stale.items } };
}

impl<T: Relayed> Relay<T> {
    /// A table that is not handed out.
    pub(crate) fn new(table: T) -> Relay<T>
        ensures { result ≡ table }
    {
        Relay {
            own: table,
            out: None,
            behind: None,
            spare: None,
        }
    }

    pub(crate) fn get(&self) -> &T
        ensures { result.now ≡ self.now }
    {
        match &self.out {
            Some(out) => &out.table,
            None => &self.own,
        }
    }

    /// The table becomes another one that is like it. It takes no memory.
    pub(crate) fn assign(&mut self, other: &T)
        requires { T.are_alike self.old other.now }
        ensures { self.new ≡ other.now }
    {
        self.behind = None;
        match self.out.take() {
            None => self.own.copy_all(other),
            Some(out) => {
                let Shared { room, .. } = out;
                self.own = other.copy_in(room);
            }
        }
    }

    /// Gives back what it has kept for going on: the table shown before, room that is left over, and, if nobody else
    /// holds the table that was handed out, the room that was taken with it.
    pub(crate) fn give_back(&mut self)
        ensures { self.new ≡ self.old }
    {
        drop(self.behind.take());
        drop(self.spare.take());
        let out = self.out.take();
        let Some(Shared { table, room, marks }) = out else {
            return;
        };
        match Arc::try_unwrap(table) {
            Ok(table) => self.own = table,
            Err(table) => self.out = Some(Shared { table, room, marks }),
        }
    }

    // The table is in an `Arc`. The error is that memory was refused.
    fn hand_out(&mut self, alloc: Global) -> Result<(), AllocError>
        ensures { self.new ≡ self.old }
    {
        if self.out.is_some() {
            return Ok(());
        }
        let room = self.own.room(alloc, self.spare.take())?;
        let marks = Vec::with_capacity(alloc, self.own.places())?;
        let empty = T::empty(alloc)?;
        let table = lend(alloc, &mut self.own, empty)?;
        self.out = Some(Shared { table, room, marks });
        Ok(())
    }

    /// The table, handed out. The error is that memory was refused.
    pub(crate) fn share(&mut self, alloc: Global) -> Result<Arc<T>, AllocError>
        ensures same { self.new ≡ self.old }
        ensures shared { IfOk result (λ out. arc_value out ≡ self.old) }
    {
        self.hand_out(alloc)?;
        match &self.out {
            Some(out) => Arc::try_clone(&out.table),
            None => Err(AllocError),
        }
    }

    /// Another relay of the same table, which the two share. The error is that memory was refused.
    ///
    /// It takes room for a table and a mark for each place, which is not touched unless the other one goes on.
    pub(crate) fn copied(&mut self, alloc: Global) -> Result<Relay<T>, AllocError>
        ensures same { self.new ≡ self.old }
        ensures copy { IfOk result (λ copy. copy ≡ self.old) }
    {
        let table = self.share(alloc)?;
        let own = T::empty(alloc)?;
        let marks = Vec::with_capacity(alloc, table.places())?;
        let room = table.room(alloc, None)?;
        Ok(Relay {
            own,
            out: Some(Shared { table, room, marks }),
            behind: None,
            spare: None,
        })
    }
}

impl<T: Relayed> Behind<T> {
    #[inline]
    pub(crate) fn table(&self) -> &T
        ensures { result.now ≡ self.now.table }
    {
        &self.table
    }
}

// The table goes into an `Arc`, and another one comes in its place. If memory is refused the table stays.
fn lend<T: Relayed>(alloc: Global, own: &mut T, other: T) -> Result<Arc<T>, AllocError>
    ensures out { IfOk result (λ out. arc_value out ≡ own.old) }
    ensures refused { OnErr result (own.new ≡ own.old) }
{
    let table = mem::replace(own, other);
    match Arc::new(alloc, table) {
        Ok(out) => Ok(out),
        Err(refused) => {
            *own = refused.value;
            Err(AllocError)
        }
    }
}

// The marks, in room that was taken for them.
fn filled(room: Vec<bool>, marks: &[bool]) -> Vec<bool>
    requires { length marks.now ≤ vec_capacity room }
    ensures { result.items ≡ marks.now }
{
    let mut copy = room;
    copy.clear();
    let _ = copy.extend_from_slice(marks);
    copy
}

// Places that are marked are stale.
fn mark_all<T: Relayed>(behind: &mut Option<Behind<T>>, marks: &[bool])
    requires { IfSome behind.old (λ b. length b.stale ≡ length marks.now) }
    ensures { (shown ahead : T) → IsRelay T.differ shown behind.old →
        T.differ marks.now shown ahead → IsRelay T.differ ahead behind.new }
{
    match behind {
        Some(behind) => add_marks(&mut behind.stale, marks),
        None => {}
    }
}

fn add_marks(marks: &mut [bool], more: &[bool])
    requires { length marks.old ≡ length more.now }
    ensures { AreEither marks.old more.now marks.new }
{
    for i in 0..marks.len() {
        marks[i] |= more[i];
    }
}
