//! Tallies that are handed out while they go on.

ghost use Rattle.std.specs.Prelude.{◌≡◌, ◌≤◌, List, None, length, map, IfOk, IfSome, IsTrue};
ghost use Rattle.std.specs.Arc.{arc_value};
ghost use Rattle.std.specs.Vec.{vec_capacity};
ghost use Rattle.ball_model.specs.Figures.{TallyValue};
ghost use Rattle.figures.specs.Values.{value_of};
ghost use Rattle.registers.specs.Differ.{DifferWhere};
ghost use Rattle.replica.specs.Hearing.{fresh_table};
ghost use Rattle.replica.specs.Relay.{AreOwnAgain, CanBeRelayed, DifferAt, IsRelay, shown_of};
ghost use Rattle.replica.specs.Tables.{AreStepped, CanBeStepped};
ghost use Rattle.replica.specs.Walk.{CanWalk, Walks};

use super::{Behind, Relay, Relayed, Shared, filled, mark_all};
use crate::level::Step;
use crate::team::Hands;
use crate::walk::{Walk, walk_own};
use figures::Tally;
use registers::{Rows, next_marked};
use std::alloc::{AllocError, Global};
use std::marker::Model;
use std::sync::Arc;

/// The figures of rows.
#[derive(Drop)]
pub(crate) struct Tallies {
    items: Vec<Tally>,
}

impl Model for Tallies {
    ghost use Rattle.std.specs.Prelude.{List, map};
    ghost use Rattle.ball_model.specs.Figures.{TallyValue};
    ghost use Rattle.figures.specs.Values.{value_of};

    ghost Value = { List TallyValue };

    ghost view = { λ t. map value_of t.items.items };
}

impl Tallies {
    pub(crate) fn of(items: Vec<Tally>) -> Tallies
        ensures { result ≡ map value_of items.items }
    {
        Tallies { items }
    }

    #[inline]
    pub(crate) fn items(&self) -> &[Tally]
        ensures { map value_of result.now ≡ self.now }
    {
        self.items.as_slice()
    }

    fn step<H: Hands>(
        &mut self,
        hands: &H,
        step: &Step<'_>,
        rows: &mut Relay<Rows>,
        weights: &mut [u64],
    ) -> u128
        requires ready { H.ready hands.now }
        requires can { CanBeStepped step.now.estimator.now step.now.t rows.old step.now.ahead.now
            step.now.marks.now weights.old self.old }
        ensures { AreStepped step.now.estimator.now step.now.t step.now.ahead.now self.old
            self.new weights.new result rows.new }
    {
        hands.step(step, rows, weights, &mut self.items)
    }

    fn walk<H: Hands>(
        &mut self,
        hands: &H,
        walk: &Walk<'_>,
        accumulated: &mut Rows,
        touched: &mut [bool],
        weights: &mut [u64],
    ) -> u128
        requires ready { H.ready hands.now }
        requires can { CanWalk walk.now.estimator.now walk.now.t walk.now.pull.part.now
            walk.now.pull.rows.now walk.now.pull.marks.now
            (fresh_table walk.now.stale walk.now.pull.rows.now accumulated.old) touched.old
            weights.old self.old }
        requires stale { IsTrue walk.now.stale → DifferWhere walk.now.pull.marks.now
            accumulated.old walk.now.pull.rows.now }
        ensures { Walks walk.now.estimator.now walk.now.t walk.now.pull.part.now
            walk.now.pull.rows.now walk.now.pull.marks.now
            (fresh_table walk.now.stale walk.now.pull.rows.now accumulated.old) accumulated.new
            touched.old touched.new self.old self.new weights.new result }
    {
        walk_own(hands, walk, accumulated, touched, weights, &mut self.items)
    }

    fn follow(&mut self, ahead: &Tallies, stale: &[bool])
        requires { DifferAt stale.now self.old ahead.now }
        ensures { self.new ≡ ahead.now }
    {
        follow(&mut self.items, &ahead.items, stale);
    }
}

impl Relayed for Tallies {
    ghost use Rattle.std.specs.Prelude.{length};
    ghost use Rattle.std.specs.Vec.{vec_capacity};
    ghost use Rattle.replica.specs.Relay.{AreAsMany, DifferAt};
    ghost use Rattle.replica.specs.RelayLaws.{tallies_alike, tallies_both, tallies_marked};
    ghost use Rattle.replica.specs.RelayLaws.{tallies_room};

    ghost count = { λ tallies. length tallies };

    ghost are_alike = { AreAsMany };

    ghost differ = { DifferAt };

    ghost needs = { λ tallies. length tallies };

    type Room = Vec<Tally>;

    ghost size_of = { λ room. vec_capacity room };

    fn places(&self) -> usize {
        self.items.len()
    }

    fn empty(alloc: Global) -> Result<Tallies, AllocError> {
        Ok(Tallies {
            items: Vec::with_capacity(alloc, 0)?,
        })
    }

    fn room(&self, alloc: Global, spare: Option<Vec<Tally>>) -> Result<Vec<Tally>, AllocError>
        ensures { IfOk result (λ room. length self.now ≤ vec_capacity room) }
    {
        match spare {
            Some(room) if self.items.len() <= room.capacity() => Ok(room),
            _ => Vec::with_capacity(alloc, self.items.len()),
        }
    }

    fn copy_in(&self, room: Vec<Tally>) -> Tallies {
        let mut items = room;
        items.clear();
        let _ = items.extend_from_slice(&self.items);
        Tallies { items }
    }

    fn copy_all(&mut self, other: &Tallies) {
        self.items.copy_from_slice(&other.items);
    }

    ghost marked = { tallies_marked };

    ghost alike = { tallies_alike };

    ghost as_large = { tallies_room };

    ghost both = { tallies_both };
}

impl Relay<Tallies> {
    /// They become the figures of the rows ahead, and the rows become these. It takes no memory but that of threads.
    /// If a table was handed out, those that changed since the one before it are copied too, and all of them if
    /// somebody still holds that one.
    pub(crate) fn step<H: Hands>(
        &mut self,
        hands: &H,
        step: &Step<'_>,
        rows: &mut Relay<Rows>,
        weights: &mut [u64],
    ) -> u128
        requires ready { H.ready hands.now }
        requires can { CanBeStepped step.now.estimator.now step.now.t rows.old step.now.ahead.now
            step.now.marks.now weights.old self.old }
        ensures { AreStepped step.now.estimator.now step.now.t step.now.ahead.now self.old
            self.new weights.new result rows.new }
    {
        let shown = self.out.take();
        go_on(
            &mut self.own,
            shown,
            &mut self.behind,
            &mut self.spare,
            step.marks,
        );
        self.own.step(hands, step, rows, weights)
    }

    /// They become the figures of what is accumulated as the own rows are pulled, as [`walk_own`] does it. It takes no
    /// memory but that of the threads, and copies what [`Relay::step`] does.
    pub(crate) fn walk<H: Hands>(
        &mut self,
        hands: &H,
        walk: &Walk<'_>,
        accumulated: &mut Rows,
        touched: &mut [bool],
        weights: &mut [u64],
    ) -> u128
        requires ready { H.ready hands.now }
        requires can { CanWalk walk.now.estimator.now walk.now.t walk.now.pull.part.now
            walk.now.pull.rows.now walk.now.pull.marks.now
            (fresh_table walk.now.stale walk.now.pull.rows.now accumulated.old) touched.old
            weights.old self.old }
        requires stale { IsTrue walk.now.stale → DifferWhere walk.now.pull.marks.now
            accumulated.old walk.now.pull.rows.now }
        ensures { Walks walk.now.estimator.now walk.now.t walk.now.pull.part.now
            walk.now.pull.rows.now walk.now.pull.marks.now
            (fresh_table walk.now.stale walk.now.pull.rows.now accumulated.old) accumulated.new
            touched.old touched.new self.old self.new weights.new result }
    {
        let shown = self.out.take();
        let left = take_up(&mut self.own, shown, &mut self.behind, &mut self.spare);
        let gain = self.own.walk(hands, walk, accumulated, touched, weights);
        leave(&mut self.behind, left, touched);
        gain
    }
}

// Tallies that were handed out, with room for a mark for each.
#[derive(Drop)]
struct Left {
    table: Arc<Tallies>,
    room: Vec<bool>,
}

// What is shown is in the own table, to be stepped where it is marked; what was handed out is what was shown before.
fn go_on(
    own: &mut Tallies,
    out: Option<Shared<Tallies>>,
    behind: &mut Option<Behind<Tallies>>,
    spare: &mut Option<Vec<Tally>>,
    marks: &[bool],
)
    requires { CanBeRelayed (shown_of own.old out) behind.old (length marks.now) }
    ensures { AreOwnAgain (shown_of own.old out) marks.now own.new behind.new }
{
    let left = take_up(own, out, behind, spare);
    leave(behind, left, marks);
}

// What is shown is in the own table. It returns what was handed out.
fn take_up(
    own: &mut Tallies,
    out: Option<Shared<Tallies>>,
    behind: &mut Option<Behind<Tallies>>,
    spare: &mut Option<Vec<Tally>>,
) -> Option<Left>
    requires { IsRelay DifferAt (shown_of own.old out) behind.old }
    ensures own { own.new ≡ shown_of own.old out }
    ensures left { IfSome result (λ left. (arc_value left.table ≡ shown_of own.old out)
        × (length (shown_of own.old out) ≤ vec_capacity left.room)) }
    ensures behind { result ≡ None → behind.new ≡ behind.old }
{
    match out {
        None => None,
        Some(out) => {
            let Shared { table, room, marks } = out;
            bring_up(own, behind.take(), room, spare, &table);
            Some(Left { table, room: marks })
        }
    }
}

// What was handed out is what was shown before, stale where it is marked; or else what was shown before it is.
fn leave(behind: &mut Option<Behind<Tallies>>, left: Option<Left>, marks: &[bool])
    requires room { IfSome left (λ l. length marks.now ≤ vec_capacity l.room) }
    requires behind { left ≡ None → IfSome behind.old (λ b. length b.stale ≡ length marks.now) }
    ensures { (shown ahead : List TallyValue) → DifferAt marks.now shown ahead →
        IfSome left (λ l. arc_value l.table ≡ shown) →
        (left ≡ None → IsRelay DifferAt shown behind.old) → IsRelay DifferAt ahead behind.new }
{
    match left {
        None => mark_all(behind, marks),
        Some(left) => {
            let Left { table, room } = left;
            let stale = filled(room, marks);
            *behind = Some(Behind { table, stale });
        }
    }
}

// The own table becomes what is shown: the table shown before is taken for that, if nobody else holds it, and
// otherwise a copy in the room.
fn bring_up(
    own: &mut Tallies,
    behind: Option<Behind<Tallies>>,
    room: Vec<Tally>,
    spare: &mut Option<Vec<Tally>>,
    shown: &Tallies,
)
    requires behind { IsRelay DifferAt shown.now behind }
    requires room { length shown.now ≤ vec_capacity room }
    ensures { own.new ≡ shown.now }
{
    if let Some(Behind { table, stale }) = behind {
        if let Ok(mut table) = Arc::try_unwrap(table) {
            table.follow(shown, &stale);
            *own = table;
            *spare = Some(room);
            return;
        }
    }
    *own = shown.copy_in(room);
}

fn follow(tallies: &mut [Tally], ahead: &[Tally], stale: &[bool])
    requires { DifferAt stale.now (map value_of tallies.old) (map value_of ahead.now) }
    ensures { map value_of tallies.new ≡ map value_of ahead.now }
{
    let mut i = next_marked(stale, 0);
    while i < stale.len() {
        tallies[i] = ahead[i];
        i = next_marked(stale, i + 1);
    }
}
