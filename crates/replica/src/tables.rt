//! What a replica has for each vertex, and the sums of its estimates.

ghost use Rattle.std.specs.Prelude.{◌≡◌, ◌≤◌, true, length, map, IfOk, IsTrue};
ghost use Rattle.std.specs.Vec.{vec_capacity};
ghost use Rattle.ball_model.specs.PlanValue.{measure_of};
ghost use Rattle.figures.specs.Values.{value_of};
ghost use Rattle.registers.specs.Differ.{DifferWhere};
ghost use Rattle.replica.specs.Hearing.{IsStale, caught_up};
ghost use Rattle.replica.specs.Tables.{CanGoFurther, GoFurther};
ghost use Rattle.replica.specs.Tables.{AreFirst, AreRefilled, CanStep, HasRoomFor, NextTables};

use crate::hearing::Hearing;
use crate::level::{Closing, Step, sum_of_lasts};
use crate::pull::Pull;
use crate::relay::{Relay, Tallies};
use crate::start;
use crate::team::Hands;
use crate::walk::Walk;
use figures::{Estimator, Tally};
use graph::Part;
use registers::Rows;
use std::alloc::{AllocError, Global};
use std::marker::Model;

/// The rows of a superstep, which of them changed there, their figures, and the sums of their estimates at each
/// superstep so far.
#[derive(Drop)]
pub(crate) struct Tables {
    rows: Relay<Rows>,
    marks: Vec<bool>,
    tallies: Relay<Tallies>,
    // if a replica has them there is room for a sum of each superstep up to the limit
    sums: Vec<u128>,
}

impl Model for Tables {
    ghost use Rattle.replica.specs.Tables.{TablesValue};

    ghost Value = { TablesValue };

    ghost use Rattle.replica.specs.Seen.{AreTables, tables_of};

    ghost view = { tables_of };

    ghost invariant = { AreTables };
}

impl Tables {
    /// What a replica of the part begins with, with room for the sums of all supersteps.
    pub(crate) fn start(
        alloc: Global,
        part: &Part,
        estimator: &Estimator,
    ) -> Result<Tables, AllocError>
        requires { estimator.now ≡ measure_of part.now.plan }
        ensures { IfOk result (AreFirst part.now) }
    {
        part.limits();
        let marks = start::start_marks(alloc, part)?;
        let rows = start::start_rows(alloc, part)?;
        let tallies = start::start_tallies(alloc, estimator, &rows)?;
        let mut sums = Vec::with_capacity(alloc, part.plan().limit() as usize + 1)?;
        sums.push_reserved(sum_of_lasts(&tallies));
        Ok(Tables::of(rows, marks, tallies, sums))
    }

    pub(crate) fn of(rows: Rows, marks: Vec<bool>, tallies: Vec<Tally>, sums: Vec<u128>) -> Tables
        requires marks { length marks.items ≡ length rows.rows }
        requires tallies { length tallies.items ≡ length rows.rows }
        ensures { result ≡ record {
          rows = rows;
          marks = marks.items;
          tallies = map value_of tallies.items;
          sums = sums.items;
          room = vec_capacity sums;
        } }
    {
        Tables {
            rows: Relay::new(rows),
            marks,
            tallies: Relay::new(Tallies::of(tallies)),
            sums,
        }
    }

    #[inline]
    pub(crate) fn rows(&self) -> &Rows
        ensures { result.now ≡ self.now.rows }
    {
        self.rows.get()
    }

    #[inline]
    pub(crate) fn marks(&self) -> &[bool]
        ensures { result.now ≡ self.now.marks }
    {
        &self.marks
    }

    #[inline]
    pub(crate) fn tallies(&self) -> &[Tally]
        ensures { map value_of result.now ≡ self.now.tallies }
    {
        self.tallies.get().items()
    }

    #[inline]
    pub(crate) fn sums(&self) -> &[u128]
        ensures { result.now ≡ self.now.sums }
    {
        &self.sums
    }

    #[cfg(test)]
    pub(crate) fn room(&self) -> usize
        ensures { result ≡ self.now.room }
    {
        self.sums.capacity()
    }

    /// Goes on from the superstep that is closed: what is accumulated of it becomes the rows, the figures and the sums
    /// follow, and nothing is heard yet. Weights are carried forward.
    pub(crate) fn next<H: Hands>(
        &mut self,
        hands: &H,
        closing: &Closing<'_>,
        hearing: &mut Hearing,
        weights: &mut [u64],
    )
        requires ready { H.ready hands.now }
        requires can { CanStep closing.now.estimator.now closing.now.t self.old hearing.old
            weights.old }
        ensures { NextTables closing.now.estimator.now closing.now.t self.old self.new
            hearing.old hearing.new weights.new }
    {
        let last = self.sums[closing.t as usize];
        let (ahead, marks) = (hearing.ahead(), hearing.touched());
        let step = Step {
            estimator: closing.estimator,
            t: closing.t + 1,
            ahead,
            marks,
            depth: hands.halvings(ahead.width(), marks),
        };
        let gain = self.tallies.step(hands, &step, &mut self.rows, weights);
        let sum = last + gain;
        self.sums.push_reserved(sum);
        hearing.begin(&mut self.marks);
    }

    /// Whether so many rows changed that it takes less time to walk over all of them.
    pub(crate) fn are_walked<H: Hands>(&self, hands: &H, part: &Part) -> bool {
        hands.are_many(part.plan().parts(), self.rows().width(), self.marks())
    }

    /// Hears what changed in the own partition and goes on, as [`Hearing::hear_own`] and [`Tables::next`] do one after
    /// the other, in one walk: accumulators, which may be stale, are pulled, and figures follow. Then these are the
    /// rows, and what the rows were is kept in their place, stale.
    pub(crate) fn walk<'a, H: Hands>(
        &mut self,
        hands: &H,
        part: &'a Part,
        closing: &Closing<'a>,
        stale: bool,
        hearing: &mut Hearing,
        weights: &mut [u64],
    )
        requires ready { H.ready hands.now }
        requires can { CanGoFurther part.now closing.now.estimator.now closing.now.t self.old
            (caught_up stale self.old.rows hearing.old) weights.old }
        requires stale { IsTrue stale →
            DifferWhere self.old.marks hearing.old.accumulated self.old.rows }
        ensures further { GoFurther part.now closing.now.estimator.now closing.now.t self.old
            self.new (caught_up stale self.old.rows hearing.old)
            (caught_up true self.new.rows hearing.new) weights.new }
        ensures stale { IsStale self.new.rows self.new.marks hearing.new }
    {
        let last = self.sums[closing.t as usize];
        let rows = self.rows.get();
        let pull = Pull {
            part,
            rows,
            marks: &self.marks,
            depth: hands.halvings(rows.width(), &self.marks),
        };
        let walk = Walk {
            pull,
            estimator: closing.estimator,
            t: closing.t + 1,
            stale,
        };
        let gain = hearing.hear_and_step(hands, &walk, &mut self.tallies, weights);
        let total = last + gain;
        self.sums.push_reserved(total);
        hearing.change_places(&mut self.rows, &mut self.marks);
    }

    /// A copy of the tables: rows and figures are shared, the rest is copied, with no room for later sums.
    pub(crate) fn copied(&mut self, alloc: Global) -> Result<Tables, AllocError>
        ensures same { self.new ≡ self.old }
        ensures copy { IfOk result (λ t. t ≡ record self.old { room = t.room }) }
    {
        let sums = Vec::from_slice(alloc, &self.sums)?;
        let marks = Vec::from_slice(alloc, &self.marks)?;
        let tallies = self.tallies.copied(alloc)?;
        let rows = self.rows.copied(alloc)?;
        Ok(Tables {
            rows,
            marks,
            tallies,
            sums,
        })
    }

    /// Gives back what rows and figures have kept for going on.
    pub(crate) fn give_back(&mut self)
        ensures { self.new ≡ self.old }
    {
        self.rows.give_back();
        self.tallies.give_back();
    }

    pub(crate) fn assign(&mut self, other: &Tables)
        requires { HasRoomFor other.now self.old }
        ensures { self.new ≡ record other.now { room = self.old.room } }
    {
        self.rows.assign(other.rows.get());
        self.marks.copy_from_slice(&other.marks);
        self.tallies.assign(other.tallies.get());
        refill(&mut self.sums, &other.sums);
    }
}

/// The sums become others, within the room that was taken for them.
pub(crate) fn refill(sums: &mut Vec<u128>, others: &[u128])
    requires { length others.now ≤ vec_capacity sums.old }
    ensures { AreRefilled others.now sums.new.items (vec_capacity sums.old)
        (vec_capacity sums.new) }
{
    sums.clear();
    for sum in others {
        sums.push_reserved(*sum);
    }
}
