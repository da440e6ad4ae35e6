//! What is heard of a superstep.

ghost use Rattle.std.specs.Prelude.{◌≡◌, ℕ, ◌||◌, Bool, false, List, [], length, replicate, Some};
ghost use Rattle.std.specs.Prelude.{IsTrue, IfOk, OnOk, OnErr};
ghost use Rattle.ball_model.specs.PlanValue.{most_parts};
ghost use Rattle.ball_model.specs.Table.{Table};
ghost use Rattle.registers.specs.Differ.{DifferWhere};
ghost use Rattle.registers.specs.Joined.{maximum_of_rows, union_of_flags};
ghost use Rattle.replica.specs.Hearing.{BeginsStale, BeginsSuperstep, CanFill, CanHear, CanJoin};
ghost use Rattle.replica.specs.Hearing.{CanRenew, Renews, Fills, HearsAlso, HearsEarly, IsQuiet};
ghost use Rattle.replica.specs.Hearing.{HearsByIndex, IsSpare, KeepsAllOrNone, Lends, SaysSame};
ghost use Rattle.replica.specs.Hearing.{TakesBack, fresh_table};
ghost use Rattle.replica.specs.Hearing.{accumulators_of, batch_by};
ghost use Rattle.replica.specs.Level.{differences};
ghost use Rattle.replica.specs.Tables.{CanHearOwn, HearsOwn};
ghost use Rattle.replica.specs.Walk.{CanWalk, Walks};

use crate::early::{Early, LEVELS};
use crate::marks::{any_marked, clear_marks, mark_differences};
use crate::relay::{Relay, Tallies};
use crate::spread::{Own, spread_batch, spread_own};
use crate::tables::Tables;
use crate::targets::Targets;
use crate::team::Hands;
use crate::walk::Walk;
use ball_model::Plan;
use batches::Batch;
use graph::Part;
use registers::{Join, Rows, SourceMask, next_marked};
use std::alloc::{AllocError, Global};
use std::marker::Model;
use std::mem;

/// Of which sources a superstep's batches are heard, and what is accumulated for each row.
#[derive(Drop)]
pub(crate) struct Hearing {
    // which sources are heard
    heard: SourceMask,
    // whether one of them has a changed vertex
    change: bool,
    // the rows, raised by those of the sources that are heard; none if none is kept, since each equals its row
    accumulated: Rows,
    // which of them differ from their rows
    touched: Vec<bool>,
}

impl Model for Hearing {
    ghost use Rattle.std.specs.Prelude.{◌≡◌, length};
    ghost use Rattle.replica.specs.Hearing.{HearingValue};

    ghost Value = { HearingValue };

    ghost view = { λ h. record {
      heard = h.heard;
      change = h.change;
      accumulated = h.accumulated;
      touched = h.touched.items;
    } };

    ghost invariant = { λ h. length h.touched.items ≡ length h.accumulated.rows };
}

impl Hearing {
    pub(crate) fn start(alloc: Global, rows: &Rows) -> Result<Hearing, AllocError>
        ensures { IfOk result (λ h. IsQuiet rows.now h) }
    {
        Hearing::quiet(alloc, copy_rows(alloc, rows)?)
    }

    /// Nothing is heard, and these are the accumulators, equal to the rows.
    pub(crate) fn quiet(alloc: Global, accumulated: Rows) -> Result<Hearing, AllocError>
        ensures { IfOk result (IsQuiet accumulated) }
    {
        let touched = vec![in alloc; false; accumulated.len()]?;
        Ok(Hearing {
            heard: SourceMask::empty(),
            change: false,
            accumulated,
            touched,
        })
    }

    pub(crate) fn of(
        heard: SourceMask,
        change: bool,
        accumulated: Rows,
        touched: Vec<bool>,
    ) -> Hearing
        requires { length touched.items ≡ length accumulated.rows }
        ensures { result ≡ record {
          heard = heard;
          change = change;
          accumulated = accumulated;
          touched = touched.items;
        } }
    {
        Hearing {
            heard,
            change,
            accumulated,
            touched,
        }
    }

    /// Nothing is heard beside rows of this width, and no accumulators are kept. It takes no memory.
    pub(crate) fn bare(alloc: Global, rows: &Rows) -> Result<Hearing, AllocError>
        ensures { IfOk result (IsQuiet (record { width = rows.now.width; rows = [] })) }
    {
        Hearing::quiet(alloc, Rows::fixed(alloc, 0, rows.width() as u16)?)
    }

    /// What is heard goes to the accumulators that are spare, or is lent with those that are kept here if none is.
    /// Nothing is heard here then, and none is kept. The answer is whether those that are lent are stale.
    pub(crate) fn lend(&mut self, spare: &mut Hearing) -> bool
        ensures { (rows : Table) (marks : List Bool) → IsSpare rows marks self.old spare.old →
            Lends rows marks self.old spare.old result self.new spare.new }
    {
        if spare.accumulated.len() == 0 {
            mem::swap(self, spare);
            self.forget();
            return false;
        }
        spare.heard = self.heard;
        spare.change = self.change;
        self.forget();
        true
    }

    fn forget(&mut self)
        ensures { self.new ≡
            record self.old { heard = replicate most_parts false; change = false } }
    {
        let Hearing { heard, change, .. } = self;
        *heard = SourceMask::empty();
        *change = false;
    }

    /// Accumulators that are spare are kept here again, each as its row is. It takes no memory but that of threads,
    /// and time in proportion to the rows that are marked.
    pub(crate) fn take_back<H: Hands>(&mut self, hands: &H, spare: &mut Hearing, tables: &Tables)
        requires ready { H.ready hands.now }
        requires spare { IsSpare tables.now.rows tables.now.marks self.old spare.old }
        ensures { TakesBack tables.now.rows self.old spare.old self.new spare.new }
    {
        if spare.accumulated.len() != 0 {
            hands.take_over(&mut spare.accumulated, tables.rows(), tables.marks());
            self.exchange(spare);
        }
    }

    fn exchange(&mut self, other: &mut Hearing)
        ensures own { self.new ≡
            record other.old { heard = self.old.heard; change = self.old.change } }
        ensures other { other.new ≡ self.old }
    {
        other.heard = self.heard;
        other.change = self.change;
        mem::swap(self, other);
    }

    /// The accumulators become the rows, without a copy of one: what was there before, which differs from these where
    /// they are marked alone, is kept as accumulators that are stale.
    pub(crate) fn change_places(&mut self, rows: &mut Relay<Rows>, marks: &mut [bool])
        requires count { length marks.old ≡ length self.old.accumulated.rows }
        requires differ { DifferWhere self.old.touched rows.old self.old.accumulated }
        ensures rows { rows.new ≡ self.old.accumulated }
        ensures marks { marks.new ≡ self.old.touched }
        ensures begins { BeginsStale rows.new marks.new self.new }
    {
        rows.change_places(&mut self.accumulated, &self.touched);
        self.begin(marks);
    }

    pub(crate) fn heard(&self) -> SourceMask
        ensures { result ≡ self.now.heard }
    {
        self.heard
    }

    pub(crate) fn change(&self) -> bool
        ensures { result ≡ self.now.change }
    {
        self.change
    }

    /// The accumulators: the rows themselves if no others are kept.
    pub(crate) fn accumulators<'a>(&'a self, rows: &'a Rows) -> &'a Rows
        requires { rows.now.width ≡ self.now.accumulated.width }
        ensures rows { result.now.rows ≡ accumulators_of rows.now.rows self.now.accumulated.rows }
        ensures width { result.now.width ≡ rows.now.width }
    {
        if self.accumulated.len() == 0 {
            rows
        } else {
            &self.accumulated
        }
    }

    #[cfg(test)]
    pub(crate) fn count(&self) -> usize
        ensures { result ≡ length self.now.accumulated.rows }
    {
        self.accumulated.len()
    }

    /// Hears a batch of the superstep: its rows are spread, and its source is heard.
    pub(crate) fn hear(&mut self, targets: &Targets, batch: &Batch)
        requires { HearsByIndex batch.now.plan.log2m targets.now self.old }
        ensures { HearsAlso batch.now.plan.log2m targets.now
            (batch_by batch.now.name.source (Some batch.now)) self.old self.new }
    {
        spread_batch(targets, batch, &mut self.accumulated, &mut self.touched);
        self.heard.insert(batch.name().source);
        self.change |= batch.changed() != 0;
    }

    /// Hears the batches that are kept of a superstep that has begun, once `passed` others were skipped, and keeps
    /// only those of later ones.
    pub(crate) fn hear_early(
        &mut self,
        targets: &Targets,
        plan: &Plan,
        early: &mut Early,
        passed: u32,
    )
        requires { CanHear plan.now targets.now early.old self.old }
        ensures { HearsEarly plan.now.log2m targets.now passed early.old early.new
            self.old self.new }
    {
        early.shift(passed.min(LEVELS as u32) as usize);
        for source in 0..plan.parts() {
            match early.get(0, source) {
                Some(batch) => self.hear(targets, batch),
                None => {}
            }
        }
        early.shift(1);
    }

    /// The accumulators, which the rows become.
    pub(crate) fn ahead(&self) -> &Rows
        ensures { result.now ≡ self.now.accumulated }
    {
        &self.accumulated
    }

    /// Which of the accumulators differ from their rows.
    pub(crate) fn touched(&self) -> &[bool]
        ensures { result.now ≡ self.now.touched }
    {
        &self.touched
    }

    /// What changed in the own partition is heard too: then the accumulators are the rows of the next superstep.
    pub(crate) fn hear_own(&mut self, targets: &Targets, part: &Part, tables: &Tables)
        requires { CanHearOwn part.now targets.now tables.now self.old }
        ensures { HearsOwn part.now targets.now tables.now self.old self.new }
    {
        let own = Own {
            targets: &*targets,
            part: &*part,
            rows: tables.rows(),
            marks: tables.marks(),
        };
        spread_own(&own, &mut self.accumulated, &mut self.touched);
    }

    /// Hears the own rows that changed, as [`Hearing::hear_own`] does, and figures become those of what is accumulated
    /// then, in one walk. It returns what the sum of the last estimates has gained.
    pub(crate) fn hear_and_step<H: Hands>(
        &mut self,
        hands: &H,
        walk: &Walk<'_>,
        tallies: &mut Relay<Tallies>,
        weights: &mut [u64],
    ) -> u128
        requires ready { H.ready hands.now }
        requires can { CanWalk walk.now.estimator.now walk.now.t walk.now.pull.part.now
            walk.now.pull.rows.now walk.now.pull.marks.now
            (fresh_table walk.now.stale walk.now.pull.rows.now self.old.accumulated)
            self.old.touched weights.old tallies.old }
        requires stale { IsTrue walk.now.stale → DifferWhere walk.now.pull.marks.now
            self.old.accumulated walk.now.pull.rows.now }
        ensures walks { Walks walk.now.estimator.now walk.now.t walk.now.pull.part.now
            walk.now.pull.rows.now walk.now.pull.marks.now
            (fresh_table walk.now.stale walk.now.pull.rows.now self.old.accumulated)
            self.new.accumulated self.old.touched self.new.touched tallies.old tallies.new
            weights.new result }
        ensures heard { self.new.heard ≡ self.old.heard }
        ensures change { self.new.change ≡ self.old.change }
    {
        tallies.walk(
            hands,
            walk,
            &mut self.accumulated,
            &mut self.touched,
            weights,
        )
    }

    /// Begins the next superstep, once the accumulators have become the rows: those that changed are marked, and
    /// nothing is heard yet.
    pub(crate) fn begin(&mut self, marks: &mut [bool])
        requires { length marks.old ≡ length self.old.accumulated.rows }
        ensures { BeginsSuperstep self.old self.new marks.new }
    {
        marks.copy_from_slice(&self.touched);
        clear_marks(&mut self.touched);
        self.heard = SourceMask::empty();
        self.change = false;
    }

    /// Becomes what is heard beside the rows of another one of the same partition.
    pub(crate) fn assign(&mut self, rows: &Rows, other: &Hearing)
        requires { CanFill rows.now other.now self.old }
        ensures { Fills rows.now other.now self.new }
    {
        self.accumulated.copy_from(other.accumulators(rows));
        mark_differences(rows, &self.accumulated, &mut self.touched);
        self.heard = other.heard;
        self.change = other.change;
    }

    /// Takes over what another one of the same partition and superstep has heard, with these accumulators.
    pub(crate) fn absorb(&mut self, alloc: Global, rows: &Rows, other: &Hearing, theirs: &Rows)
        requires { CanJoin rows.now theirs.now self.old }
        ensures { self.new ≡ record {
          heard = union_of_flags self.old.heard other.now.heard;
          change = self.old.change || other.now.change;
          accumulated = maximum_of_rows self.old.accumulated theirs.now;
          touched = differences rows.now.rows
              (maximum_of_rows self.old.accumulated theirs.now).rows (length rows.now.rows);
        } }
    {
        let _heard = self.heard.join(alloc, &other.heard);
        let _raised = self.accumulated.join(alloc, theirs);
        mark_differences(rows, &self.accumulated, &mut self.touched);
        self.change |= other.change;
    }

    /// What was heard, in buffers of its own, with no accumulators if none of them differs from its row.
    pub(crate) fn copied(&self, alloc: Global) -> Result<Hearing, AllocError>
        ensures { IfOk result (λ copy. (rows : List (List ℕ)) →
            KeepsAllOrNone rows self.now → SaysSame rows self.now copy) }
    {
        if any_marked(&self.touched) {
            let accumulated = copy_rows(alloc, &self.accumulated)?;
            let touched = Vec::from_slice(alloc, &self.touched)?;
            return Ok(Hearing {
                heard: self.heard,
                change: self.change,
                accumulated,
                touched,
            });
        }
        let accumulated = Rows::fixed(alloc, 0, self.accumulated.width() as u16)?;
        Ok(Hearing {
            heard: self.heard,
            change: self.change,
            accumulated,
            touched: Vec::new(alloc),
        })
    }

    /// Drops the accumulators, if no row differs from what is accumulated for it.
    pub(crate) fn let_go(&mut self)
        ensures { (rows : List (List ℕ)) →
            KeepsAllOrNone rows self.old → SaysSame rows self.old self.new }
    {
        if !any_marked(&self.touched) {
            self.accumulated.clear();
            self.touched.clear();
            self.touched.shrink_to_fit();
        }
    }

    /// Keeps the accumulators again that were dropped. An error changes nothing.
    pub(crate) fn renew(&mut self, alloc: Global, rows: &Rows) -> Result<(), AllocError>
        requires { CanRenew rows.now self.old }
        ensures renewed { OnOk result (Renews rows.now.rows self.old self.new) }
        ensures refused { OnErr result (self.new ≡ self.old) }
    {
        if self.accumulated.len() == 0 {
            let Hearing {
                accumulated,
                touched,
                ..
            } = Hearing::start(alloc, rows)?;
            self.accumulated = accumulated;
            self.touched = touched;
        }
        Ok(())
    }
}

pub(crate) fn differences(
    alloc: Global,
    rows: &Rows,
    accumulated: &Rows,
) -> Result<Vec<bool>, AllocError>
    requires { length accumulated.now.rows ≡ length rows.now.rows }
    ensures { IfOk result (λ touched. touched.items ≡
        differences rows.now.rows accumulated.now.rows (length rows.now.rows)) }
{
    let mut touched = vec![in alloc; false; rows.len()]?;
    mark_differences(rows, accumulated, &mut touched);
    Ok(touched)
}

/// Each marked row becomes that of `ahead`, from which no other one differs.
pub(crate) fn catch_up(rows: &mut Rows, ahead: &Rows, marks: &[bool])
    requires { DifferWhere marks.now rows.old ahead.now }
    ensures { rows.new ≡ ahead.now }
{
    let mut i = next_marked(marks, 0);
    while i < marks.len() {
        rows.put(i, ahead.row(i));
        i = next_marked(marks, i + 1);
    }
}

pub(crate) fn copy_rows(alloc: Global, rows: &Rows) -> Result<Rows, AllocError>
    ensures { IfOk result (λ copy. copy ≡ rows.now) }
{
    let mut copy = Rows::fixed(alloc, rows.len() as u32, rows.width() as u16)?;
    copy.copy_from(rows);
    Ok(copy)
}
