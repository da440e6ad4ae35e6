//! A history, and what it leaves: what lies in the slot of a board, or a board of one caller.

ghost use Rattle.std.specs.Prelude.{◌≡◌, ◌<◌, ◌≤◌, cond, nat_lt, IsTrue, IsFalse, true, false};
ghost use Rattle.std.specs.Prelude.{None, Some, length, replicate, slice_get, slice_index_or};
ghost use Rattle.std.specs.Prelude.{is_some, option_map, IfErr, IfOk, OnOk, OnErr, IfSome, IfNone};
ghost use Rattle.std.specs.Arc.{arc_value};
ghost use Rattle.std.specs.BTreeMap.{get};
ghost use Rattle.board.specs.declared.error.BoardError.TheVariants.{BookFull, Memory};
ghost use Rattle.ball_model.specs.Job.{job_of};
ghost use Rattle.ball_model.specs.Batches.{IsTrueBatch};
ghost use Rattle.ball_model.specs.State.{Stands};
ghost use Rattle.ball_model.specs.History.{Post, Keep, Drop, IsLegal, start_history, entries_of};
ghost use Rattle.ball_model.specs.History.{board_of, holding_in, is_further, is_kept_from};
ghost use Rattle.board.specs.Noted.{AreDropped, IsFetched, IsNoted, IsNext, IsRecalled, by_name};
ghost use Rattle.board.specs.Noted.{displaced_by};
ghost use Rattle.board.specs.Book.{held_at, IsPut, kept_after, reply_in, reply_to};

use crate::calls::Calls;
use crate::error::BoardError;
use crate::event::HistoryEvent;
use ball_model::{BatchName, Kept, Plan, Posted};
use batches::Batch;
use graph::Graph;
use replica::{Shown, Snapshot};
use std::alloc::{AllocError, Global};
use std::collections::BTreeMap;
use std::marker::Model;
use std::mem;
use std::snapshot::Snapshot as Seen;
use std::sync::Arc;

/// A history, with what it leaves: the floor, the batches on the board, and the snapshot kept for each partition.
///
/// It is what the threads at a [`Board`](crate::Board) take turns with, and by itself a board of one caller: each call
/// is given the caller's number and how many entries the history may have, and the history is its model. If a call
/// answers an error the book is as it was. What a call displaces it returns, so that the caller can drop it when
/// nobody waits.
#[derive(Drop)]
pub(crate) struct Book {
    graph: Seen<Graph>,
    plan: Seen<Plan>,
    calls: Calls,
    floor: u32,
    standing: BTreeMap<BatchName, Arc<Batch>>,
    kept: Vec<Option<Arc<Snapshot>>>,
}

impl Model for Book {
    ghost use Rattle.ball_model.specs.History.{History};

    ghost Value = { History };

    ghost use Rattle.board.specs.Book.{history_of, IsBook};

    ghost view = { history_of };

    ghost invariant = { IsBook };
}

impl Book {
    /// The book of a history that has the opening alone.
    pub(crate) fn open(alloc: Global, graph: &Graph, plan: &Plan) -> Result<Book, AllocError>
        ensures { IfOk result (λ b. b ≡ start_history (job_of graph.now.graph plan.now)) }
    {
        Ok(Book {
            graph: Seen::of(graph),
            plan: Seen::of(plan),
            calls: Calls::new(alloc),
            floor: 0,
            standing: BTreeMap::new(alloc),
            kept: start_kept(alloc, plan.parts())?,
        })
    }

    /// The number of entries. The history is legal.
    pub(crate) fn entries(&self) -> u32
        ensures entries { result ≡ entries_of self.now }
        ensures legal { IsLegal self.now }
    {
        self.calls.entries()
    }

    /// Finds the batch of a name, and notes it: None exactly if the name is not there, and then nothing is noted.
    ///
    /// [`BookFull`](BoardError::BookFull) if the name is there and there are `limit` entries, then
    /// [`Memory`](BoardError::Memory) (also if the batch is shared 2^63 times).
    pub(crate) fn fetch(
        &mut self,
        by: u64,
        name: BatchName,
        limit: u32,
    ) -> Result<Option<Arc<Batch>>, BoardError>
        ensures found { IfOk result (λ r. IfSome r (λ a.
            IsFetched limit by name self.old self.new (arc_value a))) }
        ensures none { IfOk result (λ r. IfNone r
            ((self.new ≡ self.old) × ((board_of self.old).stands name ≡ false))) }
        ensures err { OnErr result
            ((self.new ≡ self.old) × ((board_of self.old).stands name ≡ true)) }
        ensures full { IfErr result (λ e. e ≡ BookFull → limit ≤ entries_of self.old) }
        ensures memory { IfErr result (λ e. e ≡ Memory → entries_of self.old < limit) }
        ensures next { IsNext limit by self.old self.new }
    {
        let Some(batch) = self.standing.get(&name) else {
            return Ok(None);
        };
        let copy = self.calls.share(batch, limit)?;
        self.calls.note(by, HistoryEvent::Fetch(name));
        Ok(Some(copy))
    }

    /// Puts a batch if none of its name is there, and notes the reply. The batch is shared, not moved.
    ///
    /// [`BookFull`](BoardError::BookFull) if there are `limit` entries, then [`Memory`](BoardError::Memory) (also if
    /// the batch is shared 2^63 times).
    pub(crate) fn post(
        &mut self,
        by: u64,
        batch: &Arc<Batch>,
        limit: u32,
    ) -> Result<Posted, BoardError>
        requires { IsTrueBatch self.old.job (arc_value batch.now) }
        ensures ok { IfOk result
            (λ r. IsNoted limit by (Post (arc_value batch.now).name r) self.old self.new) }
        ensures err { OnErr result (self.new ≡ self.old) }
        ensures full { IfErr result (λ e. e ≡ BookFull → limit ≤ entries_of self.old) }
        ensures memory { IfErr result (λ e. e ≡ Memory → entries_of self.old < limit) }
        ensures next { IsNext limit by self.old self.new }
    {
        let copy = self.calls.share(batch, limit)?;
        let name = copy.name();
        let reply = put_batch(&mut self.standing, self.floor, name, copy)?;
        self.calls.note(by, HistoryEvent::Post(name, reply));
        Ok(reply)
    }

    /// Keeps a snapshot if it is further than the one kept for its partition, and notes the reply; it returns the
    /// one that it displaces. The snapshot is shared, not moved.
    ///
    /// [`BookFull`](BoardError::BookFull) if there are `limit` entries, then [`Memory`](BoardError::Memory) (also if
    /// the snapshot is shared 2^63 times).
    pub(crate) fn keep(
        &mut self,
        by: u64,
        snapshot: &Arc<Snapshot>,
        limit: u32,
    ) -> Result<(Kept, Option<Arc<Snapshot>>), BoardError>
        requires { Stands self.old.job (arc_value snapshot.now) }
        ensures ok { IfOk result (λ r.
            IsNoted limit by (Keep (holding_in (arc_value snapshot.now)) r.0) self.old self.new) }
        ensures displaced { IfOk result (λ r. option_map (λ a. holding_in (arc_value a)) r.1
            ≡ displaced_by r.0 ((board_of self.old).kept (arc_value snapshot.now).part.number)) }
        ensures err { OnErr result (self.new ≡ self.old) }
        ensures full { IfErr result (λ e. e ≡ BookFull → limit ≤ entries_of self.old) }
        ensures memory { IfErr result (λ e. e ≡ Memory → entries_of self.old < limit) }
        ensures next { IsNext limit by self.old self.new }
    {
        let copy = self.calls.share(snapshot, limit)?;
        let seen = Seen::of(&*copy);
        let (reply, displaced) = put_snapshot(&mut self.kept, copy);
        self.calls.note(by, HistoryEvent::Keep(seen, reply));
        Ok((reply, displaced))
    }

    /// Finds the snapshot that is kept for a partition, if its superstep is `at_least` or later, and notes it:
    /// None exactly if there is none, and then nothing is noted.
    ///
    /// [`BookFull`](BoardError::BookFull) if there is one and there are `limit` entries, then
    /// [`Memory`](BoardError::Memory) (also if it is shared 2^63 times).
    pub(crate) fn recall(
        &mut self,
        by: u64,
        part: u16,
        at_least: u32,
        limit: u32,
    ) -> Result<Option<Arc<Snapshot>>, BoardError>
        ensures found { IfOk result (λ r. IfSome r (λ a.
            IsRecalled limit by part at_least self.old self.new (arc_value a))) }
        ensures none { IfOk result (λ r. IfNone r ((self.new ≡ self.old)
            × (is_kept_from ((board_of self.old).kept part) at_least ≡ false))) }
        ensures err { OnErr result ((self.new ≡ self.old)
            × (is_kept_from ((board_of self.old).kept part) at_least ≡ true)) }
        ensures full { IfErr result (λ e. e ≡ BookFull → limit ≤ entries_of self.old) }
        ensures memory { IfErr result (λ e. e ≡ Memory → entries_of self.old < limit) }
        ensures next { IsNext limit by self.old self.new }
    {
        let Some(snapshot) = find_snapshot(&self.kept, part, at_least) else {
            return Ok(None);
        };
        let copy = self.calls.share(snapshot, limit)?;
        self.calls
            .note(by, HistoryEvent::Recall(part, at_least, Seen::of(&*copy)));
        Ok(Some(copy))
    }

    /// Raises the floor to `superstep` at least, and notes it; it returns the batches below, which are no longer on
    /// the board.
    ///
    /// [`BookFull`](BoardError::BookFull) if there are `limit` entries, then [`Memory`](BoardError::Memory).
    pub(crate) fn drop_below(
        &mut self,
        by: u64,
        superstep: u32,
        limit: u32,
    ) -> Result<BTreeMap<BatchName, Arc<Batch>>, BoardError>
        ensures ok { OnOk result (IsNoted limit by (Drop superstep) self.old self.new) }
        ensures dropped { IfOk result
            (λ d. AreDropped arc_value superstep self.old (get by_name d)) }
        ensures err { OnErr result (self.new ≡ self.old) }
        ensures full { IfErr result (λ e. e ≡ BookFull → limit ≤ entries_of self.old) }
        ensures memory { IfErr result (λ e. e ≡ Memory → entries_of self.old < limit) }
        ensures next { IsNext limit by self.old self.new }
    {
        self.calls.make_room(limit)?;
        let dropped = drop_batches(self.calls.alloc, &mut self.standing, superstep)?;
        self.floor = self.floor.max(superstep);
        self.calls.note(by, HistoryEvent::DropBelow(superstep));
        Ok(dropped)
    }
}

// A place for a snapshot of each partition.
fn start_kept(alloc: Global, parts: u16) -> Result<Vec<Option<Arc<Snapshot>>>, AllocError>
    ensures { IfOk result (λ kept. kept.items ≡ replicate parts None) }
{
    let mut kept = Vec::with_capacity(alloc, usize::from(parts))?;
    for _ in 0..parts {
        kept.push(None)?;
    }
    Ok(kept)
}

// Puts a batch if none of its name is there.
fn put_batch(
    standing: &mut BTreeMap<BatchName, Arc<Batch>>,
    floor: u32,
    name: BatchName,
    batch: Arc<Batch>,
) -> Result<Posted, BoardError>
    ensures reply { IfOk result (λ r.
        r ≡ reply_to (nat_lt name.superstep floor) (is_some (get by_name standing.old name))) }
    ensures put { IfOk result (λ r.
        IsPut r name batch (get by_name standing.old) (get by_name standing.new)) }
    ensures err { IfErr result (λ e. (e ≡ Memory)
        × ((n : BatchName) → get by_name standing.new n ≡ get by_name standing.old n)) }
{
    if name.superstep < floor {
        return Ok(Posted::Old);
    }
    if standing.contains_key(&name) {
        return Ok(Posted::Known);
    }
    let Ok(_) = standing.insert(name, batch) else {
        return Err(BoardError::Memory);
    };
    Ok(Posted::New)
}

// Puts a snapshot in its place if it is further than the one there, which is then returned.
fn put_snapshot(
    kept: &mut Vec<Option<Arc<Snapshot>>>,
    snapshot: Arc<Snapshot>,
) -> (Kept, Option<Arc<Snapshot>>)
    requires { (arc_value snapshot).part.number < length kept.old.items }
    ensures reply { result.0 ≡ reply_in arc_value kept.old.items snapshot }
    ensures put { kept.new.items ≡ kept_after arc_value result.0 kept.old.items snapshot }
    ensures displaced { option_map (λ a. holding_in (arc_value a)) result.1
        ≡ displaced_by result.0
        (held_at arc_value kept.old.items (arc_value snapshot).part.number) }
{
    let place = usize::from(snapshot.partition());
    if !is_ahead(&kept[place], &snapshot) {
        return (Kept::Behind, None);
    }
    let displaced = kept[place].replace(snapshot);
    (Kept::New, displaced)
}

// Whether a snapshot is further than the one that is kept.
fn is_ahead(old: &Option<Arc<Snapshot>>, new: &Snapshot) -> bool
    ensures { result
        ≡ is_further (option_map (λ a. holding_in (arc_value a)) old.now) (holding_in new.now) }
{
    match old {
        Some(old) => old.superstep() < new.superstep(),
        None => true,
    }
}

// The snapshot that is kept for a partition, if it is far enough.
fn find_snapshot(kept: &[Option<Arc<Snapshot>>], part: u16, at_least: u32) -> Option<&Arc<Snapshot>>
    ensures found { IfSome result (λ a. (slice_index_or kept.now part None ≡ Some a.now)
        × (at_least ≤ (arc_value a.now).superstep)) }
    ensures kept { is_some result ≡ is_kept_from (held_at arc_value kept.now part) at_least }
{
    match kept.get(usize::from(part)) {
        Some(Some(snapshot)) if snapshot.superstep() >= at_least => Some(snapshot),
        _ => None,
    }
}

// Whether the first name is of a superstep below s. If it is not, none is.
fn first_is_below(standing: &BTreeMap<BatchName, Arc<Batch>>, s: u32) -> bool
    ensures below { IsTrue result → (e : BatchName × _)
        × (slice_get standing.now.entries 0 ≡ Some e) × (e.0.superstep < s) }
    ensures none { IsFalse result → (n : BatchName) → n.superstep < s
        → get by_name standing.now n ≡ None }
{
    match standing.first_key_value() {
        Some((name, _)) => name.superstep < s,
        None => false,
    }
}

// Takes out the batches of supersteps below s.
fn drop_batches(
    alloc: Global,
    standing: &mut BTreeMap<BatchName, Arc<Batch>>,
    s: u32,
) -> Result<BTreeMap<BatchName, Arc<Batch>>, AllocError>
    ensures left { OnOk result ((n : BatchName) → get by_name standing.new n
        ≡ cond (nat_lt n.superstep s) None (get by_name standing.old n)) }
    ensures dropped { IfOk result (λ d. (n : BatchName) → get by_name d n
        ≡ cond (nat_lt n.superstep s) (get by_name standing.old n) None) }
    ensures err { OnErr result
        ((n : BatchName) → get by_name standing.new n ≡ get by_name standing.old n) }
{
    if !first_is_below(standing, s) {
        return Ok(BTreeMap::new(alloc));
    }
    let least = BatchName {
        superstep: s,
        source: 0,
        target: 0,
    };
    let left = standing.split_off(&least)?;
    Ok(mem::replace(standing, left))
}
