//! Batches of supersteps to come.

ghost use Rattle.std.specs.Prelude.{◌≡◌, ℕ, ◌<◌, ◌≤◌, replicate, length};
ghost use Rattle.std.specs.Prelude.{option_map, slice_set, None, Some, map, IfOk};
ghost use Rattle.std.specs.Arc.{arc_value};
ghost use Rattle.ball_model.specs.State.{early_at};
ghost use Rattle.std.specs.List.{slice_get};
ghost use Rattle.replica.specs.Ahead.{ComesNearer, IsEmptyTable, IsTable, KeepsAlso, KeepsEither};
ghost use Rattle.replica.specs.Ahead.{StaysTable, either, union_of_slots, slots_after};
ghost use Rattle.ball_model.specs.Checkpoint.{kept_batches};

use batches::Batch;
use std::alloc::{AllocError, Global};
use std::marker::Model;
use std::sync::Arc;

/// Of how many supersteps ahead batches are kept.
pub const LEVELS: usize = 3;

/// For each of the supersteps that follow, [`LEVELS`] of them, by source, the batch that is kept.
///
/// All its room is taken when it is made.
#[derive(Drop)]
pub(crate) struct Early {
    parts: usize,
    // at level * parts + source
    slots: Vec<Option<Arc<Batch>>>,
}

impl Model for Early {
    ghost use Rattle.std.specs.Prelude.{List, Option, ◌≡◌, ◌*◌, length, map, option_map};
    ghost use Rattle.std.specs.Arc.{arc_value};
    ghost use Rattle.ball_model.specs.Batches.{BatchValue};
    ghost use Rattle.replica.specs.Ahead.{table_of};
    ghost use Rattle.replica.specs.declared.early.TheConstants.{LEVELS};

    ghost Value = { List (List (Option BatchValue)) };

    ghost view = { λ e. table_of e.parts (map (option_map arc_value) e.slots.items) };

    ghost invariant = { λ e. length e.slots.items ≡ LEVELS * e.parts };
}

impl Early {
    /// Room for the batches of `parts` sources.
    pub(crate) fn empty(alloc: Global, parts: u16) -> Result<Early, AllocError>
        ensures { IfOk result (IsEmptyTable parts) }
    {
        let parts = usize::from(parts);
        let slots = empty_slots(alloc, LEVELS * parts)?;
        Ok(Early { parts, slots })
    }

    /// The batch of a source, `level` supersteps after the next one.
    pub(crate) fn get(&self, level: usize, source: u16) -> Option<&Batch>
        ensures { option_map (λ b. b.now) result ≡ early_at self.now level source }
    {
        let source = usize::from(source);
        if LEVELS <= level || self.parts <= source {
            return None;
        }
        match &self.slots[level * self.parts + source] {
            Some(batch) => Some(batch),
            None => None,
        }
    }

    pub(crate) fn count(&self) -> usize
        ensures { result ≡ length (kept_batches self.now) }
    {
        self.slots.iter().flatten().count()
    }

    /// The batch that is kept at place `i`, by superstep, then by source.
    pub(crate) fn nth(&self, i: usize) -> Option<&Batch>
        ensures { option_map (λ b. b.now) result ≡ slice_get (kept_batches self.now) i }
    {
        match self.slots.iter().flatten().nth(i) {
            Some(batch) => Some(batch),
            None => None,
        }
    }

    pub(crate) fn keep(&mut self, level: usize, source: u16, batch: Arc<Batch>)
        requires level { level < LEVELS }
        requires source { (parts : ℕ) → IsTable parts self.old → source < parts }
        ensures { KeepsAlso level source (arc_value batch) self.old self.new }
    {
        let place = level * self.parts + usize::from(source);
        put(&mut self.slots, place, batch);
    }

    /// `count` supersteps pass: their batches are dropped, and later ones come nearer.
    pub(crate) fn shift(&mut self, count: usize)
        requires { count ≤ LEVELS }
        ensures { ComesNearer count self.old self.new }
    {
        shift_slots(&mut self.slots, count * self.parts);
    }

    /// Each source without a batch gets that of the other one.
    pub(crate) fn fill(&mut self, other: &mut Early)
        requires { StaysTable self.old other.old }
        ensures { KeepsEither self.old other.old self.new }
    {
        fill_slots(&mut self.slots, &mut other.slots);
    }

    /// These batches, shared.
    pub(crate) fn share(&self, alloc: Global) -> Result<Early, AllocError>
        ensures { IfOk result (λ e. e ≡ self.now) }
    {
        let slots = share_slots(alloc, &self.slots)?;
        Ok(Early {
            parts: self.parts,
            slots,
        })
    }
}

fn empty_slots(alloc: Global, count: usize) -> Result<Vec<Option<Arc<Batch>>>, AllocError>
    ensures { IfOk result (λ slots. map (option_map arc_value) slots.items ≡ replicate count None) }
{
    let mut slots = Vec::with_capacity(alloc, count)?;
    for _ in 0..count {
        slots.push_reserved(None);
    }
    Ok(slots)
}

fn put(slots: &mut [Option<Arc<Batch>>], place: usize, batch: Arc<Batch>)
    requires { place < length slots.old }
    ensures { map (option_map arc_value) slots.new ≡
        slice_set (map (option_map arc_value) slots.old) place (Some (arc_value batch)) }
{
    slots[place] = Some(batch);
}

// The batches move `count` places nearer, and the first ones are dropped.
fn shift_slots(slots: &mut [Option<Arc<Batch>>], count: usize)
    requires { count ≤ length slots.old }
    ensures { map (option_map arc_value) slots.new ≡
        slots_after count (map (option_map arc_value) slots.old) }
{
    clear(&mut slots[..count]);
    slots.rotate_left(count);
}

fn clear(slots: &mut [Option<Arc<Batch>>])
    ensures { map (option_map arc_value) slots.new ≡ replicate (length slots.old) None }
{
    for i in 0..slots.len() {
        slots[i] = None;
    }
}

// Each empty slot takes what the other one at its place has.
fn fill_slots(slots: &mut [Option<Arc<Batch>>], others: &mut [Option<Arc<Batch>>])
    requires { length others.old ≡ length slots.old }
    ensures { map (option_map arc_value) slots.new ≡ union_of_slots
        (map (option_map arc_value) slots.old)
        (map (option_map arc_value) others.old) }
{
    for i in 0..slots.len() {
        fill_one(&mut slots[i], &mut others[i]);
    }
}

// A slot that is empty takes what the other one has.
fn fill_one(slot: &mut Option<Arc<Batch>>, other: &mut Option<Arc<Batch>>)
    ensures { option_map arc_value slot.new ≡
        either (option_map arc_value slot.old) (option_map arc_value other.old) }
{
    if slot.is_none() {
        *slot = other.take();
    }
}

// The batches of these slots, shared.
fn share_slots(
    alloc: Global,
    slots: &[Option<Arc<Batch>>],
) -> Result<Vec<Option<Arc<Batch>>>, AllocError>
    ensures { IfOk result (λ shared. map (option_map arc_value) shared.items ≡
        map (option_map arc_value) slots.now) }
{
    let mut shared = Vec::with_capacity(alloc, slots.len())?;
    for slot in slots {
        shared.push_reserved(share_one(slot)?);
    }
    Ok(shared)
}

fn share_one(slot: &Option<Arc<Batch>>) -> Result<Option<Arc<Batch>>, AllocError>
    ensures { IfOk result (λ shared. option_map arc_value shared ≡ option_map arc_value slot.now) }
{
    match slot {
        Some(batch) => Ok(Some(Arc::try_clone(batch)?)),
        None => Ok(None),
    }
}
