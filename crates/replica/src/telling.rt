//! What a partition is sent of a superstep.

ghost use Rattle.std.specs.Prelude.{◌≡◌, ◌+◌, ◌<◌, length, slice_index_or, IfOk, OnOk};
ghost use Rattle.ball_model.specs.Masks.{has_bit};
ghost use Rattle.replica.specs.Sent.{IsTold, IsToldBefore, next_place, sent_batch};

use crate::Stage;
use batches::Batch;
use std::alloc::{AllocError, Global};
use std::marker::Model;

/// What is sent, as vertices and the places of their rows among those that changed, and how many of the vertices so
/// far changed.
#[derive(Drop)]
pub(crate) struct ToldVertices {
    pub(crate) ids: Vec<u32>,
    pub(crate) places: Vec<u32>,
    pub(crate) changed: u32,
}

/// What the partition `target` is sent: those of the vertices that changed that have an edge into it.
#[derive(Drop)]
pub(crate) struct Telling<'a> {
    pub(crate) stage: &'a Stage,
    // the places of the vertices that changed, ascending
    pub(crate) vertices: &'a [u32],
    pub(crate) target: u16,
}

impl<'a> Model for Telling<'a> {
    ghost use Rattle.replica.specs.Sent.{CanTell, TellingValue};

    ghost Value = { TellingValue };

    ghost view = { λ t. record {
      state = t.stage.now.state;
      vertices = t.vertices.now;
      target = t.target;
    } };

    ghost invariant = { λ t. CanTell t.stage.now.state t.vertices.now t.target };
}

impl<'a> Telling<'a> {
    /// What is sent, with the places of the rows.
    pub(crate) fn told(&self, alloc: Global) -> Result<ToldVertices, AllocError>
        ensures { IfOk result (λ told. IsTold self.now.state self.now.target
            (length self.now.state.part.preds) told.ids.items told.places.items told.changed) }
    {
        let room = self.count() as usize;
        let mut told = ToldVertices {
            ids: Vec::with_capacity(alloc, room)?,
            places: Vec::with_capacity(alloc, room)?,
            changed: 0,
        };
        for k in 0..self.vertices.len() {
            self.tell_row(&mut told, k)?;
        }
        Ok(told)
    }

    /// How many of the vertices are sent.
    pub(crate) fn count(&self) -> u32 {
        let mut count = 0u32;
        for k in 0..self.vertices.len() {
            if self.feeds(k) {
                count += 1;
            }
        }
        count
    }

    /// Adds to a batch with no rows those that are sent.
    pub(crate) fn send_rows(&self, batch: &mut Batch) -> Result<(), AllocError>
        requires { batch.old ≡ sent_batch self.now.state self.now.target 0 }
        ensures { OnOk result (batch.new ≡
            sent_batch self.now.state self.now.target (length self.now.state.part.preds)) }
    {
        for k in 0..self.vertices.len() {
            self.send_row(batch, k)?;
        }
        Ok(())
    }

    // Counts vertex k of those that changed, and adds it and the place of its row if it is sent.
    fn tell_row(&self, told: &mut ToldVertices, k: usize) -> Result<(), AllocError>
        requires below { k < length self.now.vertices }
        requires so_far { IsToldBefore self.now k
            told.old.ids.items told.old.places.items told.old.changed }
        ensures { OnOk result (IsToldBefore self.now (k + 1)
            told.new.ids.items told.new.places.items told.new.changed) }
    {
        let s = self.stage;
        let is_fed = self.feeds(k);
        let place = told.changed;
        told.changed += 1;
        if is_fed {
            told.ids.push(s.part.vertex(self.vertices[k]))?;
            told.places.push(place)?;
        }
        Ok(())
    }

    // Adds the row of vertex k of those that changed, if it is sent.
    fn send_row(&self, batch: &mut Batch, k: usize) -> Result<(), AllocError>
        requires below { k < length self.now.vertices }
        requires so_far { batch.old ≡
            sent_batch self.now.state self.now.target (next_place self.now k) }
        ensures { OnOk result (batch.new ≡
            sent_batch self.now.state self.now.target (next_place self.now (k + 1))) }
    {
        if self.feeds(k) {
            let s = self.stage;
            let i = self.vertices[k];
            batch.push(s.part.vertex(i), s.tables.rows().row(i as usize))?;
        }
        Ok(())
    }

    // Whether vertex k of those that changed is sent.
    #[inline]
    fn feeds(&self, k: usize) -> bool
        requires { k < length self.now.vertices }
        ensures { result ≡ has_bit (slice_index_or self.now.state.part.feeds
            (slice_index_or self.now.vertices k 0) 0) self.now.target }
    {
        let s = self.stage;
        (s.part.feeds(self.vertices[k]) >> self.target) % 2 == 1
    }
}
