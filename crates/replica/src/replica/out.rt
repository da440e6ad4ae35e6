//! What a replica sends to the other partitions.

ghost use Rattle.std.specs.Prelude.{◌≡◌, ◌≢◌, ℕ, ◌<◌, [], length, IfOk, OnOk};
ghost use Rattle.std.specs.Arc.{arc_value};
ghost use Rattle.ball_model.specs.Job.{Job};
ghost use Rattle.ball_model.specs.Batches.{true_batch};
ghost use Rattle.ball_model.specs.State.{StandsFor};
ghost use Rattle.replica.specs.Sent.{AreChanged, AreChangedVertices, batch_name};
ghost use Rattle.replica.specs.Sent.{changed_registers, sent_batch};

use crate::marks::count_set;
use crate::telling::Telling;
use crate::{Replica, Shown};
use ball_model::BatchName;
use batches::Batch;
use registers::next_marked;
use std::alloc::{AllocError, Global};
use std::marker::Model;
use std::sync::Arc;

/// The vertices of a partition that changed at a superstep, and a table of their registers that batches share.
#[derive(Drop)]
pub struct ChangedRows {
    // their places in the partition, ascending
    vertices: Vec<u32>,
    registers: Arc<Vec<u8>>,
}

impl Model for ChangedRows {
    ghost use Rattle.std.specs.Arc.{arc_value};
    ghost use Rattle.replica.specs.Sent.{ChangedValue};

    ghost Value = { ChangedValue };

    ghost view = { λ c. record {
      vertices = c.vertices.items;
      registers = (arc_value c.registers).items;
    } };
}

impl ChangedRows {
    /// The table of registers, one row after the other.
    pub fn table(&self) -> Result<Arc<Vec<u8>>, AllocError>
        ensures { IfOk result (λ table. (arc_value table).items ≡ self.now.registers) }
    {
        Ok(Arc::try_clone(&self.registers)?)
    }
}

impl Replica {
    /// The batch of this superstep for another partition, `target`.
    ///
    /// The batch has the registers of each vertex that changed and has an edge into the target, ascending, and the
    /// number of all vertices that changed. It is to be sent even if it has no rows: a level is held only with it.
    #[tactic(auto, using(crate::proofs::SentLemmas::Sent::sent_target))]
    pub fn out(&self, alloc: Global, target: u16) -> Result<Batch, AllocError>
        requires target { target < self.now.part.plan.parts }
        requires other { target ≢ self.now.part.number }
        ensures value { IfOk result (λ b. b ≡
            sent_batch self.now target (length self.now.part.preds)) }
        ensures stands { (j : Job) (p t : ℕ) → StandsFor j p t self.now →
            IfOk result (λ b. b ≡ true_batch j (batch_name t p target)) }
    {
        let name = BatchName {
            superstep: self.superstep(),
            source: self.partition(),
            target,
        };
        let vertices = self.changed_vertices(alloc)?;
        let mut batch = Batch::start(alloc, self.plan(), name, vertices.len() as u32)?;
        let telling = Telling {
            stage: &self.stage,
            vertices: &vertices,
            target,
        };
        batch.reserve(telling.count())?;
        telling.send_rows(&mut batch)?;
        Ok(batch)
    }

    /// The vertices that changed at this superstep, and a table of their registers, which all batches of the superstep
    /// share: [`Replica::out_of`] is asked with it for each target.
    ///
    /// It walks over the marks twice: to count those that are set, and to list them. The table is made in the room of
    /// another one, whose content is gone.
    pub fn changed_rows(&self, alloc: Global, room: Vec<u8>) -> Result<ChangedRows, AllocError>
        ensures { IfOk result (λ changed. AreChanged self.now changed) }
    {
        let vertices = self.changed_vertices(alloc)?;
        let mut registers = room;
        registers.clear();
        registers.reserve_exact(vertices.len() * self.plan().width())?;
        self.put_rows(&mut registers, &vertices)?;
        Ok(ChangedRows {
            vertices,
            registers: Arc::new(alloc, registers)?,
        })
    }

    /// The batch of [`Replica::out`], with its registers in the table of those that changed, which all batches of the
    /// superstep share: it takes memory for a vertex and a place a row, and copies no register. It looks only at
    /// vertices that changed.
    pub fn out_of(
        &self,
        alloc: Global,
        changed: &ChangedRows,
        target: u16,
    ) -> Result<Batch, AllocError>
        requires target { target < self.now.part.plan.parts }
        requires other { target ≢ self.now.part.number }
        requires changed { AreChanged self.now changed.now }
        ensures value { IfOk result (λ b. b ≡
            sent_batch self.now target (length self.now.part.preds)) }
        ensures stands { (j : Job) (p t : ℕ) → StandsFor j p t self.now →
            IfOk result (λ b. b ≡ true_batch j (batch_name t p target)) }
    {
        let name = BatchName {
            superstep: self.superstep(),
            source: self.partition(),
            target,
        };
        let telling = Telling {
            stage: &self.stage,
            vertices: &changed.vertices,
            target,
        };
        let told = telling.told(alloc)?;
        let table = Arc::try_clone(&changed.registers)?;
        Ok(Batch::sharing(
            self.plan(),
            name,
            changed.vertices.len() as u32,
            table,
            told.ids,
            told.places,
        ))
    }

    // The vertices that changed, by their places, ascending.
    fn changed_vertices(&self, alloc: Global) -> Result<Vec<u32>, AllocError>
        ensures { IfOk result (λ vertices. AreChangedVertices self.now vertices.items) }
    {
        let s = self.shown();
        let marks = s.tables.marks();
        let mut vertices = Vec::with_capacity(alloc, count_set(marks))?;
        let mut i = next_marked(marks, 0);
        while i < marks.len() {
            vertices.push(i as u32)?;
            i = next_marked(marks, i + 1);
        }
        Ok(vertices)
    }

    // Fills an empty table with the registers of the vertices that changed, one row after the other.
    fn put_rows(&self, table: &mut Vec<u8>, vertices: &[u32]) -> Result<(), AllocError>
        requires vertices { AreChangedVertices self.now vertices.now }
        requires empty { table.old.items ≡ [] }
        ensures { OnOk result (table.new.items ≡ changed_registers self.now) }
    {
        let s = self.shown();
        for k in 0..vertices.len() {
            table.extend_from_slice(s.tables.rows().row(vertices[k] as usize))?;
        }
        Ok(())
    }
}
