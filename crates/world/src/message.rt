//! A message of a world: a batch as it was sent.

ghost use Rattle.std.specs.Prelude.{◌≡◌, IfOk};
ghost use Rattle.std.specs.Arc.{arc_value};
ghost use Rattle.ball_model.specs.declared.names.BatchName.{BatchName as Name};
ghost use Rattle.ball_model.specs.Batches.{true_batch};
ghost use Rattle.ball_model.specs.Held.{IsName};
ghost use Rattle.ball_model.specs.Job.{Job, IsJob};
ghost use Rattle.world.specs.Shows.{message_of};

use ball_model::Plan;
use batches::{Batch, BatchError};
use std::alloc::{AllocError, Global};
use std::marker::Model;
use std::sync::Arc;

/// A message: the bytes of a batch, and the plan that the batch is for.
#[derive(Drop)]
pub(crate) struct Message {
    plan: Plan,
    bytes: Vec<u8>,
}

impl Model for Message {
    ghost use Rattle.world.specs.Shows.{IsMessage, SeenMessage};

    ghost Value = { SeenMessage };

    ghost view = { λ m. record { plan = m.plan; bytes = m.bytes.items } };

    ghost invariant = { λ m. IsMessage (record { plan = m.plan; bytes = m.bytes.items }) };
}

impl Message {
    /// The message of a batch. The error is that memory was refused.
    pub(crate) fn spell(alloc: Global, batch: &Batch) -> Result<Message, AllocError>
        ensures { IfOk result (λ m. m ≡ message_of batch.now) }
    {
        let bytes = batch.encode(alloc)?;
        Ok(Message {
            plan: *batch.plan(),
            bytes,
        })
    }

    /// The batch that was sent. The error is that memory was refused: what was spelled is read.
    pub(crate) fn read(&self, alloc: Global) -> Result<Arc<Batch>, AllocError>
        ensures { (j : Job) (name : Name) → IsJob j → IsName j.plan name →
            self.now ≡ message_of (true_batch j name) →
            IfOk result (λ b. arc_value b ≡ true_batch j name) }
    {
        match Batch::decode(alloc, &self.plan, &self.bytes) {
            Ok(batch) => Ok(Arc::new(alloc, batch)?),
            Err(error) => Err(want_of(error)),
        }
    }
}

// A batch that was spelled is refused for want of memory alone.
fn want_of(error: BatchError) -> AllocError
    requires { error ≡ BatchError.Memory }
{
    match error {
        BatchError::Memory => AllocError,
        _ => unreachable!(),
    }
}
