//! A node of a world: its replica, and its checkpoint.

ghost use Rattle.std.specs.Prelude.{◌≡◌, ◌≢◌, ◌<◌, ℕ, None, IfOk, OnErr};
ghost use Rattle.std.specs.Arc.{arc_value};
ghost use Rattle.ball_model.specs.declared.world.Answer.TheVariants as answer;
ghost use Rattle.ball_model.specs.Checkpoint.{checkpoint_bytes};
ghost use Rattle.ball_model.specs.Held.{IsName};
ghost use Rattle.ball_model.specs.Job.{Job, IsJob, part_of};
ghost use Rattle.ball_model.specs.Join.{Holding};
ghost use Rattle.ball_model.specs.State.{State};
ghost use Rattle.ball_model.specs.World.{closed_answer, start_node, taken_answer};
ghost use Rattle.replica.specs.Change.{IsTrueBatch};
ghost use Rattle.replica.specs.Saved.{IsKeepable};
ghost use Rattle.world.specs.Shows.{Has, IsCheckpoint, ShowsNode};
ghost use Rattle.world.specs.Turns.{Turns, closed_turn, kept_turn, merged_turn, restarted_turn};
ghost use Rattle.world.specs.Turns.{taken_turn};

use ball_model::world::Answer;
use ball_model::{CloseError, MemReader, MemWriter, MergeError, TakeError, Taken};
use batches::Batch;
use checkpoint::{KeepError, checkpoint_length, read_checkpoint, write_checkpoint};
use edgelist::Part;
use replica::{Replica, Shown, Snapshot};
use std::alloc::{AllocError, Global};
use std::marker::Model;
use std::mem;
use std::sync::Arc;

/// A node: its replica, and its checkpoint.
#[derive(Drop)]
pub(crate) struct Node {
    part: Arc<Part>,
    replica: Replica,
    kept: Option<Vec<u8>>,
}

impl Model for Node {
    ghost use Rattle.std.specs.Prelude.{option_map};
    ghost use Rattle.std.specs.Arc.{arc_value};
    ghost use Rattle.world.specs.Shows.{IsOfPart, SeenNode};

    ghost Value = { SeenNode };

    ghost view = { λ n. record { replica = n.replica; kept = option_map (λ b. b.items) n.kept } };

    ghost invariant = { λ n. IsOfPart (arc_value n.part) n.replica
        (option_map (λ b. b.items) n.kept) };
}

impl Node {
    /// A node of the part at superstep 0, which has kept nothing.
    pub(crate) fn start(alloc: Global, part: Arc<Part>) -> Result<Node, AllocError>
        ensures { IfOk result (λ n. (j : Job) (p : ℕ) → IsJob j → p < j.plan.parts →
            arc_value part ≡ part_of j p → ShowsNode j (start_node j.plan p) n) }
    {
        let own = Arc::try_clone(&part)?;
        let replica = started(alloc, part)?;
        Ok(Node {
            part: own,
            replica,
            kept: None,
        })
    }

    pub(crate) fn replica(&self) -> &Replica
        ensures { result.now ≡ self.now.replica }
    {
        &self.replica
    }

    /// Takes a batch.
    pub(crate) fn deliver(&mut self, batch: Arc<Batch>) -> Answer
        ensures { (j : Job) → IsTrueBatch j (arc_value batch) →
            IsName j.plan (arc_value batch).name →
            Turns j (taken_turn j (arc_value batch).name) result self.old self.new }
    {
        let taken = self.replica.take(batch);
        self.replica.limits();
        answer_to_take(taken)
    }

    /// Closes the superstep.
    pub(crate) fn close(&mut self) -> Answer
        ensures { (j : Job) → Turns j (closed_turn j) result self.old self.new }
    {
        let closed = self.replica.close();
        self.replica.limits();
        answer_to_close(closed)
    }

    /// Keeps what the node has, in the place of what it kept before. The error is that memory was refused, and changes
    /// nothing.
    pub(crate) fn keep(&mut self, alloc: Global) -> Result<Answer, AllocError>
        ensures turned { (j : Job) → IfOk result (λ a. Turns j kept_turn a self.old self.new) }
        ensures refused { OnErr result (self.new ≡ self.old) }
    {
        let bytes = checkpoint_of(alloc, &self.replica)?;
        self.kept = Some(bytes);
        Ok(Answer::Kept {
            superstep: self.replica.superstep(),
        })
    }

    /// Returns to what the node kept, or to the start. The error is that memory was refused, and changes nothing: the
    /// old replica is dropped only once the new one is made.
    pub(crate) fn restart(&mut self, alloc: Global) -> Result<Answer, AllocError>
        ensures turned { (j : Job) →
            IfOk result (λ a. Turns j (restarted_turn j) a self.old self.new) }
        ensures refused { OnErr result (self.new ≡ self.old) }
    {
        match self.restored(alloc) {
            Ok(replica) => Ok(self.put(replica)),
            Err(error) => Err(error),
        }
    }

    // Has that replica from now on.
    fn put(&mut self, replica: Replica) -> Answer
        requires { replica.part ≡ self.old.replica.part }
        ensures value { self.new ≡ record self.old { replica = replica } }
        ensures answer { result ≡ answer.Restarted replica.superstep }
    {
        // one drop, at one place: the checker reads each at every exit
        drop(mem::replace(&mut self.replica, replica));
        Answer::Restarted {
            superstep: self.replica.superstep(),
        }
    }

    // The replica of what the node kept, or of the start. The error is that memory was refused.
    fn restored(&self, alloc: Global) -> Result<Replica, AllocError>
        ensures part { IfOk result (λ r. r.part ≡ self.now.replica.part) }
        ensures turned { (j : Job) → IfOk result (λ r. Turns j (restarted_turn j)
            (answer.Restarted r.superstep) self.now (record self.now { replica = r })) }
    {
        let part = Arc::try_clone(&self.part)?;
        match &self.kept {
            Some(bytes) => read_back(alloc, part, bytes),
            None => started(alloc, part),
        }
    }

    /// A copy of what the node has. The error is that memory was refused.
    pub(crate) fn copy(&mut self, alloc: Global) -> Result<Snapshot, AllocError>
        ensures same { IfOk result (λ s. s ≡ self.old.replica) }
        ensures unchanged { self.new ≡ self.old }
    {
        self.replica.snapshot(alloc)
    }

    /// Takes over what a copy has. The error is that memory was refused, and changes nothing.
    pub(crate) fn recover(&mut self, alloc: Global, copy: &Snapshot) -> Result<Answer, AllocError>
        ensures turned { (j : Job) (c : Holding) → Has j c copy.now →
            IfOk result (λ a. Turns j (merged_turn c) a self.old self.new) }
        ensures refused { OnErr result (self.new ≡ self.old) }
    {
        match self.replica.merge(alloc, copy) {
            Ok(()) => Ok(Answer::Merged {
                superstep: self.replica.superstep(),
            }),
            Err(error) => answer_to_refusal(error),
        }
    }
}

// Does nothing: its contract says that what a replica has can be kept.
fn keepable(replica: &Replica)
    ensures { IsKeepable replica.now }
{
    replica.limits();
}

// The checkpoint of a replica. The error is that memory was refused.
fn checkpoint_of(alloc: Global, replica: &Replica) -> Result<Vec<u8>, AllocError>
    ensures bytes { IfOk result (λ bytes. bytes.items ≡ checkpoint_bytes replica.now) }
    ensures keepable { IfOk result (λ bytes. IsCheckpoint replica.now.part bytes.items) }
{
    keepable(replica);
    let room = checkpoint_length(replica) as usize;
    let mut writer = MemWriter::with_room(alloc, room, None)?;
    // there is room for all of it, and no call is to fail
    let Ok(()) = write_checkpoint(replica, &mut writer) else {
        unreachable!();
    };
    Ok(writer.into_bytes())
}

// A replica of the part at superstep 0. The error is that memory was refused.
fn started(alloc: Global, part: Arc<Part>) -> Result<Replica, AllocError>
    ensures part { IfOk result (λ r. r.part ≡ arc_value part) }
    ensures shows { IfOk result (λ r. (j : Job) (p : ℕ) → IsJob j → p < j.plan.parts →
        arc_value part ≡ part_of j p →
        ShowsNode j (start_node j.plan p) (record { replica = r; kept = None })) }
{
    let replica = Replica::new(alloc, part)?;
    replica.limits();
    Ok(replica)
}

// The replica of a checkpoint. The error is that memory was refused.
fn read_back(alloc: Global, part: Arc<Part>, bytes: &[u8]) -> Result<Replica, AllocError>
    requires { IsCheckpoint (arc_value part) bytes.now }
    ensures part { IfOk result (λ r. r.part ≡ arc_value part) }
    ensures back { (v : State) → IsKeepable v → v.part ≡ arc_value part →
        bytes.now ≡ checkpoint_bytes v → IfOk result (λ r. r ≡ v) }
{
    let mut reader = MemReader::new(bytes, None);
    match read_checkpoint(alloc, part, &mut reader) {
        Ok(replica) => Ok(replica),
        Err(error) => Err(want_of(error)),
    }
}

// A checkpoint that was written in memory is refused for want of memory alone.
fn want_of(error: KeepError) -> AllocError
    requires { error ≡ KeepError.Memory }
{
    match error {
        KeepError::Memory => AllocError,
        _ => unreachable!(),
    }
}

/// What a world answers if a replica said this of a batch.
pub fn answer_to_take(taken: Result<Taken, TakeError>) -> Answer
    ensures { result ≡ taken_answer taken }
{
    match taken {
        Ok(taken) => Answer::Took(taken),
        Err(error) => Answer::NotTaken(error),
    }
}

/// What a world answers if a replica said this of a close.
pub fn answer_to_close(closed: Result<u32, CloseError>) -> Answer
    ensures { result ≡ closed_answer closed }
{
    match closed {
        Ok(superstep) => Answer::Closed { superstep },
        Err(error) => Answer::NotClosed(error),
    }
}

// What a world answers if a replica refused to merge. The error is that memory was refused.
fn answer_to_refusal(error: MergeError) -> Result<Answer, AllocError>
    ensures { IfOk result (λ a. (a ≡ answer.NotMerged error) × (error ≢ MergeError.Memory)) }
{
    match error {
        MergeError::OtherJob | MergeError::NotMine => Ok(Answer::NotMerged(error)),
        MergeError::Memory => Err(AllocError),
    }
}
