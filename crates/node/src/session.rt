//! A node's replica, and what it makes of commands.

ghost use Rattle.std.specs.Prelude.{◌≡◌, ◌≢◌, ℕ, ◌<◌, [], Err, IfOk, IfErr, IsErr, IsOk, OnErr};
ghost use Rattle.std.specs.Prelude.{OnOk, Ok, false};
ghost use Rattle.std.specs.Arc.{arc_value};
ghost use Rattle.ball_model.specs.declared.names.BatchName.{BatchName as Name};
ghost use Rattle.ball_model.specs.declared.world.Answer.TheVariants as answer;
ghost use Rattle.ball_model.specs.Batches.{true_batch, BatchValue};
ghost use Rattle.ball_model.specs.Held.{IsName, held_after, held_close_answer, held_take_answer};
ghost use Rattle.ball_model.specs.Held.{start_holding};
ghost use Rattle.ball_model.specs.Job.{Job, IsJob, part_of};
ghost use Rattle.ball_model.specs.Join.{Holding, join_of};
ghost use Rattle.ball_model.specs.Steps.{Take, Close};
ghost use Rattle.ball_model.specs.World.{closed_answer, taken_answer};
ghost use Rattle.batches.specs.Reading.{batch_at};
ghost use Rattle.ball_model.specs.Content.{is_new};
ghost use Rattle.checkpoint.specs.Reading.{HasHead, IsReplicaSpelling, OnOkOrMemory, sealed_form};
ghost use Rattle.replica.specs.Change.{take_answer};
ghost use Rattle.replica.specs.Saved.{IsKeepable};
ghost use Rattle.world.specs.Shows.{Has};
ghost use Rattle.node.specs.NodeText.{IsDelivered, IsGivenBack};
ghost use Rattle.node.specs.Refusals.{IsAnswered, IsNodeCheckpoint, IsNoCheckpoint, SaysOfBatch};
ghost use Rattle.node.specs.Refusals.{SaysOfCheckpoint};
ghost use Rattle.node.specs.Turns.{GivesOrWants, Holds, IsBrought, SaysMerged, TakesBoth};
ghost use Rattle.node.specs.Turns.{TakesSpelled, TurnsTo};
ghost use Rattle.node.specs.declared.session.Reply.TheVariants as reply;

use ball_model::world::Answer;
use ball_model::{MemReader, MergeError, Plan};
use batches::{Batch, BatchError};
use checkpoint::{KeepError, check_front, read_checkpoint};
use edgelist::Part;
use replica::{Replica, Shown, Snapshot};
use std::alloc::{AllocError, Global};
use std::marker::Model;
use std::mem;
use std::sync::Arc;
use world::{answer_to_close, answer_to_take};

/// What a node says to a command.
#[derive(Clone, Copy, Debug, PartialEq, Eq)]
pub(crate) enum Reply {
    /// What a world answers to such an event.
    Answered(Answer),
    /// The bytes are no batch of the job's plan.
    NoBatch(BatchError),
    /// The bytes are no checkpoint of the partition.
    NoCheckpoint(KeepError),
}

/// A node: a replica of its part.
#[derive(Drop)]
pub(crate) struct Session {
    part: Arc<Part>,
    replica: Replica,
}

impl Model for Session {
    ghost use Rattle.std.specs.Prelude.{◌≡◌};
    ghost use Rattle.std.specs.Arc.{arc_value};
    ghost use Rattle.ball_model.specs.State.{State};

    ghost Value = { State };

    ghost view = { λ s. s.replica };

    ghost invariant = { λ s. arc_value s.part ≡ s.replica.part };
}

impl Session {
    /// A node of the part at superstep 0. The error is that memory was refused.
    pub(crate) fn start(alloc: Global, part: Arc<Part>) -> Result<Session, AllocError>
        ensures part { IfOk result (λ s. s.part ≡ arc_value part) }
        ensures start { IfOk result (λ s. (j : Job) (p : ℕ) → IsJob j → p < j.plan.parts →
            arc_value part ≡ part_of j p → Has j (start_holding j.plan p) s) }
    {
        let own = Arc::try_clone(&part)?;
        let replica = started(alloc, part)?;
        Ok(Session { part: own, replica })
    }

    /// The part.
    pub(crate) fn part(&self) -> &Part
        ensures { result.now ≡ self.now.part }
    {
        &self.part
    }

    /// The replica.
    pub(crate) fn replica(&self) -> &Replica
        ensures { result.now ≡ self.now }
    {
        &self.replica
    }

    /// Takes the batch that the bytes spell. The error is that memory was refused, and changes nothing.
    pub(crate) fn deliver(&mut self, alloc: Global, bytes: &[u8]) -> Result<Reply, AllocError>
        ensures turned { (j : Job) (p : ℕ) (h : Holding) (name : Name) → Holds j p h self.old →
            IsDelivered j bytes.now name →
            IfOk result (TurnsTo j p (taken_answer (held_take_answer j h name))
            (held_after j h (Take name)) self.new) }
        ensures part { self.new.part ≡ self.old.part }
        ensures named { IfOk result (SaysOfBatch self.old.part.plan bytes.now) }
        ensures unread { (e : BatchError) → result ≡ Ok (reply.NoBatch e) → self.new ≡ self.old }
        // whatever the job and the partitions of the batch
        ensures answer { (b : BatchValue) → batch_at self.old.part.plan bytes.now ≡ Ok b →
            IfOk result (λ r. r ≡ reply.Answered (taken_answer (take_answer self.old b))) }
        ensures unchanged { (b : BatchValue) → batch_at self.old.part.plan bytes.now ≡ Ok b →
            is_new (take_answer self.old b) ≡ false → self.new ≡ self.old }
        ensures brought { (b : BatchValue) → batch_at self.old.part.plan bytes.now ≡ Ok b →
            IfOk result (λ _. IsBrought b self.old self.new) }
        ensures spelled { OnErr result (IsOk (batch_at self.old.part.plan bytes.now)) }
        ensures refused { OnErr result (self.new ≡ self.old) }
    {
        match read_batch(alloc, self.replica.plan(), bytes) {
            Ok(batch) => Ok(Reply::Answered(self.take(batch))),
            Err(error) => no_batch(error),
        }
    }

    // Takes a batch.
    fn take(&mut self, batch: Arc<Batch>) -> Answer
        ensures turned { (j : Job) (p : ℕ) (h : Holding) (name : Name) → Holds j p h self.old →
            IsName j.plan name → arc_value batch ≡ true_batch j name →
            TurnsTo j p (taken_answer (held_take_answer j h name)) (held_after j h (Take name))
            self.new (reply.Answered result) }
        ensures part { self.new.part ≡ self.old.part }
        ensures answer { result ≡ taken_answer (take_answer self.old (arc_value batch)) }
        ensures unchanged { is_new (take_answer self.old (arc_value batch)) ≡ false →
            self.new ≡ self.old }
        ensures brought { IsBrought (arc_value batch) self.old self.new }
    {
        let taken = self.replica.take(batch);
        self.replica.limits();
        answer_to_take(taken)
    }

    /// Closes the superstep.
    pub(crate) fn close(&mut self) -> Answer
        ensures turned { (j : Job) (p : ℕ) (h : Holding) → Holds j p h self.old →
            TurnsTo j p (closed_answer (held_close_answer j h)) (held_after j h Close) self.new
            (reply.Answered result) }
        ensures part { self.new.part ≡ self.old.part }
    {
        let closed = self.replica.close();
        self.replica.limits();
        answer_to_close(closed)
    }

    /// Goes back to the checkpoint that the bytes are, or to the start if there are none. If the bytes are no
    /// checkpoint of the part the replica stays as it was. The error is that memory was refused, and changes nothing.
    pub(crate) fn restart(&mut self, alloc: Global, bytes: &[u8]) -> Result<Reply, AllocError>
        ensures anew { (j : Job) (p : ℕ) (h : Holding) → Holds j p h self.old → bytes.now ≡ [] →
            IfOk result (TurnsTo j p (answer.Restarted (start_holding j.plan p).superstep)
            (start_holding j.plan p) self.new) }
        ensures turned { (j : Job) (p : ℕ) (h d : Holding) → Holds j p h self.old →
            bytes.now ≢ [] → IsGivenBack j p bytes.now d →
            IfOk result (TurnsTo j p (answer.Restarted d.superstep) d self.new) }
        ensures part { self.new.part ≡ self.old.part }
        ensures named { bytes.now ≢ [] →
            IfOk result (SaysOfCheckpoint self.old.part bytes.now) }
        ensures started { bytes.now ≡ [] → IfOk result IsAnswered }
        ensures spelled { bytes.now ≢ [] → IfOk result (λ r. IsAnswered r →
            IsReplicaSpelling self.new bytes.now) }
        ensures answer { IfOk result (λ r. IsAnswered r →
            r ≡ reply.Answered (answer.Restarted self.new.superstep)) }
        ensures unread { (e : KeepError) → result ≡ Ok (reply.NoCheckpoint e) →
            self.new ≡ self.old }
        ensures front { bytes.now ≢ [] → OnErr result (HasHead self.old.part bytes.now) }
        ensures refused { OnErr result (self.new ≡ self.old) }
    {
        match self.restored(alloc, bytes) {
            Ok(replica) => Ok(Reply::Answered(self.put(replica))),
            Err(error) => no_checkpoint(error),
        }
    }

    // The replica of a checkpoint, or of the start.
    fn restored(&self, alloc: Global, bytes: &[u8]) -> Result<Replica, KeepError>
        ensures part { IfOk result (λ r. r.part ≡ self.now.part) }
        ensures anew { (j : Job) (p : ℕ) (h : Holding) → Holds j p h self.now → bytes.now ≡ [] →
            GivesOrWants (Holds j p (start_holding j.plan p)) result }
        ensures back { (j : Job) (p : ℕ) (h d : Holding) → Holds j p h self.now →
            bytes.now ≢ [] → IsGivenBack j p bytes.now d →
            GivesOrWants (Holds j p d) result }
        ensures spells { bytes.now ≢ [] → IfOk result (λ r. IsReplicaSpelling r bytes.now) }
        ensures whole { bytes.now ≢ [] → OnOk result (IsNodeCheckpoint self.now.part bytes.now) }
        ensures named { bytes.now ≢ [] → IfErr result (λ e. e ≢ KeepError.Memory →
            IsNoCheckpoint self.now.part bytes.now e) }
        ensures started { bytes.now ≡ [] → IfErr result (λ e. e ≡ KeepError.Memory) }
        ensures front { bytes.now ≢ [] →
            OnOkOrMemory result (HasHead self.now.part bytes.now) }
    {
        if bytes.is_empty() {
            let part = Arc::try_clone(&self.part)?;
            Ok(started(alloc, part)?)
        } else {
            self.read(alloc, bytes)
        }
    }

    // The replica of a checkpoint. The fixed fields are checked before the part is shared, which may want memory.
    fn read(&self, alloc: Global, bytes: &[u8]) -> Result<Replica, KeepError>
        ensures part { IfOk result (λ r. r.part ≡ self.now.part) }
        ensures back { (j : Job) (p : ℕ) (h d : Holding) → Holds j p h self.now →
            IsGivenBack j p bytes.now d → GivesOrWants (Holds j p d) result }
        ensures keepable { IfOk result IsKeepable }
        ensures spells { IfOk result (λ r. IsReplicaSpelling r bytes.now) }
        ensures whole { OnOk result (IsNodeCheckpoint self.now.part bytes.now) }
        ensures named { IfErr result (λ e. e ≢ KeepError.Memory →
            IsNoCheckpoint self.now.part bytes.now e) }
        ensures front { OnOkOrMemory result (HasHead self.now.part bytes.now) }
    {
        check_front(&self.part, bytes)?;
        let part = Arc::try_clone(&self.part)?;
        read_back(alloc, part, bytes)
    }

    // Has that replica from now on.
    fn put(&mut self, replica: Replica) -> Answer
        requires { replica.part ≡ self.old.part }
        ensures value { self.new ≡ replica }
        ensures answer { result ≡ answer.Restarted replica.superstep }
    {
        drop(mem::replace(&mut self.replica, replica));
        Answer::Restarted {
            superstep: self.replica.superstep(),
        }
    }

    /// Takes over what the checkpoint has that the bytes are. If they are no checkpoint of the part the replica stays
    /// as it was. The error is that memory was refused, and changes nothing.
    pub(crate) fn recover(&mut self, alloc: Global, bytes: &[u8]) -> Result<Reply, AllocError>
        ensures turned { (j : Job) (p : ℕ) (h c : Holding) → Holds j p h self.old →
            IsGivenBack j p bytes.now c →
            IfOk result (TurnsTo j p (answer.Merged (join_of h c).superstep) (join_of h c)
            self.new) }
        ensures part { self.new.part ≡ self.old.part }
        ensures named { IfOk result (SaysOfCheckpoint self.old.part bytes.now) }
        ensures unread { (e : KeepError) → result ≡ Ok (reply.NoCheckpoint e) →
            self.new ≡ self.old }
        ensures taken { IfOk result (λ r. IsAnswered r →
            TakesSpelled bytes.now self.old self.new) }
        ensures answer { IfOk result (λ r. IsAnswered r →
            r ≡ reply.Answered (answer.Merged self.new.superstep)) }
        ensures front { OnErr result (HasHead self.old.part bytes.now) }
        ensures refused { OnErr result (self.new ≡ self.old) }
    {
        match self.read(alloc, bytes) {
            Ok(other) => self.take_over(alloc, other),
            Err(error) => no_checkpoint(error),
        }
    }

    // Takes over what another replica has.
    fn take_over(&mut self, alloc: Global, other: Replica) -> Result<Reply, AllocError>
        ensures turned { (j : Job) (p : ℕ) (h c : Holding) → Holds j p h self.old →
            Holds j p c other →
            IfOk result (TurnsTo j p (answer.Merged (join_of h c).superstep) (join_of h c)
            self.new) }
        ensures part { self.new.part ≡ self.old.part }
        ensures kind { (e : KeepError) → result ≢ Ok (reply.NoCheckpoint e) }
        ensures said { IfOk result IsAnswered }
        ensures taken { other.part ≡ self.old.part →
            OnOk result (TakesBoth self.old other self.new) }
        ensures answer { other.part ≡ self.old.part →
            IfOk result (λ r. r ≡ reply.Answered (answer.Merged self.new.superstep)) }
        ensures refused { OnErr result (self.new ≡ self.old) }
    {
        let copy = snapshot_of(alloc, other)?;
        let merged = self.merge(alloc, &copy);
        drop(copy);
        merged
    }

    // Merges a snapshot.
    fn merge(&mut self, alloc: Global, copy: &Snapshot) -> Result<Reply, AllocError>
        ensures turned { (j : Job) (p : ℕ) (h c : Holding) → Holds j p h self.old →
            Holds j p c copy.now →
            IfOk result (TurnsTo j p (answer.Merged (join_of h c).superstep) (join_of h c)
            self.new) }
        ensures part { self.new.part ≡ self.old.part }
        ensures kind { (e : KeepError) → result ≢ Ok (reply.NoCheckpoint e) }
        ensures said { IfOk result IsAnswered }
        ensures taken { copy.now.part ≡ self.old.part →
            OnOk result (TakesBoth self.old copy.now self.new) }
        ensures answer { copy.now.part ≡ self.old.part →
            IfOk result (λ r. r ≡ reply.Answered (answer.Merged self.new.superstep)) }
        ensures refused { OnErr result (self.new ≡ self.old) }
    {
        let merged = self.replica.merge(alloc, copy);
        let superstep = self.replica.superstep();
        answer_to_merge(merged, superstep)
    }
}

// A snapshot of a replica, which is dropped.
fn snapshot_of(alloc: Global, mut replica: Replica) -> Result<Snapshot, AllocError>
    ensures { IfOk result (λ s. s ≡ replica) }
{
    let copy = replica.snapshot(alloc);
    drop(replica);
    copy
}

// What is said of bytes that are no batch. The error is that memory was refused.
fn no_batch(error: BatchError) -> Result<Reply, AllocError>
    ensures some { IfOk result (λ r. r ≡ reply.NoBatch error) }
    ensures other { IfOk result (λ _. error ≢ BatchError.Memory) }
    ensures memory { error ≡ BatchError.Memory → IsErr result }
    ensures only { OnErr result (error ≡ BatchError.Memory) }
{
    match error {
        BatchError::Memory => Err(AllocError),
        _ => Ok(Reply::NoBatch(error)),
    }
}

// What is said of bytes that are no checkpoint. The error is that memory was refused.
fn no_checkpoint(error: KeepError) -> Result<Reply, AllocError>
    ensures some { IfOk result (λ r. r ≡ reply.NoCheckpoint error) }
    ensures other { IfOk result (λ _. error ≢ KeepError.Memory) }
    ensures memory { error ≡ KeepError.Memory → IsErr result }
    ensures only { OnErr result (error ≡ KeepError.Memory) }
{
    match error {
        KeepError::Memory => Err(AllocError),
        _ => Ok(Reply::NoCheckpoint(error)),
    }
}

// What a world answers if a replica that is at that superstep now said this of a merge. The error is that memory was
// refused.
fn answer_to_merge(merged: Result<(), MergeError>, superstep: u32) -> Result<Reply, AllocError>
    ensures { SaysMerged merged superstep result }
{
    match merged {
        Ok(()) => Ok(Reply::Answered(Answer::Merged { superstep })),
        Err(MergeError::Memory) => Err(AllocError),
        Err(error) => Ok(Reply::Answered(Answer::NotMerged(error))),
    }
}

// A replica of the part at superstep 0. The error is that memory was refused.
fn started(alloc: Global, part: Arc<Part>) -> Result<Replica, AllocError>
    ensures part { IfOk result (λ r. r.part ≡ arc_value part) }
    ensures start { IfOk result (λ r. (j : Job) (p : ℕ) → IsJob j → p < j.plan.parts →
        arc_value part ≡ part_of j p → Has j (start_holding j.plan p) r) }
{
    let replica = Replica::new(alloc, part)?;
    replica.limits();
    Ok(replica)
}

// The batch that bytes spell, to be shared.
fn read_batch(alloc: Global, plan: &Plan, bytes: &[u8]) -> Result<Arc<Batch>, BatchError>
    ensures given { (j : Job) (name : Name) → IsJob j → plan.now ≡ j.plan →
        IsDelivered j bytes.now name → IfOk result (λ b. arc_value b ≡ true_batch j name) }
    ensures memory { (j : Job) (name : Name) → IsJob j → plan.now ≡ j.plan →
        IsDelivered j bytes.now name → IfErr result (λ e. e ≡ BatchError.Memory) }
    ensures spells { IfOk result (λ b. batch_at plan.now bytes.now ≡ Ok (arc_value b)) }
    ensures named { IfErr result (λ e. e ≢ BatchError.Memory →
        batch_at plan.now bytes.now ≡ Err e) }
    ensures last { IfErr result (λ e. e ≡ BatchError.Memory →
        IsOk (batch_at plan.now bytes.now)) }
{
    match Batch::decode(alloc, plan, bytes) {
        Ok(batch) => shared(alloc, batch),
        Err(error) => Err(error),
    }
}

// A batch, to be shared. The error is that memory was refused.
fn shared(alloc: Global, batch: Batch) -> Result<Arc<Batch>, BatchError>
    ensures given { IfOk result (λ b. arc_value b ≡ batch) }
    ensures memory { IfErr result (λ e. e ≡ BatchError.Memory) }
{
    match Arc::new(alloc, batch) {
        Ok(batch) => Ok(batch),
        Err(_) => Err(BatchError::Memory),
    }
}

/// The replica of a checkpoint in memory.
pub(crate) fn read_back(alloc: Global, part: Arc<Part>, bytes: &[u8]) -> Result<Replica, KeepError>
    ensures part { IfOk result (λ r. r.part ≡ arc_value part) }
    ensures back { (j : Job) (p : ℕ) (h : Holding) → arc_value part ≡ part_of j p →
        IsGivenBack j p bytes.now h → GivesOrWants (Holds j p h) result }
    ensures keepable { IfOk result IsKeepable }
    ensures spells { IfOk result (λ r. IsReplicaSpelling r bytes.now) }
    ensures whole { OnOk result (IsNodeCheckpoint (arc_value part) bytes.now) }
    ensures named { IfErr result (λ e. e ≢ KeepError.Memory →
        IsNoCheckpoint (arc_value part) bytes.now e) }
    ensures front { OnOkOrMemory result (HasHead (arc_value part) bytes.now) }
    ensures form { OnOkOrMemory result (IsOk (sealed_form (arc_value part) bytes.now)) }
{
    let mut reader = MemReader::new(bytes, None);
    read_checkpoint(alloc, part, &mut reader)
}
