//! Reading a checkpoint.

ghost use Rattle.std.specs.Prelude.{◌≡◌, ◌+◌, ◌≤◌, ◌⊎◌, ℕ, List, Ok, Err, Some, true, IfErr, IfOk};
ghost use Rattle.std.specs.Prelude.{OnErr, OnOk};
ghost use Rattle.std.specs.Arc.{arc_value};
ghost use Rattle.ball_model.specs.Checkpoint.{checkpoint_bytes, first_checkpoint_bytes};
ghost use Rattle.ball_model.specs.Checkpoint.{without_names};
ghost use Rattle.ball_model.specs.PlanValue.{greatest_limit};
ghost use Rattle.ball_model.specs.State.{State};
ghost use Rattle.ball_model.specs.Streams.{AreSure, TakesAtMost};
ghost use Rattle.replica.specs.Saved.{Fits, IsKeepable, IsRebuilt};
ghost use Rattle.replica.specs.Seen.{IsState};
ghost use Rattle.checkpoint.specs.Reading.{Ends, Fails, GrowsByContent, GrowsByHead, HasHead};
ghost use Rattle.checkpoint.specs.Reading.{IfOkButWant, IsOfBytes, IsRead, IsReplicaSpelling, IsText};
ghost use Rattle.checkpoint.specs.Reading.{OnOkOrMemory, RefusesAs, TakesWithin, allowed};
ghost use Rattle.checkpoint.specs.Reading.{allowed_content, check_checkpoint_head, content_form};
ghost use Rattle.checkpoint.specs.Reading.{most_checkpoint_body, most_checkpoint_bytes, sealed_form};
ghost use Rattle.checkpoint.specs.Texts.{IsFresh};

use crate::error::KeepError;
use crate::header::{CheckpointHeader, check_header, read_header};
use crate::saved::saved_of;
use crate::sizes::HEADER_LEN;
use crate::stream::{read_body, read_full, read_seal};
use crate::text::Text;
use ball_model::CountedRead;
use graph::Part;
use replica::{Replica, Saved};
use std::alloc::Global;
use std::sync::Arc;

/// The first fault of the fixed fields of bytes that are to be a checkpoint of the part, in the order in which
/// [`read_checkpoint`] checks them. It takes no memory.
pub fn check_front(part: &Part, bytes: &[u8]) -> Result<(), KeepError>
    ensures fine { OnOk result (HasHead part.now bytes.now) }
    ensures refused { IfErr result (λ e. content_form part.now bytes.now ≡ Err e) }
    ensures of_bytes { IfErr result IsOfBytes }
{
    if bytes.len() < HEADER_LEN {
        return Err(KeepError::Short);
    }
    check_header(part, &read_header(&bytes[..HEADER_LEN]))
}

// Reads the fixed fields, checks them, and puts them after the text.
fn read_head<R: CountedRead>(
    part: &Part,
    reader: &mut R,
    text: &mut Text,
) -> Result<CheckpointHeader, KeepError>
    ensures done { IfOk result (GrowsByHead R.remaining R.failed_calls R.sure_calls
        reader.old reader.new text.old text.new) }
    ensures checked { IfOk result (λ h. check_checkpoint_head part.now h ≡ Ok tt) }
    ensures in_time { IfOk result (λ h. h.superstep ≤ part.now.plan.limit) }
    ensures small { IfOk result (λ h. h.superstep ≤ greatest_limit) }
    ensures front { (bytes : List ℕ) → R.remaining reader.old ≡ Some bytes →
        OnOk result (HasHead part.now bytes) }
    ensures fails { IfErr result (λ e. Fails R.remaining R.failed_calls R.sure_calls
        (content_form part.now) HEADER_LEN reader.old reader.new e) }
{
    let mut head = [0; HEADER_LEN];
    read_full(reader, &mut head)?;
    let header = read_header(&head);
    check_header(part, &header)?;
    text.put(&head);
    Ok(header)
}

// Reads the fixed fields and what follows them, up to the digest.
fn read_content<R: CountedRead>(
    part: &Part,
    reader: &mut R,
    text: &mut Text,
) -> Result<CheckpointHeader, KeepError>
    ensures done { IfOk result (GrowsByContent R.remaining R.failed_calls R.sure_calls part.now
        reader.old reader.new text.old text.new) }
    ensures within { OnErr result
        (TakesWithin (allowed_content part.now) (R.remaining reader.old) (R.remaining reader.new)) }
    ensures checked { IfOk result (λ h. check_checkpoint_head part.now h ≡ Ok tt) }
    ensures small { IfOk result (λ h. h.superstep ≤ greatest_limit) }
    ensures front { (bytes : List ℕ) → R.remaining reader.old ≡ Some bytes →
        OnOk result (HasHead part.now bytes) }
    ensures fails { IfErr result (λ e. Fails R.remaining R.failed_calls R.sure_calls
        (content_form part.now) (HEADER_LEN + most_checkpoint_body part.now part.now.plan.limit)
        reader.old reader.new e) }
{
    let header = read_head(part, reader, text)?;
    read_body(reader, part, &header, text)?;
    Ok(header)
}

// Reads all bytes up to the end, and leaves those before the digest, which is right.
fn read_text<R: CountedRead>(
    part: &Part,
    reader: &mut R,
    text: &mut Text,
) -> Result<CheckpointHeader, KeepError>
    requires { IsFresh text.old }
    ensures done { OnOk result (Ends R.remaining R.failed_calls (sealed_form part.now)
        (most_checkpoint_bytes part.now part.now.plan.limit + 1) reader.old reader.new) }
    ensures within { TakesWithin (allowed part.now)
        (R.remaining reader.old) (R.remaining reader.new) }
    ensures text { text.new.whole ≡ true → IfOk result (λ h.
        IsText (R.remaining reader.old) h text.new.bytes.items) }
    ensures checked { IfOk result (λ h. check_checkpoint_head part.now h ≡ Ok tt) }
    ensures small { IfOk result (λ h. h.superstep ≤ greatest_limit) }
    ensures front { (bytes : List ℕ) → R.remaining reader.old ≡ Some bytes →
        OnOk result (HasHead part.now bytes) }
    ensures fails { IfErr result (λ e. Fails R.remaining R.failed_calls R.sure_calls
        (sealed_form part.now) (most_checkpoint_bytes part.now part.now.plan.limit + 1)
        reader.old reader.new e) }
{
    let header = read_content(part, reader, text)?;
    let right = text.digest();
    read_seal(reader, &right)?;
    Ok(header)
}

// Fields that fit the part. It takes no memory.
fn fitting(part: &Part, saved: Saved) -> Result<Saved, KeepError>
    ensures same { IfOk result (λ s. s ≡ saved) }
    ensures fits { IfOk result (λ s. Fits part.now s) }
    ensures refused { OnErr result (Fits part.now saved → ⊥) }
    ensures kind { IfErr result (λ e. e ≡ KeepError.Shape) }
{
    if saved.fits(part) {
        Ok(saved)
    } else {
        Err(KeepError::Shape)
    }
}

// What the bytes of the reader say of a replica of the part.
fn read_saved<R: CountedRead>(
    alloc: Global,
    part: &Part,
    reader: &mut R,
) -> Result<Saved, KeepError>
    ensures fits { IfOk result (λ s. Fits part.now s) }
    ensures done { OnOkOrMemory result (Ends R.remaining R.failed_calls (sealed_form part.now)
        (most_checkpoint_bytes part.now part.now.plan.limit + 1) reader.old reader.new) }
    ensures within { TakesWithin (allowed part.now)
        (R.remaining reader.old) (R.remaining reader.new) }
    ensures spelled { IfOk result (λ s. (v : State) → IsRebuilt part.now s v → IsState v →
        (bytes : List ℕ) → R.remaining reader.old ≡ Some bytes →
        (bytes ≡ checkpoint_bytes v) ⊎ (bytes ≡ first_checkpoint_bytes v)) }
    ensures first { IfOk result (λ s. (v : State) → IsKeepable v → v.part ≡ part.now →
        R.remaining reader.old ≡ Some (first_checkpoint_bytes v) →
        IsRebuilt part.now s (without_names v)) }
    ensures front { (bytes : List ℕ) → R.remaining reader.old ≡ Some bytes →
        OnOkOrMemory result (HasHead part.now bytes) }
    ensures refused { IfErr result (λ e. RefusesAs R.remaining R.failed_calls R.sure_calls
        part.now (most_checkpoint_bytes part.now part.now.plan.limit + 1)
        reader.old reader.new e) }
{
    let mut text = Text::new(alloc);
    let header = read_text(part, reader, &mut text)?;
    let bytes = text.bytes()?;
    let saved = saved_of(alloc, part, &header, bytes)?;
    fitting(part, saved)
}

/// The replica of the part whose checkpoint the reader gives.
///
/// The bytes are checked in this order: [`Short`](KeepError::Short) (fixed fields), [`Magic`](KeepError::Magic),
/// [`Version`](KeepError::Version), [`OtherJob`](KeepError::OtherJob), [`OtherPart`](KeepError::OtherPart),
/// [`Shape`](KeepError::Shape) (fixed fields), `Short` (up to the accumulators, or in version 1 up to the sums); the
/// number of early batches (`Short`, `Shape`), and each batch's length (`Short`, `Shape`) and bytes (`Short`); `Short`
/// (digest), [`Digest`](KeepError::Digest), [`Trailing`](KeepError::Trailing); then [`Memory`](KeepError::Memory) for
/// the text, and `Shape` and `Memory` of what the bytes say. [`Read`](KeepError::Read) is answered if a call of the
/// reader fails.
///
/// Memory is taken as the bytes come, never for a number that they only claim. If it is refused the rest is read
/// without it, and checked as before. Version 1 has no batches.
pub fn read_checkpoint<R: CountedRead>(
    alloc: Global,
    part: Arc<Part>,
    reader: &mut R,
) -> Result<Replica, KeepError>
    ensures part { IfOk result (λ r. r.part ≡ arc_value part) }
    // If it is Ok, and if memory was refused, all bytes were read, their parts are in order, and the digest is right.
    ensures whole { OnOkOrMemory result (Ends R.remaining R.failed_calls
        (sealed_form (arc_value part))
        (most_checkpoint_bytes (arc_value part) (arc_value part).plan.limit + 1)
        reader.old reader.new) }
    // What is read is a spelling of the replica: in version 2, or in version 1 of one that holds nothing.
    ensures spelling { IfOk result (λ r. (bytes : List ℕ) → R.remaining reader.old ≡ Some bytes →
        IsReplicaSpelling r bytes) }
    // What was written of a replica of the part is read as that replica, unless memory is refused or a read fails; what
    // version 1 wrote, as the replica without what it held.
    ensures back { (v : State) → IsKeepable v → v.part ≡ arc_value part →
        R.remaining reader.old ≡ Some (checkpoint_bytes v) → IfOkButWant result (λ r. r ≡ v) }
    ensures first { (v : State) → IsKeepable v → v.part ≡ arc_value part →
        R.remaining reader.old ≡ Some (first_checkpoint_bytes v) →
        IfOkButWant result (λ r. r ≡ without_names v) }
    ensures keepable { IfOk result IsKeepable }
    // A read failed exactly if that is the answer, and none of sure calls does.
    ensures counted { OnOk result (R.failed_calls reader.new ≡ R.failed_calls reader.old) }
    ensures only { AreSure (R.sure_calls reader.old)
        (most_checkpoint_bytes (arc_value part) (arc_value part).plan.limit + 1) →
        IfErr result (λ e. IsRead e → ⊥) }
    // No more is read than any checkpoint of the part has, and than the fixed fields that were read allow, and one byte.
    ensures few { TakesAtMost
        (most_checkpoint_bytes (arc_value part) (arc_value part).plan.limit + 1)
        (R.remaining reader.old) (R.remaining reader.new) }
    ensures within { TakesWithin (allowed (arc_value part))
        (R.remaining reader.old) (R.remaining reader.new) }
    // Memory is refused only after the checks of the fixed fields.
    ensures front { (bytes : List ℕ) → R.remaining reader.old ≡ Some bytes →
        OnOkOrMemory result (HasHead (arc_value part) bytes) }
    ensures refused { IfErr result (λ e. RefusesAs R.remaining R.failed_calls R.sure_calls
        (arc_value part) (most_checkpoint_bytes (arc_value part) (arc_value part).plan.limit + 1)
        reader.old reader.new e) }
{
    let saved = read_saved(alloc, &part, reader)?;
    Ok(Replica::rebuild(alloc, part, saved)?)
}
