//! The bytes of a checkpoint, as they come from a reader.

ghost use Rattle.std.specs.Prelude.{◌≡◌, ℕ, ◌+◌, ◌*◌, ◌≤◌, List, length, OnOk, IfErr};
ghost use Rattle.std.specs.Int.{w64};
ghost use Rattle.std.specs.Io.KnownBytes.{Consumes, IsAtEnd};
ghost use Rattle.sha2.specs.Sha256.{sha256};
ghost use Rattle.ball_model.specs.PlanValue.{greatest_limit};
ghost use Rattle.batches.specs.Kept.{field};
ghost use Rattle.checkpoint.specs.Reading.{needs, TakesBytes, Grows, Fails, is_batch_length};
ghost use Rattle.checkpoint.specs.Reading.{batch_form, batches_form, greatest_batch, early_form};
ghost use Rattle.checkpoint.specs.Reading.{most_early, body_form, most_after, fixed_length};
ghost use Rattle.checkpoint.specs.Reading.{seal_form};

use crate::error::KeepError;
use crate::header::CheckpointHeader;
use crate::sizes::{
    COUNT_LEN, DIGEST_LEN, ENTRY_LEN, HEARD_LEN, ID_LEN, LENGTH_LEN, PIECE, SUM_LEN,
};
use crate::text::Text;
use ball_model::{CountedRead, Filled, Plan, fill};
use graph::Part;
use replica::LEVELS;

// The big-endian number of eight bytes at a place.
pub(crate) fn u64_at(bytes: &[u8], at: usize) -> u64
    requires { at + 8 ≤ length bytes.now }
    ensures { result ≡ field w64 at bytes.now }
{
    let mut number = [0; 8];
    number.copy_from_slice(&bytes[at..at + 8]);
    u64::from_be_bytes(number)
}

// Fills a buffer: bytes that end before it is full are too few.
pub(crate) fn read_full<R: CountedRead>(reader: &mut R, buffer: &mut [u8]) -> Result<(), KeepError>
    ensures done { OnOk result (TakesBytes R.remaining R.failed_calls R.sure_calls
        reader.old reader.new buffer.new) }
    ensures fails { IfErr result (λ e. Fails R.remaining R.failed_calls R.sure_calls
        (needs (length buffer.old)) (length buffer.old) reader.old reader.new e) }
{
    match fill(reader, buffer) {
        Filled::Full => Ok(()),
        Filled::Ended { count: _ } => Err(KeepError::Short),
        Filled::Failed => Err(KeepError::Read),
    }
}

// Reads a piece, which is put after the text.
fn read_piece<R: CountedRead>(
    reader: &mut R,
    text: &mut Text,
    count: usize,
) -> Result<(), KeepError>
    requires { count ≤ PIECE }
    ensures done { OnOk result (Grows R.remaining R.failed_calls R.sure_calls (needs count) count
        reader.old reader.new text.old text.new) }
    ensures fails { IfErr result (λ e. Fails R.remaining R.failed_calls R.sure_calls (needs count)
        count reader.old reader.new e) }
{
    let mut buffer = [0; PIECE];
    let (piece, _) = buffer.split_at_mut(count);
    read_full(reader, piece)?;
    text.put(piece);
    Ok(())
}

// Reads `count` bytes piece by piece: the text grows as they come.
fn read_more<R: CountedRead>(reader: &mut R, text: &mut Text, count: usize) -> Result<(), KeepError>
    ensures done { OnOk result (Grows R.remaining R.failed_calls R.sure_calls (needs count) count
        reader.old reader.new text.old text.new) }
    ensures fails { IfErr result (λ e. Fails R.remaining R.failed_calls R.sure_calls (needs count)
        count reader.old reader.new e) }
{
    let mut left = count;
    while left > 0 {
        let piece = left.min(PIECE);
        read_piece(reader, text, piece)?;
        left -= piece;
    }
    Ok(())
}

// Whether this is the length of a batch with at most as many rows as the first partition has vertices.
#[tactic(auto, unfolding(crate::specs::Reading::is_batch_length))]
fn may_be_batch(plan: &Plan, length: u64) -> bool
    ensures { result ≡ is_batch_length plan.now length }
{
    let head = batches::HEADER_LEN as u64;
    if length < head {
        return false;
    }
    let row = (ID_LEN + plan.width()) as u64;
    (length - head) % row == 0 && (length - head) / row <= u64::from(plan.part_size(0))
}

// Reads the length of a batch, and the batch.
fn read_batch<R: CountedRead>(reader: &mut R, plan: &Plan, text: &mut Text) -> Result<(), KeepError>
    ensures done { OnOk result (Grows R.remaining R.failed_calls R.sure_calls (batch_form plan.now)
        (LENGTH_LEN + greatest_batch plan.now)
        reader.old reader.new text.old text.new) }
    ensures fails { IfErr result (λ e. Fails R.remaining R.failed_calls R.sure_calls
        (batch_form plan.now) (LENGTH_LEN + greatest_batch plan.now) reader.old reader.new e) }
{
    let mut number = [0; LENGTH_LEN];
    read_full(reader, &mut number)?;
    let length = u64::from_be_bytes(number);
    if !may_be_batch(plan, length) {
        return Err(KeepError::Shape);
    }
    text.put(&number);
    read_more(reader, text, length as usize)
}

// Reads `count` batches, each after its length.
fn read_batches<R: CountedRead>(
    reader: &mut R,
    plan: &Plan,
    text: &mut Text,
    count: u16,
) -> Result<(), KeepError>
    ensures done { OnOk result (Grows R.remaining R.failed_calls R.sure_calls
        (batches_form plan.now count) (count * (LENGTH_LEN + greatest_batch plan.now))
        reader.old reader.new text.old text.new) }
    ensures fails { IfErr result (λ e. Fails R.remaining R.failed_calls R.sure_calls
        (batches_form plan.now count) (count * (LENGTH_LEN + greatest_batch plan.now))
        reader.old reader.new e) }
{
    for _ in 0..count {
        read_batch(reader, plan, text)?;
    }
    Ok(())
}

// Reads the number of early batches, and the batches.
fn read_early<R: CountedRead>(reader: &mut R, plan: &Plan, text: &mut Text) -> Result<(), KeepError>
    ensures done { OnOk result (Grows R.remaining R.failed_calls R.sure_calls (early_form plan.now)
        (most_early plan.now) reader.old reader.new text.old text.new) }
    ensures fails { IfErr result (λ e. Fails R.remaining R.failed_calls R.sure_calls
        (early_form plan.now) (most_early plan.now) reader.old reader.new e) }
{
    let mut told = [0; COUNT_LEN];
    read_full(reader, &mut told)?;
    let count = u16::from_be_bytes(told);
    if count > LEVELS as u16 * (plan.parts() - 1) {
        return Err(KeepError::Shape);
    }
    text.put(&told);
    read_batches(reader, plan, text, count)
}

// How many bytes follow the fixed fields, up to the number of early batches.
fn fixed_len(part: &Part, header: &CheckpointHeader) -> usize
    requires { header.now.superstep ≤ greatest_limit }
    ensures { result ≡ fixed_length part.now header.now }
{
    let size = part.size() as usize;
    let width = part.plan().width();
    let table = size * (ENTRY_LEN + width) + SUM_LEN * (header.superstep as usize + 1);
    if header.version == 1 {
        return table;
    }
    table + HEARD_LEN + size * width
}

// Reads what follows the fixed fields, up to the digest.
pub(crate) fn read_body<R: CountedRead>(
    reader: &mut R,
    part: &Part,
    header: &CheckpointHeader,
    text: &mut Text,
) -> Result<(), KeepError>
    requires { header.now.superstep ≤ greatest_limit }
    ensures done { OnOk result (Grows R.remaining R.failed_calls R.sure_calls
        (body_form part.now header.now) (most_after part.now header.now)
        reader.old reader.new text.old text.new) }
    ensures fails { IfErr result (λ e. Fails R.remaining R.failed_calls R.sure_calls
        (body_form part.now header.now) (most_after part.now header.now)
        reader.old reader.new e) }
{
    read_more(reader, text, fixed_len(part, header))?;
    if header.version == 1 {
        return Ok(());
    }
    read_early(reader, part.plan(), text)
}

// Reads the digest, which has to be this one, and sees that nothing follows it.
pub(crate) fn read_seal<R: CountedRead>(reader: &mut R, right: &[u8; 32]) -> Result<(), KeepError>
    ensures done { OnOk result (Consumes (R.remaining reader.old) (R.remaining reader.new)
        right.now) }
    ensures counted { OnOk result (R.failed_calls reader.new ≡ R.failed_calls reader.old) }
    ensures end { OnOk result (IsAtEnd (R.remaining reader.new)) }
    ensures fails { (content : List ℕ) → right.now ≡ sha256 content →
        IfErr result (λ e. Fails R.remaining R.failed_calls R.sure_calls
        (seal_form content) (DIGEST_LEN + 1) reader.old reader.new e) }
{
    let mut digest = [0; DIGEST_LEN];
    match fill(reader, &mut digest) {
        Filled::Full => {}
        Filled::Ended { count: _ } => return Err(KeepError::Short),
        Filled::Failed => return Err(KeepError::Read),
    }
    if digest != *right {
        return Err(KeepError::Digest);
    }
    let mut more = [0; 1];
    match fill(reader, &mut more) {
        Filled::Full => Err(KeepError::Trailing),
        Filled::Ended { count: _ } => Ok(()),
        Filled::Failed => Err(KeepError::Read),
    }
}
