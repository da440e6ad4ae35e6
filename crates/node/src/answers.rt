//! The text of a node's answers.

ghost use Rattle.std.specs.Prelude.{◌≡◌, ◌++◌, ◌∷◌, [], OnOk, codes, decimal, length};
ghost use Rattle.ball_model.specs.Batches.{batch_bytes};
ghost use Rattle.ball_model.specs.WorldText.{words_line};
ghost use Rattle.node.specs.Turns.{batch_word, checkpoint_word, reply_text, said_text};

use crate::session::Reply;
use ball_model::world::Answer;
use batches::{Batch, BatchError};
use checkpoint::KeepError;
use itoa::Buffer;
use std::alloc::AllocError;
use world::answer::{put_answer, put_line};

// What was found in bytes that are no batch. Want of memory is no answer.
fn batch_word(error: BatchError) -> &'static [u8]
    ensures { result.now ≡ batch_word error }
{
    match error {
        BatchError::Short => b"short".as_slice(),
        BatchError::Magic => b"magic".as_slice(),
        BatchError::Version => b"version".as_slice(),
        BatchError::Size => b"size".as_slice(),
        BatchError::Name => b"name".as_slice(),
        BatchError::Count => b"count".as_slice(),
        BatchError::Trailing => b"trailing".as_slice(),
        BatchError::Vertex => b"vertex".as_slice(),
        BatchError::Order => b"order".as_slice(),
        BatchError::Rank => b"rank".as_slice(),
        BatchError::Memory => b"memory".as_slice(),
    }
}

// What was found in bytes that are no checkpoint. Want of memory and failed calls are no answers.
fn checkpoint_word(error: KeepError) -> &'static [u8]
    ensures { result.now ≡ checkpoint_word error }
{
    match error {
        KeepError::Write => b"write".as_slice(),
        KeepError::Read => b"read".as_slice(),
        KeepError::Short => b"short".as_slice(),
        KeepError::Magic => b"magic".as_slice(),
        KeepError::Version => b"version".as_slice(),
        KeepError::OtherJob => b"other-job".as_slice(),
        KeepError::OtherPart => b"other-part".as_slice(),
        KeepError::Shape => b"shape".as_slice(),
        KeepError::Memory => b"memory".as_slice(),
        KeepError::Digest => b"digest".as_slice(),
        KeepError::Trailing => b"trailing".as_slice(),
    }
}

// Adds the line of what was refused.
fn put_refused(line: &mut Vec<u8>, word: &[u8]) -> Result<(), AllocError>
    ensures { OnOk result (line.new.items ≡
        line.old.items ++ words_line (codes "refused" ∷ word.now ∷ [])) }
{
    put_line(line, b"refused".as_slice(), &[word])
}

// Adds the line of an answer. A node that is looked at has lines of its own.
fn put_said(line: &mut Vec<u8>, answer: Answer) -> Result<(), AllocError>
    ensures { OnOk result (line.new.items ≡ line.old.items ++ said_text answer) }
{
    match answer {
        Answer::Shown => Ok(()),
        _ => put_answer(line, answer),
    }
}

/// Adds the line of what a node says.
pub(crate) fn put_reply(line: &mut Vec<u8>, reply: Reply) -> Result<(), AllocError>
    ensures { OnOk result (line.new.items ≡ line.old.items ++ reply_text reply) }
{
    match reply {
        Reply::Answered(answer) => put_said(line, answer),
        Reply::NoBatch(error) => put_refused(line, batch_word(error)),
        Reply::NoCheckpoint(error) => put_refused(line, checkpoint_word(error)),
    }
}

/// Adds the line of a batch that is sent: its name, how many vertices changed, how many rows it has, and how many bytes
/// follow.
pub(crate) fn put_sent(line: &mut Vec<u8>, batch: &Batch) -> Result<(), AllocError>
    ensures { OnOk result (line.new.items ≡ line.old.items ++ words_line
        (codes "sent" ∷ decimal batch.now.name.superstep ∷ decimal batch.now.name.source
        ∷ decimal batch.now.name.target ∷ decimal batch.now.changed
        ∷ decimal (length batch.now.rows) ∷ decimal (length (batch_bytes batch.now)) ∷ [])) }
{
    let name = batch.name();
    put_line(
        line,
        b"sent".as_slice(),
        &[
            Buffer::new().format(name.superstep).as_bytes(),
            Buffer::new().format(name.source).as_bytes(),
            Buffer::new().format(name.target).as_bytes(),
            Buffer::new().format(batch.changed()).as_bytes(),
            Buffer::new().format(batch.count()).as_bytes(),
            Buffer::new().format(batch.length()).as_bytes(),
        ],
    )
}

/// Adds the line of a checkpoint that is given: its superstep, and how many bytes follow.
pub(crate) fn put_kept(line: &mut Vec<u8>, superstep: u32, length: u64) -> Result<(), AllocError>
    ensures { OnOk result (line.new.items ≡ line.old.items ++ words_line
        (codes "kept" ∷ decimal superstep ∷ decimal length ∷ [])) }
{
    put_line(
        line,
        b"kept".as_slice(),
        &[
            Buffer::new().format(superstep).as_bytes(),
            Buffer::new().format(length).as_bytes(),
        ],
    )
}
