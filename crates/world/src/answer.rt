//! The text of what a world answers, a line at a time.

ghost use Rattle.std.specs.Prelude.{◌≡◌, ◌≢◌, ◌++◌, ◌∷◌, ◌%◌, ◌<◌, [], OnOk, codes, decimal, map};
ghost use Rattle.figures.specs.Values.{value_of};
ghost use Rattle.ball_model.specs.declared.world.Answer.TheVariants as told;
ghost use Rattle.ball_model.specs.declared.world.Event.{Event as Happening};
ghost use Rattle.ball_model.specs.Job.{Job};
ghost use Rattle.ball_model.specs.Join.{Holding};
ghost use Rattle.ball_model.specs.Held.{HasHolding};
ghost use Rattle.ball_model.specs.World.{World as Defined};
ghost use Rattle.ball_model.specs.WorldText.{answer_text, held_word, hex_digit, node_line};
ghost use Rattle.ball_model.specs.WorldText.{number_line, refusal_line, registers_word};
ghost use Rattle.ball_model.specs.WorldText.{row_line, row_text, taken_line, unclosed_line};
ghost use Rattle.ball_model.specs.WorldText.{unmerged_line, untaken_line, verdict_word, word_line};
ghost use Rattle.ball_model.specs.WorldText.{words_line};
ghost use Rattle.world.specs.Answer.{names_at, names_in, spaced};

use ball_model::world::{Answer, WorldError};
use ball_model::{BatchName, CloseError, MergeError, NodeId, TakeError, Taken, Verdict};
use figures::{Tally, fixed6};
use itoa::Buffer;
use replica::{Replica, Shown};
use std::alloc::AllocError;

// How many supersteps a replica may hold batches of.
const WINDOW: u32 = 4;

// Adds words, each after a space.
fn put_spaced(line: &mut Vec<u8>, words: &[&[u8]]) -> Result<(), AllocError>
    ensures { OnOk result (line.new.items ≡
        line.old.items ++ spaced (map (λ word. word.now) words.now)) }
{
    for word in words {
        line.extend_from_slice(b" ".as_slice())?;
        line.extend_from_slice(word)?;
    }
    Ok(())
}

/// Adds a line of words.
pub fn put_line(line: &mut Vec<u8>, first: &[u8], words: &[&[u8]]) -> Result<(), AllocError>
    ensures { OnOk result (line.new.items ≡
        line.old.items ++ words_line (first.now ∷ map (λ word. word.now) words.now)) }
{
    line.extend_from_slice(first)?;
    put_spaced(line, words)?;
    line.extend_from_slice(b"\n".as_slice())?;
    Ok(())
}

// Adds a line of one word.
fn put_word(line: &mut Vec<u8>, word: &[u8]) -> Result<(), AllocError>
    ensures { OnOk result (line.new.items ≡ line.old.items ++ word_line word.now) }
{
    put_line(line, word, &[])
}

// Adds a line of a word and a number.
fn put_number(line: &mut Vec<u8>, word: &[u8], n: u32) -> Result<(), AllocError>
    ensures { OnOk result (line.new.items ≡ line.old.items ++ number_line word.now n) }
{
    put_line(line, word, &[Buffer::new().format(n).as_bytes()])
}

// Adds what became of a message.
fn put_taken(line: &mut Vec<u8>, taken: Taken) -> Result<(), AllocError>
    ensures { OnOk result (line.new.items ≡ line.old.items ++ taken_line taken) }
{
    match taken {
        Taken::Old => put_word(line, b"old".as_slice()),
        Taken::Known => put_word(line, b"known".as_slice()),
        Taken::New => put_word(line, b"new".as_slice()),
    }
}

// Adds why a message was not taken.
fn put_untaken(line: &mut Vec<u8>, error: TakeError) -> Result<(), AllocError>
    ensures { OnOk result (line.new.items ≡ line.old.items ++ untaken_line error) }
{
    match error {
        TakeError::OtherJob => put_word(line, b"other-job".as_slice()),
        TakeError::NotMine => put_word(line, b"not-mine".as_slice()),
        TakeError::OwnPartition => put_word(line, b"own-partition".as_slice()),
        TakeError::TooEarly { last } => put_number(line, b"too-early".as_slice(), last),
    }
}

// Adds why a superstep was not closed.
fn put_unclosed(line: &mut Vec<u8>, error: CloseError) -> Result<(), AllocError>
    ensures { OnOk result (line.new.items ≡ line.old.items ++ unclosed_line error) }
{
    match error {
        CloseError::Waiting { source } => {
            put_number(line, b"waiting".as_slice(), u32::from(source))
        }
        CloseError::Finished => put_word(line, b"finished".as_slice()),
    }
}

// Adds why a copy was not merged. Want of memory is no answer.
fn put_unmerged(line: &mut Vec<u8>, error: MergeError) -> Result<(), AllocError>
    ensures { OnOk result (line.new.items ≡ line.old.items ++ unmerged_line error) }
{
    match error {
        MergeError::OtherJob => put_word(line, b"other-job".as_slice()),
        MergeError::NotMine => put_word(line, b"not-mine".as_slice()),
        MergeError::Memory => Ok(()),
    }
}

/// Adds the line of a refused event. Want of memory has none.
pub fn put_refusal(line: &mut Vec<u8>, error: WorldError) -> Result<(), AllocError>
    ensures { OnOk result (line.new.items ≡ line.old.items ++ refusal_line error) }
{
    let refused = b"refused".as_slice();
    match error {
        WorldError::NoNode => put_line(line, refused, &[b"no-node".as_slice()]),
        WorldError::NoTarget => put_line(line, refused, &[b"no-target".as_slice()]),
        WorldError::NoMessage => put_line(line, refused, &[b"no-message".as_slice()]),
        WorldError::NoCopy => put_line(line, refused, &[b"no-copy".as_slice()]),
        WorldError::Memory => Ok(()),
    }
}

// Adds the line of a message that was sent: its number, its name, how many vertices changed, and how many rows it has.
fn put_sent(
    line: &mut Vec<u8>,
    message: u64,
    name: BatchName,
    changed: u32,
    rows: u32,
) -> Result<(), AllocError>
    ensures { OnOk result (line.new.items ≡ line.old.items ++ words_line
        (codes "sent" ∷ decimal message ∷ decimal name.superstep ∷ decimal name.source
        ∷ decimal name.target ∷ decimal changed ∷ decimal rows ∷ [])) }
{
    put_line(
        line,
        b"sent".as_slice(),
        &[
            Buffer::new().format(message).as_bytes(),
            Buffer::new().format(name.superstep).as_bytes(),
            Buffer::new().format(name.source).as_bytes(),
            Buffer::new().format(name.target).as_bytes(),
            Buffer::new().format(changed).as_bytes(),
            Buffer::new().format(rows).as_bytes(),
        ],
    )
}

// Adds the line of a copy that was made: its number and its superstep.
fn put_copied(line: &mut Vec<u8>, copy: u64, superstep: u32) -> Result<(), AllocError>
    ensures { OnOk result (line.new.items ≡ line.old.items ++ words_line
        (codes "copied" ∷ decimal copy ∷ decimal superstep ∷ [])) }
{
    put_line(
        line,
        b"copied".as_slice(),
        &[
            Buffer::new().format(copy).as_bytes(),
            Buffer::new().format(superstep).as_bytes(),
        ],
    )
}

/// Adds the line of an answer. A node that is looked at has lines of its own.
pub fn put_answer(line: &mut Vec<u8>, answer: Answer) -> Result<(), AllocError>
    ensures { (j : Job) (w : Defined) (e : Happening) → answer ≢ told.Shown →
        OnOk result (line.new.items ≡ line.old.items ++ answer_text j w e answer) }
{
    match answer {
        Answer::Sent {
            message,
            name,
            changed,
            rows,
        } => put_sent(line, message, name, changed, rows),
        Answer::Took(taken) => put_taken(line, taken),
        Answer::NotTaken(error) => put_untaken(line, error),
        Answer::Closed { superstep } => put_number(line, b"closed".as_slice(), superstep),
        Answer::NotClosed(error) => put_unclosed(line, error),
        Answer::Kept { superstep } => put_number(line, b"kept".as_slice(), superstep),
        Answer::Restarted { superstep } => put_number(line, b"restarted".as_slice(), superstep),
        Answer::Copied { copy, superstep } => put_copied(line, copy, superstep),
        Answer::Merged { superstep } => put_number(line, b"merged".as_slice(), superstep),
        Answer::NotMerged(error) => put_unmerged(line, error),
        Answer::Shown => Ok(()),
    }
}

// The word of a verdict.
fn verdict_word(verdict: Option<Verdict>) -> &'static [u8]
    ensures { result.now ≡ verdict_word verdict }
{
    match verdict {
        None => b"open".as_slice(),
        Some(Verdict::GoOn) => b"go-on".as_slice(),
        Some(Verdict::Stable) => b"stable".as_slice(),
        Some(Verdict::Limit) => b"limit".as_slice(),
    }
}

// Adds two numbers with a byte between them.
fn put_pair(line: &mut Vec<u8>, first: u32, between: u8, second: u16) -> Result<(), AllocError>
    ensures { OnOk result (line.new.items ≡
        line.old.items ++ (decimal first ++ between ∷ decimal second)) }
{
    line.extend_from_slice(Buffer::new().format(first).as_bytes())?;
    line.extend_from_slice(&[between])?;
    line.extend_from_slice(Buffer::new().format(second).as_bytes())?;
    Ok(())
}

// Adds the names of the batches of a superstep that a replica holds, each after a space.
fn put_names_at(line: &mut Vec<u8>, replica: &Replica, superstep: u32) -> Result<(), AllocError>
    ensures { OnOk result (line.new.items ≡ line.old.items ++
        spaced (map held_word (names_at replica.now superstep replica.now.part.plan.parts))) }
{
    for source in 0..replica.plan().parts() {
        let name = BatchName {
            superstep,
            source,
            target: replica.partition(),
        };
        if replica.holds(name) {
            line.extend_from_slice(b" ".as_slice())?;
            put_pair(line, superstep, b':', source)?;
        }
    }
    Ok(())
}

// Adds all names that a replica holds, each after a space.
fn put_names(line: &mut Vec<u8>, replica: &Replica) -> Result<(), AllocError>
    ensures { OnOk result (line.new.items ≡
        line.old.items ++ spaced (map held_word (names_in replica.now))) }
{
    let superstep = replica.superstep();
    for ahead in 0..WINDOW {
        put_names_at(line, replica, superstep + ahead)?;
    }
    Ok(())
}

/// Adds the line of a node: its superstep, its verdict, and the names that it holds.
pub(crate) fn put_node(line: &mut Vec<u8>, id: NodeId, replica: &Replica) -> Result<(), AllocError>
    ensures { (j : Job) (h : Holding) → HasHolding j h replica.now →
        OnOk result (line.new.items ≡ line.old.items ++ node_line j id h) }
{
    line.extend_from_slice(b"node ".as_slice())?;
    put_pair(line, u32::from(id.part), b'.', u16::from(id.replica))?;
    put_spaced(
        line,
        &[
            Buffer::new().format(replica.superstep()).as_bytes(),
            verdict_word(replica.verdict()),
        ],
    )?;
    put_names(line, replica)?;
    line.extend_from_slice(b"\n".as_slice())?;
    Ok(())
}

// A digit to base 16.
fn hex_digit(d: u8) -> u8
    requires { d < 16 }
    ensures { result ≡ hex_digit d }
{
    if d < 10 { b'0' + d } else { b'a' - 10 + d }
}

// Adds registers, each as two digits to base 16.
fn put_registers(line: &mut Vec<u8>, row: &[u8]) -> Result<(), AllocError>
    ensures { OnOk result (line.new.items ≡ line.old.items ++ registers_word row.now) }
{
    for register in row {
        line.extend_from_slice(&[hex_digit(register / 16), hex_digit(register % 16)])?;
    }
    Ok(())
}

// Adds the line of a vertex: its figures and its registers.
fn put_row(line: &mut Vec<u8>, x: u32, tally: Tally, row: &[u8]) -> Result<(), AllocError>
    ensures { OnOk result (line.new.items ≡
        line.old.items ++ row_line x (value_of tally) row.now) }
{
    line.extend_from_slice(b"row".as_slice())?;
    put_spaced(
        line,
        &[
            Buffer::new().format(x).as_bytes(),
            fixed6(u128::from(tally.last), &mut [0u8; 48]).as_bytes(),
            fixed6(u128::from(tally.harm), &mut [0u8; 48]).as_bytes(),
            fixed6(tally.dist, &mut [0u8; 48]).as_bytes(),
        ],
    )?;
    line.extend_from_slice(b" ".as_slice())?;
    put_registers(line, row)?;
    line.extend_from_slice(b"\n".as_slice())?;
    Ok(())
}

/// Adds the line of vertex `x`, which the replica's partition owns.
pub(crate) fn put_vertex(line: &mut Vec<u8>, replica: &Replica, x: u32) -> Result<(), AllocError>
    requires vertex { x < replica.now.part.plan.vertices }
    requires own { x % replica.now.part.plan.parts ≡ replica.now.part.number }
    ensures { (j : Job) (h : Holding) → HasHolding j h replica.now →
        OnOk result (line.new.items ≡ line.old.items ++ row_text j h.superstep x) }
{
    put_row(line, x, replica.tally(x), replica.row(x))
}
