//! Lines and bodies of an input.

ghost use Rattle.std.specs.Prelude.{◌≡◌, ◌≢◌, ◌<◌, ◌≤◌, ◌⊎◌, ◌++◌, ◌∷◌, [], length, OnErr, OnOk};
ghost use Rattle.std.specs.Prelude.{vec_capacity};
ghost use Rattle.std.specs.Io.KnownBytes.{Consumes};
ghost use Rattle.ball_model.specs.Streams.{RisesByOne};
ghost use Rattle.job.specs.Stream.{FailsAs};
ghost use Rattle.node.specs.Stream.{CutsBody, ReadsBody, ReadsLine};

use ball_model::{CountedRead, Filled, fill};
use job::{NextByte, next_of};
use std::alloc::AllocError;

// The most bytes of a line: no command is as long.
const MOST_LINE: usize = 64;

// How many bytes of a body are read at once.
const PIECE: usize = 4096;

/// What came of reading a line.
#[derive(Clone, Copy, Debug, PartialEq, Eq)]
pub(crate) enum Line {
    /// It was read, and the LF after it.
    Whole,
    /// The input is at its end.
    None,
    /// The input ended within it.
    Cut,
    /// It is longer than any command.
    Long,
    /// Memory was refused.
    Memory,
    /// A call of the reader failed.
    Failed,
}

// Adds a byte to a line. At the first one room is made for all that a line may have.
fn put_byte(line: &mut Vec<u8>, byte: u8) -> Result<(), AllocError>
    requires short { length line.old.items < MOST_LINE }
    requires room { (line.old.items ≡ []) ⊎ (MOST_LINE ≤ vec_capacity line.old) }
    ensures ok { OnOk result (line.new.items ≡ line.old.items ++ byte ∷ []) }
    ensures room { OnOk result (MOST_LINE ≤ vec_capacity line.new) }
    ensures first { OnErr result (line.old.items ≡ []) }
{
    if line.is_empty() {
        line.reserve(MOST_LINE)?;
    }
    line.push_reserved(byte);
    Ok(())
}

/// Reads the bytes before the next LF into `line`, which is empty, and the LF. Memory may be refused at the first byte.
pub(crate) fn read_line<R: CountedRead>(reader: &mut R, line: &mut Vec<u8>) -> Line
    requires { line.old.items ≡ [] }
    ensures read { ReadsLine (R.remaining reader.old) (R.remaining reader.new)
        line.new.items result }
    ensures failed { result ≡ Line.Failed →
        RisesByOne (R.failed_calls reader.old) (R.failed_calls reader.new) }
    ensures counted { result ≢ Line.Failed →
        R.failed_calls reader.new ≡ R.failed_calls reader.old }
{
    while line.len() < MOST_LINE {
        match next_of(reader) {
            NextByte::Byte(b'\n') => return Line::Whole,
            NextByte::Byte(byte) => {
                let Ok(()) = put_byte(line, byte) else {
                    return Line::Memory;
                };
            }
            NextByte::End => return if line.is_empty() {
                Line::None
            } else {
                Line::Cut
            },
            NextByte::Failed => return Line::Failed,
        }
    }
    Line::Long
}

/// What came of reading a body.
#[derive(Clone, Copy, Debug, PartialEq, Eq)]
pub(crate) enum Body {
    /// It was read.
    Whole,
    /// The input ended within it.
    Cut,
    /// Memory was refused.
    Memory,
    /// A call of the reader failed.
    Failed,
}

// Reads `size` bytes, for which memory was refused, and drops them.
fn pass_over<R: CountedRead>(reader: &mut R, size: u64) -> Body
    ensures some { result ≢ Body.Whole }
    ensures memory { result ≡ Body.Memory →
        ReadsBody size (R.remaining reader.old) (R.remaining reader.new) }
    ensures cut { result ≡ Body.Cut →
        CutsBody size (R.remaining reader.old) (R.remaining reader.new) }
    ensures failed { FailsAs R.failed_calls reader.old reader.new result Body.Failed }
{
    let mut piece = [0u8; PIECE];
    let mut left = size;
    while left > 0 {
        let count = left.min(PIECE as u64) as usize;
        match fill(reader, &mut piece[..count]) {
            Filled::Full => {}
            Filled::Ended { .. } => return Body::Cut,
            Filled::Failed => return Body::Failed,
        }
        left -= count as u64;
    }
    Body::Memory
}

/// Reads `size` bytes into `body`, which is empty. Memory is taken as they come; if it is refused, the rest is read
/// and dropped, so that a body that is cut is answered as such.
pub(crate) fn read_body<R: CountedRead>(reader: &mut R, size: u64, body: &mut Vec<u8>) -> Body
    requires { body.old.items ≡ [] }
    ensures whole { result ≡ Body.Whole →
        Consumes (R.remaining reader.old) (R.remaining reader.new) body.new.items }
    ensures length { result ≡ Body.Whole → length body.new.items ≡ size }
    ensures cut { result ≡ Body.Cut →
        CutsBody size (R.remaining reader.old) (R.remaining reader.new) }
    ensures memory { result ≡ Body.Memory →
        ReadsBody size (R.remaining reader.old) (R.remaining reader.new) }
    ensures failed { result ≡ Body.Failed →
        RisesByOne (R.failed_calls reader.old) (R.failed_calls reader.new) }
    ensures counted { result ≢ Body.Failed →
        R.failed_calls reader.new ≡ R.failed_calls reader.old }
{
    let mut piece = [0u8; PIECE];
    let mut left = size;
    while left > 0 {
        let count = left.min(PIECE as u64) as usize;
        match fill(reader, &mut piece[..count]) {
            Filled::Full => {
                let Ok(()) = body.extend_from_slice(&piece[..count]) else {
                    return pass_over(reader, left - count as u64);
                };
            }
            Filled::Ended { .. } => return Body::Cut,
            Filled::Failed => return Body::Failed,
        }
        left -= count as u64;
    }
    Body::Whole
}
