//! Pieces of an edge list: some whole lines, whose records are cut into fields by whoever has time,
//! and added in order.

ghost use Rattle.std.specs.Prelude.{◌≡◌, ◌≢◌, ◌<◌, ◌≤◌, ◌++◌, [], ℕ, List, Result, length, take, true};
ghost use Rattle.std.specs.Prelude.{Err, IfErr, IfOk, OnErr, OnOk};
ghost use Rattle.std.specs.Io.KnownBytes.{IsAtEnd};
ghost use Rattle.ball_model.specs.Input.{IsPlain, Network, Refusal, most_records, network_from, records};
ghost use Rattle.edgelist.specs.Pieces.{EndsLine, Fills, IsDone, IsOn, IsThrough, piece_of};
ghost use Rattle.graph.specs.Records.{byte_of};
ghost use Rattle.edgelist.specs.Reading.{AreWithin, Refuses, limits_of};

use crate::cut::Cut;
use crate::limits::{EdgeError, EdgeLimits};
use crate::reading::{Lines, Reading};
use crate::row::{AT_ONCE, Row, rows_for};
use ball_model::CountedRead;
use graph::{Delimiter, reader_of};
use std::alloc::{AllocError, Global};

/// How many bytes the first piece of a round waits for, also if there are records to be added
/// meanwhile.
pub(crate) const LEAST: usize = 16_384;

// How many bytes one read asks for at most.
const ROOM: usize = 65_536;

/// How many bytes a piece takes of a reader.
#[derive(Clone, Copy)]
pub(crate) struct Amount {
    /// At least these, also if the next ones may not be there yet.
    pub(crate) least: usize,
    /// About these, if the reader gives them at once.
    pub(crate) most: usize,
}

/// What the last call of a reader gave.
#[derive(Clone, Copy, PartialEq, Eq)]
pub(crate) enum Gives {
    /// As much as was asked for.
    Much,
    /// Some bytes, and the next ones may not be there yet.
    Little,
    /// Nothing: all is read.
    Nothing,
}

/// Some whole lines of an edge list, and their records, once these are cut into fields.
#[derive(Drop)]
pub(crate) struct Piece {
    delimiter: Delimiter,
    lines: Vec<u8>,
    cut: Cut,
    // room for one record
    row: Row,
    // whether the records are cut
    is_cut: bool,
    ghost so: { is_cut ≡ true → IsPlain lines.items → cut ≡ records (byte_of delimiter) lines.items },
}

// Puts what one read gives after the bytes that are held, and returns how much that was. The read
// asks for `most` bytes, or as many as there is room for.
fn take_some<S: CountedRead>(
    reader: &mut S,
    buffer: &mut [u8],
    lines: &mut Vec<u8>,
    most: usize,
) -> Result<Gives, EdgeError>
    requires { 0 < length buffer.old }
    ensures fills { OnOk result (Fills (S.remaining reader.old) (S.remaining reader.new)
        lines.old.items lines.new.items) }
    ensures end { IfOk result (λ gives. gives ≡ Gives.Nothing → IsAtEnd (S.remaining reader.new)) }
    ensures failed { IfErr result (λ e. (says : Result Network Refusal) → Refuses says e) }
{
    let asked = buffer.len().min(most).max(1);
    let Some(n) = reader.get(&mut buffer[..asked]) else {
        return Err(EdgeError::Read);
    };
    lines.extend_from_slice(&buffer[..n])?;
    if n == 0 {
        return Ok(Gives::Nothing);
    }
    if n < asked {
        return Ok(Gives::Little);
    }
    Ok(Gives::Much)
}

// Puts bytes after those that are held until there are `amount.most`, or `amount.least` and the
// next ones may not be there yet, or all are read.
fn fill<S: CountedRead>(
    reader: &mut S,
    buffer: &mut [u8],
    lines: &mut Vec<u8>,
    amount: Amount,
) -> Result<Gives, EdgeError>
    requires { 0 < length buffer.old }
    ensures fills { OnOk result (Fills (S.remaining reader.old) (S.remaining reader.new)
        lines.old.items lines.new.items) }
    ensures end { IfOk result (λ gives. gives ≡ Gives.Nothing → IsAtEnd (S.remaining reader.new)) }
    ensures failed { IfErr result (λ e. (says : Result Network Refusal) → Refuses says e) }
{
    for _turn in 0..u64::MAX {
        let gives = take_some(reader, buffer, lines, amount.most)?;
        let most = if gives == Gives::Much { amount.most } else { 0 };
        if gives == Gives::Nothing || lines.len() >= most.max(amount.least) {
            return Ok(gives);
        }
    }
    Ok(Gives::Much)
}

// Where the last line ends that an LF ends, or 0 if there is none.
fn last_end(lines: &[u8]) -> usize
    ensures within { result ≤ length lines.now }
    ensures ends { EndsLine (take result lines.now) }
{
    let mut end = lines.len();
    for _i in 0..lines.len() {
        if lines[end - 1] == b'\n' {
            return end;
        }
        end -= 1;
    }
    0
}

// Puts what is after a line's end, and its LF, in place of what was held, and keeps the lines
// before.
fn hold_from(lines: &mut Vec<u8>, held: &mut Vec<u8>, end: usize) -> Result<(), AllocError>
    requires { end ≤ length lines.old.items }
    ensures front { OnOk result (lines.new.items ≡ take end lines.old.items) }
    ensures rest { OnOk result (
        held.new.items ≡ piece_of lines.old.items end (length lines.old.items)) }
{
    held.clear();
    held.extend_from_slice(&lines[end.saturating_sub(1)..])?;
    lines.truncate(end);
    Ok(())
}

/// Bytes of a reader that no piece has: those after the last line's end, and its LF.
#[derive(Drop)]
pub(crate) struct Held {
    bytes: Vec<u8>,
    // room for what one read gives at most
    buffer: Vec<u8>,
    ghost so: { 0 < length buffer.items },
}

impl Held {
    /// No bytes.
    pub(crate) fn new(alloc: Global) -> Result<Held, AllocError>
        ensures { IfOk result (λ held. held.bytes.items ≡ []) }
    {
        let bytes = Vec::new(alloc);
        let buffer = vec![in alloc; 0u8; ROOM]?;
        Ok(Held { bytes, buffer })
    }
}

impl Piece {
    ghost use Rattle.edgelist.specs.Rounds.{IsSameText, has_no_lines, has_plain_lines, records_of};

    /// No lines.
    pub(crate) fn new(alloc: Global, delimiter: Delimiter) -> Piece
        ensures { has_no_lines result }
    {
        Piece {
            delimiter,
            lines: Vec::new(alloc),
            cut: Cut::new(alloc),
            row: Row::new(alloc),
            is_cut: false,
        }
    }

    /// Takes all lines out.
    pub(crate) fn clear(&mut self)
        ensures { has_no_lines self.new }
    {
        self.lines.clear();
        self.is_cut = false;
    }

    // What `fill` does, but that after an error it may have some lines.
    fn take_lines<S: CountedRead>(
        &mut self,
        reader: &mut S,
        held: &mut Held,
        delimiter: Delimiter,
        amount: Amount,
    ) -> Result<Gives, EdgeError>
        ensures on { (text : List ℕ) (done : List (List (List ℕ))) →
            IsOn (byte_of delimiter) text done held.old.bytes.items (S.remaining reader.old) →
            OnOk result (IsOn (byte_of delimiter) text (done ++ records_of self.new)
            held.new.bytes.items (S.remaining reader.new)) }
        ensures plain { (text : List ℕ) (done : List (List (List ℕ))) →
            IsOn (byte_of delimiter) text done held.old.bytes.items (S.remaining reader.old) →
            OnOk result (has_plain_lines self.new) }
        ensures end { IfOk result (λ gives. gives ≡ Gives.Nothing →
            IsDone held.new.bytes.items (S.remaining reader.new)) }
        ensures failed { IfErr result (λ e. (says : Result Network Refusal) → Refuses says e) }
    {
        self.is_cut = false;
        self.delimiter = delimiter;
        self.lines.clear();
        self.lines.extend_from_slice(&held.bytes)?;
        let wanted = Amount {
            least: amount.least.max(held.bytes.len().saturating_mul(2)),
            most: amount.most,
        };
        let gives = fill(reader, &mut held.buffer, &mut self.lines, wanted)?;
        if gives == Gives::Nothing {
            held.bytes.clear();
        } else {
            let end = last_end(&self.lines);
            hold_from(&mut self.lines, &mut held.bytes, end)?;
        }
        Ok(gives)
    }

    /// Replaces its lines by those of the bytes that are held and of `amount` more of a reader (or
    /// none, if no line ends among these). What is after the last line's end is then held. A line
    /// that is longer takes more. Returns what the last call of the reader gave. After an error it
    /// has no lines.
    pub(crate) fn fill<S: CountedRead>(
        &mut self,
        reader: &mut S,
        held: &mut Held,
        delimiter: Delimiter,
        amount: Amount,
    ) -> Result<Gives, EdgeError>
        ensures on { (text : List ℕ) (done : List (List (List ℕ))) →
            IsOn (byte_of delimiter) text done held.old.bytes.items (S.remaining reader.old) →
            OnOk result (IsOn (byte_of delimiter) text (done ++ records_of self.new)
            held.new.bytes.items (S.remaining reader.new)) }
        ensures plain { (text : List ℕ) (done : List (List (List ℕ))) →
            IsOn (byte_of delimiter) text done held.old.bytes.items (S.remaining reader.old) →
            OnOk result (has_plain_lines self.new) }
        ensures end { IfOk result (λ gives. gives ≡ Gives.Nothing →
            IsDone held.new.bytes.items (S.remaining reader.new)) }
        ensures failed { IfErr result (λ e. (says : Result Network Refusal) → Refuses says e) }
        ensures dropped { OnErr result (has_no_lines self.new) }
    {
        match self.take_lines(reader, held, delimiter, amount) {
            Ok(gives) => Ok(gives),
            Err(fault) => {
                self.clear();
                Err(fault)
            }
        }
    }

    /// Cuts the records of its lines into fields, if each of them has the form of one and there is
    /// memory.
    pub(crate) fn cut(&mut self, alloc: Global)
        ensures { IsSameText self.old self.new }
    {
        self.cut.clear();
        let lines: &[u8] = &self.lines;
        let mut reader = reader_of(alloc, lines, self.delimiter);
        let cut = self.cut.push_all(&mut reader, &mut self.row);
        self.is_cut = cut.is_some();
    }

    /// How many records were cut.
    pub(crate) fn len(&self) -> usize {
        self.cut.len()
    }

    // Reads its lines anew and adds their records, which follow `number` others; returns how many
    // there are then.
    fn read_to(
        &self,
        alloc: Global,
        reading: &mut Reading,
        number: u64,
        limits: EdgeLimits,
    ) -> Result<u64, EdgeError>
        requires few { limits.edges ≤ most_records }
        requires number { number ≤ limits.edges }
        requires within { AreWithin limits.vertices number
            reading.old.labels reading.old.edges.items }
        ensures number { IfOk result (λ n. n ≤ limits.edges) }
        ensures within { IfOk result (λ n. AreWithin limits.vertices n
            reading.new.labels reading.new.edges.items) }
        ensures ok { (before : List (List (List ℕ))) → IsPlain self.now.lines.items →
            IsThrough (limits_of limits) number before reading.old.labels reading.old.edges.items →
            IfOk result (λ n. IsThrough (limits_of limits) n (before ++ records_of self.now)
            reading.new.labels reading.new.edges.items) }
        ensures refused { (before more : List (List (List ℕ))) → IsPlain self.now.lines.items →
            IsThrough (limits_of limits) number before reading.old.labels reading.old.edges.items →
            IfErr result (Refuses (network_from (limits_of limits)
            (before ++ (records_of self.now ++ more)))) }
        ensures read { result ≢ Err EdgeError.Read }
    {
        let mut rows = rows_for(alloc, AT_ONCE)?;
        let lines = Lines {
            bytes: &self.lines,
            delimiter: self.delimiter,
        };
        reading.read_lines(alloc, &mut rows, lines, number, limits)
    }

    /// Adds its records, which follow `number` others, and returns how many there are then. If they
    /// are cut and the limits leave room for all, their fields are added; else the lines are read
    /// anew.
    pub(crate) fn add_to(
        &self,
        alloc: Global,
        reading: &mut Reading,
        number: u64,
        limits: EdgeLimits,
    ) -> Result<u64, EdgeError>
        requires few { limits.edges ≤ most_records }
        requires number { number ≤ limits.edges }
        requires within { AreWithin limits.vertices number
            reading.old.labels reading.old.edges.items }
        ensures number { IfOk result (λ n. n ≤ limits.edges) }
        ensures within { IfOk result (λ n. AreWithin limits.vertices n
            reading.new.labels reading.new.edges.items) }
        ensures ok { (before : List (List (List ℕ))) → IsPlain self.now.lines.items →
            IsThrough (limits_of limits) number before reading.old.labels reading.old.edges.items →
            IfOk result (λ n. IsThrough (limits_of limits) n (before ++ records_of self.now)
            reading.new.labels reading.new.edges.items) }
        ensures refused { (before more : List (List (List ℕ))) → IsPlain self.now.lines.items →
            IsThrough (limits_of limits) number before reading.old.labels reading.old.edges.items →
            IfErr result (Refuses (network_from (limits_of limits)
            (before ++ (records_of self.now ++ more)))) }
        ensures read { result ≢ Err EdgeError.Read }
    {
        if self.is_cut && reading.has_room(self.cut.len(), number, limits) {
            reading.add_cut(&self.cut, number, limits)?;
            return Ok(number + self.cut.len() as u64);
        }
        self.read_to(alloc, reading, number, limits)
    }
}
