//! Edge lists whose bytes are given one after the other.
//!
//! If something follows the edge list, a caller reads byte by byte and gives the edge list's bytes
//! to an [`EdgeReader`]. It holds some lines at a time and never the whole edge list.

ghost use Rattle.std.specs.Prelude.{◌≡◌, ◌≢◌, ◌<◌, ◌≤◌, ◌++◌, ◌∷◌, [], ℕ, List, None, Some, length};
ghost use Rattle.std.specs.Prelude.{Err, IfErr, IfOk, Ok, OnOk};
ghost use Rattle.std.proofs.Props.{props};
ghost use Rattle.ball_model.specs.Input.{IsPlain, Limits, most_records, records};
ghost use Rattle.ball_model.specs.PlanValue.{most_vertices};
ghost use Rattle.graph.specs.Records.{byte_of};
ghost use Rattle.edgelist.specs.Reading.{AreWithin, Refuses, limits_of, meaning_under};
ghost use Rattle.edgelist.specs.declared.limits.EdgeError.TheVariants as refused;

use crate::limits::{EdgeError, EdgeLimits, EdgeList, MOST_RECORDS, USUAL_RECORDS};
use crate::reading::{Lines, Reading};
use crate::row::{AT_ONCE, Row, rows_for};
use ball_model::plan::{MOST_VERTICES, USUAL_VERTICES};
use graph::Delimiter;
use std::alloc::Global;
use std::hash::RandomState;

// How many bytes are held before their lines are read.
const ENOUGH: usize = 65_536;

/// Reads an edge list whose bytes are given one at a time.
pub struct EdgeReader {
    delimiter: Delimiter,
    limits: EdgeLimits,
    reading: Reading,
    // how many records were read
    number: u64,
    // room for those that are read at once
    rows: Vec<Row>,
    // the bytes that were given and not read, after an LF if others were read before
    lines: Vec<u8>,
    // the error of a call before
    failed: Option<EdgeError>,
    ghost vertices: { limits.vertices ≤ most_vertices },
    ghost edges: { limits.edges ≤ most_records },
    ghost room: { 0 < length rows.items },
    ghost read: { failed ≢ Some refused.Read },
    ghost few: { failed ≡ None → number ≤ limits.edges },
    ghost within: { failed ≡ None →
        AreWithin limits.vertices number
        reading.labels reading.edges.items } by { Prim.hlevel props },
}

// Written out, and so one call wherever one is dropped: the checker reads a derived one again at
// each place.
impl Drop for EdgeReader {
    fn drop(self) {
        let EdgeReader {
            delimiter: _,
            limits: _,
            reading: _,
            number: _,
            rows: _,
            lines: _,
            failed: _,
        } = self;
    }
}

impl EdgeReader {
    ghost use Rattle.edgelist.specs.Given.{HasFailed, IsGiven, IsGivenLarge, IsGivenUnder};
    ghost use Rattle.edgelist.specs.Pieces.{EndsLine};

    /// A reader that was given nothing yet. The only error is that memory was refused.
    pub fn new(
        alloc: Global,
        state: RandomState,
        delimiter: Delimiter,
        limits: EdgeLimits,
    ) -> Result<EdgeReader, EdgeError>
        ensures ok { IfOk result (IsGiven limits delimiter []) }
        ensures memory { IfErr result (λ e. e ≡ EdgeError.Memory) }
    {
        let limits = EdgeLimits {
            vertices: limits.vertices.min(USUAL_VERTICES),
            edges: limits.edges.min(USUAL_RECORDS),
        };
        EdgeReader::under(alloc, state, delimiter, limits)
    }

    /// A reader of a large edge list, given nothing yet: at most 2^31 vertices and 2^32 - 1
    /// records. The only error is that memory was refused.
    pub fn large(
        alloc: Global,
        state: RandomState,
        delimiter: Delimiter,
        limits: EdgeLimits,
    ) -> Result<EdgeReader, EdgeError>
        ensures ok { IfOk result (IsGivenLarge limits delimiter []) }
        ensures memory { IfErr result (λ e. e ≡ EdgeError.Memory) }
    {
        let limits = EdgeLimits {
            vertices: limits.vertices.min(MOST_VERTICES),
            edges: limits.edges.min(MOST_RECORDS),
        };
        EdgeReader::under(alloc, state, delimiter, limits)
    }

    // A reader that was given nothing yet, with these limits in force.
    fn under(
        alloc: Global,
        state: RandomState,
        delimiter: Delimiter,
        limits: EdgeLimits,
    ) -> Result<EdgeReader, EdgeError>
        requires vertices { limits.vertices ≤ most_vertices }
        requires edges { limits.edges ≤ most_records }
        ensures ok { IfOk result (IsGivenUnder (limits_of limits) delimiter []) }
        ensures memory { IfErr result (λ e. e ≡ EdgeError.Memory) }
    {
        let reading = Reading::new(alloc, state)?;
        let rows = rows_for(alloc, AT_ONCE)?;
        Ok(EdgeReader {
            delimiter,
            limits,
            reading,
            number: 0,
            rows,
            lines: Vec::new(alloc),
            failed: None,
        })
    }

    // Reads the lines that are held.
    fn read_held(&mut self, alloc: Global) -> Result<(), EdgeError>
        requires none { self.old.failed ≡ None }
        requires some { 0 < length self.old.lines.items }
        ensures ok { (limits : Limits) (delimiter : Delimiter) (text : List ℕ) →
            IsGivenUnder limits delimiter text self.old → EndsLine text →
            OnOk result (IsGivenUnder limits delimiter text self.new) }
        ensures refused { (limits : Limits) (delimiter : Delimiter) (text more : List ℕ) →
            IsGivenUnder limits delimiter text self.old → EndsLine text → IsPlain (text ++ more) →
            IfErr result (Refuses (meaning_under limits delimiter (text ++ more))) }
        ensures stays { IfErr result (λ e. HasFailed e self.new) }
        ensures read { result ≢ Err EdgeError.Read }
    {
        let lines = Lines {
            bytes: &self.lines,
            delimiter: self.delimiter,
        };
        match self
            .reading
            .read_lines(alloc, &mut self.rows, lines, self.number, self.limits)
        {
            Ok(number) => {
                self.number = number;
                self.lines.truncate(1);
                self.lines[0] = b'\n';
                Ok(())
            }
            Err(error) => {
                self.failed = Some(error);
                Err(error)
            }
        }
    }

    /// Takes the next byte of the edge list.
    ///
    /// A refusal is that of the whole edge list, whatever follows. After an error each call answers
    /// that error.
    pub fn add(&mut self, alloc: Global, byte: u8) -> Result<(), EdgeError>
        ensures ok { (limits : Limits) (delimiter : Delimiter) (text : List ℕ) →
            IsGivenUnder limits delimiter text self.old →
            OnOk result (IsGivenUnder limits delimiter (text ++ byte ∷ []) self.new) }
        ensures refused { (limits : Limits) (delimiter : Delimiter) (text more : List ℕ) →
            IsGivenUnder limits delimiter text self.old → IsPlain (text ++ byte ∷ more) →
            IfErr result (Refuses (meaning_under limits delimiter (text ++ byte ∷ more))) }
        ensures again { (e : EdgeError) → HasFailed e self.old → result ≡ Err e }
        ensures stays { IfErr result (λ e. HasFailed e self.new) }
        ensures read { result ≢ Err EdgeError.Read }
    {
        if let Some(error) = self.failed {
            return Err(error);
        }
        let Ok(()) = self.lines.push(byte) else {
            self.failed = Some(EdgeError::Memory);
            return Err(EdgeError::Memory);
        };
        if byte == b'\n' && self.lines.len() >= ENOUGH {
            return self.read_held(alloc);
        }
        Ok(())
    }

    /// The edge list that was given.
    pub fn finish(self, alloc: Global) -> Result<EdgeList, EdgeError>
        ensures ok { (limits : Limits) (delimiter : Delimiter) (text : List ℕ) →
            IsGivenUnder limits delimiter text self → IsPlain text →
            IfOk result (λ list. meaning_under limits delimiter text ≡ Ok list.graph) }
        ensures count { (limits : Limits) (delimiter : Delimiter) (text : List ℕ) →
            IsGivenUnder limits delimiter text self → IsPlain text →
            IfOk result (λ list. list.records ≡ length (records (byte_of delimiter) text)) }
        ensures refused { (limits : Limits) (delimiter : Delimiter) (text : List ℕ) →
            IsGivenUnder limits delimiter text self → IsPlain text →
            IfErr result (Refuses (meaning_under limits delimiter text)) }
        ensures again { (e : EdgeError) → HasFailed e self → result ≡ Err e }
        ensures read { result ≢ Err EdgeError.Read }
    {
        if let Some(error) = self.failed {
            return Err(error);
        }
        let EdgeReader {
            delimiter,
            limits,
            mut reading,
            number,
            mut rows,
            lines,
            failed: _,
        } = self;
        let lines = Lines {
            bytes: &lines,
            delimiter,
        };
        let records = reading.read_lines(alloc, &mut rows, lines, number, limits)?;
        reading.into_list(alloc, records)
    }
}
