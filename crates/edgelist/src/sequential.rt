//! Edge lists that are read record by record, by one thread.

ghost use Rattle.std.specs.Prelude.{◌≡◌, ◌≤◌, ◌<◌, length, Ok, Err, IfOk, IfErr, OnErr};
ghost use Rattle.std.specs.Io.KnownBytes.{ReadConsumes};
ghost use Rattle.std.specs.Io.{ReadsAtMost};
ghost use Rattle.ball_model.specs.PlanValue.{most_vertices};
ghost use Rattle.ball_model.specs.Input.{most_records, network_from, records};
ghost use Rattle.graph.specs.Records.{ForPlain, FromStart, byte_of};
ghost use Rattle.edgelist.specs.Reading.{AreWithin, CountsOne, EndsAtEnd, EndsAtFault, IsReadBy};
ghost use Rattle.edgelist.specs.Reading.{Refuses, limits_of, meaning_within};

use crate::limits::{EdgeError, EdgeLimits, EdgeList, read_answer};
use crate::reading::{Reading, Sequential};
use crate::row::{AT_ONCE, Row, rows_for};
use crate::watch::ReadWatch;
use ball_model::CountedRead;
use csv::Reader;
use graph::{Delimiter, reader_of};
use std::alloc::Global;
use std::hash::RandomState;
use std::io;
use std::io::{ErrorKind, Read};

// A reader as `csv` reads it, each of whose failed calls is counted.
#[derive(Drop)]
struct Counted<'a, R: CountedRead> {
    reader: &'a mut R,
}

impl<'a, R: CountedRead> Read for Counted<'a, R> {
    ghost remaining = { λ s. R.remaining s.reader.now };

    fn read(&mut self, buf: &mut [u8]) -> io::Result<usize>
        ensures bound { ReadsAtMost result buf.new }
        ensures bytes { ReadConsumes
            (R.remaining self.old.reader.now) (R.remaining self.new.reader.now) result buf.new }
        ensures failed { OnErr result (
            R.failed_calls self.old.reader.now < R.failed_calls self.new.reader.now) }
    {
        match self.reader.get(buf) {
            Some(n) => Ok(n),
            None => Err(io::Error::from(ErrorKind::Other)),
        }
    }
}

impl<'a, W: ReadWatch> Sequential<'a, W> {
    // Reads all records that are left. Its result has their number too.
    fn read_records<R: Read + Drop>(
        &self,
        alloc: Global,
        state: RandomState,
        reader: &mut Reader<R>,
        rows: &mut [Row],
    ) -> Result<(Reading, u64), EdgeError>
        requires rows { 0 < length rows.old }
        requires few { self.now.limits.edges ≤ most_records }
        ensures within { IfOk result (λ both.
            AreWithin self.now.limits.vertices self.now.limits.edges
            both.0.labels both.0.edges.items) }
        ensures ok { FromStart R.remaining reader.old (λ rs. IfOk result (λ both.
            IsReadBy self.now.limits rs both.0.labels both.0.edges.items)) }
        ensures count { FromStart R.remaining reader.old (λ rs.
            IfOk result (λ both. both.1 ≡ length rs)) }
        ensures refused { FromStart R.remaining reader.old (λ rs.
            IfErr result (Refuses (network_from (limits_of self.now.limits) rs))) }
        ensures last { EndsAtEnd R.remaining reader.old reader.new result }
        ensures ends { EndsAtFault R.remaining reader.old reader.new
            (limits_of self.now.limits) result }
    {
        let mut reading = Reading::new(alloc, state)?;
        let read = reading.read_more(reader, rows, 0, self);
        read.map(|number| (reading, number))
    }

    // Reads all records of a source. Its result has their number too.
    fn read_source<R: Read + Drop>(
        &self,
        alloc: Global,
        state: RandomState,
        source: R,
    ) -> Result<(Reading, u64), EdgeError>
        requires { self.now.limits.edges ≤ most_records }
        ensures within { IfOk result (λ both.
            AreWithin self.now.limits.vertices self.now.limits.edges
            both.0.labels both.0.edges.items) }
        ensures ok { ForPlain (R.remaining source) (λ text. IfOk result (λ both.
            IsReadBy self.now.limits (records (byte_of self.now.delimiter) text)
            both.0.labels both.0.edges.items)) }
        ensures count { ForPlain (R.remaining source) (λ text. IfOk result (λ both.
            both.1 ≡ length (records (byte_of self.now.delimiter) text))) }
        ensures refused { ForPlain (R.remaining source) (λ text.
            IfErr result (Refuses (meaning_within self.now.limits self.now.delimiter text))) }
    {
        let mut reader = reader_of(alloc, source, self.delimiter);
        let mut rows = rows_for(alloc, AT_ONCE)?;
        self.read_records(alloc, state, &mut reader, &mut rows)
    }

    /// Reads an edge list. The answer is `Read` exactly if a call of the reader failed (while
    /// failures can be counted).
    pub(crate) fn read<R: CountedRead>(
        &self,
        alloc: Global,
        state: RandomState,
        reader: &mut R,
    ) -> Result<EdgeList, EdgeError>
        requires vertices { self.now.limits.vertices ≤ most_vertices }
        requires edges { self.now.limits.edges ≤ most_records }
        ensures ok { ForPlain (R.remaining reader.old) (λ text. IfOk result (λ list.
            meaning_within self.now.limits self.now.delimiter text ≡ Ok list.graph)) }
        ensures count { ForPlain (R.remaining reader.old) (λ text. IfOk result (λ list.
            list.records ≡ length (records (byte_of self.now.delimiter) text))) }
        ensures refused { ForPlain (R.remaining reader.old) (λ text.
            IfErr result (Refuses (meaning_within self.now.limits self.now.delimiter text))) }
        ensures read { result ≡ Err EdgeError.Read →
            R.failed_calls reader.old < R.failed_calls reader.new }
        ensures failed { CountsOne (R.failed_calls reader.old) (R.failed_calls reader.new) →
            result ≡ Err EdgeError.Read }
    {
        let before = reader.failures();
        let counted = Counted {
            reader: &mut *reader,
        };
        let read = self.read_source(alloc, state, counted);
        let failed = reader.failures() > before;
        let (reading, number) = read_answer(read, failed)?;
        reading.into_list(alloc, number)
    }
}
