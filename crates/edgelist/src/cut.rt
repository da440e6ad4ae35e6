//! Records of some lines, cut into their fields.

ghost use Rattle.std.specs.Prelude.{◌≡◌, ◌<◌, ◌++◌, ◌∷◌, [], ℕ, List, length, map};
ghost use Rattle.std.specs.Prelude.{slice_index_or, IfSome, OnSome, option_copied};
ghost use Rattle.std.specs.List.{All};
ghost use Rattle.ball_model.specs.Input.{records};
ghost use Rattle.edgelist.specs.Cutting.{Extends, IsCut, cut_fields, field_or_none};
ghost use Rattle.edgelist.specs.Guessing.{HasKey};
ghost use Rattle.edgelist.specs.Reading.{fields_with};
ghost use Rattle.graph.specs.Records.{IsLeft};
ghost use Rattle.edgelist.specs.Records.{HasForm};

use crate::key::LabelKey;
use crate::limits::MOST_RECORDS;
use crate::row::Row;
use csv::Reader;
use std::alloc::Global;
use std::io::Read;
use std::marker::Model;

/// Where the fields of a record are among the bytes of all, and their keys. The first field ends
/// where the second begins, or where the record ends if it has one field.
#[derive(Clone, Copy)]
pub(crate) struct CutRecord {
    start: u32,
    middle: u32,
    end: u32,
    source: LabelKey,
    target: LabelKey,
}

impl CutRecord {
    /// The key of the first field.
    pub(crate) fn source_key(&self) -> LabelKey {
        self.source
    }

    /// The key of the second field, or any key if there is none.
    pub(crate) fn target_key(&self) -> LabelKey {
        self.target
    }
}

/// Records, each of which has the form of one: the bytes of their fields, one after another, and
/// where each is.
#[derive(Drop)]
pub(crate) struct Cut {
    bytes: Vec<u8>,
    records: Vec<CutRecord>,
}

impl Model for Cut {
    ghost use Rattle.std.specs.Prelude.{List, ℕ, map};
    ghost use Rattle.std.specs.List.{All};
    ghost use Rattle.edgelist.specs.Cutting.{IsCut, cut_fields};

    ghost Value = { List (List (List ℕ)) };

    ghost view = { λ cut. map (cut_fields cut.bytes.items) cut.records.items };

    ghost invariant = { λ cut. All (IsCut cut.bytes.items) cut.records.items };
}

// How many bytes there are, if fewer than 2^32.
fn end_of(bytes: &Vec<u8>) -> Option<u32>
    ensures { IfSome result (λ end. end ≡ length bytes.now.items) }
{
    u32::try_from(bytes.len()).ok()
}

// Puts a field after the bytes, if there is room.
fn put(bytes: &mut Vec<u8>, field: &[u8]) -> Option<u32>
    ensures extends { Extends bytes.old.items bytes.new.items }
    ensures items { OnSome result (bytes.new.items ≡ bytes.old.items ++ field.now) }
    ensures end { IfSome result (λ end. end ≡ length bytes.new.items) }
{
    match bytes.extend_from_slice(field) {
        Ok(()) => end_of(bytes),
        Err(_) => None,
    }
}

// Puts a second field, if there is one, after the bytes, if there is room.
fn put_second(bytes: &mut Vec<u8>, field: Option<&[u8]>) -> Option<u32>
    ensures extends { Extends bytes.old.items bytes.new.items }
    ensures items { OnSome result (
        bytes.new.items ≡ bytes.old.items ++ field_or_none (option_copied field.entry)) }
    ensures end { IfSome result (λ end. end ≡ length bytes.new.items) }
{
    match field {
        Some(field) => put(bytes, field),
        None => end_of(bytes),
    }
}

// Puts the fields of a record after the bytes, if it has the form of one and there is room, and
// returns where they are.
fn put_fields(bytes: &mut Vec<u8>, row: &Row) -> Option<CutRecord>
    ensures extends { Extends bytes.old.items bytes.new.items }
    ensures cut { IfSome result (IsCut bytes.new.items) }
    ensures fields { IfSome result (λ r. cut_fields bytes.new.items r ≡ row.now) }
{
    let Some((source, target)) = row.labels() else {
        return None;
    };
    let Some(start) = end_of(bytes) else {
        return None;
    };
    let Some(middle) = put(bytes, source) else {
        return None;
    };
    let Some(end) = put_second(bytes, target) else {
        return None;
    };
    Some(CutRecord {
        start,
        middle,
        end,
        source: row.source_key(),
        target: row.target_key(),
    })
}

// Puts a record after others, if it has the form of one and there is room.
fn put_record(bytes: &mut Vec<u8>, records: &mut Vec<CutRecord>, row: &Row) -> Option<()>
    requires { All (IsCut bytes.old.items) records.old.items }
    ensures cut { All (IsCut bytes.new.items) records.new.items }
    ensures fields { OnSome result (map (cut_fields bytes.new.items) records.new.items
        ≡ map (cut_fields bytes.old.items) records.old.items ++ row.now ∷ []) }
{
    let Some(record) = put_fields(bytes, row) else {
        return None;
    };
    match records.push(record) {
        Ok(()) => Some(()),
        Err(_) => None,
    }
}

impl Cut {
    /// No records.
    pub(crate) fn new(alloc: Global) -> Cut
        ensures { result ≡ [] }
    {
        Cut {
            bytes: Vec::new(alloc),
            records: Vec::new(alloc),
        }
    }

    /// Drops all records, and keeps their memory for others.
    pub(crate) fn clear(&mut self)
        ensures { self.new ≡ [] }
    {
        self.records.clear();
        self.bytes.clear();
    }

    pub(crate) fn len(&self) -> usize
        ensures count { result ≡ length self.now }
        ensures form { All HasForm self.now }
    {
        self.records.len()
    }

    /// Where the fields of each record are.
    pub(crate) fn records(&self) -> &[CutRecord]
        ensures { length result.now ≡ length self.now }
    {
        &self.records
    }

    /// The first field of record i, and the second.
    pub(crate) fn labels(&self, i: usize) -> (&[u8], Option<&[u8]>)
        requires { i < length self.now }
        ensures fields { slice_index_or self.now i [] ≡
            fields_with result.0.now (option_copied result.1) }
        ensures form { HasForm (slice_index_or self.now i []) }
    {
        let record = self.records[i];
        let (start, middle, end) = (
            record.start as usize,
            record.middle as usize,
            record.end as usize,
        );
        let source = &self.bytes[start..middle];
        if middle < end {
            (source, Some(&self.bytes[middle..end]))
        } else {
            (source, None)
        }
    }

    /// The keys of the fields of record i.
    pub(crate) fn keys(&self, i: usize) -> (LabelKey, LabelKey)
        requires { i < length self.now }
        ensures source { HasKey (slice_index_or self.now i []) 0 result.0 }
        ensures target { HasKey (slice_index_or self.now i []) 1 result.1 }
    {
        let record = self.records[i];
        (record.source, record.target)
    }

    // Puts a record after the others, if it has the form of one and there is room.
    fn push(&mut self, row: &Row) -> Option<()>
        ensures { OnSome result (self.new ≡ self.old ++ row.now ∷ []) }
    {
        put_record(&mut self.bytes, &mut self.records, row)
    }

    /// Puts all records that a reader has left after the others, if each has the form of one and
    /// there is room.
    pub(crate) fn push_all<R: Read + Drop>(
        &mut self,
        reader: &mut Reader<R>,
        row: &mut Row,
    ) -> Option<()>
        ensures { (d : ℕ) (text : List ℕ) → IsLeft R.remaining d text self.old reader.old →
            OnSome result (self.new ≡ records d text) }
    {
        for _turn in 0..MOST_RECORDS {
            let Ok(more) = row.read(reader) else {
                return None;
            };
            if !more {
                return Some(());
            }
            self.push(row)?;
        }
        None
    }
}
