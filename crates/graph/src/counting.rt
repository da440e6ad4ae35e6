//! Lists of the vertices that alone are counted.

ghost use Rattle.std.specs.Prelude.{◌≡◌, ◌+◌, ◌^◌, ◌<◌, ◌≤◌, [], ◌∷◌, length};
ghost use Rattle.std.specs.Prelude.{replicate, slice_index_or, if◌then◌else◌, None, OnOk, IfOk};
ghost use Rattle.std.specs.Prelude.{IfErr, IfSome, IfNone, false, true};
ghost use Rattle.csv.specs.Records.{fields_of};
ghost use Rattle.ball_model.specs.Input.{IsPlain, records};
ghost use Rattle.ball_model.specs.Counting.{is_name};
ghost use Rattle.graph.specs.Links.{marked_vertices};
ghost use Rattle.graph.specs.Records.{byte_of, FromStart, ReadsNone, ReadsOne};
ghost use Rattle.graph.specs.declared.counting.CountedError.TheVariants.{Memory};
ghost use Rattle.graph.specs.Counting.{ListFaultIs, record_fault, MarksAre, MarksOne, SaysMarks};
ghost use Rattle.graph.specs.Counting.{SaysRefusal};

use crate::delimiter::Delimiter;
use crate::index::Index;
use crate::labels::Labels;
use crate::records::{is_blank, reader_of};
use csv::{ByteRecord, Reader};
use std::alloc::{AllocError, Global};
use std::io::Read;
use thiserror::Error;

/// Why a list of counted vertices is refused. Records are numbered from 1.
#[derive(Clone, Copy, Debug, PartialEq, Eq, Error)]
pub enum CountedError {
    /// A record is not one field, or an empty one.
    #[error("record {number} of the list is not one identifier")]
    Fields { number: u64 },
    /// A record names no vertex.
    #[error("record {number} of the list names no vertex")]
    Unknown { number: u64 },
    /// Memory was refused.
    #[error("out of memory")]
    Memory,
}

impl From<AllocError> for CountedError {
    ghost from_gives = { λ _ e. e ≡ Memory };

    fn from(_error: AllocError) -> CountedError {
        CountedError::Memory
    }
}

// A list is read from memory, so that only want of memory can make a read fail.
impl From<csv::Error> for CountedError {
    ghost from_gives = { λ _ e. e ≡ Memory };

    fn from(_error: csv::Error) -> CountedError {
        CountedError::Memory
    }
}

// The only field of a record, unless it is empty.
fn name<'a>(row: &'a ByteRecord) -> Option<&'a [u8]>
    ensures fields { IfSome result (λ name. fields_of row.now ≡ name.now ∷ []) }
    ensures is_name { IfSome result (λ name. is_name (fields_of row.now) ≡ true) }
    ensures none { IfNone result (is_name (fields_of row.now) ≡ false) }
{
    if row.len() != 1 {
        return None;
    }
    let Some(field) = row.get(0) else {
        return None;
    };
    if field.is_empty() {
        return None;
    }
    Some(field)
}

// Marks the vertices that a record names, before which there are `number` others.
fn mark_record(
    marks: &mut [bool],
    index: &Index<'_>,
    row: &ByteRecord,
    number: u64,
) -> Result<(), CountedError>
    requires size { length marks.old ≡ length index.now }
    requires few { number ≤ 2 ^ 63 }
    ensures marks { OnOk result (MarksOne index.now (fields_of row.now) marks.old marks.new) }
    ensures passes { OnOk result (record_fault index.now (fields_of row.now) number ≡ None) }
    ensures stops { IfErr result (ListFaultIs (record_fault index.now (fields_of row.now) number)) }
{
    let Some(label) = name(row) else {
        return Err(CountedError::Fields { number: number + 1 });
    };
    if !index.mark(label, marks) {
        return Err(CountedError::Unknown { number: number + 1 });
    }
    Ok(())
}

// Reads the next record, and returns whether there was one.
fn next_row<R: Read + Drop>(
    reader: &mut Reader<R>,
    row: &mut ByteRecord,
) -> Result<bool, CountedError>
    ensures one { IfOk result (λ more. more ≡ true →
        ReadsOne R.remaining reader.old reader.new (fields_of row.new)) }
    ensures end { IfOk result (λ more. more ≡ false →
        ReadsNone R.remaining reader.old reader.new) }
    ensures failed { IfErr result (λ e. e ≡ Memory) }
{
    let more = reader.read_byte_record(row)?;
    Ok(more && !is_blank(row))
}

// Marks the vertices that the records of a list name. There are fewer than `most` records.
fn mark_all<R: Read + Drop>(
    marks: &mut [bool],
    index: &Index<'_>,
    reader: &mut Reader<R>,
    row: &mut ByteRecord,
    most: u64,
) -> Result<(), CountedError>
    requires marks { MarksAre index.now [] marks.old }
    requires few { most ≤ 2 ^ 63 + 1 }
    ensures ok { FromStart R.remaining reader.old (λ rs. length rs < most →
        OnOk result (SaysMarks index.now rs marks.new)) }
    ensures refused { FromStart R.remaining reader.old (λ rs.
        IfErr result (SaysRefusal index.now rs)) }
{
    for number in 0..most {
        let more = next_row(reader, row)?;
        if !more {
            return Ok(());
        }
        mark_record(marks, index, row, number)?;
    }
    Ok(())
}

fn no_marks(alloc: Global, count: usize) -> Result<Vec<bool>, AllocError>
    ensures { IfOk result (λ marks. marks.items ≡ replicate count false) }
{
    vec![in alloc; false; count]
}

// Marks the vertices that a list names.
fn mark_list(
    alloc: Global,
    marks: &mut [bool],
    index: &Index<'_>,
    delimiter: Delimiter,
    list: &[u8],
) -> Result<(), CountedError>
    requires marks { MarksAre index.now [] marks.old }
    ensures ok { IsPlain list.now →
        OnOk result (SaysMarks index.now (records (byte_of delimiter) list.now) marks.new) }
    ensures refused { IsPlain list.now →
        IfErr result (SaysRefusal index.now (records (byte_of delimiter) list.now)) }
{
    let mut reader = reader_of(alloc, list, delimiter);
    let mut row = ByteRecord::new(alloc);
    mark_all(marks, index, &mut reader, &mut row, list.len() as u64 + 2)
}

// Marks the vertices that a list names, by an index that is dropped before the marks are used.
fn mark_labels(
    alloc: Global,
    marks: &mut [bool],
    labels: &Labels,
    delimiter: Delimiter,
    list: &[u8],
) -> Result<(), CountedError>
    requires few { length labels.now < 2 ^ 32 }
    requires marks { MarksAre labels.now [] marks.old }
    ensures ok { IsPlain list.now →
        OnOk result (SaysMarks labels.now (records (byte_of delimiter) list.now) marks.new) }
    ensures refused { IsPlain list.now →
        IfErr result (SaysRefusal labels.now (records (byte_of delimiter) list.now)) }
{
    let index = Index::of(alloc, labels)?;
    mark_list(alloc, marks, &index, delimiter, list)
}

/// For each label whether some record of the list names it.
pub(crate) fn marks_of(
    alloc: Global,
    labels: &Labels,
    delimiter: Delimiter,
    list: &[u8],
) -> Result<Vec<bool>, CountedError>
    requires few { length labels.now < 2 ^ 32 }
    ensures size { IfOk result (λ marks. length marks.items ≡ length labels.now) }
    ensures ok { IsPlain list.now → IfOk result (λ marks.
        SaysMarks labels.now (records (byte_of delimiter) list.now) marks.items) }
    ensures refused { IsPlain list.now →
        IfErr result (SaysRefusal labels.now (records (byte_of delimiter) list.now)) }
{
    let mut marks = no_marks(alloc, labels.len())?;
    mark_labels(alloc, &mut marks, labels, delimiter, list)?;
    Ok(marks)
}

/// The mark of a vertex; one that has none is counted.
pub(crate) fn vertex_mark(marks: &[bool], v: usize) -> bool
    ensures { result ≡ slice_index_or marks.now v true }
{
    if v < marks.len() { marks[v] } else { true }
}

fn bit(mark: bool) -> u32
    ensures { result ≡ (if mark then 1 else 0) }
{
    if mark { 1 } else { 0 }
}

/// The number of marks that are set.
pub(crate) fn count_marks(marks: &[bool]) -> u32
    requires { length marks.now < 2 ^ 32 }
    ensures { result ≡ length (marked_vertices (length marks.now) marks.now) }
{
    let mut count = 0;
    for v in 0..marks.len() {
        count += bit(vertex_mark(marks, v));
    }
    count
}
