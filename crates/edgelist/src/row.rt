//! Records that are read, each with the keys of its labels.

ghost use Rattle.std.specs.Prelude.{◌≡◌, [], IfOk, IfNone, IfSome, OnSome, length, option_copied};
ghost use Rattle.std.specs.Prelude.{true, false};
ghost use Rattle.csv.specs.Records.{fields_of};
ghost use Rattle.ball_model.specs.Input.{has_form};
ghost use Rattle.edgelist.specs.Guessing.{HasKey};
ghost use Rattle.edgelist.specs.Reading.{fields_with};
ghost use Rattle.graph.specs.Records.{ReadsNone, ReadsOne};

use crate::key::LabelKey;
use csv::{ByteRecord, Reader};
use graph::is_blank;
use std::alloc::{AllocError, Global};
use std::io::Read;
use std::marker::Model;

/// How many records are read at most before the first of them is added.
pub(crate) const AT_ONCE: usize = 16;

/// What `csv` reads as one record, the keys of its first two fields, and whether it has the form of
/// a record of an edge list. A field that is not there has the key of no label.
#[derive(Drop)]
pub(crate) struct Row {
    fields: ByteRecord,
    source: LabelKey,
    target: LabelKey,
    formed: bool,
}

impl Model for Row {
    ghost use Rattle.std.specs.Prelude.{◌≡◌, List, ℕ};
    ghost use Rattle.csv.specs.Records.{fields_of};
    ghost use Rattle.ball_model.specs.Input.{has_form};
    ghost use Rattle.edgelist.specs.Guessing.{HasKey};

    ghost Value = { List (List ℕ) };

    ghost view = { λ row. fields_of row.fields };

    ghost invariant = { λ row.
        HasKey (fields_of row.fields) 0 row.source × HasKey (fields_of row.fields) 1 row.target
        × row.formed ≡ has_form (fields_of row.fields) };
}

// The first field of a record and its second, if it has one or two and none is empty.
fn fields_in<'a>(row: &'a ByteRecord) -> Option<(&'a [u8], Option<&'a [u8]>)>
    ensures fields { IfSome result (λ r.
        fields_of row.now ≡ fields_with r.0.now (option_copied r.1)) }
    ensures form { OnSome result (has_form (fields_of row.now) ≡ true) }
    ensures none { IfNone result (has_form (fields_of row.now) ≡ false) }
{
    let Some(source) = row.get(0) else {
        return None;
    };
    if source.is_empty() || row.len() > 2 {
        return None;
    }
    match row.get(1) {
        None => Some((source, None)),
        Some(target) => if target.is_empty() {
            None
        } else {
            Some((source, Some(target)))
        },
    }
}

// The key of a field.
fn key_at(row: &ByteRecord, i: usize) -> LabelKey
    ensures { HasKey (fields_of row.now) i result }
{
    match row.get(i) {
        Some(label) => LabelKey::of(label),
        None => LabelKey::none(),
    }
}

// The keys of a record's first two fields, and whether it has the form of one.
fn keys_in(row: &ByteRecord) -> (LabelKey, LabelKey, bool)
    ensures source { HasKey (fields_of row.now) 0 result.0 }
    ensures target { HasKey (fields_of row.now) 1 result.1 }
    ensures form { result.2 ≡ has_form (fields_of row.now) }
{
    let Some((source, target)) = fields_in(row) else {
        return (key_at(row, 0), key_at(row, 1), false);
    };
    match target {
        None => (LabelKey::of(source), LabelKey::none(), true),
        Some(target) => (LabelKey::of(source), LabelKey::of(target), true),
    }
}

impl Row {
    /// A row of no fields.
    pub(crate) fn new(alloc: Global) -> Row
        ensures { result ≡ [] }
    {
        Row {
            fields: ByteRecord::new(alloc),
            source: LabelKey::none(),
            target: LabelKey::none(),
            formed: false,
        }
    }

    /// Reads the next record. False: there was none.
    pub(crate) fn read<R: Read + Drop>(
        &mut self,
        reader: &mut Reader<R>,
    ) -> Result<bool, csv::Error>
        ensures one { IfOk result (λ more. more ≡ true →
            ReadsOne R.remaining reader.old reader.new self.new) }
        ensures end { IfOk result (λ more. more ≡ false →
            ReadsNone R.remaining reader.old reader.new) }
    {
        // A read that failed may have changed the fields too, so the keys are set in any case.
        let read = reader.read_byte_record(&mut self.fields);
        let (source, target, formed) = keys_in(&self.fields);
        self.source = source;
        self.target = target;
        self.formed = formed;
        let more = read?;
        Ok(more && !is_blank(&self.fields))
    }

    /// The first field and the second, if it has the form of a record.
    pub(crate) fn labels<'a>(&'a self) -> Option<(&'a [u8], Option<&'a [u8]>)>
        ensures fields { IfSome result (λ r. self.now ≡ fields_with r.0.now (option_copied r.1)) }
        ensures form { OnSome result (has_form self.now ≡ true) }
        ensures none { IfNone result (has_form self.now ≡ false) }
    {
        fields_in(&self.fields)
    }

    /// Whether it has the form of a record: one or two fields, of which none is empty.
    pub(crate) fn has_form(&self) -> bool
        ensures { result ≡ has_form self.now }
    {
        self.formed
    }

    pub(crate) fn source_key(&self) -> LabelKey
        ensures { HasKey self.now 0 result }
    {
        self.source
    }

    pub(crate) fn target_key(&self) -> LabelKey
        ensures { HasKey self.now 1 result }
    {
        self.target
    }
}

/// Room for this many records.
pub(crate) fn rows_for(alloc: Global, count: usize) -> Result<Vec<Row>, AllocError>
    ensures { IfOk result (λ rows. length rows.items ≡ count) }
{
    let mut rows = Vec::with_capacity(alloc, count)?;
    for _i in 0..count {
        rows.push(Row::new(alloc))?;
    }
    Ok(rows)
}
