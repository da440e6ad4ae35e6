//! The records of a text, as `csv` reads them.

ghost use Rattle.std.specs.Prelude.{◌≡◌, []};
ghost use Rattle.csv.specs.Records.{fields_of};
ghost use Rattle.graph.specs.Records.{is_blank, ForPlain, IsLeft, byte_of};

use crate::delimiter::Delimiter;
use csv::{ByteRecord, Reader, ReaderBuilder};
use std::alloc::Global;
use std::io::Read;

fn byte(delimiter: Delimiter) -> u8
    ensures { result ≡ byte_of delimiter }
{
    match delimiter {
        Delimiter::Tab => b'\t',
        Delimiter::Comma => b',',
        Delimiter::Space => b' ',
    }
}

/// A reader of records: quotes are ordinary bytes, nothing is trimmed, and a record has any number of fields.
pub fn reader_of<R: Read + Drop>(alloc: Global, source: R, delimiter: Delimiter) -> Reader<R>
    ensures { ForPlain (R.remaining source) (λ text.
        IsLeft R.remaining (byte_of delimiter) text [] result) }
{
    ReaderBuilder::new()
        .has_headers(false)
        .flexible(true)
        .quoting(false)
        .comment(Some(b'#'))
        .delimiter(byte(delimiter))
        .from_reader(alloc, source)
}

/// Whether a row is one empty field: what is read of a comment at the end of a text that has no LF.
pub fn is_blank(row: &ByteRecord) -> bool
    ensures { result ≡ is_blank (fields_of row.now) }
{
    if row.len() != 1 {
        return false;
    }
    match row.get(0) {
        Some(field) => field.is_empty(),
        None => false,
    }
}
