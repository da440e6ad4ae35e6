//! Lines of comma-separated values, built in memory.

ghost use Rattle.std.specs.Prelude.{◌≡◌, ◌≤◌, OnOk, IfOk, length, map, [], codes, if◌then◌else◌};
ghost use Rattle.ball_model.specs.Report.{end_line, gain_line, line_text, superstep_line};
ghost use Rattle.report.specs.Parts.{figures_line};
ghost use Rattle.report.specs.Rows.{Adds, AtRow, text_in};

use csv::{Writer, WriterBuilder};
use figures::{Figures, fixed6};
use itoa::Buffer;
use std::alloc::AllocError;

// A writer of rows into an empty buffer.
pub(crate) fn rows_in(buffer: Vec<u8>) -> Writer<Vec<u8>>
    requires { buffer.items ≡ [] }
    ensures row { AtRow result }
    ensures text { text_in result ≡ [] }
{
    WriterBuilder::new().flexible(true).from_writer(buffer)
}

// One row. Nothing but a refused growth of the buffer can stop it.
fn put_row(rows: &mut Writer<Vec<u8>>, fields: &[&[u8]]) -> Result<(), AllocError>
    requires row { AtRow rows.old }
    requires fields { 2 ≤ length fields.now }
    ensures row { OnOk result (AtRow rows.new) }
    ensures text { OnOk result
        (Adds rows.old rows.new (line_text (map (λ field. field.now) fields.now))) }
{
    let Ok(()) = rows.write_fields(fields) else {
        return Err(AllocError);
    };
    Ok(())
}

// The row of superstep `i`.
pub(crate) fn put_superstep(
    rows: &mut Writer<Vec<u8>>,
    i: usize,
    total: u128,
) -> Result<(), AllocError>
    requires { AtRow rows.old }
    ensures row { OnOk result (AtRow rows.new) }
    ensures text { OnOk result (Adds rows.old rows.new (superstep_line i total)) }
{
    let mut number = Buffer::new();
    let mut figure = [0u8; 48];
    put_row(
        rows,
        &[
            b"superstep".as_slice(),
            number.format(i).as_bytes(),
            fixed6(total, &mut figure).as_bytes(),
        ],
    )
}

// Why a run ended.
fn reason(stable: bool) -> &'static str
    ensures { result.now ≡ (if stable then codes "stable" else codes "limit") }
{
    if stable { "stable" } else { "limit" }
}

// The row of the end.
pub(crate) fn put_end(rows: &mut Writer<Vec<u8>>, end: u32, stable: bool) -> Result<(), AllocError>
    requires { AtRow rows.old }
    ensures row { OnOk result (AtRow rows.new) }
    ensures text { OnOk result (Adds rows.old rows.new (end_line end stable)) }
{
    let mut number = Buffer::new();
    put_row(
        rows,
        &[
            b"end".as_slice(),
            number.format(end).as_bytes(),
            reason(stable).as_bytes(),
        ],
    )
}

// The row of the gain.
pub(crate) fn put_gain(rows: &mut Writer<Vec<u8>>, gain: u128) -> Result<(), AllocError>
    requires { AtRow rows.old }
    ensures row { OnOk result (AtRow rows.new) }
    ensures text { OnOk result (Adds rows.old rows.new (gain_line gain)) }
{
    let mut figure = [0u8; 48];
    put_row(
        rows,
        &[b"gain".as_slice(), fixed6(gain, &mut figure).as_bytes()],
    )
}

// The row of a vertex.
pub(crate) fn put_vertex(
    rows: &mut Writer<Vec<u8>>,
    label: &[u8],
    figures: Figures,
) -> Result<(), AllocError>
    requires { AtRow rows.old }
    ensures row { OnOk result (AtRow rows.new) }
    ensures text { OnOk result (Adds rows.old rows.new (figures_line label.now figures)) }
{
    let mut estimate = [0u8; 48];
    let mut harmonic = [0u8; 48];
    let mut close = [0u8; 48];
    let mut index = [0u8; 48];
    let mut number = Buffer::new();
    put_row(
        rows,
        &[
            b"vertex".as_slice(),
            label,
            fixed6(u128::from(figures.estimate), &mut estimate).as_bytes(),
            fixed6(u128::from(figures.harmonic), &mut harmonic).as_bytes(),
            fixed6(u128::from(figures.closeness), &mut close).as_bytes(),
            fixed6(figures.lin, &mut index).as_bytes(),
            number.format(figures.empty).as_bytes(),
        ],
    )
}

// The text of the rows.
pub(crate) fn bytes_written(rows: Writer<Vec<u8>>) -> Result<Vec<u8>, AllocError>
    ensures { IfOk result (λ text. text.items ≡ text_in rows) }
{
    let Ok(text) = rows.into_inner() else {
        return Err(AllocError);
    };
    Ok(text)
}
