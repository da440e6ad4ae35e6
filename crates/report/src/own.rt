//! Lines of a report alone: those of totals, and that of a vertex.

ghost use Rattle.std.specs.Prelude.{◌≡◌, IfOk};
ghost use Rattle.report.specs.Parts.{figures_line, superstep_lines};

use crate::lines::{bytes_written, put_vertex, rows_in};
use crate::parts::put_supersteps;
use figures::Figures;
use std::alloc::{AllocError, Global};

/// The lines of totals from superstep 0 on. The error is that memory was refused.
pub fn totals_text(alloc: Global, totals: &[u128]) -> Result<Vec<u8>, AllocError>
    ensures { IfOk result (λ text. text.items ≡ superstep_lines totals.now) }
{
    let mut rows = rows_in(Vec::new(alloc));
    put_supersteps(&mut rows, totals)?;
    bytes_written(rows)
}

/// The line of a vertex of that label. The error is that memory was refused.
pub fn figures_text(alloc: Global, label: &[u8], figures: Figures) -> Result<Vec<u8>, AllocError>
    ensures { IfOk result (λ text. text.items ≡ figures_line label.now figures) }
{
    let mut rows = rows_in(Vec::new(alloc));
    put_vertex(&mut rows, label, figures)?;
    bytes_written(rows)
}
