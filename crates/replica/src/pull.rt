//! Rows of own vertices, raised by those of their own predecessors that are marked.
//!
//! What [`crate::spread::spread_own`] does by the targets of each marked vertex is done here by the predecessors of
//! each vertex: each accumulator is written by one thread alone, so that threads share nothing that is written.

ghost use Rattle.std.specs.Prelude.{◌≡◌, ◌≢◌, ◌+◌, ◌*◌, ◌/◌, ◌%◌, ◌^◌, ◌<◌, ◌≤◌, IsTrue, length};
ghost use Rattle.registers.specs.Shape.{piece_at};
ghost use Rattle.replica.specs.Pull.{CanPullRow, CanRaiseBy, PullsPiece, PullsRow, RaisesBy};
ghost use Rattle.replica.specs.Pull.{is_told, raised_over, rows_at};

use graph::Part;
use registers::{LINE, Rows, glance_over, max_into, raise_by_eight};

// How many rows raise another one at once. Fewer are glanced at before the first of them does.
const AHEAD: usize = 8;

// The place of vertex `z` in its partition, and the number of this. A division takes longer than the branch.
#[inline(always)]
fn placed(parts: u32, z: u32) -> (u32, u32)
    requires { 0 < parts }
    ensures place { result.0 ≡ z / parts }
    ensures number { result.1 ≡ z % parts }
{
    if parts == 1 {
        (z, 0)
    } else {
        (z / parts, z % parts)
    }
}

#[inline(always)]
fn is_told(parts: u32, own: u32, marks: &[bool], z: u32) -> bool
    requires { 0 < parts }
    ensures { result ≡ is_told parts own marks.now z }
{
    let (place, number) = placed(parts, z);
    let place = place as usize;
    number == own && place < marks.len() && marks[place]
}

// Whether a row is seen at a glance to be raised by one of those at these places, if rows are wider than a line of the
// cache. So those are fetched side by side.
fn is_seen_raised(rows: &Rows, places: &[u32], row: &[u8]) -> bool
    requires { CanRaiseBy rows.now places.now row.now }
    ensures { IsTrue result → raised_over row.now (rows_at rows.now.rows places.now) ≢ row.now }
{
    if row.len() <= LINE {
        return false;
    }
    let mut seen = false;
    for place in places {
        seen |= glance_over(row, rows.row(*place as usize));
    }
    seen
}

// Raises a row by those at these places, one after the other, and returns whether it changed.
fn raise_by_each(rows: &Rows, places: &[u32], row: &mut [u8]) -> bool
    requires { CanRaiseBy rows.now places.now row.old }
    ensures { RaisesBy rows.now.rows places.now row.old row.new result }
{
    let mut raised = false;
    for place in places {
        raised |= max_into(row, rows.row(*place as usize));
    }
    raised
}

// Raises a row by those at these places: by eight at once, or by fewer with a glance at all of them first. It returns
// whether the row changed.
fn raise_by(rows: &Rows, places: &[u32], row: &mut [u8]) -> bool
    requires { CanRaiseBy rows.now places.now row.old }
    ensures { RaisesBy rows.now.rows places.now row.old row.new result }
{
    if places.len() == AHEAD {
        raise_by_eight(rows, places, row)
    } else {
        let seen = is_seen_raised(rows, places, row);
        raise_by_each(rows, places, row) | seen
    }
}

// Raises the row of own vertex `i` by those of its own predecessors that are marked, and returns whether it changed.
fn pull_row(part: &Part, rows: &Rows, marks: &[bool], i: u32, row: &mut [u8]) -> bool
    requires { CanPullRow part.now rows.now marks.now i row.old }
    ensures { PullsRow part.now rows.now.rows marks.now i row.old row.new result }
{
    let parts = u32::from(part.plan().parts());
    let own = u32::from(part.partition());
    let mut waiting = [0; AHEAD];
    let mut count = 0;
    let mut raised = false;
    for z in part.preds(i) {
        if is_told(parts, own, marks, z) {
            waiting[count] = placed(parts, z).0;
            count += 1;
            if count == AHEAD {
                raised |= raise_by(rows, &waiting[..count], row);
                count = 0;
            }
        }
    }
    raised | raise_by(rows, &waiting[..count], row)
}

/// The own rows, a mark for each, and their part. They are pulled in 2^depth blocks.
#[derive(Clone, Copy, Drop)]
pub(crate) struct Pull<'a> {
    pub(crate) part: &'a Part,
    pub(crate) rows: &'a Rows,
    pub(crate) marks: &'a [bool],
    pub(crate) depth: u32,
}

/// Pulls the k-th of the rows from own vertex `from` on, and returns whether it changed.
pub(crate) fn pull_piece(pull: &Pull<'_>, from: usize, k: usize, cells: &mut [u8]) -> bool
    requires within { k * pull.now.rows.now.width + pull.now.rows.now.width ≤ length cells.old }
    requires can { CanPullRow pull.now.part.now pull.now.rows.now pull.now.marks.now (from + k)
        (piece_at pull.now.rows.now.width k cells.old) }
    ensures { PullsPiece pull.now.part.now pull.now.rows.now pull.now.marks.now from k
        cells.old cells.new result }
{
    let (part, rows, marks) = (pull.part, pull.rows, pull.marks);
    part.limits();
    let width = rows.width();
    let start = k * width;
    let i = (from + k) as u32;
    pull_row(part, rows, marks, i, &mut cells[start..start + width])
}

/// How many of the `count` own vertices from `from` on have about half of the edges of all of them.
pub(crate) fn middle(part: &Part, from: usize, count: usize) -> usize
    requires { from + count ≤ length part.now.preds }
    ensures { result ≤ count }
{
    part.limits();
    part.middle(from as u32, (from + count) as u32) as usize - from
}
