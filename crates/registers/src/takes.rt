//! Rows that are taken over in several threads.

ghost use Rattle.std.specs.Prelude.{◌≡◌, length};
ghost use Rattle.std.specs.Thread.{IsSync};
ghost use Rattle.ball_model.specs.Table.{pieces};
ghost use Rattle.registers.specs.Differ.{DifferWhere};
ghost use Rattle.registers.specs.Taken.{AreThoseFrom, CanTakeBlock};

use crate::rows::put_piece;
use crate::{Rows, next_marked};
use std::thread::{Threads, join_mut};

// Each marked row from place `from` on, among whose registers it is put, becomes that of `ahead`.
fn take_block(ahead: &Rows, from: usize, marks: &[bool], cells: &mut [u8])
    requires { CanTakeBlock ahead.now marks.now from cells.old }
    ensures { AreThoseFrom ahead.now from
        (pieces ahead.now.width (length marks.now) cells.new) (length marks.now) }
{
    ahead.limits();
    let mut k = next_marked(marks, 0);
    while k < marks.len() {
        put_piece(cells, ahead.width(), k, ahead.row(from + k));
        k = next_marked(marks, k + 1);
    }
}

// Rows of a table from a place on, with a mark for each that is to be taken over.
#[derive(Clone, Copy)]
struct Source<'a> {
    ahead: &'a Rows,
    marks: &'a [bool],
    from: usize,
}

// Does what `take_block` does, by halves of halves, each in a thread of its own if one can be made.
#[cycle(halves)]
fn take_halves<R: Threads + Sync>(rt: &R, depth: u32, source: Source<'_>, cells: &mut [u8])
    requires { CanTakeBlock source.ahead.now source.marks.now source.from cells.old }
    ensures { AreThoseFrom source.entry.ahead.now source.entry.from
        (pieces source.entry.ahead.now.width (length source.entry.marks.now) cells.new)
        (length source.entry.marks.now) }
{
    let Source { ahead, marks, from } = source;
    if depth == 0 {
        take_block(ahead, from, marks, cells);
        return;
    }
    ahead.limits();
    let mid = marks.len() / 2;
    let (first, last) = marks.split_at(mid);
    let (front, back) = cells.split_at_mut(mid * ahead.width());
    let first = Source {
        ahead,
        marks: first,
        from,
    };
    let last = Source {
        ahead,
        marks: last,
        from: from + mid,
    };
    take_both(rt, depth - 1, (first, last), front, back);
}

// Two blocks side by side. Its own conditions are what its closures ask for.
#[cycle(halves)]
fn take_both<R: Threads + Sync>(
    rt: &R,
    depth: u32,
    sources: (Source<'_>, Source<'_>),
    front: &mut [u8],
    back: &mut [u8],
)
    requires front { CanTakeBlock sources.0.ahead.now sources.0.marks.now sources.0.from front.old }
    requires back { CanTakeBlock sources.1.ahead.now sources.1.marks.now sources.1.from back.old }
    ensures front { AreThoseFrom sources.entry.0.ahead.now sources.entry.0.from
        (pieces sources.entry.0.ahead.now.width (length sources.entry.0.marks.now) front.new)
        (length sources.entry.0.marks.now) }
    ensures back { AreThoseFrom sources.entry.1.ahead.now sources.entry.1.from
        (pieces sources.entry.1.ahead.now.width (length sources.entry.1.marks.now) back.new)
        (length sources.entry.1.marks.now) }
{
    let (first, last) = sources;
    let mut left = ||
        requires { IsSync R.row
            × CanTakeBlock first.ahead.now first.marks.now first.from front.now }
        ensures { AreThoseFrom first.entry.ahead.now first.entry.from
            (pieces first.entry.ahead.now.width (length first.entry.marks.now) front.exit.now)
            (length first.entry.marks.now) }
    { take_halves(rt, depth, first, front) };
    let mut right = ||
        requires { IsSync R.row × CanTakeBlock last.ahead.now last.marks.now last.from back.now }
        ensures { AreThoseFrom last.entry.ahead.now last.entry.from
            (pieces last.entry.ahead.now.width (length last.entry.marks.now) back.exit.now)
            (length last.entry.marks.now) }
    { take_halves(rt, depth, last, back) };
    join_mut(rt, &mut left, &mut right);
}

/// The rows become those of `ahead`, from which they differ in marked rows alone, in 2^depth threads.
///
/// It takes no memory but that of the threads.
pub fn take_over<R: Threads + Sync>(
    rt: &R,
    depth: u32,
    rows: &mut Rows,
    ahead: &Rows,
    marks: &[bool],
)
    requires { DifferWhere marks.now rows.old ahead.now }
    ensures { rows.new ≡ ahead.now }
{
    let source = Source {
        ahead,
        marks,
        from: 0,
    };
    take_halves(rt, depth, source, rows.cells_mut());
}
