//! Marks: one for each row.

ghost use Rattle.std.specs.Prelude.{◌≡◌, ℕ, ◌≤◌, false, length, slice_index_or, count_by};
ghost use Rattle.std.specs.List.{list_any};
ghost use Rattle.replica.specs.Level.{AreAsMany, differences};

use registers::{Rows, next_marked};

pub(crate) fn mark_differences(old: &Rows, new: &Rows, marks: &mut [bool])
    requires { AreAsMany old.now new.now (length marks.old) }
    ensures { marks.new ≡ differences old.now.rows new.now.rows (length marks.old) }
{
    for i in 0..marks.len() {
        marks[i] = new.row(i) != old.row(i);
    }
}

pub(crate) fn clear_marks(marks: &mut [bool])
    ensures { (i : ℕ) → slice_index_or marks.new i false ≡ false }
{
    for i in 0..marks.len() {
        marks[i] = false;
    }
}

pub(crate) fn count_set(marks: &[bool]) -> usize
    ensures value { result ≡ count_by (λ mark. mark) marks.now }
    ensures within { result ≤ length marks.now }
{
    marks.iter().filter(|mark| **mark).count()
}

pub(crate) fn any_marked(marks: &[bool]) -> bool
    ensures { result ≡ list_any (λ mark. mark) marks.now }
{
    next_marked(marks, 0) < marks.len()
}
