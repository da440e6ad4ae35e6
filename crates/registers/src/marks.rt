//! Marks, one a row, of which often few are set.

ghost use Rattle.std.specs.Prelude.{◌+◌, ◌≤◌, ◌<◌, length, IsTrue};
ghost use Rattle.registers.specs.Marks.{AreBlank, IsNextMarked};

// How many marks are passed over at once, and how many if one of those is set.
const BLOCK: usize = 64;

const PIECE: usize = 8;

/// The first marked place from `from` on, or the number of places if there is none.
///
/// Marks that are not set are passed over 64 at once, so that it costs little to find the few that are. If `from`
/// itself is marked, no other mark is looked at.
#[inline]
pub fn next_marked(marks: &[bool], from: usize) -> usize
    requires { from ≤ length marks.now }
    ensures { IsNextMarked marks.now from result }
{
    if from < marks.len() && !marks[from] {
        next_by_blocks(marks, from)
    } else {
        from
    }
}

// The next marked place from `from` on, found block by block.
#[inline(never)]
fn next_by_blocks(marks: &[bool], from: usize) -> usize
    requires { from ≤ length marks.now }
    ensures { IsNextMarked marks.now from result }
{
    let block = pass_blank(marks, from, BLOCK);
    let mut i = pass_blank(marks, block, PIECE);
    while i < marks.len() && !marks[i] {
        i += 1;
    }
    i
}

// Passes over blocks of `size` marks of which none is set.
#[inline(always)]
fn pass_blank(marks: &[bool], from: usize, size: usize) -> usize
    requires from { from ≤ length marks.now }
    requires size { 0 < size }
    ensures low { from ≤ result }
    ensures high { result ≤ length marks.now }
    ensures blank { AreBlank marks.now from result }
{
    let mut i = from;
    while size <= marks.len() - i && is_blank(marks, i, size) {
        i += size;
    }
    i
}

// Whether none of `size` marks is set. It always looks at all of them, so that many are looked at side by side.
#[inline(always)]
fn is_blank(marks: &[bool], from: usize, size: usize) -> bool
    requires { from + size ≤ length marks.now }
    ensures { IsTrue result → AreBlank marks.now from (from + size) }
{
    let mut any = false;
    for k in 0..size {
        any |= marks[from + k];
    }
    !any
}
