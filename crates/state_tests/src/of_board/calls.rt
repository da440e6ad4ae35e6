//! Calls of one caller, and of seats that are split and joined.

ghost use Rattle.std.specs.Prelude.{◌≡◌, ◌≤◌};

use super::*;

/// Calls one after the other, about the first batch, after a post of it that is New. All come after that, or all but
/// the first one to three. The sheet that they are noted on asks for memory at its entries 0, 4 and 8. Entry 0 is the
/// post that is New. Without three of these entry 4 is the keep that is Behind; without two, entries 4 and 8 are the
/// keep that is New and the post that is Old; without one the fetch and the drop; with all the post that is Known and
/// the recall.
static STEPS: [Step; 12] = [
    Step::Post(Posted::Known),
    Step::Post(Posted::Known),
    Step::Post(Posted::Known),
    Step::Post(Posted::Known),
    Step::Fetch(true),
    Step::Keep(Kept::New),
    Step::Keep(Kept::Behind),
    Step::Recall(0, true),
    Step::Recall(1, false),
    Step::Drop(1),
    Step::Fetch(false),
    Step::Post(Posted::Old),
];

/// Whether a call is answered so; if memory is refused, whether no entry is added, and the call that is made again is
/// answered.
fn is_answered_again<R: Wait>(rt: &R, user: &mut User<'_>, step: Step) -> bool
    ensures { user.new ≡ user.old }
{
    let before = user.length();
    let first = user.is_answered(rt, 0, step);
    if first != Err(BoardError::Memory) {
        return first == Ok(true);
    }
    let after = user.length();
    after == before && user.is_answered(rt, 0, step) == Ok(true)
}

/// Whether the post that is New and the steps are answered so.
fn are_answered<R: Wait>(rt: &R, user: &mut User<'_>, steps: &[Step]) -> bool
    ensures { user.new ≡ user.old }
{
    let mut all = is_answered_again(rt, user, Step::Post(Posted::New));
    for step in steps {
        all &= is_answered_again(rt, user, *step);
    }
    all
}

/// Whether one who is split off is answered so without the first `without` steps, whatever memory is refused, and the
/// first one knows once they are joined. Of the calls two find nothing.
fn goes_on_after_refusals<R: Wait>(rt: &R, user: &mut User<'_>, without: usize) -> bool
    requires { 1024 ≤ user.old.1 }
{
    let Some(steps) = STEPS.get(without..) else {
        return false;
    };
    let mut other = user.split();
    let right = are_answered(rt, &mut other, steps);
    user.join(other);
    right && user.length() == (steps.len() as u64)
}

/// Whether it is so at a new board: None if memory was refused before the first call.
fn refusals<R: AllocGlobal + RandomSource + Wait>(rt: &R, without: usize) -> Option<bool> {
    let (scene, seat) = Scene::open(rt, 16)?;
    let mut user = User { at: &scene, seat };
    Some(goes_on_after_refusals(rt, &mut user, without))
}

/// Each call is answered, at once or when it is made again: a run of this test can refuse any one growth. If memory is
/// refused before the first call, all is done again.
#[test]
fn calls_where_memory_is_refused(rt: HostRuntime) {
    let mut all = true;
    for without in 0..4 {
        all &= refusals(&rt, without).or(refusals(&rt, without)) == Some(true);
    }
    assert!(rt; all);
}

/// Three thousand posts of eight batches fill a board of as many entries: the first eight are New, and the last is refused.
#[test]
fn board_of_three_thousand_entries(rt: HostRuntime) -> Result<(), Fail> {
    let (scene, seat) = Scene::open(&rt, 3000).ok_or(BoardError::Memory)?;
    let mut user = User { at: &scene, seat };
    let known = user.count(&rt, Step::Post(Posted::Known), 0, 3000);
    assert!(rt; known == 2991 && user.length() == 3000);
    Ok(())
}

/// What a call about a batch is answered after `behind` others, if `free` entries were free before them all, and as
/// many batches were posted, or four.
fn wanted(step: Step, at: usize, behind: usize, free: usize) -> Result<bool, BoardError> {
    match step {
        Step::Fetch(_) if at >= free => Ok(false),
        _ if behind < free => Ok(true),
        _ => Err(BoardError::BookFull),
    }
}

/// Whether four calls after `behind` others are answered so.
fn fills<R: Wait>(rt: &R, user: &mut User<'_>, step: Step, behind: usize, free: usize) -> bool
    requires { behind ≤ 100 }
    ensures { user.new ≡ user.old }
{
    let mut right = true;
    for at in 0..4usize {
        right &= user.is_answered(rt, at, step) == wanted(step, at, behind + at, free);
    }
    right
}

/// Whether a board with `free` free entries answers two up to them, and then no more: each posts four batches, then
/// each fetches them, and the second raises a floor. Both know of the length then.
fn both_fill<R: Wait>(rt: &R, first: &mut User<'_>, second: &mut User<'_>, free: usize) -> bool {
    let new = fills(rt, first, Step::Post(Posted::New), 0, free);
    let known = fills(rt, second, Step::Post(Posted::Known), 4, free);
    let found = fills(rt, first, Step::Fetch(true), 8, free);
    let again = fills(rt, second, Step::Fetch(true), 12, free);
    let floor = Step::Drop(0);
    let full = second.is_answered(rt, 0, floor) == wanted(floor, 0, 16, free);
    let lengths = first.length() == second.length();
    new && known && found && again && full && lengths
}

/// Whether a new board of `entries` entries fills up so: None if memory was refused.
fn fills_up<R: AllocGlobal + RandomSource + Wait>(rt: &R, entries: u32) -> Option<bool>
    requires { (LEAST_ENTRIES ≤ entries) × (entries ≤ MOST_ENTRIES) }
{
    let (scene, seat) = Scene::open(rt, entries)?;
    let mut user = User { at: &scene, seat };
    let mut other = user.split();
    let filled = both_fill(rt, &mut user, &mut other, entries as usize - 1);
    Some(filled && user.length() == u64::from(entries))
}

/// A board fills up so at each number of entries from 2 to 18.
#[test]
fn full_books(rt: HostRuntime) {
    let mut all = true;
    for entries in 2..19 {
        all &= fills_up(&rt, entries) == Some(true);
    }
    assert!(rt; all);
}
