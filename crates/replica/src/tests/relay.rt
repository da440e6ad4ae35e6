//! Rows that are handed out while they go on.

ghost use Rattle.std.specs.Prelude.{◌≡◌, ◌<◌, length, slice_index_or, true, false, IfOk};
ghost use Rattle.registers.specs.Joined.{AreSameShape};

use crate::relay::Relay;
use registers::Rows;
use std::alloc::{AllocError, Global};

// Two rows of four registers.
fn two_rows(alloc: Global, first: [u8; 4], second: [u8; 4]) -> Result<Rows, AllocError>
    ensures { IfOk result (λ rows. (length rows.rows ≡ 2) × (rows.width ≡ 4)) }
{
    let mut rows = Rows::fixed(alloc, 2, 4)?;
    let _first = rows.raise(0, &first);
    let _second = rows.raise(1, &second);
    Ok(rows)
}

// Whether the rows are these two.
fn are(rows: &Rows, first: [u8; 4], second: [u8; 4]) -> bool {
    rows.len() == 2 && rows.row(0) == first.as_slice() && rows.row(1) == second.as_slice()
}

// Whether what is handed out, and what is copied, stays as it was when the rows become others.
fn is_shared(alloc: Global, relay: &mut Relay<Rows>, next: &Rows) -> Result<bool, AllocError>
    requires { AreSameShape relay.old next.now }
{
    let first = relay.share(alloc)?;
    let copy = relay.copied(alloc)?;
    relay.assign(next);
    let second = relay.share(alloc)?;
    let stay = are(&first, [1, 0, 0, 0], [0, 2, 0, 0])
        & are(copy.get(), [1, 0, 0, 0], [0, 2, 0, 0]);
    let others = are(relay.get(), [1, 7, 0, 0], [0, 2, 0, 5])
        & are(&second, [1, 7, 0, 0], [0, 2, 0, 5]);
    Ok(stay & others)
}

// Whether two rows that become two others are shared.
fn shares(alloc: Global) -> Result<bool, AllocError> {
    let next = two_rows(alloc, [1, 7, 0, 0], [0, 2, 0, 5])?;
    let mut relay = Relay::new(two_rows(alloc, [1, 0, 0, 0], [0, 2, 0, 0])?);
    is_shared(alloc, &mut relay, &next)
}

#[test]
fn rows_are_shared(rt: HostRuntime) {
    assert_eq!(rt; shares(rt.alloc()), Ok(true));
}

// Two rows go on to others, from which that one alone differs, and it is marked.
fn goes_on(
    alloc: Global,
    relay: &mut Relay<Rows>,
    marks: &[bool],
    i: usize,
    row: [u8; 4],
) -> Result<(), AllocError>
    requires rows { length relay.old.rows ≡ 2 }
    requires width { relay.old.width ≡ 4 }
    requires marks { length marks.now ≡ 2 }
    requires place { i < 2 }
    requires marked { slice_index_or marks.now i false ≡ true }
    ensures rows { length relay.new.rows ≡ 2 }
    ensures width { relay.new.width ≡ 4 }
{
    let room = Vec::with_capacity(alloc, relay.get().size())?;
    let mut ahead = relay.get().copied_into(room);
    ahead.put(i, &row);
    let before = relay.go_on(&ahead, marks);
    relay.put(i, ahead.row(i));
    relay.leave_behind(before);
    Ok(())
}

// Whether what is handed out stays as it was when the first row becomes another, and then the second.
fn hands_out(alloc: Global, relay: &mut Relay<Rows>) -> Result<bool, AllocError>
    requires rows { length relay.old.rows ≡ 2 }
    requires width { relay.old.width ≡ 4 }
{
    let first = relay.share(alloc)?;
    goes_on(alloc, relay, &[true, false], 0, [1, 7, 0, 0])?;
    let second = relay.share(alloc)?;
    goes_on(alloc, relay, &[false, true], 1, [0, 2, 0, 5])?;
    let stay = are(&first, [1, 0, 0, 0], [0, 2, 0, 0]) & are(&second, [1, 7, 0, 0], [0, 2, 0, 0]);
    Ok(stay & are(relay.get(), [1, 7, 0, 0], [0, 2, 0, 5]))
}

// Whether rows become others if nobody holds what was handed out before: the second time in the table shown before.
fn turns_round(alloc: Global, relay: &mut Relay<Rows>, to: u8) -> Result<bool, AllocError>
    requires rows { length relay.old.rows ≡ 2 }
    requires width { relay.old.width ≡ 4 }
    ensures rows { length relay.new.rows ≡ 2 }
    ensures width { relay.new.width ≡ 4 }
{
    goes_on(alloc, relay, &[true, false], 0, [to, 0, 0, 1])?;
    let _out = relay.share(alloc)?;
    goes_on(alloc, relay, &[false, true], 1, [0, 2, 0, to])?;
    Ok(are(relay.get(), [to, 0, 0, 1], [0, 2, 0, to]))
}

// Turns round three times.
fn turns_thrice(alloc: Global, relay: &mut Relay<Rows>) -> Result<bool, AllocError>
    requires rows { length relay.old.rows ≡ 2 }
    requires width { relay.old.width ≡ 4 }
{
    let twice = turns_round(alloc, relay, 3)? & turns_round(alloc, relay, 4)?;
    Ok(twice & turns_round(alloc, relay, 5)?)
}

// Both of two rows.
fn go_on_with_two(alloc: Global) -> Result<bool, AllocError> {
    let mut held = Relay::new(two_rows(alloc, [1, 0, 0, 0], [0, 2, 0, 0])?);
    let mut free = Relay::new(two_rows(alloc, [9, 0, 0, 0], [0, 9, 0, 0])?);
    Ok(hands_out(alloc, &mut held)? & turns_thrice(alloc, &mut free)?)
}

#[test]
fn rows_go_on(rt: HostRuntime) {
    assert_eq!(rt; go_on_with_two(rt.alloc()), Ok(true));
}
