//! Two seats at one board, that see and find what each posts.

ghost use Rattle.std.specs.Prelude.{◌≤◌, ◌^◌};

use super::*;

/// Whether B sees and finds what A posts, and A sees that once a third one, split from B, has ended at it.
fn sees_and_finds<R: Wait>(rt: &R, a: &mut User<'_>) -> bool
    requires { 2 ^ 20 ≤ a.old.1 }
{
    let mut b = a.split();
    let posted = a.is_answered(rt, 0, Step::Post(Posted::New)) == Ok(true);
    let seen = b.length() == 2;
    let found = b.is_answered(rt, 0, Step::Fetch(true)) == Ok(true);
    let c = b.split();
    a.join(c);
    posted && seen && found && a.length() == 3
}

/// Whether two threads post eight batches, four each by A and B, and all are New; once B has ended at A there are nine
/// entries, and A finds all: then there are 17.
fn all_are_found<R: Threads + Wait + Sync>(rt: &R, a: &mut User<'_>) -> bool
    requires { 1024 ≤ a.old.1 }
{
    let mut b = a.split();
    let (ours, theirs) = thread::join_mut(
        rt,
        &mut || a.count(rt, Step::Post(Posted::New), 0, 4),
        &mut || b.count(rt, Step::Post(Posted::New), 4, 8),
    );
    a.join(b);
    let posted = ours == 4 && theirs == 4 && a.length() == 9;
    posted && a.count(rt, Step::Fetch(true), 0, 8) == 8 && a.length() == 17
}

#[test]
fn two_seats(rt: HostRuntime) -> Result<(), Fail> {
    let (scene, seat) = Scene::open(&rt, 16).ok_or(BoardError::Memory)?;
    assert!(rt; sees_and_finds(&rt, &mut User { at: &scene, seat }));
    Ok(())
}

#[test]
fn two_seats_of_two_threads(rt: HostRuntime) -> Result<(), Fail> {
    let (scene, seat) = Scene::open(&rt, 17).ok_or(BoardError::Memory)?;
    assert!(rt; all_are_found(&rt, &mut User { at: &scene, seat }));
    Ok(())
}
