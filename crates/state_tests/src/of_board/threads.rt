//! Threads at one board.

ghost use Rattle.std.specs.Prelude.{◌*◌, ◌≤◌, ◌^◌};

use super::*;

/// What a crowd of threads did: names and snapshots that were New, entries that were added, and whether all else was
/// right.
#[derive(Clone, Copy)]
struct Done {
    news: u64,
    kept: u64,
    entries: u64,
    right: bool,
}

impl Done {
    /// Both together.
    fn and(self, other: Done) -> Done {
        Done {
            news: self.news.wrapping_add(other.news),
            kept: self.kept.wrapping_add(other.kept),
            entries: self.entries.wrapping_add(other.entries),
            right: self.right && other.right,
        }
    }
}

/// One posts all batches, fetches those that it finds, keeps the snapshot, recalls one and raises the floor. Then it
/// fetches all batches that it finds and posts all: below the floor none is found, else each is, and none is New.
fn work<R: Wait>(rt: &R, user: &mut User<'_>, floor: u32) -> Done {
    let before = user.length();
    let news = user.count(rt, Step::Post(Posted::New), 0, 8);
    let found = user.count(rt, Step::Fetch(true), 0, 8);
    let kept = user.count(rt, Step::Keep(Kept::New), 0, 1);
    let recalled = user.count(rt, Step::Recall(0, true), 0, 1);
    let dropped = user.count(rt, Step::Drop(floor), 0, 1);
    let left = user.count(rt, Step::Fetch(true), 0, 8);
    let late = user.count(rt, Step::Post(Posted::New), 0, 8);
    let entries = found.wrapping_add(left).wrapping_add(19);
    let wanted = if floor > 0 { 0 } else { 8 };
    let right = recalled == 1 && dropped == 1 && left == wanted && late == 0;
    Done {
        news,
        kept,
        entries,
        right: right && before.wrapping_add(entries) <= user.length(),
    }
}

/// One does so, and each of `others` others, in threads: this one in the last.
fn crowd<R: Threads + Wait + Sync>(rt: &R, mut user: User<'_>, others: u8, floor: u32) -> Done
    requires { (user.1 ≤ 2 ^ 63) × (others * 2 ^ 53 ≤ user.1) }
{
    if others == 0 {
        return work(rt, &mut user, floor);
    }
    let mut other = user.split();
    let fewer = others - 1;
    let (one, rest) = thread::join(
        rt,
        || work(rt, &mut other, floor),
        || -> Done
            requires { (user.1 ≤ 2 ^ 63) × (fewer * 2 ^ 53 ≤ user.1) }
        { crowd(rt, user, fewer, floor) },
    );
    one.and(rest)
}

/// Whether `others` threads and one more at a new board do right: each name and the snapshot is New once, and each call
/// that adds an entry is one. None if memory was refused.
fn is_right_crowd<R>(rt: &R, others: u8, floor: u32) -> Option<bool>
where
    R: AllocGlobal + RandomSource + Threads + Wait + Sync,
{
    let (scene, seat) = Scene::open(rt, 10_000)?;
    let mut user = User { at: &scene, seat };
    let mut last = user.split();
    let done = crowd(rt, user, others, floor);
    let once = done.news == 8 && done.kept == 1;
    Some(done.right && once && last.length() == done.entries.wrapping_add(1))
}

/// Nothing is dropped, so each finds all that was posted.
#[test]
fn two_threads_post(rt: HostRuntime) {
    assert!(rt; is_right_crowd(&rt, 1, 0) == Some(true));
}

#[test]
fn threads_at_one_board(rt: HostRuntime) {
    let mut right = true;
    for others in [3, 7, 15, 63u8] {
        right &= is_right_crowd(&rt, others, 4) == Some(true);
    }
    assert!(rt; right);
}
