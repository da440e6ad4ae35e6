//! How a gate that sleeps lets time pass.

use super::*;
use std::io;
use std::sync::atomic::AtomicU64;
use std::time::{Clock, Duration};

/// A clock that stands still, and notes how often it was asked to sleep, and for how many microseconds last.
#[derive(Drop)]
struct NotingClock {
    sleeps: AtomicU32,
    last: AtomicU64,
}

impl Clock for NotingClock {
    fn monotonic(&self) -> io::Result<Duration> {
        Ok(Duration::from_micros(0))
    }

    fn since_1970(&self) -> io::Result<Duration> {
        Ok(Duration::from_micros(0))
    }

    fn sleep(&self, duration: Duration) {
        self.sleeps.fetch_add(1, Ordering::SeqCst);
        let micros = u64::try_from(duration.as_micros()).unwrap_or(u64::MAX);
        self.last.store(micros, Ordering::SeqCst);
    }
}

/// Whether, once a node has idled for so many turns more, it has slept so often in all, and so long the last time.
fn has_slept(
    clock: &NotingClock,
    gate: &SleepingGate<'_, NotingClock>,
    node: NodeId,
    turns: u32,
    slept: (u32, u64),
) -> bool {
    for _ in 0..turns {
        gate.idle(node);
    }
    let sleeps = clock.sleeps.load(Ordering::SeqCst);
    let last = clock.last.load(Ordering::SeqCst);
    sleeps == slept.0 && last == slept.1
}

/// One node, and another.
const ONE: NodeId = NodeId {
    part: 0,
    replica: 0,
};

const OTHER: NodeId = NodeId {
    part: 1,
    replica: 2,
};

/// A node, for how many turns more it idles, and how often and how long the clock has slept then.
type Step = (NodeId, u32, (u32, u64));

/// A node yields 64 times, and then sleeps longer each time, up to a millisecond; another one begins anew.
static LONGER: [Step; 7] = [
    (ONE, 64, (0, 0)),
    (ONE, 1, (1, 1)),
    (ONE, 2, (3, 3)),
    (ONE, 996, (999, 999)),
    (ONE, 200, (1199, 1000)),
    (OTHER, 64, (1199, 1000)),
    (OTHER, 1, (1200, 1)),
];

/// So does the first after it has posted.
static ANEW: [Step; 2] = [(ONE, 64, (1200, 1)), (ONE, 2, (1202, 2))];

/// Whether the clock has slept so after each of these steps.
fn all_slept(clock: &NotingClock, gate: &SleepingGate<'_, NotingClock>, steps: &[Step]) -> bool {
    let mut all = true;
    for (node, turns, slept) in steps {
        all &= has_slept(clock, gate, *node, *turns, *slept);
    }
    all
}

/// Whether nodes sleep as the tables say.
fn sleep_longer(clock: &NotingClock, gate: &SleepingGate<'_, NotingClock>) -> bool {
    let longer = all_slept(clock, gate, &LONGER);
    gate.after_post(ONE, 3);
    longer && all_slept(clock, gate, &ANEW)
}

/// Whether they do at a new gate.
fn sleep_at_a_gate(alloc: Global) -> bool {
    let clock = NotingClock {
        sleeps: AtomicU32::new(0),
        last: AtomicU64::new(0),
    };
    match SleepingGate::new(alloc, &clock) {
        Ok(gate) => sleep_longer(&clock, &gate),
        Err(_) => false,
    }
}

#[test]
fn sleeping_gate(rt: HostRuntime) {
    assert!(rt; sleep_at_a_gate(rt.alloc()));
}
