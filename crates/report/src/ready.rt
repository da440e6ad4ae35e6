//! When there is a report.

ghost use Rattle.std.specs.Prelude.{◌≡◌};
ghost use Rattle.replica.specs.Level.{found_verdict};
ghost use Rattle.report.specs.Ready.{FindsVerdict, are_ready, is_ready, ready_from, says_stable};

use ball_model::{Plan, Verdict};
use replica::{Replica, Shown};

/// Whether the replicas have a report: they are one of each partition, in order, of one plan and at one superstep,
/// and the verdict of each is `Stable` or `Limit`. No replicas have none.
pub fn report_ready(replicas: &[Replica]) -> bool
    ensures { result ≡ are_ready replicas.now }
{
    let Some(first) = replicas.first() else {
        return false;
    };
    replicas.len() == usize::from(first.plan().parts())
        && all_ready(first.plan(), first.superstep(), replicas)
}

// Whether replicas of partition 0 and those that follow are ready, under a plan at a superstep.
fn all_ready(plan: &Plan, superstep: u32, replicas: &[Replica]) -> bool
    ensures { result ≡ ready_from plan.now superstep 0 replicas.now }
{
    for (p, replica) in replicas.iter().enumerate() {
        if !is_ready(plan, superstep, p, replica) {
            return false;
        }
    }
    true
}

// Whether the replica of partition `p` is.
fn is_ready(plan: &Plan, superstep: u32, p: usize, replica: &Replica) -> bool
    ensures { result ≡ is_ready plan.now superstep p replica.now }
{
    usize::from(replica.partition()) == p
        && *plan == *replica.plan()
        && replica.superstep() == superstep
        && matches!(replica.verdict(), Some(Verdict::Stable | Verdict::Limit))
}

// Whether the verdict is `Stable`.
pub(crate) fn is_stable(replica: &Replica) -> bool
    ensures value { result ≡ says_stable (found_verdict replica.now) }
    ensures stands { FindsVerdict replica.now }
{
    matches!(replica.verdict(), Some(Verdict::Stable))
}
