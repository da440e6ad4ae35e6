//! Laws of reports: the contract of each function is the law, and its body is empty.

ghost use Rattle.report.specs.Laws.{EndedAreReady, TotalsFit};

/// Replicas of all partitions, in order, that stand for one job, each with the verdict `Stable` or `Limit`, are ready.
///
/// So they need not be asked: a run has ended in all partitions at one superstep.
pub fn ended_are_ready()
    ensures { EndedAreReady }
{}

/// The neighbourhood function of a graph of at most 2^31 vertices, the most that a plan may have, is below 2^128
/// millionths, so no sum of it saturates.
pub fn totals_fit()
    ensures { TotalsFit }
{}
