//! What a replica promises over whole runs: the contract of each function is the law, and its body is empty.

ghost use Rattle.replica.specs.Runs.{RunStands, RunAnswersAsDue, RunIsInTime, StableIsQuiet};
ghost use Rattle.replica.specs.Runs.{StableReaches, OverIsAtEnd, HoldsItsWindow, SameContentIsSame};
ghost use Rattle.replica.specs.Runs.{SameCallsAlike};
ghost use Rattle.replica.specs.Saved.{HadFits};

/// End to end, without faults.
///
/// From superstep 0 and no batches, by any list of calls of `take` with true batches, of `close` and of `merge` with
/// snapshots of replicas of the same partition, a replica stands for what the calls make of its content, and each call
/// answers what the content says. Its superstep is at most the end, and at least the number of closes that went on. Its
/// verdict is stable exactly if its level is held, the superstep is not 0, and no vertex of the graph is changed; then
/// each of its rows is the counter of all counted vertices that can reach its vertex. If its verdict is that the run
/// is over, it is at the end.
pub fn end_to_end()
    ensures stands { RunStands }
    ensures answers { RunAnswersAsDue }
    ensures in_time { RunIsInTime }
    ensures stable { StableIsQuiet }
    ensures reaches { StableReaches }
    ensures over { OverIsAtEnd }
{}

/// Whatever its batches say, a replica holds only batches of other partitions, of its superstep to three further ones,
/// and of at most the limit.
#[tactic(auto, using(crate::proofs::RunsLemmas::Same::content_is_one))]
pub fn window()
    ensures { HoldsItsWindow }
{}

/// Replicas that stand for the same partition and superstep and hold the same names are equal, and stay alike.
///
/// They are equal in all that they have: rows, figures, sums, and the batches that they hold. What a replica shows is
/// a function of that alone, so each reader answers the same for both. The same calls on both have the same answers,
/// and leave both with the same content, so equal again.
#[tactic(auto, using(crate::proofs::RunsLemmas::Same::content_decides))]
pub fn same_content()
    ensures same { SameContentIsSame }
    ensures later { SameCallsAlike }
{}

/// All that a replica can have, in rows of its width, fits its part: so a replica is made of it again.
#[tactic(auto, using(crate::proofs::SavedLemmas::Keepable::keepable_fits))]
pub fn what_is_had_fits()
    ensures { HadFits }
{}
