//! What a world promises over whole runs: the contract of each function is the law, and its body is empty.

ghost use Rattle.world.specs.Runs.{RunShows, RunAnswers, Headline, SameContentsAreSame};
ghost use Rattle.world.specs.Runs.{MessagesAreTrue, KeptComesBack, RecoversInAnyOrder};

/// For every list of sends, deliveries, losses, repeats, closes, checkpoints, restarts, copies and recoveries, in any
/// order, each replica at superstep t holds for each of its vertices the HyperLogLog registers of exactly the counted
/// vertices with a path of at most t edges to it; replicas that hold the same batches at the same superstep are equal.
///
/// A loss is a message that is not delivered, a repeat one that is delivered again. An event that was refused memory
/// changed nothing; the others answered, and made of the world, what the definition says.
pub fn headline()
    ensures shows { RunShows }
    ensures answers { RunAnswers }
    ensures registers { Headline }
    ensures equal { SameContentsAreSame }
{}

/// Whatever events a world had, each message is the spelling of the true batch of its name.
pub fn messages_are_true()
    ensures { MessagesAreTrue }
{}

/// What is kept is read back: after a keep, any events but a keep of that node, and a restart, the replica is the one
/// that it was at the keep, in all that it has.
pub fn kept_comes_back()
    ensures { KeptComesBack }
{}

/// Merging is a join: a node that recovers from two copies is the same whichever it merges first, in all that it has.
/// (That merging one again changes nothing is a law of `ball_model::world`.)
pub fn recovers_in_any_order()
    ensures { RecoversInAnyOrder }
{}
