//! What a board's history says of a world: the contract of the function is the law, and its body is empty.

ghost use Rattle.workers.specs.Tie.{HistoriesAreRuns, PathsAreOfNodes, ReplicasAreOfRuns};

/// A legal history of a board, in which each caller's calls are those of a node, is a run of a world: the messages that
/// were sent there are the names of the history's new posts, its copies are the contents of its keeps, and what a
/// caller's node holds is what a node of that world can hold.
pub fn histories_are_runs()
    ensures { HistoriesAreRuns }
{}

/// The calls of a caller that ran a node, and made none before, are those of a node, and so are the first ones of them:
/// what the law on histories asks of each caller.
pub fn paths_are_of_nodes()
    ensures { PathsAreOfNodes }
{}

/// What a replica holds that a caller came to, by a node that it ran, is what a node of a world can hold, after a run
/// whose messages are the names of the history's new posts, and whose copies are the contents of its keeps.
pub fn replicas_are_of_runs()
    ensures { ReplicasAreOfRuns }
{}
