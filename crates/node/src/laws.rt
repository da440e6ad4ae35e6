//! What nodes of a job say is what they may be given: the contract of each function is the law, and its body is empty.

ghost use Rattle.node.specs.Laws.{KeptIsTaken, SentIsTrue};

/// What a node sends to another partition of its job is what a node of that partition may be delivered: the spelling of
/// the true batch of its name, and no longer than any that it takes.
pub fn sent_is_true()
    ensures { SentIsTrue }
{}

/// What a node keeps is what a node of its partition may be given back, to start anew from it or to take it over: a
/// checkpoint that stands for what the node has, and no longer than any that it takes.
pub fn kept_is_taken()
    ensures { KeptIsTaken }
{}
