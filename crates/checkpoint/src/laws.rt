//! Laws of the bytes of checkpoints: the contract of each function is the law, and its body is empty.

ghost use Rattle.checkpoint.specs.Laws.{TextIsOne, FirstTextTellsRest, VersionsDiffer};
ghost use Rattle.checkpoint.specs.Laws.{WithoutNamesStands};

/// No two states of a part have one text of version 2: what a replica writes leaves out nothing.
pub fn text_is_one()
    ensures { TextIsOne }
{}

/// Two states of a part that have one text of version 1 differ in nothing but the batches that they hold.
pub fn first_text_tells_rest()
    ensures { FirstTextTellsRest }
{}

/// No text is of both versions.
pub fn versions_differ()
    ensures { VersionsDiffer }
{}

/// Without its names, what stands for a partition of a job at a superstep stands for them still, and holds no batch: so
/// version 1 is read.
pub fn without_names_stands()
    ensures { WithoutNamesStands }
{}
