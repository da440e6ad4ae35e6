//! Laws of batches and of their bytes: the contract of each function is the law, and its body is empty.

ghost use Rattle.batches.specs.Laws.{BatchSpellingIsRead, BatchSpellingIsOne, BatchIsOne};
ghost use Rattle.batches.specs.Laws.{SpellingHasLength};
ghost use Rattle.batches.specs.Laws.{TrueIsBatch};

/// Reading the bytes of a batch gives that batch back.
pub fn spelling_is_read()
    ensures { BatchSpellingIsRead }
{}

/// No batch has two spellings: bytes that are read as a batch are its bytes.
pub fn spelling_is_one()
    ensures { BatchSpellingIsOne }
{}

/// No bytes spell two batches of a plan.
pub fn batch_is_one()
    ensures { BatchIsOne }
{}

/// A batch has as many bytes as its fixed fields and, for each row, four and its registers.
pub fn spelling_has_length()
    ensures { SpellingHasLength }
{}

/// A true batch keeps the limits of every batch, so its bytes are read.
pub fn true_is_batch()
    ensures { TrueIsBatch }
{}
