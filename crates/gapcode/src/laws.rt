//! Laws of codes and of spellings: the contract of each function is the law, and its body is empty.

ghost use Rattle.gapcode.specs.Laws.{CodeIsRead, CodesArePrefixFree, SpellingIsRead, SpellingIsOne};
ghost use Rattle.gapcode.specs.Laws.{MeaningIsOne};

/// A code is read as its number, whatever follows.
pub fn code_is_read()
    ensures { CodeIsRead }
{}

/// No code begins another, so codes may follow one another.
pub fn codes_are_prefix_free()
    ensures { CodesArePrefixFree }
{}

/// Bytes that spell lists are read as these.
pub fn spelling_is_read()
    ensures { SpellingIsRead }
{}

/// No lists have two spellings.
pub fn spelling_is_one()
    ensures { SpellingIsOne }
{}

/// No bytes spell the same number of lists in two ways.
pub fn meaning_is_one()
    ensures { MeaningIsOne }
{}
