//! Laws of the bytes of stored graphs: the contract of each function is the law, and its body is empty.

ghost use Rattle.stored.specs.Laws.{BlocksAreAll, MeaningIsOne, SpellingIsOne, StoredIsRead};

/// What is stored of a network is read as that, whatever follows.
pub fn stored_is_read()
    ensures { StoredIsRead }
{}

/// What is read is the spelling of a network, so none has two.
pub fn spelling_is_one()
    ensures { SpellingIsOne }
{}

/// No two networks have one spelling, and none begins that of another.
pub fn meaning_is_one()
    ensures { MeaningIsOne }
{}

/// The blocks of lists are these lists.
pub fn blocks_are_all()
    ensures { BlocksAreAll }
{}
