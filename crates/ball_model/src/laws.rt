//! Laws of the definitions: the contract of each function is the law, and its body is empty.

ghost use Rattle.ball_model.specs.Laws.{BallIsPaths, RegisterIsBound, RegisterIsLeastBound};
ghost use Rattle.ball_model.specs.Laws.{UnionIsMaximum, EmptyIsZero, CounterIsWide};
ghost use Rattle.ball_model.specs.Laws.{RegistersAreRanks, CounterGrows, CounterIsBound};
ghost use Rattle.ball_model.specs.Laws.{CounterIsLeastBound, StartIsCounted, StartIsNotEmpty};
ghost use Rattle.ball_model.specs.Laws.{QuietStays, ChangedSuffice, ChangeComesFromChange};
ghost use Rattle.ball_model.specs.Laws.{EndIsWithin, EndIsLeast, EndIsReached, EstimateGrows};
ghost use Rattle.ball_model.specs.Laws.{EstimateFits, NoneIsNothing, OneIsOne, DrawsAdd};
ghost use Rattle.ball_model.specs.Laws.{LargeIsRaw, SmallIsSmall, CountersAreApart, TalliesFit};
ghost use Rattle.ball_model.specs.Laws.{PartIsStrided, JoinCommutes, JoinAssociates, JoinRepeats};
ghost use Rattle.ball_model.specs.Laws.{JoinIsUnion, UsualIsLarge};
ghost use Rattle.ball_model.specs.InputLaws.{AllAreCounted, NamedAreCounted, AllNamedAreAll};
ghost use Rattle.ball_model.specs.InputLaws.{LfEndsLine, CrLfEndsLine, EndEndsLine, MarkDivides};
ghost use Rattle.ball_model.specs.InputLaws.{FirstMarkDivides, LimitsOnlyRefuse, MarkIsEmptyLine};
ghost use Rattle.ball_model.specs.InputLaws.{MarkChangesNothing};
ghost use Rattle.ball_model.specs.AccumulatedLaws.{AccumulatorStarts, AccumulatorEnds};
ghost use Rattle.ball_model.specs.AccumulatedLaws.{AccumulatorsJoin, AccumulatorSteps};

/// The ball of x at t has the vertices with a path of at most t edges to x.
pub fn ball_is_paths()
    ensures { BallIsPaths }
{}

/// A register is the greatest rank of the members that fall into it.
pub fn register_is_greatest()
    ensures bound { RegisterIsBound }
    ensures least { RegisterIsLeastBound }
{}

/// The counter of a union is the registerwise maximum, and that of the empty set is all 0.
pub fn union_is_maximum()
    ensures union { UnionIsMaximum }
    ensures empty { EmptyIsZero }
{}

/// A counter has 2^log2m registers from 0 to 33.
pub fn counter_is_row()
    ensures width { CounterIsWide }
    ensures ranks { RegistersAreRanks }
{}

/// One superstep of HyperBall: the maximum over a vertex and its predecessors (HyperBall 2013).
pub fn counter_grows()
    ensures { CounterGrows }
{}

/// The counter of x at t is that of exactly the counted vertices with a path of at most t edges to x.
pub fn counter_counts_paths()
    ensures bound { CounterIsBound }
    ensures least { CounterIsLeastBound }
{}

/// At superstep 0 a vertex is changed exactly if it is counted, and exactly if its counter is not empty.
pub fn start_is_counted()
    ensures counted { StartIsCounted }
    ensures filled { StartIsNotEmpty }
{}

/// Once no vertex is changed, none is changed later.
pub fn quiet_stays()
    ensures { QuietStays }
{}

/// An unchanged predecessor has nothing new to say.
pub fn changed_suffice()
    ensures step { ChangedSuffice }
    ensures source { ChangeComesFromChange }
{}

/// An accumulator for which nothing is heard is the counter, and one for which all is heard is the next counter; the
/// maximum of two is that of what either heard, and the row of a changed predecessor adds it to what is heard.
pub fn accumulators_gather()
    ensures starts { AccumulatorStarts }
    ensures ends { AccumulatorEnds }
    ensures joins { AccumulatorsJoin }
    ensures steps { AccumulatorSteps }
{}

/// The end is the least superstep of at least 1 with no vertex changed, or the limit if that is less.
pub fn end_is_least()
    ensures within { EndIsWithin }
    ensures least { EndIsLeast }
    ensures reached { EndIsReached }
{}

/// An estimate, corrected for small sets or not, does not fall if no register falls, and is below 2^63.
pub fn estimate_grows()
    ensures grows { EstimateGrows }
    ensures fits { EstimateFits }
{}

/// If no place is taken nothing was drawn, if one is taken one was, and each further place adds its wait.
pub fn draws_are_waits()
    ensures none { NoneIsNothing }
    ensures one { OneIsOne }
    ensures more { DrawsAdd }
{}

/// From two and a half for each register on an estimate is not corrected, and below that it stays below; counters are
/// the same.
pub fn large_is_raw()
    ensures large { LargeIsRaw }
    ensures small { SmallIsSmall }
    ensures counters { CountersAreApart }
{}

/// Figures fit their types, for every superstep up to the greatest limit, 4096.
pub fn tallies_fit()
    ensures { TalliesFit }
{}

/// Over at most 2^24 vertices a large plan is the usual one, or is refused for the same fault.
pub fn usual_is_large()
    ensures { UsualIsLarge }
{}

/// Vertex i of partition p is i * parts + p.
pub fn part_is_strided()
    ensures { PartIsStrided }
{}

/// What two replicas of a partition hold together does not depend on the order of joins, nor on how often they join.
pub fn join_is_a_join()
    ensures commutative { JoinCommutes }
    ensures associative { JoinAssociates }
    ensures repeats { JoinRepeats }
    ensures union { JoinIsUnion }
{}

/// All vertices are counted exactly if each one is.
pub fn all_are_counted()
    ensures { AllAreCounted }
{}

/// By a list a vertex is counted exactly if some record is its label, so a list of all labels counts every vertex.
pub fn named_are_counted()
    ensures named { NamedAreCounted }
    ensures all { AllNamedAreAll }
{}

/// What is read under some limits is read the same under limits that are no lower.
pub fn limits_only_refuse()
    ensures { LimitsOnlyRefuse }
{}

/// A line ends at an LF, at a CR and an LF, or at the end of the text.
pub fn lines_end()
    ensures lf { LfEndsLine }
    ensures crlf { CrLfEndsLine }
    ensures end { EndEndsLine }
{}

/// A byte order mark at the front of a text is read as an empty line; in front of a text that has none it changes no
/// record.
pub fn mark_is_skipped()
    ensures line { MarkIsEmptyLine }
    ensures none { MarkChangesNothing }
{}

/// The sections of an input are what is before and after its first line of exactly `%%`.
pub fn first_mark_divides()
    ensures divides { MarkDivides }
    ensures first { FirstMarkDivides }
{}
