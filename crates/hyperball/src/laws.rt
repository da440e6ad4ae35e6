//! What real command lines are read as, and lines of progress: the contract of each function is the law, and its body
//! is empty.

ghost use Rattle.std.specs.Prelude.{◌∷◌, ◌≢◌, [], List, codes, false, true, ℕ};
ghost use Rattle.ball_model.specs.declared.names.NodeId.{NodeId as Node};
ghost use Rattle.clap.specs.Words.{Text};
ghost use Rattle.clap.specs.declared.error.kind.ErrorKind.{ErrorKind as Kind};
ghost use Rattle.clap.specs.declared.error.kind.ErrorKind.TheVariants.{DisplayHelp, DisplayVersion};
ghost use Rattle.clap.specs.declared.error.kind.ErrorKind.TheVariants.{InvalidValue};
ghost use Rattle.clap.specs.declared.error.kind.ErrorKind.TheVariants.{MissingSubcommand};
ghost use Rattle.clap.specs.declared.error.kind.ErrorKind.TheVariants.{UnknownArgument};
ghost use Rattle.clap.specs.declared.error.kind.ErrorKind.TheVariants.{ValueValidation};
ghost use Rattle.hyperball.specs.Hints.{line_of_hint};
ghost use Rattle.hyperball.specs.LawWords.{board_words, corrected_words, counted_words};
ghost use Rattle.hyperball.specs.LawWords.{log2m_words, node_words, replayed_input, replayed_plan};
ghost use Rattle.hyperball.specs.LawWords.{space_words, gathered_job, telling_gathering};
ghost use Rattle.hyperball.specs.LawWords.{telling_node, third_node, usual_node, usual_replay};
ghost use Rattle.hyperball.specs.LawWords.{one_order, two_orders};
ghost use Rattle.hyperball.specs.Orders.{AreOrders};
ghost use Rattle.hyperball.specs.Progress.{IsLineBehind, line_of, mark_of_program};
ghost use Rattle.hyperball.specs.Subcommands.{AsksAnother, AsksSubcommand, IsGather, IsNode};
ghost use Rattle.hyperball.specs.Subcommands.{IsReplay, IsRun, IsSubcommand};
ghost use Rattle.hyperball.specs.Words.{AsksProgress, HasFaults};
ghost use Rattle.hyperball.specs.declared.cli.Subcommand.{Subcommand};
ghost use Rattle.hyperball.specs.declared.cli.run.RunArgs.{RunArgs};
ghost use Rattle.hyperball.specs.declared.hints.Hint.{Hint};
ghost use Rattle.hyperball.specs.declared.lines.ProgressLine.{ProgressLine};

/// These words are read as those of run; an option that is not given has its default. (Of lists of orders nothing is said
/// here.)
pub fn words_of_a_run()
    ensures log2m { (w : RunArgs) → IsRun
        (codes "hyperball" ∷ codes "run" ∷ codes "--log2m" ∷ codes "4" ∷ [])
        (log2m_words w) }
    ensures limit { (w : RunArgs) → IsRun
        (codes "hyperball" ∷ codes "run" ∷ codes "--delimiter=space" ∷ codes "--limit=5000" ∷ [])
        (space_words w) }
    ensures estimate { (w : RunArgs) → IsRun
        (codes "hyperball" ∷ codes "run" ∷ codes "--estimate" ∷ codes "corrected" ∷ [])
        (corrected_words w) }
    ensures counted { (w : RunArgs) → IsRun
        (codes "hyperball" ∷ codes "run" ∷ codes "--counted" ∷ codes "--parts" ∷ codes "2" ∷ [])
        (counted_words w) }
    ensures nodes { (w : RunArgs) → IsRun
        (codes "hyperball" ∷ codes "run" ∷ codes "--replicas" ∷ codes "2" ∷ codes "--keep=0"
        ∷ codes "--lose" ∷ codes "0.1@2" ∷ [])
        (node_words w) }
    ensures board { (w : RunArgs) → IsRun
        (codes "hyperball" ∷ codes "run" ∷ codes "--entries" ∷ codes "64" ∷ codes "--patience=10"
        ∷ codes "--restart" ∷ codes "0.0@2" ∷ codes "--threads" ∷ codes "2" ∷ codes "--large" ∷ [])
        (board_words w) }
{}

/// These words ask for help, or are mistaken.
pub fn words_of_no_run()
    ensures help { HasFaults
        (codes "hyperball" ∷ codes "run" ∷ codes "--help" ∷ [])
        (DisplayHelp ∷ []) }
    ensures unknown { HasFaults
        (codes "hyperball" ∷ codes "run" ∷ codes "--part" ∷ codes "0" ∷ [])
        (UnknownArgument ∷ []) }
    ensures threads { HasFaults
        (codes "hyperball" ∷ codes "run" ∷ codes "--threads" ∷ codes "1025" ∷ [])
        (ValueValidation ∷ []) }
    ensures number { HasFaults
        (codes "hyperball" ∷ codes "run" ∷ codes "--log2m" ∷ codes "300" ∷ [])
        (ValueValidation ∷ []) }
    ensures name { HasFaults
        (codes "hyperball" ∷ codes "run" ∷ codes "--delimiter" ∷ codes "semicolon" ∷ [])
        (InvalidValue ∷ []) }
{}

/// These words are read as those of replay; an option that is not given has its default.
pub fn words_of_a_replay()
    ensures usual { IsReplay
        (codes "hyperball" ∷ codes "replay" ∷ [])
        usual_replay }
    ensures plan { IsReplay
        (codes "hyperball" ∷ codes "replay" ∷ codes "--log2m" ∷ codes "4" ∷ codes "--parts=3"
        ∷ codes "--limit" ∷ codes "9" ∷ codes "--replicas" ∷ codes "2" ∷ [])
        replayed_plan }
    ensures input { IsReplay
        (codes "hyperball" ∷ codes "replay" ∷ codes "--counted" ∷ codes "--delimiter"
        ∷ codes "comma" ∷ codes "--estimate=corrected" ∷ codes "--seed" ∷ codes "7"
        ∷ codes "--progress" ∷ [])
        replayed_input }
{}

/// These words ask for help on replay, or are mistaken: a replay keeps what its script says, so it has no `--keep`.
pub fn words_of_no_replay()
    ensures help { HasFaults
        (codes "hyperball" ∷ codes "replay" ∷ codes "--help" ∷ [])
        (DisplayHelp ∷ []) }
    ensures keep { HasFaults
        (codes "hyperball" ∷ codes "replay" ∷ codes "--keep" ∷ codes "0" ∷ [])
        (UnknownArgument ∷ []) }
    ensures lose { HasFaults
        (codes "hyperball" ∷ codes "replay" ∷ codes "--lose" ∷ codes "0.0@1" ∷ [])
        (UnknownArgument ∷ []) }
    ensures number { HasFaults
        (codes "hyperball" ∷ codes "replay" ∷ codes "--replicas" ∷ codes "256" ∷ [])
        (ValueValidation ∷ []) }
    ensures name { HasFaults
        (codes "hyperball" ∷ codes "replay" ∷ codes "--estimate" ∷ codes "best" ∷ [])
        (InvalidValue ∷ []) }
{}

/// These words are read as those of node and of gather; an option that is not given has its default.
pub fn words_of_a_node()
    ensures usual { IsNode
        (codes "hyperball" ∷ codes "node" ∷ [])
        usual_node }
    ensures third { IsNode
        (codes "hyperball" ∷ codes "node" ∷ codes "--log2m" ∷ codes "4" ∷ codes "--parts=3"
        ∷ codes "--part" ∷ codes "2" ∷ codes "--counted" ∷ codes "--large" ∷ [])
        third_node }
    ensures gather { IsGather
        (codes "hyperball" ∷ codes "gather" ∷ codes "--parts=3" ∷ codes "--estimate"
        ∷ codes "corrected" ∷ codes "--delimiter=comma" ∷ codes "--threads" ∷ codes "2"
        ∷ codes "--large" ∷ [])
        gathered_job }
    ensures telling { IsNode
        (codes "hyperball" ∷ codes "node" ∷ codes "--progress" ∷ [])
        telling_node }
    ensures telling_gather { IsGather
        (codes "hyperball" ∷ codes "gather" ∷ codes "--progress" ∷ [])
        telling_gathering }
{}

/// These words ask for help on node or gather, or are mistaken: a report is of all partitions, and a node is one replica,
/// with one thread.
pub fn words_of_no_node()
    ensures help { HasFaults
        (codes "hyperball" ∷ codes "node" ∷ codes "--help" ∷ [])
        (DisplayHelp ∷ []) }
    ensures part { HasFaults
        (codes "hyperball" ∷ codes "gather" ∷ codes "--part" ∷ codes "0" ∷ [])
        (UnknownArgument ∷ []) }
    ensures replicas { HasFaults
        (codes "hyperball" ∷ codes "node" ∷ codes "--replicas" ∷ codes "2" ∷ [])
        (UnknownArgument ∷ []) }
    ensures number { HasFaults
        (codes "hyperball" ∷ codes "node" ∷ codes "--part" ∷ codes "65536" ∷ [])
        (ValueValidation ∷ []) }
    ensures threads { HasFaults
        (codes "hyperball" ∷ codes "gather" ∷ codes "--threads" ∷ codes "1025" ∷ [])
        (ValueValidation ∷ []) }
    ensures node_threads { HasFaults
        (codes "hyperball" ∷ codes "node" ∷ codes "--threads" ∷ codes "2" ∷ [])
        (UnknownArgument ∷ []) }
{}

/// These words ask for the version or for help, or no command is named; the commands have no version of their own.
pub fn words_of_no_command()
    ensures version { HasFaults
        (codes "hyperball" ∷ codes "--version" ∷ [])
        (DisplayVersion ∷ []) }
    ensures help { HasFaults
        (codes "hyperball" ∷ codes "--help" ∷ [])
        (DisplayHelp ∷ []) }
    ensures none { HasFaults
        (codes "hyperball" ∷ [])
        (MissingSubcommand ∷ []) }
    ensures inner { HasFaults
        (codes "hyperball" ∷ codes "run" ∷ codes "--version" ∷ [])
        (UnknownArgument ∷ []) }
{}

/// These words ask for progress. Words of a command never both ask for it and do not.
pub fn words_of_progress()
    ensures run { AsksProgress
        (codes "hyperball" ∷ codes "run" ∷ codes "--progress" ∷ codes "--parts" ∷ codes "2" ∷ [])
        true }
    ensures replay { AsksProgress
        (codes "hyperball" ∷ codes "replay" ∷ codes "--progress" ∷ [])
        true }
    ensures node { AsksProgress
        (codes "hyperball" ∷ codes "node" ∷ codes "--progress" ∷ [])
        true }
    ensures gather { AsksProgress
        (codes "hyperball" ∷ codes "gather" ∷ codes "--progress" ∷ [])
        true }
    ensures one { (words : List Text) (x : Subcommand) → IsSubcommand words x →
        AsksProgress words true → AsksProgress words false → ⊥ }
{}

/// These words do not ask for progress; nor do words that are refused or ask for help.
pub fn words_of_no_progress()
    ensures run { AsksProgress
        (codes "hyperball" ∷ codes "run" ∷ codes "--parts" ∷ codes "2" ∷ [])
        false }
    ensures node { AsksProgress
        (codes "hyperball" ∷ codes "node" ∷ [])
        false }
    ensures gather { AsksProgress
        (codes "hyperball" ∷ codes "gather" ∷ codes "--parts=3" ∷ [])
        false }
    ensures refused { (words : List Text) (kinds : List Kind) → HasFaults words kinds →
        kinds ≢ [] → AsksProgress words false }
{}

/// Each line of progress begins with `hyperball: `, and has one LF, at its end.
pub fn lines_of_progress()
    ensures { (said : ProgressLine) → IsLineBehind mark_of_program (line_of said) }
{}

/// Each hint begins with `hyperball: `, and has one LF, at its end.
pub fn lines_of_hints()
    ensures { (hint : Hint) → IsLineBehind mark_of_program (line_of_hint hint) }
{}

/// Words that are read as those of a replay, of a node or of a gathering ask for that one. Words that are read as those
/// of any command ask for none of the three but their own.
pub fn words_of_one_command()
    ensures asked { (words : List Text) (x : Subcommand) → IsSubcommand words x →
        AsksSubcommand words x }
    ensures another { (words : List Text) (x : Subcommand) → IsSubcommand words x →
        AsksAnother words x → ⊥ }
{}

/// These texts are lists of orders, and these are none: a superstep is wanted, no number has leading zeros, no list
/// ends with a comma, and none is empty.
pub fn lists_of_orders()
    ensures one { AreOrders (codes "0.1@2") one_order }
    ensures two { AreOrders (codes "0.1@2,1.0@3") two_orders }
    ensures unsaid { (os : List (Node × ℕ)) → AreOrders (codes "0.0@") os → ⊥ }
    ensures zeros { (os : List (Node × ℕ)) → AreOrders (codes "00.0@1") os → ⊥ }
    ensures ended { (os : List (Node × ℕ)) → AreOrders (codes "0.0@1,") os → ⊥ }
    ensures empty { (os : List (Node × ℕ)) → AreOrders [] os → ⊥ }
{}
