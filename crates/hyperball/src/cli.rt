//! The command line, read by `clap`: what its words ask for, and a file for each subcommand, with its arguments and what
//! it does.

ghost use Rattle.std.specs.Prelude.{◌≡◌, [], Err, IfErr, IfOk, IfSome, List, true};
ghost use Rattle.clap.specs.Words.{App, has_subcommand, subcommand_rows_of, with_subcommand};
ghost use Rattle.clap.specs.declared.error.kind.ErrorKind.{ErrorKind};
ghost use Rattle.hyperball.specs.CommandLine.{IsApp, Parsers, TakeNames, hyperball_app};
ghost use Rattle.hyperball.specs.CommandLine.{new_hyperball};
ghost use Rattle.hyperball.specs.Progress.{Foretells};
ghost use Rattle.hyperball.specs.Subcommands.{AnswersSubcommand, ForetellsOf, IsOfMatches};
ghost use Rattle.hyperball.specs.Subcommands.{IsOfWords, IsSubcommand, IsSubcommandOf, Says};
ghost use Rattle.hyperball.specs.Subcommands.{tells_progress};
ghost use Rattle.hyperball.specs.Words.{FailsWith, HasFaults, ParsesTo, RefusesLists};
ghost use Rattle.hyperball.specs.Words.{RefusesOrders, texts_of};

pub(crate) mod arguments;
pub(crate) mod gather;
pub(crate) mod one_node;
pub(crate) mod options;
pub(crate) mod orders;
pub(crate) mod replay;
pub(crate) mod run;

use crate::cli::gather::{GatherArgs, gather_args_of, gather_command};
use crate::cli::one_node::{NodeArgs, node_args_of, node_command};
use crate::cli::options::{delimiters, estimates};
use crate::cli::orders::OrdersError;
use crate::cli::replay::{ReplayArgs, replay_args_of, replay_command};
use crate::cli::run::{RunArgs, run_args, run_command};
use crate::fault::Fault;
use crate::lines::ProgressLine;
use crate::progress::foretold;
use clap::{ArgMatches, Command, Error};
use job::JobOptions;
use std::alloc::{AllocError, Global};
use std::hash::RandomState;
use std::random::RandomSource;

const VERSION: &str = "0.1.0";

const ABOUT: &str = "HyperBall centralities of a directed graph, by HyperLogLog counters";

// The program, before it has a subcommand.
fn bare_command<'a>(alloc: Global) -> Command<'a>
    ensures { IsApp new_hyperball result }
{
    Command::new(alloc, "hyperball")
        .version(VERSION)
        .about(ABOUT)
        .subcommand_required(true)
}

// Adds a subcommand, if there is one.
fn add_command<'a>(
    command: Command<'a>,
    inner: Result<Command<'a>, AllocError>,
) -> Result<Command<'a>, AllocError>
    ensures { (app sub : App) → IsApp app command.entry → IfOk inner.entry (IsApp sub) →
        IfOk result (IsApp (with_subcommand app sub.top)) }
{
    match inner {
        Ok(inner) => command.subcommand(inner),
        Err(error) => Err(error),
    }
}

/// The program's command.
pub(crate) fn command<'a>(alloc: Global) -> Result<Command<'a>, AllocError>
    ensures { IfOk result (λ c.
        (p : Parsers) × TakeNames p × IsApp (hyperball_app p) c) }
{
    let ways = estimates();
    let between = delimiters();
    let top = add_command(bare_command(alloc), run_command(alloc, ways, between))?;
    let top = add_command(top, replay_command(alloc, ways, between))?;
    let top = add_command(top, node_command(alloc, ways, between))?;
    add_command(top, gather_command(alloc, ways, between))
}

// The words, as the program's command reads them.
fn parse<'a>(alloc: Global, words: &'a [String]) -> Result<ArgMatches<'a>, Error>
    ensures read { ParsesTo (texts_of words.entry.now) result }
    ensures subcommand { IfOk result (λ m. has_subcommand m ≡ true) }
{
    command(alloc)?.try_get_matches_from(words)
}

/// What a command line asks for.
#[derive(Drop)]
pub(crate) enum Subcommand {
    /// A run.
    Run(RunArgs),
    /// A replay.
    Replay(ReplayArgs),
    /// A node of a partition.
    Node(NodeArgs),
    /// The report of checkpoints.
    Gather(GatherArgs),
}

// The line to report if no plan has a job's numbers.
fn foretold_of(job: &JobOptions) -> Option<ProgressLine>
    ensures { IfSome result (Foretells job.now.log2m job.now.parts job.now.limit) }
{
    foretold(job.log2m, job.parts, job.limit)
}

impl Subcommand {
    /// Whether progress is to be reported.
    pub(crate) fn tells_progress(&self) -> bool
        ensures { result ≡ tells_progress self.now }
    {
        match self {
            Subcommand::Run(args) => args.progress,
            Subcommand::Replay(args) => args.progress,
            Subcommand::Node(args) => args.progress,
            Subcommand::Gather(args) => args.progress,
        }
    }

    /// The line to report before the edge list is read, if no plan has the numbers, whatever the graph. (A replay's script
    /// is checked before its plan, and the other options of a run before all else.)
    pub(crate) fn foretold(&self) -> Option<ProgressLine>
        ensures { IfSome result (ForetellsOf self.now) }
    {
        match self {
            Subcommand::Run(args) if args.options.are_in_limits() => {
                foretold_of(&args.options.job())
            }
            Subcommand::Node(args) => foretold_of(&args.job.options),
            Subcommand::Gather(args) => foretold_of(&args.job.options),
            Subcommand::Run(_) | Subcommand::Replay(_) => None,
        }
    }
}

/// What a subcommand runs on: the machine, and a teller if progress is to be reported.
#[derive(Drop)]
pub(crate) struct Host<'a, H, T> {
    /// The runtime: memory, random words, threads and the time.
    pub(crate) rt: &'a H,
    /// Reports progress, if that is asked for.
    pub(crate) teller: &'a Option<T>,
}

impl<'a, H: RandomSource, T> Host<'a, H, T> {
    /// Random words to hash labels by.
    pub(crate) fn random_state(&self) -> Result<RandomState, Fault>
        ensures { IfErr result (λ e. e ≡ Fault.Random) }
    {
        match RandomState::new(self.rt) {
            Ok(state) => Ok(state),
            Err(_) => Err(Fault::Random),
        }
    }
}

/// Why words are no command.
#[derive(Drop)]
pub(crate) enum WordsError {
    /// `clap` refuses them, or help is asked for.
    Clap(Error),
    /// A list of orders is not of its form, or memory was refused.
    Orders(OrdersError),
}

// The subcommand that `clap` found, with its arguments.
fn read_subcommand(alloc: Global, matches: &ArgMatches<'_>) -> Result<Subcommand, WordsError>
    requires { has_subcommand matches.now ≡ true }
    ensures asked { (x : Subcommand) → IsSubcommandOf (subcommand_rows_of matches.now) x →
        AnswersSubcommand x result }
    ensures found { IfOk result (IsOfMatches (subcommand_rows_of matches.now)) }
    ensures none { FailsWith [] result }
    ensures lists { (e : OrdersError) → result ≡ Err (WordsError.Orders e) →
        RefusesLists (subcommand_rows_of matches.now) e }
{
    match matches.subcommand().unwrap() {
        ("replay", inner) => Ok(Subcommand::Replay(replay_args_of(inner))),
        ("node", inner) => Ok(Subcommand::Node(node_args_of(inner))),
        ("gather", inner) => Ok(Subcommand::Gather(gather_args_of(inner))),
        _ => match run_args(alloc, matches) {
            Ok(args) => Ok(Subcommand::Run(args)),
            Err(error) => Err(error),
        },
    }
}

/// The subcommand that the words of a command line ask for. The error is why they ask for none; lists of orders are read
/// if `clap` finds nothing wrong.
pub(crate) fn read_words(alloc: Global, words: &[String]) -> Result<Subcommand, WordsError>
    ensures asked { (x : Subcommand) → IsSubcommand (texts_of words.now) x → IfOk result (Says x) }
    ensures found { IfOk result (IsOfWords (texts_of words.now)) }
    ensures faults { (kinds : List ErrorKind) → HasFaults (texts_of words.now) kinds →
        FailsWith kinds result }
    ensures lists { (e : OrdersError) → result ≡ Err (WordsError.Orders e) →
        RefusesOrders (texts_of words.now) e }
{
    match parse(alloc, words) {
        Ok(matches) => read_subcommand(alloc, &matches),
        Err(error) => Err(WordsError::Clap(error)),
    }
}
