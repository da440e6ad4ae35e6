//! The subcommand `run`: its arguments, and a run.

ghost use Rattle.std.specs.Prelude.{◌≡◌, [], Err, IfErr, IfOk, IfSome, List, MatchOption};
ghost use Rattle.std.specs.Prelude.{MatchResult, OnOk, codes, false, is_some, option_map};
ghost use Rattle.std.specs.Prelude.{true, ⊤, Bool, ℕ};
ghost use Rattle.clap.specs.Words.{App, found_of, has_subcommand, rows_of, subcommand_rows_of};
ghost use Rattle.hyperball.specs.CommandLine.{IsApp, run_app, with_arguments, with_large};
ghost use Rattle.hyperball.specs.CommandLine.{with_nodes, with_orders, with_progress};
ghost use Rattle.hyperball.specs.CommandLine.{with_threads};
ghost use Rattle.hyperball.specs.Ends.{FailsRun};
ghost use Rattle.hyperball.specs.Orders.{AreOrders, SpellsOrders};
ghost use Rattle.hyperball.specs.Refusals.{DoesJob, FailsJob};
ghost use Rattle.hyperball.specs.Streams.{reads_of, writes_of};
ghost use Rattle.hyperball.specs.Whole.{ReadsFew};
ghost use Rattle.hyperball.specs.Subcommands.{with_lists_of};
ghost use Rattle.hyperball.specs.Words.{AreListed, AreOptionsOf, AreOrdersIn, FailsWith};
ghost use Rattle.hyperball.specs.Words.{GivesLists, GivesOrders, GivesProgress, IsFlag, IsRunOf};
ghost use Rattle.hyperball.specs.Words.{MisspellsLists, SpellLists};

use crate::cli::arguments::{Argument, Texts, large, option, progress, subcommand_of, threads};
use crate::cli::options::{USUAL, job_arguments, job_input_of, wants_large, wants_progress};
use crate::cli::orders::{OrdersError, are_orders, orders_in};
use crate::cli::{Host, WordsError};
use crate::fault::Fault;
use crate::progress::{ProgressGate, ProgressTeller};
use crate::whole::{Form, parts_of, read_whole};
use ball_model::{CountedRead, CountedWrite, NodeId};
use clap::builder::ValueParser;
use clap::{ArgMatches, Command, value_parser};
use job::{JobInput, Watch};
use std::alloc::{AllocError, AllocGlobal, Global};
use std::hash::RandomState;
use std::random::RandomSource;
use std::sync::Wait;
use std::thread::Threads;
use std::time::Clock;
use workers::{Gate, RunOptions};
use world::bytes::Bytes;

const RUN_ABOUT: &str = "Reads an edge list on standard input and writes its centralities as CSV";

const RUN_LONG_ABOUT: &str =
    "Reads an edge list on standard input and writes its report on standard output.

A line with two fields is an edge from the first to the second, and a line with one field
names a vertex. Empty lines and lines that begin with # are skipped.

The report is comma-separated: the neighbourhood function at each superstep, the superstep at
which the run ended, its gain (pairs at distance i weigh 2^-i), and of each vertex its label,
reachable (the estimated number of vertices that can reach it, itself included), harmonic
centrality, closeness, Lin's index, and the number of registers that are empty.";

const RUN_AFTER: &str = "Example:
  hyperball run --log2m 8 --estimate corrected < edges.tsv > report.csv
  The input is always standard input: a file is handed over by the shell, with '<'.

Memory and accuracy:
  One worker takes at most about 2 * 2^log2m + 180 bytes a vertex and 9 bytes an edge, and while it
  reads 110 bytes a vertex and 11 bytes an edge. With snapshots, which it keeps only if it is to
  restart, runs that were measured took 1.2 to 1.7 times as much. With several partitions any --keep
  but 1 takes more memory, not less: the batches that they exchanged are dropped only if each
  superstep is kept. The relative error of a large set is about 1.04 / sqrt(2^log2m): 26 % at 4,
  6.5 % at 8, 3.3 % at 10. A set of fewer than 2.5 * 2^log2m vertices is estimated too large, the
  more so the smaller it is, unless --estimate corrected is said: take it for figures that are to be
  near the true ones, and raw for those that HyperLogLog's formula gives.

Cores:
  One partition uses all cores: if many vertices changed, a superstep is shared out to as many
  threads as there are cores, or as --threads says: 2 on a machine that others use, say. Partitions
  and replicas are for workers that may be lost, and for several machines ('hyperball node'). Each
  replica of each partition has a thread of its own, and an equal share of the threads. Reading
  takes as many threads, and so do the last figures. The report is the same for all of these.

Large edge lists:
  More than 2^24 vertices or 2^26 records are too many, unless --large is said: it lifts the limits
  to 2^31 and 2^32 - 1. What is read without it has the same report with it. With --counted the
  whole input has at most 64 MiB, with --large too.

Refusals:
  Faults of the edge list are reported first: --log2m, --parts and --limit that are out of range
  are refused only once all of it was read. A line on standard error says so at the start.

Hints:
  If no line has two fields and each has another delimiter, or the input begins as a gzip or a
  Matrix Market file, a line on standard error says so. Report and exit status stay as they are.

Figures:
  Harmonic centrality 0.000000 with Lin's index 1.000000: nobody else that counts gets there.
  Closeness is 1 divided by the sum of distances: 0.000000 if that sum is above a million.
  They count who reaches a vertex; for those that it reaches, swap the two columns of the edge list.
  An undirected graph has each edge both ways: a line 'a b' and a line 'b a'. This adds them:
  awk -F'\\t' '{ sub(/\\r$/, \"\") } { print } !/^#/ && NF == 2 { print $2 \"\\t\" $1 }' a.tsv > b.tsv

Exit status:
  0  the report was written, or help was asked for
  1  a fault, in one line on standard error; nothing was written, or the output failed
  2  words that are no command";

const PARTS_HELP: &str =
    "Partitions, 1 to 64, each with replicas of its own. One uses all cores; same report [default: 1]";

const REPLICAS_HELP: &str =
    "Replicas of each partition, 1 to 4: with 2 a worker may be lost, and not the run [default: 1]";

const ENTRIES_HELP: &str =
    "Entries of the board, 2 to 16777216: about 2*P*P a superstep and replica; more if it is full [default: 1048576]";

const KEEP_HELP: &str =
    "Supersteps from one snapshot to the next, 0 to 4096; 0: none, nor has one worker with no --restart [default: 1]";

const PATIENCE_HELP: &str =
    "Idle turns to wait for a silent worker: 17 minutes; a lost partition ends a run at once [default: 1000000]";

const LOSE_HELP: &str =
    "To try it, workers that are lost: P.K@S is replica K of partition P at superstep S; commas between";

const RESTART_HELP: &str =
    "To try it, workers that start anew from what is kept, in the form of --lose";

const THREADS_HELP: &str =
    "Threads that work at once in reading, in large supersteps and on figures, 1 to 1024; 0: one a core [default: 0]";

// How many replicas each partition has, if that is not said.
const REPLICAS: u8 = 1;

// How many entries the history of the board may have, if that is not said.
const ENTRIES: u32 = 1_048_576;

// How many supersteps there are from one snapshot to the next, if that is not said.
const KEEP: u32 = 1;

// After how many idle turns a replica gives up, if that is not said.
const PATIENCE: u32 = 1_000_000;

/// The arguments of a run.
#[derive(Drop)]
pub(crate) struct RunArgs {
    /// The options, with the lists of orders.
    pub(crate) options: RunOptions,
    /// Whether a list of counted vertices follows the edge list.
    pub(crate) counted: bool,
    /// Whether progress is to be reported.
    pub(crate) progress: bool,
}

// The arguments of run after those of its job.
fn run_arguments<'a>() -> [Argument<'a>; 9]
    ensures { (app : App) → with_arguments result app ≡
        with_progress (with_large (with_orders (with_threads (with_nodes app)))) }
{
    [
        option("replicas", REPLICAS_HELP, value_parser!(u8)),
        option("entries", ENTRIES_HELP, value_parser!(u32)),
        option("keep", KEEP_HELP, value_parser!(u32)),
        option("patience", PATIENCE_HELP, value_parser!(u32)),
        threads(THREADS_HELP),
        option("lose", LOSE_HELP, ValueParser::String),
        option("restart", RESTART_HELP, ValueParser::String),
        large(),
        progress(),
    ]
}

/// The subcommand run, with parsers of estimates and of delimiters.
pub(crate) fn run_command<'a>(
    alloc: Global,
    estimates: ValueParser<'a>,
    delimiters: ValueParser<'a>,
) -> Result<Command<'a>, AllocError>
    ensures { IfOk result (IsApp (run_app
        (record { estimates = estimates.entry; delimiters = delimiters.entry }))) }
{
    let texts = Texts {
        name: "run",
        about: RUN_ABOUT,
        long_about: RUN_LONG_ABOUT,
        after_help: RUN_AFTER,
    };
    let job = job_arguments(PARTS_HELP, estimates, delimiters);
    subcommand_of(alloc, &texts, &job, &run_arguments())
}

// Whether a list is of its form, if one is given.
fn is_listed(text: Option<&str>) -> bool
    ensures yes { result ≡ true →
        MatchOption (option_map (λ text. text.now) text.entry) ⊤ SpellsOrders }
    ensures no { (os : List (NodeId × ℕ)) → result ≡ false →
        MatchOption (option_map (λ text. text.now) text.entry)
        (os ≡ []) (λ text. AreOrders text os) → ⊥ }
{
    match text {
        Some(text) => are_orders(text),
        None => true,
    }
}

// The orders of a list, if one is given.
fn listed_orders(alloc: Global, text: Option<&str>) -> Result<Vec<(NodeId, u32)>, OrdersError>
    ensures listed { IfOk result (λ os.
        MatchOption (option_map (λ text. text.now) text.entry)
        (os.items ≡ []) (λ text. AreOrders text os.items)) }
    ensures form { IfErr result (λ e. e ≡ OrdersError.Form →
        is_some (option_map (λ text. text.now) text.entry) ≡ true) }
    ensures read { (os : List (NodeId × ℕ)) →
        MatchOption (option_map (λ text. text.now) text.entry)
        (os ≡ []) (λ text. AreOrders text os) →
        MatchResult result (λ found. found.items ≡ os) (λ e. e ≡ OrdersError.Memory) }
    ensures memory { IfErr result (λ e. e ≡ OrdersError.Memory →
        MatchOption (option_map (λ text. text.now) text.entry) ⊥ SpellsOrders) }
{
    match text {
        Some(text) => orders_in(alloc, text),
        None => Ok(Vec::new(alloc)),
    }
}

// Orders, each of a replica at a superstep.
type Orders = Vec<(NodeId, u32)>;

// The lists of orders of a run: which replicas are lost, and which start anew. Both are looked at before memory is asked for.
fn orders_of(alloc: Global, matches: &ArgMatches<'_>) -> Result<(Orders, Orders), OrdersError>
    ensures listed { IfOk result (λ os.
        AreListed (rows_of (found_of matches.now)) os.0.items os.1.items) }
    ensures form { IfErr result (λ e. e ≡ OrdersError.Form →
        AreOrdersIn (rows_of (found_of matches.now))) }
    ensures misspelt { IfErr result (λ e. e ≡ OrdersError.Form →
        SpellLists (rows_of (found_of matches.now)) → ⊥) }
    ensures memory { IfErr result (λ e. e ≡ OrdersError.Memory →
        SpellLists (rows_of (found_of matches.now))) }
{
    let restart = matches.get_str("restart");
    if !is_listed(restart) {
        return Err(OrdersError::Form);
    }
    match listed_orders(alloc, matches.get_str("lose")) {
        Err(error) => Err(error),
        Ok(lose) => match listed_orders(alloc, restart) {
            Err(error) => Err(error),
            Ok(restart) => Ok((lose, restart)),
        },
    }
}

// The arguments of a run, as `clap` has checked them, with these lists of orders.
fn args_with(matches: &ArgMatches<'_>, lose: Orders, restart: Orders) -> RunArgs
    ensures args { (w : RunArgs) → AreOptionsOf (rows_of (found_of matches.now)) w →
        with_lists_of w result ≡ w }
    ensures lose { result.options.lose ≡ lose }
    ensures restart { result.options.restart ≡ restart }
    ensures progress { (b : Bool) → IsFlag (rows_of (found_of matches.now)) (codes "progress") b →
        result.progress ≡ b }
{
    let threads = matches.get_one("threads").unwrap_or(USUAL.threads);
    let JobInput {
        options: job,
        counted,
    } = job_input_of(matches, wants_large(matches), threads);
    let options = RunOptions {
        log2m: job.log2m,
        seed: job.seed,
        parts: job.parts,
        limit: job.limit,
        estimate: job.estimate,
        delimiter: job.delimiter,
        large: job.large,
        threads: job.threads,
        replicas: matches.get_one("replicas").unwrap_or(REPLICAS),
        entries: matches.get_one("entries").unwrap_or(ENTRIES),
        keep: matches.get_one("keep").unwrap_or(KEEP),
        patience: matches.get_one("patience").unwrap_or(PATIENCE),
        lose,
        restart,
    };
    RunArgs {
        options,
        counted,
        progress: wants_progress(matches),
    }
}

/// The arguments of a run, with its lists of orders.
pub(crate) fn run_args(alloc: Global, matches: &ArgMatches<'_>) -> Result<RunArgs, WordsError>
    requires { has_subcommand matches.now ≡ true }
    ensures run { (w : RunArgs) → IsRunOf (subcommand_rows_of matches.now) w →
        IfOk result (λ v. with_lists_of w v ≡ w) }
    ensures orders { IfOk result (λ v. IfSome (subcommand_rows_of matches.now) (λ s.
        AreListed s.1 v.options.lose.items v.options.restart.items)) }
    ensures progress { (b : Bool) → GivesProgress (subcommand_rows_of matches.now) b →
        IfOk result (λ v. v.progress ≡ b) }
    ensures none { FailsWith [] result }
    ensures form { result ≡ Err (WordsError.Orders OrdersError.Form) →
        GivesOrders (subcommand_rows_of matches.now) }
    ensures misspelt { result ≡ Err (WordsError.Orders OrdersError.Form) →
        MisspellsLists (subcommand_rows_of matches.now) }
    ensures memory { result ≡ Err (WordsError.Orders OrdersError.Memory) →
        GivesLists (subcommand_rows_of matches.now) }
{
    let (_, inner) = matches.subcommand().unwrap();
    match orders_of(alloc, inner) {
        Ok((lose, restart)) => Ok(args_with(inner, lose, restart)),
        Err(error) => Err(WordsError::Orders(error)),
    }
}

// A run over an input: the machine, what is asked of it, and its gate.
#[derive(Drop)]
struct Job<'a, H, G> {
    rt: &'a H,
    options: &'a RunOptions,
    gate: &'a G,
}

// A run over an input that is read whole, which has the list of counted vertices too.
fn run_listed<
    H: AllocGlobal + Threads + Wait + Sync,
    R: CountedRead,
    W: CountedWrite,
    G: Gate + Watch + Sync,
>(job: &Job<'_, H, G>, state: RandomState, reader: &mut R, writer: &mut W) -> Result<(), Fault>
    ensures done { OnOk result (DoesJob job.now.options.now true
        (reads_of R.remaining R.failed_calls R.sure_calls reader.old reader.new)
        (writes_of W.contents W.failed_calls writer.old writer.new)) }
    ensures fault { IfErr result (FailsJob job.now.options.now true
        (reads_of R.remaining R.failed_calls R.sure_calls reader.old reader.new)
        (writes_of W.contents W.failed_calls writer.old writer.new)) }
    ensures few { ReadsFew (R.remaining reader.old) (R.remaining reader.new) }
{
    let input = read_whole(job.rt.alloc(), reader)?;
    let form = Form {
        list: true,
        script: false,
    };
    let parts = parts_of(&input, form)?;
    let mut edges = Bytes::new(parts.edges);
    workers::run_watched(
        job.rt,
        state,
        &mut edges,
        parts.list,
        writer,
        job.options,
        job.gate,
    )?;
    Ok(())
}

/// Runs the job in the input, and writes its report.
///
/// After `Gate` and `Random` nothing was read or written. With a list of counted vertices the input is read whole
/// ([`read_whole`]), and `Lacks` is answered exactly if no line is the mark; without one a failed read is answered
/// exactly if a call of the reader failed (while failures can be counted).
pub(crate) fn run_by<
    H: AllocGlobal + Clock + RandomSource + Threads + Wait + Sync,
    T: ProgressTeller + Sync,
    R: CountedRead,
    W: CountedWrite,
>(host: &Host<'_, H, T>, args: RunArgs, reader: &mut R, writer: &mut W) -> Result<(), Fault>
    ensures done { OnOk result (DoesJob args.options args.counted
        (reads_of R.remaining R.failed_calls R.sure_calls reader.old reader.new)
        (writes_of W.contents W.failed_calls writer.old writer.new)) }
    ensures fault { IfErr result (FailsRun args
        (reads_of R.remaining R.failed_calls R.sure_calls reader.old reader.new)
        (writes_of W.contents W.failed_calls writer.old writer.new)) }
    ensures few { args.counted ≡ true →
        ReadsFew (R.remaining reader.old) (R.remaining reader.new) }
{
    let rt = host.rt;
    let options = &args.options;
    let teller = host.teller.as_ref();
    let Ok(gate) = ProgressGate::new(rt.alloc(), rt, teller, options.parts) else {
        return Err(Fault::Gate);
    };
    let state = host.random_state()?;
    let answer = if args.counted {
        let job = Job {
            rt,
            options,
            gate: &gate,
        };
        run_listed(&job, state, reader, writer)
    } else {
        match workers::run_watched(rt, state, reader, None, writer, options, &gate) {
            Ok(()) => Ok(()),
            Err(error) => Err(Fault::Run(error)),
        }
    };
    gate.after_run(answer.is_ok());
    answer
}
