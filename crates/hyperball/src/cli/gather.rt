//! The subcommand `gather`: its arguments, and the report of the checkpoints of all partitions.

ghost use Rattle.std.specs.Prelude.{◌≡◌, Bool, IfErr, IfOk, OnOk, codes};
ghost use Rattle.clap.specs.Words.{found_of, rows_of};
ghost use Rattle.hyperball.specs.CommandLine.{IsApp, gather_app};
ghost use Rattle.hyperball.specs.Ends.{DoesGather, FailsGather};
ghost use Rattle.hyperball.specs.Nodes.{AreGatherOptionsOf};
ghost use Rattle.hyperball.specs.Streams.{reads_of, writes_of};
ghost use Rattle.hyperball.specs.Words.{IsFlag};

use crate::cli::Host;
use crate::cli::arguments::{Texts, large, progress, subcommand_of, threads};
use crate::cli::options::{USUAL, job_arguments, job_input_of, wants_large, wants_progress};
use crate::progress::{ProgressTeller, ProgressWatch};
use ball_model::{CountedRead, CountedWrite};
use clap::builder::ValueParser;
use clap::{ArgMatches, Command};
use job::JobInput;
use node::error::GatherError;
use node::gather::gather;
use std::alloc::{AllocError, AllocGlobal, Global};
use std::hash::RandomState;
use std::thread::Threads;

const GATHER_ABOUT: &str =
    "Writes the report of a job from the checkpoints that its nodes gave at the end";

const GATHER_LONG_ABOUT: &str =
    "Writes the report of a job that nodes have run ('hyperball node'), on standard output: the one
that 'hyperball run' writes.

Reads an edge list, a line of exactly %%, and for each partition in order a line 'part L' and the L
bytes of the checkpoint that its node gave when it was finished, on standard input. With --counted
a list of counted vertices and a second line %% come before the checkpoints. Edge list, list and
options are those of the nodes.";

const GATHER_AFTER: &str = "Example, of two partitions whose nodes gave 0.hbck and 1.hbck:
  { cat edges.tsv; echo %%
    for p in 0 1; do echo part $(wc -c < $p.hbck); cat $p.hbck; done; } |
    hyperball gather --parts 2 --estimate corrected > report.csv

Cores:
  The figures take all cores, or as many threads as --threads says: 2 on a machine that others use,
  say. The report is the same.

Memory:
  It keeps the counters of all vertices, 2 * 2^log2m bytes each, and the edge list as a node does.
  If they do not fit into one machine, totals and figures of each node give its own part of the
  report ('hyperball node --help'). More than 2^24 vertices or 2^26 records are too many, unless
  --large is said: it lifts the limits to 2^31 and 2^32 - 1.

Exit status:
  0  the report was written, or help was asked for
  1  a fault, in one line on standard error; nothing was written, unless memory was refused
     or the output failed: then a beginning of the report may have been written
  2  words that are no command";

const GATHER_PARTS_HELP: &str =
    "Partitions of the job, 1 to 64: so many checkpoints follow the edge list [default: 1]";

const GATHER_THREADS_HELP: &str =
    "Threads that make the figures, 1 to 1024; 0: one a core [default: 0]";

/// The arguments of a gathering.
#[derive(Clone, Copy, PartialEq, Eq)]
pub(crate) struct GatherArgs {
    /// What is asked of its job. Its threads make the figures.
    pub(crate) job: JobInput,
    /// Whether progress is to be reported.
    pub(crate) progress: bool,
}

/// The subcommand gather, with parsers of estimates and of delimiters.
pub(crate) fn gather_command<'a>(
    alloc: Global,
    estimates: ValueParser<'a>,
    delimiters: ValueParser<'a>,
) -> Result<Command<'a>, AllocError>
    ensures { IfOk result (IsApp (gather_app
        (record { estimates = estimates.entry; delimiters = delimiters.entry }))) }
{
    let texts = Texts {
        name: "gather",
        about: GATHER_ABOUT,
        long_about: GATHER_LONG_ABOUT,
        after_help: GATHER_AFTER,
    };
    let job = job_arguments(GATHER_PARTS_HELP, estimates, delimiters);
    let others = [threads(GATHER_THREADS_HELP), large(), progress()];
    subcommand_of(alloc, &texts, &job, &others)
}

/// The arguments of a gathering, as `clap` has checked them.
pub(crate) fn gather_args_of(matches: &ArgMatches<'_>) -> GatherArgs
    ensures options { (w : GatherArgs) → AreGatherOptionsOf (rows_of (found_of matches.now)) w →
        result ≡ w }
    ensures progress { (b : Bool) → IsFlag (rows_of (found_of matches.now)) (codes "progress") b →
        result.progress ≡ b }
{
    let threads = matches.get_one("threads").unwrap_or(USUAL.threads);
    GatherArgs {
        job: job_input_of(matches, wants_large(matches), threads),
        progress: wants_progress(matches),
    }
}

/// Writes the report of the checkpoints in the input, of all partitions of a job.
pub(crate) fn gather_by<
    H: AllocGlobal + Threads + Sync,
    T: ProgressTeller,
    R: CountedRead,
    W: CountedWrite,
>(
    host: &Host<'_, H, T>,
    state: RandomState,
    args: &GatherArgs,
    reader: &mut R,
    writer: &mut W,
) -> Result<(), GatherError>
    ensures done { OnOk result (DoesGather args.now
        (reads_of R.remaining R.failed_calls R.sure_calls reader.old reader.new)
        (writes_of W.contents W.failed_calls writer.old writer.new)) }
    ensures fault { IfErr result (FailsGather args.now
        (reads_of R.remaining R.failed_calls R.sure_calls reader.old reader.new)
        (writes_of W.contents W.failed_calls writer.old writer.new)) }
{
    let watch = ProgressWatch::new(host.teller);
    gather(host.rt, state, &args.job, &watch, reader, writer)?;
    watch.after_gathering();
    Ok(())
}
