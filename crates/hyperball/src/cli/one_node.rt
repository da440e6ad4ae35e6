//! The subcommand `node`: its arguments, and one partition's node that answers commands. (No module may be named as the
//! crate `node`.)

ghost use Rattle.std.specs.Prelude.{◌≡◌, Bool, IfErr, IfOk, OnOk, codes};
ghost use Rattle.clap.specs.Words.{found_of, rows_of};
ghost use Rattle.hyperball.specs.CommandLine.{IsApp, node_app};
ghost use Rattle.hyperball.specs.Ends.{DoesNode, FailsNode};
ghost use Rattle.hyperball.specs.Nodes.{AreNodeOptionsOf};
ghost use Rattle.hyperball.specs.Streams.{reads_of, writes_of};
ghost use Rattle.hyperball.specs.Words.{IsFlag};

use crate::cli::Host;
use crate::cli::arguments::{Texts, large, option, progress, subcommand_of};
use crate::cli::options::{job_arguments, job_input_of, wants_large, wants_progress};
use crate::progress::{ProgressTeller, ProgressWatch};
use ball_model::{CountedRead, CountedWrite};
use clap::builder::ValueParser;
use clap::{ArgMatches, Command, value_parser};
use job::JobInput;
use node::error::ServeNodeError;
use node::serve::serve_node;
use std::alloc::{AllocError, AllocGlobal, Global};
use std::hash::RandomState;

const NODE_ABOUT: &str =
    "Is one partition's node of a job that several machines share, and answers commands";

const NODE_LONG_ABOUT: &str =
    "Is one partition's node of a job, for a graph whose counters do not fit into one machine. If
they do, 'hyperball run' does the whole job, and sooner.

An engine that people already have (Dask, Slurm, a shell with ssh) starts a node for each
partition, brings each the batches of the others, and keeps their checkpoints. Whatever it
loses, repeats, delays or starts anew, the figures are the same.

Reads an edge list, a line of exactly %%, and commands on standard input, and answers each on
standard output before it reads the next. With --counted a list of counted vertices and a second
line %% come before the commands. All nodes of a job get the same input up to there, and the
same options but --part.";

const NODE_AFTER: &str = "Example, of a job of one partition:
  printf 'a\\tb\\nb\\tc\\n%%%%\\nclose\\ntotals\\n' | hyperball node --log2m 4 --estimate corrected
  answers
    closed 1
    superstep,0,3.000000
    superstep,1,5.133332

Commands, one on a line, and their answers. T is a superstep, P and Q are partitions, and L is how
many bytes follow the line.
  send Q        gives the superstep's batch for partition Q: sent T P Q, how many vertices
                changed, how many are in the batch, L, and then the batch; refused no-target
  deliver L     takes the batch after it, once, again or late: new, known, old, too-early T,
                not-mine, own-partition, other-job; or refused, and what was found in it
  close         goes on to the next superstep, once each other partition was heard:
                closed T, waiting Q, or finished if the run is over
  keep          gives the checkpoint of the node: kept T L, and then the checkpoint
  restart L     goes back to the checkpoint after it, or to the start if L is 0:
                restarted T; or refused, and what was found in it
  recover L     takes over what the checkpoint after it has: merged T, or refused as above
  show          shows the node and its vertices, as in a script of 'hyperball replay'
  totals        gives the sum of its vertices' estimates at each superstep so far
  figures       gives the report's lines of its vertices
The node ends when its input does. When all are finished, 'hyperball gather' writes the report.

Memory and accuracy:
  A node keeps the counters of its own vertices alone, 2 * 2^log2m bytes each. But it reads the
  whole edge list, and keeps that, packed, with all labels. 'hyperball run --help' says what
  reading takes, how near figures are to the true ones and what they mean. More than 2^24
  vertices or 2^26 records are too many, unless --large is said: it lifts the limits to 2^31 and
  2^32 - 1. It makes no other job: batches and checkpoints are the same with it.

Exit status:
  0  all commands were answered, or help was asked for
  1  a fault, in one line on standard error; the answers before it were written
  2  words that are no command";

const NODE_PARTS_HELP: &str =
    "Partitions of the job, 1 to 64, each with a node of its own; for all nodes the same [default: 1]";

const PART_HELP: &str =
    "Partition of this node, from 0 on: each node of a job has another one [default: 0]";

/// The arguments of a node.
#[derive(Clone, Copy, PartialEq, Eq)]
pub(crate) struct NodeArgs {
    /// What is asked of its job.
    pub(crate) job: JobInput,
    /// Its partition.
    pub(crate) part: u16,
    /// Whether progress is to be reported.
    pub(crate) progress: bool,
}

/// The subcommand node, with parsers of estimates and of delimiters.
pub(crate) fn node_command<'a>(
    alloc: Global,
    estimates: ValueParser<'a>,
    delimiters: ValueParser<'a>,
) -> Result<Command<'a>, AllocError>
    ensures { IfOk result (IsApp (node_app
        (record { estimates = estimates.entry; delimiters = delimiters.entry }))) }
{
    let texts = Texts {
        name: "node",
        about: NODE_ABOUT,
        long_about: NODE_LONG_ABOUT,
        after_help: NODE_AFTER,
    };
    let job = job_arguments(NODE_PARTS_HELP, estimates, delimiters);
    let part = option("part", PART_HELP, value_parser!(u16));
    subcommand_of(alloc, &texts, &job, &[part, large(), progress()])
}

/// The arguments of a node, as `clap` has checked them.
pub(crate) fn node_args_of(matches: &ArgMatches<'_>) -> NodeArgs
    ensures options { (w : NodeArgs) → AreNodeOptionsOf (rows_of (found_of matches.now)) w →
        result ≡ w }
    ensures progress { (b : Bool) → IsFlag (rows_of (found_of matches.now)) (codes "progress") b →
        result.progress ≡ b }
{
    NodeArgs {
        job: job_input_of(matches, wants_large(matches), 0),
        part: matches.get_one("part").unwrap_or(0),
        progress: wants_progress(matches),
    }
}

/// Runs a node, which answers the commands in the input until that ends.
///
/// If there is no job, nothing is answered; what was answered before a request that cannot be read stays.
pub(crate) fn node_by<H: AllocGlobal, T: ProgressTeller, R: CountedRead, W: CountedWrite>(
    host: &Host<'_, H, T>,
    state: RandomState,
    args: &NodeArgs,
    reader: &mut R,
    writer: &mut W,
) -> Result<(), ServeNodeError>
    ensures done { OnOk result (DoesNode args.now
        (reads_of R.remaining R.failed_calls R.sure_calls reader.old reader.new)
        (writes_of W.contents W.failed_calls writer.old writer.new)) }
    ensures fault { IfErr result (FailsNode args.now
        (reads_of R.remaining R.failed_calls R.sure_calls reader.old reader.new)
        (writes_of W.contents W.failed_calls writer.old writer.new)) }
{
    let watch = ProgressWatch::new(host.teller);
    serve_node(
        host.rt.alloc(),
        state,
        &args.job,
        args.part,
        &watch,
        reader,
        writer,
    )?;
    watch.after_commands();
    Ok(())
}
