//! The subcommand `replay`: its arguments, and the answers to a script.

ghost use Rattle.std.specs.Prelude.{◌≡◌, Bool, IfErr, IfOk, OnOk, codes};
ghost use Rattle.clap.specs.Words.{found_of, rows_of};
ghost use Rattle.hyperball.specs.CommandLine.{IsApp, replay_app};
ghost use Rattle.hyperball.specs.Replaying.{AreReplayOptionsOf, DoesReplay, FailsReplay};
ghost use Rattle.hyperball.specs.Streams.{reads_of, writes_of};
ghost use Rattle.hyperball.specs.Whole.{ReadsFew};
ghost use Rattle.hyperball.specs.Words.{IsFlag};

use crate::cli::Host;
use crate::cli::arguments::{Texts, option, progress, subcommand_of};
use crate::cli::options::{PARTS_HELP, job_arguments, job_input_of, wants_progress};
use crate::fault::Fault;
use crate::progress::{ProgressTeller, ProgressWatch};
use crate::whole::{Form, parts_of, read_whole};
use ball_model::{CountedRead, CountedWrite};
use clap::builder::ValueParser;
use clap::{ArgMatches, Command, value_parser};
use job::JobInput;
use std::alloc::{AllocError, AllocGlobal, Global};
use std::hash::RandomState;
use world::replay::{ReplayOptions, replay_watched};

const ABOUT: &str = "Reads an edge list and a script on standard input and writes the answers";

const LONG_ABOUT: &str =
    "Reads an edge list, a line of exactly %%, and a script on standard input, and writes what
each command of the script answers on standard output.

A script plays a cluster by hand: the nodes are the replicas of partitions, and each command is
one step of one node, done at once. It shows what a superstep does, what a message does that
comes late, twice or never, and how a worker that was lost comes back.

With --counted a list of counted vertices and a second line %% come before the script.";

const AFTER: &str = "Example:
  printf 'a\\tb\\nb\\tc\\n%%%%\\nsend 0.0 1\\ndeliver 0 1.0\\nclose 1.0\\nshow 1.0\\n' |
    hyperball replay --log2m 4 --parts 2
  answers
    sent 0 0 0 1 2 1
    new
    closed 1
    node 1.0 1 open
    row 1 11.780376 0.665022 0.665022 00000000000001000000000000000300

Commands, one on a line with one space between words, and their answers. P.K is replica K of
partition P, which has every vertex that leaves P when divided by the number of partitions. M is
a message and C a copy, each numbered from 0 in the order that they were made; T is a superstep.
  send P.K Q      makes a message to partition Q of what changed at the node's superstep:
                  sent M T P Q, how many vertices changed, how many are in the message
  deliver M P.K   brings a message to a node, once, again or never:
                  new, known, old, too-early T, not-mine
  close P.K       takes the node on by a superstep, once it has heard every other partition:
                  closed T, waiting Q, finished
  keep P.K        keeps a checkpoint of the node in place of its last: kept T
  restart P.K     sets the node back to its checkpoint, or to the start: restarted T
  copy P.K        sets a copy of the node aside: copied C T
  recover P.K C   joins a copy into the node: merged T, not-mine
  show P.K        node P.K T, open or go-on or stable or limit, and T:Q for each message held;
                  then for each vertex: row, its number, reachable, harmonic centrality, sum of
                  distances, and its registers to base 16
Each may also answer: refused no-node, no-target, no-message or no-copy.
Empty lines and lines that begin with # are skipped.

Exit status:
  0  the answers were written, or help was asked for
  1  a fault, in one line on standard error; nothing was written, unless memory was refused
     or the output failed: then a beginning of the answers may have been written
  2  words that are no command";

const REPLICAS_HELP: &str = "Replicas of each partition, 1 to 4 [default: 1]";

// How many replicas each partition has, if that is not said.
const REPLICAS: u8 = 1;

/// The arguments of a replay.
#[derive(Clone, Copy)]
pub(crate) struct ReplayArgs {
    /// The options.
    pub(crate) options: ReplayOptions,
    /// Whether a list of counted vertices follows the edge list.
    pub(crate) counted: bool,
    /// Whether progress is to be reported.
    pub(crate) progress: bool,
}

/// The subcommand replay, with parsers of estimates and of delimiters.
pub(crate) fn replay_command<'a>(
    alloc: Global,
    estimates: ValueParser<'a>,
    delimiters: ValueParser<'a>,
) -> Result<Command<'a>, AllocError>
    ensures { IfOk result (IsApp (replay_app
        (record { estimates = estimates.entry; delimiters = delimiters.entry }))) }
{
    let texts = Texts {
        name: "replay",
        about: ABOUT,
        long_about: LONG_ABOUT,
        after_help: AFTER,
    };
    let job = job_arguments(PARTS_HELP, estimates, delimiters);
    let replicas = option("replicas", REPLICAS_HELP, value_parser!(u8));
    subcommand_of(alloc, &texts, &job, &[replicas, progress()])
}

/// The arguments of a replay, as `clap` has checked them.
pub(crate) fn replay_args_of(matches: &ArgMatches<'_>) -> ReplayArgs
    ensures options { (w : ReplayArgs) → AreReplayOptionsOf (rows_of (found_of matches.now)) w →
        result ≡ w }
    ensures progress { (b : Bool) → IsFlag (rows_of (found_of matches.now)) (codes "progress") b →
        result.progress ≡ b }
{
    let JobInput {
        options: job,
        counted,
    } = job_input_of(matches, false, 0);
    let options = ReplayOptions {
        log2m: job.log2m,
        seed: job.seed,
        parts: job.parts,
        limit: job.limit,
        replicas: matches.get_one("replicas").unwrap_or(REPLICAS),
        estimate: job.estimate,
        delimiter: job.delimiter,
    };
    ReplayArgs {
        options,
        counted,
        progress: wants_progress(matches),
    }
}

/// Writes the answers to the script in the input.
///
/// `Input(Read)` is answered if a call of the reader failed and at no other time, `Input(Size)` only if there are more
/// than 2^26 bytes, and `Lacks` exactly if the input, read whole, lacks that part. After `Replay(Memory)` and
/// `Replay(Write)` a beginning of the answers may be written; after every other fault nothing was written.
pub(crate) fn replay_by<H: AllocGlobal, T: ProgressTeller, R: CountedRead, W: CountedWrite>(
    host: &Host<'_, H, T>,
    state: RandomState,
    args: &ReplayArgs,
    reader: &mut R,
    writer: &mut W,
) -> Result<(), Fault>
    ensures done { OnOk result (DoesReplay args.now
        (reads_of R.remaining R.failed_calls R.sure_calls reader.old reader.new)
        (writes_of W.contents W.failed_calls writer.old writer.new)) }
    ensures fault { IfErr result (FailsReplay args.now
        (reads_of R.remaining R.failed_calls R.sure_calls reader.old reader.new)
        (writes_of W.contents W.failed_calls writer.old writer.new)) }
    ensures few { ReadsFew (R.remaining reader.old) (R.remaining reader.new) }
{
    let alloc = host.rt.alloc();
    let input = read_whole(alloc, reader)?;
    let form = Form {
        list: args.counted,
        script: true,
    };
    let parts = parts_of(&input, form)?;
    let script = parts.script.unwrap();
    let watch = ProgressWatch::new(host.teller);
    replay_watched(
        alloc,
        state,
        parts.edges,
        parts.list,
        script,
        &args.options,
        &watch,
        writer,
    )?;
    watch.after_replay();
    Ok(())
}
