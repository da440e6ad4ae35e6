//! A script over an edge list, and its answers.

ghost use Rattle.std.specs.Prelude.{◌≡◌, IfErr, IfOk, IsOk, OnOk};
ghost use Rattle.ball_model.specs.Input.{IsPlain};
ghost use Rattle.ball_model.specs.Job.{Job};
ghost use Rattle.ball_model.specs.RunText.{ArePlain, list_in, network_in};
ghost use Rattle.ball_model.specs.World.{World as Defined, after_event};
ghost use Rattle.ball_model.specs.WorldText.{AppendsReplay, HasCommands, event_text, events_text};
ghost use Rattle.ball_model.specs.WorldText.{script_of};
ghost use Rattle.job.specs.Job.{numbers_asked, settings_of};
ghost use Rattle.world.specs.Replay.{AppendsSomeReplay, FailsOfReplay, IsBegun, IsEarly, IsReady};
ghost use Rattle.world.specs.Replay.{RefusesCommands, RefusesStart, replay_job, replay_of};
ghost use Rattle.world.specs.Shows.{Shows};
ghost use Rattle.world.specs.Tell.{Tells};

use crate::World;
use crate::bytes::Bytes;
use crate::script::{first_fault, read_script};
use crate::tell::{TellError, is_shown, is_want, node_of, show_close, tell_node, tell_outcome};
use ball_model::plan::MOST_REPLICAS;
use ball_model::world::Event;
use ball_model::{CountedWrite, Estimate, PlanError};
use edgelist::{CountedError, Delimiter, EdgeError, Graph};
use job::{JobOptions, NetworkError, Unwatched, Watch};
use std::alloc::{AllocError, Global};
use std::hash::RandomState;
use thiserror::Error;

/// What is asked of a replay.
#[derive(Clone, Copy, Debug, PartialEq, Eq)]
pub struct ReplayOptions {
    /// The binary logarithm of the number of registers of a counter.
    pub log2m: u8,
    /// The seed under which vertices are hashed.
    pub seed: u64,
    /// The number of partitions that vertices are dealt out to.
    pub parts: u16,
    /// The superstep at which a node stops at the latest.
    pub limit: u32,
    /// The number of replicas of each partition, from 1 to [`MOST_REPLICAS`].
    pub replicas: u8,
    /// How the estimates of counters are made.
    pub estimate: Estimate,
    /// What is between the two fields of a line of the edge list.
    pub delimiter: Delimiter,
}

impl ReplayOptions {
    /// What is asked of its job, whose edge list is no large one.
    pub fn job(&self) -> JobOptions
        ensures { result ≡ replay_job self.now }
    {
        JobOptions {
            log2m: self.log2m,
            seed: self.seed,
            parts: self.parts,
            limit: self.limit,
            estimate: self.estimate,
            delimiter: self.delimiter,
            large: false,
            threads: 0,
        }
    }
}

/// Why a replay gives no answers, or not all of them, in the order of the checks.
#[derive(Clone, Copy, Debug, PartialEq, Eq, Error)]
pub enum ReplayError {
    /// There are not from 1 to 4 replicas.
    #[error("an option does not fit the job")]
    Options,
    /// The first line of the script that is no command, from 1 on.
    #[error("line {line} of the script is no command")]
    Script { line: u64 },
    /// The edge list is refused.
    #[error("{0}")]
    Edges(EdgeError),
    /// The list of counted vertices is refused.
    #[error("{0}")]
    Counted(CountedError),
    /// There is no such plan.
    #[error("{0}")]
    Plan(PlanError),
    /// Memory was refused. The answers of earlier events may be written.
    #[error("out of memory")]
    Memory,
    /// A write failed. The answers of earlier events may be written.
    #[error("the output cannot be written")]
    Write,
}

impl From<NetworkError> for ReplayError {
    ghost use Rattle.world.specs.Replay.{told_network};

    ghost from_gives = { λ fault e. e ≡ told_network fault };

    fn from(fault: NetworkError) -> ReplayError {
        match fault {
            NetworkError::Edges(fault) => ReplayError::Edges(fault),
            NetworkError::Counted(fault) => ReplayError::Counted(fault),
        }
    }
}

impl From<PlanError> for ReplayError {
    ghost use Rattle.world.specs.declared.replay.ReplayError.TheVariants.{Plan};

    ghost from_gives = { λ fault e. e ≡ Plan fault };

    fn from(fault: PlanError) -> ReplayError {
        ReplayError::Plan(fault)
    }
}

impl From<AllocError> for ReplayError {
    ghost use Rattle.world.specs.declared.replay.ReplayError.TheVariants.{Memory};

    ghost from_gives = { λ _ e. e ≡ Memory };

    fn from(_fault: AllocError) -> ReplayError {
        ReplayError::Memory
    }
}

impl From<TellError> for ReplayError {
    ghost use Rattle.world.specs.Replay.{told_tell};

    ghost from_gives = { λ fault e. e ≡ told_tell fault };

    fn from(fault: TellError) -> ReplayError {
        match fault {
            TellError::Memory => ReplayError::Memory,
            TellError::Write => ReplayError::Write,
        }
    }
}

// The first fault of the options and the script. It takes no memory.
fn check_commands(script: &[u8], options: &ReplayOptions) -> Result<(), ReplayError>
    ensures ok { OnOk result (HasCommands (replay_of options.now) script.now) }
    ensures refused { IfErr result (RefusesCommands (replay_of options.now) script.now) }
{
    if options.replicas < 1 || MOST_REPLICAS < options.replicas {
        return Err(ReplayError::Options);
    }
    match first_fault(script) {
        Some(line) => Err(ReplayError::Script { line }),
        None => Ok(()),
    }
}

// The events of a script, and the world of a graph at its start. Memory is taken once there is a plan.
fn begin(
    alloc: Global,
    graph: &Graph,
    script: &[u8],
    options: &ReplayOptions,
) -> Result<(Vec<Event>, World), ReplayError>
    ensures ok { IsOk (script_of script.now) → IfOk result (λ both. IsBegun
        (replay_of options.now) graph.now script.now both.0.items both.1) }
    ensures refused { IfErr result (RefusesStart (numbers_asked (replay_job options.now)) graph.now) }
{
    let plan = options.job().plan(graph)?;
    let events = read_script(alloc, script)?;
    let world = World::new(alloc, graph, &plan, options.replicas)?;
    Ok((events, world))
}

/// A replay that is watched: where its memory is from, what is asked of it, and who watches.
#[derive(Clone, Copy)]
pub(crate) struct WatchedReplay<'a, V> {
    alloc: Global,
    options: &'a ReplayOptions,
    watch: &'a V,
}

impl<'a, V: Watch> WatchedReplay<'a, V> {
    // The events of a script, and the world of an edge list at its start.
    fn prepare(
        &self,
        state: RandomState,
        edges: &[u8],
        counted: Option<&[u8]>,
        script: &[u8],
    ) -> Result<(Vec<Event>, World), ReplayError>
        ensures ok { IfOk result (λ both. IsReady (replay_of self.now.options.now) edges.now
            (list_in counted.entry) script.now both.0.items both.1) }
        ensures refused { IfErr result (IsEarly (replay_of self.now.options.now) edges.now
            (list_in counted.entry) script.now) }
    {
        check_commands(script, self.options)?;
        let job = self.options.job();
        let read = job.read_network(self.alloc, state, &mut Bytes::new(edges), counted)?;
        self.watch.after_read(read.records, read.graph.vertices());
        begin(self.alloc, &read.graph, script, self.options)
    }

    // An event happens, and its answer is written.
    fn tell_event<W: CountedWrite>(
        &self,
        world: &mut World,
        event: Event,
        line: &mut Vec<u8>,
        writer: &mut W,
    ) -> Result<(), TellError>
        ensures told { (j : Job) (w : Defined) → Shows j w world.old →
            Tells W.contents W.failed_calls writer.old writer.new (event_text j w event) result }
        ensures shows { (j : Job) (w : Defined) → Shows j w world.old →
            OnOk result (Shows j (after_event j w event) world.new) }
    {
        let outcome = world.apply(self.alloc, event);
        if is_want(outcome) {
            return Err(TellError::Memory);
        }
        show_close(world, event, outcome, self.watch);
        if is_shown(outcome) {
            return tell_node(world, node_of(event), line, writer);
        }
        tell_outcome(outcome, line, writer)
    }

    // Events happen one after the other, and the answer of each is written. The watch is called for each superstep that is
    // closed.
    fn tell_events<W: CountedWrite>(
        &self,
        world: &mut World,
        events: &[Event],
        writer: &mut W,
    ) -> Result<(), TellError>
        ensures { (j : Job) (w : Defined) → Shows j w world.old →
            Tells W.contents W.failed_calls writer.old writer.new
            (events_text j w events.now) result }
    {
        let mut line = Vec::new(self.alloc);
        for event in events {
            self.tell_event(world, *event, &mut line, writer)?;
        }
        Ok(())
    }
}

/// Reads an edge list, makes the world of its job, and writes what the events of a script answer.
///
/// With a list of `counted` vertices only those are counted. A script has a command on each line: `send P.K Q`,
/// `deliver M P.K`, `close P.K`, `keep P.K`, `restart P.K`, `copy P.K`, `recover P.K C` and `show P.K`, where `P.K` is
/// replica K of partition P, Q a partition, and M and C the numbers of a message and of a copy, from 0 on. Empty lines
/// and lines that begin with `#` are skipped.
///
/// The errors come in the order of [`ReplayError`]; options and the whole script are checked before anything is read or
/// written, whatever the edge list is, and without memory. So is the plan, before memory is asked for whose refusal is
/// answered as `Memory`. After `Memory` and `Write` a beginning of the answers is written, after every other error
/// nothing. `Edges(Read)` is not answered, and `Write` exactly if a call of the writer failed. What is said of the edge
/// list holds for plain bytes: an LF after each CR. Of other bytes the answers are those of a job of these options over
/// some network, from its start.
///
/// Memory is the graph, a replica for each node, 32 bytes a command, and what the events keep: the bytes of each
/// message, a replica's rows for each copy and checkpoint, and the longest line of the answers.
///
/// For a library's user: the program calls [`replay_watched`].
pub fn replay<W: CountedWrite>(
    alloc: Global,
    state: RandomState,
    edges: &[u8],
    counted: Option<&[u8]>,
    script: &[u8],
    options: &ReplayOptions,
    writer: &mut W,
) -> Result<(), ReplayError>
    ensures ok { ArePlain edges.now (list_in counted.entry) →
        OnOk result (AppendsReplay (replay_of options.now) edges.now (list_in counted.entry)
        script.now (W.contents writer.old) (W.contents writer.new)) }
    ensures some { OnOk result (AppendsSomeReplay (replay_of options.now) script.now
        (W.contents writer.old) (W.contents writer.new)) }
    ensures edges { IsPlain edges.now →
        OnOk result (IsOk (network_in (settings_of (replay_job options.now)) edges.now)) }
    ensures commands { OnOk result (HasCommands (replay_of options.now) script.now) }
    ensures counted { OnOk result (W.failed_calls writer.new ≡ W.failed_calls writer.old) }
    ensures failed { IfErr result (FailsOfReplay (replay_of options.now) edges.now
        (list_in counted.entry) script.now (W.contents writer.old) (W.contents writer.new)
        (W.failed_calls writer.old) (W.failed_calls writer.new)) }
{
    replay_watched(
        alloc, state, edges, counted, script, options, &Unwatched, writer,
    )
}

/// Replays a script as [`replay`] says, with a watch that is called once the edge list is read, before there is a plan,
/// and after each close that went on.
pub fn replay_watched<W: CountedWrite, V: Watch>(
    alloc: Global,
    state: RandomState,
    edges: &[u8],
    counted: Option<&[u8]>,
    script: &[u8],
    options: &ReplayOptions,
    watch: &V,
    writer: &mut W,
) -> Result<(), ReplayError>
    ensures ok { ArePlain edges.now (list_in counted.entry) →
        OnOk result (AppendsReplay (replay_of options.now) edges.now (list_in counted.entry)
        script.now (W.contents writer.old) (W.contents writer.new)) }
    ensures some { OnOk result (AppendsSomeReplay (replay_of options.now) script.now
        (W.contents writer.old) (W.contents writer.new)) }
    ensures edges { IsPlain edges.now →
        OnOk result (IsOk (network_in (settings_of (replay_job options.now)) edges.now)) }
    ensures commands { OnOk result (HasCommands (replay_of options.now) script.now) }
    ensures counted { OnOk result (W.failed_calls writer.new ≡ W.failed_calls writer.old) }
    ensures failed { IfErr result (FailsOfReplay (replay_of options.now) edges.now
        (list_in counted.entry) script.now (W.contents writer.old) (W.contents writer.new)
        (W.failed_calls writer.old) (W.failed_calls writer.new)) }
{
    let replay = WatchedReplay {
        alloc,
        options,
        watch,
    };
    let (events, mut world) = replay.prepare(state, edges, counted, script)?;
    replay.tell_events(&mut world, &events, writer)?;
    Ok(())
}
