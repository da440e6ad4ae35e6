//! Runs, each from bytes to bytes: a thread for each node, and more of them in large supersteps and for the figures.

ghost use Rattle.std.specs.Prelude.{◌≡◌, ◌≢◌, Err, false, OnOk, OnErr, IfOk, IfErr, IsOk};
ghost use Rattle.std.specs.Io.KnownBytes.{Appends, Keeps};
ghost use Rattle.ball_model.specs.Job.{IsJob, job_of};
ghost use Rattle.ball_model.specs.PlanValue.{mixing_of};
ghost use Rattle.ball_model.specs.Report.{report_of};
ghost use Rattle.ball_model.specs.RunText.{network_in};
ghost use Rattle.ball_model.specs.Streams.{PutsFront, Rises, RisesByOne};
ghost use Rattle.job.specs.Job.{settings_of};
ghost use Rattle.edgelist.specs.Reading.{CountsOne};
ghost use Rattle.graph.specs.Records.{ForPlain};
ghost use Rattle.workers.specs.Job.{AreDone};
ghost use Rattle.workers.specs.Options.{are_in_limits, job_asked};
ghost use Rattle.workers.specs.Run.{AddsFront, AddsReport, IsFaultIn, IsOfEnds, IsRunFault};
ghost use Rattle.workers.specs.Run.{IsRunRefusal, RefusesEdges, WherePlain};

use crate::gate::{Gate, UnwatchedGate};
use crate::nodes::run_job;
use crate::options::RunOptions;
use crate::planned::plan_parts;
use crate::threads::share_of;
use ball_model::{CountedRead, CountedWrite, CountingWriter, NodeId, Plan, PlanError};
use edgelist::{CountedError, EdgeError, Graph};
use job::{NetworkError, Watch};
use replica::Replica;
use report::{Pages, write_report_by};
use std::alloc::{AllocError, AllocGlobal};
use std::hash::RandomState;
use std::sync::Wait;
use std::thread::Threads;
use thiserror::Error;

/// Why a run gives no report, in the order of the checks.
#[derive(Clone, Copy, Debug, PartialEq, Eq, Error)]
pub enum RunError {
    /// Replicas, entries, keep or patience are out of their limits, or an order names no node of the run.
    #[error("an option does not fit the job")]
    Options,
    /// The edge list is refused.
    #[error(transparent)]
    Edges(EdgeError),
    /// The list of counted vertices is refused.
    #[error(transparent)]
    Counted(CountedError),
    /// There is no such plan.
    #[error(transparent)]
    Plan(PlanError),
    /// Every node of the partition was lost. It is the least such partition.
    #[error("every replica of partition {part} was lost")]
    PartitionLost {
        part: u16,
    },
    /// A node found the book full.
    #[error("the book is full")]
    BookFull,
    /// Memory was refused, or a thread.
    #[error("out of memory")]
    Memory,
    /// A node waited in vain. It is the least such node.
    #[error("node {}.{} waited in vain at superstep {superstep} for partition {source}", .node.part, .node.replica)]
    Starved {
        node: NodeId,
        superstep: u32,
        source: u16,
    },
    /// A write failed.
    #[error("the output cannot be written")]
    Write,
}

impl From<NetworkError> for RunError {
    ghost use Rattle.workers.specs.Run.{network_fault};

    ghost from_gives = { λ fault e. e ≡ network_fault fault };

    fn from(fault: NetworkError) -> RunError {
        match fault {
            NetworkError::Edges(fault) => RunError::Edges(fault),
            NetworkError::Counted(fault) => RunError::Counted(fault),
        }
    }
}

impl From<PlanError> for RunError {
    ghost use Rattle.workers.specs.declared.runs.RunError.TheVariants.{Plan};

    ghost from_gives = { λ fault e. e ≡ Plan fault };

    fn from(fault: PlanError) -> RunError {
        RunError::Plan(fault)
    }
}

impl From<AllocError> for RunError {
    ghost use Rattle.workers.specs.declared.runs.RunError.TheVariants.{Memory};

    ghost from_gives = { λ _ e. e ≡ Memory };

    fn from(_fault: AllocError) -> RunError {
        RunError::Memory
    }
}

// Replicas of a run that is over give back what they need no more. Its board, which held tables of theirs, is gone.
fn give_back(replicas: &mut [Replica])
    ensures { replicas.new ≡ replicas.old }
{
    for i in 0..replicas.len() {
        replicas[i].give_back();
    }
}

// The text of the report of replicas at the end of their run, which first give back what they need no more. At most
// `threads` threads make it, or all processors if that is 0. The error is that memory was refused.
fn replicas_text<T: AllocGlobal + Threads + Sync>(
    rt: &T,
    graph: &Graph,
    plan: &Plan,
    mut replicas: Vec<Replica>,
    threads: usize,
) -> Result<Pages, AllocError>
    requires job { IsJob (job_of graph.now.graph plan.now) }
    requires done { AreDone (job_of graph.now.graph plan.now) replicas.items }
    ensures { IfOk result (λ text. text ≡
        report_of (mixing_of plan.now) graph.now.graph graph.now.labels plan.now.limit) }
{
    give_back(&mut replicas);
    let mut text = CountingWriter::new(Pages::new(rt.alloc()));
    match write_report_by(rt, &mut text, graph, &replicas, threads) {
        Ok(()) => Ok(text.into_inner()),
        Err(_) => Err(AllocError),
    }
}

// Writes a text.
fn write_text<W: CountedWrite>(writer: &mut W, text: &Pages) -> Result<(), RunError>
    ensures done { OnOk result (Appends (W.contents writer.old) (W.contents writer.new) text.now) }
    ensures front { OnErr result (
        PutsFront (W.contents writer.old) (W.contents writer.new) text.now) }
    ensures kind { IfErr result (λ e. e ≡ RunError.Write) }
    ensures counted { OnOk result (W.failed_calls writer.new ≡ W.failed_calls writer.old) }
    ensures failed { OnErr result (
        RisesByOne (W.failed_calls writer.old) (W.failed_calls writer.new)) }
{
    if text.write_to(writer) {
        Ok(())
    } else {
        Err(RunError::Write)
    }
}

/// Reads an edge list and writes its report. A thread for each replica of each partition makes the supersteps; if many
/// vertices changed, it shares the work with others, so that together they use as many as the options say (or four
/// times as many, for the largest supersteps, if all processors may work). As many as the options say then make the
/// figures.
///
/// With a list of `counted` vertices only those are counted; the list is read after the edge list, and its lines are as
/// there, one label in each. The report is built in memory and then written, so nothing is written unless the answer is
/// Ok or `Write`, and after `Write` a beginning of it. `Edges(Read)` is answered if a call of the reader failed (while
/// failures can be counted) and at no other time, `Write` exactly if one of the writer did. What is said of the input
/// holds for plain bytes: an LF after each CR. (No failed call of the reader is made again; no clause says so.) Several
/// threads read some MiB beyond a record that is refused, and answer `Edges(Read)` if that fails.
///
/// In this order: `Options`, before anything is read; `Edges`, `Counted` and `Plan`; if some partition has no node that
/// reached the end `PartitionLost`, `BookFull`, `Memory` and `Starved`, the first that the nodes' ends give; then
/// `Write`. `Memory` is also answered if the run's own growth is refused, of the report's text too. Which of the nodes'
/// faults it is may depend on the schedule, but the report does not: it is that of the input, whatever nodes were lost
/// or started anew.
///
/// Memory is some two times 2^log2m bytes and 40 bytes of figures and weights a vertex and replica; if snapshots are
/// kept (by a lone node only if it is to start anew), 2^log2m and 32 bytes more, and of each snapshot the accumulators
/// if what is heard has raised a row; 4 bytes a vertex and an edge of the index that says whom an edge leads to; if
/// there are several partitions, the rows that changed, in up to three tables, and in all of the run if a snapshot of
/// each superstep is not kept; the graph and its parts; and the report.
///
/// For a library's user: the program calls [`run_watched`].
pub fn run<T: AllocGlobal + Threads + Wait + Sync, R: CountedRead, W: CountedWrite, G: Gate + Sync>(
    rt: &T,
    state: RandomState,
    reader: &mut R,
    counted: Option<&[u8]>,
    writer: &mut W,
    options: &RunOptions,
    gate: &G,
) -> Result<(), RunError>
    ensures ok { OnOk result (WherePlain options.now (R.remaining reader.old) counted.entry
        (AddsReport W.contents writer.old writer.new)) }
    ensures refused { WherePlain options.now (R.remaining reader.old) counted.entry
        (λ s input list. IfErr result (IsRunRefusal s input list)) }
    ensures edges { ForPlain (R.remaining reader.old) (λ input.
        OnOk result (IsOk (network_in (settings_of (job_asked options.now)) input))) }
    ensures of_edges { ForPlain (R.remaining reader.old) (λ input.
        IfErr result (RefusesEdges (settings_of (job_asked options.now)) input)) }
    ensures read { result ≡ Err (RunError.Edges EdgeError.Read) →
        Rises (R.failed_calls reader.old) (R.failed_calls reader.new) }
    ensures failed { CountsOne (R.failed_calls reader.old) (R.failed_calls reader.new) →
        result ≡ Err (RunError.Edges EdgeError.Read) }
    ensures write { result ≡ Err RunError.Write →
        RisesByOne (W.failed_calls writer.old) (W.failed_calls writer.new) }
    ensures written { result ≢ Err RunError.Write →
        W.failed_calls writer.new ≡ W.failed_calls writer.old }
    ensures limits { are_in_limits options.now ≡ false → result ≡ Err RunError.Options }
    ensures fault { IfErr result (IsFaultIn options.now) }
    ensures first { IfErr result (λ e. IsOfEnds e →
        WherePlain options.now (R.remaining reader.old) counted.entry
        (λ s input list. IsRunFault options.now s input list e)) }
    ensures untouched { IfErr result (λ e. e ≢ RunError.Write →
        Keeps (W.contents writer.old) (W.contents writer.new)) }
    ensures begun { result ≡ Err RunError.Write →
        WherePlain options.now (R.remaining reader.old) counted.entry
        (AddsFront W.contents writer.old writer.new) }
{
    let gate = UnwatchedGate::new(gate);
    run_watched(rt, state, reader, counted, writer, options, &gate)
}

/// Makes a run as [`run`] says, by a gate that also hears how it gets on: while the edge list is read and once it is
/// read, once each node's first replica is made, and each time a node has gone on.
pub fn run_watched<
    T: AllocGlobal + Threads + Wait + Sync,
    R: CountedRead,
    W: CountedWrite,
    G: Gate + Watch + Sync,
>(
    rt: &T,
    state: RandomState,
    reader: &mut R,
    counted: Option<&[u8]>,
    writer: &mut W,
    options: &RunOptions,
    gate: &G,
) -> Result<(), RunError>
    ensures ok { OnOk result (WherePlain options.now (R.remaining reader.old) counted.entry
        (AddsReport W.contents writer.old writer.new)) }
    ensures refused { WherePlain options.now (R.remaining reader.old) counted.entry
        (λ s input list. IfErr result (IsRunRefusal s input list)) }
    ensures edges { ForPlain (R.remaining reader.old) (λ input.
        OnOk result (IsOk (network_in (settings_of (job_asked options.now)) input))) }
    ensures of_edges { ForPlain (R.remaining reader.old) (λ input.
        IfErr result (RefusesEdges (settings_of (job_asked options.now)) input)) }
    ensures read { result ≡ Err (RunError.Edges EdgeError.Read) →
        Rises (R.failed_calls reader.old) (R.failed_calls reader.new) }
    ensures failed { CountsOne (R.failed_calls reader.old) (R.failed_calls reader.new) →
        result ≡ Err (RunError.Edges EdgeError.Read) }
    ensures write { result ≡ Err RunError.Write →
        RisesByOne (W.failed_calls writer.old) (W.failed_calls writer.new) }
    ensures written { result ≢ Err RunError.Write →
        W.failed_calls writer.new ≡ W.failed_calls writer.old }
    ensures limits { are_in_limits options.now ≡ false → result ≡ Err RunError.Options }
    ensures fault { IfErr result (IsFaultIn options.now) }
    ensures first { IfErr result (λ e. IsOfEnds e →
        WherePlain options.now (R.remaining reader.old) counted.entry
        (λ s input list. IsRunFault options.now s input list e)) }
    ensures untouched { IfErr result (λ e. e ≢ RunError.Write →
        Keeps (W.contents writer.old) (W.contents writer.new)) }
    ensures begun { result ≡ Err RunError.Write →
        WherePlain options.now (R.remaining reader.old) counted.entry
        (AddsFront W.contents writer.old writer.new) }
{
    if !options.are_in_limits() {
        return Err(RunError::Options);
    }
    let job = options.job();
    let read = job.read_network_by(rt, gate, state, reader, counted)?;
    let graph = &read.graph;
    gate.after_read(read.records, graph.vertices());
    let bare = job.bare_plan(graph)?;
    let share = share_of(job.threads_for(rt), bare.parts(), 1);
    let planned = plan_parts(rt, graph, &bare, share)?;
    let plan = planned.plan;
    let replicas = run_job(rt, graph, planned, options, gate)?;
    let threads = usize::from(job.threads);
    let text = replicas_text(rt, graph, &plan, replicas, threads)?;
    write_text(writer, &text)
}
