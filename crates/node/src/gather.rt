//! The report of the checkpoints of all partitions.

ghost use Rattle.std.specs.Prelude.{◌≡◌, ◌≢◌, ℕ, ◌+◌, ◌<◌, ◌≤◌, length, List, ◌++◌, ◌∷◌, []};
ghost use Rattle.std.specs.Prelude.{Option, Some, Err, IfErr, IfOk, OnErr, OnOk, false, true};
ghost use Rattle.std.specs.Arc.{arc_value};
ghost use Rattle.std.specs.Io.KnownBytes.{Consumes, IsAtEnd, Keeps};
ghost use Rattle.ball_model.specs.Job.{Job, IsJob, job_of, part_of};
ghost use Rattle.ball_model.specs.State.{State};
ghost use Rattle.ball_model.specs.Streams.{RisesByOne};
ghost use Rattle.checkpoint.specs.Reading.{most_checkpoint_bytes};
ghost use Rattle.graph.specs.Feeding.{feeds_of};
ghost use Rattle.job.specs.Job.{settings_of};
ghost use Rattle.report.specs.Ready.{are_ready};
ghost use Rattle.node.specs.Gathering.{Gathers, GathersJob, ReadsAll, ReadsCheckpoint, part_line};
ghost use Rattle.node.specs.Gathering.{part_text};
ghost use Rattle.node.specs.NoReport.{HasNoReport, IsNoReplica, IsNoReport, IsUnwritten};
ghost use Rattle.node.specs.NoReport.{WritesFront, WritesFrontOfJob, checkpoint_fault, part_length};
ghost use Rattle.job.specs.Stream.{FailsAs};
ghost use Rattle.node.specs.Stream.{ReadsInLine};
ghost use Rattle.job.specs.declared.error.InputError.TheVariants as no_job;

use crate::command::size;
use crate::error::GatherError;
use crate::input::{Body, Line, read_body, read_line};
use crate::limits::longest_checkpoint;
use crate::session::read_back;
use crate::watched::show_turn;
use ball_model::{CountedRead, CountedWrite, Plan};
use checkpoint::KeepError;
use edgelist::{Feeds, Graph, Part};
use job::{JobInput, NextByte, Watch, next_of, read_job};
use replica::Replica;
use report::{report_ready, write_report_by};
use std::alloc::{AllocError, AllocGlobal, Global};
use std::hash::RandomState;
use std::sync::Arc;
use std::thread::Threads;
use world::script::cut;

// The length in a line `part L`.
fn length_in(line: &[u8]) -> Option<u64>
    ensures value { result ≡ part_length line.now }
    ensures spelled { (n : ℕ) → result ≡ Some n → line.now ++ 10 ∷ [] ≡ part_line n }
{
    let (word, length) = cut(b' ', line)?;
    if word == b"part".as_slice() {
        size(length)
    } else {
        None
    }
}

// The length of the checkpoint of the part that follows. Its line is read into `line`, which is empty.
fn read_length<R: CountedRead>(
    reader: &mut R,
    part: &Part,
    line: &mut Vec<u8>,
) -> Result<u64, GatherError>
    requires { line.old.items ≡ [] }
    ensures read { IfOk result (λ n.
        Consumes (R.remaining reader.old) (R.remaining reader.new) (part_line n)) }
    ensures refused { IfErr result
        (IsNoReplica part.now (R.remaining reader.old) (R.remaining reader.new)) }
    ensures memory { result ≡ Err GatherError.Memory →
        ReadsInLine (R.remaining reader.old) (R.remaining reader.new) }
    ensures failed { FailsAs R.failed_calls reader.old reader.new result (Err GatherError.Read) }
{
    let p = part.partition();
    match read_line(reader, line) {
        Line::Whole => {}
        Line::None => return Err(GatherError::Missing { part: p }),
        Line::Cut => return Err(GatherError::Cut { part: p }),
        Line::Long => return Err(GatherError::Line { part: p }),
        Line::Memory => return Err(GatherError::Memory),
        Line::Failed => return Err(GatherError::Read),
    }
    match length_in(line) {
        Some(length) => Ok(length),
        None => Err(GatherError::Line { part: p }),
    }
}

// The bytes of the checkpoint of the part that follows, into `bytes`, which is empty.
fn read_bytes<R: CountedRead>(
    reader: &mut R,
    part: &Part,
    bytes: &mut Vec<u8>,
) -> Result<(), GatherError>
    requires { bytes.old.items ≡ [] }
    ensures read { OnOk result (
        Consumes (R.remaining reader.old) (R.remaining reader.new) (part_text bytes.new.items)) }
    ensures few { OnOk result (
        length bytes.new.items ≤ most_checkpoint_bytes part.now part.now.plan.limit) }
    ensures refused { IfErr result
        (IsNoReplica part.now (R.remaining reader.old) (R.remaining reader.new)) }
    ensures failed { FailsAs R.failed_calls reader.old reader.new result (Err GatherError.Read) }
{
    let p = part.partition();
    let length = read_length(reader, part, bytes)?;
    if longest_checkpoint(part) < length {
        return Err(GatherError::Length { part: p });
    }
    bytes.clear();
    match read_body(reader, length, bytes) {
        Body::Whole => Ok(()),
        Body::Cut => Err(GatherError::Cut { part: p }),
        Body::Memory => Err(GatherError::Memory),
        Body::Failed => Err(GatherError::Read),
    }
}

// What a refusal of the checkpoint of partition `p` is answered as.
fn checkpoint_fault(p: u16, error: KeepError) -> GatherError
    ensures told { result ≡ checkpoint_fault p error }
    ensures read { result ≢ GatherError.Read }
{
    match error {
        KeepError::Memory => GatherError::Memory,
        _ => GatherError::Checkpoint { part: p, error },
    }
}

// Adds a replica to others. The error is that memory was refused.
fn put(replicas: &mut Vec<Replica>, replica: Replica) -> Result<(), AllocError>
    ensures { OnOk result (replicas.new.items ≡ replicas.old.items ++ replica ∷ []) }
{
    replicas.push(replica)?;
    Ok(())
}

// Whether the input is at its end.
fn read_end<R: CountedRead>(reader: &mut R) -> Result<(), GatherError>
    ensures end { OnOk result (IsAtEnd (R.remaining reader.new)) }
    ensures kept { OnOk result (Consumes (R.remaining reader.old) (R.remaining reader.new) []) }
    ensures refused { (j : Job) (replicas : List State) (left : Option (List ℕ)) →
        ReadsAll j j.plan.parts left (R.remaining reader.old) replicas →
        IfErr result (IsNoReport j left (R.remaining reader.new)) }
    ensures unwritten { result ≢ Err GatherError.Write }
    ensures memory { result ≢ Err GatherError.Memory }
    ensures failed { FailsAs R.failed_calls reader.old reader.new result (Err GatherError.Read) }
{
    match next_of(reader) {
        NextByte::End => Ok(()),
        NextByte::Byte(_) => Err(GatherError::Trailing),
        NextByte::Failed => Err(GatherError::Read),
    }
}

// Whether replicas are of the end of one run. It takes no memory.
fn need_end(replicas: &[Replica]) -> Result<(), GatherError>
    ensures ok { OnOk result (are_ready replicas.now ≡ true) }
    ensures none { IfErr result (λ e.
        (are_ready replicas.now ≡ false) × (e ≡ GatherError.NotReady)) }
{
    if report_ready(replicas) {
        Ok(())
    } else {
        Err(GatherError::NotReady)
    }
}

// What checkpoints are gathered for: a job, and a watch. They are read into memory of the allocator.
#[derive(Drop)]
struct Gathering<'a, V> {
    alloc: Global,
    graph: &'a Graph,
    plan: &'a Plan,
    watch: &'a V,
}

impl<'a, V: Watch> Gathering<'a, V> {
    // A partition's part, by the masks of all vertices.
    fn part(&self, p: u16, feeds: &Feeds) -> Result<Arc<Part>, AllocError>
        requires job { IsJob (job_of self.now.graph.now.graph self.now.plan.now) }
        requires below { p < self.now.plan.now.parts }
        requires feeds { feeds.now ≡ feeds_of self.now.graph.now.graph self.now.plan.now.parts }
        ensures { IfOk result (λ part.
            arc_value part ≡ part_of (job_of self.now.graph.now.graph self.now.plan.now) p) }
    {
        let part = self.graph.part_with(self.alloc, self.plan, p, feeds)?;
        let part = Arc::new(self.alloc, part)?;
        Ok(part)
    }

    // The replica of the checkpoint of partition `p` that follows.
    fn read_replica<R: CountedRead>(
        &self,
        p: u16,
        feeds: &Feeds,
        reader: &mut R,
    ) -> Result<Replica, GatherError>
        requires job { IsJob (job_of self.now.graph.now.graph self.now.plan.now) }
        requires below { p < self.now.plan.now.parts }
        requires feeds { feeds.now ≡ feeds_of self.now.graph.now.graph self.now.plan.now.parts }
        ensures read { IfOk result (ReadsCheckpoint
            (job_of self.now.graph.now.graph self.now.plan.now) p
            (R.remaining reader.old) (R.remaining reader.new)) }
        ensures refused { IfErr result (IsNoReplica
            (part_of (job_of self.now.graph.now.graph self.now.plan.now) p)
            (R.remaining reader.old) (R.remaining reader.new)) }
        ensures failed { FailsAs R.failed_calls reader.old reader.new result
            (Err GatherError.Read) }
    {
        let part = self.part(p, feeds)?;
        let mut bytes = Vec::new(self.alloc);
        read_bytes(reader, &part, &mut bytes)?;
        match read_back(self.alloc, part, &bytes) {
            Ok(replica) => Ok(replica),
            Err(error) => Err(checkpoint_fault(p, error)),
        }
    }

    // Adds the replica of the checkpoint of partition `p` that follows to those before it. The watch is called for it.
    fn add_replica<R: CountedRead>(
        &self,
        p: u16,
        feeds: &Feeds,
        reader: &mut R,
        replicas: &mut Vec<Replica>,
    ) -> Result<(), GatherError>
        requires job { IsJob (job_of self.now.graph.now.graph self.now.plan.now) }
        requires below { p < self.now.plan.now.parts }
        requires feeds { feeds.now ≡ feeds_of self.now.graph.now.graph self.now.plan.now.parts }
        ensures read { (left : Option (List ℕ)) →
            ReadsAll (job_of self.now.graph.now.graph self.now.plan.now) p
            left (R.remaining reader.old) replicas.old.items →
            OnOk result (ReadsAll (job_of self.now.graph.now.graph self.now.plan.now) (p + 1)
            left (R.remaining reader.new) replicas.new.items) }
        ensures refused { (left : Option (List ℕ)) →
            ReadsAll (job_of self.now.graph.now.graph self.now.plan.now) p
            left (R.remaining reader.old) replicas.old.items →
            IfErr result (IsNoReport (job_of self.now.graph.now.graph self.now.plan.now)
            left (R.remaining reader.new)) }
        ensures unwritten { result ≢ Err GatherError.Write }
        ensures failed { FailsAs R.failed_calls reader.old reader.new result
            (Err GatherError.Read) }
    {
        let replica = self.read_replica(p, feeds, reader)?;
        show_turn(&replica, self.watch);
        put(replicas, replica)?;
        Ok(())
    }

    // Reads the replicas of the checkpoints of all partitions into `replicas`, which is empty, up to the end of the
    // input. The watch is called for each. The edges are walked over once for the masks of all parts.
    fn read_replicas<R: CountedRead>(
        &self,
        reader: &mut R,
        replicas: &mut Vec<Replica>,
    ) -> Result<(), GatherError>
        requires job { IsJob (job_of self.now.graph.now.graph self.now.plan.now) }
        requires none { replicas.old.items ≡ [] }
        ensures read { OnOk result (ReadsAll (job_of self.now.graph.now.graph self.now.plan.now)
            self.now.plan.now.parts (R.remaining reader.old) (R.remaining reader.new)
            replicas.new.items) }
        ensures end { OnOk result (IsAtEnd (R.remaining reader.new)) }
        ensures refused { IfErr result (IsNoReport
            (job_of self.now.graph.now.graph self.now.plan.now)
            (R.remaining reader.old) (R.remaining reader.new)) }
        ensures unwritten { result ≢ Err GatherError.Write }
        ensures failed { FailsAs R.failed_calls reader.old reader.new result
            (Err GatherError.Read) }
    {
        let feeds = self.graph.feeds(self.alloc, self.plan)?;
        for p in 0..self.plan.parts() {
            self.add_replica(p, &feeds, reader, replicas)?;
        }
        read_end(reader)
    }

    // Reads the checkpoints of all partitions, and writes their report. At most `threads` threads make the figures, or
    // all processors if that is 0.
    fn gather_parts<T: AllocGlobal + Threads + Sync, R: CountedRead, W: CountedWrite>(
        &self,
        rt: &T,
        threads: usize,
        reader: &mut R,
        writer: &mut W,
    ) -> Result<(), GatherError>
        requires { IsJob (job_of self.now.graph.now.graph self.now.plan.now) }
        ensures ok { OnOk result (Gathers (job_of self.now.graph.now.graph self.now.plan.now)
            self.now.graph.now.labels (R.remaining reader.old) (R.remaining reader.new)
            (W.contents writer.old) (W.contents writer.new)) }
        ensures refused { IfErr result (IsNoReport
            (job_of self.now.graph.now.graph self.now.plan.now)
            (R.remaining reader.old) (R.remaining reader.new)) }
        ensures kept { IfErr result (λ e. IsUnwritten e →
            Keeps (W.contents writer.old) (W.contents writer.new)) }
        ensures front { OnErr result (WritesFront
            (job_of self.now.graph.now.graph self.now.plan.now) self.now.graph.now.labels
            (R.remaining reader.old) (R.remaining reader.new)
            (W.contents writer.old) (W.contents writer.new)) }
        ensures failed { FailsAs R.failed_calls reader.old reader.new result
            (Err GatherError.Read) }
        ensures write { FailsAs W.failed_calls writer.old writer.new result
            (Err GatherError.Write) }
    {
        let mut replicas = Vec::new(self.alloc);
        self.read_replicas(reader, &mut replicas)?;
        need_end(&replicas)?;
        write_report_by(rt, writer, self.graph, &replicas, threads)?;
        Ok(())
    }
}

/// Reads a job and the checkpoints of all its partitions at the end of their run, and writes their report.
///
/// For each partition in order a line `part L`, and its checkpoint of L bytes. They are checked as they come, each
/// whole before the next is read; then that nothing follows, and then that all are of the end of one run. Nothing is
/// written before that. Memory is taken as bytes come, and may be refused at each; if it is refused or a write fails
/// while the report is written, a beginning of it was written. The watch is called once the job is read, and for each
/// checkpoint that was read, as for a close that went on to its superstep. At most as many threads as the options say
/// make the figures, or all processors if they say 0.
pub fn gather<T: AllocGlobal + Threads + Sync, R: CountedRead, W: CountedWrite, V: Watch>(
    rt: &T,
    state: RandomState,
    job: &JobInput,
    watch: &V,
    reader: &mut R,
    writer: &mut W,
) -> Result<(), GatherError>
    ensures ok { OnOk result (GathersJob (settings_of job.now.options) job.now.counted
        (R.remaining reader.old) (R.remaining reader.new)
        (W.contents writer.old) (W.contents writer.new)) }
    ensures refused { IfErr result (HasNoReport (settings_of job.now.options) job.now.counted
        (R.remaining reader.old) (R.remaining reader.new)) }
    ensures kept { IfErr result (λ e. IsUnwritten e →
        Keeps (W.contents writer.old) (W.contents writer.new)) }
    ensures front { OnErr result (WritesFrontOfJob (settings_of job.now.options) job.now.counted
        (R.remaining reader.old) (R.remaining reader.new)
        (W.contents writer.old) (W.contents writer.new)) }
    ensures failed { result ≡ Err GatherError.Read →
        RisesByOne (R.failed_calls reader.old) (R.failed_calls reader.new) }
    ensures unread { result ≡ Err (GatherError.Job no_job.Read) →
        RisesByOne (R.failed_calls reader.old) (R.failed_calls reader.new) }
    ensures counted { result ≢ Err GatherError.Read → result ≢ Err (GatherError.Job no_job.Read) →
        R.failed_calls reader.new ≡ R.failed_calls reader.old }
    ensures write { result ≡ Err GatherError.Write →
        RisesByOne (W.failed_calls writer.old) (W.failed_calls writer.new) }
    ensures written { result ≢ Err GatherError.Write →
        W.failed_calls writer.new ≡ W.failed_calls writer.old }
{
    let (graph, plan, records) = read_job(rt.alloc(), state, job, reader)?;
    watch.after_read(records, graph.vertices());
    let threads = usize::from(job.options.threads);
    let gathering = Gathering {
        alloc: rt.alloc(),
        graph: &graph,
        plan: &plan,
        watch,
    };
    let gathered = gathering.gather_parts(rt, threads, reader, writer);
    drop(graph);
    gathered
}
