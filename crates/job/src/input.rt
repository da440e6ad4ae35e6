//! A job, read of an input up to a mark.

ghost use Rattle.std.specs.Prelude.{◌≡◌, ◌≢◌, ◌<◌, ◌≤◌, [], Err, IfErr, IfOk, IsErr, OnOk, length};
ghost use Rattle.std.specs.Prelude.{Ok, false, true};
ghost use Rattle.std.specs.Arc.{arc_value};
ghost use Rattle.ball_model.specs.Input.{Limits};
ghost use Rattle.ball_model.specs.Job.{IsJob, job_of, part_of};
ghost use Rattle.ball_model.specs.RunText.{network_in, plan_asked};
ghost use Rattle.ball_model.specs.Streams.{RisesByOne};
ghost use Rattle.edgelist.specs.Given.{IsGivenUnder};
ghost use Rattle.job.specs.Job.{numbers_asked, settings_of};
ghost use Rattle.edgelist.specs.Reading.{meaning_under};
ghost use Rattle.graph.specs.declared.delimiter.Delimiter.{Delimiter};
ghost use Rattle.job.specs.Input.{CountsSome, GivesEdges, HasRecords, IsJobRead, SaysNetwork};
ghost use Rattle.job.specs.NoJob.{GoesBeyond, IsNoJob, IsNoNetwork, IsUncounted, IsUnlisted};
ghost use Rattle.job.specs.NoJob.{IsUnplanned};
ghost use Rattle.job.specs.Section.{ReadsSection};
ghost use Rattle.job.specs.Stream.{FailsAs};

use crate::error::InputError;
use crate::job::JobOptions;
use crate::limits::MOST_BYTES;
use crate::section::{Cut, SectionStep, next_step};
use ball_model::{CountedRead, Plan};
use edgelist::{EdgeList, EdgeReader, Graph, Part};
use std::alloc::{AllocError, Global};
use std::hash::RandomState;
use std::sync::Arc;

/// What is asked of a job that an input says, and whether the input has a list.
#[derive(Clone, Copy, Debug, PartialEq, Eq)]
pub struct JobInput {
    /// What is asked of the job.
    pub options: JobOptions,
    /// Whether a list of counted vertices, and a line of %%, are after the edge list.
    pub counted: bool,
}

// Gives a reader of edges, which was given nothing yet, the bytes of a section. True: a mark ends
// it.
fn give_section<R: CountedRead>(
    alloc: Global,
    reader: &mut R,
    edges: &mut EdgeReader,
) -> Result<bool, InputError>
    ensures given { (limits : Limits) (delimiter : Delimiter) →
        IsGivenUnder limits delimiter [] edges.old →
        IfOk result (GivesEdges limits delimiter
        (R.remaining reader.old) (R.remaining reader.new) edges.new) }
    ensures refused { (limits : Limits) (delimiter : Delimiter) →
        IsGivenUnder limits delimiter [] edges.old →
        IfErr result (IsNoNetwork (meaning_under limits delimiter) (R.remaining reader.old)) }
    ensures failed { FailsAs R.failed_calls reader.old reader.new result (Err InputError.Read) }
{
    let mut cut = Cut::start();
    for _count in 0..u64::MAX {
        match next_step(reader, &mut cut) {
            SectionStep::Byte(byte) => edges.add(alloc, byte)?,
            SectionStep::Mark => return Ok(true),
            SectionStep::End => return Ok(false),
            SectionStep::Failed => return Err(InputError::Read),
        }
    }
    Err(InputError::EdgesSize)
}

// A mark is wanted after an edge list that was read. It takes no memory.
fn need_mark(marked: bool) -> Result<(), InputError>
    ensures ok { OnOk result (marked ≡ true) }
    ensures none { IfErr result (λ e. (marked ≡ false) × (e ≡ InputError.NoMark)) }
{
    if marked {
        Ok(())
    } else {
        Err(InputError::NoMark)
    }
}

// The graph that a section says, which ends at a mark, and how many records it has.
fn read_edge_section<R: CountedRead>(
    alloc: Global,
    state: RandomState,
    job: &JobInput,
    reader: &mut R,
) -> Result<EdgeList, InputError>
    ensures says { IfOk result (λ read. SaysNetwork (settings_of job.now.options)
        (R.remaining reader.old) (R.remaining reader.new) read.graph) }
    ensures count { IfOk result (λ read. HasRecords (settings_of job.now.options)
        (R.remaining reader.old) read.records) }
    ensures refused { IfErr result (IsNoNetwork (network_in (settings_of job.now.options))
        (R.remaining reader.old)) }
    ensures failed { FailsAs R.failed_calls reader.old reader.new result (Err InputError.Read) }
{
    let mut edges = job.options.reader(alloc, state)?;
    let marked = give_section(alloc, reader, &mut edges)?;
    let read = edges.finish(alloc)?;
    match need_mark(marked) {
        Ok(()) => Ok(read),
        Err(fault) => {
            drop(read);
            Err(fault)
        }
    }
}

// Reads the bytes of a section, which ends at a mark, into `list`, which is empty.
fn read_list<R: CountedRead>(reader: &mut R, list: &mut Vec<u8>) -> Result<(), InputError>
    requires { list.old.items ≡ [] }
    ensures read { OnOk result (ReadsSection list.new.items
        (R.remaining reader.old) (R.remaining reader.new)) }
    ensures few { OnOk result (length list.new.items ≤ MOST_BYTES) }
    ensures refused { IfErr result (IsUnlisted (R.remaining reader.old)) }
    ensures memory { result ≡ Err InputError.Memory →
        GoesBeyond (length list.new.items) (R.remaining reader.old) }
    ensures room { result ≡ Err InputError.Memory → length list.new.items ≤ MOST_BYTES }
    ensures failed { FailsAs R.failed_calls reader.old reader.new result (Err InputError.Read) }
{
    let mut cut = Cut::start();
    while list.len() <= MOST_BYTES {
        match next_step(reader, &mut cut) {
            SectionStep::Byte(byte) => {
                let Ok(()) = list.push(byte) else {
                    return Err(InputError::Memory);
                };
            }
            SectionStep::Mark => return Ok(()),
            SectionStep::End => return Err(InputError::NoListMark),
            SectionStep::Failed => return Err(InputError::Read),
        }
    }
    Err(InputError::ListSize)
}

// Counts only the vertices of a list, if there is one.
fn count_section<R: CountedRead>(
    alloc: Global,
    graph: &mut Graph,
    job: &JobInput,
    reader: &mut R,
) -> Result<(), InputError>
    ensures counts { OnOk result (CountsSome (settings_of job.now.options) job.now.counted
        (R.remaining reader.old) (R.remaining reader.new) graph.old graph.new) }
    ensures asked { IsErr result → job.now.counted ≡ true }
    ensures refused { IfErr result (IsUncounted (settings_of job.now.options)
        (R.remaining reader.old) graph.old) }
    ensures failed { FailsAs R.failed_calls reader.old reader.new result (Err InputError.Read) }
{
    if !job.counted {
        return Ok(());
    }
    let mut list = Vec::new(alloc);
    read_list(reader, &mut list)?;
    job.options.count_listed(alloc, graph, Some(&list))?;
    Ok(())
}

// The plan over a graph, or the first fault of the options. It takes no memory.
fn plan_for(graph: &Graph, job: &JobInput) -> Result<Plan, InputError>
    ensures value { IfOk result (λ plan.
        Ok plan ≡ plan_asked (numbers_asked job.now.options) graph.now.graph) }
    ensures job { IfOk result (λ plan. IsJob (job_of graph.now.graph plan)) }
    ensures refused { IfErr result
        (IsUnplanned (plan_asked (numbers_asked job.now.options) graph.now.graph)) }
{
    let plan = job.options.plan(graph)?;
    Ok(plan)
}

/// A partition's part of a job.
pub fn part_of(alloc: Global, graph: &Graph, plan: &Plan, p: u16) -> Result<Arc<Part>, AllocError>
    requires job { IsJob (job_of graph.now.graph plan.now) }
    requires below { p < plan.now.parts }
    ensures { IfOk result (λ part. arc_value part ≡ part_of (job_of graph.now.graph plan.now) p) }
{
    let part = graph.part(alloc, plan, p)?;
    let part = Arc::new(alloc, part)?;
    Ok(part)
}

/// The graph and the plan of a job, read up to the mark after it, and how many records its edge
/// list has.
///
/// The edge list is refused as it comes. That no mark is after it is answered once all of it is
/// read, and says a network; that none is after the list of counted vertices, whatever that says.
/// Then the list is refused, and then the plan. Memory is taken as bytes come, and may be refused
/// at each.
pub fn read_job<R: CountedRead>(
    alloc: Global,
    state: RandomState,
    job: &JobInput,
    reader: &mut R,
) -> Result<(Graph, Plan, u64), InputError>
    ensures read { IfOk result (λ all. IsJobRead (settings_of job.now.options) job.now.counted
        (R.remaining reader.old) (R.remaining reader.new) all.0 all.1) }
    ensures job { IfOk result (λ all. IsJob (job_of all.0.graph all.1)) }
    ensures count { IfOk result (λ all. HasRecords (settings_of job.now.options)
        (R.remaining reader.old) all.2) }
    ensures refused { IfErr result (IsNoJob (settings_of job.now.options) job.now.counted
        (R.remaining reader.old) (R.remaining reader.new)) }
    ensures failed { result ≡ Err InputError.Read →
        RisesByOne (R.failed_calls reader.old) (R.failed_calls reader.new) }
    ensures counted { result ≢ Err InputError.Read →
        R.failed_calls reader.new ≡ R.failed_calls reader.old }
{
    let mut read = read_edge_section(alloc, state, job, reader)?;
    count_section(alloc, &mut read.graph, job, reader)?;
    let plan = plan_for(&read.graph, job)?;
    Ok((read.graph, plan, read.records))
}
