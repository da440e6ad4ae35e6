//! What is asked of a job, and what it is over a graph.

ghost use Rattle.std.specs.Prelude.{◌≡◌, ◌<◌, ◌^◌, [], false, Ok, Err, IfErr, IfOk, IfSome, IsOk};
ghost use Rattle.std.specs.Prelude.{OnErr, OnOk, length};
ghost use Rattle.ball_model.specs.Input.{IsPlain, records};
ghost use Rattle.ball_model.specs.Job.{IsJob, job_of};
ghost use Rattle.ball_model.specs.PlanValue.{plan_within};
ghost use Rattle.ball_model.specs.RunText.{AreRead, counted_in, list_in, network_in, plan_asked};
ghost use Rattle.ball_model.specs.RunText.{run_limits};
ghost use Rattle.ball_model.specs.Streams.{Rises};
ghost use Rattle.graph.specs.Counting.{RefusesList};
ghost use Rattle.edgelist.specs.Given.{IsGivenUnder};
ghost use Rattle.job.specs.Job.{HasEdgesOf, RefusesEdges, RefusesRead, WherePlain, numbers_asked};
ghost use Rattle.job.specs.Job.{settings_of};
ghost use Rattle.graph.specs.Planning.{signed};
ghost use Rattle.graph.specs.Records.{byte_of, ForPlain};
ghost use Rattle.edgelist.specs.Reading.{CountsOne, Refuses, limits_of};

use ball_model::{CountedRead, Estimate, Plan, PlanError};
use edgelist::{
    EdgeError, EdgeLimits, EdgeList, EdgeReader, LARGE_LIMITS, LIMITS, ReadWatch, read_edge_list,
    read_edge_list_by, read_large_edge_list,
};
use graph::{CountedError, Delimiter, Graph};
use std::alloc::{AllocGlobal, Global};
use std::hash::RandomState;
use std::thread::{Threads, available_parallelism};
use thiserror::Error;

/// What is asked of a job.
#[derive(Clone, Copy, Debug, PartialEq, Eq)]
pub struct JobOptions {
    /// The binary logarithm of the number of registers of a counter, from 4 to 10.
    pub log2m: u8,
    /// The seed under which vertices are hashed.
    pub seed: u64,
    /// The number of partitions that vertices are dealt out to, from 1 to 64.
    pub parts: u16,
    /// The superstep at which a node stops at the latest, from 1 to 4096.
    pub limit: u32,
    /// How the estimates of counters are made.
    pub estimate: Estimate,
    /// What is between the two fields of a line of the edge list.
    pub delimiter: Delimiter,
    /// Whether up to 2^31 vertices and 2^32 - 1 records are taken, in place of 2^24 and 2^26.
    pub large: bool,
    /// How many threads work on the job, of all nodes together, each of which has at least one; 0:
    /// as many as there are processors. No graph, plan or report depends on it.
    pub threads: u16,
}

/// Why an edge list and a list of counted vertices give no network, in the order of the checks.
#[derive(Clone, Copy, Debug, PartialEq, Eq, Error)]
pub enum NetworkError {
    /// The edge list is refused.
    #[error(transparent)]
    Edges(EdgeError),
    /// The list of counted vertices is refused.
    #[error(transparent)]
    Counted(CountedError),
}

impl From<EdgeError> for NetworkError {
    ghost use Rattle.job.specs.declared.job.NetworkError.TheVariants.{Edges};

    ghost from_gives = { λ fault e. e ≡ Edges fault };

    fn from(fault: EdgeError) -> NetworkError {
        NetworkError::Edges(fault)
    }
}

impl From<CountedError> for NetworkError {
    ghost use Rattle.job.specs.declared.job.NetworkError.TheVariants.{Counted};

    ghost from_gives = { λ fault e. e ≡ Counted fault };

    fn from(fault: CountedError) -> NetworkError {
        NetworkError::Counted(fault)
    }
}

impl JobOptions {
    /// A reader of the edge list that was given nothing yet; one of a large edge list only if that
    /// is asked for. The only error is that memory was refused.
    pub(crate) fn reader(&self, alloc: Global, state: RandomState) -> Result<EdgeReader, EdgeError>
        ensures ok { IfOk result (IsGivenUnder (run_limits self.now.large) self.now.delimiter []) }
        ensures memory { IfErr result (λ e. e ≡ EdgeError.Memory) }
    {
        if self.large {
            return EdgeReader::large(alloc, state, self.delimiter, LARGE_LIMITS);
        }
        EdgeReader::new(alloc, state, self.delimiter, LIMITS)
    }

    /// Reads the edge list, as [`read_edge_list`] does under the usual limits, or as
    /// [`read_large_edge_list`] under the greatest if a large one is asked for.
    pub(crate) fn read_edges<R: CountedRead>(
        &self,
        alloc: Global,
        state: RandomState,
        reader: &mut R,
    ) -> Result<EdgeList, EdgeError>
        ensures ok { ForPlain (R.remaining reader.old) (λ text.
            IfOk result (λ read. network_in (settings_of self.now) text ≡ Ok read.graph)) }
        ensures count { ForPlain (R.remaining reader.old) (λ text. IfOk result (λ read.
            read.records ≡ length (records (byte_of self.now.delimiter) text))) }
        ensures refused { ForPlain (R.remaining reader.old) (λ text.
            IfErr result (Refuses (network_in (settings_of self.now) text))) }
        ensures read { result ≡ Err EdgeError.Read →
            Rises (R.failed_calls reader.old) (R.failed_calls reader.new) }
        ensures failed { CountsOne (R.failed_calls reader.old) (R.failed_calls reader.new) →
            result ≡ Err EdgeError.Read }
    {
        if self.large {
            return read_large_edge_list(alloc, state, reader, self.delimiter, LARGE_LIMITS);
        }
        read_edge_list(alloc, state, reader, self.delimiter, LIMITS)
    }

    // The limits of the edge list.
    fn limits(&self) -> EdgeLimits
        ensures { limits_of result ≡ run_limits self.now.large }
    {
        if self.large {
            return LARGE_LIMITS;
        }
        LIMITS
    }

    /// How many threads work on the job: as many as are asked for, or else one a processor, or one
    /// if that number is not known.
    pub fn threads_for<R: Threads>(&self, rt: &R) -> usize
        ensures asked { 0 < self.now.threads → result ≡ self.now.threads }
        ensures some { 0 < result }
    {
        if self.threads > 0 {
            return usize::from(self.threads);
        }
        match available_parallelism(rt) {
            Ok(processors) => processors.get(),
            Err(_) => 1,
        }
    }

    /// Reads the edge list as [`JobOptions::read_edges`] does, by as many threads as work on the
    /// job ([`read_edge_list_by`] says how).
    pub(crate) fn read_edges_by<R: AllocGlobal + Threads + Sync, W: ReadWatch, S: CountedRead>(
        &self,
        rt: &R,
        watch: &W,
        state: RandomState,
        reader: &mut S,
    ) -> Result<EdgeList, EdgeError>
        ensures ok { ForPlain (S.remaining reader.old) (λ text.
            IfOk result (λ read. network_in (settings_of self.now) text ≡ Ok read.graph)) }
        ensures count { ForPlain (S.remaining reader.old) (λ text. IfOk result (λ read.
            read.records ≡ length (records (byte_of self.now.delimiter) text))) }
        ensures refused { ForPlain (S.remaining reader.old) (λ text.
            IfErr result (Refuses (network_in (settings_of self.now) text))) }
        ensures read { result ≡ Err EdgeError.Read →
            Rises (S.failed_calls reader.old) (S.failed_calls reader.new) }
        ensures failed { CountsOne (S.failed_calls reader.old) (S.failed_calls reader.new) →
            result ≡ Err EdgeError.Read }
    {
        let threads = self.threads_for(rt);
        let (delimiter, limits) = (self.delimiter, self.limits());
        read_edge_list_by(rt, watch, state, reader, delimiter, limits, threads)
    }

    /// Counts only the vertices of a list, as [`Graph::count_only`] does, if there is one. Without
    /// one the graph stays as it is, and after an error.
    pub(crate) fn count_listed(
        &self,
        alloc: Global,
        graph: &mut Graph,
        counted: Option<&[u8]>,
    ) -> Result<(), CountedError>
        ensures ok { IfSome (list_in counted.entry) IsPlain → OnOk result (
            counted_in (settings_of self.now) graph.old (list_in counted.entry) ≡ Ok graph.new) }
        ensures refused { IfSome (list_in counted.entry) IsPlain → IfErr result (RefusesList
            (counted_in (settings_of self.now) graph.old (list_in counted.entry))) }
        ensures labels { graph.new.labels ≡ graph.old.labels }
        ensures vertices { graph.new.graph.vertices ≡ graph.old.graph.vertices }
        ensures edges { graph.new.graph.edges ≡ graph.old.graph.edges }
        ensures kept { OnErr result (graph.new ≡ graph.old) }
    {
        if let Some(list) = counted {
            graph.count_only(alloc, self.delimiter, list)?;
        }
        Ok(())
    }

    /// The graph that an edge list and a list of counted vertices say, and how many records the
    /// edge list has. The list is looked at once the edge list is read.
    pub fn read_network<R: CountedRead>(
        &self,
        alloc: Global,
        state: RandomState,
        reader: &mut R,
        counted: Option<&[u8]>,
    ) -> Result<EdgeList, NetworkError>
        ensures ok { WherePlain (R.remaining reader.old) counted.entry
            (λ input list. IfOk result (λ read.
            AreRead (settings_of self.now) input list read.graph)) }
        ensures count { ForPlain (R.remaining reader.old) (λ input. IfOk result (λ read.
            read.records ≡ length (records (byte_of self.now.delimiter) input))) }
        ensures refused { WherePlain (R.remaining reader.old) counted.entry
            (λ input list. IfErr result (RefusesRead (settings_of self.now) input list)) }
        ensures edges { ForPlain (R.remaining reader.old) (λ input.
            OnOk result (IsOk (network_in (settings_of self.now) input))) }
        ensures network { ForPlain (R.remaining reader.old) (λ input. IfOk result (λ read.
            HasEdgesOf (settings_of self.now) input read.graph)) }
        ensures of_edges { ForPlain (R.remaining reader.old) (λ input.
            IfErr result (RefusesEdges (settings_of self.now) input)) }
        ensures read { result ≡ Err (NetworkError.Edges EdgeError.Read) →
            Rises (R.failed_calls reader.old) (R.failed_calls reader.new) }
        ensures failed { CountsOne (R.failed_calls reader.old) (R.failed_calls reader.new) →
            result ≡ Err (NetworkError.Edges EdgeError.Read) }
    {
        let mut read = self.read_edges(alloc, state, reader)?;
        self.count_listed(alloc, &mut read.graph, counted)?;
        Ok(read)
    }

    /// What [`JobOptions::read_network`] reads, by as many threads as work on the job.
    pub fn read_network_by<R: AllocGlobal + Threads + Sync, W: ReadWatch, S: CountedRead>(
        &self,
        rt: &R,
        watch: &W,
        state: RandomState,
        reader: &mut S,
        counted: Option<&[u8]>,
    ) -> Result<EdgeList, NetworkError>
        ensures ok { WherePlain (S.remaining reader.old) counted.entry
            (λ input list. IfOk result (λ read.
            AreRead (settings_of self.now) input list read.graph)) }
        ensures count { ForPlain (S.remaining reader.old) (λ input. IfOk result (λ read.
            read.records ≡ length (records (byte_of self.now.delimiter) input))) }
        ensures refused { WherePlain (S.remaining reader.old) counted.entry
            (λ input list. IfErr result (RefusesRead (settings_of self.now) input list)) }
        ensures edges { ForPlain (S.remaining reader.old) (λ input.
            OnOk result (IsOk (network_in (settings_of self.now) input))) }
        ensures network { ForPlain (S.remaining reader.old) (λ input. IfOk result (λ read.
            HasEdgesOf (settings_of self.now) input read.graph)) }
        ensures of_edges { ForPlain (S.remaining reader.old) (λ input.
            IfErr result (RefusesEdges (settings_of self.now) input)) }
        ensures read { result ≡ Err (NetworkError.Edges EdgeError.Read) →
            Rises (S.failed_calls reader.old) (S.failed_calls reader.new) }
        ensures failed { CountsOne (S.failed_calls reader.old) (S.failed_calls reader.new) →
            result ≡ Err (NetworkError.Edges EdgeError.Read) }
    {
        let mut read = self.read_edges_by(rt, watch, state, reader)?;
        self.count_listed(rt.alloc(), &mut read.graph, counted)?;
        Ok(read)
    }

    // The plan of these options over `vertices` vertices, but with raw estimates and this digest,
    // or their first fault. (A seed is below 2^64: `bare_plan` needs it for its clause `job`.)
    fn raw_plan(&self, vertices: u32, job: [u8; 32]) -> Result<Plan, PlanError>
        ensures value { result ≡ plan_within (run_limits self.now.large).vertices (record {
          log2m = self.now.log2m;
          seed = self.now.seed;
          parts = self.now.parts;
          limit = self.now.limit;
          vertices = vertices;
          corrected = false;
          job = job;
        }) }
        ensures seed { self.now.seed < 2 ^ 64 }
    {
        let JobOptions {
            log2m,
            seed,
            parts,
            limit,
            ..
        } = *self;
        if self.large {
            return Plan::large(log2m, seed, parts, limit, vertices, job);
        }
        Plan::new(log2m, seed, parts, limit, vertices, job)
    }

    /// The plan over a graph but for its digest, whose bytes are all 0, or the first fault of these
    /// options. It takes no memory, and hardly any time. [`Graph::digest`] makes the one that
    /// belongs there, and can do so while parts are made ([`Graph::part_with`]).
    pub fn bare_plan(&self, graph: &Graph) -> Result<Plan, PlanError>
        ensures ok { IfOk result (λ bare. Ok (signed graph.now.graph bare) ≡
            plan_asked (numbers_asked self.now) graph.now.graph) }
        ensures refused { IfErr result (λ fault. Err fault ≡
            plan_asked (numbers_asked self.now) graph.now.graph) }
        ensures job { IfOk result (λ bare. IsJob (job_of graph.now.graph
            (signed graph.now.graph bare))) }
        ensures parts { IfOk result (λ bare. bare.parts ≡ self.now.parts) }
    {
        let raw = self.raw_plan(graph.vertices(), [0; 32])?;
        match self.estimate {
            Estimate::Raw => Ok(raw),
            Estimate::Corrected => Ok(raw.corrected([0; 32])),
        }
    }

    /// The plan over a graph, with its job digest, or the first fault of these options. It takes no
    /// memory, and time in proportion to the edges.
    pub fn plan(&self, graph: &Graph) -> Result<Plan, PlanError>
        ensures value { result ≡ plan_asked (numbers_asked self.now) graph.now.graph }
        ensures job { IfOk result (λ plan. IsJob (job_of graph.now.graph plan)) }
    {
        let bare = self.bare_plan(graph)?;
        Ok(graph.signed(bare))
    }
}
