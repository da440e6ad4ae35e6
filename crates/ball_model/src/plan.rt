//! The plan of a job.

ghost use Rattle.std.specs.Prelude.{◌≡◌, true, false, ◌<◌, ◌≤◌, ◌%◌, ◌^◌};

use std::marker::Model;
use thiserror::Error;

/// The least binary logarithm of the number of registers: 16 registers.
pub(crate) const LEAST_LOG2M: u8 = 4;

/// The greatest binary logarithm of the number of registers: 1024 registers.
pub(crate) const GREATEST_LOG2M: u8 = 10;

/// The most registers of a counter: 2^10.
pub const MOST_REGISTERS: usize = 1024;

/// The greatest rank: that of a hash whose tail, of 32 bits, is 0.
pub const GREATEST_RANK: u8 = 33;

/// The most partitions that vertices are dealt out among.
pub const MOST_PARTS: u16 = 64;

/// The most replicas of a partition that a run by workers or a replay has.
pub const MOST_REPLICAS: u8 = 4;

/// The greatest limit that a run may have, in supersteps.
pub const GREATEST_LIMIT: u32 = 4096;

/// The most vertices of a graph.
pub const MOST_VERTICES: u32 = 1 << 31;

/// The most vertices of a graph that has a usual plan.
pub const USUAL_VERTICES: u32 = 1 << 24;

/// Why there is no such plan, in the order of the checks.
#[derive(Clone, Copy, Debug, PartialEq, Eq, Error)]
pub enum PlanError {
    /// The binary logarithm of the number of registers is below 4 or above 10.
    #[error("log2m is not from 4 to 10")]
    Log2m,
    /// There is no partition, or there are more than 64.
    #[error("parts is not from 1 to 64")]
    Parts,
    /// The greatest superstep is 0, or above 4096.
    #[error("limit is not from 1 to 4096")]
    Limit,
    /// There are more than 2^24 vertices, or more than 2^31 if a large plan is asked for.
    #[error("too many vertices")]
    Vertices,
}

/// How the estimates of counters are made.
#[derive(Clone, Copy, Debug, PartialEq, Eq)]
pub enum Estimate {
    /// As HyperLogLog gives them, with no correction: they are far too large for small sets.
    Raw,
    /// Corrected for small sets, by the number of empty registers.
    Corrected,
}

/// The plan of a job, within its limits.
///
/// Counters have 2^log2m registers, vertices are hashed under the seed and dealt out among the partitions by their
/// number modulo `parts`, and a run ends at superstep `limit` at the latest (Pregel 2010). `job` is the digest of
/// what the job is about; two replicas talk to one another only under equal plans.
#[derive(Clone, Copy, Debug, PartialEq, Eq)]
pub struct Plan {
    log2m: u8,
    seed: u64,
    parts: u16,
    limit: u32,
    vertices: u32,
    corrected: bool,
    job: [u8; 32],
}

impl Model for Plan {
    ghost use Rattle.ball_model.specs.PlanValue.{PlanValue, IsPlan};

    ghost Value = { PlanValue };

    ghost view = { λ p. record {
      log2m = p.log2m;
      seed = p.seed;
      parts = p.parts;
      limit = p.limit;
      vertices = p.vertices;
      corrected = p.corrected;
      job = p.job;
    } };

    ghost invariant = { λ p. IsPlan (record {
      log2m = p.log2m;
      seed = p.seed;
      parts = p.parts;
      limit = p.limit;
      vertices = p.vertices;
      corrected = p.corrected;
      job = p.job;
    }) };

    ghost inverse = { λ p. record {
      log2m = p.log2m;
      seed = p.seed;
      parts = p.parts;
      limit = p.limit;
      vertices = p.vertices;
      corrected = p.corrected;
      job = p.job;
    } };
}

impl Plan {
    ghost use Rattle.ball_model.specs.PlanValue.{
      PlanValue,
      IsPlan,
      most_vertices,
      plan_within,
      plan_of,
      large_plan_of,
      part_size,
    };

    /// The plan with raw estimates, or its first fault: log2m has to be from 4 to 10, parts from 1 to 64, the limit
    /// from 1 to 4096, and there may be at most 2^24 vertices.
    pub fn new(
        log2m: u8,
        seed: u64,
        parts: u16,
        limit: u32,
        vertices: u32,
        job: [u8; 32],
    ) -> Result<Plan, PlanError>
        ensures { result ≡ plan_of (record {
          log2m = log2m;
          seed = seed;
          parts = parts;
          limit = limit;
          vertices = vertices;
          corrected = false;
          job = job;
        }) }
    {
        Plan::within(USUAL_VERTICES, log2m, seed, parts, limit, vertices, job)
    }

    /// The plan with raw estimates over a large graph, of at most 2^31 vertices, or its first fault, in the order of
    /// [`Plan::new`].
    pub fn large(
        log2m: u8,
        seed: u64,
        parts: u16,
        limit: u32,
        vertices: u32,
        job: [u8; 32],
    ) -> Result<Plan, PlanError>
        ensures { result ≡ large_plan_of (record {
          log2m = log2m;
          seed = seed;
          parts = parts;
          limit = limit;
          vertices = vertices;
          corrected = false;
          job = job;
        }) }
    {
        Plan::within(MOST_VERTICES, log2m, seed, parts, limit, vertices, job)
    }

    fn within(
        most: u32,
        log2m: u8,
        seed: u64,
        parts: u16,
        limit: u32,
        vertices: u32,
        job: [u8; 32],
    ) -> Result<Plan, PlanError>
        requires { most ≤ most_vertices }
        ensures { result ≡ plan_within most (record {
          log2m = log2m;
          seed = seed;
          parts = parts;
          limit = limit;
          vertices = vertices;
          corrected = false;
          job = job;
        }) }
    {
        if !(LEAST_LOG2M..=GREATEST_LOG2M).contains(&log2m) {
            return Err(PlanError::Log2m);
        }
        if !(1..=MOST_PARTS).contains(&parts) {
            return Err(PlanError::Parts);
        }
        if !(1..=GREATEST_LIMIT).contains(&limit) {
            return Err(PlanError::Limit);
        }
        if vertices > most {
            return Err(PlanError::Vertices);
        }
        Ok(Plan {
            log2m,
            seed,
            parts,
            limit,
            vertices,
            corrected: false,
            job,
        })
    }

    /// Does nothing: its contract states the limits of every plan, for proofs.
    #[inline(always)]
    pub fn limits(&self)
        ensures { IsPlan self.now }
    {
        let _log2m = self.log2m();
    }

    /// The binary logarithm of the number of registers.
    pub fn log2m(&self) -> u8
        ensures value { result ≡ self.now.log2m }
        ensures plan { IsPlan self.now }
    {
        self.log2m
    }

    /// The seed under which vertices are hashed.
    pub fn seed(&self) -> u64
        ensures { result ≡ self.now.seed }
    {
        self.seed
    }

    /// The number of partitions.
    pub fn parts(&self) -> u16
        ensures value { result ≡ self.now.parts }
        ensures plan { IsPlan self.now }
    {
        self.parts
    }

    /// The greatest superstep.
    pub fn limit(&self) -> u32
        ensures value { result ≡ self.now.limit }
        ensures plan { IsPlan self.now }
    {
        self.limit
    }

    /// The number of vertices.
    pub fn vertices(&self) -> u32
        ensures value { result ≡ self.now.vertices }
        ensures plan { IsPlan self.now }
    {
        self.vertices
    }

    /// The job digest.
    pub fn job(&self) -> [u8; 32]
        ensures { result ≡ self.now.job }
    {
        self.job
    }

    /// Whether estimates are corrected for small sets.
    pub fn is_corrected(&self) -> bool
        ensures { result ≡ self.now.corrected }
    {
        self.corrected
    }

    /// The plan with estimates that are corrected for small sets, and with the digest of that other job.
    pub fn corrected(self, job: [u8; 32]) -> Plan
        ensures { result ≡ record self { corrected = true; job = job } }
    {
        let mut plan = self.with_job(job);
        plan.corrected = true;
        plan
    }

    /// The plan with another job digest.
    pub fn with_job(self, job: [u8; 32]) -> Plan
        ensures { result ≡ record self { job = job } }
    {
        let mut plan = self;
        plan.job = job;
        plan
    }

    /// The number of registers of a counter, 2^log2m.
    pub fn width(&self) -> usize
        ensures value { result ≡ 2 ^ self.now.log2m }
        ensures plan { IsPlan self.now }
    {
        1 << self.log2m
    }

    /// The partition of vertex `v`.
    pub fn partition_of(&self, v: u32) -> u16
        ensures value { result ≡ v % self.now.parts }
        ensures below { result < self.now.parts }
    {
        (v % u32::from(self.parts)) as u16
    }

    /// The number of vertices of partition `p`.
    pub fn part_size(&self, p: u16) -> u32
        requires { p < self.now.parts }
        ensures { result ≡ part_size self.now.vertices self.now.parts p }
    {
        (self.vertices + u32::from(self.parts - 1 - p)) / u32::from(self.parts)
    }
}
