//! What is asked of a run.

ghost use Rattle.std.specs.Prelude.{◌≡◌};
ghost use Rattle.workers.specs.Options.{are_all_named, are_in_limits, is_named, job_asked};

use ball_model::plan::{GREATEST_LIMIT, MOST_REPLICAS};
use ball_model::{Estimate, NodeId};
use board::{LEAST_ENTRIES, MOST_ENTRIES};
use edgelist::Delimiter;
use job::JobOptions;

/// What is asked of a run.
#[derive(Debug, PartialEq, Eq, Drop)]
pub struct RunOptions {
    /// The binary logarithm of the number of registers of a counter, from 4 to 10.
    pub log2m: u8,
    /// The seed under which vertices are hashed.
    pub seed: u64,
    /// The number of partitions that vertices are dealt out to, from 1 to 64.
    pub parts: u16,
    /// The superstep at which the run ends at the latest, from 1 to 4096.
    pub limit: u32,
    /// How the estimates of counters are made.
    pub estimate: Estimate,
    /// What is between the two fields of a line.
    pub delimiter: Delimiter,
    /// Whether up to 2^31 vertices and 2^32 - 1 records are taken, in place of 2^24 and 2^26.
    pub large: bool,
    /// How many threads read the edge list, how many large supersteps use, of all nodes together, each of which has at
    /// least one, and how many make the report's figures; 0: as many as there are processors. One more thread makes the
    /// digest of the edges, and the largest supersteps are cut into four times as many blocks if all processors may work. No
    /// report depends on it.
    pub threads: u16,
    /// How many replicas each partition has, from 1 to 4.
    pub replicas: u8,
    /// How many entries the board's history may have, from 2 to 2^24.
    pub entries: u32,
    /// Each node keeps a snapshot at each superstep that is a multiple of this, up to 4096, and none if it is 0. One node
    /// with no order to start anew keeps none: no call could recall it.
    pub keep: u32,
    /// The number of idle turns in succession after which a node gives up, at least 1.
    pub patience: u32,
    /// Which nodes are lost, and at which superstep. The first order for a node counts.
    pub lose: Vec<(NodeId, u32)>,
    /// Which nodes start anew, and at which superstep. The first order for a node counts.
    pub restart: Vec<(NodeId, u32)>,
}

/// Whether a run of this many partitions and replicas has the node.
pub(crate) fn is_named(parts: u16, replicas: u8, node: NodeId) -> bool
    ensures { result ≡ is_named parts replicas node }
{
    node.part < parts && node.replica < replicas
}

// Whether it has each node that is ordered.
fn are_all_named(parts: u16, replicas: u8, orders: &[(NodeId, u32)]) -> bool
    ensures { result ≡ are_all_named parts replicas orders.now }
{
    for (node, _) in orders {
        if !is_named(parts, replicas, *node) {
            return false;
        }
    }
    true
}

impl RunOptions {
    /// What is asked of the job that is run.
    pub fn job(&self) -> JobOptions
        ensures { result ≡ job_asked self.now }
    {
        JobOptions {
            log2m: self.log2m,
            seed: self.seed,
            parts: self.parts,
            limit: self.limit,
            estimate: self.estimate,
            delimiter: self.delimiter,
            large: self.large,
            threads: self.threads,
        }
    }

    /// Whether replicas, entries, keep and patience are within their limits, and each node that is ordered is one of the
    /// run.
    pub fn are_in_limits(&self) -> bool
        ensures { result ≡ are_in_limits self.now }
    {
        (1..=MOST_REPLICAS).contains(&self.replicas)
            && (LEAST_ENTRIES..=MOST_ENTRIES).contains(&self.entries)
            && self.keep <= GREATEST_LIMIT
            && self.patience >= 1
            && are_all_named(self.parts, self.replicas, &self.lose)
            && are_all_named(self.parts, self.replicas, &self.restart)
    }
}
