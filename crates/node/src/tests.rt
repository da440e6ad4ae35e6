//! What no clause says, and no run of the program shows: what a watch is called with, and that each answer is passed
//! on. (`tests/check` tries the rest: answers, checkpoints, reports, and inputs that are damaged or cut.) Counters
//! have 16 registers under seed 0.

mod flushed;
mod vectors;
mod watched;

use crate::error::ServeNodeError;
use crate::serve::serve_node;
use ball_model::{CountedWrite, Estimate, MemReader, MemWriter};
use edgelist::Delimiter;
use job::{JobInput, JobOptions, Unwatched, Watch};
use std::hash::RandomState;

/// What is asked of a job in so many partitions.
fn job(parts: u16) -> JobInput {
    JobInput {
        options: JobOptions {
            log2m: 4,
            seed: 0,
            parts,
            limit: 4096,
            estimate: Estimate::Raw,
            delimiter: Delimiter::Tab,
            large: false,
            threads: 1,
        },
        counted: false,
    }
}

/// How the node of partition 0 ends that reads this. What it writes goes to the writer.
fn end_of<W: CountedWrite, V: Watch>(
    rt: &HostRuntime,
    job: &JobInput,
    input: &[u8],
    watch: &V,
    writer: &mut W,
) -> Option<Result<(), ServeNodeError>> {
    let state = RandomState::new(rt).ok()?;
    let mut reader = MemReader::new(input, None);
    Some(serve_node(rt.alloc(), state, job, 0, watch, &mut reader, writer))
}
