//! What words are read as, and the texts of faults.

use super::*;
use crate::cli::gather::GatherArgs;
use crate::cli::one_node::NodeArgs;
use crate::cli::run::RunArgs;
use crate::cli::{Subcommand, read_words};
use crate::laws::{
    lines_of_progress, lists_of_orders, words_of_a_node, words_of_a_replay, words_of_a_run,
    words_of_no_command, words_of_no_node, words_of_no_progress, words_of_no_replay,
    words_of_no_run, words_of_one_command, words_of_progress,
};
use crate::whole::WholeError;
use ball_model::{Estimate, NodeId, PlanError};
use edgelist::{CountedError, Delimiter, EdgeError};
use job::{JobInput, JobOptions};
use std::fmt::Display;
use std::io::Write;
use workers::RunError;

/// Whether a fault prints as this text.
fn prints<F: Display>(fault: &F, text: &'static str) -> bool {
    let mut told = Compared::of(text.as_bytes(), usize::MAX);
    write!(told, "{fault}").is_ok() && told.is_whole()
}

static FAULT_TEXTS: [(RunError, &str); 18] = [
    (RunError::Options, "an option does not fit the job"),
    (
        RunError::PartitionLost { part: 7 },
        "every replica of partition 7 was lost",
    ),
    (RunError::BookFull, "the book is full"),
    (
        RunError::Starved {
            node: NodeId {
                part: 3,
                replica: 1,
            },
            superstep: 5,
            source: 2,
        },
        "node 3.1 waited in vain at superstep 5 for partition 2",
    ),
    (
        RunError::Edges(EdgeError::Read),
        "the edge list cannot be read",
    ),
    (RunError::Edges(EdgeError::TooManyEdges), "too many records"),
    (
        RunError::Edges(EdgeError::Fields { number: 7 }),
        "record 7 has not one or two identifiers",
    ),
    (
        RunError::Edges(EdgeError::TooManyVertices),
        "too many vertices",
    ),
    (RunError::Edges(EdgeError::Memory), "out of memory"),
    (
        RunError::Counted(CountedError::Fields { number: 7 }),
        "record 7 of the list is not one identifier",
    ),
    (
        RunError::Counted(CountedError::Unknown { number: 7 }),
        "record 7 of the list names no vertex",
    ),
    (RunError::Counted(CountedError::Memory), "out of memory"),
    (
        RunError::Plan(PlanError::Log2m),
        "log2m is not from 4 to 10",
    ),
    (
        RunError::Plan(PlanError::Parts),
        "parts is not from 1 to 64",
    ),
    (
        RunError::Plan(PlanError::Limit),
        "limit is not from 1 to 4096",
    ),
    (RunError::Plan(PlanError::Vertices), "too many vertices"),
    (RunError::Memory, "out of memory"),
    (RunError::Write, "the output cannot be written"),
];

static WHOLE_TEXTS: [(WholeError, &str); 3] = [
    (WholeError::Read, "the input cannot be read"),
    (WholeError::Size, "the input is longer than 67108864 bytes"),
    (WholeError::Memory, "out of memory"),
];

/// Each fault prints as its text.
fn all_print<H: Host, F: Display>(rt: &H, texts: &[(F, &'static str)]) {
    for (fault, text) in texts {
        assert!(rt; prints(fault, *text), "{text}");
    }
}

#[test]
fn texts_of_faults(rt: HostRuntime) {
    all_print(&rt, &FAULT_TEXTS);
    all_print(&rt, &WHOLE_TEXTS);
}

/// What the words of a run ask of its job below.
const RUN_JOB: JobInput = JobInput {
    options: JobOptions {
        log2m: 8,
        seed: 7,
        parts: 1,
        limit: 4096,
        estimate: Estimate::Corrected,
        delimiter: Delimiter::Space,
        large: true,
        threads: 1024,
    },
    counted: true,
};

/// The options of a job if none is given.
const USUAL_JOB: JobInput = JobInput {
    options: JobOptions {
        log2m: 8,
        seed: 0,
        parts: 1,
        limit: 4096,
        estimate: Estimate::Raw,
        delimiter: Delimiter::Tab,
        large: false,
        threads: 0,
    },
    counted: false,
};

/// Those of a large edge list.
const LARGE_JOB: JobInput = JobInput {
    options: JobOptions {
        log2m: 8,
        seed: 0,
        parts: 1,
        limit: 4096,
        estimate: Estimate::Raw,
        delimiter: Delimiter::Tab,
        large: true,
        threads: 0,
    },
    counted: false,
};

/// Those of a large edge list, with a number of threads.
const LARGE_SHARED_JOB: JobInput = JobInput {
    options: JobOptions {
        log2m: 8,
        seed: 0,
        parts: 1,
        limit: 4096,
        estimate: Estimate::Raw,
        delimiter: Delimiter::Tab,
        large: true,
        threads: 3,
    },
    counted: false,
};

/// Nodes, each at a superstep.
type Orders = &'static [(NodeId, u32)];

/// What words are read as: a run has replicas, entries, keep and patience, and nodes that are lost or that start anew.
enum Reading {
    Run(JobInput, (u8, u32, u32, u32), Orders, Orders),
    Node(NodeArgs),
    Gather(GatherArgs),
}

/// Whether a run is to be so.
fn runs_as(words: &RunArgs, job: &JobInput, numbers: &(u8, u32, u32, u32)) -> bool {
    let options = &words.options;
    options.job() == job.options
        && words.counted == job.counted
        && (
            options.replicas,
            options.entries,
            options.keep,
            options.patience,
        ) == *numbers
}

/// Whether words are read so.
fn is_read_as(subcommand: &Subcommand, reading: &Reading) -> bool {
    match (subcommand, reading) {
        (Subcommand::Run(words), Reading::Run(job, numbers, lost, restarted)) => {
            runs_as(words, job, numbers)
                && words.options.lose.as_slice() == *lost
                && words.options.restart.as_slice() == *restarted
        }
        (Subcommand::Node(words), Reading::Node(wanted)) => words == wanted,
        (Subcommand::Gather(words), Reading::Gather(wanted)) => words == wanted,
        _ => false,
    }
}

/// Whether these words say so.
fn say(alloc: Global, words: &[String], reading: &Reading) -> bool {
    match read_words(alloc, words) {
        Ok(subcommand) => is_read_as(&subcommand, reading),
        Err(_) => false,
    }
}

/// Whether the words of a line say so.
fn says(alloc: Global, line: &str, reading: &Reading) -> bool {
    match words_of(alloc, line) {
        Ok(words) => say(alloc, &words, reading),
        Err(_) => false,
    }
}

/// Words, and what they are read as.
static READINGS: [(&str, Reading); 8] = [
    (
        "hyperball run --seed 7 --estimate corrected --delimiter space --counted --replicas 2 --keep 0 \
        --patience 7 --threads 1024 --lose 0.1@999999999 --restart 65535.255@0,1.0@10 --large",
        Reading::Run(
            RUN_JOB,
            (2, 1_048_576, 0, 7),
            &[(
                NodeId {
                    part: 0,
                    replica: 1,
                },
                999_999_999,
            )],
            &[
                (
                    NodeId {
                        part: 65_535,
                        replica: 255,
                    },
                    0,
                ),
                (
                    NodeId {
                        part: 1,
                        replica: 0,
                    },
                    10,
                ),
            ],
        ),
    ),
    (
        "hyperball node",
        Reading::Node(NodeArgs {
            job: USUAL_JOB,
            part: 0,
            progress: false,
        }),
    ),
    (
        "hyperball node --part 3",
        Reading::Node(NodeArgs {
            job: USUAL_JOB,
            part: 3,
            progress: false,
        }),
    ),
    (
        "hyperball node --progress --part 3",
        Reading::Node(NodeArgs {
            job: USUAL_JOB,
            part: 3,
            progress: true,
        }),
    ),
    (
        "hyperball gather",
        Reading::Gather(GatherArgs {
            job: USUAL_JOB,
            progress: false,
        }),
    ),
    (
        "hyperball gather --progress",
        Reading::Gather(GatherArgs {
            job: USUAL_JOB,
            progress: true,
        }),
    ),
    (
        "hyperball node --large",
        Reading::Node(NodeArgs {
            job: LARGE_JOB,
            part: 0,
            progress: false,
        }),
    ),
    (
        "hyperball gather --large --threads 3",
        Reading::Gather(GatherArgs {
            job: LARGE_SHARED_JOB,
            progress: false,
        }),
    ),
];

#[test]
fn words_are_read(rt: HostRuntime) {
    for (line, reading) in &READINGS {
        assert!(rt; says(rt.alloc(), *line, reading), "{line}");
    }
}

#[test]
fn laws_are_called() {
    lines_of_progress();
    words_of_a_run();
    words_of_no_run();
    words_of_a_replay();
    words_of_no_replay();
    words_of_a_node();
    words_of_no_node();
    words_of_no_command();
    words_of_one_command();
    words_of_progress();
    words_of_no_progress();
    lists_of_orders();
}
