//! The lines of progress.

use ball_model::NodeId;
use std::fmt;
use std::fmt::Display;

/// A line of progress.
#[derive(Clone, Copy, Debug)]
pub enum ProgressLine {
    /// No plan has this log2m, whatever the graph.
    NoLog2m {
        log2m: u8,
    },
    /// No plan has this number of partitions.
    NoParts {
        parts: u16,
    },
    /// No plan has this limit.
    NoLimit {
        limit: u32,
    },
    /// Some records of an edge list are read so far.
    Reading {
        records: u64,
    },
    /// An edge list is read.
    Read {
        records: u64,
        vertices: u32,
    },
    /// A first node is at superstep 0.
    Start,
    /// All partitions have come to a superstep.
    Superstep {
        superstep: u32,
        changed: u64,
        vertices: u32,
    },
    /// A node has closed a superstep, and is at this one; vertices are those of its partition.
    Close {
        node: NodeId,
        superstep: u32,
        changed: u32,
        vertices: u32,
    },
    /// The report is written.
    Report,
    /// The answers are written.
    Answers,
    /// All commands are answered.
    Commands,
}

impl Display for ProgressLine {
    ghost use Rattle.std.specs.Prelude.{Some};
    ghost use Rattle.hyperball.specs.Progress.{progress_line};

    ghost output = { λ line. Some (progress_line line) };

    fn fmt<W: fmt::Write>(&self, f: &mut fmt::Formatter<W>) -> fmt::Result {
        match *self {
            ProgressLine::NoLog2m { log2m } => {
                write!(
                    f,
                    "hyperball: no plan has log2m {log2m} (4 to 10 are allowed): the job will be refused once the edge list is read"
                )
            }
            ProgressLine::NoParts { parts } => {
                write!(
                    f,
                    "hyperball: no plan has parts {parts} (1 to 64 are allowed): the job will be refused once the edge list is read"
                )
            }
            ProgressLine::NoLimit { limit } => {
                write!(
                    f,
                    "hyperball: no plan has limit {limit} (1 to 4096 are allowed): the job will be refused once the edge list is read"
                )
            }
            ProgressLine::Reading { records } => {
                write!(f, "hyperball: {records} records are read so far")
            }
            ProgressLine::Read { records, vertices } => {
                write!(
                    f,
                    "hyperball: {records} records and {vertices} vertices are read"
                )
            }
            ProgressLine::Start => write!(f, "hyperball: the supersteps begin"),
            ProgressLine::Superstep {
                superstep,
                changed,
                vertices,
            } => {
                write!(
                    f,
                    "hyperball: superstep {superstep}, {changed} of {vertices} vertices changed"
                )
            }
            ProgressLine::Close {
                node,
                superstep,
                changed,
                vertices,
            } => {
                let NodeId { part, replica } = node;
                write!(
                    f,
                    "hyperball: node {part}.{replica} at superstep {superstep}, {changed} of its {vertices} vertices changed"
                )
            }
            ProgressLine::Report => write!(f, "hyperball: the report is written"),
            ProgressLine::Answers => write!(f, "hyperball: the answers are written"),
            ProgressLine::Commands => write!(f, "hyperball: the commands are answered"),
        }
    }
}
