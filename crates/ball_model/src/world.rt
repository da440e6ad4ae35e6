//! Events of a world and what it answers, and the laws of its runs: the contract of each law is the law, and its body
//! is empty.

ghost use Rattle.std.specs.Prelude.{◌≡◌};
ghost use Rattle.ball_model.specs.Held.{StartIsHeld, TakenIsHeld, ClosedIsHeld, JoinedIsHeld};
ghost use Rattle.ball_model.specs.Held.{TakenIsContent, ClosedIsContent};
ghost use Rattle.ball_model.specs.WorldLaws.{RunsStayWorlds, SentIsInTime, LossLeavesContents};
ghost use Rattle.ball_model.specs.WorldLaws.{OthersStay, RepeatIsNotNew, RecoverTwiceIsOnce};
ghost use Rattle.ball_model.specs.WorldLaws.{RecoveredIsHad, RestartGivesKept, OnlyRestartGoesBack};
ghost use Rattle.ball_model.specs.WorldExamples.{EarlyBatch, RepeatedBatch, WindowEdge};
ghost use Rattle.ball_model.specs.WorldExamples.{Checkpointed, Copied, ThreePartitions, LoneVertex};

use crate::names::{BatchName, CloseError, MergeError, NodeId, TakeError, Taken};
use std::alloc::AllocError;
use thiserror::Error;

/// What happens in a world: one call at one node.
///
/// Messages and copies are numbered from 0 on, and never go away: a message that is lost is one that is not
/// delivered, and one that comes twice is delivered again.
#[derive(Clone, Copy, Debug, PartialEq, Eq)]
pub enum Event {
    /// The node sends a partition the batch of its superstep.
    Send { node: NodeId, target: u16 },
    /// A message comes to the node.
    Deliver { message: u64, node: NodeId },
    /// The node closes its superstep.
    Close { node: NodeId },
    /// The node keeps what it has, in the place of what it kept before.
    Keep { node: NodeId },
    /// The node goes back to what it kept, or to the start if it kept nothing.
    Restart { node: NodeId },
    /// A copy is made of what the node has.
    Copy { node: NodeId },
    /// The node takes over what a copy has.
    Recover { node: NodeId, copy: u64 },
    /// The node is looked at.
    Show { node: NodeId },
}

/// What an event answers that is not refused.
#[derive(Clone, Copy, Debug, PartialEq, Eq)]
pub enum Answer {
    /// The number of the message, its name, how many vertices of its source are changed, and how many rows it has.
    Sent {
        message: u64,
        name: BatchName,
        changed: u32,
        rows: u32,
    },
    /// What became of the message.
    Took(Taken),
    /// Why the message was not taken.
    NotTaken(TakeError),
    /// The superstep that the node is at now.
    Closed {
        superstep: u32,
    },
    /// Why the superstep was not closed.
    NotClosed(CloseError),
    /// The superstep that is kept.
    Kept {
        superstep: u32,
    },
    /// The superstep that the node is at now.
    Restarted {
        superstep: u32,
    },
    /// The number of the copy, and its superstep.
    Copied {
        copy: u64,
        superstep: u32,
    },
    /// The superstep that the node is at now.
    Merged {
        superstep: u32,
    },
    /// Why the copy was not merged.
    NotMerged(MergeError),
    /// The node was looked at.
    Shown,
}

/// Why an event is refused, in the order of the checks.
#[derive(Clone, Copy, Debug, PartialEq, Eq, Error)]
pub enum WorldError {
    /// There is no such node.
    #[error("there is no such node")]
    NoNode,
    /// There is no such partition, or it is the node's own.
    #[error("there is no such target")]
    NoTarget,
    /// No message of that number was sent.
    #[error("there is no such message")]
    NoMessage,
    /// No copy of that number was made.
    #[error("there is no such copy")]
    NoCopy,
    /// The memory that the event asks for is refused.
    #[error("out of memory")]
    Memory,
}

impl From<AllocError> for WorldError {
    ghost use Rattle.ball_model.specs.declared.world.WorldError.TheVariants.{Memory};

    ghost from_gives = { λ _ e. e ≡ Memory };

    fn from(_fault: AllocError) -> WorldError {
        WorldError::Memory
    }
}

/// What a partition starts with, and what it holds after each step, is what it may hold; and no step loses anything of
/// the content that it is.
pub fn steps_stay_held()
    ensures start { StartIsHeld }
    ensures take { TakenIsHeld }
    ensures close { ClosedIsHeld }
    ensures join { JoinedIsHeld }
    ensures taken { TakenIsContent }
    ensures closed { ClosedIsContent }
{}

/// Whatever is lost, comes twice or comes too early, a world stays one of its job: after any list of events each node
/// has, keeps and is copied with a content of its partition, and what is sent is of a superstep of at most the limit.
/// A message that is lost may as well never have been sent: the nodes and the copies come to the same.
pub fn runs_stay_worlds()
    ensures stay { RunsStayWorlds }
    ensures in_time { SentIsInTime }
    ensures loss { LossLeavesContents }
{}

/// An event changes nothing at any other node, and takes its own node to an earlier superstep only if it is a restart.
pub fn nodes_stand_alone()
    ensures others { OthersStay }
    ensures back { OnlyRestartGoesBack }
{}

/// What is done twice is done once, whatever happens between but a restart of the node: a message that comes again is
/// [`Known`](Taken::Known) or [`Old`](Taken::Old), and recovering again from one copy changes nothing.
pub fn twice_is_once()
    ensures repeat { RepeatIsNotNew }
    ensures recover { RecoverTwiceIsOnce }
    ensures again { RecoveredIsHad }
{}

/// A restart gives the content that the node kept last, whatever happened since.
pub fn restart_gives_kept()
    ensures { RestartGivesKept }
{}

/// What the definitions answer to some lists of events, each a short story.
pub fn stories()
    ensures early { EarlyBatch }
    ensures repeated { RepeatedBatch }
    ensures edge { WindowEdge }
    ensures checkpoint { Checkpointed }
    ensures copies { Copied }
    ensures three { ThreePartitions }
    ensures lone { LoneVertex }
{}
