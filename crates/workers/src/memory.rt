//! A board of one caller.

ghost use Rattle.std.specs.Prelude.{◌≡◌, ◌≤◌, IfOk};
ghost use Rattle.ball_model.specs.Job.{IsJob, job_of};
ghost use Rattle.ball_model.specs.History.{start_history};
ghost use Rattle.ball_model.specs.Caller.{IsCaller};
ghost use Rattle.board.specs.Seats.{IsAt};
ghost use Rattle.board.specs.declared.board.TheConstants.{LEAST_ENTRIES, MOST_ENTRIES};

use crate::exchange::Exchange;
use ball_model::{BatchName, Kept, Plan, Posted};
use batches::Batch;
use board::{Board, BoardError, Seat};
use edgelist::Graph;
use replica::Snapshot;
use std::alloc::{AllocError, Global};
use std::sync::{Arc, Wait};

/// A board of one caller: nobody else has a seat there, so no call ever waits.
///
/// For a library's user: the program does not call it.
#[derive(Drop)]
pub struct MemoryExchange {
    board: Board,
    seat: Seat,
    ghost tied: { IsAt board seat },
}

impl MemoryExchange {
    /// A board whose history has the opening alone, and may have `entries` entries, from 2 to 2^24.
    ///
    /// The error is that memory was refused; what is taken here is a place for a snapshot of each partition.
    pub fn open(
        alloc: Global,
        graph: &Graph,
        plan: &Plan,
        entries: u32,
    ) -> Result<MemoryExchange, AllocError>
        requires job { IsJob (job_of graph.now.graph plan.now) }
        requires entries { (LEAST_ENTRIES ≤ entries) × (entries ≤ MOST_ENTRIES) }
        ensures limit { IfOk result (λ x. x.seat.caller.limit ≡ entries) }
        ensures number { IfOk result (λ x. x.seat.caller.number ≡ 0) }
        ensures seen { IfOk result (λ x.
            x.seat.caller.seen ≡ start_history (job_of graph.now.graph plan.now)) }
        ensures legal { IfOk result (λ x. IsCaller x.seat.caller) }
    {
        let (board, seat) = Board::open(alloc, graph, plan, entries)?;
        Ok(MemoryExchange { board, seat })
    }
}

impl Exchange for MemoryExchange {
    ghost caller = { λ x. x.seat.caller };

    fn post<R: Wait>(&mut self, rt: &R, batch: Arc<Batch>) -> Result<Posted, BoardError> {
        self.board.post(rt, &mut self.seat, batch)
    }

    fn fetch<R: Wait>(
        &mut self,
        rt: &R,
        name: BatchName,
    ) -> Result<Option<Arc<Batch>>, BoardError> {
        self.board.fetch(rt, &mut self.seat, name)
    }

    fn keep<R: Wait>(&mut self, rt: &R, snapshot: Arc<Snapshot>) -> Result<Kept, BoardError> {
        self.board.keep(rt, &mut self.seat, snapshot)
    }

    fn recall<R: Wait>(
        &mut self,
        rt: &R,
        part: u16,
        at_least: u32,
    ) -> Result<Option<Arc<Snapshot>>, BoardError> {
        self.board.recall(rt, &mut self.seat, part, at_least)
    }

    fn drop_below<R: Wait>(&mut self, rt: &R, superstep: u32) -> Result<(), BoardError> {
        self.board.drop_below(rt, &mut self.seat, superstep)
    }

    fn length(&mut self) -> u64 {
        self.board.length(&mut self.seat)
    }
}
