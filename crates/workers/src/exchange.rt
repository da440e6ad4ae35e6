//! What a node asks of the others: the calls of a board.

ghost use Rattle.std.specs.Prelude.{◌≡◌, IfOk, OnOk, IfErr, OnErr, IfSome, IfNone, is_some, true};
ghost use Rattle.std.specs.Arc.{arc_value};
ghost use Rattle.board.specs.declared.error.BoardError.TheVariants.{BookFull, Memory};
ghost use Rattle.ball_model.specs.Batches.{IsTrueBatch, true_batch};
ghost use Rattle.ball_model.specs.State.{Stands, StandsFor};
ghost use Rattle.ball_model.specs.History.{Post, Fetch, Keep, Recall, Drop, board_of, entries_of};
ghost use Rattle.ball_model.specs.History.{holding_in, is_kept_from};
ghost use Rattle.board.specs.Seats.{IsAt};
ghost use Rattle.ball_model.specs.Caller.{Called, CalledNothing, Caller, Extends, HasRoom, IsAsFar};
ghost use Rattle.ball_model.specs.Caller.{IsFull};

use ball_model::{BatchName, Kept, Posted};
use batches::Batch;
use board::{Board, BoardError, Seat};
use replica::Snapshot;
use std::sync::{Arc, Wait};

/// A place at a board, or what stands in for one.
///
/// The calls, their answers and their errors are those of a board; who calls is a member that contracts see. If a call
/// answers an error it has added no entry, and the caller has then seen the whole history.
pub trait Exchange {
    ghost caller: { Self → Caller };

    /// Posts a batch, which is the true one of its name: [`Old`](Posted::Old) below the floor, [`Known`](Posted::Known)
    /// if the name is there, else [`New`](Posted::New), and the name is there from then on.
    ///
    /// [`BookFull`](BoardError::BookFull) if the history is full, then [`Memory`](BoardError::Memory).
    fn post<R: Wait>(&mut self, rt: &R, batch: Arc<Batch>) -> Result<Posted, BoardError>
        requires batch { IsTrueBatch (caller self.old).seen.job (arc_value batch) }
        ensures seen { Extends (caller self.old) (caller self.new) }
        ensures ok { IfOk result (λ r.
            Called (caller self.old) (Post (arc_value batch).name r) (caller self.new)) }
        ensures refused { OnErr result (CalledNothing (caller self.old) (caller self.new)) }
        ensures full { IfErr result (λ e. e ≡ BookFull → IsFull (caller self.new)) }
        ensures memory { IfErr result (λ e. e ≡ Memory → HasRoom (caller self.new)) };

    /// Finds the batch of a name: None exactly if the name is not there, and then no entry is added.
    ///
    /// [`BookFull`](BoardError::BookFull) if the name is there and the history is full, then
    /// [`Memory`](BoardError::Memory).
    fn fetch<R: Wait>(&mut self, rt: &R, name: BatchName) -> Result<Option<Arc<Batch>>, BoardError>
        ensures seen { Extends (caller self.old) (caller self.new) }
        ensures found { IfOk result (λ r. IfSome r (λ a.
            Called (caller self.old) (Fetch name) (caller self.new))) }
        ensures batch { IfOk result (λ r. IfSome r (λ a.
            arc_value a ≡ true_batch (caller self.old).seen.job name)) }
        ensures stands { IfOk result (λ r.
            is_some r ≡ (board_of (caller self.new).seen).stands name) }
        ensures none { IfOk result (λ r. IfNone r
            (CalledNothing (caller self.old) (caller self.new))) }
        ensures refused { OnErr result (CalledNothing (caller self.old) (caller self.new)) }
        ensures asked { OnErr result ((board_of (caller self.new).seen).stands name ≡ true) }
        ensures full { IfErr result (λ e. e ≡ BookFull → IsFull (caller self.new)) }
        ensures memory { IfErr result (λ e. e ≡ Memory → HasRoom (caller self.new)) };

    /// Keeps a snapshot of the job: [`New`](Kept::New) if it is further than the one kept for its partition, which it
    /// takes the place of, else [`Behind`](Kept::Behind).
    ///
    /// [`BookFull`](BoardError::BookFull) if the history is full, then [`Memory`](BoardError::Memory).
    fn keep<R: Wait>(&mut self, rt: &R, snapshot: Arc<Snapshot>) -> Result<Kept, BoardError>
        requires snapshot { Stands (caller self.old).seen.job (arc_value snapshot) }
        ensures seen { Extends (caller self.old) (caller self.new) }
        ensures ok { IfOk result (λ r.
            Called (caller self.old) (Keep (holding_in (arc_value snapshot)) r) (caller self.new)) }
        ensures refused { OnErr result (CalledNothing (caller self.old) (caller self.new)) }
        ensures full { IfErr result (λ e. e ≡ BookFull → IsFull (caller self.new)) }
        ensures memory { IfErr result (λ e. e ≡ Memory → HasRoom (caller self.new)) };

    /// Finds the snapshot that is kept for a partition: None exactly if there is none of superstep `at_least` or later, and
    /// then no entry is added. It is at least as far as what the caller had seen kept.
    ///
    /// [`BookFull`](BoardError::BookFull) if there is one and the history is full, then [`Memory`](BoardError::Memory).
    fn recall<R: Wait>(
        &mut self,
        rt: &R,
        part: u16,
        at_least: u32,
    ) -> Result<Option<Arc<Snapshot>>, BoardError>
        ensures seen { Extends (caller self.old) (caller self.new) }
        ensures found { IfOk result (λ r. IfSome r (λ a. Called (caller self.old)
            (Recall part at_least (holding_in (arc_value a))) (caller self.new))) }
        ensures snapshot { IfOk result (λ r. IfSome r (λ a.
            StandsFor (caller self.old).seen.job part (arc_value a).superstep (arc_value a))) }
        ensures furthest { IfOk result (λ r. IfSome r (λ a.
            IsAsFar (caller self.old) part (arc_value a).superstep)) }
        ensures far { IfOk result (λ r.
            is_some r ≡ is_kept_from ((board_of (caller self.new).seen).kept part) at_least) }
        ensures none { IfOk result (λ r. IfNone r
            (CalledNothing (caller self.old) (caller self.new))) }
        ensures refused { OnErr result (CalledNothing (caller self.old) (caller self.new)) }
        ensures asked { OnErr result
            (is_kept_from ((board_of (caller self.new).seen).kept part) at_least ≡ true) }
        ensures full { IfErr result (λ e. e ≡ BookFull → IsFull (caller self.new)) }
        ensures memory { IfErr result (λ e. e ≡ Memory → HasRoom (caller self.new)) };

    /// Raises the floor to `superstep` at least, and drops the batches below it.
    ///
    /// [`BookFull`](BoardError::BookFull) if the history is full, then [`Memory`](BoardError::Memory).
    fn drop_below<R: Wait>(&mut self, rt: &R, superstep: u32) -> Result<(), BoardError>
        ensures seen { Extends (caller self.old) (caller self.new) }
        ensures ok { OnOk result (Called (caller self.old) (Drop superstep) (caller self.new)) }
        ensures refused { OnErr result (CalledNothing (caller self.old) (caller self.new)) }
        ensures full { IfErr result (λ e. e ≡ BookFull → IsFull (caller self.new)) }
        ensures memory { IfErr result (λ e. e ≡ Memory → HasRoom (caller self.new)) };

    /// The number of entries of the history, which the caller has then seen. It takes no memory, and waits for nobody.
    fn length(&mut self) -> u64
        ensures seen { Extends (caller self.old) (caller self.new) }
        ensures nothing { CalledNothing (caller self.old) (caller self.new) }
        ensures length { result ≡ entries_of (caller self.new).seen };
}

/// A seat, with its board lent.
#[derive(Drop)]
pub struct BoardExchange<'a> {
    board: &'a Board,
    seat: Seat,
    ghost tied: { IsAt board.now seat },
}

impl<'a> BoardExchange<'a> {
    /// The place of a seat at its board.
    pub fn new(board: &'a Board, seat: Seat) -> BoardExchange<'a>
        requires board { IsAt board.now seat }
        ensures seat { result.seat ≡ seat }
    {
        BoardExchange { board, seat }
    }
}

impl<'a> Exchange for BoardExchange<'a> {
    ghost caller = { λ x. x.seat.caller };

    fn post<R: Wait>(&mut self, rt: &R, batch: Arc<Batch>) -> Result<Posted, BoardError> {
        self.board.post(rt, &mut self.seat, batch)
    }

    fn fetch<R: Wait>(
        &mut self,
        rt: &R,
        name: BatchName,
    ) -> Result<Option<Arc<Batch>>, BoardError> {
        self.board.fetch(rt, &mut self.seat, name)
    }

    fn keep<R: Wait>(&mut self, rt: &R, snapshot: Arc<Snapshot>) -> Result<Kept, BoardError> {
        self.board.keep(rt, &mut self.seat, snapshot)
    }

    fn recall<R: Wait>(
        &mut self,
        rt: &R,
        part: u16,
        at_least: u32,
    ) -> Result<Option<Arc<Snapshot>>, BoardError> {
        self.board.recall(rt, &mut self.seat, part, at_least)
    }

    fn drop_below<R: Wait>(&mut self, rt: &R, superstep: u32) -> Result<(), BoardError> {
        self.board.drop_below(rt, &mut self.seat, superstep)
    }

    fn length(&mut self) -> u64 {
        self.board.length(&mut self.seat)
    }
}
