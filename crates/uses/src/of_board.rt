//! The board that threads share.

ghost use Rattle.std.specs.Prelude.{◌≡◌, IfOk, IfSome};
ghost use Rattle.std.specs.Arc.{arc_value};
ghost use Rattle.ball_model.specs.Batches.{IsTrueBatch, true_batch};
ghost use Rattle.ball_model.specs.History.{Begins, entries_of};
ghost use Rattle.ball_model.specs.Job.{IsJob, job_of};
ghost use Rattle.board.specs.Seats.{IsAt};

use ball_model::Plan;
use batches::Batch;
use board::{Board, BoardError, Seat};
use graph::Graph;
use std::alloc::{AllocError, Global};
use std::sync::{Arc, Wait};

/// A board of at most 1,000 entries with seats for two threads.
pub fn board_for_two(
    alloc: Global,
    graph: &Graph,
    plan: &Plan,
) -> Result<(Board, Seat, Seat), AllocError>
    requires { IsJob (job_of graph.now.graph plan.now) }
    ensures first { IfOk result (λ r. IsAt r.0 r.1) }
    ensures second { IfOk result (λ r. IsAt r.0 r.2) }
{
    let (board, mut first) = Board::open(alloc, graph, plan, 1000)?;
    let second = first.split(&board);
    Ok((board, first, second))
}

/// One seat posts a true batch. What another then finds under that name is a true batch, too.
pub fn post_and_fetch<R: Wait>(
    rt: &R,
    board: &Board,
    first: &mut Seat,
    second: &mut Seat,
    batch: Arc<Batch>,
) -> Result<Option<Arc<Batch>>, BoardError>
    requires first { IsAt board.now first.old }
    requires second { IsAt board.now second.old }
    requires batch { IsTrueBatch first.old.caller.seen.job (arc_value batch) }
    ensures { IfOk result (λ found. IfSome found (λ b.
        arc_value b ≡ true_batch second.old.caller.seen.job (arc_value batch).name)) }
{
    let name = batch.name();
    board.post(rt, first, batch)?;
    board.fetch(rt, second, name)
}

/// A thread has ended, and its seat is joined to another, which has then seen what it had. The answer is how many entries
/// that one has seen.
pub fn join_and_count(board: &Board, seat: &mut Seat, ended: Seat) -> u64
    requires seat { IsAt board.now seat.old }
    requires ended { IsAt board.now ended }
    ensures seen { Begins ended.caller.seen seat.new.caller.seen }
    ensures count { result ≡ entries_of seat.new.caller.seen }
{
    board.join(seat, ended);
    board.length(seat)
}
