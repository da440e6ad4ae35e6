//! A history that threads share.

ghost use Rattle.std.specs.Prelude.{◌≡◌, ◌≤◌, ◌^◌, [], IfOk, OnOk, IfErr, OnErr, IfSome, IfNone};
ghost use Rattle.std.specs.Prelude.{is_some, true};
ghost use Rattle.std.specs.Arc.{arc_value};
ghost use Rattle.board.specs.declared.error.BoardError.TheVariants.{BookFull, Memory};
ghost use Rattle.ball_model.specs.Job.{IsJob, job_of};
ghost use Rattle.ball_model.specs.Batches.{IsTrueBatch, true_batch};
ghost use Rattle.ball_model.specs.State.{Stands, StandsFor};
ghost use Rattle.ball_model.specs.History.{Post, Fetch, Keep, Recall, Drop, Begins, IsLegal};
ghost use Rattle.ball_model.specs.History.{start_history, entries_of, calls_by, board_of};
ghost use Rattle.ball_model.specs.History.{holding_in, is_kept_from};
ghost use Rattle.ball_model.specs.Caller.{IsCaller, Extends, Called, CalledNothing, IsFull};
ghost use Rattle.ball_model.specs.Caller.{HasRoom, IsAsFar};
ghost use Rattle.board.specs.Seats.{IsAt, KeepsItsNumbers};
ghost use Rattle.board.specs.Rule.{first_view};
ghost use Rattle.board.specs.Turn.{IsSized};

use crate::book::Book;
use crate::error::BoardError;
use crate::rule::{BoardTable, Pass, TellsOfEnded};
use crate::seat::{Grant, Seat};
use crate::turn::{Turn, look_at_length};
use ball_model::{BatchName, Kept, Plan, Posted};
use batches::Batch;
use graph::Graph;
use replica::Snapshot;
use std::alloc::{AllocError, Global};
use std::marker::Model;
use std::snapshot::Snapshot as Seen;
use std::sync::{Arc, Wait};

/// The fewest entries that a history may be limited to.
pub const LEAST_ENTRIES: u32 = 2;

/// The most entries that a history may be limited to.
pub const MOST_ENTRIES: u32 = 1 << 24;

/// How many numbers the first seat has.
const NUMBERS: u64 = 1 << 63;

/// A history that threads share.
///
/// Each call but [`length`](Board::length) and [`join`](Board::join) waits for its turn. If it answers an error it has
/// added no entry, and its seat has seen the whole history.
#[derive(Drop)]
pub struct Board {
    pub(crate) table: BoardTable,
    limit: u32,
}

impl Model for Board {
    ghost use Rattle.board.specs.Seats.{BoardView};

    ghost Value = { BoardView };

    ghost use Rattle.board.specs.Inside.{board_view, IsBoard};

    ghost view = { board_view };

    ghost invariant = { IsBoard };
}

impl Board {
    /// A board whose history has the opening alone, and its first seat, which has number 0.
    ///
    /// The history may have `entries` entries, from 2 to 2^24, the opening among them. The error is that memory was
    /// refused; what is taken here is a place for a snapshot of each partition.
    pub fn open(
        alloc: Global,
        graph: &Graph,
        plan: &Plan,
        entries: u32,
    ) -> Result<(Board, Seat), AllocError>
        requires job { IsJob (job_of graph.now.graph plan.now) }
        requires entries { (LEAST_ENTRIES ≤ entries) × (entries ≤ MOST_ENTRIES) }
        ensures board { IfOk result (λ r. IsAt r.0 r.1) }
        ensures limit { IfOk result (λ r. r.1.caller.limit ≡ entries) }
        ensures number { IfOk result (λ r. r.1.caller.number ≡ 0) }
        ensures room { IfOk result (λ r. r.1.room ≡ 2 ^ 63) }
        ensures seen { IfOk result (λ r.
            r.1.caller.seen ≡ start_history (job_of graph.now.graph plan.now)) }
        ensures legal { IfOk result (λ r. IsCaller r.1.caller) }
    {
        let book = Book::open(alloc, graph, plan)?;
        let (table, pass) = start_table(alloc, book, entries)?;
        let board = Board {
            table,
            limit: entries,
        };
        let grant = Grant {
            pass,
            number: 0,
            room: NUMBERS,
        };
        Ok((board, Seat { grant }))
    }

    /// The number of entries of the history, which the seat has then seen.
    ///
    /// It is one look at a word: it takes no memory, and waits for nobody.
    pub fn length(&self, seat: &mut Seat) -> u64
        requires board { IsAt self.now seat.old }
        ensures numbers { KeepsItsNumbers seat.old seat.new }
        ensures seen { Extends seat.old.caller seat.new.caller }
        ensures nothing { CalledNothing seat.old.caller seat.new.caller }
        ensures length { result ≡ entries_of seat.new.caller.seen }
    {
        look_at_length(&self.table, &mut seat.grant.pass)
    }

    /// The first seat has then seen what both have, and the second ends: its number is never used again.
    ///
    /// It takes no memory, and waits for nobody. For a library's user: the program does not call it.
    pub fn join(&self, seat: &mut Seat, ended: Seat)
        requires board { IsAt self.now seat.old }
        requires ended { IsAt self.now ended }
        ensures numbers { KeepsItsNumbers seat.old seat.new }
        ensures seen { Extends seat.old.caller seat.new.caller }
        ensures nothing { CalledNothing seat.old.caller seat.new.caller }
        ensures both { Begins ended.caller.seen seat.new.caller.seen }
        ensures ended { calls_by ended.caller.number seat.new.caller.seen
            ≡ calls_by ended.caller.number ended.caller.seen }
    {
        let Grant {
            pass,
            number: _,
            room: _,
        } = ended.grant;
        self.table
            .shared
            .join_seat::<TellsOfEnded>(&mut seat.grant.pass, pass);
        look_at_length(&self.table, &mut seat.grant.pass);
    }

    /// Finds the batch of a name: None exactly if the name is not there, and then no entry is added.
    ///
    /// [`BookFull`](BoardError::BookFull) if the name is there and the history is full, then
    /// [`Memory`](BoardError::Memory) (also if the batch is shared 2^63 times). The batch is shared, not copied. It
    /// takes the logarithm of the number of batches on the board.
    #[tactic(auto, using(crate::proofs::GivenLemmas::given))]
    pub fn fetch<R: Wait>(
        &self,
        rt: &R,
        seat: &mut Seat,
        name: BatchName,
    ) -> Result<Option<Arc<Batch>>, BoardError>
        requires board { IsAt self.now seat.old }
        ensures numbers { KeepsItsNumbers seat.old seat.new }
        ensures seen { Extends seat.old.caller seat.new.caller }
        ensures found { IfOk result
            (λ r. IfSome r (λ a. Called seat.old.caller (Fetch name) seat.new.caller)) }
        ensures batch { IfOk result
            (λ r. IfSome r (λ a. arc_value a ≡ true_batch seat.old.caller.seen.job name)) }
        ensures stands { IfOk result
            (λ r. is_some r ≡ (board_of seat.new.caller.seen).stands name) }
        ensures none { IfOk result (λ r. IfNone r (CalledNothing seat.old.caller seat.new.caller)) }
        ensures refused { OnErr result (CalledNothing seat.old.caller seat.new.caller) }
        ensures asked { OnErr result ((board_of seat.new.caller.seen).stands name ≡ true) }
        ensures full { IfErr result (λ e. e ≡ BookFull → IsFull seat.new.caller) }
        ensures memory { IfErr result (λ e. e ≡ Memory → HasRoom seat.new.caller) }
    {
        let mut turn = Turn::take(rt, &self.table, &mut seat.grant);
        let answer = turn.book.fetch(seat.grant.number, name, self.limit);
        turn.give(&self.table, &mut seat.grant);
        answer
    }

    /// Posts a batch, which is the true one of its name: [`Old`](Posted::Old) below the floor, [`Known`](Posted::Known)
    /// if the name is there, else [`New`](Posted::New), and the name is there from then on.
    ///
    /// [`BookFull`](BoardError::BookFull) if the history is full, then [`Memory`](BoardError::Memory). It takes the
    /// logarithm of the number of batches on the board.
    #[tactic(auto, using(crate::proofs::GivenLemmas::given))]
    pub fn post<R: Wait>(
        &self,
        rt: &R,
        seat: &mut Seat,
        batch: Arc<Batch>,
    ) -> Result<Posted, BoardError>
        requires board { IsAt self.now seat.old }
        requires batch { IsTrueBatch seat.old.caller.seen.job (arc_value batch) }
        ensures numbers { KeepsItsNumbers seat.old seat.new }
        ensures seen { Extends seat.old.caller seat.new.caller }
        ensures ok { IfOk result
            (λ r. Called seat.old.caller (Post (arc_value batch).name r) seat.new.caller) }
        ensures refused { OnErr result (CalledNothing seat.old.caller seat.new.caller) }
        ensures full { IfErr result (λ e. e ≡ BookFull → IsFull seat.new.caller) }
        ensures memory { IfErr result (λ e. e ≡ Memory → HasRoom seat.new.caller) }
    {
        let mut turn = Turn::take(rt, &self.table, &mut seat.grant);
        let answer = turn.book.post(seat.grant.number, &batch, self.limit);
        turn.give(&self.table, &mut seat.grant);
        answer
    }

    /// Keeps a snapshot of the job: [`New`](Kept::New) if it is further than the one kept for its partition, which it
    /// takes the place of, else [`Behind`](Kept::Behind).
    ///
    /// [`BookFull`](BoardError::BookFull) if the history is full, then [`Memory`](BoardError::Memory). The snapshot is
    /// moved, not copied; the one that it displaces is dropped after the turn.
    #[tactic(auto, using(crate::proofs::GivenLemmas::given))]
    pub fn keep<R: Wait>(
        &self,
        rt: &R,
        seat: &mut Seat,
        snapshot: Arc<Snapshot>,
    ) -> Result<Kept, BoardError>
        requires board { IsAt self.now seat.old }
        requires snapshot { Stands seat.old.caller.seen.job (arc_value snapshot) }
        ensures numbers { KeepsItsNumbers seat.old seat.new }
        ensures seen { Extends seat.old.caller seat.new.caller }
        ensures ok { IfOk result
            (λ r. Called seat.old.caller (Keep (holding_in (arc_value snapshot)) r)
            seat.new.caller) }
        ensures refused { OnErr result (CalledNothing seat.old.caller seat.new.caller) }
        ensures full { IfErr result (λ e. e ≡ BookFull → IsFull seat.new.caller) }
        ensures memory { IfErr result (λ e. e ≡ Memory → HasRoom seat.new.caller) }
    {
        let mut turn = Turn::take(rt, &self.table, &mut seat.grant);
        let answer = turn.book.keep(seat.grant.number, &snapshot, self.limit);
        turn.give(&self.table, &mut seat.grant);
        let (reply, _displaced) = answer?;
        Ok(reply)
    }

    /// Finds the snapshot that is kept for a partition: None exactly if there is none whose superstep is `at_least`
    /// or later, and then no entry is added. It is at least as far as what the seat had seen kept.
    ///
    /// [`BookFull`](BoardError::BookFull) if there is one and the history is full, then [`Memory`](BoardError::Memory)
    /// (also if it is shared 2^63 times). The snapshot is shared, not copied.
    #[tactic(auto, using(crate::proofs::GivenLemmas::given))]
    pub fn recall<R: Wait>(
        &self,
        rt: &R,
        seat: &mut Seat,
        part: u16,
        at_least: u32,
    ) -> Result<Option<Arc<Snapshot>>, BoardError>
        requires board { IsAt self.now seat.old }
        ensures numbers { KeepsItsNumbers seat.old seat.new }
        ensures seen { Extends seat.old.caller seat.new.caller }
        ensures found { IfOk result (λ r. IfSome r
            (λ a. Called seat.old.caller (Recall part at_least (holding_in (arc_value a)))
            seat.new.caller)) }
        ensures snapshot { IfOk result (λ r. IfSome r (λ a.
            StandsFor seat.old.caller.seen.job part (arc_value a).superstep (arc_value a))) }
        ensures furthest { IfOk result
            (λ r. IfSome r (λ a. IsAsFar seat.old.caller part (arc_value a).superstep)) }
        ensures far { IfOk result
            (λ r. is_some r ≡ is_kept_from ((board_of seat.new.caller.seen).kept part) at_least) }
        ensures none { IfOk result (λ r. IfNone r (CalledNothing seat.old.caller seat.new.caller)) }
        ensures refused { OnErr result (CalledNothing seat.old.caller seat.new.caller) }
        ensures asked { OnErr result
            (is_kept_from ((board_of seat.new.caller.seen).kept part) at_least ≡ true) }
        ensures full { IfErr result (λ e. e ≡ BookFull → IsFull seat.new.caller) }
        ensures memory { IfErr result (λ e. e ≡ Memory → HasRoom seat.new.caller) }
    {
        let mut turn = Turn::take(rt, &self.table, &mut seat.grant);
        let answer = turn
            .book
            .recall(seat.grant.number, part, at_least, self.limit);
        turn.give(&self.table, &mut seat.grant);
        answer
    }

    /// Raises the floor to `superstep` at least, and drops the batches below it.
    ///
    /// [`BookFull`](BoardError::BookFull) if the history is full, then [`Memory`](BoardError::Memory). The batches are
    /// freed after the turn.
    #[tactic(auto, using(crate::proofs::GivenLemmas::given))]
    pub fn drop_below<R: Wait>(
        &self,
        rt: &R,
        seat: &mut Seat,
        superstep: u32,
    ) -> Result<(), BoardError>
        requires board { IsAt self.now seat.old }
        ensures numbers { KeepsItsNumbers seat.old seat.new }
        ensures seen { Extends seat.old.caller seat.new.caller }
        ensures ok { OnOk result (Called seat.old.caller (Drop superstep) seat.new.caller) }
        ensures refused { OnErr result (CalledNothing seat.old.caller seat.new.caller) }
        ensures full { IfErr result (λ e. e ≡ BookFull → IsFull seat.new.caller) }
        ensures memory { IfErr result (λ e. e ≡ Memory → HasRoom seat.new.caller) }
    {
        let mut turn = Turn::take(rt, &self.table, &mut seat.grant);
        let answer = turn
            .book
            .drop_below(seat.grant.number, superstep, self.limit);
        turn.give(&self.table, &mut seat.grant);
        let _dropped = answer?;
        Ok(())
    }
}

// The table round a book that has the opening alone, and what its first seat knows.
fn start_table(alloc: Global, book: Book, entries: u32) -> Result<(BoardTable, Pass), AllocError>
    requires book { IsLegal book × (book.calls ≡ []) }
    requires entries { 1 ≤ entries }
    ensures { IfOk result (λ r. IsSized r.0.shared.table_id
        × (r.1.table_id ≡ r.0.shared.table_id) × (r.1.me ≡ (first_view book entries, []))) }
{
    let about = (Seen::of(&book), entries);
    let mut slots = Vec::new(alloc);
    slots.push(Some(book))?;
    BoardTable::new(alloc, &[1, 0, 0], slots, &about).map_err(|_| AllocError)
}
