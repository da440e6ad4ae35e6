//! What no clause says: worked calls of boards, a full book, and threads at one board.

ghost use Rattle.std.specs.Prelude.{◌≡◌, ◌-◌, ◌≤◌, ◌^◌, ℕ, IfSome};
ghost use Rattle.std.specs.List.{All};
ghost use Rattle.std.specs.Arc.{arc_value};
ghost use Rattle.ball_model.specs.Job.{Job, IsJob, job_of};
ghost use Rattle.ball_model.specs.Batches.{IsTrueBatch};
ghost use Rattle.ball_model.specs.State.{Stands};
ghost use Rattle.board.specs.Rule.{share};
ghost use Rattle.board.specs.Seats.{BoardView, IsAt};
ghost use Rattle.board.specs.declared.board.TheConstants.{LEAST_ENTRIES, MOST_ENTRIES};

mod calls;
mod opened;
mod seats;
mod threads;

use ball_model::{Kept, Plan, Posted};
use batches::Batch;
use board::{Board, BoardError, LEAST_ENTRIES, MOST_ENTRIES, Seat};
use graph::{Graph, GraphBuilder};
use replica::{Replica, Shown, Snapshot};
use std::alloc::{AllocGlobal, Global};
use std::hash::RandomState;
use std::marker::Model;
use std::random::RandomSource;
use std::sync::{Arc, Wait};
use std::test::Fail;
use std::thread;
use std::thread::Threads;

/// A graph, and a plan: a job.
#[derive(Drop)]
struct Setting {
    graph: Graph,
    plan: Plan,
}

impl Model for Setting {
    ghost Value = { Job };

    ghost view = { λ s. job_of s.graph.graph s.plan };

    ghost invariant = { λ s. IsJob (job_of s.graph.graph s.plan) };
}

/// The two edges in `parts` partitions. Of two, a and c are in the first, and b in the second.
fn two_edges<R: AllocGlobal + RandomSource>(rt: &R, parts: u16) -> Option<Setting> {
    let alloc = rt.alloc();
    let mut builder = GraphBuilder::new(alloc, RandomState::new(rt).ok()?);
    builder.edge(alloc, b"a", b"b").ok()?;
    builder.edge(alloc, b"b", b"c").ok()?;
    let graph = builder.finish(alloc).ok()?;
    let plan = graph.plan(4, 0, parts, 4096).ok()?;
    Some(Setting { graph, plan })
}

/// A value that may be shared.
fn shared<T: Drop>(alloc: Global, value: T) -> Option<Arc<T>>
    ensures { IfSome result (λ a. arc_value a ≡ value) }
{
    Arc::new(alloc, value).ok()
}

/// A value in a box.
fn boxed<T: Drop>(alloc: Global, value: T) -> Option<Box<T>>
    ensures { IfSome result (λ b. b.value ≡ value) }
{
    Box::new(alloc, value).ok()
}

/// A replica of a partition at superstep 0. (It is in a box: a function that owns one is checked much faster.)
fn replica(alloc: Global, setting: &Setting, p: u16) -> Option<Box<Replica>>
    ensures { IfSome result (λ r. Stands setting.now r.value) }
{
    if p >= setting.plan.parts() {
        return None;
    }
    let Ok(part) = setting.graph.part(alloc, &setting.plan, p) else {
        return None;
    };
    let shared = shared(alloc, part)?;
    let Ok(replica) = Replica::new(alloc, shared) else {
        return None;
    };
    boxed(alloc, replica)
}

/// The batch that a replica has for a partition.
fn told(alloc: Global, setting: &Setting, from: &Replica, target: u16) -> Option<Arc<Batch>>
    requires { Stands setting.now from.now }
    ensures { IfSome result (λ a. IsTrueBatch setting.now (arc_value a)) }
{
    if target >= from.plan().parts() || target == from.partition() {
        return None;
    }
    let Ok(batch) = from.out(alloc, target) else {
        return None;
    };
    shared(alloc, batch)
}

/// What a replica has.
fn snapshot_of(alloc: Global, setting: &Setting, from: &mut Replica) -> Option<Arc<Snapshot>>
    requires { Stands setting.now from.old }
    ensures snapshot { IfSome result (λ a. Stands setting.now (arc_value a)) }
    ensures replica { Stands setting.now from.new }
{
    let Ok(snapshot) = from.snapshot(alloc) else {
        return None;
    };
    shared(alloc, snapshot)
}

/// A replica takes the batch that another one has for it, which is added to the batches.
fn tell(
    alloc: Global,
    setting: &Setting,
    from: &Replica,
    to: &mut Replica,
    batches: &mut Vec<Arc<Batch>>,
) -> Option<()>
    requires from { Stands setting.now from.now }
    requires to { Stands setting.now to.old }
    requires batches { All (λ a. IsTrueBatch setting.now (arc_value a)) batches.old.items }
    ensures to { Stands setting.now to.new }
    ensures batches { All (λ a. IsTrueBatch setting.now (arc_value a)) batches.new.items }
{
    let batch = told(alloc, setting, from, to.partition())?;
    let Ok(copy) = Arc::try_clone(&batch) else {
        return None;
    };
    let _ = to.take(copy);
    batches.push(batch).ok()
}

/// A replica closes its superstep, or stays there if the run is over.
fn go_on(setting: &Setting, replica: &mut Replica)
    requires { Stands setting.now replica.old }
    ensures { Stands setting.now replica.new }
{
    let _ = replica.close();
}

/// Two replicas, what they sent each other, and what the first had before.
#[derive(Drop)]
struct Stock {
    setting: Setting,
    first: Box<Replica>,
    second: Box<Replica>,
    snapshot: Arc<Snapshot>,
    batches: Vec<Arc<Batch>>,
}

impl Model for Stock {
    ghost Value = { Job };

    ghost view = { λ s. s.setting };

    ghost invariant = { λ s. Stands s.setting s.first.value
        × Stands s.setting s.second.value
        × Stands s.setting (arc_value s.snapshot)
        × All (λ a. IsTrueBatch s.setting (arc_value a)) s.batches.items };
}

impl Stock {
    /// Both at superstep 0, when they have sent each other nothing yet.
    fn start(alloc: Global, setting: Setting) -> Option<Stock> {
        let mut first = replica(alloc, &setting, 0)?;
        let second = replica(alloc, &setting, 1)?;
        let snapshot = snapshot_of(alloc, &setting, &mut first)?;
        Some(Stock {
            setting,
            first,
            second,
            snapshot,
            batches: Vec::new(alloc),
        })
    }

    /// Both take the batches that they have for each other, and close.
    fn go_on(&mut self, alloc: Global) -> Option<()> {
        let (setting, batches) = (&self.setting, &mut self.batches);
        tell(alloc, setting, &self.first, &mut self.second, batches)?;
        tell(alloc, setting, &self.second, &mut self.first, batches)?;
        go_on(setting, &mut self.first);
        go_on(setting, &mut self.second);
        Some(())
    }

    /// After four supersteps, when the run ends: eight batches.
    fn new<R: AllocGlobal + RandomSource>(rt: &R) -> Option<Stock> {
        let mut stock = Stock::start(rt.alloc(), two_edges(rt, 2)?)?;
        for _ in 0..4u8 {
            stock.go_on(rt.alloc())?;
        }
        Some(stock)
    }
}

/// A board, and what is posted and kept there.
#[derive(Drop)]
struct Scene {
    stock: Stock,
    board: Board,
}

impl Scene {
    /// One with a new board of `entries` entries, and its first seat: None if memory was refused.
    fn open<R: AllocGlobal + RandomSource>(rt: &R, entries: u32) -> Option<(Scene, Seat)>
        requires { (LEAST_ENTRIES ≤ entries) × (entries ≤ MOST_ENTRIES) }
        ensures seat { IfSome result (λ r.
            IsAt r.0.board r.1 × (r.1.caller.seen.job ≡ r.0.stock)) }
        ensures room { IfSome result (λ r. r.1.room ≡ 2 ^ 63) }
    {
        let stock = Stock::new(rt)?;
        let Setting { graph, plan } = &stock.setting;
        let (board, seat) = Board::open(rt.alloc(), graph, plan, entries).ok()?;
        Some((Scene { stock, board }, seat))
    }
}

/// A call of a board about a batch or the snapshot, with what it is answered; a fetch or a recall, with whether it finds
/// any.
#[derive(Clone, Copy)]
enum Step {
    Post(Posted),
    Fetch(bool),
    Keep(Kept),
    Recall(u32, bool),
    Drop(u32),
}

/// One who calls a board with what a scene has.
#[derive(Drop)]
struct User<'a> {
    at: &'a Scene,
    seat: Seat,
}

impl<'a> Model for User<'a> {
    ghost Value = { BoardView × ℕ };

    ghost view = { λ u. (u.at.now.board, u.seat.room) };

    ghost invariant = { λ u.
        IsAt u.at.now.board u.seat × (u.seat.caller.seen.job ≡ u.at.now.stock) };
}

impl<'a> User<'a> {
    /// How many entries there are.
    fn length(&mut self) -> u64
        ensures { self.new ≡ self.old }
    {
        self.at.board.length(&mut self.seat)
    }

    /// Another one at the board.
    fn split(&mut self) -> User<'a>
        requires { 1024 ≤ self.old.1 }
        ensures board { (self.new.0 ≡ self.old.0) × (result.0 ≡ self.old.0) }
        ensures left { self.new.1 ≡ self.old.1 - share self.old.1 }
        ensures room { result.1 ≡ share self.old.1 }
    {
        let seat = self.seat.split(&self.at.board);
        User { at: self.at, seat }
    }

    /// This one has then seen what both have, and the other one ends.
    fn join(&mut self, ended: User<'a>)
        requires { ended.0 ≡ self.old.0 }
        ensures { self.new ≡ self.old }
    {
        self.at.board.join(&mut self.seat, ended.seat);
    }

    /// Whether a call about the batch at a place is answered so. Places count round the eight batches: four of the first
    /// replica, then four of the second.
    fn is_answered<R: Wait>(&mut self, rt: &R, at: usize, step: Step) -> Result<bool, BoardError>
        ensures { self.new ≡ self.old }
    {
        let (stock, board, seat) = (&self.at.stock, &self.at.board, &mut self.seat);
        let Some(batch) = stock.batches.get((at << 1 & 6) | (at >> 2 & 1)) else {
            return Ok(false);
        };
        match step {
            Step::Post(wanted) => {
                let copy = Arc::try_clone(batch)?;
                Ok(board.post(rt, seat, copy)? == wanted)
            }
            Step::Fetch(stands) => {
                let found = board.fetch(rt, seat, batch.name())?;
                Ok(matches!(found, Some(found) if found.name() == batch.name()) == stands)
            }
            Step::Keep(wanted) => {
                let copy = Arc::try_clone(&stock.snapshot)?;
                Ok(board.keep(rt, seat, copy)? == wanted)
            }
            Step::Recall(at_least, kept) => {
                let found = board.recall(rt, seat, 0, at_least)?;
                Ok(matches!(found, Some(found) if found.superstep() >= at_least) == kept)
            }
            Step::Drop(superstep) => board.drop_below(rt, seat, superstep).and(Ok(true)),
        }
    }

    /// About how many batches of these places the call is answered so.
    fn count<R: Wait>(&mut self, rt: &R, step: Step, from: usize, to: usize) -> u64
        ensures { self.new ≡ self.old }
    {
        let mut right = 0u64;
        for at in from..to {
            if self.is_answered(rt, at, step) == Ok(true) {
                right = right.saturating_add(1);
            }
        }
        right
    }
}

#[test]
fn errors_have_texts(rt: HostRuntime) -> Result<(), Fail> {
    let (full, memory) = (BoardError::BookFull, BoardError::Memory);
    let texts = format!(in rt.alloc(); "{full}, {memory}")?;
    assert_eq!(rt; texts.as_str(), "the book is full, out of memory");
    Ok(())
}
