//! What is reported of how a command gets on, if that is asked for.
//!
//! [`LendTeller`] hands out a [`ProgressTeller`], which writes lines of progress ([`ProgressLine`]) and nothing else, and
//! takes it back. What is refused whatever the graph ([`foretold`]) is reported unasked. [`RunProgress`] is what is
//! reported of a run, by its [`ProgressGate`]; a replay, a node and a gathering have a [`ProgressWatch`].

ghost use Rattle.std.specs.Prelude.{◌≡◌, IfSome, List, None, Option, ℕ};
ghost use Rattle.hyperball.specs.Progress.{Foretells, IsRefusedForVertices, TellsProgress};

use crate::lines::ProgressLine;
use ball_model::plan::GREATEST_LIMIT;
use ball_model::{NodeId, Plan, PlanError};
use edgelist::ReadWatch;
use job::Watch;
use std::alloc::{AllocError, Global};
use std::io::{Eprint, Stderr, Write};
use std::sync::atomic::{AtomicU32, AtomicU64, Ordering};
use std::time::{Clock, Instant};
use workers::{Gate, SleepingGate};

/// Writes lines of progress.
pub trait ProgressTeller {
    /// Writes a line, which is dropped if that fails.
    fn tell(&self, line: ProgressLine);
}

impl ProgressTeller for Stderr {
    fn tell(&self, line: ProgressLine) {
        let _ = self.eprintln(line);
    }
}

/// Where faults are reported, and progress if it is asked for.
pub trait LendTeller: Write {
    /// Writes lines of progress there, from any thread.
    type Teller: ProgressTeller + Sync + Drop;

    // It has handed out this teller when that was there, and nothing was written to it since.
    ghost has_lent: { Self → Self.Teller → Option (List ℕ) → Type 0 };

    /// Hands out a teller. Until it is taken back, no contract says what is there.
    fn teller(&mut self) -> Self::Teller
        ensures { has_lent self.new result (Self.contents self.old) };

    /// Takes the teller back. If nothing else was written since, lines of progress are after what was there before, and
    /// nothing else: those that it was given, except those that were dropped; no contract says which.
    fn end(&mut self, teller: Self::Teller)
        ensures { (before : Option (List ℕ)) → has_lent self.old teller before →
            TellsProgress before (Self.contents self.new) };
}

impl LendTeller for Stderr {
    type Teller = Stderr;

    // No contract knows what is there.
    ghost has_lent = { λ _ _ before. before ≡ None };

    fn teller(&mut self) -> Stderr {
        *self
    }

    fn end(&mut self, _teller: Stderr) {}
}

/// What is reported of these numbers if no plan has them, whatever the graph: the first of them in the order of the
/// checks. (A plan of no vertices has the same fault.)
pub(crate) fn foretold(log2m: u8, parts: u16, limit: u32) -> Option<ProgressLine>
    ensures some { IfSome result (Foretells log2m parts limit) }
    ensures none { result ≡ None → IsRefusedForVertices log2m parts limit }
{
    match Plan::new(log2m, 0, parts, limit, 0, [0; 32]) {
        Err(PlanError::Log2m) => Some(ProgressLine::NoLog2m { log2m }),
        Err(PlanError::Parts) => Some(ProgressLine::NoParts { parts }),
        Err(PlanError::Limit) => Some(ProgressLine::NoLimit { limit }),
        Err(PlanError::Vertices) | Ok(_) => None,
    }
}

// How many partitions have come to a superstep, and how many of their vertices changed at it.
#[derive(Drop)]
struct Superstep {
    parts: AtomicU32,
    changed: AtomicU64,
}

impl Superstep {
    // No partition has come to it.
    fn new() -> Superstep {
        Superstep {
            parts: AtomicU32::new(0),
            changed: AtomicU64::new(0),
        }
    }
}

/// Reports how a run gets on: its edge list, the start of its supersteps, each superstep that all partitions have come
/// to, and the report.
#[derive(Drop)]
pub(crate) struct RunProgress<'a, T> {
    teller: &'a T,
    // how many vertices the graph has, once it is read
    vertices: AtomicU32,
    // how many nodes have started
    started: AtomicU32,
    // how many partitions the run has beside one
    others: u32,
    // the furthest superstep that a node of each partition has come to
    reached: Vec<AtomicU32>,
    // from superstep 0 on
    supersteps: Vec<Superstep>,
}

impl<'a, T: ProgressTeller> RunProgress<'a, T> {
    /// Nothing is reported yet of a run of `parts` partitions. The error is that memory was refused.
    pub(crate) fn new(
        alloc: Global,
        teller: &'a T,
        parts: u16,
    ) -> Result<RunProgress<'a, T>, AllocError> {
        Ok(RunProgress {
            teller,
            vertices: AtomicU32::new(0),
            started: AtomicU32::new(0),
            others: u32::from(parts.saturating_sub(1)),
            reached: at_start(alloc, parts)?,
            supersteps: no_supersteps(alloc)?,
        })
    }

    // Some records are read so far.
    fn tell_reading(&self, records: u64) {
        self.teller.tell(ProgressLine::Reading { records });
    }

    // The edge list is read.
    fn note_edge_list(&self, records: u64, vertices: u32) {
        self.vertices.store(vertices, Ordering::SeqCst);
        self.teller.tell(ProgressLine::Read { records, vertices });
    }

    // A node is at superstep 0. The first one reports it.
    fn note_start(&self) {
        if self.started.fetch_add(1, Ordering::SeqCst) == 0 {
            self.teller.tell(ProgressLine::Start);
        }
    }

    // A node of a partition has come to a superstep, at which `changed` vertices of the partition changed. The first node
    // of the last partition to come there reports it.
    fn come_to(&self, part: u16, superstep: u32, changed: u32) {
        let Some(reached) = self.reached.get(usize::from(part)) else {
            return;
        };
        if reached.fetch_max(superstep, Ordering::SeqCst) >= superstep {
            return;
        }
        let Some(all) = self.supersteps.get(superstep as usize) else {
            return;
        };
        all.changed.fetch_add(u64::from(changed), Ordering::SeqCst);
        if all.parts.fetch_add(1, Ordering::SeqCst) == self.others {
            self.tell_superstep(superstep, all.changed.load(Ordering::SeqCst));
        }
    }

    // All partitions have come to a superstep.
    fn tell_superstep(&self, superstep: u32, changed: u64) {
        let vertices = self.vertices.load(Ordering::SeqCst);
        self.teller.tell(ProgressLine::Superstep {
            superstep,
            changed,
            vertices,
        });
    }

    // The report is written.
    fn tell_report(&self) {
        self.teller.tell(ProgressLine::Report);
    }
}

// No node of any partition has gone on from superstep 0.
fn at_start(alloc: Global, parts: u16) -> Result<Vec<AtomicU32>, AllocError> {
    let mut reached = Vec::with_capacity(alloc, usize::from(parts))?;
    for _ in 0..parts {
        reached.push(AtomicU32::new(0))?;
    }
    Ok(reached)
}

// No partition has come to any superstep that a run may have.
fn no_supersteps(alloc: Global) -> Result<Vec<Superstep>, AllocError> {
    let mut supersteps = Vec::new(alloc);
    for _ in 0..=GREATEST_LIMIT {
        supersteps.push(Superstep::new())?;
    }
    Ok(supersteps)
}

/// How many milliseconds pass before a next line says how far reading is.
const PAUSE: u64 = 1000;

// How long nothing is reported of reading: from its begin to a first line, and from each line to the next.
#[derive(Drop)]
struct ReadingPause<'a, C> {
    clock: &'a C,
    // none if the clock cannot be read: nothing is reported then
    begin: Option<Instant>,
    // when a line was written last, in milliseconds from the begin
    told: AtomicU64,
}

impl<'a, C: Clock> ReadingPause<'a, C> {
    // A pause that begins now.
    fn new(clock: &'a C) -> ReadingPause<'a, C> {
        ReadingPause {
            clock,
            begin: Instant::now(clock).ok(),
            told: AtomicU64::new(0),
        }
    }

    // Whether it is over; if so, the next one begins.
    fn is_over(&self) -> bool {
        let Some(begin) = self.begin else {
            return false;
        };
        let Ok(passed) = begin.elapsed(self.clock) else {
            return false;
        };
        let now = u64::try_from(passed.as_millis()).unwrap_or(u64::MAX);
        if now.saturating_sub(self.told.load(Ordering::SeqCst)) < PAUSE {
            return false;
        }
        self.told.store(now, Ordering::SeqCst);
        true
    }
}

/// A gate whose idle turns sleep, and which reports how the run gets on if there is a teller.
#[derive(Drop)]
pub(crate) struct ProgressGate<'a, C, T> {
    sleeping: SleepingGate<'a, C>,
    pause: ReadingPause<'a, C>,
    progress: Option<RunProgress<'a, T>>,
}

impl<'a, C: Clock, T: ProgressTeller> ProgressGate<'a, C, T> {
    /// A gate that sleeps by this clock, of a run of `parts` partitions. The error is that memory was refused.
    pub(crate) fn new(
        alloc: Global,
        clock: &'a C,
        teller: Option<&'a T>,
        parts: u16,
    ) -> Result<ProgressGate<'a, C, T>, AllocError> {
        let progress = match teller {
            Some(teller) => Some(RunProgress::new(alloc, teller, parts)?),
            None => None,
        };
        Ok(ProgressGate {
            sleeping: SleepingGate::new(alloc, clock)?,
            pause: ReadingPause::new(clock),
            progress,
        })
    }

    /// The run has ended, and written its report or not.
    pub(crate) fn after_run(&self, written: bool) {
        if let Some(progress) = &self.progress
            && written
        {
            progress.tell_report();
        }
    }
}

impl<'a, C: Clock, T: ProgressTeller> Gate for ProgressGate<'a, C, T> {
    fn before_post(&self, node: NodeId, superstep: u32) {
        self.sleeping.before_post(node, superstep);
    }

    fn after_post(&self, node: NodeId, superstep: u32) {
        self.sleeping.after_post(node, superstep);
    }

    fn idle(&self, node: NodeId) {
        self.sleeping.idle(node);
    }
}

impl<'a, C: Clock, T: ProgressTeller> ReadWatch for ProgressGate<'a, C, T> {
    fn while_read(&self, records: u64) {
        if let Some(progress) = &self.progress
            && self.pause.is_over()
        {
            progress.tell_reading(records);
        }
    }
}

impl<'a, C: Clock, T: ProgressTeller> Watch for ProgressGate<'a, C, T> {
    fn after_read(&self, records: u64, vertices: u32) {
        if let Some(progress) = &self.progress {
            progress.note_edge_list(records, vertices);
        }
    }

    fn after_start(&self, _node: NodeId) {
        if let Some(progress) = &self.progress {
            progress.note_start();
        }
    }

    fn after_close(&self, node: NodeId, superstep: u32, changed: u32, _vertices: u32) {
        if let Some(progress) = &self.progress {
            progress.come_to(node.part, superstep, changed);
        }
    }
}

/// A watch that reports how a replay, a node or a gathering gets on, if there is a teller.
#[derive(Clone, Copy)]
pub(crate) struct ProgressWatch<'a, T> {
    teller: &'a Option<T>,
}

impl<'a, T: ProgressTeller> ProgressWatch<'a, T> {
    /// Nothing is reported yet.
    pub(crate) fn new(teller: &'a Option<T>) -> ProgressWatch<'a, T> {
        ProgressWatch { teller }
    }

    /// The replay has written its answers.
    pub(crate) fn after_replay(&self) {
        self.tell(ProgressLine::Answers);
    }

    /// The node has answered all commands.
    pub(crate) fn after_commands(&self) {
        self.tell(ProgressLine::Commands);
    }

    /// The gathering has written its report.
    pub(crate) fn after_gathering(&self) {
        self.tell(ProgressLine::Report);
    }

    // Writes a line if there is a teller.
    fn tell(&self, line: ProgressLine) {
        if let Some(teller) = self.teller {
            teller.tell(line);
        }
    }
}

impl<'a, T: ProgressTeller> ReadWatch for ProgressWatch<'a, T> {}

impl<'a, T: ProgressTeller> Watch for ProgressWatch<'a, T> {
    fn after_read(&self, records: u64, vertices: u32) {
        self.tell(ProgressLine::Read { records, vertices });
    }

    fn after_close(&self, node: NodeId, superstep: u32, changed: u32, vertices: u32) {
        self.tell(ProgressLine::Close {
            node,
            superstep,
            changed,
            vertices,
        });
    }
}
