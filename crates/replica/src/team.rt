//! Who works on a superstep: the thread that asks, or a team of threads; and from which sizes on how many of them do.

ghost use Rattle.std.specs.Prelude.{◌≡◌, ⊤, ◌^◌, ◌<◌, ◌≤◌, map};
ghost use Rattle.figures.specs.Values.{value_of};
ghost use Rattle.registers.specs.Differ.{DifferWhere};
ghost use Rattle.replica.specs.Tables.{AreStepped, CanBeStepped};
ghost use Rattle.replica.specs.Walk.{CanWalkBlock, WalksBlock};
ghost use Rattle.replica.specs.declared.team.TheConstants.{MOST_HALVINGS};

use crate::hearing::catch_up;
use crate::level::{Step, step_rows};
use crate::marks::count_set;
use crate::relay::Relay;
use crate::stepping::step_blocks;
use crate::walk::{Walk, walk_block, walk_halves};
use figures::Tally;
use registers::{Rows, take_over};
use std::thread::{Threads, available_parallelism};

// Threads cost more than they save below this many bytes of registers that changed, and below as many rows as are
// many.
const FEW: usize = 1 << 23;

// From this many bytes of rows on, threads have blocks to choose from.
const MANY: usize = 1 << 24;

// What is beside the registers of a row counts as this many bytes.
const BESIDE: usize = 64;

// What an edge costs, in instructions: to decode it, and to raise a row by another one, beside three quarters of one a
// register.
const DECODE: usize = 45;

const RAISE: usize = 20;

// If all processors work on many rows, each gets 2^BLOCKS blocks.
const BLOCKS: u32 = 2;

// At most this many threads are asked for, and rows are cut into at most as many blocks.
const MOST_THREADS: usize = 1024;

// How often rows are halved for that many.
const MOST_HALVINGS: u32 = 10;

/// From which sizes on threads work on rows.
#[derive(Clone, Copy, Drop)]
pub(crate) struct Sizes {
    /// Below this many bytes of registers that changed, and below as many rows as are many, no thread is started.
    pub(crate) few: usize,
    /// From this many bytes of rows on, there are more blocks than threads.
    pub(crate) many: usize,
}

impl Sizes {
    /// Those from which on threads save more than they cost.
    pub(crate) fn usual() -> Sizes {
        Sizes {
            few: FEW,
            many: MANY,
        }
    }
}

/// Who works on a superstep. What comes of it is the same whoever does.
pub(crate) trait Hands {
    /// They may work: a team's threads may share its runtime.
    ghost ready: { Self → Type 0 };

    /// Whether so many rows are marked that it takes less time to pull all rows than to spread those.
    fn are_many(&self, parts: u16, width: usize, marks: &[bool]) -> bool
        requires { width < 2 ^ 16 };

    /// How often rows of `width` registers are halved, each block for a thread; 0 if so few are marked that threads
    /// cost more than they save.
    fn halvings(&self, width: usize, marks: &[bool]) -> u32
        requires { width < 2 ^ 16 }
        ensures { result ≤ MOST_HALVINGS };

    /// Each marked row becomes that of `ahead`, from which no other one differs.
    fn take_over(&self, rows: &mut Rows, ahead: &Rows, marks: &[bool])
        requires ready { ready self.now }
        requires differ { DifferWhere marks.now rows.old ahead.now }
        ensures { rows.new ≡ ahead.now };

    /// The figures become those of the rows ahead, and the rows these, as [`step_rows`] steps them.
    fn step(
        &self,
        step: &Step<'_>,
        rows: &mut Relay<Rows>,
        weights: &mut [u64],
        tallies: &mut [Tally],
    ) -> u128
        requires ready { ready self.now }
        requires can { CanBeStepped step.now.estimator.now step.now.t rows.old step.now.ahead.now
            step.now.marks.now weights.old (map value_of tallies.old) }
        ensures { AreStepped step.now.estimator.now step.now.t step.now.ahead.now
            (map value_of tallies.old) (map value_of tallies.new) weights.new result rows.new };

    /// Walks over all own rows, as [`walk_block`] does.
    fn walk(
        &self,
        walk: &Walk<'_>,
        cells: &mut [u8],
        touched: &mut [bool],
        weights: &mut [u64],
        tallies: &mut [Tally],
    ) -> u128
        requires ready { ready self.now }
        requires can { CanWalkBlock walk.now.estimator.now walk.now.t walk.now.pull.part.now
            walk.now.stale walk.now.pull.rows.now walk.now.pull.marks.now 0 cells.old touched.old
            weights.old (map value_of tallies.old) }
        ensures { WalksBlock walk.now.estimator.now walk.now.t walk.now.pull.part.now
            walk.now.stale walk.now.pull.rows.now walk.now.pull.marks.now 0 cells.old cells.new
            touched.old touched.new (map value_of tallies.old) (map value_of tallies.new)
            weights.new result };
}

/// The thread that asks, and no other.
#[derive(Clone, Copy, Drop)]
pub(crate) struct Alone;

impl Hands for Alone {
    ghost ready = { λ hands. ⊤ };

    // Pulling never pays for one thread: it raises as many rows, and decodes more edges.
    #[inline(always)]
    fn are_many(&self, _parts: u16, _width: usize, _marks: &[bool]) -> bool {
        false
    }

    #[inline(always)]
    fn halvings(&self, _width: usize, _marks: &[bool]) -> u32 {
        0
    }

    #[inline(always)]
    fn take_over(&self, rows: &mut Rows, ahead: &Rows, marks: &[bool]) {
        catch_up(rows, ahead, marks);
    }

    #[inline(always)]
    fn step(
        &self,
        step: &Step<'_>,
        rows: &mut Relay<Rows>,
        weights: &mut [u64],
        tallies: &mut [Tally],
    ) -> u128 {
        step_rows(step, rows, weights, tallies)
    }

    #[inline(always)]
    fn walk(
        &self,
        walk: &Walk<'_>,
        cells: &mut [u8],
        touched: &mut [bool],
        weights: &mut [u64],
        tallies: &mut [Tally],
    ) -> u128 {
        walk_block(walk, 0, cells, touched, weights, tallies)
    }
}

/// Threads that work on a superstep: those of a runtime, how many are asked for, and from which sizes on they work.
///
/// A thread that cannot be started is done without; they take no memory but their own.
#[derive(Drop)]
pub(crate) struct Team<'a, R> {
    pub(crate) rt: &'a R,
    pub(crate) threads: usize,
    pub(crate) sizes: Sizes,
}

impl<'a, R: Threads + Sync> Hands for Team<'a, R> {
    ghost use Rattle.std.specs.Thread.{IsSync};

    ghost ready = { λ hands. IsSync R.row };

    // To pull all rows each edge to an own vertex has to be decoded, of which about one in `parts` is from an own
    // one; and the rows are raised by all threads.
    fn are_many(&self, parts: u16, width: usize, marks: &[bool]) -> bool {
        let decode = DECODE * usize::from(parts.max(1));
        let gain = (self.threads.max(1) - 1).min(63) * (RAISE + width / 4 * 3) / decode;
        0 < gain && least_rows(self.sizes, width).max(marks.len() / gain) <= count_set(marks)
    }

    fn halvings(&self, width: usize, marks: &[bool]) -> u32 {
        if self.threads < 2 {
            return 0;
        }
        let count = count_set(marks);
        if count < least_rows(self.sizes, width) {
            0
        } else {
            halvings_of(self, many_rows(self.sizes, width) <= count)
        }
    }

    fn take_over(&self, rows: &mut Rows, ahead: &Rows, marks: &[bool]) {
        let depth = self.halvings(ahead.width(), marks);
        take_over(self.rt, depth, rows, ahead, marks);
    }

    fn step(
        &self,
        step: &Step<'_>,
        rows: &mut Relay<Rows>,
        weights: &mut [u64],
        tallies: &mut [Tally],
    ) -> u128 {
        if step.depth == 0 {
            step_rows(step, rows, weights, tallies)
        } else {
            step_blocks(self.rt, step, rows, weights, tallies)
        }
    }

    fn walk(
        &self,
        walk: &Walk<'_>,
        cells: &mut [u8],
        touched: &mut [bool],
        weights: &mut [u64],
        tallies: &mut [Tally],
    ) -> u128 {
        walk_halves(self.rt, walk, 0, cells, touched, weights, tallies)
    }
}

// How often rows are halved for a team, of whose threads at most 1,024 count: into no more blocks than threads, or, if
// all processors are to work on many rows, into four times as many, up to 1,024, since blocks take unequal times.
fn halvings_of<R: Threads>(team: &Team<'_, R>, many: bool) -> u32
    ensures { result ≤ MOST_HALVINGS }
{
    let whole = usize::BITS - (team.threads.min(MOST_THREADS) / 2).leading_zeros();
    let halved = match available_parallelism(team.rt) {
        Ok(processors) if team.threads < processors.get() => whole,
        _ if many => whole + BLOCKS,
        _ => whole,
    };
    halved.min(MOST_HALVINGS)
}

fn many_rows(sizes: Sizes, width: usize) -> usize
    requires { width < 2 ^ 16 }
{
    sizes.many / (width + BESIDE)
}

// How many rows are worth threads.
fn least_rows(sizes: Sizes, width: usize) -> usize
    requires { width < 2 ^ 16 }
{
    many_rows(sizes, width).min(sizes.few / width.max(1))
}
