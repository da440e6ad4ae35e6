//! What a replica of a part begins with, all but the index of the part.

ghost use Rattle.std.specs.Prelude.{◌≡◌, IfOk};
ghost use Rattle.ball_model.specs.PlanValue.{measure_of};
ghost use Rattle.replica.specs.First.{BeginsAs, BeginsBeside};
ghost use Rattle.replica.specs.Tables.{AreFirst};

use crate::hearing::Hearing;
use crate::stage::weights::weigh;
use crate::start;
use crate::tables::Tables;
use figures::Estimator;
use graph::Part;
use std::alloc::{AllocError, AllocGlobal, Global};
use std::marker::Model;
use std::thread;
use std::thread::Threads;

/// What a replica of a part begins with: rows, marks, figures, accumulators and weights.
///
/// It does not ask for the job's digest, so it can be made while that is, and beside the index of the part.
#[derive(Drop)]
pub struct FirstTables {
    pub(crate) tables: Tables,
    pub(crate) hearing: Hearing,
    pub(crate) estimator: Estimator,
    pub(crate) weights: Vec<u64>,
}

impl Model for FirstTables {
    ghost use Rattle.replica.specs.First.{FirstValue};

    ghost Value = { FirstValue };

    ghost view = { λ f. record {
      tables = f.tables;
      hearing = f.hearing;
      measure = f.estimator;
      weights = f.weights.items;
    } };
}

impl FirstTables {
    /// What a replica of the part begins with. It takes time in proportion to the registers of the partition.
    pub fn of(alloc: Global, part: &Part) -> Result<FirstTables, AllocError>
        ensures { IfOk result (λ first. BeginsAs part.now first) }
    {
        let estimator = start::estimator_of(alloc, part.plan())?;
        let tables = Tables::start(alloc, part, &estimator)?;
        let (hearing, weights) = begin_beside(alloc, part)?;
        Ok(FirstTables {
            tables,
            hearing,
            estimator,
            weights,
        })
    }

    /// What [`FirstTables::of`] makes, in two threads if `threads` is at least 2 and a second one can be started.
    pub fn of_by<R: AllocGlobal + Threads + Sync>(
        rt: &R,
        part: &Part,
        threads: usize,
    ) -> Result<FirstTables, AllocError>
        ensures { IfOk result (λ first. BeginsAs part.now first) }
    {
        if threads < 2 {
            return FirstTables::of(rt.alloc(), part);
        }
        FirstTables::of_both(rt, part)
    }

    fn of_both<R: AllocGlobal + Threads + Sync>(
        rt: &R,
        part: &Part,
    ) -> Result<FirstTables, AllocError>
        ensures { IfOk result (λ first. BeginsAs part.now first) }
    {
        let estimator = start::estimator_of(rt.alloc(), part.plan())?;
        let (tables, beside) = begin_both(rt, part, &estimator);
        let (tables, (hearing, weights)) = (tables?, beside?);
        Ok(FirstTables {
            tables,
            hearing,
            estimator,
            weights,
        })
    }
}

// What is heard, with the accumulators, and the weights of the rows.
type Beside = (Hearing, Vec<u64>);

// Nothing is heard yet.
fn begin_beside(alloc: Global, part: &Part) -> Result<Beside, AllocError>
    ensures { IfOk result (λ beside. BeginsBeside part.now beside.0 beside.1.items) }
{
    part.limits();
    let rows = start::start_rows(alloc, part)?;
    let mut weights = Vec::with_capacity(alloc, rows.len())?;
    weigh(part.plan(), &rows, &mut weights);
    Ok((Hearing::quiet(alloc, rows)?, weights))
}

// The tables and what is beside them, made side by side.
fn begin_both<R: AllocGlobal + Threads + Sync>(
    rt: &R,
    part: &Part,
    estimator: &Estimator,
) -> (Result<Tables, AllocError>, Result<Beside, AllocError>)
    requires { estimator.now ≡ measure_of part.now.plan }
    ensures tables { IfOk result.0 (AreFirst part.now) }
    ensures beside { IfOk result.1 (λ beside. BeginsBeside part.now beside.0 beside.1.items) }
{
    let alloc = rt.alloc();
    let tables = || -> Result<Tables, AllocError>
        requires { estimator.now ≡ measure_of part.now.plan }
        ensures { IfOk result (AreFirst part.entry.now) }
    { Tables::start(alloc, part, estimator) };
    let beside = || -> Result<Beside, AllocError>
        ensures { IfOk result (λ beside.
            BeginsBeside part.entry.now beside.0 beside.1.items) }
    { begin_beside(alloc, part) };
    thread::join(rt, tables, beside)
}
