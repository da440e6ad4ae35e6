//! A replica and a snapshot of it, and in its folder their calls.

mod calls;
mod join;
pub(crate) mod out;
mod rebuild;

use crate::targets::Targets;
use crate::{Shown, Stage};
use figures::Estimator;
use std::marker::Model;

/// What a replica has at a superstep, without the room that later supersteps take.
///
/// Another replica of the partition, one that was lost, restarted or late, takes it over by [`Replica::merge`]. Rows,
/// figures, batches and the part are shared with the replica that it is of, the rest is a copy: what the replica does
/// afterwards changes nothing here.
#[derive(Drop)]
pub struct Snapshot {
    pub(crate) stage: Stage,
}

impl Model for Snapshot {
    ghost use Rattle.ball_model.specs.State.{State};

    ghost Value = { State };

    ghost view = { λ s. s.stage.state };
}

impl Shown for Snapshot {
    ghost state = { λ v. v };

    fn shown(&self) -> &Stage {
        &self.stage
    }
}

/// One partition's state at a superstep, and the batches that it holds.
///
/// Its memory is taken when it is made, or when its [`Targets`] and [`crate::FirstTables`] are: the index, two rows of
/// 2^log2m bytes, a tally and the weight that its estimate is made of for each vertex, a slot for each source and each
/// of three supersteps, and a sum for each superstep up to the limit. If the run is over, [`Replica::give_back`] gives
/// back that of the index, one of the two rows if they are equal, and what sharing the tables took.
#[derive(Drop)]
pub struct Replica {
    // what it has at its superstep, which a snapshot copies, with room to go on
    pub(crate) stage: Stage,
    targets: Targets,
    // how estimates are made
    estimator: Estimator,
    // the weight of each row, which its estimate is made of
    weights: Vec<u64>,
}

impl Model for Replica {
    ghost use Rattle.ball_model.specs.State.{State};

    ghost Value = { State };

    ghost use Rattle.replica.specs.Seen.{IsReplica};

    ghost view = { λ r. r.stage.state };

    ghost invariant = { IsReplica };
}

impl Shown for Replica {
    ghost state = { λ v. v };

    fn shown(&self) -> &Stage {
        &self.stage
    }
}
