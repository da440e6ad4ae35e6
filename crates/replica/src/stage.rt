//! What a replica or a snapshot has at a superstep, and in its folder what becomes of it.

ghost use Rattle.std.specs.Prelude.{◌≡◌};
ghost use Rattle.ball_model.specs.Content.{same_plan};

mod merge;
mod read;
mod step;
mod walk;
pub(crate) mod weights;

use crate::Shown;
use crate::early::Early;
use crate::hearing::Hearing;
use crate::tables::Tables;
use ball_model::Plan;
use graph::Part;
use std::marker::Model;
use std::sync::Arc;

/// What a replica or a snapshot has at a superstep, as [`Shown`] reads it.
///
/// That of a replica has room to go on: for a sum of each superstep up to the limit, and for an accumulator of each
/// row until the run is over. That of a snapshot has none.
pub struct Stage {
    pub(crate) part: Arc<Part>,
    pub(crate) superstep: u32,
    pub(crate) tables: Tables,
    pub(crate) hearing: Hearing,
    // accumulators that are stale, of which `hearing` keeps none then: they differ from the rows where these are
    // marked alone
    pub(crate) spare: Hearing,
    pub(crate) early: Early,
}

impl Model for Stage {
    ghost use Rattle.replica.specs.Stage.{StageValue};

    ghost Value = { StageValue };

    ghost use Rattle.replica.specs.Seen.{stage_of, IsStage};

    ghost view = { stage_of };

    ghost invariant = { IsStage };
}

// Written out, and so one call wherever one is dropped: the checker reads a derived one again at each place.
impl Drop for Stage {
    fn drop(self) {
        let Stage {
            part: _,
            superstep: _,
            tables: _,
            hearing: _,
            spare: _,
            early: _,
        } = self;
    }
}

impl Shown for Stage {
    ghost state = { λ k. k.state };

    fn shown(&self) -> &Stage {
        self
    }
}

pub(crate) fn is_same(a: &Plan, b: &Plan) -> bool
    ensures { result ≡ same_plan a.now b.now }
{
    a == b
}
