//! The weights of rows, which their estimates are made of.

ghost use Rattle.std.specs.Prelude.{◌≡◌, ◌≤◌, length};
ghost use Rattle.std.specs.Vec.{vec_capacity};
ghost use Rattle.replica.specs.Kept.{AreCounters};
ghost use Rattle.replica.specs.Level.{weights_of};

use crate::{Shown, Stage};
use ball_model::Plan;
use figures::weight;
use registers::Rows;

impl Stage {
    pub(crate) fn weigh_again(&self, weights: &mut Vec<u64>)
        requires { length self.now.state.part.preds ≤ vec_capacity weights.old }
        ensures { weights.new.items ≡ weights_of self.now.state.rows }
    {
        weigh(self.plan(), self.tables.rows(), weights);
    }
}

/// The weight of each row, in place of those of others, within the room that was taken for them.
pub(crate) fn weigh(plan: &Plan, rows: &Rows, weights: &mut Vec<u64>)
    requires rows { AreCounters plan.now.log2m rows.now.rows }
    requires room { length rows.now.rows ≤ vec_capacity weights.old }
    ensures { weights.new.items ≡ weights_of rows.now.rows }
{
    let log2m = plan.log2m();
    weights.clear();
    for i in 0..rows.len() {
        weights.push_reserved(weight(log2m, rows.row(i)));
    }
}
