//! Replicas of one partition, joined.

ghost use Rattle.std.specs.Prelude.{◌≡◌, ℕ, true, max, OnOk, OnErr};
ghost use Rattle.ball_model.specs.History.{holding_in};
ghost use Rattle.ball_model.specs.Job.{Job};
ghost use Rattle.ball_model.specs.Join.{Holding, AreAlike, join_of};
ghost use Rattle.ball_model.specs.State.{StandsFor, further};
ghost use Rattle.ball_model.proofs.JoinLemmas.{join_commutes, join_associates, join_repeats};
ghost use Rattle.ball_model.proofs.JoinLemmas.{alike_turns, alike_through, join_stays_alike};
ghost use Rattle.replica.specs.Merged.{HoldsOfBoth, ShowsAs};

use crate::Replica;
use registers::Join;
use std::alloc::{AllocError, Global};

/// Two replicas of one partition. For a library's user: the program does not call it.
impl Join for Replica {
    ghost Content = { Holding };

    ghost content = { holding_in };

    ghost are_alike = { AreAlike };

    ghost union = { join_of };

    ghost GROWS = { true };

    const GROWS: bool = true;

    /// Whether the two are of one plan and one partition.
    fn alike(&self, other: &Replica) -> bool {
        self.stage.is_alike(&other.stage)
    }

    /// Takes over what `other` knows, as [`Replica::merge`] does with a snapshot of it.
    ///
    /// It takes memory for the list of shared batches, for as long as it works, and if `give_back` has given back the
    /// index and the accumulators, it makes them again.
    fn join(&mut self, alloc: Global, other: &Replica) -> Result<(), AllocError>
        requires { AreAlike (holding_in self.old) (holding_in other.now) }
        ensures joined { OnOk result
            (holding_in self.new ≡ join_of (holding_in self.old) (holding_in other.now)) }
        ensures refused { OnErr result (self.new ≡ self.old) }
        ensures part { self.new.part ≡ self.old.part }
        ensures superstep { OnOk result
            (self.new.superstep ≡ max self.old.superstep other.now.superstep) }
        ensures names { OnOk result (HoldsOfBoth self.old other.now self.new) }
        ensures shown { OnOk result (ShowsAs self.new (further self.old other.now)) }
        ensures stands { (j : Job) (p t u : ℕ) → StandsFor j p t self.old →
            StandsFor j p u other.now → OnOk result (StandsFor j p (max t u) self.new) }
    {
        self.take_over(alloc, &other.stage)
    }

    ghost commutative = { join_commutes };

    ghost associative = { join_associates };

    ghost idempotent = { join_repeats };

    ghost symmetric = { alike_turns };

    ghost transitive = { alike_through };

    ghost stays_alike = { join_stays_alike };
}
