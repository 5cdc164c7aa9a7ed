// What a plan of any order is played by: its samples, and the stretches and the start of its tables. The plan is the planner's own type, so
// `in_range` and the bound of the start stand in clauses: a type around plan and move would be copied for each axis of a set.
ghost use Rattle.std.specs.Prelude.{◌≡◌, ◌≤◌, ◌^◌, ℕ, ℤ, ◌+◌, ◌+ℤ◌, nat_abs};
ghost use Rattle.std.specs.Int.{w64};
ghost use Rattle.std.proofs.Common.{SFits};
ghost use Rattle.planner.specs.Outcome.{most_counts, most_samples};
ghost use Rattle.motion.specs.Sampling.{Values};
ghost use Rattle.motion.specs.Inner.SwitchedLevels.{AreLevels};
ghost use Rattle.motion.specs.Inner.Stretches.{Follows, row_count};
ghost use Rattle.motion.specs.Inner.Orders.{Rests, RunsAlong};
ghost use Rattle.motion.specs.Inner.Planned.{IsSampleOf, positions_from, values_in};

use crate::Sample;
use crate::one_sample::Derivatives;
use crate::sums::{Positions, StretchList};
use crate::switched::Levels;
use planner::Move;

pub trait Planned: Copy {
    type State: Positions;

    type Stretches: StretchList;

    // The intervals follow each other, and what is summed over them fits.
    ghost in_range: { Self → Type 0 };

    ghost samples_of: { Self → ℕ };

    // In the direction of a displacement: the values at each sample, and the level that is switched.
    ghost values_of: { (displacement : ℤ) → Self → ℕ → Values };

    ghost level_of: { (displacement : ℤ) → Self → ℕ → ℤ };

    // D, the size of the switched level.
    ghost size_of: { Self → ℕ };

    // N, the samples that the move takes.
    fn samples(&self) -> u64
        requires { in_range self.now }
        ensures is { result ≡ samples_of self.now }
        ensures few { result ≤ most_samples };

    fn levels(&self, m: &Move) -> Levels
        requires { in_range self.now }
        ensures { AreLevels m.now.displacement (size_of self.now) result };

    // The values at sample k, straight from the intervals.
    fn values(&self, m: &Move, k: u64) -> Derivatives
        requires plan_in_range { in_range self.now }
        requires k_bound { k ≤ samples_of self.now }
        ensures are { values_in result ≡ values_of m.now.displacement self.now k }
        ensures near { nat_abs result.distance ≤ 2 ^ 60 };

    // The stretches of the plan, and one with no level of so many samples.
    fn stretches(&self, m: &Move, trailing: u64) -> Self::Stretches
        requires { in_range self.now }
        ensures follow { Follows (Self.Stretches.list result) (level_of m.now.displacement self.now) 0 }
        ensures count { row_count (Self.Stretches.list result) ≡ samples_of self.now + trailing };

    // The sums at the start. None leaves its range on the way, nor where the move has ended.
    fn start(&self, m: &Move) -> Self::State
        requires plan_in_range { in_range self.now }
        requires start_bound { nat_abs m.now.start ≤ most_counts }
        ensures runs { RunsAlong Self.State.row_of Self.State.can_step Self.State.stepped (level_of m.now.displacement self.now) result (samples_of self.now + 2) (positions_from m.now.start (values_of m.now.displacement self.now)) }
        ensures rests { Rests (samples_of self.now) (values_of m.now.displacement self.now) }
        ensures near { SFits w64 (Self.State.row_of result +ℤ Self.State.row_of result) };
}

// The sample k of a move with this plan.
pub(crate) fn sample_in<P: Planned>(plan: &P, m: &Move, k: u64) -> Sample
    requires plan_in_range { P.in_range plan.now }
    requires start_bound { nat_abs m.now.start ≤ most_counts }
    requires k_bound { k ≤ P.samples_of plan.now }
    ensures { IsSampleOf m.now.start (P.values_of m.now.displacement plan.now k) result }
{
    plan.values(m, k).sample_from(m)
}
