// Refusals 3 to 6: the bounds of a move.
ghost use Rattle.std.specs.Prelude.{◌≡◌, [], ◌∷◌};
ghost use Rattle.planner.specs.Refusals.{check};
ghost use Rattle.planner.specs.Outcome.{bound_checks, bound_checks_to_jerk, number, outcome, out_of_range};
ghost use Rattle.planner.specs.Inner.Undivided.{checked};

use crate::{Move, Refusal};

// The largest bound that may be sent.
const MOST_BOUND: u64 = 1_125_899_906_842_624;

fn out_of_range(x: u64) -> bool
    ensures { result ≡ out_of_range x }
{
    x == 0 || MOST_BOUND < x
}

#[tactic(auto, unfolding(crate::specs::Inner::Undivided::checked, crate::specs::Refusals::first_refusal))]
pub(crate) fn check_bound(bound: u64, refusal: Refusal) -> Result<(), Refusal>
    ensures { outcome result ≡ checked (check (number refusal) (out_of_range bound) ∷ []) }
{
    if out_of_range(bound) {
        return Err(refusal);
    }
    Ok(())
}

impl Move {
    // Refusals 3 to 5: the bounds that both orders read.
    #[tactic(auto, unfolding(crate::specs::Inner::Undivided::checked, crate::specs::Refusals::first_refusal))]
    pub(crate) fn check_bounds_to_jerk(&self) -> Result<(), Refusal>
        ensures { outcome result ≡ checked (bound_checks_to_jerk self.now.velocity self.now.acceleration self.now.jerk) }
    {
        check_bound(self.velocity, Refusal::VelocityRange)?;
        check_bound(self.acceleration, Refusal::AccelerationRange)?;
        check_bound(self.jerk, Refusal::JerkRange)
    }

    // Refusals 3 to 6.
    #[tactic(auto, unfolding(crate::specs::Inner::Undivided::checked, crate::specs::Refusals::first_refusal))]
    pub(crate) fn check_bounds(&self) -> Result<(), Refusal>
        ensures { outcome result ≡ checked (bound_checks self.now.velocity self.now.acceleration self.now.jerk self.now.snap) }
    {
        self.check_bounds_to_jerk()?;
        check_bound(self.snap, Refusal::SnapRange)
    }
}
