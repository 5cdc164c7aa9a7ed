// The intervals of a move, or its refusal.
ghost use Rattle.std.specs.Prelude.{◌≡◌};
ghost use Rattle.planner.specs.Outcome.{outcome};
ghost use Rattle.planner.specs.Inner.Undivided.{undivided_result};

use crate::bounds::check_bound;
use crate::figures::Figures;
use crate::intervals::Intervals;
use crate::{Move, Plan, Refusal};

// The most samples that a move may take.
pub(crate) const MOST_SAMPLES: u64 = 4096;

impl Move {
    // The intervals, with all of W still short, or the first refusal that applies.
    pub(crate) fn undivided_plan(&self) -> Result<Plan, Refusal>
        ensures { outcome result ≡ undivided_result self.now }
    {
        let figures = Figures::of(self)?;
        check_bound(self.snap, Refusal::SnapRange)?;
        if self.ends_outside() {
            return Err(Refusal::StartOrEndRange);
        }
        let Intervals { a, b, c, e } = figures.intervals(self.snap);
        let plan = Plan {
            a,
            b,
            c,
            e,
            snap: 0,
            shortfall: figures.distance,
        };
        if MOST_SAMPLES < plan.samples() {
            return Err(Refusal::TooManySamples);
        }
        Ok(plan)
    }
}
