// The third-order plan of a move.
ghost use Rattle.planner.specs.Outcome.{outcome};
ghost use Rattle.planner.specs.Third.{PlansThird};

use crate::division::divide;
use crate::figures::Figures;
use crate::in_range::MOST_SAMPLES;
use crate::intervals::Intervals;
use crate::{Move, Refusal, ThirdPlan};

// Plans a move in the third order, for drives without a bound on the snap: the move's own is not read. The intervals are the base's later
// ones with a = 0 and J1 = J. Beside `undivided_plan`, since a, the snap and refusal 6 are not there: both call the same functions for all else.
pub fn plan_third(m: &Move) -> Result<ThirdPlan, Refusal>
    ensures { PlansThird m.now (outcome result) }
{
    let figures = Figures::of(m)?;
    if m.ends_outside() {
        return Err(Refusal::StartOrEndRange);
    }
    let Intervals { b, c, e, .. } = figures.later_intervals(figures.jerk, 0);
    if MOST_SAMPLES < b + c + e {
        return Err(Refusal::TooManySamples);
    }
    let d = divide(figures.distance, b * c * e);
    Ok(ThirdPlan {
        b,
        c,
        e,
        jerk: d.quotient,
        shortfall: d.shortfall,
    })
}
