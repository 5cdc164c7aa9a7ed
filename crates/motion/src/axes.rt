// One sample of every axis of a set.
ghost use Rattle.motion.specs.Axes.{SamplesAxes, axes_sample_outcome, axes_samples};
ghost use Rattle.motion.specs.Inner.PlannedAxes.{AxisInRange, IsAxisSample};

use crate::planned::sample_in;
use crate::{MotionRefusal, Sample};
use planner::{AxisRefusal, MOST_AXES, Move, Plan};

// What stands in the places without an axis: a constant beside `default`, since the definitions name it (`rest_sample`).
const NO_SAMPLE: Sample = Sample {
    snap: 0,
    jerk: 0,
    acceleration: 0,
    velocity: 0,
    position: 0,
    count: 0,
    remainder: 0,
};

// Of one axis with its plan. At rest it stays at its start.
fn sample_axis(plan: &Plan, m: &Move, k: u64) -> Sample
    requires { AxisInRange m.now plan.now k }
    ensures { IsAxisSample m.now plan.now k result }
{
    if m.displacement == 0 {
        return Sample::at_rest(m);
    }
    sample_in(plan, m, k)
}

// The values of the first `count` moves as the axes of a set at sample k, from 0 to the common N. The places after the last axis have zeros.
// The loop stands here, since the plans would be copied once more for a function of its own. Count and array are as for `plan_axes`.
pub fn sample_axes(
    count: u64,
    moves: [Move; MOST_AXES],
    k: u64,
) -> Result<[Sample; MOST_AXES], AxisRefusal<MotionRefusal>>
    ensures { SamplesAxes count moves k (axes_sample_outcome result) (axes_samples result) }
{
    let set = planner::plan_axes(count, moves).map_err(|refused| AxisRefusal {
        place: refused.place,
        refusal: MotionRefusal::Unplanned(refused.refusal),
    })?;
    if set.samples < k {
        return Err(AxisRefusal {
            place: 0,
            refusal: MotionRefusal::PastEnd,
        });
    }
    let mut samples = [NO_SAMPLE; MOST_AXES];
    for (i, m) in moves[..count as usize].iter().enumerate() {
        samples[i] = sample_axis(&set.plans[i], m, k);
    }
    Ok(samples)
}
