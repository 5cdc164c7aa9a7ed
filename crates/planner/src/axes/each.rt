// The intervals of each axis by itself, up to the first that is refused.
ghost use Rattle.std.specs.Prelude.{◌≡◌, ◌≤◌, length};
ghost use Rattle.planner.specs.Axes.{most_axes};
ghost use Rattle.planner.specs.Outcome.{outcome};
ghost use Rattle.planner.specs.Inner.AxisAnswers.{axis_result, FindsEach};

use crate::{AxesPlan, AxisRefusal, MOST_AXES, Move, Plan, REST, Refusal};

// Zeros at rest, where refusals 3 to 6 and 14 alone are asked.
#[tactic(auto, using(crate::proofs::Sets::axis_set))]
fn undivided_axis(m: &Move) -> Result<Plan, Refusal>
    ensures { outcome result ≡ axis_result m.now }
{
    if !m.rests() {
        return m.undivided_plan();
    }
    m.check_bounds()?;
    if m.ends_outside() {
        return Err(Refusal::StartOrEndRange);
    }
    Ok(REST)
}

// The largest N, and the intervals, with D still to be found; or the first refusal.
pub(crate) fn find_each(axes: &[Move]) -> Result<AxesPlan, AxisRefusal<Refusal>>
    requires { length axes.now ≤ most_axes }
    ensures { FindsEach axes.now result }
{
    let mut plans = [REST; MOST_AXES];
    let mut samples = 0u64;
    for (i, m) in axes.iter().enumerate() {
        let place = i as u64 + 1;
        let plan = undivided_axis(m).map_err(|refusal| AxisRefusal { place, refusal })?;
        plans[i] = plan;
        samples = samples.max(plan.samples());
    }
    Ok(AxesPlan { samples, plans })
}
