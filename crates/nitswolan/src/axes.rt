// The answers of a set's entries for C.
ghost use Rattle.std.specs.Prelude.{◌≡◌};
ghost use Rattle.planner.specs.Axes.{axes_outcome, axes_plans};
ghost use Rattle.motion.specs.Axes.{axes_sample_outcome, axes_samples};
ghost use Rattle.nitswolan.specs.Fields.{axes_plan_fields, axes_sample_fields};

use motion::{MotionRefusal, Sample};
use planner::{AxesPlan, AxisRefusal, MOST_AXES, Move, Plan, Refusal};

// The first `count` moves are the axes of a set. No later one is read.
#[repr(C)]
#[derive(Clone, Copy, Debug, PartialEq, Eq, Hash)]
pub struct Axes {
    pub count: u64,
    pub moves: [Move; MOST_AXES],
}

// The common N and the plans, or the refusal with the place of its axis, from 1; 0 where it is the set's as a whole.
#[repr(C)]
#[derive(Clone, Copy, Debug, Default, PartialEq, Eq, Hash)]
pub struct AxesPlanResult {
    pub refusal: u64,
    pub place: u64,
    pub samples: u64,
    pub plans: [Plan; MOST_AXES],
}

#[repr(C)]
#[derive(Clone, Copy, Debug, Default, PartialEq, Eq, Hash)]
pub struct AxesSampleResult {
    pub refusal: u64,
    pub place: u64,
    pub values: [Sample; MOST_AXES],
}

impl From<Result<AxesPlan, AxisRefusal<Refusal>>> for AxesPlanResult {
    ghost from_gives = { λ answer r. r ≡ axes_plan_fields (axes_outcome answer, axes_plans answer) };

    fn from(answer: Result<AxesPlan, AxisRefusal<Refusal>>) -> AxesPlanResult {
        match answer {
            Ok(set) => {
                let plans = set.plans;
                AxesPlanResult {
                    refusal: 0,
                    place: 0,
                    samples: set.samples,
                    plans,
                }
            }
            Err(unplanned) => AxesPlanResult {
                refusal: unplanned.refusal.number(),
                place: unplanned.place,
                ..AxesPlanResult::default()
            },
        }
    }
}

impl From<Result<[Sample; MOST_AXES], AxisRefusal<MotionRefusal>>> for AxesSampleResult {
    ghost from_gives = { λ answer r. r ≡ axes_sample_fields (axes_sample_outcome answer, axes_samples answer) };

    fn from(answer: Result<[Sample; MOST_AXES], AxisRefusal<MotionRefusal>>) -> AxesSampleResult {
        match answer {
            Ok(values) => AxesSampleResult {
                refusal: 0,
                place: 0,
                values,
            },
            Err(unsampled) => AxesSampleResult {
                refusal: unsampled.refusal.number(),
                place: unsampled.place,
                ..AxesSampleResult::default()
            },
        }
    }
}
