// The third-order planner's answer for C.
ghost use Rattle.std.specs.Prelude.{◌≡◌, IfOk};
ghost use Rattle.motion.specs.Inner.Planned.{ThirdPlanInRange};
ghost use Rattle.planner.specs.Outcome.{outcome};
ghost use Rattle.nitswolan.specs.Fields.{third_plan_fields};

use planner::{Refusal, ThirdPlan};

// A third-order plan: N, the intervals b, c and e, the size of the jerk, and the shortfall.
#[repr(C)]
#[derive(Clone, Copy, Debug, Default, PartialEq, Eq, Hash)]
pub struct ThirdPlanResult {
    pub refusal: u64,
    pub samples: u64,
    pub b: u64,
    pub c: u64,
    pub e: u64,
    pub jerk: u64,
    pub shortfall: u64,
}

// No `From`, as for a plan of the fourth order.
impl ThirdPlanResult {
    pub(crate) fn of(answer: Result<ThirdPlan, Refusal>) -> ThirdPlanResult
        requires { IfOk answer ThirdPlanInRange }
        ensures { result ≡ third_plan_fields (outcome answer) }
    {
        match answer {
            Ok(plan) => ThirdPlanResult {
                refusal: 0,
                samples: plan.b + plan.c + plan.e,
                b: plan.b,
                c: plan.c,
                e: plan.e,
                jerk: plan.jerk,
                shortfall: plan.shortfall,
            },
            Err(refusal) => ThirdPlanResult {
                refusal: refusal.number(),
                ..ThirdPlanResult::default()
            },
        }
    }
}
