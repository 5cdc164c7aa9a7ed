// The planner's answer for C.
ghost use Rattle.std.specs.Prelude.{◌≡◌, IfOk};
ghost use Rattle.motion.specs.Inner.Planned.{PlanInRange};
ghost use Rattle.planner.specs.Outcome.{outcome};
ghost use Rattle.nitswolan.specs.Fields.{plan_fields};

use planner::{Plan, Refusal};

// A plan: N, the intervals a, b, c and e, the size D of the snap, and the shortfall.
#[repr(C)]
#[derive(Clone, Copy, Debug, Default, PartialEq, Eq, Hash)]
pub struct PlanResult {
    pub refusal: u64,
    pub samples: u64,
    pub a: u64,
    pub b: u64,
    pub c: u64,
    pub e: u64,
    pub snap: u64,
    pub shortfall: u64,
}

// No `From`, since the sum N needs a `requires`.
impl PlanResult {
    pub(crate) fn of(answer: Result<Plan, Refusal>) -> PlanResult
        requires { IfOk answer PlanInRange }
        ensures { result ≡ plan_fields (outcome answer) }
    {
        match answer {
            Ok(plan) => PlanResult {
                refusal: 0,
                samples: plan.a + plan.b + plan.c + plan.e,
                a: plan.a,
                b: plan.b,
                c: plan.c,
                e: plan.e,
                snap: plan.snap,
                shortfall: plan.shortfall,
            },
            Err(refusal) => PlanResult {
                refusal: refusal.number(),
                ..PlanResult::default()
            },
        }
    }
}
