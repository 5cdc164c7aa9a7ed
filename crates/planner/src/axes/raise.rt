// The plans of a set: each axis raised to the common duration, and its D found there.
ghost use Rattle.std.specs.Prelude.{map, ◌≡◌};
ghost use Rattle.planner.specs.Inner.AxisAnswers.{Raisable, EachRaisable, raised_plan};

use crate::{AxesPlan, Plan};

impl Plan {
    // An axis at rest has no intervals, and stays as it is.
    fn raised(self, samples: u64) -> Plan
        requires { Raisable samples self }
        ensures { result ≡ raised_plan samples self }
    {
        if self.a == 0 {
            return self;
        }
        let more = samples - self.samples();
        let longer = Plan {
            e: self.e + more,
            snap: 0,
            ..self
        };
        longer.divided()
    }
}

impl AxesPlan {
    // Over all eight places: the compiler then keeps them out of memory.
    #[tactic(auto, using(crate::proofs::Sets::raise_set))]
    pub(crate) fn raise_each(&mut self)
        requires { EachRaisable self.old.samples self.old.plans }
        ensures { (self.new.samples ≡ self.old.samples) × (self.new.plans ≡ map (raised_plan self.old.samples) self.old.plans) }
    {
        let samples = self.samples;
        for plan in self.plans.iter_mut() {
            *plan = plan.raised(samples);
        }
    }
}
