// From intervals to the size of what is switched and the shortfall.
ghost use Rattle.std.specs.Prelude.{◌≡◌, ◌-◌, ◌*◌, ◌/◌, ◌^◌, ◌≤◌};
ghost use Rattle.planner.specs.Intervals.{N};
ghost use Rattle.planner.specs.Outcome.{intervals_in, plan_of};
ghost use Rattle.planner.specs.Inner.Undivided.{Divisible};

use crate::Plan;

#[derive(Clone, Copy)]
pub(crate) struct Division {
    pub quotient: u64,
    pub shortfall: u64,
}

// D, the size of the snap (in the third order of the jerk), is W over P rounded down, so that neither a bound nor the end is passed.
// The shortfall is what that leaves of W.
pub(crate) fn divide(w: u64, p: u64) -> Division
    requires { 1 ≤ p }
    ensures { (result.quotient ≡ w / p) × (result.shortfall ≡ w - w / p * p) }
{
    let quotient = w / p;
    let shortfall = w % p;
    Division {
        quotient,
        shortfall,
    }
}

impl Plan {
    // N, the samples that a plan takes. Not published, since no published function has a `requires`.
    pub(crate) fn samples(&self) -> u64
        requires { N (intervals_in self.now) ≤ 2 ^ 16 }
        ensures { result ≡ N (intervals_in self.now) }
    {
        self.a + self.b + self.c + self.e
    }

    // The plan of these intervals, of which all of W is still short.
    pub(crate) fn divided(self) -> Plan
        requires { Divisible self }
        ensures { result ≡ plan_of self.shortfall (intervals_in self) }
    {
        let d = divide(self.shortfall, self.a * self.b * self.c * self.e);
        Plan {
            snap: d.quotient,
            shortfall: d.shortfall,
            ..self
        }
    }
}
