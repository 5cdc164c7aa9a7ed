// The intervals of a move in range. An interval above 4,096 may come out smaller than the rule's,
// but never below 4,097: such a move is refused either way.
ghost use Rattle.std.specs.Prelude.{◌≡◌, ◌≤◌, min};
ghost use Rattle.planner.specs.Intervals.{interval_a, interval_b, interval_c, interval_e};
ghost use Rattle.planner.specs.Claims.{BoundInRange};
ghost use Rattle.planner.specs.Inner.Capped.{Agrees, Carried, LaterAgree, IntervalsAgree, found};

use crate::figures::Figures;
use crate::search::least_interval;

// A plan has at most 4,096 samples, so a search need tell no numbers from here on apart.
const CAP: u64 = 4097;

#[derive(Clone, Copy)]
pub(crate) struct Intervals {
    pub a: u64,
    pub b: u64,
    pub c: u64,
    pub e: u64,
}

// The bound that the next interval goes by: J1, A1 or V1. These and the intervals before are numbers with their range in a clause: as values
// of a type each product and each search would take them apart.
fn carried(bound: u64, k: u64, n: u64) -> u64
    requires { BoundInRange bound × BoundInRange k × (1 ≤ n) × (n ≤ 8194) }
    ensures { Carried bound k n result }
{
    bound.min(k * n)
}

// Each search looks no further than the one before it found, and no lower than the interval may be. The
// rule's last search stands first: its product is the cheapest, and the others end at what it finds.
impl Figures {
    fn interval_a(&self, s: u64) -> u64
        requires { BoundInRange s }
        ensures { Agrees 4097 4097 result (interval_a self.now.distance self.now.velocity self.now.acceleration self.now.jerk s) }
    {
        let by_jerk = least_interval(s, 0, 0, self.jerk, 1, CAP);
        let by_acceleration = least_interval(s, 0, 1, self.acceleration, 1, by_jerk);
        let by_velocity = least_interval(2 * s, 0, 2, self.velocity, 1, by_acceleration);
        least_interval(8 * s, 0, 3, self.distance, 1, by_velocity)
    }

    fn interval_b(&self, j1: u64, a: u64) -> u64
        requires { BoundInRange j1 × (a ≤ 4097) }
        ensures { Agrees 4097 4097 result (interval_b self.now.distance self.now.velocity self.now.acceleration j1 a) }
    {
        // In the third order a is 0, and an interval is at least 1.
        let lo = 1u64.max(a);
        let by_acceleration = least_interval(j1, a, 0, self.acceleration, lo, CAP);
        let by_velocity = least_interval(j1, a, 1, self.velocity, lo, by_acceleration);
        least_interval(2 * j1, a, 2, self.distance, lo, by_velocity)
    }

    fn interval_c(&self, a1: u64, a: u64, b: u64) -> u64
        requires { BoundInRange a1 × (a ≤ 4097) × (1 ≤ b) × (b ≤ 4097) }
        ensures { Agrees 4097 8194 result (interval_c self.now.distance self.now.velocity a1 a b) }
    {
        let ab = a + b;
        let by_velocity = least_interval(a1, ab, 0, self.velocity, ab, ab.max(CAP));
        least_interval(a1, ab, 1, self.distance, ab, by_velocity)
    }

    fn interval_e(&self, v1: u64, a: u64, b: u64, c: u64) -> u64
        requires { BoundInRange v1 × (a ≤ 4097) × (1 ≤ b) × (b ≤ 4097) × (c ≤ 8194) }
        ensures { Agrees 4097 16388 result (interval_e self.now.distance v1 a b c) }
    {
        let abc = a + b + c;
        least_interval(v1, 0, 0, self.distance, abc, abc.max(CAP))
    }

    // From b on. The third order has none before: a is 0 there, and J1 is J.
    pub(crate) fn later_intervals(&self, j1: u64, a: u64) -> Intervals
        requires { BoundInRange j1 × (a ≤ 4097) }
        ensures { LaterAgree 4097 self.now.distance self.now.velocity self.now.acceleration j1 a (found result) }
    {
        let b = self.interval_b(j1, a);
        let a1 = carried(self.acceleration, j1, b);
        let c = self.interval_c(a1, a, b);
        let v1 = carried(self.velocity, a1, c);
        let e = self.interval_e(v1, a, b, c);
        Intervals { a, b, c, e }
    }

    pub(crate) fn intervals(&self, s: u64) -> Intervals
        requires { BoundInRange s }
        ensures { IntervalsAgree 4097 self.now.distance self.now.velocity self.now.acceleration self.now.jerk s (found result) }
    {
        let a = self.interval_a(s);
        self.later_intervals(carried(self.jerk, s, a), a)
    }
}
