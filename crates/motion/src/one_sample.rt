// One sample: the values of a profile there, from the start of the move.
ghost use Rattle.std.specs.Prelude.{◌≡◌, ◌≤◌, ◌^◌, nat_abs};
ghost use Rattle.planner.specs.Outcome.{most_counts};
ghost use Rattle.motion.specs.Axes.{rest_sample};
ghost use Rattle.motion.specs.Inner.Planned.{IsSampleOf, values_in};

use crate::Sample;
use crate::count::{round_to_count, units_of};
use planner::Move;

// The distance from the start and its derivatives.
#[derive(Clone, Copy)]
pub struct Derivatives {
    pub snap: i64,
    pub jerk: i64,
    pub acceleration: i64,
    pub velocity: i64,
    pub distance: i64,
}

impl Derivatives {
    // The sample of a move that has these. The distance is what is rounded.
    pub(crate) fn sample_from(&self, m: &Move) -> Sample
        requires start_bound { nat_abs m.now.start ≤ most_counts }
        requires position_bound { nat_abs self.now.distance ≤ 2 ^ 60 }
        ensures { IsSampleOf m.now.start (values_in self.now) result }
    {
        let distance = self.distance;
        let position = units_of(m.start) + distance;
        let rounded = round_to_count(distance);
        let count = m.start + rounded.count;
        Sample {
            snap: self.snap,
            jerk: self.jerk,
            acceleration: self.acceleration,
            velocity: self.velocity,
            position,
            count,
            remainder: rounded.remainder,
        }
    }
}

impl Sample {
    // Of an axis at rest: it stays at its start.
    pub(crate) fn at_rest(m: &Move) -> Sample
        requires { nat_abs m.now.start ≤ most_counts }
        ensures { result ≡ rest_sample m.now.start }
    {
        let position = units_of(m.start);
        Sample {
            snap: 0,
            jerk: 0,
            acceleration: 0,
            velocity: 0,
            position,
            count: m.start,
            remainder: 0,
        }
    }
}
