// The fourth order: the snap is switched, and four sums follow it.
ghost use Rattle.std.specs.Prelude.{◌≡◌};
ghost use Rattle.std.proofs.Common.{refl};
ghost use Rattle.planner.specs.Outcome.{intervals_in};
ghost use Rattle.motion.specs.Sampling.{fourth_order};
ghost use Rattle.motion.specs.Inner.Planned.{PlanInRange, samples_in, fourth_values_in, directed_snap};

use crate::MotionRefusal;
use crate::closed_form::{over_four, scaled};
use crate::count::units_of;
use crate::one_sample::Derivatives;
use crate::order::Order;
use crate::planned::Planned;
use crate::state::State;
use crate::sums::Stretch;
use crate::switched::Levels;
use planner::{Move, Plan};

pub struct Fourth;

impl Order for Fourth {
    type Plan = Plan;

    ghost motion = { fourth_order };

    ghost starts = { λ m. refl };

    fn plan(m: &Move) -> Result<Plan, MotionRefusal> {
        Ok(planner::plan_move(m)?)
    }
}

impl Planned for Plan {
    type State = State;

    type Stretches = [Stretch; 16];

    ghost in_range = { PlanInRange };

    ghost samples_of = { samples_in };

    ghost values_of = { fourth_values_in };

    ghost level_of = { λ X x. directed_snap X (intervals_in x) x.snap };

    ghost size_of = { λ x. x.snap };

    fn samples(&self) -> u64 {
        self.a + self.b + self.c + self.e
    }

    fn levels(&self, m: &Move) -> Levels {
        Levels::of(m, self.snap)
    }

    fn values(&self, m: &Move, k: u64) -> Derivatives {
        let levels = self.levels(m);
        let snap = levels.at(&[self.e, self.c, self.b], self.a, k);
        let products = over_four(self.a, self.b, self.c, self.e, k);
        let jerk = scaled(levels.positive, products.first, 1);
        let acceleration = scaled(levels.positive, products.second, 2);
        let velocity = scaled(levels.positive, products.third, 6);
        let distance = scaled(levels.positive, products.fourth, 24);
        Derivatives {
            snap,
            jerk,
            acceleration,
            velocity,
            distance,
        }
    }

    // All fifteen segments, with p, q, r and s samples.
    fn stretches(&self, m: &Move, trailing: u64) -> [Stretch; 16] {
        let levels = self.levels(m);
        let plus = levels.with_plus(self.a);
        let minus = levels.with_minus(self.a);
        let q = Stretch::without_level(self.b - self.a);
        let r = Stretch::without_level(self.c - self.a - self.b);
        let s = Stretch::without_level(self.e - self.a - self.b - self.c);
        let after = Stretch::without_level(trailing);
        [
            plus, q, minus, r, minus, q, plus, s, minus, q, plus, r, plus, q, minus, after,
        ]
    }

    fn start(&self, m: &Move) -> State {
        let position = units_of(m.start);
        State::at_position(position)
    }
}
