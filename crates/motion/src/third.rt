// The third order: the jerk is switched, and three sums follow it.
ghost use Rattle.std.specs.Prelude.{◌≡◌};
ghost use Rattle.std.proofs.Common.{refl};
ghost use Rattle.motion.specs.Sampling.{third_order};
ghost use Rattle.motion.specs.Inner.Planned.{ThirdPlanInRange, third_samples_in, third_values_in};

use crate::MotionRefusal;
use crate::closed_form::{over_three, scaled};
use crate::count::units_of;
use crate::one_sample::Derivatives;
use crate::order::Order;
use crate::planned::Planned;
use crate::state::ThirdState;
use crate::sums::Stretch;
use crate::switched::Levels;
use planner::{Move, ThirdPlan};

pub struct Third;

impl Order for Third {
    type Plan = ThirdPlan;

    ghost motion = { third_order };

    ghost starts = { λ m. refl };

    fn plan(m: &Move) -> Result<ThirdPlan, MotionRefusal> {
        Ok(planner::plan_third(m)?)
    }
}

impl Planned for ThirdPlan {
    type State = ThirdState;

    type Stretches = [Stretch; 8];

    ghost in_range = { ThirdPlanInRange };

    ghost samples_of = { third_samples_in };

    ghost values_of = { third_values_in };

    ghost level_of = { λ X x k. (third_values_in X x k).jerk };

    ghost size_of = { λ x. x.jerk };

    fn samples(&self) -> u64 {
        self.b + self.c + self.e
    }

    fn levels(&self, m: &Move) -> Levels {
        Levels::of(m, self.jerk)
    }

    fn values(&self, m: &Move, k: u64) -> Derivatives {
        let levels = self.levels(m);
        let jerk = levels.at(&[self.e, self.c], self.b, k);
        let products = over_three(self.b, self.c, self.e, k);
        let acceleration = scaled(levels.positive, products.first, 1);
        let velocity = scaled(levels.positive, products.second, 2);
        let distance = scaled(levels.positive, products.third, 6);
        Derivatives {
            snap: 0,
            jerk,
            acceleration,
            velocity,
            distance,
        }
    }

    // All seven segments: they are the first seven of the fifteen.
    fn stretches(&self, m: &Move, trailing: u64) -> [Stretch; 8] {
        let levels = self.levels(m);
        let plus = levels.with_plus(self.b);
        let minus = levels.with_minus(self.b);
        let q = Stretch::without_level(self.c - self.b);
        let r = Stretch::without_level(self.e - self.b - self.c);
        let after = Stretch::without_level(trailing);
        [plus, q, minus, r, minus, q, plus, after]
    }

    fn start(&self, m: &Move) -> ThirdState {
        let position = units_of(m.start);
        ThirdState {
            acceleration: 0,
            velocity: 0,
            position,
        }
    }
}
