// The sums at a sample, and the step to the next.
ghost use Rattle.std.specs.Prelude.{◌≡◌};
ghost use Rattle.motion.specs.Inner.Steps.{StepFits, stepped, rest_at};
ghost use Rattle.motion.specs.Inner.Orders.{FourthFits, ThirdFits, fourth_step, third_step};

use crate::sums::{Positions, Sums};

// The four sums of a snap.
#[derive(Clone, Copy)]
pub struct State {
    pub jerk: i64,
    pub acceleration: i64,
    pub velocity: i64,
    pub position: i64,
}

// The third order sets the jerk, and sums the others.
#[derive(Clone, Copy)]
pub struct ThirdState {
    pub acceleration: i64,
    pub velocity: i64,
    pub position: i64,
}

impl Sums for State {
    type Row = i64;

    ghost row_of = { λ s. s.position };

    ghost stepped = { fourth_step };

    ghost can_step = { FourthFits };

    fn next_row(&mut self, snap: i64) -> i64 {
        let position = self.position;
        *self = self.step(snap);
        position
    }
}

impl Positions for State {
    fn position(&self) -> i64 {
        self.position
    }

    ghost pair_fits = { λ x s h. h.1 };
}

impl Sums for ThirdState {
    type Row = i64;

    ghost row_of = { λ s. s.position };

    ghost stepped = { third_step };

    ghost can_step = { ThirdFits };

    fn next_row(&mut self, jerk: i64) -> i64 {
        let position = self.position;
        *self = ThirdState {
            acceleration: self.acceleration + jerk,
            velocity: self.velocity + self.acceleration,
            position: position + self.velocity,
        };
        position
    }
}

impl Positions for ThirdState {
    fn position(&self) -> i64 {
        self.position
    }

    ghost pair_fits = { λ x s h. h.1 };
}

impl State {
    // The state at the next sample. Each sum grows by the next higher derivative as it was: the old one, not the new.
    pub(crate) fn step(self, snap: i64) -> State
        requires { StepFits self snap }
        ensures { result ≡ stepped self snap }
    {
        let jerk = self.jerk + snap;
        let acceleration = self.acceleration + self.jerk;
        let velocity = self.velocity + self.acceleration;
        let position = self.position + self.velocity;
        State {
            jerk,
            acceleration,
            velocity,
            position,
        }
    }

    // Sample 0: at rest at this position.
    pub(crate) fn at_position(position: i64) -> State
        ensures { result ≡ rest_at position }
    {
        State {
            jerk: 0,
            acceleration: 0,
            velocity: 0,
            position,
        }
    }
}
