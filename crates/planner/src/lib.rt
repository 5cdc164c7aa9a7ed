// Plans one move of the carriage, in the fourth or the third order, or a set of axes: the intervals, the snap or the jerk, and the
// shortfall; or the refusal.
#![tactic(auto)]

mod axes;
mod bounds;
mod division;
mod figures;
mod in_range;
mod intervals;
mod search;
mod span;
mod third;

ghost use Rattle.std.specs.Prelude.{◌≡◌};
ghost use Rattle.planner.specs.Outcome.{Plans, number, outcome};

pub use axes::plan_axes;
pub use third::plan_third;

// Sub-count units in a count: the paper's G, in grains.
pub const UNITS_PER_COUNT: u64 = 1_099_511_627_776;

// The most axes of a set.
pub const MOST_AXES: usize = 8;

// A move as it is sent: the displacement X in counts, the bounds V, A, J and S on the size of velocity, acceleration, jerk and snap, in
// sub-count units and samples, and the count at which the move starts.
#[repr(C)]
#[derive(Clone, Copy, Debug, Default, PartialEq, Eq, Hash)]
pub struct Move {
    pub displacement: i64,
    pub velocity: u64,
    pub acceleration: u64,
    pub jerk: u64,
    pub snap: u64,
    pub start: i64,
}

// The intervals a, b, c and e in samples, the size D of the snap, and the shortfall W−D·P.
#[repr(C)]
#[derive(Clone, Copy, Debug, Default, PartialEq, Eq, Hash)]
pub struct Plan {
    pub a: u64,
    pub b: u64,
    pub c: u64,
    pub e: u64,
    pub snap: u64,
    pub shortfall: u64,
}

// The plan of an axis at rest: a constant beside `default`, since the definitions name it (`rest_plan`).
const REST: Plan = Plan {
    a: 0,
    b: 0,
    c: 0,
    e: 0,
    snap: 0,
    shortfall: 0,
};

// Refusals 1 to 7, 13 and 14, in the order of their numbers.
#[derive(Clone, Copy, Debug, PartialEq, Eq, Hash)]
pub enum Refusal {
    NoDisplacement,
    DisplacementRange,
    VelocityRange,
    AccelerationRange,
    JerkRange,
    SnapRange,
    TooManySamples,
    AxisCount,
    StartOrEndRange,
}

// A third-order plan: the intervals b, c and e in samples, the size of the jerk, and the shortfall.
#[derive(Clone, Copy, Debug, Default, PartialEq, Eq, Hash)]
pub struct ThirdPlan {
    pub b: u64,
    pub c: u64,
    pub e: u64,
    pub jerk: u64,
    pub shortfall: u64,
}

// The common duration, and the plans. An axis at rest has zeros, and so have the places after the last axis.
#[derive(Clone, Copy, Debug, PartialEq, Eq, Hash)]
pub struct AxesPlan {
    pub samples: u64,
    pub plans: [Plan; MOST_AXES],
}

// A refusal of a set, with the place of its axis, from 1; 0 where it is the set's as a whole.
#[derive(Clone, Copy, Debug, PartialEq, Eq, Hash)]
pub struct AxisRefusal<R> {
    pub place: u64,
    pub refusal: R,
}

// Plans a move, or names the first refusal that applies.
#[tactic(auto, using(crate::proofs::Sets::move_set))]
pub fn plan_move(m: &Move) -> Result<Plan, Refusal>
    ensures { Plans m.now (outcome result) }
{
    let plan = m.undivided_plan()?;
    Ok(plan.divided())
}

impl Refusal {
    // The paper's number of a refusal.
    pub fn number(self) -> u64
        ensures { result ≡ number self }
    {
        match self {
            Refusal::NoDisplacement => 1,
            Refusal::DisplacementRange => 2,
            Refusal::VelocityRange => 3,
            Refusal::AccelerationRange => 4,
            Refusal::JerkRange => 5,
            Refusal::SnapRange => 6,
            Refusal::TooManySamples => 7,
            Refusal::AxisCount => 13,
            Refusal::StartOrEndRange => 14,
        }
    }
}
