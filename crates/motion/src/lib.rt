// One sample of a move, in the fourth or the third order, or of a set of axes, and the tables that the drive and the feedback loop play.
// Every entry takes the moves' own numbers and plans inside.
#![tactic(auto)]

mod axes;
mod closed_form;
mod count;
mod force;
mod fourth;
mod one_sample;
mod order;
mod planned;
mod state;
mod sums;
mod switched;
mod third;

ghost use Rattle.std.specs.Prelude.{◌≡◌};
ghost use Rattle.motion.specs.Answer.{number};
ghost use Rattle.motion.specs.declared.MotionRefusal.TheVariants.{Unplanned};

pub use axes::sample_axes;
pub use force::table::fill_force;
pub use fourth::Fourth;
pub use order::{Order, fill_positions, fill_reference, sample_move};
use planner::Refusal;
pub use third::Third;

// The values at a sample: snap, jerk, acceleration, velocity and position in sub-count units, the position to the nearest count, and the
// remainder, which is the position less that count, in sub-count units too. Halves go away from the start.
#[repr(C)]
#[derive(Clone, Copy, Debug, Default, PartialEq, Eq, Hash)]
pub struct Sample {
    pub snap: i64,
    pub jerk: i64,
    pub acceleration: i64,
    pub velocity: i64,
    pub position: i64,
    pub count: i64,
    pub remainder: i64,
}

// A two-mass machine, in the paper's names: masses m1 and m2, dampings k1, k2 and k12, stiffness c. Time is in samples.
#[repr(C)]
#[derive(Clone, Copy, Debug, PartialEq)]
pub struct Machine {
    pub m1: f64,
    pub m2: f64,
    pub k1: f64,
    pub k2: f64,
    pub k12: f64,
    pub c: f64,
}

// Refusals 1 to 7, 13 and 14 of the planner, 8, 9 and 10.
#[derive(Clone, Copy, Debug, PartialEq, Eq, Hash)]
pub enum MotionRefusal {
    Unplanned(Refusal),
    ShortTable,
    PastEnd,
    MachineRange,
}

impl MotionRefusal {
    // The paper's number of a refusal.
    pub fn number(self) -> u64
        ensures { result ≡ number self }
    {
        match self {
            MotionRefusal::Unplanned(refusal) => refusal.number(),
            MotionRefusal::ShortTable => 8,
            MotionRefusal::PastEnd => 9,
            MotionRefusal::MachineRange => 10,
        }
    }
}

impl From<Refusal> for MotionRefusal {
    ghost from_gives = { λ refusal e. e ≡ Unplanned refusal };

    fn from(refusal: Refusal) -> MotionRefusal {
        MotionRefusal::Unplanned(refusal)
    }
}
