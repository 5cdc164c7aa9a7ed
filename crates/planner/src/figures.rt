// Refusals 1 to 5: the figures that both orders read.
ghost use Rattle.std.specs.Prelude.{◌≡◌};
ghost use Rattle.planner.specs.Inner.Capped.{FiguresToJerk};

use crate::span::MOST_COUNTS;
use crate::{Move, Refusal, UNITS_PER_COUNT};

// The distance W in sub-count units and the bounds V, A and J of a move where none of these refusals applies. The bound on the snap is not
// looked at.
#[derive(Clone, Copy)]
pub(crate) struct Figures {
    pub distance: u64,
    pub velocity: u64,
    pub acceleration: u64,
    pub jerk: u64,
    ghost in_range: { FiguresToJerk distance velocity acceleration jerk },
}

impl Figures {
    ghost use Rattle.planner.specs.Inner.Undivided.{Measures};

    // No `TryFrom`: five refusals are asked, and the bound on the snap is left out.
    #[tactic(auto, unfolding(crate::specs::Inner::Undivided::checked, crate::specs::Inner::Undivided::figures_result, crate::specs::Quantities::distance, crate::specs::Refusals::first_refusal))]
    pub(crate) fn of(m: &Move) -> Result<Figures, Refusal>
        ensures { Measures m.now result }
    {
        let size = m.displacement.unsigned_abs();
        if size == 0 {
            return Err(Refusal::NoDisplacement);
        }
        if MOST_COUNTS < size {
            return Err(Refusal::DisplacementRange);
        }
        m.check_bounds_to_jerk()?;
        Ok(Figures {
            distance: UNITS_PER_COUNT * size,
            velocity: m.velocity,
            acceleration: m.acceleration,
            jerk: m.jerk,
        })
    }
}
