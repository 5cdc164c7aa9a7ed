// Counts and sub-count units. Rounding in whole numbers: division goes towards zero, so the fraction that it leaves decides, on either
// side of zero.
ghost use Rattle.std.specs.Prelude.{◌≡◌, ◌≤◌, nat_abs};
ghost use Rattle.planner.specs.Outcome.{most_counts};
ghost use Rattle.motion.specs.Sampling.{units_of, RoundsTo};

const UNITS_PER_COUNT: i64 = planner::UNITS_PER_COUNT as i64;

const HALF_COUNT: i64 = UNITS_PER_COUNT / 2;

const MINUS_HALF_COUNT: i64 = -UNITS_PER_COUNT / 2;

// G times the start, at most 2^60 in size.
pub(crate) fn units_of(start: i64) -> i64
    requires { nat_abs start ≤ most_counts }
    ensures { result ≡ units_of start }
{
    UNITS_PER_COUNT * start
}

// The nearest count of a distance, and the distance less that count in sub-count units.
#[derive(Clone, Copy)]
pub(crate) struct Rounded {
    pub count: i64,
    pub remainder: i64,
}

// Halves go away from zero, and so from the start. The quotient is at most 2^23 in size and the fraction below 2^40, so no step leaves the
// range; G times the count would, for a distance of 2^63 - 2^39 or more.
pub(crate) fn round_to_count(distance: i64) -> Rounded
    ensures { RoundsTo distance result.count result.remainder }
{
    let quotient = distance / UNITS_PER_COUNT;
    let fraction = distance % UNITS_PER_COUNT;
    if HALF_COUNT <= fraction {
        let count = quotient + 1;
        let remainder = fraction - UNITS_PER_COUNT;
        return Rounded { count, remainder };
    }
    if fraction <= MINUS_HALF_COUNT {
        let count = quotient - 1;
        let remainder = fraction + UNITS_PER_COUNT;
        return Rounded { count, remainder };
    }
    Rounded {
        count: quotient,
        remainder: fraction,
    }
}
