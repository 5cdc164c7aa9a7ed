// Refusal 14: the start or the end outside the span.
ghost use Rattle.std.specs.Prelude.{◌≡◌};
ghost use Rattle.planner.specs.Outcome.{ends_outside};

use crate::Move;

// The farthest count from zero, either way: of a displacement, of a start and of an end.
pub(crate) const MOST_COUNTS: u64 = 1_048_576;

impl Move {
    // Of any two numbers. They are added only where neither is far: else the start or the end is outside.
    pub(crate) fn ends_outside(&self) -> bool
        ensures { result ≡ ends_outside self.now.displacement self.now.start }
    {
        if MOST_COUNTS < self.start.unsigned_abs() {
            return true;
        }
        if 2 * MOST_COUNTS < self.displacement.unsigned_abs() {
            return true;
        }
        MOST_COUNTS < (self.start + self.displacement).unsigned_abs()
    }
}
