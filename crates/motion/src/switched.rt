// The switched value by the widths of the intervals: the snap, or in the third order the jerk. At any one sample it is found without the
// list of segments.
ghost use Rattle.std.specs.Prelude.{[], ◌≡◌, ◌≤◌, ◌^◌};
ghost use Rattle.profile.specs.Inner.Widths.{switched_by};
ghost use Rattle.motion.specs.Inner.SwitchedLevels.{AreLevels};
ghost use Rattle.motion.specs.Inner.InnerSamples.{SameValue};

use crate::sums::Stretch;
use planner::Move;

// The value in the segments with + and in those with −.
#[derive(Clone, Copy)]
pub struct Levels {
    pub positive: i64,
    pub negative: i64,
}

impl Levels {
    // D in the direction of the displacement, and against it.
    pub(crate) fn of(m: &Move, size: u64) -> Levels
        requires { size ≤ 2 ^ 60 }
        ensures { AreLevels m.now.displacement size result }
    {
        let level = size as i64;
        if m.displacement < 0 {
            return Levels {
                positive: 0 - level,
                negative: level,
            };
        }
        Levels {
            positive: level,
            negative: 0 - level,
        }
    }

    // The value at sample k inside intervals of these widths, the outermost first, around one of a samples.
    pub(crate) fn at(&self, widths: &[u64], a: u64, k: u64) -> i64
        ensures { result ≡ switched_by a widths.now self.now.positive self.now.negative k }
    {
        let mut inner = IntervalSample {
            positive: self.positive,
            negative: self.negative,
            sample: k,
        };
        for width in widths {
            inner = inner.inside(*width);
        }
        inner.innermost(a)
    }

    pub(crate) fn with_plus(&self, samples: u64) -> Stretch
        ensures { result ≡ record { samples = samples; level = self.now.positive } }
    {
        Stretch {
            samples: samples as usize,
            level: self.positive,
        }
    }

    pub(crate) fn with_minus(&self, samples: u64) -> Stretch
        ensures { result ≡ record { samples = samples; level = self.now.negative } }
    {
        Stretch {
            samples: samples as usize,
            level: self.negative,
        }
    }
}

// A sample inside an interval, counted from the interval's start, and the levels there.
#[derive(Clone, Copy)]
struct IntervalSample {
    pub positive: i64,
    pub negative: i64,
    pub sample: u64,
}

impl IntervalSample {
    // The same sample inside the next interval: past its width the inner profile starts anew with the levels exchanged.
    fn inside(&self, width: u64) -> IntervalSample
        ensures { SameValue width self.now.positive self.now.negative self.now.sample result.positive result.negative result.sample }
    {
        if self.sample < width {
            return *self;
        }
        IntervalSample {
            positive: self.negative,
            negative: self.positive,
            sample: self.sample - width,
        }
    }

    // The value around the innermost interval, of a samples.
    fn innermost(&self, a: u64) -> i64
        ensures { result ≡ switched_by a [] self.now.positive self.now.negative self.now.sample }
    {
        if self.sample < a {
            return self.positive;
        }
        0
    }
}
