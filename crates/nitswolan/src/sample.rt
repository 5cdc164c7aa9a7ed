// The one-sample entry's answer for C.
ghost use Rattle.std.specs.Prelude.{◌≡◌};
ghost use Rattle.motion.specs.Answer.{outcome};
ghost use Rattle.nitswolan.specs.Fields.{sample_fields};

use motion::{MotionRefusal, Sample};

// The values at a sample in sub-count units, the position to the nearest count, and the remainder.
#[repr(C)]
#[derive(Clone, Copy, Debug, Default, PartialEq, Eq, Hash)]
pub struct SampleResult {
    pub refusal: u64,
    pub snap: i64,
    pub jerk: i64,
    pub acceleration: i64,
    pub velocity: i64,
    pub position: i64,
    pub count: i64,
    pub remainder: i64,
}

impl From<Result<Sample, MotionRefusal>> for SampleResult {
    ghost from_gives = { λ answer r. r ≡ sample_fields (outcome answer) };

    fn from(answer: Result<Sample, MotionRefusal>) -> SampleResult {
        match answer {
            Ok(sample) => SampleResult {
                refusal: 0,
                snap: sample.snap,
                jerk: sample.jerk,
                acceleration: sample.acceleration,
                velocity: sample.velocity,
                position: sample.position,
                count: sample.count,
                remainder: sample.remainder,
            },
            Err(refusal) => SampleResult {
                refusal: refusal.number(),
                ..SampleResult::default()
            },
        }
    }
}
