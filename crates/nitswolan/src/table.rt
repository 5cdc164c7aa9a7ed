// A table entry's answer for C.
ghost use Rattle.std.specs.Prelude.{◌≡◌};
ghost use Rattle.motion.specs.Answer.{outcome};
ghost use Rattle.nitswolan.specs.Fields.{table_fields};

use motion::MotionRefusal;

// How many rows were written, from place 0 on.
#[repr(C)]
#[derive(Clone, Copy, Debug, Default, PartialEq, Eq, Hash)]
pub struct TableResult {
    pub refusal: u64,
    pub rows: u64,
}

impl From<Result<usize, MotionRefusal>> for TableResult {
    ghost from_gives = { λ answer r. r ≡ table_fields (outcome answer) };

    fn from(answer: Result<usize, MotionRefusal>) -> TableResult {
        match answer {
            Ok(rows) => TableResult {
                refusal: 0,
                rows: rows as u64,
            },
            Err(refusal) => TableResult {
                refusal: refusal.number(),
                rows: 0,
            },
        }
    }
}
