// The doubled whole numbers of a row.
ghost use Rattle.std.specs.Prelude.{◌≡◌};
ghost use Rattle.motion.specs.Inner.Rows.{Castable, none_earlier, earlier_next, doubled_by, doubled_numbers};

use crate::state::State;

// What row k needs of the samples before k: the values at k−1 and at k−2.
#[derive(Clone, Copy)]
pub struct Earlier {
    pub snap1: i64,
    pub snap2: i64,
    pub jerk1: i64,
    pub jerk2: i64,
    pub acceleration1: i64,
    pub velocity1: i64,
}

impl Earlier {
    // Before sample 0 all values are 0.
    pub(crate) fn none() -> Earlier
        ensures { result ≡ none_earlier }
    {
        Earlier {
            snap1: 0,
            snap2: 0,
            jerk1: 0,
            jerk2: 0,
            acceleration1: 0,
            velocity1: 0,
        }
    }

    // What the next row needs: all values are one sample further back.
    pub(crate) fn next(self, state: State, snap: i64) -> Earlier
        ensures { result ≡ earlier_next self state snap }
    {
        Earlier {
            snap1: snap,
            snap2: self.snap1,
            jerk1: state.jerk,
            jerk2: self.jerk1,
            acceleration1: state.acceleration,
            velocity1: state.velocity,
        }
    }
}

// The paper's d2, j2, a2 and v2. That they fit a float exactly stands in clauses: who makes them has to know it before.
#[derive(Clone, Copy)]
pub struct Doubled {
    pub d2: i64,
    pub j2: i64,
    pub a2: i64,
    pub v2: i64,
}

impl Doubled {
    pub(crate) fn of(velocity: i64, earlier: Earlier) -> Doubled
        requires { Castable (doubled_by velocity earlier) }
        ensures { doubled_numbers result ≡ doubled_by velocity earlier }
    {
        let d2 = 2 * earlier.snap2;
        let j2 = earlier.jerk1 + earlier.jerk2;
        let a2 = 2 * earlier.acceleration1;
        let v2 = velocity + earlier.velocity1;
        Doubled { d2, j2, a2, v2 }
    }
}
