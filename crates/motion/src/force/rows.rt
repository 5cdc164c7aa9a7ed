// A row of a force table.
ghost use Rattle.std.specs.Prelude.{◌≡◌};
ghost use Rattle.motion.specs.Inner.Steps.{StepFits};
ghost use Rattle.motion.specs.Inner.Rows.{first_row, advanced, ForceFits, force_of_row, force_step};

use crate::force::doubled::Earlier;
use crate::force::feedforward::Feedforward;
use crate::state::State;
use crate::sums::Sums;

// The paper's u and the force of a row.
#[derive(Clone, Copy)]
pub struct Row {
    pub u: f64,
    pub force: f64,
}

// Before row k: the state at sample k, the values before it, and the row before.
#[derive(Clone, Copy)]
pub struct RowState {
    pub state: State,
    pub earlier: Earlier,
    pub previous: Row,
}

impl RowState {
    // Before row 0: everything is 0.
    pub(crate) fn first() -> RowState
        ensures { result ≡ first_row }
    {
        RowState {
            state: State::at_position(0),
            earlier: Earlier::none(),
            previous: Row { u: 0.0, force: 0.0 },
        }
    }

    // Before the next row.
    pub(crate) fn advance(self, snap: i64, row: Row) -> RowState
        requires { StepFits self.state snap }
        ensures { result ≡ advanced self snap row }
    {
        RowState {
            state: self.state.step(snap),
            earlier: self.earlier.next(self.state, snap),
            previous: row,
        }
    }
}

// The rows of a force table: what each needs, and what is carried along.
#[derive(Clone, Copy)]
pub struct Forces {
    pub feedforward: Feedforward,
    pub current: RowState,
}

impl Sums for Forces {
    type Row = f64;

    ghost row_of = { force_of_row };

    ghost stepped = { force_step };

    ghost can_step = { ForceFits };

    fn next_row(&mut self, snap: i64) -> f64 {
        let row = self.feedforward.row(self.current);
        self.current = self.current.advance(snap, row);
        row.force
    }
}
