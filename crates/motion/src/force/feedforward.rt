// What every row of a machine's force table needs.
ghost use Rattle.std.specs.Prelude.{◌≡◌};
ghost use Rattle.motion.specs.Answer.{machine_of};
ghost use Rattle.motion.specs.Inner.Rows.{Castable, IsFeedforward, doubled_by, row_in};

use crate::Machine;
use crate::force::coefficients::Coefficients;
use crate::force::doubled::Doubled;
use crate::force::drive::Drive;
use crate::force::rows::{Row, RowState};

#[derive(Clone, Copy)]
pub struct Feedforward {
    pub q: Coefficients,
    pub drive: Drive,
}

impl From<Machine> for Feedforward {
    ghost from_gives = { λ machine feedforward. IsFeedforward (machine_of machine) feedforward };

    fn from(machine: Machine) -> Feedforward {
        Feedforward {
            q: Coefficients::from(machine),
            drive: Drive::from(machine),
        }
    }
}

impl Feedforward {
    pub(crate) fn row(self, current: RowState) -> Row
        requires { Castable (doubled_by current.state.velocity current.earlier) }
        ensures { result ≡ row_in self current }
    {
        let drive = self.drive;
        let doubled = Doubled::of(current.state.velocity, current.earlier);
        let u = self.q.u(doubled);
        Row {
            u,
            force: drive.force(u, current.previous),
        }
    }
}
