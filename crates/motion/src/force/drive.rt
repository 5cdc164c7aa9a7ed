// The drive of a checked machine, and its force.
ghost use Rattle.std.specs.Prelude.{◌≡◌};
ghost use Rattle.motion.specs.ForceRows.Force.{drive_of};
ghost use Rattle.motion.specs.Inner.Rows.{drive_kind, force_by};

use crate::Machine;
use crate::force::rows::Row;

// Rigid with its stiffness, or filtered with the paper's alpha and beta.
#[derive(Clone, Copy)]
pub enum Drive {
    Rigid(f64),
    Filtered(f64, f64),
}

impl From<Machine> for Drive {
    ghost from_gives = { λ machine drive. drive_kind drive ≡ drive_of machine.k12 machine.c };

    fn from(machine: Machine) -> Drive {
        if machine.k12 == 0.0 {
            return Drive::Rigid(machine.c);
        }
        let twice = 2.0 * machine.k12;
        let g = twice + machine.c;
        Drive::Filtered((twice - machine.c) / g, 1.0 / g)
    }
}

impl Drive {
    // Of a row with this u, after the row before.
    pub(crate) fn force(self, u: f64, previous: Row) -> f64
        ensures { result ≡ force_by (drive_kind self) u previous }
    {
        match self {
            Drive::Rigid(stiffness) => u / stiffness,
            Drive::Filtered(alpha, beta) => alpha * previous.force + beta * (u + previous.u),
        }
    }
}
