// The coefficients of snap, jerk, acceleration and velocity in a machine's force, and the sum by them.
ghost use Rattle.std.specs.Prelude.{◌≡◌};
ghost use Rattle.motion.specs.Answer.{machine_of};
ghost use Rattle.motion.specs.Inner.Rows.{AreCoefficients, Castable, doubled_numbers, u_by};

use crate::Machine;
use crate::force::doubled::Doubled;

// The paper's q1 to q4.
#[derive(Clone, Copy)]
pub struct Coefficients {
    pub q1: f64,
    pub q2: f64,
    pub q3: f64,
    pub q4: f64,
}

impl From<Machine> for Coefficients {
    ghost from_gives = { λ machine q. AreCoefficients (machine_of machine) q };

    // The operations stand in the paper's order, and each is rounded once.
    fn from(machine: Machine) -> Coefficients {
        let masses = machine.m1 + machine.m2;
        let dampings = machine.k1 + machine.k2;
        Coefficients {
            q1: machine.m1 * machine.m2,
            q2: masses * machine.k12 + machine.m1 * machine.k2 + machine.m2 * machine.k1,
            q3: masses * machine.c + machine.k1 * machine.k2 + dampings * machine.k12,
            q4: dampings * machine.c,
        }
    }
}

impl Coefficients {
    // The paper's u of a row. The casts lose nothing, and the operations stand in the paper's order.
    pub(crate) fn u(self, w: Doubled) -> f64
        requires { Castable (doubled_numbers w) }
        ensures { result ≡ u_by self (doubled_numbers w) }
    {
        (self.q1 * (w.d2 as f64)
            + self.q2 * (w.j2 as f64)
            + self.q3 * (w.a2 as f64)
            + self.q4 * (w.v2 as f64))
            * 0.5
    }
}
