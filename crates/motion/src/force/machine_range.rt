// The machine of a force table.
ghost use Rattle.std.specs.Prelude.{◌≡◌};
ghost use Rattle.motion.specs.ForceRows.Machine.{as_read, machine_as_read, in_range, machine_in_range};
ghost use Rattle.motion.specs.Answer.{machine_of};

use crate::Machine;

// 2^20, and for the stiffness 2^−20.
const MOST: f64 = 1048576.0;

const LEAST_STIFFNESS: f64 = 0.00000095367431640625;

// Minus zero is read as plus zero: both equal zero.
fn as_read(x: f64) -> f64
    ensures { result ≡ as_read x }
{
    if x == 0.0 {
        return 0.0;
    }
    x
}

// From 0 to 2^20. A NaN fails both comparisons.
fn in_range(x: f64) -> bool
    ensures { result ≡ in_range x }
{
    if 0.0 <= x {
        return x <= MOST;
    }
    false
}

impl Machine {
    pub(crate) fn as_read(self) -> Machine
        ensures { machine_of result ≡ machine_as_read (machine_of self) }
    {
        Machine {
            m1: as_read(self.m1),
            m2: as_read(self.m2),
            k1: as_read(self.k1),
            k2: as_read(self.k2),
            k12: as_read(self.k12),
            c: as_read(self.c),
        }
    }

    pub(crate) fn in_range(self) -> bool
        ensures { result ≡ machine_in_range (machine_of self) }
    {
        in_range(self.m1)
            & in_range(self.m2)
            & in_range(self.k1)
            & in_range(self.k2)
            & in_range(self.k12)
            & in_range(self.c)
            & (LEAST_STIFFNESS <= self.c)
    }
}
