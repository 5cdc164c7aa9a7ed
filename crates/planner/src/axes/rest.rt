// Axes at rest.
ghost use Rattle.std.specs.Prelude.{◌≡◌, ◌↔◌, All, IsTrue};
ghost use Rattle.planner.specs.Axes.{at_rest};

use crate::Move;

impl Move {
    pub(crate) fn rests(&self) -> bool
        ensures { result ≡ at_rest self.now }
    {
        self.displacement == 0
    }
}

pub(crate) fn all_rest(axes: &[Move]) -> bool
    ensures { IsTrue result ↔ All (λ m. IsTrue (at_rest m)) axes.now }
{
    axes.iter().all(|m| m.rests())
}
