// Sets of one to eight axes.
pub(crate) mod each;
pub(crate) mod raise;
pub(crate) mod rest;

ghost use Rattle.planner.specs.Axes.{PlansAxes, axes_outcome, axes_plans};

use crate::axes::each::find_each;
use crate::axes::rest::all_rest;
use crate::{AxesPlan, AxisRefusal, MOST_AXES, Move, Refusal};

// Plans the first `count` moves as the axes of a set that arrive together, or names the refusal. The array by value is document 01's form,
// and its count C's.
pub fn plan_axes(count: u64, moves: [Move; MOST_AXES]) -> Result<AxesPlan, AxisRefusal<Refusal>>
    ensures { PlansAxes count moves (axes_outcome result) (axes_plans result) }
{
    if count == 0 || (MOST_AXES as u64) < count {
        return Err(AxisRefusal {
            place: 0,
            refusal: Refusal::AxisCount,
        });
    }
    let axes = &moves[..count as usize];
    if all_rest(axes) {
        return Err(AxisRefusal {
            place: 0,
            refusal: Refusal::NoDisplacement,
        });
    }
    let mut set = find_each(axes)?;
    set.raise_each();
    Ok(set)
}
