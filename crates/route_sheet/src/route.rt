// The lines of a sheet's moves, in their order.
ghost use Rattle.std.specs.Prelude.{◌≡◌, take};
ghost use Rattle.route_sheet.specs.Sheet.{Within, most_sets};
ghost use Rattle.route_sheet.specs.Report.{move_of, moves_report};
ghost use Rattle.route_sheet.specs.Inner.Output.{Puts};
ghost use Rattle.route_sheet.specs.Inner.Route.{RouteListed};

use crate::plan_line::put_move;
use crate::{REPORT_BYTES, RouteMove, SheetReading};
use planner::Move;

impl SheetReading {
    // A move with the bounds of its set. All sheets mean start 0.
    #[tactic(auto, unfolding(crate::specs::Report::move_of))]
    fn move_of(&self, route: &RouteMove) -> Move
        requires { Within 1 most_sets route.now.set }
        ensures { result ≡ move_of self.now.sets route.now }
    {
        let bounds = self.sets[route.set as usize - 1];
        Move {
            displacement: route.displacement,
            velocity: bounds.velocity,
            acceleration: bounds.acceleration,
            jerk: bounds.jerk,
            snap: bounds.snap,
            start: 0,
        }
    }
}

// Puts the lines of a sheet's moves.
pub(crate) fn put_moves(out: &mut [u8; REPORT_BYTES], sheet: &SheetReading) -> usize
    requires { RouteListed sheet.now.moves sheet.now.move_count }
    ensures { Puts out.old 0 (moves_report sheet.now.sets 1 (take sheet.now.move_count sheet.now.moves)) result out.new }
{
    let mut at = 0;
    let routes = &sheet.moves[..sheet.move_count as usize];
    for (i, route) in routes.iter().enumerate() {
        at = put_move(out, at, i as u64 + 1, &sheet.move_of(route));
    }
    at
}
