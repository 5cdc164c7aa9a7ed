// The line of a move: its plan, or its refusal.
ghost use Rattle.std.specs.Prelude.{Ok};
ghost use Rattle.planner.specs.Outcome.{outcome_of};
ghost use Rattle.route_sheet.specs.Report.{move_report};
ghost use Rattle.route_sheet.specs.Inner.Output.{Puts};
ghost use Rattle.route_sheet.specs.Inner.Lines.{SnapWord, PlanRoom, LineRoom};

use crate::REPORT_BYTES;
use crate::output::put_line;
use planner::{Move, Plan, plan_move};

// The word before the snap's size, with the sign of X.
#[tactic(auto, using(crate::proofs::LineTextLaws::sign_negative, crate::proofs::LineTextLaws::sign_positive))]
fn snap_word(x: i64) -> &'static str
    ensures { SnapWord x result.now }
{
    if x < 0 { " snap -" } else { " snap " }
}

// The line of a planned move.
#[tactic(auto, using(crate::proofs::LineTextLaws::plan_line), unfolding(crate::specs::Inner::Output::line_text))]
fn put_plan(out: &mut [u8; REPORT_BYTES], at: usize, number: u64, x: i64, plan: Plan) -> usize
    requires { PlanRoom number x plan at }
    ensures { Puts out.old at (move_report number x (Ok plan)) result out.new }
{
    let Plan { a, b, c, e, .. } = plan;
    let fields = [
        ("move ", number),
        (" n ", a + b + c + e),
        (" p ", a),
        (" q ", b - a),
        (" r ", c - a - b),
        (" s ", e - a - b - c),
        (snap_word(x), plan.snap),
        (" short ", plan.shortfall),
    ];
    put_line(out, at, &fields)
}

// Plans a move and puts its line.
#[tactic(auto, using(crate::proofs::PlanLineLaws::refusal_is), unfolding(crate::specs::Inner::Output::line_text, crate::specs::Report::move_report, crate::specs::Report::field))]
pub(crate) fn put_move(out: &mut [u8; REPORT_BYTES], at: usize, number: u64, m: &Move) -> usize
    requires { LineRoom at number }
    ensures { Puts out.old at (move_report number m.now.displacement (outcome_of m.now)) result out.new }
{
    match plan_move(m) {
        Ok(plan) => put_plan(out, at, number, m.displacement, plan),
        Err(refusal) => put_line(
            out,
            at,
            &[("move ", number), (" refused ", refusal.number())],
        ),
    }
}
