// What differs between the orders, and the entries of any order.
ghost use Rattle.std.specs.Prelude.{◌≡◌, ◌≤◌, ℕ, ℤ, List, Err, IfOk, nat_abs};
ghost use Rattle.planner.specs.Outcome.{most_counts};
ghost use Rattle.planner.specs.declared.Move.{Move};
ghost use Rattle.motion.specs.Answer.{outcome};
ghost use Rattle.motion.specs.Sampling.{Motion, Samples};
ghost use Rattle.motion.specs.Tables.{FillsPositions, FillsReference};
ghost use Rattle.motion.specs.Inner.Orders.{AsRuled};

use crate::planned::{Planned, sample_in};
use crate::sums::{Paired, StretchList, fill_stretches};
use crate::{MotionRefusal, Sample};
use planner::Move;

pub trait Order {
    type Plan: Planned;

    // What the rules of this order say of a move.
    ghost motion: { Move → Motion };

    ghost starts: { (m : Move) → (motion m).start ≡ m.start };

    fn plan(m: &Move) -> Result<Self::Plan, MotionRefusal>
        ensures ruled { AsRuled (motion m.now) Self.Plan.samples_of (Self.Plan.values_of m.now.displacement) (outcome result) }
        ensures in_range { IfOk result Self.Plan.in_range }
        ensures start_bound { IfOk result (λ plan. nat_abs m.now.start ≤ most_counts) };
}

// The values of a move at sample k, from 0 to N.
pub fn sample_move<O: Order>(m: &Move, k: u64) -> Result<Sample, MotionRefusal>
    ensures { Samples (O.motion m.now) k (outcome result) }
{
    let plan = O::plan(m)?;
    if plan.samples() < k {
        return Err(MotionRefusal::PastEnd);
    }
    Ok(sample_in(&plan, m, k))
}

// Fills a table with the positions of a move at samples 0 to N, for the drive to play.
pub fn fill_positions<O: Order>(m: &Move, table: &mut [i64]) -> Result<usize, MotionRefusal>
    ensures { FillsPositions (O.motion m.now) table.old (outcome result) table.new }
{
    let plan = O::plan(m)?;
    let rows = plan.samples() as usize + 1;
    if table.len() < rows {
        return Err(MotionRefusal::ShortTable);
    }
    let stretches = plan.stretches(m, 1);
    fill_stretches(table, stretches.as_slice(), plan.start(m));
    Ok(rows)
}

// Fills a table with the reference rows of a move, 0 to N+1, for the feedback loop: each is the position there plus the one before it.
pub fn fill_reference<O: Order>(m: &Move, table: &mut [i64]) -> Result<usize, MotionRefusal>
    ensures { FillsReference (O.motion m.now) table.old (outcome result) table.new }
{
    let plan = O::plan(m)?;
    let rows = plan.samples() as usize + 2;
    if table.len() < rows {
        return Err(MotionRefusal::ShortTable);
    }
    let stretches = plan.stretches(m, 2);
    fill_stretches(table, stretches.as_slice(), Paired::first(plan.start(m)));
    Ok(rows)
}
