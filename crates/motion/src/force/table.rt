// The table of a move's force rows.
ghost use Rattle.motion.specs.Tables.{FillsForce};
ghost use Rattle.motion.specs.Answer.{machine_of, outcome};

use crate::force::feedforward::Feedforward;
use crate::force::rows::{Forces, RowState};
use crate::fourth::Fourth;
use crate::order::Order;
use crate::planned::Planned;
use crate::sums::fill_stretches;
use crate::{Machine, MotionRefusal};
use planner::Move;

// Writes rows 0 to N+1 where the table has room for them and the machine is in range, else refusal 8 or 10.
pub fn fill_force(m: &Move, machine: Machine, table: &mut [f64]) -> Result<usize, MotionRefusal>
    ensures { FillsForce m.now (machine_of machine) table.old (outcome result) table.new }
{
    let plan = Fourth::plan(m)?;
    let rows = plan.samples() as usize + 2;
    if table.len() < rows {
        return Err(MotionRefusal::ShortTable);
    }
    let read = machine.as_read();
    if !read.in_range() {
        return Err(MotionRefusal::MachineRange);
    }
    let stretches = plan.stretches(m, 2);
    let first = Forces {
        feedforward: Feedforward::from(read),
        current: RowState::first(),
    };
    fill_stretches(table, &stretches, first);
    Ok(rows)
}
