// The published interface: every library entry, with the prefix `nitswolan_`, over structs that C can read; `nitswolan_c` exports them to C.
// The refusal of an answer is 0 where there is none; at a refusal every other field is 0, but for the line of 11 and the place of an axis.
#![tactic(auto)]

mod axes;
mod plan;
mod sample;
mod sheet;
mod table;
mod third;

ghost use Rattle.planner.specs.Outcome.{Plans};
ghost use Rattle.planner.specs.Third.{PlansThird};
ghost use Rattle.motion.specs.Answer.{machine_of};
ghost use Rattle.motion.specs.Tables.{FillsForce, FillsPositions, FillsReference};
ghost use Rattle.motion.specs.Sampling.{Samples, fourth_order, third_order};
ghost use Rattle.route_sheet.specs.Answer.{ReadsSheet};
ghost use Rattle.route_sheet.specs.Report.{Reports};
ghost use Rattle.nitswolan.specs.Fields.{Answers, plan_fields, sample_fields, sheet_fields, table_fields, third_plan_fields};
ghost use Rattle.nitswolan.specs.Fields.{PlansSet, SamplesSet, axes_plan_fields, axes_sample_fields};

pub use axes::{Axes, AxesPlanResult, AxesSampleResult};
use motion::{Fourth, Machine, Third};
pub use plan::PlanResult;
use planner::Move;
use route_sheet::REPORT_BYTES;
pub use sample::SampleResult;
pub use sheet::SheetResult;
pub use table::TableResult;
pub use third::ThirdPlanResult;

// Plans a move, or names the first refusal that applies.
#[tactic(auto, using(crate::proofs::PlanLaws::plan_in_range))]
pub fn nitswolan_plan_move(m: Move) -> PlanResult
    ensures { Answers plan_fields (Plans m) result }
{
    PlanResult::of(planner::plan_move(&m))
}

// Plans the axes of a set that arrive together, or names the refusal.
pub fn nitswolan_plan_axes(axes: Axes) -> AxesPlanResult
    ensures { Answers axes_plan_fields (PlansSet axes) result }
{
    planner::plan_axes(axes.count, axes.moves).into()
}

// The values of a move at sample k, from 0 to N.
pub fn nitswolan_sample_move(m: Move, k: u64) -> SampleResult
    ensures { Answers sample_fields (Samples (fourth_order m) k) result }
{
    motion::sample_move::<Fourth>(&m, k).into()
}

// The values of the axes of a set at sample k, from 0 to the common N.
pub fn nitswolan_sample_axes(axes: Axes, k: u64) -> AxesSampleResult
    ensures { Answers axes_sample_fields (SamplesSet axes k) result }
{
    motion::sample_axes(axes.count, axes.moves, k).into()
}

// Fills a table with the positions of a move at samples 0 to N, for the drive to play.
pub fn nitswolan_fill_positions(m: Move, table: &mut [i64]) -> TableResult
    ensures { Answers table_fields (λ o. FillsPositions (fourth_order m) table.old o table.new) result }
{
    motion::fill_positions::<Fourth>(&m, table).into()
}

// Fills a table with the reference rows of a move, 0 to N+1, for the feedback loop, in doubled units.
pub fn nitswolan_fill_reference(m: Move, table: &mut [i64]) -> TableResult
    ensures { Answers table_fields (λ o. FillsReference (fourth_order m) table.old o table.new) result }
{
    motion::fill_reference::<Fourth>(&m, table).into()
}

// Fills a table with the force rows of a move and a machine at rows 0 to N+1, for the drive's feedforward.
pub fn nitswolan_fill_force(m: Move, machine: Machine, table: &mut [f64]) -> TableResult
    ensures { Answers table_fields (λ o. FillsForce m (machine_of machine) table.old o table.new) result }
{
    motion::fill_force(&m, machine, table).into()
}

// Plans a move in the third order, for drives without a bound on the snap: the move's own is not read.
#[tactic(auto, using(crate::proofs::PlanLaws::third_plan_in_range))]
pub fn nitswolan_plan_third(m: Move) -> ThirdPlanResult
    ensures { Answers third_plan_fields (PlansThird m) result }
{
    ThirdPlanResult::of(planner::plan_third(&m))
}

// The values of a move in the third order at sample k, from 0 to N. The snap is 0.
pub fn nitswolan_sample_third(m: Move, k: u64) -> SampleResult
    ensures { Answers sample_fields (Samples (third_order m) k) result }
{
    motion::sample_move::<Third>(&m, k).into()
}

// Fills a table with the positions of a move in the third order at samples 0 to N.
pub fn nitswolan_fill_positions_third(m: Move, table: &mut [i64]) -> TableResult
    ensures { Answers table_fields (λ o. FillsPositions (third_order m) table.old o table.new) result }
{
    motion::fill_positions::<Third>(&m, table).into()
}

// Fills a table with the reference rows of a move in the third order, 0 to N+1, in doubled units.
pub fn nitswolan_fill_reference_third(m: Move, table: &mut [i64]) -> TableResult
    ensures { Answers table_fields (λ o. FillsReference (third_order m) table.old o table.new) result }
{
    motion::fill_reference::<Third>(&m, table).into()
}

// Reads the text of a sheet, or names its refusal.
pub fn nitswolan_read_sheet(text: &[u8]) -> SheetResult
    ensures { Answers sheet_fields (ReadsSheet text.now) result }
{
    route_sheet::read_sheet(text).into()
}

// Puts what `bottlerun` prints of a sheet's text at the start of `out`, and answers how many bytes that is.
pub fn nitswolan_report(text: &[u8], out: &mut [u8; REPORT_BYTES]) -> usize
    ensures { Reports text.now out.old result out.new }
{
    route_sheet::report(text, out)
}
