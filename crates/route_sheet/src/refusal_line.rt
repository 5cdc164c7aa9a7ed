// The one line of a sheet that is refused.
ghost use Rattle.std.specs.Prelude.{Err};
ghost use Rattle.route_sheet.specs.Answer.{number_and_line};
ghost use Rattle.route_sheet.specs.Report.{sheet_report};
ghost use Rattle.route_sheet.specs.Inner.Output.{Puts, Room};

use crate::output::put_line;
use crate::{REPORT_BYTES, SheetRefusal};

#[tactic(auto, unfolding(crate::specs::Report::sheet_report, crate::specs::Report::field, crate::specs::Inner::Output::line_text))]
pub(crate) fn put_sheet_refusal(out: &mut [u8; REPORT_BYTES], refusal: SheetRefusal) -> usize
    requires { Room 0 (sheet_report (Err (number_and_line refusal))) }
    ensures { Puts out.old 0 (sheet_report (Err (number_and_line refusal))) result out.new }
{
    let number = refusal.number();
    match refusal {
        SheetRefusal::Malformed { line } => {
            put_line(out, 0, &[("sheet refused ", number), (" line ", line)])
        }
        SheetRefusal::TooLong => put_line(out, 0, &[("sheet refused ", number)]),
    }
}
