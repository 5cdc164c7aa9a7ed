// A whole sheet: both sections, and nothing after them. It is read into a reading that is lent: an answer that holds the places would be copied
// at each step of its way.
ghost use Rattle.std.specs.Prelude.{◌≡◌};
ghost use Rattle.route_sheet.specs.Answer.{ReadsSheet};
ghost use Rattle.route_sheet.specs.Inner.Sections.{HoldsZeros, ReadsWhole, reading_in};

use crate::malformed::Malformed;
use crate::number::read_number;
use crate::sections::read_lines;
use crate::{MOST_BYTES, MOST_MOVES, MOST_SETS, SheetReading, SheetRefusal};

// Reads a text of any length.
#[tactic(auto, unfolding(crate::specs::Inner::Reading::read_whole, crate::specs::Inner::Reading::read_sections, crate::specs::Inner::Reading::then_read))]
fn read_whole<'a>(text: &'a [u8], sheet: &mut SheetReading) -> Result<(), Malformed<'a>>
    requires { HoldsZeros sheet.old }
    ensures { ReadsWhole text.now sheet.new result }
{
    let (set_count, rest) = read_number(text, 1, MOST_SETS as u64, b'\n')?;
    let rest = read_lines(rest, set_count, &mut sheet.sets[..set_count as usize])?;
    let (move_count, rest) = read_number(rest, 1, MOST_MOVES as u64, b'\n')?;
    let rest = read_lines(rest, set_count, &mut sheet.moves[..move_count as usize])?;
    if !rest.is_empty() {
        return Err(Malformed { rest });
    }
    sheet.set_count = set_count;
    sheet.move_count = move_count;
    Ok(())
}

// Reads the text of a sheet, or names its refusal.
#[tactic(auto, using(crate::proofs::ComesToLaws::shorter_rest, crate::specs::Beginning::too_long))]
pub(crate) fn read_into(text: &[u8], sheet: &mut SheetReading) -> Result<(), SheetRefusal>
    requires { HoldsZeros sheet.old }
    ensures { ReadsSheet text.now (reading_in sheet.new result) }
{
    if MOST_BYTES < text.len() {
        return Err(SheetRefusal::TooLong);
    }
    read_whole(text, sheet).map_err(|malformed| SheetRefusal::Malformed {
        line: malformed.line(text),
    })
}
