// X: the displacement of a move, with its sign.
ghost use Rattle.std.specs.Prelude.{◌≡◌};
ghost use Rattle.route_sheet.specs.Inner.Reading.{read_displacement};
ghost use Rattle.route_sheet.specs.Inner.Parts.{seen};

use crate::malformed::Malformed;
use crate::number::read_number;

// The farthest X that a sheet may hold, either way. What the planner refuses is read all the same.
const MOST_DISPLACEMENT: u64 = 9_223_372_036_854_775_807;

// The displacement that the text begins with. After a minus the size is at least 1: "-0" is malformed.
#[tactic(auto, unfolding(crate::specs::Inner::Reading::read_displacement, crate::specs::Inner::Reading::then_read))]
pub(crate) fn read_displacement(text: &[u8]) -> Result<(i64, &[u8]), Malformed<'_>>
    ensures { seen result ≡ read_displacement text.now }
{
    let [first, after @ ..] = text else {
        return Err(Malformed { rest: text });
    };
    if *first == b'-' {
        let (size, rest) = read_number(after, 1, MOST_DISPLACEMENT, b' ')?;
        return Ok((-(size as i64), rest));
    }
    let (size, rest) = read_number(text, 0, MOST_DISPLACEMENT, b' ')?;
    Ok((size as i64, rest))
}
