// The lines of a sheet: a bound set, a move.
ghost use Rattle.route_sheet.specs.Inner.Reading.{read_set, read_move};

use crate::displacement::read_displacement;
use crate::malformed::Malformed;
use crate::number::read_number;
use crate::sections::Line;
use crate::{BoundSet, RouteMove};

// The largest number of 19 digits.
const MOST_NUMBER: u64 = 9_999_999_999_999_999_999;

// V A J S. A set names none of the others.
impl Line for BoundSet {
    ghost parse = { λ sets text. read_set text };

    #[tactic(auto, unfolding(crate::specs::Inner::Reading::read_set, crate::specs::Inner::Reading::then_read))]
    fn read(text: &[u8], _sets: u64) -> Result<(BoundSet, &[u8]), Malformed<'_>> {
        let (velocity, rest) = read_number(text, 0, MOST_NUMBER, b' ')?;
        let (acceleration, rest) = read_number(rest, 0, MOST_NUMBER, b' ')?;
        let (jerk, rest) = read_number(rest, 0, MOST_NUMBER, b' ')?;
        let (snap, rest) = read_number(rest, 0, MOST_NUMBER, b'\n')?;
        Ok((
            BoundSet {
                velocity,
                acceleration,
                jerk,
                snap,
            },
            rest,
        ))
    }
}

// X and the set number, from 1 to `sets`.
impl Line for RouteMove {
    ghost parse = { read_move };

    #[tactic(auto, unfolding(crate::specs::Inner::Reading::read_move, crate::specs::Inner::Reading::then_read))]
    fn read(text: &[u8], sets: u64) -> Result<(RouteMove, &[u8]), Malformed<'_>> {
        let (displacement, rest) = read_displacement(text)?;
        let (set, rest) = read_number(rest, 1, sets, b'\n')?;
        Ok((RouteMove { displacement, set }, rest))
    }
}
