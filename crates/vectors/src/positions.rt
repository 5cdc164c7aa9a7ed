// Tables of positions and of reference rows, in either order.
use crate::moves::read_move;
use crate::tables::{MOST_PLACES, Place, answer_table};
use motion::MotionRefusal;
use planner::Move;
use std::io;
use std::io::{Read, Write};

// What each place holds before the call: 2^62, above every row.
const MARK: i64 = 4_611_686_018_427_387_904;

impl Place for i64 {
    fn write<W: Write>(self, out: &mut W) -> io::Result<()> {
        write!(out, " {self}")
    }

    fn bits(self) -> u64 {
        self.cast_unsigned()
    }
}

// Fills a table of i64 for the move that is read.
pub(crate) fn answer_rows<
    F: FnOnce(&Move, &mut [i64]) -> Result<usize, MotionRefusal>,
    R: Read,
    W: Write,
>(input: &mut R, out: &mut W, fill: F) -> io::Result<()>
    requires { F.IsAlwaysCallable fill }
{
    let requested = read_move(input)?;
    answer_table(
        input,
        out,
        &mut [MARK; MOST_PLACES],
        |table: &mut [i64]| fill(&requested, table),
    )
}
